//! Tests of the crates that grow regions and patches of tiles, by their public calls.
#![tactic(auto)]

#[cfg(test)]
mod classes;
#[cfg(test)]
mod joins;
#[cfg(test)]
mod looks;
#[cfg(test)]
mod patches;
#[cfg(test)]
mod questions;
#[cfg(test)]
mod regions;
#[cfg(test)]
mod samples;
