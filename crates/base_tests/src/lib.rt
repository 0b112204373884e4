//! Tests of the crates at the bottom, by their public calls, with values from outside.
#![tactic(auto)]

#[cfg(test)]
mod cones;
#[cfg(test)]
mod hands;
#[cfg(test)]
mod kinds;
#[cfg(test)]
mod names;
#[cfg(test)]
mod numbers;
#[cfg(test)]
mod samples;
#[cfg(test)]
mod sets;
#[cfg(test)]
mod streams_and_files;
#[cfg(test)]
mod tess_files;
#[cfg(test)]
mod texts;
#[cfg(test)]
mod walks;
