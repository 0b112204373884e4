//! Tests of walks, distances and rings, each called once or twice. Tables of what they answer stand
//! in the rows of `played_rows`.
#![tactic(auto)]

#[cfg(test)]
mod distances;
#[cfg(test)]
mod logged;
#[cfg(test)]
mod rings;
#[cfg(test)]
mod spots;
#[cfg(test)]
mod steps;
