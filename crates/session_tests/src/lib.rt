//! Tests of lines and sessions, called once. What they answer stands in the rows of `played_rows`.
#![tactic(auto)]

#[cfg(test)]
mod lines;
#[cfg(test)]
mod sessions;
