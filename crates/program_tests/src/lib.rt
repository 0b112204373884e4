//! Tests of the program that take long or much: a million lines at random, and files and streams of
//! a byte too many. The rows of the program are played by `played_rows`.
#![tactic(auto)]

#[cfg(test)]
mod call;
#[cfg(test)]
mod limits;
#[cfg(test)]
mod random_lines;
