//! Tests of the tables of an automaton and of the checker. They stand above both crates, which are
//! so proved once.
#![tactic(auto)]

#[cfg(test)]
mod checker;
#[cfg(test)]
mod tables;
