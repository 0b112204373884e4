//! Laws of merging the states of an automaton that no path tells apart.
#![tactic(auto)]

pub mod laws;
