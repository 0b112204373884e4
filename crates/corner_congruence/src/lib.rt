//! The corner types of a base automaton, by the congruence that the conditions force on corners,
//! and the coarsest automaton of an automaton with corner types.
#![tactic(auto)]

mod classes;
mod congruence;
mod edges;
mod failure;
mod looks;
mod merging;
mod row;
mod states;

pub use congruence::corner_types;
pub use merging::merged;
