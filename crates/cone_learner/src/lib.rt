//! The learner by cone types: it makes the cells that it must look at, reads a base automaton off
//! them, adds corner types, and hands back rules where the checker accepts them.
//!
//! Nothing here is trusted. The rules are right since `structure_check` accepted them; how they
//! were come by is proved only to be safe, to end, and to make no more cells than were allowed.
#![tactic(auto)]

mod candidates;
mod learner;
mod limits;
mod refining;

pub use learner::learn_cones;
