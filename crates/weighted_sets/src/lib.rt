//! Disjoint sets of elements that have places and depths, of which only differences are known
//! (union-find with weights).
#![tactic(auto)]

mod fault;
mod sets;
mod shift;

pub use fault::TieFault;
pub use sets::{Found, WeightedSets};
pub use shift::Shift;
