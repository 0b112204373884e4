//! Candidates: automata that are read off regions of a tessellation, to one horizon after the
//! other.
#![tactic(auto)]

mod assemble;
mod candidates;
mod darts;
mod gather;
pub mod laws;
mod offsets;
mod reader;
mod rows;
mod starts;

pub use candidates::Candidates;
