//! Logs of changes: lists of insertions and deletions of loops that lead from a walk to a walk that
//! is related to it, and the texts of logs.
//! Nothing here knows rules or trees: a log speaks of a tessellation and of walks alone.
#![tactic(auto)]

mod change;
pub mod laws;

pub use change::Change;
