//! Logs of changes for two related walks: lists of insertions and deletions of loops that lead from
//! the one to the other, and that anyone can follow without rules.
//! Nothing is searched: a log is what the walk along the contour of the tree writes as it goes.
#![tactic(auto)]

mod draft;
mod making;
mod pen;
mod place;

pub use making::make_log;
