//! Laws of the tree of accepted rules that say that it never ends.
#![tactic(auto)]

pub mod laws;
