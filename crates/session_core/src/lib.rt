//! Sessions: walkers in the tree of accepted rules, which are told commands and answer them.
#![tactic(auto)]

pub mod laws;
mod resting;
mod session;

pub use resting::Resting;
pub use session::Session;
