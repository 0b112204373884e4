//! Tools for rules: merging the states that no path tells apart, and the path that tells two states
//! apart.
#![tactic(auto)]

mod children;
mod first_path;
mod joined;
mod keys;
mod ledger;
mod merging;
mod numbers;
mod pairs;
mod parents;
mod reached;
mod reducing;
mod rounds;
mod rows;
mod search;
mod splitting;
mod stability;

pub use first_path::telling;
pub use merging::{Merged, merge};
