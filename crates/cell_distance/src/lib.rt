//! Distances between tiles, and shortest walks from one to the other.
#![tactic(auto)]

mod arrival;
mod between;
mod fault;
mod spots;

pub use between::{distance, shortest};
pub use fault::DistFault;
pub use spots::{spot_distance, spot_shortest};
