//! Turns, crossings and walks of spots in the tree of accepted rules.
#![tactic(auto)]

mod crossing;
mod detour;
mod fault;
pub mod laws;
mod names;
mod steps;
mod tile;

pub use crossing::{Contour, Crossing};
pub use detour::Detour;
pub use fault::{DEEPEST, StepFault};
pub use names::walk_between;
pub use steps::{cross, root_spot, spot_walk, turn_left, turn_right, walk, walk_over};
