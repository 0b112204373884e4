//! Spots in the tree of accepted rules and their steps to a child and to the parent, the sides of a tile, and laws of
//! accepted rules.
#![tactic(auto)]

pub mod laws;
mod sides;
mod spot;

pub use sides::{brackets_fit, left_by, next_left, next_right, right_by, rule};
pub use spot::Spot;
