//! Classes of the cells and corners of a region by their looks: what the states and the corner
//! types of a candidate are read off.
#![tactic(auto)]

mod contour;
mod corners;
mod faces;
mod group;
pub mod laws;
mod lists;
mod looks;
mod numbering;
mod places;
mod rule;
mod tree;

pub use group::classes;
pub use lists::Classes;
pub use looks::Looks;
pub use rule::SideRule;
