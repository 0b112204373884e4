//! Tessellations by kinds of tile: checked once, and then asked for the types of their sides.
#![tactic(auto)]

mod checks;
mod kinds;
mod moves;
mod tessellation;

pub use kinds::{DartType, Kind};
pub use tessellation::Tessellation;
pub use tile_model::KindFault;
