//! The trial region: a piece of a tessellation that grows layer by layer round a first cell.
#![tactic(auto)]

pub mod corners;
mod growth;
mod radii;
mod region;

pub use region::{Grown, Region};
