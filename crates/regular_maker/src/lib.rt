//! The rules of every infinite regular tessellation, made from the number of sides of its tiles and
//! the number of tiles at its corners.
#![tactic(auto)]

mod corners;
mod fault;
pub mod laws;
mod maker;
mod numbering;
mod states;
mod symbol;

pub use fault::RegFault;
pub use maker::regular;
