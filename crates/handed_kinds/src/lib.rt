//! Tessellations whose joins may show the tile across with the other hand: checked once, asked for
//! the types of their sides, and expanded to twice as many plain kinds.
#![tactic(auto)]

mod checks;
mod expand;
mod handed;
mod kinds;
pub mod laws;
mod moves;
mod walks;

pub use handed::Handed;
pub use kinds::{HandKind, HandType};
pub use tile_model::KindFault;
pub use walks::handed_type;
