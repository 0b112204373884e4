//! What the contracts of all crates speak of: tessellations by kinds of tile, walks over them, and
//! which walks are related.
#![tactic(auto)]

mod fault;
pub mod laws;

pub use fault::KindFault;

/// A letter of a walk: turn to the next side, turn to the previous side, cross the faced side.
#[derive(Clone, Copy, Debug, PartialEq, Eq)]
pub enum Letter {
    L,
    R,
    X,
}
