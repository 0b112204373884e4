//! Rings of names: how many there are of each length, counted ring by ring, and which, one by one in order.
#![tactic(auto)]

mod asked;
mod family;
mod fault;
mod listing;
mod sizes;
mod tally;
mod trail;

pub use asked::ring;
pub use fault::{CountFault, RingFault};
pub use listing::Ring;
pub use sizes::{RingSizes, count};
