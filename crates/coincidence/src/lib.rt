//! A growing table of cells and of the darts known to be joined, in which cells that turn out to be
//! one tile are renamed at once.
#![tactic(auto)]

mod dart;
mod divisor;
mod joins;
mod origin;
mod table;

pub use dart::Dart;
pub use joins::Joins;
