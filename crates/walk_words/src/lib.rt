//! Walks as lists of letters: the types that they lead to, the way back, and their texts.
#![tactic(auto)]

mod text;
mod walk;

pub use text::{WalkFault, print_walk, read_walk};
pub use tile_model::Letter;
pub use walk::{Walk, type_of};
