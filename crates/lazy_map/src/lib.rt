//! Texts on tiles: a map from the names of tiles to texts of at most 64 bytes.
#![tactic(auto)]

mod map;
mod text;

pub use map::{LONGEST_TEXT, LazyMap, PutFault};
