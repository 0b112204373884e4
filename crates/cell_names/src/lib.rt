//! Names of tiles: lists of sides on the way from the root, their order, and their texts.
#![tactic(auto)]

mod name;
mod text;

pub use name::Name;
pub use text::{NameFault, print_name, read_name, write_name};
