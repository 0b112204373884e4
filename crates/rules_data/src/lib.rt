//! The tables of a tree automaton: its states, its corner types and its roots, as a file gives them
//! and before any condition is checked.
#![tactic(auto)]

mod automaton;
mod corner;
mod state;
mod turning;

pub use automaton::Automaton;
pub use corner::Corner;
pub use state::State;
pub use tree_model::{Claim, Rule};
pub use turning::{left_side, right_side};
