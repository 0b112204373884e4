//! The checker: whether an automaton meets the twelve conditions over a tessellation, and where it
//! first breaks one.
#![tactic(auto)]

mod broken;
mod conditions;
mod corners;
mod cycles;
pub mod laws;
mod reading;
mod roots;
mod rules;
mod sides;
mod table;

pub use broken::Broken;
pub use reading::type_of as side_type;
pub use rules::{Rules, check, first_broken};
