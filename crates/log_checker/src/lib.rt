//! A checker of logs of changes: it follows a log from a walk, and says whether it leads to another.
//! Who trusts it trusts no automaton, no tree and no rules: it knows the tessellation and the five
//! loops alone.
#![tactic(auto)]

mod checking;
mod footprints;
mod loops;
mod piece;
mod seeking;
#[cfg(test)]
mod tests;
mod trail;

pub use checking::{LogFault, verify};
