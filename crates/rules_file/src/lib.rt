//! Rules files: the tables of an automaton as JSON text, read with the exact shape of the format,
//! and printed in one canonical form.
#![tactic(auto)]

mod entry;
mod fault;
mod laws;
mod number;
mod print;
mod read;
mod take;

pub use fault::{Part, RulesFault};
pub use laws::{canonical_text_law, first_fault_law, one_automaton_law};
pub use print::print_rules;
pub use read::read_rules;

#[cfg(test)]
mod tests;
