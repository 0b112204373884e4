//! The words of a call of the program, and what they ask for.
#![tactic(auto)]

mod forms;
pub mod laws;
mod options;

pub use forms::{Form, WordsFault, read_words};
pub use options::{DEFAULT_CELLS, MOST_CELLS, Named, Origin};
