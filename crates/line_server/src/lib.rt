//! Streams of bytes, answered line by line by a session.
#![tactic(auto)]

mod answer;
pub mod laws;
mod lines;
mod reader;
mod stream;
mod whole;
mod writing;

pub use stream::{Ending, serve};
pub use whole::answer_whole;
