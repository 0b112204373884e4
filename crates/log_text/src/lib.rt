//! The texts of logs of changes, read and printed: a line for each change, `ins` or `del`, the place
//! and the number of the loop, each behind a space.
#![tactic(auto)]

mod line;
mod place;
mod print;
mod read;
#[cfg(test)]
mod tests;

pub use print::print_log;
pub use read::{LogTextFault, read_log};
