//! The lines of the command stream: commands read from them, and replies printed as lines.
#![tactic(auto)]

mod command;
mod cutting;
pub mod laws;
mod reply;

pub use command::{CommandFault, LONGEST_LINE, LineFault, read_command, read_line};
pub use cutting::cut_at;
pub use reply::{bad_line, print_reply, too_long_line, write_reply};
pub use reply_model::{Bytes, Command, Reply};
