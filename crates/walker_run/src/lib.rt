//! What a call of the program comes to: it reads the files that its words name, and says one line
//! or answers the commands of the input.
#![tactic(auto)]

mod below;
pub mod laws;
mod learn;
mod line;
mod load;
mod logs;
mod merging;
mod say;
mod serve;
mod status;
mod stop;
mod tasks;
mod top;
mod words;

pub use line::{Line, Role};
pub use status::Status;
pub use stop::Stop;
pub use tasks::{Work, open_file, open_taught};
pub use top::run;
pub use words::words_read;
