//! Reads the text of a tessellation, of either version, and prints it in version 1.
#![tactic(auto)]

mod entry;
mod fault;
pub mod laws;
mod print;
mod read;
mod scan;
mod tables;
mod version;

pub use fault::TessFault;
pub use print::print_tess;
pub use read::read_tess;
