//! Where bytes come from and go to: a source, a sink and files, each with a count of its faults.
//! Those in memory tell their bytes; those of the machine do not.
#![tactic(auto)]

mod calls;
mod files;
mod fill_source;
mod host_files;
mod host_streams;
mod mem_files;
mod mem_sink;
mod mem_source;
mod sink;
mod source;

pub use files::{FetchFault, Files, StoreFault};
pub use fill_source::FillSource;
pub use host_files::HostFiles;
pub use host_streams::{StdSink, StdSource};
pub use mem_files::MemFiles;
pub use mem_sink::MemSink;
pub use mem_source::MemSource;
pub use sink::{Sink, WriteFault, write_piece};
pub use source::{ReadFault, Source};
