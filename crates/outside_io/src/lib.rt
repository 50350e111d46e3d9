//! Files and a sink outside the program: the only way of the program to files and to its output.
#![tactic(auto)]

mod calls;
mod counts;
mod host;
mod memory;
mod outside;
mod reserved;
mod safe_files;
mod safe_sink;
mod shelf;
mod whole;

pub use counts::Counts;
pub use host::{HostFiles, HostSink};
pub use memory::{MemFiles, MemSink};
pub use outside::{Failed, Files, LONGEST_NAME, Sink};
pub use safe_files::SafeFiles;
pub use safe_sink::SafeSink;
pub use whole::{ReadEnd, read_whole};
