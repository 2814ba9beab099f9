//! What the program reads from and writes to: named files and sinks, which count their faults.
#![tactic(auto)]

mod calls;
mod hand;
mod host_files;
mod host_sink;
mod line_end;
mod line_reader;
mod mem_files;
mod mem_sink;
mod never;
mod outside;
mod whole;

pub use host_files::HostFiles;
pub use host_sink::HostSink;
pub use line_reader::{Line, LineReader};
pub use mem_files::MemFiles;
pub use mem_sink::MemSink;
pub use never::{NeverFiles, NeverSink};
pub use outside::{Failed, FileStop, Files, Sink};
pub use whole::{ReadStop, read_whole, write_all};
