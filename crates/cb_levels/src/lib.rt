//! How far each node is from a problem that causes it, the shortest chain of edges to it, and certificates of both.
#![tactic(auto)]

mod fault;
mod followed;
pub mod laws;
mod levels;
mod limits;
mod line;
mod reader;
mod reading;
mod verdict;
mod words;
mod writer;

pub use fault::LevelText;
pub use followed::{chain, follow};
pub use levels::{LevelEntry, Levels};
pub use line::LevelLine;
pub use reading::read_levels;
pub use verdict::{LevelFault, Proved};
pub use writer::write_levels;
