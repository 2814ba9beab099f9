//! A log taken line by line: what results from each line, and from the end.
#![tactic(auto)]

mod act;
mod basis;
mod book;
mod course;
mod entry;
mod extremes;
mod fixed;
mod line;
mod reported;
mod session;
mod stated;
mod wanted;

pub use line::LogLine;
pub use session::Session;
pub use stated::{StatedBook, StatedWish};
