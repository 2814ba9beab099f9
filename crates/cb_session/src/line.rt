//! Lines of a log, as a session takes them.

/// A line with its number, counted from 1.
#[derive(Clone, Copy)]
pub enum LogLine<'l> {
    /// Its bytes, at most 65,536, without a LF.
    Text { number: u64, bytes: &'l [u8] },
    /// It has too many bytes, which were ignored.
    Long { number: u64 },
}
