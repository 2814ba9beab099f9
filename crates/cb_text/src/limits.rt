//! How long names and lines may be.

/// The most bytes of a name, be it of an instance or of anything else.
pub const LONGEST_NAME: usize = 63;

/// The most bytes of a line of a file that is read line by line, without its LF.
pub const LONGEST_LINE: usize = 4_096;
