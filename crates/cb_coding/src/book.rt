//! Codebooks, pairs of codes and answers.
use cb_model::List;

/// Two codes by their positions, the lesser first, and at how many columns they differ.
#[derive(Clone, Copy, Debug, PartialEq, Eq)]
pub struct Pair {
    pub first: u32,
    pub second: u32,
    pub distance: u32,
}

/// The columns that are looked at, as rising positions, and a distance: over a good book any two codes are at least so far apart.
#[derive(Drop)]
pub struct Book {
    pub columns: List<u32>,
    pub distance: u32,
}

/// The columns that are looked at, as rising positions; a cap; and for each code its radius, how many lost or spurious symptoms it
/// tolerates. Over a good book any two codes are at least as far apart as over all columns, or
/// as the cap where that is less.
#[derive(Drop)]
pub struct CapBook {
    pub columns: List<u32>,
    pub cap: u32,
    pub radii: List<u32>,
}

/// The groups nearest to a word, as rising positions; at how many columns their codes differ from it; and whether that
/// is within the radius of one of them. Over a good book no other group can be meant then.
#[derive(Drop)]
pub struct Answer {
    pub distance: u32,
    pub groups: List<u32>,
    pub sure: bool,
}
