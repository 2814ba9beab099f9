//! Guesses, and those that fit a word.

use cb_model::List;

/// One group, or two at once, each by its position among the groups.
#[derive(Clone, Copy, Debug)]
pub struct Guess {
    pub first: u32,
    /// After the first one.
    pub second: Option<u32>,
}

/// The guesses nearest to a word, in order.
#[derive(Drop)]
pub struct Fits {
    /// At how many columns their codes differ from the word.
    pub distance: u32,
    pub guesses: List<Guess>,
    /// Whether that is within the radius.
    pub sure: bool,
}

/// Why there are no `Pairs`.
#[derive(Clone, Copy, Debug)]
pub enum PairFault {
    /// There are more groups than are taken two at a time.
    TooManyGroups { groups: u32 },
    /// Memory ran out.
    NoMemory,
}
