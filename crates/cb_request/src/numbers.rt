//! Words that are numbers.
ghost use Rattle.std.specs.Prelude.{◌≡◌};
ghost use Rattle.cb_request.specs.Numbers.{number_in as number_of, distance_in as distance_of, depth_in as depth_of, window_in as window_of, sites_in as sites_of, start_in as start_of, wish_in as wish_of};

use cb_model::Wish;
use cb_text::decimal_of;

// A wanted distance.
fn distance_in(word: &str) -> Option<u64>
    ensures { result ≡ distance_of word.now }
{
    number_in(1, 9_999, word)
}

/// The length of a window.
pub(crate) fn window_in(word: &str) -> Option<u64>
    ensures { result ≡ window_of word.now }
{
    number_in(1, 1_000_000_000_000, word)
}

/// How many edits can be taken back.
pub(crate) fn depth_in(word: &str) -> Option<u64>
    ensures { result ≡ depth_of word.now }
{
    number_in(1, 1_024, word)
}

/// A number of sites.
pub(crate) fn sites_in(word: &str) -> Option<u64>
    ensures { result ≡ sites_of word.now }
{
    number_in(1, 256, word)
}

/// Where a generator starts.
pub(crate) fn start_in(word: &str) -> Option<u64>
    ensures { result ≡ start_of word.now }
{
    number_in(0, u64::MAX, word)
}

/// A wanted distance, or a cap.
pub(crate) fn wish_in(word: &str) -> Option<Wish>
    ensures { result ≡ wish_of word.now }
{
    match word.strip_prefix("cap") {
        Some(number) => Some(Wish::Cap(distance_in(number)? as u32)),
        None => Some(Wish::Plain(distance_in(word)? as u32)),
    }
}

// The number that the word is, if it is one from the least to the most.
fn number_in(least: u64, most: u64, word: &str) -> Option<u64>
    ensures { result ≡ number_of least most word.now }
{
    match decimal_of(word.as_bytes()) {
        Some(number) if least <= number && number <= most => Some(number),
        _ => None,
    }
}
