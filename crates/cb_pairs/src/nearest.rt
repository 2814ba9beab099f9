//! How far the nearest code is from a word.
ghost use Rattle.std.specs.Prelude.{◌≡◌, ◌==◌, ◌<◌, length};
ghost use Rattle.cb_coding.specs.Distance.{distance as distance_of, all_columns, HaveWidth};
ghost use Rattle.cb_pairs.specs.Kept.{IsNearestDistance};

use cb_bits::Row;
use cb_model::List;

/// At how many columns the nearest of some codes differs from a word.
pub(crate) fn least_from(codes: &List<Row>, word: &Row) -> usize
    requires some { 0 < length codes.now }
    requires wide { HaveWidth (length word.now) codes.now }
    ensures { IsNearestDistance codes.now word.now result }
{
    let mut least = word.distance(codes.at(0));
    for place in 1..codes.len() {
        least = least.min(word.distance(codes.at(place)));
    }
    least
}

/// Whether the distance of a code from a word is this.
pub(crate) fn is_at(word: &Row, code: &Row, distance: usize) -> bool
    requires { length word.now ≡ length code.now }
    ensures { result ≡ (distance_of (all_columns (length word.now)) word.now code.now == distance) }
{
    word.distance(code) == distance
}
