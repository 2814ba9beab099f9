//! How far apart a wish wants two codes.
ghost use Rattle.std.specs.Prelude.{◌≡◌, ◌<◌, ◌≤◌, ◌⊎◌, ℕ, length, IsTrue};
ghost use Rattle.cb_model.specs.declared.wish.Wish.TheVariants.{Plain, Cap};
ghost use Rattle.cb_coding.specs.Distance.{all_columns, apart};
ghost use Rattle.cb_coding.specs.Needs.{need_of, capped_need};
ghost use Rattle.cb_codes.specs.Codes.{Coded};

use cb_codes::Codes;
use cb_model::Wish;

/// How far apart a wish wants the codes at two positions.
pub(crate) fn need(codes: &Codes, wish: Wish, first: usize, second: usize) -> u32
    requires first { first < length codes.now.rows }
    requires second { second < length codes.now.rows }
    ensures { result ≡ need_of codes.now.width codes.now.rows wish first second }
{
    match wish {
        Wish::Plain(distance) => distance,
        Wish::Cap(cap) => capped(codes, cap, first, second),
    }
}

/// Whether the number of a wish is 1.
pub(crate) fn asks_one(wish: Wish) -> bool
    ensures { IsTrue result → (wish ≡ Plain 1) ⊎ (wish ≡ Cap 1) }
{
    number_of(wish) == 1
}

/// The number of a wish. Two codes that are no farther apart need to be as far apart as they are.
pub(crate) fn number_of(wish: Wish) -> u32
    ensures is { (wish ≡ Plain result) ⊎ (wish ≡ Cap result) }
    ensures enough { (codes : Coded) (i j : ℕ) → apart (all_columns codes.width) codes.rows i j ≤ result
        → apart (all_columns codes.width) codes.rows i j ≤ need_of codes.width codes.rows wish i j }
{
    match wish {
        Wish::Plain(distance) => distance,
        Wish::Cap(cap) => cap,
    }
}

/// How far apart two codes are, or the cap where that is less.
pub(crate) fn capped(codes: &Codes, cap: u32, first: usize, second: usize) -> u32
    requires first { first < length codes.now.rows }
    requires second { second < length codes.now.rows }
    ensures { result ≡ capped_need codes.now.width codes.now.rows cap first second }
{
    match codes.distance_below(first, second, cap as usize) {
        Some(distance) => distance as u32,
        None => cap,
    }
}
