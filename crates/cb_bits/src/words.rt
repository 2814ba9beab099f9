//! Single bits of a slice of words: bit k is bit k % 64, counted from the least, of word k / 64.
ghost use Rattle.std.specs.Prelude.{◌≡◌, ◌≢◌, ◌<◌, ◌≤◌, ◌*◌, ◌^◌, ℕ, [], length, true, false, replicate, bit_xor, IfOk, IfSome, IfNone, SomeIff};
ghost use Rattle.std.specs.Simd.Lanes.{zip2};
ghost use Rattle.std.specs.List.{All};
ghost use Rattle.std.specs.Slice.Scan.{HoldsNowhere};
ghost use Rattle.cb_lanes.specs.Words.{bit_of, count_bits, in_not, IsNextBit};
ghost use Rattle.cb_bits.specs.Bits.{words_for};

use std::alloc::{AllocError, Global};

/// The words as they are, which contracts see to be of 64 bits.
pub(crate) fn as_words(words: &[u64]) -> &[u64]
    ensures same { result.now ≡ words.now }
    ensures small { All (λ word. word < 2 ^ 64) result.now }
{
    words
}

/// The bit at a position.
pub(crate) fn is_set(words: &[u64], k: usize) -> bool
    requires { k < 64 * length words.now }
    ensures { result ≡ bit_of words.now k }
{
    words[k / 64] >> (k % 64) & 1 == 1
}

/// Makes the bit at a position one.
pub(crate) fn set_bit(words: &mut [u64], k: usize)
    requires { k < 64 * length words.old }
    ensures one { bit_of words.new k ≡ true }
    ensures others { (i : ℕ) → i ≢ k → bit_of words.new i ≡ bit_of words.old i }
{
    words[k / 64] |= 1 << (k % 64);
}

/// Makes the bit at a position zero.
pub(crate) fn clear_bit(words: &mut [u64], k: usize)
    requires { k < 64 * length words.old }
    ensures zero { bit_of words.new k ≡ false }
    ensures others { (i : ℕ) → i ≢ k → bit_of words.new i ≡ bit_of words.old i }
{
    words[k / 64] &= !(1 << (k % 64));
}

/// Makes all bits zero.
pub(crate) fn clear_all(words: &mut [u64])
    ensures { words.new ≡ replicate (length words.old) 0 }
{
    words.fill(0);
}

/// As many zeros as `n` bits need words.
pub(crate) fn zero_words(alloc: Global, n: usize) -> Result<Vec<u64>, AllocError>
    ensures { IfOk result (λ words. words.items ≡ replicate (words_for n) 0) }
{
    vec![in alloc; 0; n.div_ceil(64)]
}

/// How many bits are one. Most words of a sparse row have none, and a look is cheaper than a count.
pub(crate) fn count_ones(words: &[u64]) -> usize
    requires { count_bits words.now < 2 ^ 64 }
    ensures { result ≡ count_bits words.now }
{
    let mut count = 0;
    for i in 0..words.len() {
        let word = words[i];
        if word == 0 {
            continue;
        }
        count += word.count_ones() as usize;
    }
    count
}

/// How many bits differ.
pub(crate) fn count_differing(words: &[u64], other: &[u64]) -> usize
    requires same { length words.now ≡ length other.now }
    requires few { count_bits (zip2 bit_xor words.now other.now) < 2 ^ 64 }
    ensures { result ≡ count_bits (zip2 bit_xor words.now other.now) }
{
    let mut count = 0;
    for i in 0..words.len() {
        count += (words[i] ^ other[i]).count_ones() as usize;
    }
    count
}

/// How many bits differ, where these are fewer than the limit.
pub(crate) fn count_differing_below(words: &[u64], other: &[u64], limit: usize) -> Option<usize>
    requires same { length words.now ≡ length other.now }
    requires few { count_bits (zip2 bit_xor words.now other.now) < 2 ^ 64 }
    ensures { let count = count_bits (zip2 bit_xor words.now other.now) in
        SomeIff result (count < limit) count }
{
    let mut count = 0;
    for i in 0..words.len() {
        if limit <= count {
            return None;
        }
        let apart = words[i] ^ other[i];
        count += apart.count_ones() as usize;
    }
    if count < limit { Some(count) } else { None }
}

/// The first bit, from a position on, that is one. Words without a bit are passed at a look.
pub(crate) fn next_bit(words: &[u64], from: usize) -> Option<usize>
    requires { 64 * length words.now ≤ 2 ^ 64 }
    ensures next { IfSome result (IsNextBit words.now [] from) }
    ensures none { IfNone result (HoldsNowhere (in_not words.now []) from (64 * length words.now)) }
{
    for i in from / 64..words.len() {
        let word = words[i];
        if word == 0 {
            continue;
        }
        let start = from.max(64 * i);
        let left = word >> (start % 64);
        if left != 0 {
            return Some(start + left.trailing_zeros() as usize);
        }
    }
    None
}
