//! Four words at a time.
ghost use Rattle.std.specs.Prelude.{◌≡◌, ◌≢◌, ◌↔◌, ◌≤◌, ◌+◌, length, IsTrue};
ghost use Rattle.std.specs.Simd.Lanes.{chunk};
ghost use Rattle.cb_lanes.specs.Parts.{SameWords, WordsApart};

use std::simd::prelude::*;

/// Whether four words, from a position on, are the same in both rows.
#[inline(always)]
pub(crate) fn same_four(a: &[u64], b: &[u64], at: usize) -> bool
    requires first { at + 4 ≤ length a.now }
    requires second { at + 4 ≤ length b.now }
    ensures { IsTrue result ↔ SameWords a.now b.now at (at + 4) }
{
    (load(a, at) ^ load(b, at)).reduce_or() == 0
}

/// Whether no bit of four words, from a position on, is one in both rows.
#[inline(always)]
pub(crate) fn apart_four(a: &[u64], b: &[u64], at: usize) -> bool
    requires first { at + 4 ≤ length a.now }
    requires second { at + 4 ≤ length b.now }
    ensures { IsTrue result ↔ WordsApart a.now b.now at (at + 4) }
{
    (load(a, at) & load(b, at)).reduce_or() == 0
}

// The four words from a position on.
#[inline(always)]
fn load(words: &[u64], at: usize) -> u64x4
    requires { at + 4 ≤ length words.now }
    ensures { result ≡ chunk at 4 words.now }
{
    u64x4::from_slice(&words[at..])
}
