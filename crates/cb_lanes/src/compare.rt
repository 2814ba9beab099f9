//! Rows that are compared.
ghost use Rattle.std.specs.Prelude.{◌≡◌, ◌↔◌, ◌*◌, ◌/◌, ◌≤◌, length, IsTrue};
ghost use Rattle.cb_lanes.specs.Words.{HaveCommonBit};
ghost use Rattle.cb_lanes.specs.Parts.{SameWords, WordsApart};

use crate::four::{apart_four, same_four};

/// Whether the two are one row.
pub fn equal(a: &[u64], b: &[u64]) -> bool
    requires { length a.now ≡ length b.now }
    ensures { IsTrue result ↔ (a.now ≡ b.now) }
{
    lanes_are_same(a, b) && rest_is_same(a, b)
}

/// Whether some bit is one in both.
pub fn and_any(a: &[u64], b: &[u64]) -> bool
    requires { length a.now ≡ length b.now }
    ensures { IsTrue result ↔ HaveCommonBit a.now b.now }
{
    if !lanes_are_apart(a, b) {
        return true;
    }
    !rest_is_apart(a, b)
}

// Whether the whole lanes are the same.
fn lanes_are_same(a: &[u64], b: &[u64]) -> bool
    requires { length a.now ≡ length b.now }
    ensures { IsTrue result ↔ SameWords a.now b.now 0 (4 * (length a.now / 4)) }
{
    for lane in 0..a.len() / 4 {
        if !same_four(a, b, 4 * lane) {
            return false;
        }
    }
    true
}

// Whether the words after the last whole lane are the same.
fn rest_is_same(a: &[u64], b: &[u64]) -> bool
    requires { length a.now ≡ length b.now }
    ensures { IsTrue result ↔ SameWords a.now b.now (4 * (length a.now / 4)) (length a.now) }
{
    for i in 4 * (a.len() / 4)..a.len() {
        if a[i] != b[i] {
            return false;
        }
    }
    true
}

// Whether no bit of the whole lanes is one in both.
fn lanes_are_apart(a: &[u64], b: &[u64]) -> bool
    requires { length a.now ≡ length b.now }
    ensures { IsTrue result ↔ WordsApart a.now b.now 0 (4 * (length a.now / 4)) }
{
    for lane in 0..a.len() / 4 {
        if !apart_four(a, b, 4 * lane) {
            return false;
        }
    }
    true
}

// Whether no bit of the words after the last whole lane is one in both.
fn rest_is_apart(a: &[u64], b: &[u64]) -> bool
    requires { length a.now ≡ length b.now }
    ensures { IsTrue result ↔ WordsApart a.now b.now (4 * (length a.now / 4)) (length a.now) }
{
    for i in 4 * (a.len() / 4)..a.len() {
        if a[i] & b[i] != 0 {
            return false;
        }
    }
    true
}
