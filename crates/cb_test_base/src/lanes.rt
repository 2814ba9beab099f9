//! Rows of many lengths that differ in one bit: of the first word, of the last whole lane, of the last word.
ghost use Rattle.std.specs.Prelude.{◌≡◌, ◌≤◌, ◌<◌, length};

use cb_lanes::{and_any, distance, distance_under, equal, next_in_a_not_b, or_into};
use std::alloc::{AllocError, Global};
use std::test::Fail;

// Whether each kernel finds that bit of `a` that `b` lacks, which `only` has alone.
fn is_found(a: &[u64], b: &[u64], only: &[u64], bit: usize) -> bool
    requires same { length a.now ≡ length b.now }
    requires masked { length a.now ≡ length only.now }
    requires few { length a.now ≤ 70 }
    requires fits { bit < 4480 }
{
    let counted = distance(a, b) == 1 && distance_under(a, b, only) == 1;
    let compared = !equal(a, b) && and_any(a, only) && !and_any(b, only);
    let next = next_in_a_not_b(a, b, 0) == Some(bit) && next_in_a_not_b(a, b, bit + 1).is_none();
    counted && compared && next && distance_under(a, b, b) == 0
}

// Whether the kernels tell two rows of `n` words apart that differ in the last bit of one word alone.
fn are_distinguished(alloc: Global, n: usize, word: usize) -> Result<bool, AllocError> {
    let mut a = vec![in alloc; 0x00ff_00ff_0000_0001_u64; n]?;
    let mut b = vec![in alloc; 0x00ff_00ff_0000_0001_u64; n]?;
    let mut only = vec![in alloc; 0_u64; n]?;
    if 70 < n || n <= word || a.len() != n || b.len() != n || only.len() != n {
        return Ok(n == 0);
    }
    let alike = equal(&a, &b) && distance(&a, &b) == 0 && !and_any(&a, &only);
    a[word] |= 1 << 63;
    only[word] = 1 << 63;
    let found = is_found(&a, &b, &only, 64 * word + 63);
    let united = !or_into(&mut a, &b) && or_into(&mut b, &a) && equal(&a, &b);
    Ok(alike && found && united)
}

#[test]
fn every_length(rt: HostRuntime) -> Result<(), Fail> {
    for n in 0..=70_usize {
        let last = n.saturating_sub(1);
        for word in [0, (n / 4 * 4).saturating_sub(1), last] {
            assert!(rt; are_distinguished(rt.alloc(), n, word)?, "{n} {word}");
        }
    }
    Ok(())
}
