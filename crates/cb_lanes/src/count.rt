//! Numbers of differing bits.
ghost use Rattle.std.specs.Prelude.{◌≡◌, ◌≤◌, length};
ghost use Rattle.cb_lanes.specs.Words.{differing_bits, differing_bits_under, word_limit};

/// How many bits differ.
pub fn distance(a: &[u64], b: &[u64]) -> u32
    requires same { length a.now ≡ length b.now }
    requires few { length a.now ≤ word_limit }
    ensures { result ≡ differing_bits a.now b.now }
{
    let mut count = 0;
    for i in 0..a.len() {
        count += (a[i] ^ b[i]).count_ones();
    }
    count
}

/// How many bits differ where the mask has a one.
pub fn distance_under(a: &[u64], b: &[u64], mask: &[u64]) -> u32
    requires same { length a.now ≡ length b.now }
    requires masked { length a.now ≡ length mask.now }
    requires few { length a.now ≤ word_limit }
    ensures { result ≡ differing_bits_under a.now b.now mask.now }
{
    let mut count = 0;
    for i in 0..a.len() {
        count += ((a[i] ^ b[i]) & mask[i]).count_ones();
    }
    count
}
