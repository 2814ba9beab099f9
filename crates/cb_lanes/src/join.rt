//! Rows that are united.
ghost use Rattle.std.specs.Prelude.{◌≡◌, ◌↔◌, length, bit_or, IsTrue};
ghost use Rattle.std.specs.Simd.Lanes.{zip2};

/// Makes one in `a` what is one in `b`, and says whether `a` changed.
pub fn or_into(a: &mut [u64], b: &[u64]) -> bool
    requires { length a.old ≡ length b.now }
    ensures union { a.new ≡ zip2 bit_or a.old b.now }
    ensures changed { IsTrue result ↔ (¬ (a.new ≡ a.old)) }
{
    let mut changed = false;
    for i in 0..a.len() {
        let word = a[i] | b[i];
        if word != a[i] {
            changed = true;
        }
        a[i] = word;
    }
    changed
}
