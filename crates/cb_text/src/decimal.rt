//! Numbers, as bytes.
ghost use Rattle.std.specs.Prelude.{◌≡◌, ◌↔◌, ◌+◌, ◌-◌, ◌*◌, ◌<◌, ◌^◌, ℕ, true, IfSome, IfNone, IsTrue};
ghost use Rattle.std.specs.Char.{is_ascii_digit};
ghost use Rattle.std.specs.Option.{SomeIff};
ghost use Rattle.cb_text.specs.Decimals.{IsDecimal, AreDigits, HasLeadingZero, number_of};

/// The number that is written with these bytes. Other forms of a number, with a plus or with leading zeros, are none.
pub fn decimal_of(bytes: &[u8]) -> Option<u64>
    ensures number { IfSome result (IsDecimal bytes.now) }
    ensures none { IfNone result ((number : ℕ) → ¬ IsDecimal bytes.now number) }
{
    if bytes.is_empty() {
        return None;
    }
    if is_padded(bytes) {
        return None;
    }
    read_digits(bytes)
}

// Whether there is a leading zero with other bytes after it.
fn is_padded(bytes: &[u8]) -> bool
    ensures { IsTrue result ↔ HasLeadingZero bytes.now }
{
    bytes.len() > 1 && bytes[0] == b'0'
}

// The number of these digits, of which the first may be zeros.
fn read_digits(bytes: &[u8]) -> Option<u64>
    ensures number { IfSome result (λ number. AreDigits bytes.now × (number_of bytes.now ≡ number) × (number < 2 ^ 64)) }
    ensures none { IfNone result (AreDigits bytes.now → ¬ (number_of bytes.now < 2 ^ 64)) }
{
    let mut number = 0;
    for byte in bytes {
        let Some(more) = with_digit(number, *byte) else {
            return None;
        };
        number = more;
    }
    Some(number)
}

// The number with one digit more.
fn with_digit(number: u64, byte: u8) -> Option<u64>
    ensures { SomeIff result ((is_ascii_digit byte ≡ true) × (number * 10 + (byte - 48) < 2 ^ 64)) (number * 10 + (byte - 48)) }
{
    if !byte.is_ascii_digit() {
        return None;
    }
    let Some(tens) = number.checked_mul(10) else {
        return None;
    };
    tens.checked_add(u64::from(byte - b'0'))
}
