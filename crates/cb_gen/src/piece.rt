//! Pieces of texts, each written at the end of one.
ghost use Rattle.std.specs.Prelude.{◌≡◌, ◌++◌, decimal, OnOk};
ghost use Rattle.cb_gen.specs.Log.{tick_text};

use itoa::Buffer;
use std::alloc::AllocError;

/// Adds words, and then the digits of a number.
pub(crate) fn push_number(out: &mut Vec<u8>, words: &[u8], number: u64) -> Result<(), AllocError>
    ensures { OnOk result (out.new.items ≡ out.old.items ++ (words.now ++ decimal number)) }
{
    let mut digits = Buffer::new();
    out.extend_from_slice(words)?;
    out.extend_from_slice(digits.format(number).as_bytes())
}

/// Adds the line of a tick.
pub(crate) fn push_tick(out: &mut Vec<u8>, at: u64) -> Result<(), AllocError>
    ensures { OnOk result (out.new.items ≡ out.old.items ++ tick_text at) }
{
    push_number(out, b"{\"at\":", at)?;
    out.extend_from_slice(b",\"tick\":true}\n")
}
