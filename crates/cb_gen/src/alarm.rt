//! The lines of alarms.
ghost use Rattle.std.specs.Prelude.{◌≡◌, ◌++◌, ◌<◌, OnOk};
ghost use Rattle.cb_gen.specs.Log.{alarm_line, alarm_words as words_of_alarm};

use crate::piece::push_number;
use std::alloc::AllocError;

/// Adds the line of an alarm: its time, its source, and what it says of which site.
pub(crate) fn push_alarm(
    out: &mut Vec<u8>,
    at: u64,
    source: u64,
    kind: u64,
    site: u64,
) -> Result<(), AllocError>
    requires { kind < 6 }
    ensures { OnOk result (out.new.items ≡ out.old.items ++ alarm_line at source kind site) }
{
    push_number(out, b"{\"at\":", at)?;
    push_number(out, b",\"from\":\"c", source)?;
    push_number(out, alarm_words(kind), site)?;
    out.extend_from_slice(b"\"}\n")
}

// What an alarm says, up to the number of the site.
fn alarm_words(kind: u64) -> &'static [u8]
    requires { kind < 6 }
    ensures { result.now ≡ words_of_alarm kind }
{
    match kind {
        0 => b"\",\"raise\":\"Silent@b",
        1 => b"\",\"raise\":\"NoSignal@p",
        2 => b"\",\"raise\":\"NoSignal@q",
        3 => b"\",\"raise\":\"Drop@l",
        4 => b"\",\"clear\":\"NoSignal@p",
        _ => b"\",\"raise\":\"Silent@x",
    }
}
