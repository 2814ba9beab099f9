//! The lines of edits.
ghost use Rattle.std.specs.Prelude.{◌≡◌, ◌++◌, ◌<◌, decimal, OnOk};
ghost use Rattle.cb_gen.specs.Log.{edit_line, edit_text};

use crate::piece::push_number;
use std::alloc::AllocError;

/// Adds the line of an edit: its time, and what it does with which site.
pub(crate) fn push_edit(out: &mut Vec<u8>, at: u64, kind: u64, site: u64) -> Result<(), AllocError>
    requires { kind < 8 }
    ensures { OnOk result (out.new.items ≡ out.old.items ++ edit_line at kind site) }
{
    push_number(out, b"{\"at\":", at)?;
    out.extend_from_slice(b",\"edit\":\"")?;
    push_words(out, kind, site)?;
    out.extend_from_slice(b"\"}\n")
}

// Adds the words of an edit.
fn push_words(out: &mut Vec<u8>, kind: u64, site: u64) -> Result<(), AllocError>
    requires { kind < 8 }
    ensures { OnOk result (out.new.items ≡ out.old.items ++ edit_text kind site) }
{
    match kind {
        0 => push_both(out, b"unlink l", site, b" ends p"),
        1 => push_both(out, b"link l", site, b" ends p"),
        2 => push_number(out, b"mute Silent@b", site),
        3 => push_number(out, b"unmute Silent@b", site),
        4 => push_both(out, b"unlink b", site, b" ports q"),
        5 => push_both(out, b"link b", site, b" ports q"),
        6 => push_number(out, b"delete x", site),
        _ => push_created(out, site),
    }
}

// Adds two names of a site, each after words.
fn push_both(out: &mut Vec<u8>, first: &[u8], site: u64, second: &[u8]) -> Result<(), AllocError>
    ensures { OnOk result (out.new.items ≡ out.old.items ++ (first.now ++ decimal site ++ second.now ++ decimal site)) }
{
    push_number(out, first, site)?;
    push_number(out, second, site)
}

// Adds the words that create a further box.
fn push_created(out: &mut Vec<u8>, site: u64) -> Result<(), AllocError>
    ensures { OnOk result (out.new.items ≡ out.old.items ++ edit_text 7 site) }
{
    push_number(out, b"create x", site)?;
    out.extend_from_slice(b" Box")
}
