//! The one edit that undoes another.
ghost use Rattle.std.specs.Prelude.{◌≡◌, IfOk};
ghost use Rattle.cb_inverse.specs.Inverses.{IsReverse};

use crate::copy::copy_name;
use cb_network::Edit;
use std::alloc::{AllocError, Global};

/// The edit that undoes this one. Of a Delete nothing is said.
pub fn reverse_of(alloc: Global, edit: &Edit) -> Result<Edit, AllocError>
    ensures { IfOk result (IsReverse edit.now) }
{
    Ok(match edit {
        Edit::Create { name, .. } | Edit::Delete { name } => Edit::Delete {
            name: copy_name(alloc, name)?,
        },
        Edit::Link { a, rel, b } => Edit::Unlink {
            a: copy_name(alloc, a)?,
            rel: copy_name(alloc, rel)?,
            b: copy_name(alloc, b)?,
        },
        Edit::Unlink { a, rel, b } => Edit::Link {
            a: copy_name(alloc, a)?,
            rel: copy_name(alloc, rel)?,
            b: copy_name(alloc, b)?,
        },
        Edit::Mute { event, name } => Edit::Unmute {
            event: copy_name(alloc, event)?,
            name: copy_name(alloc, name)?,
        },
        Edit::Unmute { event, name } => Edit::Mute {
            event: copy_name(alloc, event)?,
            name: copy_name(alloc, name)?,
        },
    })
}
