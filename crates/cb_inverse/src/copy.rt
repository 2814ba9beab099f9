//! A copy of an edit.
ghost use Rattle.std.specs.Prelude.{◌≡◌, IfOk};

use cb_model::Name;
use cb_network::Edit;
use std::alloc::{AllocError, Global};

/// An edit with copies of the names.
pub fn copy_of(alloc: Global, edit: &Edit) -> Result<Edit, AllocError>
    ensures { IfOk result (λ copy. copy ≡ edit.now) }
{
    Ok(match edit {
        Edit::Create { name, class } => Edit::Create {
            name: copy_name(alloc, name)?,
            class: copy_name(alloc, class)?,
        },
        Edit::Delete { name } => Edit::Delete {
            name: copy_name(alloc, name)?,
        },
        Edit::Link { a, rel, b } => Edit::Link {
            a: copy_name(alloc, a)?,
            rel: copy_name(alloc, rel)?,
            b: copy_name(alloc, b)?,
        },
        Edit::Unlink { a, rel, b } => Edit::Unlink {
            a: copy_name(alloc, a)?,
            rel: copy_name(alloc, rel)?,
            b: copy_name(alloc, b)?,
        },
        Edit::Mute { event, name } => Edit::Mute {
            event: copy_name(alloc, event)?,
            name: copy_name(alloc, name)?,
        },
        Edit::Unmute { event, name } => Edit::Unmute {
            event: copy_name(alloc, event)?,
            name: copy_name(alloc, name)?,
        },
    })
}

/// A copy of a name.
pub fn copy_name(alloc: Global, name: &Name) -> Result<Name, AllocError>
    ensures { IfOk result (λ copy. copy ≡ name.now) }
{
    Name::of(alloc, name.bytes())
}
