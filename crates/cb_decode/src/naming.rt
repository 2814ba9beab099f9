//! What groups are called.
ghost use Rattle.std.specs.Prelude.{IfOk};
ghost use Rattle.cb_decode.specs.Names.{HasName};
ghost use Rattle.cb_finding.specs.Finding.{IsCalled};

use cb_codes::Groups;
use cb_model::GroupName;
use std::alloc::{AllocError, Global};

/// What the group at this position is called.
pub fn group_name(alloc: Global, groups: &Groups, place: u32) -> Result<GroupName, AllocError>
    requires { HasName groups.now.groups place }
    ensures { IfOk result (IsCalled groups.now.groups place) }
{
    if place == 0 {
        return Ok(GroupName::Quiet);
    }
    let group = groups.named().at(place as usize);
    Ok(GroupName::Least(group.members.at(0).copy(alloc)?))
}
