//! What a book claims of groups.
ghost use Rattle.std.specs.Prelude.{◌<◌, ◌^◌, length, IfOk};
ghost use Rattle.cb_coding.specs.Groups.{codes_of};
ghost use Rattle.cb_coding.specs.Needs.{need_of};
ghost use Rattle.cb_distance.specs.Close.{IsFirstShortIfAny};
ghost use Rattle.cb_finding.specs.Finding.{IsCalled};
ghost use Rattle.cb_checker.specs.Places.{AreThere};
ghost use Rattle.cb_checker.specs.Claims.{HaveMembers, ReportsTooClose, JudgesClaim};

use crate::places::places_of;
use cb_codes::Groups;
use cb_coding::Pair;
use cb_distance::first_short;
use cb_model::{GroupName, Wish};
use cb_nodes::NodeId;
use cb_topo::ColumnIndex;
use cb_validity::Rejected;
use std::alloc::{AllocError, Global};

/// Whether over the columns of these numbers the groups are as far apart as the wish asks; else the first two that are closer.
pub(crate) fn judge_groups(
    alloc: Global,
    columns: &ColumnIndex,
    ids: &[NodeId],
    numbers: &[u32],
    groups: &Groups,
    wish: Wish,
) -> Result<Result<(), Rejected>, AllocError>
    requires there { AreThere columns.now ids.now numbers.now }
    requires few { length groups.now.groups < 2 ^ 32 }
    requires members { HaveMembers groups.now.groups }
    ensures { IfOk result (JudgesClaim columns.now ids.now numbers.now groups.now wish) }
{
    let places = places_of(alloc, columns, ids, numbers)?;
    let close = first_close_groups(alloc, groups, &places, wish)?;
    if let Some(pair) = close {
        return Ok(Err(too_close(alloc, groups, pair)?));
    }
    Ok(Ok(()))
}

// The first two groups that are closer over these columns than the wish asks.
fn first_close_groups(
    alloc: Global,
    groups: &Groups,
    places: &[u32],
    wish: Wish,
) -> Result<Option<Pair>, AllocError>
    requires { length groups.now.groups < 2 ^ 32 }
    ensures { IfOk result (IsFirstShortIfAny places.now (codes_of groups.now.groups) (need_of groups.now.width (codes_of groups.now.groups) wish)) }
{
    first_short(alloc, groups.codes(), places, wish)
}

// That these two groups are too close.
fn too_close(alloc: Global, groups: &Groups, pair: Pair) -> Result<Rejected, AllocError>
    requires first { pair.first < length groups.now.groups }
    requires second { pair.second < length groups.now.groups }
    requires members { HaveMembers groups.now.groups }
    ensures { IfOk result (ReportsTooClose groups.now.groups pair) }
{
    let first = name_of(alloc, groups, pair.first as usize)?;
    let second = name_of(alloc, groups, pair.second as usize)?;
    Ok(Rejected::TooClose {
        first,
        second,
        distance: pair.distance,
    })
}

// What the group at a position is called.
fn name_of(alloc: Global, groups: &Groups, place: usize) -> Result<GroupName, AllocError>
    requires place { place < length groups.now.groups }
    requires members { HaveMembers groups.now.groups }
    ensures { IfOk result (IsCalled groups.now.groups place) }
{
    if place == 0 {
        return Ok(GroupName::Quiet);
    }
    let group = groups.named().at(place);
    let least = group.members.at(0).copy(alloc)?;
    Ok(GroupName::Least(least))
}
