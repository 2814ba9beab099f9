//! The radii that a certificate states.
ghost use Rattle.std.specs.Prelude.{◌≡◌, ◌<◌, ◌+◌, ◌^◌, ◌↔◌, length, IfOk, IfSome, IfNone, IsTrue};
ghost use Rattle.cb_coding.specs.Groups.{codes_of};
ghost use Rattle.cb_coding.specs.Radii.{AreRadii};
ghost use Rattle.cb_checker.specs.Radii.{AreSameAt, IsFirstDifference, AreExtremes, JudgesRadii};

use cb_codes::Groups;
use cb_distance::radii;
use cb_model::List;
use cb_validity::{Accepted, Rejected};
use std::alloc::{AllocError, Global};

/// Whether these are the radii of the groups for the cap; else the first position at which one is lacking, or isn't the group's. The
/// certificate has `columns` columns.
pub(crate) fn judge_radii(
    alloc: Global,
    groups: &Groups,
    cap: u32,
    stated: &[u32],
    columns: u32,
) -> Result<Accepted, Rejected>
    requires some { 0 < length groups.now.groups }
    requires groups { length groups.now.groups < 2 ^ 32 }
    requires stated { length stated.now + 1 < 2 ^ 32 }
    ensures { JudgesRadii groups.now.width groups.now.groups cap stated.now columns result }
{
    let Ok(own) = own_radii(alloc, groups, cap) else {
        return Err(Rejected::NoMemory);
    };
    if let Some(place) = first_difference(own.as_slice(), stated) {
        return Err(Rejected::BadRadius {
            place: place as u32 + 1,
        });
    }
    let (least, greatest) = extremes(stated);
    Ok(Accepted::Capped {
        cap,
        least,
        greatest,
        groups: groups.len() as u32,
        columns,
    })
}

// The radius of each group for the cap.
fn own_radii(alloc: Global, groups: &Groups, cap: u32) -> Result<List<u32>, AllocError>
    ensures { IfOk result (AreRadii groups.now.width (codes_of groups.now.groups) cap) }
{
    radii(alloc, groups.codes(), cap)
}

// The first position with an item where the lists differ.
fn first_difference(one: &[u32], other: &[u32]) -> Option<usize>
    ensures found { IfSome result (IsFirstDifference one.now other.now) }
    ensures none { IfNone result (other.now ≡ one.now) }
{
    for place in 0..one.len().max(other.len()) {
        if !are_same_at(one, other, place) {
            return Some(place);
        }
    }
    None
}

// Whether both lists have one item at the position.
fn are_same_at(one: &[u32], other: &[u32], place: usize) -> bool
    ensures { IsTrue result ↔ AreSameAt one.now other.now place }
{
    place < one.len() && place < other.len() && one[place] == other[place]
}

// The least item and the greatest.
fn extremes(items: &[u32]) -> (u32, u32)
    requires { 0 < length items.now }
    ensures { AreExtremes items.now result.0 result.1 }
{
    let mut least = items[0];
    let mut greatest = items[0];
    for place in 1..items.len() {
        least = least.min(items[place]);
        greatest = greatest.max(items[place]);
    }
    (least, greatest)
}
