//! The groups of a topology's problems, by their trees.
ghost use Rattle.std.specs.Prelude.{◌<◌, ◌≤◌, length, IfOk, OnOk};
ghost use Rattle.cb_span.specs.Searched.{AreTreesOf};
ghost use Rattle.cb_topo.specs.Columns.{AreAllColumns};
ghost use Rattle.cb_certify.specs.Groups.{AreGroupsIn, IsLeastAt, IsQuietAlone, TakesLeast};
ghost use Rattle.cb_certify.specs.Members.{IsPairOf};

use crate::shortfall::ClosePair;
use cb_bits::Row;
use cb_codes::{Codes, EachOnce};
use cb_coding::Pair;
use cb_compact::CompactRow;
use cb_matrix::code_of_visits;
use cb_model::List;
use cb_nodes::NodeId;
use cb_span::Trees;
use cb_topo::{ColumnIndex, Topology};
use std::alloc::{AllocError, Global};

/// The code of each group, quiet first, and the least member that names each of the others.
#[derive(Drop)]
pub struct CodedGroups {
    pub codes: Codes,
    /// The least member of each group but the quiet one.
    pub least: List<NodeId>,
}

/// The groups of the topology's problems by the columns that their trees have.
pub(crate) fn groups_of(
    alloc: Global,
    topology: &Topology,
    trees: &Trees,
    columns: &ColumnIndex,
) -> Result<CodedGroups, AllocError>
    requires trees { AreTreesOf topology.now trees.now }
    requires columns { AreAllColumns topology.now columns.now }
    ensures { IfOk result (AreGroupsIn topology.now) }
{
    // The topology is sound.
    let _model = topology.model();
    let mut codes = quiet_code(alloc, columns.len())?;
    let mut least = List::new(alloc);
    let mut list = Vec::new(alloc);
    for place in 0..trees.problems.len() {
        let visits = &trees.visits[place];
        let code = code_of_visits(alloc, columns, &trees.order, visits, &mut list)?;
        let group = codes.place_of(alloc, code)?;
        add_least(&mut least, group, *trees.problems.at(place))?;
    }
    Ok(CodedGroups {
        codes: codes.into_codes(alloc),
        least,
    })
}

// The code of the quiet group alone.
fn quiet_code(alloc: Global, width: usize) -> Result<EachOnce, AllocError>
    ensures { IfOk result (IsQuietAlone width) }
{
    let mut codes = EachOnce::new(alloc, width);
    let quiet = CompactRow::of(alloc, &Row::zeroed(alloc, width)?)?;
    codes.place_of(alloc, quiet)?;
    Ok(codes)
}

// Of a group that is new the problem is the least member, since problems come in order.
fn add_least(least: &mut List<NodeId>, group: usize, problem: NodeId) -> Result<(), AllocError>
    ensures { OnOk result (TakesLeast group problem least.old least.new) }
{
    if least.len() < group {
        least.push(problem)?;
    }
    Ok(())
}

/// The two groups at the positions of a pair.
pub(crate) fn close_groups(groups: &CodedGroups, pair: Pair) -> ClosePair
    requires first { pair.first ≤ length groups.now.least }
    requires second { pair.second ≤ length groups.now.least }
    requires later { 0 < pair.second }
    ensures { IsPairOf (IsLeastAt groups.now.least) pair result }
{
    ClosePair {
        first: least_at(&groups.least, pair.first),
        second: *groups.least.at(pair.second as usize - 1),
        distance: pair.distance,
    }
}

// The least member of the group at a position; the quiet one has none.
fn least_at(least: &List<NodeId>, place: u32) -> Option<NodeId>
    requires { place ≤ length least.now }
    ensures { IsLeastAt least.now place result }
{
    if place == 0 {
        return None;
    }
    Some(*least.at(place as usize - 1))
}
