//! Problems that are put into their groups, each with its code from its row.
ghost use Rattle.std.specs.Prelude.{◌≤◌, length, OnOk};
ghost use Rattle.std.specs.List.{All, Contains};
ghost use Rattle.cb_codes.specs.Grouped.{FitsTogether};
ghost use Rattle.cb_network.specs.Sound.{node_limit};
ghost use Rattle.cb_topo.specs.Numbered.{IsLiveNode};
ghost use Rattle.cb_cache.specs.Rows.{HaveRows};
ghost use Rattle.cb_matrix.specs.Coded.{AddsCodedProblems};

use crate::coder::Coder;
use cb_cache::Rows;
use cb_codes::Grouping;
use cb_nodes::NodeId;
use cb_topo::{ColumnIndex, Topology};
use std::alloc::{AllocError, Global};

/// Adds the problems of these numbers, each of which has a row.
pub(crate) fn add_by_rows(
    alloc: Global,
    topology: &Topology,
    rows: &Rows,
    columns: &ColumnIndex,
    nodes: &[NodeId],
    grouping: &mut Grouping,
) -> Result<(), AllocError>
    requires few { length topology.now.nodes ≤ node_limit }
    requires rows { HaveRows topology.now (Contains nodes.now) rows.now }
    requires live { All (IsLiveNode topology.now) nodes.now }
    requires sound { FitsTogether (length columns.now) grouping.old }
    ensures { OnOk result (AddsCodedProblems topology.now columns.now nodes.now grouping.old grouping.new) }
{
    let mut coder = Coder::new(alloc, columns, rows.width())?;
    for node in nodes {
        let name = topology.copy_name(alloc, *node)?;
        let code = coder.code_of(alloc, rows, columns, *node)?;
        grouping.add(alloc, name, code)?;
    }
    Ok(())
}
