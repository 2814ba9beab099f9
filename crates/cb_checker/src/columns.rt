//! The columns of a book.
ghost use Rattle.std.specs.Prelude.{◌<◌, ◌+◌, ◌↔◌, length, IfSome, IfNone, OnOk, IsTrue};
ghost use Rattle.cb_checker.specs.Firsts.{AreAll, IsFirstNot};
ghost use Rattle.cb_checker.specs.Known.{AreLive};
ghost use Rattle.cb_checker.specs.Columns.{IsColumnAt, JudgesColumns};

use crate::known::id_at;
use cb_nodes::NodeId;
use cb_topo::Topology;
use cb_validity::Rejected;

/// Checks the columns of a certificate, in order.
pub(crate) fn check_columns(
    topology: &Topology,
    ids: &[NodeId],
    columns: &[u32],
) -> Result<(), Rejected>
    requires live { AreLive topology.now ids.now }
    requires few { length columns.now + 1 < 4294967296 }
    ensures judges { JudgesColumns topology.now ids.now columns.now result }
    ensures good { OnOk result (AreAll (IsColumnAt topology.now ids.now columns.now) (length columns.now)) }
{
    match first_bad_column(topology, ids, columns) {
        Some(place) => Err(Rejected::BadColumn {
            place: place as u32 + 1,
        }),
        None => Ok(()),
    }
}

// The position of the first number that is no column's or isn't greater than the one before.
fn first_bad_column(topology: &Topology, ids: &[NodeId], columns: &[u32]) -> Option<usize>
    requires { AreLive topology.now ids.now }
    ensures bad { IfSome result (IsFirstNot (IsColumnAt topology.now ids.now columns.now) (length columns.now)) }
    ensures good { IfNone result (AreAll (IsColumnAt topology.now ids.now columns.now) (length columns.now)) }
{
    for place in 0..columns.len() {
        if !is_column_at(topology, ids, columns, place) {
            return Some(place);
        }
    }
    None
}

fn is_column_at(topology: &Topology, ids: &[NodeId], columns: &[u32], place: usize) -> bool
    requires live { AreLive topology.now ids.now }
    requires place { place < length columns.now }
    ensures { IsTrue result ↔ IsColumnAt topology.now ids.now columns.now place }
{
    match id_at(ids, columns[place]) {
        Some(id) => {
            topology.is_column(id) && (place == 0 || columns[place - 1] < columns[place])
        }
        None => false,
    }
}
