//! The code of what a search visits.
ghost use Rattle.std.specs.Prelude.{◌≡◌, ◌<◌, ℕ, Some, length, replicate, slice_get, true, false, IfOk};
ghost use Rattle.std.specs.List.{All};
ghost use Rattle.cb_breadth.specs.Trees.{HasNode};
ghost use Rattle.cb_graph.specs.Edges.{number};
ghost use Rattle.cb_topo.specs.Columns.{IsPositionOf};
ghost use Rattle.cb_matrix.specs.Codes.{AreColumnsIn, IsCodeWhere};

use cb_bits::Row;
use cb_breadth::{Order, Visit};
use cb_compact::CompactRow;
use cb_nodes::NodeId;
use cb_topo::ColumnIndex;
use std::alloc::{AllocError, Global};

/// For each column, whether it is visited. Few columns are listed; the list is a buffer for that, kept from one search to the next.
pub fn code_of_visits(
    alloc: Global,
    columns: &ColumnIndex,
    order: &Order,
    visits: &[Visit],
    list: &mut Vec<u32>,
) -> Result<CompactRow, AllocError>
    requires { All (λ v. v.node < length order.now.nodes.items) visits.now }
    ensures { IfOk result (IsCodeWhere columns.now (HasNode order.now.nodes.items visits.now)) }
{
    if list_visited(columns, order, visits, list)? {
        return CompactRow::at(alloc, columns.len(), list);
    }
    let mut code = Row::zeroed(alloc, columns.len())?;
    mark_visited(columns, order, visits, &mut code);
    CompactRow::of(alloc, &code)
}

// Makes the list that of the positions of the columns that are visited, in order. It is false if these are too many to be stored so; the list is
// unfinished then.
fn list_visited(
    columns: &ColumnIndex,
    order: &Order,
    visits: &[Visit],
    list: &mut Vec<u32>,
) -> Result<bool, AllocError>
    requires { All (λ v. v.node < length order.now.nodes.items) visits.now }
    ensures { IfOk result (λ are_all. are_all ≡ true → AreColumnsIn columns.now (HasNode order.now.nodes.items visits.now) list.new.items) }
{
    list.clear();
    for visit in visits {
        if let Some(place) = place_of(columns, order, *visit) {
            list.push(place)?;
            if !CompactRow::is_sparse(columns.len(), list.len()) {
                return Ok(false);
            }
        }
    }
    list.sort_unstable();
    list.dedup();
    Ok(true)
}

// Marks the columns that are visited in a row that has none.
fn mark_visited(columns: &ColumnIndex, order: &Order, visits: &[Visit], code: &mut Row)
    requires below { All (λ v. v.node < length order.now.nodes.items) visits.now }
    requires none { code.old ≡ replicate (length columns.now) false }
    ensures { IsCodeWhere columns.now (HasNode order.now.nodes.items visits.now) code.new }
{
    for visit in visits {
        if let Some(place) = place_of(columns, order, *visit) {
            code.set(place as usize);
        }
    }
}

// The position among the columns of the node that is visited, where it is one.
fn place_of(columns: &ColumnIndex, order: &Order, visit: Visit) -> Option<u32>
    requires { visit.node < length order.now.nodes.items }
    ensures { (node : ℕ) → slice_get order.now.nodes.items visit.node ≡ Some node → IsPositionOf columns.now (number node) result }
{
    columns.position(NodeId(order.nodes[visit.node as usize]))
}
