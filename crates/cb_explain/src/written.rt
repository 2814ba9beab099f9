//! Visits, written as levels.
ghost use Rattle.std.specs.Prelude.{◌≡◌, ◌<◌, ◌↔◌, ◌⊎◌, ℕ, length, IfOk, Some, slice_get};
ghost use Rattle.std.specs.List.{AllZip};
ghost use Rattle.cb_successors.specs.Rows.{Has};
ghost use Rattle.cb_span.specs.Orders.{IsOrderOf, IsAtRank};
ghost use Rattle.cb_explain.specs.Made.{AreLevelsFor};
ghost use Rattle.cb_explain.specs.Levelled.{AreRanksBelow, IsRankVisited, IsNumberedEntry};

use cb_bits::Row;
use cb_breadth::{LevelVisit, Order};
use cb_levels::{LevelEntry, Levels};
use cb_model::List;
use cb_span::numbering_of;
use cb_topo::Topology;
use std::alloc::{AllocError, Global};

/// The levels with an entry for each visit, over the nodes that are visited.
pub(crate) fn levels_by(
    alloc: Global,
    topology: &Topology,
    order: &Order,
    visits: &[LevelVisit],
) -> Result<Levels, AllocError>
    requires order { IsOrderOf topology.now order.now }
    requires ranks { AreRanksBelow (length order.now.nodes.items) visits.now }
    ensures { IfOk result (AreLevelsFor (IsAtRank topology.now order.now) visits.now) }
{
    let mut used = Row::zeroed(alloc, order.nodes.len())?;
    use_visits(visits, &mut used);
    let numbering = numbering_of(alloc, topology, order, &used)?;
    let entries = entries_of(alloc, visits, &numbering.numbers)?;
    Ok(Levels {
        nodes: numbering.names,
        entries,
    })
}

// Marks the nodes of the visits as used.
fn use_visits(visits: &[LevelVisit], used: &mut Row)
    requires { AreRanksBelow (length used.old) visits.now }
    ensures used { (rank : ℕ) → Has used.new rank ↔ (Has used.old rank ⊎ IsRankVisited visits.now rank) }
    ensures capacity { length used.new ≡ length used.old }
{
    for position in 0..visits.len() {
        used.set(visits[position].node as usize);
    }
}

// An entry for each visit, by the number at its rank.
fn entries_of(
    alloc: Global,
    visits: &[LevelVisit],
    numbers: &[u32],
) -> Result<List<LevelEntry>, AllocError>
    requires { AreRanksBelow (length numbers.now) visits.now }
    ensures { IfOk result (AllZip (IsNumberedEntry numbers.now) visits.now) }
{
    let mut entries = Vec::with_capacity(alloc, visits.len())?;
    for position in 0..visits.len() {
        let visit = visits[position];
        entries.push(LevelEntry {
            node: numbers[visit.node as usize],
            level: visit.level,
            parent: visit.parent,
        })?;
    }
    Ok(List::of(entries))
}
