//! Chains that share their beginnings.
ghost use Rattle.std.specs.Prelude.{◌≡◌, ◌<◌, ◌≤◌, ◌^◌, ℕ, length, drop, slice_get, Some, IfOk};
ghost use Rattle.std.specs.List.{All};
ghost use Rattle.cb_successors.specs.Rows.{Has};
ghost use Rattle.cb_breadth.specs.declared.visit.LevelVisit.{LevelVisit as Visit_};
ghost use Rattle.cb_chains.specs.Trees.{without_levels, ComeAfterParents, chain_at, chains_at};

use crate::kept::{keep_marked, on_chains, places_of, use_nodes};
use cb_bits::Row;
use cb_breadth::{LevelVisit, Visit};
use std::alloc::{AllocError, Global};
use std::marker::Model;

/// Chains that a search found, in order. Contracts see each as the list of the numbers of its nodes. Where chains begin alike, that is kept once:
/// for each node on some chain its number and the position of the visit before it, and for each chain the position of its end.
#[derive(Drop)]
pub struct ChainTree {
    visits: Vec<Visit>,
    // Positions of visits, which count from 1.
    ends: Vec<u32>,
}

impl Model for ChainTree {
    ghost use Rattle.std.specs.Prelude.{◌≤◌, ℕ, List, length};
    ghost use Rattle.std.specs.List.{All};
    ghost use Rattle.cb_chains.specs.Trees.{ComeAfterParents, chains_at};

    ghost Value = { List (List ℕ) };

    ghost view = { λ t. chains_at t.visits.items t.ends.items };

    ghost invariant = { λ t. ComeAfterParents t.visits.items × All (λ end. end ≤ length t.visits.items) t.ends.items };
}

impl ChainTree {
    /// The chains to the visits at these positions, which count from 1. Of the other visits those on a chain are kept alone. The nodes on
    /// chains are marked as used.
    pub fn of(
        alloc: Global,
        visits: &[LevelVisit],
        ends: &[u32],
        used: &mut Row,
    ) -> Result<ChainTree, AllocError>
        requires parents { ComeAfterParents (without_levels visits.now) }
        requires few { length visits.now < 2 ^ 32 }
        requires ends { All (λ end. end ≤ length visits.now) ends.now }
        requires used { All (λ (v : Visit_). v.node < length used.old) visits.now }
        ensures chains { IfOk result (λ tree. tree ≡ chains_at (without_levels visits.now) ends.now) }
        ensures used { IfOk result (All (All (Has used.new))) }
        ensures kept { (node : ℕ) → Has used.old node → Has used.new node }
        ensures capacity { length used.new ≡ length used.old }
    {
        let marked = on_chains(alloc, visits, ends)?;
        let made = keep_marked(alloc, visits, &marked)?;
        let ends = places_of(alloc, ends, &made.places)?;
        use_nodes(&made.visits, used);
        Ok(ChainTree {
            visits: made.visits,
            ends,
        })
    }

    /// How many chains there are.
    pub fn len(&self) -> usize
        ensures { result ≡ length self.now }
    {
        self.ends.len()
    }

    /// How many nodes are on some chain, which no chain exceeds.
    pub fn node_count(&self) -> usize
        ensures { All (λ chain. length chain ≤ result) self.now }
    {
        self.visits.len()
    }

    /// Writes a chain at the end of `path`, and says at which position it begins there.
    pub fn write_chain(&self, at: usize, path: &mut Vec<u32>) -> usize
        requires at { at < length self.now }
        requires fits { All (λ chain. length chain ≤ length path.old.items) self.now }
        ensures chain { slice_get self.now at ≡ Some (drop result path.new.items) }
        ensures start { result ≤ length path.new.items }
        ensures capacity { length path.new.items ≡ length path.old.items }
    {
        write_back(&self.visits, self.ends[at], path)
    }
}

// Writes the chain that ends at a position, its last node at the end of `path` and each earlier one before it.
fn write_back(visits: &[Visit], end: u32, path: &mut Vec<u32>) -> usize
    requires parents { ComeAfterParents visits.now }
    requires end { end ≤ length visits.now }
    requires fits { length (chain_at visits.now end) ≤ length path.old.items }
    ensures chain { drop result path.new.items ≡ chain_at visits.now end }
    ensures start { result ≤ length path.new.items }
    ensures capacity { length path.new.items ≡ length path.old.items }
{
    let mut start = path.len();
    let mut position = end as usize;
    while position > 0 {
        let visit = visits[position - 1];
        start -= 1;
        path[start] = visit.node;
        position = visit.parent as usize;
    }
    start
}
