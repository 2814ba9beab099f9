//! Which visits of a search stand on some chain, and the visits that are kept of it.
ghost use Rattle.std.specs.Prelude.{◌≡◌, ◌<◌, ◌≤◌, ◌+◌, ◌^◌, ◌⊎◌, ℕ, length, map, IfOk, OnOk};
ghost use Rattle.std.specs.List.{All};
ghost use Rattle.cb_successors.specs.Rows.{Has};
ghost use Rattle.cb_breadth.specs.declared.visit.Visit.{Visit as Kept_};
ghost use Rattle.cb_breadth.specs.declared.visit.LevelVisit.{LevelVisit as Visit_};
ghost use Rattle.cb_chains.specs.Trees.{without_levels, ComeAfterParents};
ghost use Rattle.cb_chains.specs.Kept.{HasMarkedParents, KeepsIfMarked, KeepsChains, place_at};

use cb_bits::Row;
use cb_breadth::{LevelVisit, Visit};
use std::alloc::{AllocError, Global};

/// The visits that stand on some chain to one of these ends, by their positions, which count from 1.
pub(crate) fn on_chains(
    alloc: Global,
    visits: &[LevelVisit],
    ends: &[u32],
) -> Result<Row, AllocError>
    requires parents { ComeAfterParents (without_levels visits.now) }
    requires ends { All (λ end. end ≤ length visits.now) ends.now }
    ensures ends { IfOk result (λ marked. All (Has marked) ends.now) }
    ensures parents { IfOk result (HasMarkedParents (without_levels visits.now)) }
    ensures capacity { IfOk result (λ marked. length marked ≡ length visits.now + 1) }
{
    let mut marked = Row::zeroed(alloc, visits.len() + 1)?;
    mark_all(ends, &mut marked);
    mark_parents(visits, &mut marked);
    Ok(marked)
}

// Marks these positions.
fn mark_all(positions: &[u32], marked: &mut Row)
    requires { All (λ position. position < length marked.old) positions.now }
    ensures all { All (Has marked.new) positions.now }
    ensures capacity { length marked.new ≡ length marked.old }
{
    for at in 0..positions.len() {
        marked.set(positions[at] as usize);
    }
}

// Marks with each marked visit its parent, the parent of that, and so on: the last visit comes first, since parents are earlier.
fn mark_parents(visits: &[LevelVisit], marked: &mut Row)
    requires parents { ComeAfterParents (without_levels visits.now) }
    requires capacity { length marked.old ≡ length visits.now + 1 }
    ensures parents { HasMarkedParents (without_levels visits.now) marked.new }
    ensures kept { (position : ℕ) → Has marked.old position → Has marked.new position }
    ensures capacity { length marked.new ≡ length marked.old }
{
    for position in (0..visits.len()).rev() {
        mark_with(position + 1, visits[position].parent as usize, marked);
    }
}

// Marks a parent if the visit at the position is marked.
fn mark_with(position: usize, parent: usize, marked: &mut Row)
    requires position { position < length marked.old }
    requires parent { parent < length marked.old }
    ensures both { Has marked.old position → Has marked.new parent }
    ensures kept { (other : ℕ) → Has marked.old other → Has marked.new other }
    ensures only { (other : ℕ) → Has marked.new other → Has marked.old other ⊎ (other ≡ parent) }
    ensures capacity { length marked.new ≡ length marked.old }
{
    if marked.get(position) {
        marked.set(parent);
    }
}

/// Visits that are kept of a search, and the place of each among them.
#[derive(Drop)]
pub(crate) struct KeptVisits {
    pub visits: Vec<Visit>,
    /// For each position in the search, counted from 1, the place, counted from 1. It is 0 for a visit that isn't kept.
    pub places: Vec<u32>,
}

/// Keeps the marked visits, in order.
pub(crate) fn keep_marked(
    alloc: Global,
    visits: &[LevelVisit],
    marked: &Row,
) -> Result<KeptVisits, AllocError>
    requires parents { ComeAfterParents (without_levels visits.now) }
    requires few { length visits.now < 2 ^ 32 }
    requires marked { HasMarkedParents (without_levels visits.now) marked.now }
    requires capacity { length marked.now ≡ length visits.now + 1 }
    ensures kept { IfOk result (λ made. KeepsChains (without_levels visits.now) marked.now made.visits.items made.places.items) }
    ensures nodes { IfOk result (λ made. (bound : ℕ) → All (λ (v : Visit_). v.node < bound) visits.now → All (λ (v : Kept_). v.node < bound) made.visits.items) }
{
    // No more memory than they need: by doubling it would be up to twice as much.
    let mut kept = Vec::with_capacity(alloc, marked.ones())?;
    let mut places = Vec::with_capacity(alloc, visits.len() + 1)?;
    places.push(0)?;
    for position in 0..visits.len() {
        keep_if_marked(
            marked.get(position + 1),
            visits[position],
            &mut kept,
            &mut places,
        )?;
    }
    Ok(KeptVisits {
        visits: kept,
        places,
    })
}

// Keeps a visit that is marked, and notes its place.
fn keep_if_marked(
    marked: bool,
    visit: LevelVisit,
    kept: &mut Vec<Visit>,
    places: &mut Vec<u32>,
) -> Result<(), AllocError>
    requires parent { visit.parent < length places.old.items }
    requires few { length kept.old.items + 1 < 2 ^ 32 }
    ensures { OnOk result (KeepsIfMarked marked visit kept.old.items places.old.items kept.new.items places.new.items) }
{
    if !marked {
        places.push(0)?;
        return Ok(());
    }
    kept.push(Visit {
        node: visit.node,
        parent: places[visit.parent as usize],
    })?;
    places.push(kept.len() as u32)?;
    Ok(())
}

/// The places of these positions.
pub(crate) fn places_of(
    alloc: Global,
    positions: &[u32],
    places: &[u32],
) -> Result<Vec<u32>, AllocError>
    requires { All (λ position. position < length places.now) positions.now }
    ensures { IfOk result (λ found. found.items ≡ map (place_at places.now) positions.now) }
{
    let mut found = Vec::with_capacity(alloc, positions.len())?;
    for at in 0..positions.len() {
        found.push(places[positions[at] as usize])?;
    }
    Ok(found)
}

/// Marks the nodes of visits as used.
pub(crate) fn use_nodes(visits: &[Visit], used: &mut Row)
    requires { All (λ (v : Kept_). v.node < length used.old) visits.now }
    ensures all { All (λ (v : Kept_). Has used.new v.node) visits.now }
    ensures kept { (node : ℕ) → Has used.old node → Has used.new node }
    ensures capacity { length used.new ≡ length used.old }
{
    for at in 0..visits.len() {
        used.set(visits[at].node as usize);
    }
}
