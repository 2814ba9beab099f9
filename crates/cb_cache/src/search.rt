//! The search for all that a node leads to, which takes finished rows over.
ghost use Rattle.std.specs.Prelude.{◌≡◌, ◌<◌, ◌≤◌, ◌+◌, ◌*◌, ◌↔◌, ◌⊎◌, ℕ, [], length, replicate, true, false, IfSome, IfNone};
ghost use Rattle.cb_lanes.specs.Words.{bit_of};
ghost use Rattle.cb_bits.specs.Bits.{words_for};
ghost use Rattle.cb_successors.specs.Rows.{Has, HasAllOf, IsLeft, ones};
ghost use Rattle.cb_pool.specs.Pool.{IsTaken, slot_row};
ghost use Rattle.cb_cache.specs.Capacity.{HasCapacityFor};
ghost use Rattle.cb_cache.specs.Reached.{HasSlot, AreReached, AreFollowed, IsMet, IsLedByMet, Visits, IsAllMet, CountsOnly};
ghost use Rattle.cb_cache.specs.Extended.{IsSettledBut, IsLedByWords, IsExpanded, AddsBelow};

use crate::scratch::Scratch;
use cb_bits::Row;
use cb_lanes::or_into;
use cb_pool::{RowPool, Slot};
use cb_steps::Steps;
use cb_successors::Edges;
use std::sync::ledger::Ledger;

/// Meets all that the node leads to. A node that is met and has a row is not searched from again: its row is taken over as a
/// whole, and its nodes cost nothing.
pub(crate) fn search<L: Ledger, G: Edges>(
    graph: &mut G,
    node: usize,
    slots: &[Option<Slot>],
    pool: &RowPool,
    scratch: &mut Scratch,
    steps: &mut Steps<L>,
)
    requires node { node < G.count graph.old }
    requires rows { AreReached (G.edge graph.old) slots.now pool.now }
    requires width { pool.now.width ≡ words_for (G.count graph.old) }
    requires capacity { HasCapacityFor (G.count graph.old) scratch.old }
    ensures same { graph.new ≡ graph.old }
    ensures capacity { HasCapacityFor (G.count graph.old) scratch.new }
    ensures met { IsAllMet (G.edge graph.old) node scratch.new.found scratch.new.joined.items }
    ensures within { (k : ℕ) → Has scratch.new.done k → IsMet scratch.new.found scratch.new.joined.items k }
    ensures cost { steps.new ≤ steps.old + ones scratch.new.done }
{
    forget(scratch);
    wipe(&mut scratch.joined);
    scratch.found.set(node);
    spread(
        graph,
        node,
        slots,
        pool,
        &mut scratch.found,
        &mut scratch.done,
        &mut scratch.joined,
        steps,
    );
}

/// Meets all that the nodes of a slot's row lead to. Of these only the touched ones may have successors outside the row, and only
/// they and the nodes outside it cost something.
pub(crate) fn search_further<L: Ledger, G: Edges>(
    graph: &mut G,
    pool: &RowPool,
    slot: Slot,
    touched: &Row,
    scratch: &mut Scratch,
    steps: &mut Steps<L>,
)
    requires taken { IsTaken pool.now slot }
    requires width { pool.now.width ≡ words_for (G.count graph.old) }
    requires touched { length touched.now ≡ G.count graph.old }
    requires settled { IsSettledBut (G.edge graph.old) touched.now (slot_row pool.now slot) }
    requires capacity { HasCapacityFor (G.count graph.old) scratch.old }
    ensures same { graph.new ≡ graph.old }
    ensures capacity { HasCapacityFor (G.count graph.old) scratch.new }
    ensures met { (k : ℕ) → IsMet scratch.new.found scratch.new.joined.items k ↔ IsLedByWords (G.edge graph.old) (slot_row pool.now slot) k }
    ensures cost { CountsOnly (IsExpanded (G.edge graph.old) touched.now (slot_row pool.now slot)) (G.count graph.old) steps.old steps.new }
{
    let row = pool.row(slot);
    forget(scratch);
    copy(&mut scratch.joined, row);
    expand(graph, touched, row, &mut scratch.found, steps);
    spread(
        graph,
        0,
        &[],
        pool,
        &mut scratch.found,
        &mut scratch.done,
        &mut scratch.joined,
        steps,
    );
}

// Makes nothing found, and nothing done.
fn forget(scratch: &mut Scratch)
    ensures found { scratch.new.found ≡ replicate (length scratch.old.found) false }
    ensures done { scratch.new.done ≡ replicate (length scratch.old.done) false }
    ensures joined { scratch.new.joined ≡ scratch.old.joined }
{
    scratch.found.wipe();
    scratch.done.wipe();
}

// Adds the successors of each of these nodes that is one of the words.
fn expand<L: Ledger, G: Edges>(
    graph: &mut G,
    nodes: &Row,
    words: &[u64],
    found: &mut Row,
    steps: &mut Steps<L>,
)
    requires nodes { length nodes.now ≡ G.count graph.old }
    requires words { length words.now ≡ words_for (G.count graph.old) }
    requires found { length found.old ≡ G.count graph.old }
    ensures same { graph.new ≡ graph.old }
    ensures found { length found.new ≡ length found.old }
    ensures adds { AddsBelow (G.edge graph.old) nodes.now words.now (G.count graph.old) found.old found.new }
    ensures cost { CountsOnly (λ k. Has nodes.now k × (bit_of words.now k ≡ true)) (G.count graph.old) steps.old steps.new }
{
    // A length fits its type, and so does the position after a node.
    let _capacity = nodes.len();
    let mut from = 0;
    while let Some(node) = nodes.next_one(from) {
        expand_one(graph, node, words, found, steps);
        from = node + 1;
    }
}

// Adds the successors of the node if it is one of the words.
fn expand_one<L: Ledger, G: Edges>(
    graph: &mut G,
    node: usize,
    words: &[u64],
    found: &mut Row,
    steps: &mut Steps<L>,
)
    requires node { node < G.count graph.old }
    requires words { length words.now ≡ words_for (G.count graph.old) }
    requires found { length found.old ≡ G.count graph.old }
    ensures same { graph.new ≡ graph.old }
    ensures found { length found.new ≡ length found.old }
    ensures adds { (k : ℕ) → Has found.new k ↔ (Has found.old k ⊎ ((bit_of words.now node ≡ true) × G.edge graph.old node k)) }
    ensures step { steps.new ≤ steps.old + 1 }
    ensures free { bit_of words.now node ≡ false → steps.new ≡ steps.old }
{
    if has_bit(words, node) {
        graph.add_successors(node, found, steps);
    }
}

// Makes the words those of a row.
fn copy(words: &mut Vec<u64>, row: &[u64])
    requires { length words.old.items ≡ length row.now }
    ensures { words.new.items ≡ row.now }
{
    words.copy_from_slice(row);
}

// Makes all words zero.
fn wipe(words: &mut Vec<u64>)
    ensures { words.new.items ≡ replicate (length words.old.items) 0 }
{
    words.fill(0);
}

// Meets all that the nodes of `found` and `joined` lead to, where nothing is done yet, and the successors of those in `joined` are met.
// The others are looked for from the first one on, and they alone cost something.
fn spread<L: Ledger, G: Edges>(
    graph: &mut G,
    first: usize,
    slots: &[Option<Slot>],
    pool: &RowPool,
    found: &mut Row,
    done: &mut Row,
    joined: &mut Vec<u64>,
    steps: &mut Steps<L>,
)
    requires rows { AreReached (G.edge graph.old) slots.now pool.now }
    requires width { pool.now.width ≡ words_for (G.count graph.old) }
    requires found { length found.old ≡ G.count graph.old }
    requires done { done.old ≡ replicate (G.count graph.old) false }
    requires joined { length joined.old.items ≡ words_for (G.count graph.old) }
    requires followed { AreFollowed (G.edge graph.old) found.old joined.old.items }
    ensures same { graph.new ≡ graph.old }
    ensures found { length found.new ≡ length found.old }
    ensures done { length done.new ≡ length done.old }
    ensures joined { length joined.new.items ≡ length joined.old.items }
    ensures met { (k : ℕ) → IsMet found.new joined.new.items k ↔ IsLedByMet (G.edge graph.old) found.old joined.old.items k }
    ensures within { (k : ℕ) → Has done.new k → IsMet found.new joined.new.items k }
    ensures cost { CountsOnly (λ k. Has done.new k × ¬ (bit_of joined.old.items k ≡ true)) (G.count graph.old) steps.old steps.new }
{
    // The start of the word in which a node was last found: the next one is looked for from there on.
    let mut last = first / 64 * 64;
    while let Some(node) = next_left(found, done, last) {
        done.set(node);
        visit(graph, node, slots, pool, found, joined, steps);
        last = node / 64 * 64;
    }
}

// Meets the successors of a node, or all that it leads to where its row is there.
fn visit<L: Ledger, G: Edges>(
    graph: &mut G,
    node: usize,
    slots: &[Option<Slot>],
    pool: &RowPool,
    found: &mut Row,
    joined: &mut Vec<u64>,
    steps: &mut Steps<L>,
)
    requires node { node < G.count graph.old }
    requires rows { AreReached (G.edge graph.old) slots.now pool.now }
    requires width { pool.now.width ≡ words_for (G.count graph.old) }
    requires found { length found.old ≡ G.count graph.old }
    requires joined { length joined.old.items ≡ words_for (G.count graph.old) }
    requires followed { AreFollowed (G.edge graph.old) found.old joined.old.items }
    ensures same { graph.new ≡ graph.old }
    ensures found { length found.new ≡ length found.old }
    ensures joined { length joined.new.items ≡ length joined.old.items }
    ensures followed { AreFollowed (G.edge graph.old) found.new joined.new.items }
    ensures visits { Visits (G.edge graph.old) node found.old found.new joined.old.items joined.new.items }
    ensures step { steps.new ≤ steps.old + 1 }
    ensures free { bit_of joined.old.items node ≡ true → steps.new ≡ steps.old }
{
    if has_bit(joined, node) {
        return;
    }
    match slot_of(slots, node) {
        Some(slot) => join(joined, pool.row(slot)),
        None => graph.add_successors(node, found, steps),
    }
}

// Makes one what is one in the row.
fn join(words: &mut Vec<u64>, row: &[u64])
    requires { length words.old.items ≡ length row.now }
    ensures length { length words.new.items ≡ length words.old.items }
    ensures joined { (k : ℕ) → (bit_of words.new.items k ≡ true) ↔ ((bit_of words.old.items k ≡ true) ⊎ (bit_of row.now k ≡ true)) }
{
    or_into(words, row);
}

// Whether a bit is one.
fn has_bit(words: &[u64], k: usize) -> bool
    requires { k < 64 * length words.now }
    ensures { result ≡ bit_of words.now k }
{
    words[k / 64] >> (k % 64) & 1 == 1
}

// The slot of a number's row, if it has one.
fn slot_of(slots: &[Option<Slot>], number: usize) -> Option<Slot>
    ensures { IfSome result (HasSlot slots.now number) }
{
    *slots.get(number)?
}

// A node that is found and not done: the next one from a position on, or else the first of all.
fn next_left(found: &Row, done: &Row, from: usize) -> Option<usize>
    requires { length found.now ≡ length done.now }
    ensures left { IfSome result (IsLeft found.now done.now) }
    ensures none { IfNone result (HasAllOf done.now found.now) }
{
    match found.next_not_in(done, from) {
        Some(node) => Some(node),
        None => found.next_not_in(done, 0),
    }
}
