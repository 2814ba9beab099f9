//! The chain to a node, by following parents.
ghost use Rattle.std.specs.Prelude.{◌≡◌, ◌↔◌, ◌<◌, ◌++◌, [], ◌∷◌, length, IfOk, IfSome, IfNone, OnOk, IsTrue};
ghost use Rattle.cb_model.specs.declared.node.NodeName.{NodeName as Name};
ghost use Rattle.cb_levels.specs.Listed.{ListsInLevels};
ghost use Rattle.cb_levels.specs.Trails.{CanBeFollowed, HasParentAt, IsChainTo, IsFirstOf, IsNodeAt, IsTrail};

use crate::levels::Levels;
use cb_model::{List, NodeName};
use std::alloc::{AllocError, Global};
use std::cmp::Ordering;

/// The chain to `node`: the nodes found by following parents from its first entry, the problem first. There is none if no entry
/// lists the node.
pub fn chain(
    alloc: Global,
    levels: &Levels,
    node: &NodeName,
) -> Result<Option<List<NodeName>>, AllocError>
    requires { CanBeFollowed levels.now }
    ensures some { IfOk result (λ found. IfSome found (IsChainTo levels.now node.now)) }
    ensures none { IfOk result (λ found. IfNone found (¬ ListsInLevels levels.now node.now)) }
{
    match first_of(levels, node) {
        Some(position) => Ok(Some(follow(alloc, levels, position)?)),
        None => Ok(None),
    }
}

/// The nodes found by following parents from the entry at `position`, which counts from 0, the problem first.
pub fn follow(alloc: Global, levels: &Levels, position: usize) -> Result<List<NodeName>, AllocError>
    requires levels { CanBeFollowed levels.now }
    requires position { position < length levels.now.entries }
    ensures { IfOk result (IsTrail levels.now position) }
{
    let mut names = Vec::new(alloc);
    let mut at = position;
    push_node(alloc, levels, at, &mut names)?;
    while at > 0 {
        at = parent_of(levels, at);
        push_node(alloc, levels, at, &mut names)?;
    }
    names.reverse();
    Ok(List::of(names))
}

// The position of an entry's parent.
fn parent_of(levels: &Levels, position: usize) -> usize
    requires levels { CanBeFollowed levels.now }
    requires within { position < length levels.now.entries }
    requires later { 0 < position }
    ensures parent { HasParentAt levels.now position result }
    ensures earlier { result < position }
{
    levels.entries.at(position).parent as usize - 1
}

// Adds the node of an entry at the end.
fn push_node(
    alloc: Global,
    levels: &Levels,
    position: usize,
    names: &mut Vec<NodeName>,
) -> Result<(), AllocError>
    requires levels { CanBeFollowed levels.now }
    requires within { position < length levels.now.entries }
    ensures { OnOk result ((name : Name) × IsNodeAt levels.now position name × (names.new.items ≡ names.old.items ++ name ∷ [])) }
{
    names.push(node_at(levels, position).copy(alloc)?)?;
    Ok(())
}

// The node of an entry.
fn node_at(levels: &Levels, position: usize) -> &NodeName
    requires levels { CanBeFollowed levels.now }
    requires within { position < length levels.now.entries }
    ensures { IsNodeAt levels.now position result.now }
{
    levels
        .nodes
        .at(levels.entries.at(position).node as usize - 1)
}

// The position of the first entry of a node.
fn first_of(levels: &Levels, node: &NodeName) -> Option<usize>
    requires { CanBeFollowed levels.now }
    ensures some { IfSome result (IsFirstOf levels.now node.now) }
    ensures within { IfSome result (λ position. position < length levels.now.entries) }
    ensures none { IfNone result (¬ ListsInLevels levels.now node.now) }
{
    for position in 0..levels.entries.len() {
        if is_same(node_at(levels, position), node) {
            return Some(position);
        }
    }
    None
}

// Whether two nodes are one.
fn is_same(one: &NodeName, other: &NodeName) -> bool
    ensures { IsTrue result ↔ (one.now ≡ other.now) }
{
    match one.cmp(other) {
        Ordering::Equal => true,
        _ => false,
    }
}
