//! The lines of a finding with chains, made as they are written.
ghost use Rattle.std.specs.Prelude.{◌≡◌, ◌≤◌, ◌<◌, ◌++◌, ℕ, List as Items, length, codes, map, IfOk, OnOk, OnErr, slice_get, Some};
ghost use Rattle.std.specs.List.{All, flat_map};
ghost use Rattle.cb_io.specs.Outside.{WritesAll, WritesPrefix, WriteFailed};
ghost use Rattle.cb_chains.specs.Names.{IsNamedNumber, name_by_number, named_chains};
ghost use Rattle.cb_report.specs.ChainTexts.{FitsPath, chain_line, explained_groups, explained_text};
ghost use Rattle.cb_report.specs.Gathered.{Gathers};
ghost use Rattle.cb_report.specs.Lines.{group_line, numbers_line, spaced_text};

use crate::finding::{push_numbers, start_of_group};
use crate::gathered::Gathering;
use crate::put::{put_members, put_node, put_number};
use cb_chains::{ChainTree, NodeNames};
use cb_finding::Finding;
use cb_io::{Failed, Sink};
use cb_model::{List, NamedGroup};
use std::alloc::{AllocError, Global};
use std::marker::Model;

/// What `explain` prints: the numbers of a finding, and its groups, each with its chains. Contracts see the text. It is made while
/// it is written, since most of it is the nodes of the chains, each of which stands on many of them.
#[derive(Drop)]
pub struct ChainLines {
    // The line of numbers.
    start: Vec<u8>,
    groups: List<NamedGroup>,
    names: NodeNames,
    // For each group the chains of its members.
    trees: List<List<ChainTree>>,
    // The nodes of a chain, at the end.
    path: Vec<u32>,
    gathering: Gathering,
}

impl Model for ChainLines {
    ghost use Rattle.std.specs.Prelude.{◌≡◌, ℕ, List, [], ◌++◌, length, map, false};
    ghost use Rattle.std.specs.List.{All};
    ghost use Rattle.cb_chains.specs.Names.{named_chains};
    ghost use Rattle.cb_report.specs.ChainTexts.{FitsPath, explained_groups};

    ghost Value = { List ℕ };

    ghost view = { λ l. l.start.items ++ explained_groups l.groups (map (named_chains l.names) l.trees) };

    ghost invariant = { λ l.
        (length l.trees ≡ length l.groups) × All (All (All (FitsPath l.names (length l.path.items)))) l.trees
        × (l.gathering.waiting ≡ []) × (l.gathering.failed ≡ false) };
}

impl ChainLines {
    /// The lines of a finding, with the chains of each member of each group. All memory that writing them takes is taken now.
    pub fn of(
        alloc: Global,
        finding: Finding,
        names: NodeNames,
        trees: List<List<ChainTree>>,
    ) -> Result<ChainLines, AllocError>
        requires groups { length trees ≡ length finding.groups }
        requires named { All (All (All (All (IsNamedNumber names)))) trees }
        ensures { IfOk result (λ lines. lines ≡ explained_text finding (map (named_chains names) trees)) }
    {
        let start = start_of(alloc, &finding)?;
        let path = path_for(alloc, &trees)?;
        let gathering = Gathering::new(alloc)?;
        Ok(ChainLines {
            start,
            groups: finding.groups,
            names,
            trees,
            path,
            gathering,
        })
    }

    /// Writes all lines, or a prefix of them before a fault.
    pub fn write<O: Sink>(self, out: &mut O) -> Result<(), Failed>
        ensures all { OnOk result (WritesAll (O.tells out.old) (O.tells out.new) self) }
        ensures prefix { WritesPrefix (O.tells out.old) (O.tells out.new) self }
        ensures counts { (O.tells out.old).faults ≤ (O.tells out.new).faults }
        ensures failed { OnErr result (WriteFailed (O.tells out.old) (O.tells out.new)) }
    {
        let ChainLines {
            start,
            groups,
            names,
            trees,
            mut path,
            mut gathering,
        } = self;
        gathering.put(out, &start);
        put_groups(out, &mut gathering, &groups, &names, &trees, &mut path);
        gathering.finish(out)
    }
}

// How the text begins: the line of numbers.
fn start_of(alloc: Global, finding: &Finding) -> Result<Vec<u8>, AllocError>
    ensures { IfOk result (λ text. text.items ≡ codes "explain " ++ numbers_line finding.now) }
{
    let mut start = Vec::from_slice(alloc, b"explain ")?;
    push_numbers(&mut start, finding)?;
    Ok(start)
}

// A path into which each chain fits.
fn path_for(alloc: Global, trees: &List<List<ChainTree>>) -> Result<Vec<u32>, AllocError>
    ensures { IfOk result (λ path. All (All (All (λ chain. length chain ≤ length path.items))) trees.now) }
{
    let mut most = 0;
    for group in trees.as_slice() {
        most = most_nodes(group, most);
    }
    Ok(vec![in alloc; 0_u32; most]?)
}

// The number of nodes of the largest tree, if it is above another number, and else that number.
fn most_nodes(trees: &List<ChainTree>, least: usize) -> usize
    ensures chains { All (All (λ chain. length chain ≤ result)) trees.now }
    ensures least { least ≤ result }
{
    let mut most = least;
    for tree in trees.as_slice() {
        most = most.max(tree.node_count());
    }
    most
}

// Adds the groups, each with the chains of its members.
fn put_groups<O: Sink>(
    out: &mut O,
    gathering: &mut Gathering,
    groups: &List<NamedGroup>,
    names: &NodeNames,
    trees: &List<List<ChainTree>>,
    path: &mut Vec<u32>,
)
    requires groups { length trees.now ≡ length groups.now }
    requires chains { All (All (All (FitsPath names.now (length path.old.items)))) trees.now }
    ensures { Gathers (O.tells out.old) (O.tells out.new) gathering.old gathering.new (explained_groups groups.now (map (named_chains names.now) trees.now)) }
{
    for place in 0..groups.len() {
        put_group(out, gathering, groups.at(place));
        put_trees(out, gathering, names, trees.at(place), path);
    }
}

// Adds the line of a group.
fn put_group<O: Sink>(out: &mut O, gathering: &mut Gathering, group: &NamedGroup)
    ensures { Gathers (O.tells out.old) (O.tells out.new) gathering.old gathering.new (group_line group.now) }
{
    gathering.put(out, start_of_group(group.quiet));
    put_members(out, gathering, &group.members);
    gathering.put(out, b"\n");
}

// Adds the lines of the chains of the members of a group.
fn put_trees<O: Sink>(
    out: &mut O,
    gathering: &mut Gathering,
    names: &NodeNames,
    trees: &List<ChainTree>,
    path: &mut Vec<u32>,
)
    requires { All (All (FitsPath names.now (length path.old.items))) trees.now }
    ensures capacity { length path.new.items ≡ length path.old.items }
    ensures text { Gathers (O.tells out.old) (O.tells out.new) gathering.old gathering.new (flat_map chain_line (named_chains names.now trees.now)) }
{
    for tree in trees.as_slice() {
        put_tree(out, gathering, names, tree, path);
    }
}

// Adds the lines of the chains of a member.
fn put_tree<O: Sink>(
    out: &mut O,
    gathering: &mut Gathering,
    names: &NodeNames,
    tree: &ChainTree,
    path: &mut Vec<u32>,
)
    requires { All (FitsPath names.now (length path.old.items)) tree.now }
    ensures capacity { length path.new.items ≡ length path.old.items }
    ensures text { Gathers (O.tells out.old) (O.tells out.new) gathering.old gathering.new (flat_map chain_line (map (map (name_by_number names.now)) tree.now)) }
{
    for at in 0..tree.len() {
        put_chain_of(out, gathering, names, tree, at, path);
    }
}

// Adds the line of a chain of a tree.
fn put_chain_of<O: Sink>(
    out: &mut O,
    gathering: &mut Gathering,
    names: &NodeNames,
    tree: &ChainTree,
    at: usize,
    path: &mut Vec<u32>,
)
    requires at { at < length tree.now }
    requires chains { All (FitsPath names.now (length path.old.items)) tree.now }
    ensures capacity { length path.new.items ≡ length path.old.items }
    ensures text { (chain : Items ℕ) → slice_get tree.now at ≡ Some chain
        → Gathers (O.tells out.old) (O.tells out.new) gathering.old gathering.new (chain_line (map (name_by_number names.now) chain)) }
{
    let start = tree.write_chain(at, path);
    put_chain(out, gathering, names, &path[start..]);
}

// Adds the line of a chain.
fn put_chain<O: Sink>(out: &mut O, gathering: &mut Gathering, names: &NodeNames, chain: &[u32])
    requires { All (IsNamedNumber names.now) chain.now }
    ensures { Gathers (O.tells out.old) (O.tells out.new) gathering.old gathering.new (chain_line (map (name_by_number names.now) chain.now)) }
{
    let edges = chain.len().saturating_sub(1);
    put_number(out, gathering, b"    chain ", edges as u64);
    put_nodes(out, gathering, names, chain);
    gathering.put(out, b"\n");
}

// Adds the names of nodes.
fn put_nodes<O: Sink>(out: &mut O, gathering: &mut Gathering, names: &NodeNames, nodes: &[u32])
    requires { All (IsNamedNumber names.now) nodes.now }
    ensures { Gathers (O.tells out.old) (O.tells out.new) gathering.old gathering.new (flat_map spaced_text (map (name_by_number names.now) nodes.now)) }
{
    for node in nodes {
        put_node(out, gathering, names.at(*node));
    }
}
