//! The shortest chains from problems of one network, one after the other, by one explainer.
ghost use Rattle.std.specs.Prelude.{◌≡◌, ◌<◌, ◌≤◌, length, OnOk};
ghost use Rattle.std.specs.List.{All};
ghost use Rattle.cb_explain.specs.Explained.{IsExplainerOf};

use crate::span::problem_named;
use crate::worked::graph_of;
use cb_chains::ChainTree;
use cb_explain::Explainer;
use cb_graph::Graph;
use cb_steps::{MayCount, Steps};
use std::alloc::{AllocError, Global};
use std::marker::Brand;
use std::process::Abort;
use std::sync::ledger::{Blank, Ledger};

const MODEL: &[u8] =
    b"class Node { problem symptom Sick; relation next to Node many inverse back; relation back to Node many inverse next; rule spread: Sick => next.Sick; }";

// Two ways lead from n1 to n4, by n3 and by n2. From n4 a cycle leads over n5 and n2. What n6 causes is on the cycle alone.
const NETWORK: [&[u8]; 13] = [
    b"create n6 Node",
    b"create n5 Node",
    b"create n4 Node",
    b"create n3 Node",
    b"create n2 Node",
    b"create n1 Node",
    b"link n1 next n3",
    b"link n3 next n4",
    b"link n1 next n2",
    b"link n2 next n4",
    b"link n4 next n5",
    b"link n5 next n2",
    b"link n6 next n5",
];

// A problem's instance; the chains from it, to the nodes in order, each by the places of its nodes in that order; and how many nodes are asked, which are
// those that no problem before it caused.
struct Case {
    problem: &'static [u8],
    chains: &'static [&'static [u32]],
    steps: u64,
}

const CASES: [Case; 3] = [
    Case {
        problem: b"n1",
        // From n4 it is n2 that is the least of two before it. Nothing leads to n6.
        chains: &[&[0], &[0, 1], &[0, 2], &[0, 1, 3], &[0, 1, 3, 4]],
        steps: 5,
    },
    Case {
        problem: b"n6",
        chains: &[&[5, 4, 1], &[5, 4, 1, 3], &[5, 4], &[5]],
        steps: 1,
    },
    Case {
        problem: b"n2",
        chains: &[&[1], &[1, 3], &[1, 3, 4]],
        steps: 0,
    },
];

// Whether a chain of a tree is the one that is wanted.
fn is_chain(tree: &ChainTree, at: usize, path: &mut Vec<u32>, wanted: &[u32]) -> bool
    requires at { at < length tree.now }
    requires fits { All (λ chain. length chain ≤ length path.old.items) tree.now }
    ensures { length path.new.items ≡ length path.old.items }
{
    let start = tree.write_chain(at, path);
    &path[start..] == wanted
}

// Whether the chains of a tree are those that are wanted.
fn are_chains(alloc: Global, tree: &ChainTree, wanted: &[&[u32]]) -> Result<bool, AllocError> {
    let mut path = vec![in alloc; 0_u32; tree.node_count()]?;
    let mut right = tree.len() == wanted.len();
    for at in 0..tree.len().min(wanted.len()) {
        right &= is_chain(tree, at, &mut path, wanted[at]);
    }
    Ok(right)
}

// Searches from the problem of a case, and compares its chains.
fn explain_case<L: Ledger>(
    rt: &impl Abort,
    alloc: Global,
    graph: &mut Graph,
    explainer: &mut Explainer,
    case: &Case,
    steps: &mut Steps<L>,
) -> Result<(), AllocError>
    requires { IsExplainerOf graph.old explainer.old }
    ensures same { graph.new ≡ graph.old }
    ensures explainer { OnOk result (IsExplainerOf graph.new explainer.new) }
{
    let Some(problem) = problem_named(graph.topology(), b"Sick", case.problem) else {
        return Err(AllocError);
    };
    let columns = graph.topology().columns(alloc)?;
    let before = steps.count();
    let tree = explainer.chains_to(alloc, graph, problem, &columns, steps)?;
    let right = are_chains(alloc, &tree, case.chains);
    drop(tree);
    assert!(rt; right?, "{:?}", case.problem);
    assert_eq!(rt;
        steps.count().wrapping_sub(before),
        case.steps,
        "{:?}",
        case.problem
    );
    Ok(())
}

// The cases in turn, over one explainer.
fn explain_cases<L: Ledger>(
    rt: &(impl Abort + MayCount),
    alloc: Global,
    blank: Blank,
    graph: &mut Graph,
) -> Result<(), AllocError>
    requires name { blank.name ≡ L.name }
    requires parts { blank.parts ≡ L.parts }
    requires some { 0 < L.parts }
{
    let mut steps = Steps::<L>::new(rt, blank);
    let mut explainer = Explainer::new(alloc, graph.topology())?;
    for case in &CASES {
        explain_case(rt, alloc, graph, &mut explainer, case, &mut steps)?;
    }
    Ok(())
}

#[test]
fn chains_over_a_diamond_and_a_cycle(rt: HostRuntime) -> Result<(), AllocError> {
    let alloc = rt.alloc();
    let mut graph = graph_of(&rt, alloc, MODEL, &NETWORK)?;
    let done = explain_cases::<Brand>(&rt, alloc, Blank::new(1), &mut graph);
    drop(graph);
    done
}
