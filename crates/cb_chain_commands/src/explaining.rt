//! From a topology and raised nodes to the groups nearest to them, each with its chains.
ghost use Rattle.std.specs.Prelude.{◌≡◌, ◌≤◌, ◌+◌, List, ℕ, map, IfOk, OnOk};
ghost use Rattle.std.specs.List.{All};
ghost use Rattle.cb_model.specs.declared.node.NodeName.{NodeName as Name};
ghost use Rattle.cb_model.specs.Order.{Rises};
ghost use Rattle.cb_model.specs.NodeOrder.{node_cmp};
ghost use Rattle.cb_network.specs.Nodes.{AreColumns};
ghost use Rattle.cb_chains.specs.Names.{IsNamedNumber, named_chains};
ghost use Rattle.cb_change.specs.Costs.{IsOpenCost};
ghost use Rattle.cb_finding.specs.Finding.{IsBurst};
ghost use Rattle.cb_topo.specs.Numbered.{topology_of, AreNamed};
ghost use Rattle.cb_outcome.specs.Costs.{IsExplainCost, members_but_of_quiet, problems_explained};
ghost use Rattle.cb_outcome.specs.Explained.{ExplainsGroups};
ghost use Rattle.cb_outcome.specs.Jobs.{ExplainGives};
ghost use Rattle.cb_outcome.specs.Outcome.{done};
ghost use Rattle.cb_chain_commands.specs.Explaining.{IsExplanation, KeepsNetwork, CanBeExplained, HaveMemberChains, HaveGroupChains, AreNamesOf, IsExplainedBy, CountsFrom};

use crate::explanation::Explanation;
use cb_burst::SearchedNetwork;
use cb_chains::{ChainTree, NodeNames};
use cb_finding::Finding;
use cb_graph::Graph;
use cb_model::{List as Items, NamedGroup, NodeName};
use cb_report::ChainLines;
use cb_steps::Steps;
use cb_topo::Topology;
use std::alloc::{AllocError, Global};
use std::sync::ledger::Ledger;

/// The lines of what is found for the raised nodes, with the chains of each group.
pub(crate) fn lines_of_explain<L: Ledger>(
    alloc: Global,
    topology: Topology,
    raised: &Items<NodeName>,
    steps: &mut Steps<L>,
) -> Result<ChainLines, AllocError>
    requires { Rises node_cmp raised.now }
    ensures lines { IfOk result (λ lines. (whole : ℕ) → ExplainGives (topology_of topology) raised.now whole (done lines whole)) }
    ensures cost { (cost : ℕ) → IsExplainCost (topology_of topology) raised.now cost → steps.new ≤ steps.old + cost }
{
    let found = search_all(alloc, topology, raised, steps)?;
    let Found { graph, finding } = found;
    explained(alloc, graph, finding, steps)
}

// What is found for raised nodes, and the graph in which it was searched.
#[derive(Drop)]
struct Found {
    graph: Graph,
    finding: Finding,
}

// Searches the topology.
fn search_all<L: Ledger>(
    alloc: Global,
    topology: Topology,
    raised: &Items<NodeName>,
    steps: &mut Steps<L>,
) -> Result<Found, AllocError>
    requires { Rises node_cmp raised.now }
    ensures graph { IfOk result (λ found. found.graph ≡ topology) }
    ensures finding { IfOk result (λ found. IsBurst (topology_of topology) raised.now found.finding) }
    ensures cost { (cost : ℕ) → IsOpenCost (topology_of topology) cost → steps.new ≤ steps.old + cost }
{
    let network = SearchedNetwork::of(alloc, topology, steps)?;
    match network.find(alloc, raised) {
        Ok(finding) => Ok(Found {
            graph: network.into_graph(),
            finding,
        }),
        Err(out_of_memory) => {
            drop(network);
            Err(out_of_memory)
        }
    }
}

// The lines of a finding, with the chains of each group.
fn explained<L: Ledger>(
    alloc: Global,
    graph: Graph,
    finding: Finding,
    steps: &mut Steps<L>,
) -> Result<ChainLines, AllocError>
    requires { (raised : List Name) × IsBurst (topology_of graph) raised finding }
    ensures lines { IfOk result (λ lines. (raised : List Name) (burst : IsBurst (topology_of graph) raised finding)
        → IsExplainedBy (topology_of graph) burst.columns finding lines) }
    ensures cost { CountsFrom (topology_of graph) (problems_explained finding.groups) steps.old steps.new }
{
    match chains_of(alloc, graph, &finding.groups, steps) {
        Ok(chains) => {
            let Chains { names, trees } = chains;
            ChainLines::of(alloc, finding, names, trees)
        }
        Err(out_of_memory) => {
            drop(finding);
            Err(out_of_memory)
        }
    }
}

// The chains of each group, with the names of their nodes.
#[derive(Drop)]
struct Chains {
    names: NodeNames,
    trees: Items<Items<ChainTree>>,
}

// Searches the chains of groups. The memory of the network and of the searches is given back.
fn chains_of<L: Ledger>(
    alloc: Global,
    graph: Graph,
    groups: &Items<NamedGroup>,
    steps: &mut Steps<L>,
) -> Result<Chains, AllocError>
    requires { (columns : List Name) → AreColumns (topology_of graph) columns → All (CanBeExplained (topology_of graph) columns) groups.now }
    ensures chains { IfOk result (λ made. (columns : List Name) → AreColumns (topology_of graph) columns
        → ExplainsGroups (topology_of graph) columns groups.now (map (named_chains made.names) made.trees)) }
    ensures named { IfOk result (λ made. All (All (All (All (IsNamedNumber made.names)))) made.trees) }
    ensures cost { CountsFrom (topology_of graph) (problems_explained groups.now) steps.old steps.new }
{
    let mut explanation = Explanation::of(alloc, graph)?;
    match trees_of_groups(alloc, &mut explanation, groups, steps) {
        Ok(trees) => with_names(alloc, explanation, trees),
        Err(out_of_memory) => {
            drop(explanation);
            Err(out_of_memory)
        }
    }
}

// Chains with the names of their nodes.
fn with_names(
    alloc: Global,
    explanation: Explanation,
    trees: Items<Items<ChainTree>>,
) -> Result<Chains, AllocError>
    requires { IsExplanation explanation.graph explanation }
    ensures names { IfOk result (λ made. AreNamesOf explanation made.names) }
    ensures trees { IfOk result (λ made. made.trees ≡ trees) }
{
    match explanation.into_names(alloc) {
        Ok(names) => Ok(Chains { names, trees }),
        Err(out_of_memory) => {
            drop(trees);
            Err(out_of_memory)
        }
    }
}

// The chains of each group.
fn trees_of_groups<L: Ledger>(
    alloc: Global,
    explanation: &mut Explanation,
    groups: &Items<NamedGroup>,
    steps: &mut Steps<L>,
) -> Result<Items<Items<ChainTree>>, AllocError>
    requires network { IsExplanation explanation.old.graph explanation.old }
    requires groups { (columns : List Name) → AreNamed explanation.old.graph explanation.old.columns columns
        → All (CanBeExplained (topology_of explanation.old.graph) columns) groups.now }
    ensures network { OnOk result (IsExplanation explanation.old.graph explanation.new) }
    ensures same { OnOk result (KeepsNetwork explanation.old explanation.new) }
    ensures chains { IfOk result (λ trees. (columns : List Name) → AreNamed explanation.old.graph explanation.old.columns columns
        → HaveGroupChains explanation.old.graph explanation.new.explainer columns groups.now trees) }
    ensures cost { CountsFrom (topology_of explanation.old.graph) (problems_explained groups.now) steps.old steps.new }
{
    let mut all = Vec::with_capacity(alloc, groups.len())?;
    for at in 0..groups.len() {
        let trees = trees_of_group(alloc, explanation, groups.at(at), steps)?;
        all.push(trees)?;
    }
    Ok(Items::of(all))
}

// The chains of a group. No problem of the quiet group causes a column.
fn trees_of_group<L: Ledger>(
    alloc: Global,
    explanation: &mut Explanation,
    group: &NamedGroup,
    steps: &mut Steps<L>,
) -> Result<Items<ChainTree>, AllocError>
    requires network { IsExplanation explanation.old.graph explanation.old }
    requires group { (columns : List Name) → AreNamed explanation.old.graph explanation.old.columns columns
        → CanBeExplained (topology_of explanation.old.graph) columns group.now }
    ensures network { OnOk result (IsExplanation explanation.old.graph explanation.new) }
    ensures same { OnOk result (KeepsNetwork explanation.old explanation.new) }
    ensures chains { IfOk result (λ trees. (columns : List Name) → AreNamed explanation.old.graph explanation.old.columns columns
        → HaveMemberChains explanation.old.graph explanation.new.explainer columns group.now.members trees) }
    ensures cost { CountsFrom (topology_of explanation.old.graph) (members_but_of_quiet group.now.quiet group.now.members) steps.old steps.new }
{
    if group.quiet {
        return Ok(Items::new(alloc));
    }
    explanation.trees_of(alloc, &group.members, steps)
}
