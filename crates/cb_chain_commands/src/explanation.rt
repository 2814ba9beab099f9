//! What explains raised nodes by chains: searches, one problem after the other.
ghost use Rattle.std.specs.Prelude.{◌≡◌, [], ◌∷◌, ℕ, List, Some, IfOk, OnOk, slice_get};
ghost use Rattle.std.specs.List.{All};
ghost use Rattle.cb_model.specs.declared.node.NodeName.{NodeName as Name};
ghost use Rattle.cb_network.specs.Nodes.{IsNodeOf, IsProblem};
ghost use Rattle.cb_topo.specs.Numbered.{topology_of, AreNamed, IsNodeNamed};
ghost use Rattle.cb_explain.specs.Explained.{HasChainsTo, IsNameOnChain};
ghost use Rattle.cb_chain_commands.specs.Explaining.{IsExplanation, KeepsNetwork, HaveMemberChains, CountsFrom};

use cb_chains::{ChainTree, NodeNames};
use cb_explain::Explainer;
use cb_graph::Graph;
use cb_model::{List as Items, NodeName};
use cb_nodes::NodeId;
use cb_steps::Steps;
use cb_topo::Topology;
use std::alloc::{AllocError, Global};
use std::sync::ledger::Ledger;

/// A network with its columns, and what is searched in it.
#[derive(Drop)]
pub(crate) struct Explanation {
    graph: Graph,
    columns: Items<NodeId>,
    explainer: Explainer,
}

impl Explanation {
    /// Of a network in which nothing is searched yet.
    pub(crate) fn of(alloc: Global, graph: Graph) -> Result<Explanation, AllocError>
        ensures { IfOk result (λ made. IsExplanation graph made) }
    {
        let topology = graph.topology();
        let columns = topology.columns(alloc)?;
        let explainer = Explainer::new(alloc, topology)?;
        Ok(Explanation {
            graph,
            columns,
            explainer,
        })
    }

    /// The chains from each member to the columns that it causes.
    pub(crate) fn trees_of<L: Ledger>(
        &mut self,
        alloc: Global,
        members: &Items<NodeName>,
        steps: &mut Steps<L>,
    ) -> Result<Items<ChainTree>, AllocError>
        requires network { IsExplanation self.old.graph self.old }
        requires problems { All (IsProblem (topology_of self.old.graph)) members.now }
        ensures network { OnOk result (IsExplanation self.old.graph self.new) }
        ensures same { OnOk result (KeepsNetwork self.old self.new) }
        ensures chains { IfOk result (λ trees. (columns : List Name) → AreNamed self.old.graph self.old.columns columns
            → HaveMemberChains self.old.graph self.new.explainer columns members.now trees) }
        ensures cost { CountsFrom (topology_of self.old.graph) members.now steps.old steps.new }
    {
        let mut trees = Vec::with_capacity(alloc, members.len())?;
        for at in 0..members.len() {
            let tree = self.tree_of(alloc, members.at(at), steps)?;
            trees.push(tree)?;
        }
        Ok(Items::of(trees))
    }

    // The chains from a problem to the columns that it causes.
    fn tree_of<L: Ledger>(
        &mut self,
        alloc: Global,
        problem: &NodeName,
        steps: &mut Steps<L>,
    ) -> Result<ChainTree, AllocError>
        requires network { IsExplanation self.old.graph self.old }
        requires problem { IsProblem (topology_of self.old.graph) problem.now }
        ensures network { OnOk result (IsExplanation self.old.graph self.new) }
        ensures same { OnOk result (KeepsNetwork self.old self.new) }
        ensures chains { IfOk result (λ tree. (columns : List Name) → AreNamed self.old.graph self.old.columns columns
            → HasChainsTo self.old.graph self.new.explainer problem.now columns tree) }
        ensures cost { CountsFrom (topology_of self.old.graph) (problem.now ∷ []) steps.old steps.new }
    {
        let node = number_of(self.graph.topology(), problem);
        self.explainer
            .chains_to(alloc, &mut self.graph, node, &self.columns, steps)
    }

    /// The names of the nodes on all chains that were found.
    pub(crate) fn into_names(self, alloc: Global) -> Result<NodeNames, AllocError>
        requires { IsExplanation self.graph self }
        ensures { IfOk result (λ names. (node : ℕ) (name : Name) → IsNameOnChain self.graph self.explainer node name → slice_get names node ≡ Some (Some name)) }
    {
        let Explanation {
            graph,
            columns,
            explainer,
        } = self;
        drop(columns);
        let names = explainer.into_names(alloc, graph.topology());
        drop(graph);
        names
    }
}

// The number of a node.
fn number_of(topology: &Topology, node: &NodeName) -> NodeId
    requires { IsNodeOf (topology_of topology.now) node.now }
    ensures { IsNodeNamed topology.now result node.now }
{
    topology
        .node_named(node.event.bytes(), node.instance.bytes())
        .unwrap()
}
