//! The topology as it is kept.
use cb_accept::NodeCounts;
use cb_instances::Net;
use cb_nodes::{NodeId, NodeTable};

/// A model's live instances and their nodes, under numbers, with links and mutes.
#[derive(Drop)]
pub struct Topology {
    pub(crate) net: Net,
    pub(crate) nodes: NodeTable,
    pub(crate) counts: NodeCounts,
    // All nodes in the order of their names, once they are settled.
    pub(crate) order: Option<Vec<NodeId>>,
}

impl std::marker::Model for Topology {
    ghost use Rattle.cb_topo.specs.Numbered.{Numbered};
    ghost use Rattle.cb_topo.specs.Encoding.{numbered_encoding};
    ghost use Rattle.cb_topo.specs.Settled.{IsTopologyState};

    ghost Value = { Numbered };

    ghost coded = { numbered_encoding };

    ghost view = { λ s. record { net = s.net; nodes = s.nodes } };

    ghost invariant = { λ s. IsTopologyState s.net s.nodes s.counts s.order };
}
