//! The codebook that a certificate states.
ghost use Rattle.std.specs.Prelude.{◌≡◌, ◌≤◌, ◌+◌, ℕ, List as Items, Bool, IfOk, Some, length, slice_get};
ghost use Rattle.cb_matrix.specs.Matrix.{IsMatrixOf};
ghost use Rattle.cb_model.specs.declared.node.NodeName.{NodeName as Name};
ghost use Rattle.cb_network.specs.Nodes.{IsColumn, AreColumns, IsNodeOf};
ghost use Rattle.cb_network.specs.Sound.{problem_limit, symptom_limit};
ghost use Rattle.cb_validity.specs.Valid.{AreColumnNumbers};
ghost use Rattle.cb_topo.specs.Columns.{AreAllColumns};
ghost use Rattle.cb_topo.specs.Numbered.{topology_of, IsNodeNamed};
ghost use Rattle.cb_session.specs.InUse.{HasRadiiOf, in_use_of};
ghost use Rattle.cb_session.specs.Stated.{ArePlacesFor, StatesRadiiOf, wish_stated};

use crate::book::BookInUse;
use cb_cache::Cache;
use cb_coding::{Book, CapBook};
use cb_matrix::Matrix;
use cb_model::{List, NodeName};
use cb_nodes::NodeId;
use cb_topo::{ColumnIndex, Topology};
use std::alloc::{AllocError, Global};

/// How far apart a stated codebook keeps the groups.
#[derive(Drop)]
pub enum StatedWish {
    /// At least at this distance.
    Plain(u32),
    /// As far as over all columns, or as the cap where that is less; each group, in order, has a radius of its own.
    Cap { cap: u32, radii: List<u32> },
}

/// What a certificate states of its codebook: what it keeps, and its columns by their numbers among the nodes.
#[derive(Drop)]
pub struct StatedBook {
    pub wish: StatedWish,
    pub nodes: List<NodeName>,
    pub columns: List<u32>,
}

impl StatedWish {
    /// The codebook of these columns that keeps it.
    pub(crate) fn book_of(self, columns: List<u32>) -> BookInUse
        ensures kept { (in_use_of result).kept ≡ columns }
        ensures used { (in_use_of result).used ≡ wish_stated self }
        ensures radii { (width : ℕ) (codes : Items (Items Bool)) → StatesRadiiOf width codes self → HasRadiiOf width codes result }
    {
        match self {
            StatedWish::Plain(distance) => BookInUse::Plain(Book { columns, distance }),
            StatedWish::Cap { cap, radii } => BookInUse::Capped(CapBook {
                columns,
                cap,
                radii,
            }),
        }
    }
}

/// The matrix of the cache's topology, and the positions of the stated columns among its own. One index of the columns serves both.
pub(crate) fn matrix_and_places(
    alloc: Global,
    cache: &Cache,
    stated: &StatedBook,
) -> Result<(Matrix, List<u32>), AllocError>
    requires { AreColumnNumbers (topology_of cache.now.graph) stated.now.nodes stated.now.columns }
    ensures matrix { IfOk result (λ made. IsMatrixOf cache.now.graph made.0) }
    ensures few_columns { IfOk result (λ made. length made.0.columns ≤ symptom_limit) }
    ensures few_groups { IfOk result (λ made. length made.0.groups ≤ problem_limit + 1) }
    ensures places { IfOk result (λ made. ArePlacesFor (topology_of cache.now.graph) stated.now.nodes stated.now.columns made.1) }
    ensures few_places { IfOk result (λ made. length made.1 ≤ symptom_limit) }
{
    let topology = cache.graph().topology();
    // There are not many columns.
    let _model = topology.model();
    let columns = topology.column_index(alloc)?;
    let places = places_of(alloc, topology, &columns, &stated.nodes, &stated.columns)?;
    let matrix = Matrix::over(alloc, cache, columns)?;
    Ok((matrix, places))
}

// The positions, among all columns of the topology, of those with these numbers among the nodes of a certificate.
fn places_of(
    alloc: Global,
    topology: &Topology,
    columns: &ColumnIndex,
    nodes: &List<NodeName>,
    numbers: &List<u32>,
) -> Result<List<u32>, AllocError>
    requires all { AreAllColumns topology.now columns.now }
    requires numbers { AreColumnNumbers (topology_of topology.now) nodes.now numbers.now }
    ensures { IfOk result (ArePlacesFor (topology_of topology.now) nodes.now numbers.now) }
{
    let mut places = List::new(alloc);
    for k in 0..numbers.len() {
        let number = *numbers.at(k) as usize;
        places.push(place_of(topology, columns, nodes.at(number - 1)))?;
    }
    Ok(places)
}

// The position of a column among all.
fn place_of(topology: &Topology, columns: &ColumnIndex, column: &NodeName) -> u32
    requires all { AreAllColumns topology.now columns.now }
    requires is { IsColumn (topology_of topology.now) column.now }
    ensures { (all : Items Name) → AreColumns (topology_of topology.now) all → slice_get all result ≡ Some column.now }
{
    // A name has one number.
    let _model = topology.model();
    let id = id_of(topology, column);
    columns.position(id).unwrap()
}

fn id_of(topology: &Topology, node: &NodeName) -> NodeId
    requires { IsNodeOf (topology_of topology.now) node.now }
    ensures { IsNodeNamed topology.now result node.now }
{
    topology
        .node_named(node.event.bytes(), node.instance.bytes())
        .unwrap()
}
