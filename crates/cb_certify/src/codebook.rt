//! The codebook of a topology, certified.
ghost use Rattle.std.specs.Prelude.{◌≡◌, ◌≤◌, ◌+◌, length, IfOk};
ghost use Rattle.cb_cert.specs.Format.{IsWanted};
ghost use Rattle.cb_model.specs.declared.wish.Wish.TheVariants.{Plain, Cap};
ghost use Rattle.cb_validity.specs.Totals.{HasManyEntries};
ghost use Rattle.cb_network.specs.Sound.{problem_limit, symptom_limit};
ghost use Rattle.cb_topo.specs.Columns.{AreAllColumns};
ghost use Rattle.cb_topo.specs.Numbered.{topology_of};
ghost use Rattle.cb_matrix.specs.Matrix.{IsMatrixOf};
ghost use Rattle.cb_span.specs.Searched.{AreTreesOf};
ghost use Rattle.cb_certify.specs.Groups.{AreGroupsOf};
ghost use Rattle.cb_certify.specs.Made.{IsBookClaim, IsBookOver, IsCapBookOf, IsCappedFrom, IsChoiceOf, IsMadeOf, IsSomeChoice, IsWantedWish};

use crate::columns::columns_at;
use crate::groups::{close_groups, groups_of};
use crate::shortfall::{close_named, shortfall};
use cb_cert::Certificate;
use cb_codes::Groups;
use cb_coding::{Book, CapBook};
use cb_distance::first_close;
use cb_graph::Graph;
use cb_matrix::Matrix;
use cb_model::{GroupName, List, NodeName, Wish};
use cb_nodes::NodeId;
use cb_reduce::{Refused, reduce, reduce_cap};
use cb_span::{SpanFault, Trees};
use cb_steps::Steps;
use cb_topo::Topology;
use std::alloc::{AllocError, Global};
use std::sync::ledger::Ledger;

/// What is written of a topology's codebook.
#[derive(Drop)]
pub enum Codebook {
    /// The codebook's certificate.
    Certified(Certificate),
    /// There is a codebook, whose certificate would have too many entries.
    TooManyEntries,
    /// There is none at the wanted distance: these are the first two groups that are closer, how far they are apart, and the
    /// certificate of that.
    TooClose {
        wanted: u32,
        first: GroupName,
        second: NodeName,
        distance: u32,
        certificate: Certificate,
    },
}

/// What is written of the codebook of the topology for a wanted distance or a cap. A search from each problem gives the groups and
/// the certificate. If the certificate would have too many entries, it is only found out whether there is a codebook: for a cap there
/// always is one, and for a distance the rows of a cache give the groups.
pub fn codebook_of<L: Ledger>(
    alloc: Global,
    topology: Topology,
    wish: Wish,
    steps: &mut Steps<L>,
) -> Result<Codebook, AllocError>
    requires { IsWantedWish wish }
    ensures { IfOk result (IsMadeOf (topology_of topology) wish) }
{
    let mut graph = Graph::new(alloc, topology)?;
    match Trees::of(alloc, &mut graph, steps) {
        Ok(trees) => of_trees(alloc, graph, trees, wish, steps),
        Err(SpanFault::TooManyEntries) => of_many(alloc, graph, wish, steps),
        Err(SpanFault::NoMemory) => {
            drop(graph);
            Err(AllocError)
        }
    }
}

// The codebook of a graph by the trees of its topology; both end here.
fn of_trees<L: Ledger>(
    alloc: Global,
    mut graph: Graph,
    trees: Trees,
    wish: Wish,
    steps: &mut Steps<L>,
) -> Result<Codebook, AllocError>
    requires trees { AreTreesOf graph trees }
    requires wish { IsWantedWish wish }
    ensures { IfOk result (IsMadeOf (topology_of graph) wish) }
{
    let made = by_trees(alloc, &mut graph, trees, wish, steps);
    drop(graph);
    made
}

// The codebook of a topology by the trees of its graph. They give the groups, and then become the certificate.
fn by_trees<L: Ledger>(
    alloc: Global,
    graph: &mut Graph,
    trees: Trees,
    wish: Wish,
    steps: &mut Steps<L>,
) -> Result<Codebook, AllocError>
    requires trees { AreTreesOf graph.old trees }
    requires wish { IsWantedWish wish }
    ensures { IfOk result (IsMadeOf (topology_of graph.old) wish) }
{
    let columns = graph.topology().column_index(alloc)?;
    let groups = groups_of(alloc, graph.topology(), &trees, &columns)?;
    // Once there is a book, the codes are of no more use, and take as much memory as the certificate.
    match wish {
        Wish::Plain(wanted) => match reduce(alloc, &groups.codes, wanted) {
            Ok(book) => {
                drop(groups);
                with_book(alloc, graph.topology(), trees, columns.nodes(), &book)
            }
            Err(Refused::TooClose(pair)) => {
                let close = close_groups(&groups, pair);
                shortfall(alloc, graph, close, wanted, steps)
            }
            Err(Refused::NoMemory) => Err(AllocError),
        },
        Wish::Cap(cap) => {
            let book = reduce_cap(alloc, &groups.codes, cap)?;
            drop(groups);
            with_cap_book(alloc, graph.topology(), trees, columns.nodes(), book)
        }
    }
}

// The certificate of a codebook of the topology for a distance.
fn with_book(
    alloc: Global,
    topology: &Topology,
    trees: Trees,
    all: &List<NodeId>,
    apart: &Book,
) -> Result<Codebook, AllocError>
    requires trees { AreTreesOf topology.now trees }
    requires all { AreAllColumns topology.now all.now }
    requires book { IsChoiceOf (topology_of topology.now) (Plain apart.now.distance) apart.now.columns }
    requires wanted { IsWanted apart.now.distance }
    ensures { IfOk result (IsMadeOf (topology_of topology.now) (Plain apart.now.distance)) }
{
    let certificate = book_over(alloc, topology, trees, all, &apart.columns, apart.distance)?;
    Ok(Codebook::Certified(certificate))
}

// The certificate of a codebook of the topology for a cap.
fn with_cap_book(
    alloc: Global,
    topology: &Topology,
    trees: Trees,
    all: &List<NodeId>,
    apart: CapBook,
) -> Result<Codebook, AllocError>
    requires trees { AreTreesOf topology.now trees }
    requires all { AreAllColumns topology.now all.now }
    requires book { IsCapBookOf (topology_of topology.now) apart }
    requires wanted { IsWanted apart.cap }
    ensures { IfOk result (IsMadeOf (topology_of topology.now) (Cap apart.cap)) }
{
    let CapBook {
        columns,
        cap,
        radii,
    } = apart;
    let book = book_over(alloc, topology, trees, all, &columns, 1)?;
    Ok(Codebook::Certified(capped_from(book, cap, radii)))
}

// The canonical book at a distance over the columns at these positions.
fn book_over(
    alloc: Global,
    topology: &Topology,
    trees: Trees,
    all: &List<NodeId>,
    kept: &List<u32>,
    distance: u32,
) -> Result<Certificate, AllocError>
    requires trees { AreTreesOf topology.now trees }
    requires all { AreAllColumns topology.now all.now }
    requires kept { IsSomeChoice (topology_of topology.now) kept.now }
    ensures { IfOk result (IsBookOver (topology_of topology.now) kept.now distance) }
{
    let columns = columns_at(alloc, all, kept)?;
    let certificate = trees.book(alloc, topology, &columns, distance)?;
    Ok(certificate)
}

// The certificate of a codebook for a cap, made of a book's lists.
fn capped_from(book: Certificate, cap: u32, radii: List<u32>) -> Certificate
    requires { IsBookClaim book }
    ensures { IsCappedFrom book cap radii result }
{
    match book {
        Certificate::Book {
            nodes,
            columns,
            spans,
            ..
        } => Certificate::Capped {
            cap,
            nodes,
            columns,
            radii,
            spans,
        },
        _ => unreachable!(),
    }
}

// What is written where a certificate would have too many entries. For a cap there always is a codebook.
fn of_many<L: Ledger>(
    alloc: Global,
    graph: Graph,
    wish: Wish,
    steps: &mut Steps<L>,
) -> Result<Codebook, AllocError>
    requires many { HasManyEntries (topology_of graph) }
    requires wish { IsWantedWish wish }
    ensures { IfOk result (IsMadeOf (topology_of graph) wish) }
{
    match wish {
        Wish::Plain(wanted) => by_searches(alloc, graph, wanted, steps),
        Wish::Cap(_) => {
            drop(graph);
            Ok(Codebook::TooManyEntries)
        }
    }
}

// What is written for a distance where a certificate would have too many entries.
fn by_searches<L: Ledger>(
    alloc: Global,
    mut graph: Graph,
    wanted: u32,
    steps: &mut Steps<L>,
) -> Result<Codebook, AllocError>
    requires many { HasManyEntries (topology_of graph) }
    requires wanted { IsWanted wanted }
    ensures { IfOk result (IsMadeOf (topology_of graph) (Plain wanted)) }
{
    match Matrix::search(alloc, &mut graph, steps) {
        Ok(matrix) => of_matrix(alloc, graph, matrix, wanted, steps),
        Err(none) => {
            drop(graph);
            Err(none)
        }
    }
}

// The codebook of a graph by the matrix of its topology; both end here.
fn of_matrix<L: Ledger>(
    alloc: Global,
    mut graph: Graph,
    matrix: Matrix,
    wanted: u32,
    steps: &mut Steps<L>,
) -> Result<Codebook, AllocError>
    requires many { HasManyEntries (topology_of graph) }
    requires matrix { IsMatrixOf graph matrix }
    requires few_columns { length matrix.columns ≤ symptom_limit }
    requires few_groups { length matrix.groups ≤ problem_limit + 1 }
    requires wanted { IsWanted wanted }
    ensures { IfOk result (IsMadeOf (topology_of graph) (Plain wanted)) }
{
    let made = by_groups(alloc, &mut graph, matrix.coded_groups(), wanted, steps);
    drop(matrix);
    drop(graph);
    made
}

// The codebook of a topology by its groups.
fn by_groups<L: Ledger>(
    alloc: Global,
    graph: &mut Graph,
    groups: &Groups,
    wanted: u32,
    steps: &mut Steps<L>,
) -> Result<Codebook, AllocError>
    requires many { HasManyEntries (topology_of graph.old) }
    requires groups { AreGroupsOf (topology_of graph.old) groups.now }
    requires wanted { IsWanted wanted }
    ensures { IfOk result (IsMadeOf (topology_of graph.old) (Plain wanted)) }
{
    match first_close(groups.codes(), wanted) {
        Some(pair) => {
            let close = close_named(graph.topology(), groups.named(), pair);
            shortfall(alloc, graph, close, wanted, steps)
        }
        None => Ok(Codebook::TooManyEntries),
    }
}
