//! Files of a codebook: valid certificates of that kind.
ghost use Rattle.std.specs.Prelude.{◌≡◌, ◌⊎◌, ℕ, List, IfOk, IfErr};
ghost use Rattle.cb_network.specs.Topology.{Topology as TopologyOf};
ghost use Rattle.cb_report.specs.declared.fault.Fault.TheVariants.{NotBook};
ghost use Rattle.cb_topo.specs.Numbered.{topology_of};
ghost use Rattle.cb_outcome.specs.Roles.{Wanted, Role};
ghost use Rattle.cb_outcome.specs.Judged.{network};
ghost use Rattle.cb_outcome.specs.Texts.{IsBookKind};
ghost use Rattle.cb_file_kinds.specs.Kinds.{IsWant};
ghost use Rattle.cb_file_kinds.specs.Given.{IsValidFrom, IsShownBy, IsKnownBook};

use crate::certificate_file::{MOST_BYTES, Shown, ValidCertificate, read_valid};
use crate::kind::FileKind;
use cb_cert::Certificate;
use cb_graph::Graph;
use cb_model::{List, NodeName};
use cb_report::{Fault, accepted_text};
use cb_request::FileName;
use cb_steps::Steps;
use cb_topo::Topology;
use std::alloc::Global;
use std::sync::ledger::Ledger;

/// How far apart a codebook keeps the groups.
#[derive(Drop)]
pub enum GivenWish {
    /// At least at this distance.
    Plain(u32),
    /// As far as over all columns, or as the cap where that is less; each group, in order, has a radius of its own.
    Cap { cap: u32, radii: List<u32> },
}

/// The codebook of a valid certificate: what it keeps, and its columns by their numbers among the nodes. The graph is the one that the
/// certificate was checked against.
#[derive(Drop)]
pub struct GivenBook {
    pub wish: GivenWish,
    pub nodes: List<NodeName>,
    pub columns: List<u32>,
    pub graph: Graph,
}

/// A codebook, and the line that says what its certificate shows.
#[derive(Drop)]
pub struct ShownBook {
    pub book: GivenBook,
    pub line: Vec<u8>,
}

/// A file of a codebook, after the topology. To check it, edges are asked for, which are counted.
#[derive(Drop)]
pub struct BookFile<'s, L: Ledger> {
    pub topology: Topology,
    pub steps: &'s mut Steps<L>,
}

impl<'s, L: Ledger> FileKind for BookFile<'s, L> {
    type Value = ShownBook;

    ghost role = { Role.certificate Wanted.book };

    ghost before = { λ file known. known ≡ network (topology_of file.topology) };

    ghost after = { λ file shown known. IsKnownBook (topology_of file.topology) shown known };

    fn most_bytes(&self) -> usize {
        MOST_BYTES
    }

    fn judge<'w>(
        self,
        alloc: Global,
        name: FileName<'w>,
        text: &[u8],
    ) -> Result<ShownBook, Fault<'w>> {
        let valid = read_valid(alloc, self.topology, name, text, self.steps)?;
        book_of(alloc, valid)
    }
}

// The codebook of a valid certificate, if it states one, with the line that says what it shows.
fn book_of<'w>(alloc: Global, valid: ValidCertificate) -> Result<ShownBook, Fault<'w>>
    ensures book { IfOk result (λ book. (t : TopologyOf) (text : List ℕ) → IsValidFrom t text valid → IsShownBy t valid.certificate book) }
    ensures other { IfErr result (λ fault. IsWant fault ⊎ ((¬ IsBookKind valid.certificate) × (fault ≡ NotBook))) }
{
    let line = accepted_text(alloc, &valid.shown.accepted)?;
    let ValidCertificate { certificate, shown } = valid;
    let Shown { graph, accepted } = shown;
    drop(accepted);
    match certificate {
        Certificate::Book {
            distance,
            nodes,
            columns,
            ..
        } => {
            let book = GivenBook {
                wish: GivenWish::Plain(distance),
                nodes,
                columns,
                graph,
            };
            Ok(ShownBook { book, line })
        }
        Certificate::Capped {
            cap,
            nodes,
            columns,
            radii,
            ..
        } => {
            let book = GivenBook {
                wish: GivenWish::Cap { cap, radii },
                nodes,
                columns,
                graph,
            };
            Ok(ShownBook { book, line })
        }
        Certificate::Thin { .. } => Err(Fault::NotBook),
    }
}
