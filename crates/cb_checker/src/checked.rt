//! The checker.
ghost use Rattle.std.specs.Prelude.{◌≡◌, IfOk, OnOk, IfErr};
ghost use Rattle.cb_topo.specs.Numbered.{topology_of};
ghost use Rattle.cb_validity.specs.Valid.{IsValid};
ghost use Rattle.cb_validity.specs.Verdicts.{IsCheckable, CertificateShows, TellsWhy};
ghost use Rattle.cb_checker.specs.Verdicts.{AreSidesOf};

use crate::book::{check_book, check_capped};
use crate::sides::{Sides, sides_of};
use crate::thin::{Closeness, check_thin};
use cb_cert::Certificate;
use cb_graph::Graph;
use cb_steps::Steps;
use cb_validity::{Accepted, Rejected};
use std::alloc::Global;
use std::sync::ledger::Ledger;

/// What the certificate shows of the graph's topology, where it is valid, and else the first of its checks that fails.
pub fn check<L: Ledger>(
    alloc: Global,
    graph: &mut Graph,
    certificate: &Certificate,
    steps: &mut Steps<L>,
) -> Result<Accepted, Rejected>
    requires { IsCheckable certificate.now }
    ensures same { graph.new ≡ graph.old }
    ensures valid { OnOk result (IsValid (topology_of graph.old) certificate.now) }
    ensures shows { IfOk result (CertificateShows (topology_of graph.old) certificate.now) }
    ensures why { IfErr result (TellsWhy (topology_of graph.old) certificate.now) }
{
    let Ok(sides) = sides_of(alloc, graph.topology()) else {
        return Err(Rejected::NoMemory);
    };
    check_over(alloc, graph, &sides, certificate, steps)
}

// Checks the certificate over the problems and the columns of the topology.
fn check_over<L: Ledger>(
    alloc: Global,
    graph: &mut Graph,
    sides: &Sides,
    certificate: &Certificate,
    steps: &mut Steps<L>,
) -> Result<Accepted, Rejected>
    requires sides { AreSidesOf graph.old sides.now }
    requires checkable { IsCheckable certificate.now }
    ensures same { graph.new ≡ graph.old }
    ensures valid { OnOk result (IsValid (topology_of graph.old) certificate.now) }
    ensures shows { IfOk result (CertificateShows (topology_of graph.old) certificate.now) }
    ensures why { IfErr result (TellsWhy (topology_of graph.old) certificate.now) }
{
    match certificate {
        Certificate::Book {
            distance,
            nodes,
            columns,
            spans,
        } => check_book(
            alloc,
            graph,
            sides,
            nodes.as_slice(),
            columns.as_slice(),
            spans,
            *distance,
            steps,
        ),
        Certificate::Capped {
            cap,
            nodes,
            columns,
            radii,
            spans,
        } => check_capped(
            alloc,
            graph,
            sides,
            nodes.as_slice(),
            columns.as_slice(),
            radii.as_slice(),
            spans,
            *cap,
            steps,
        ),
        Certificate::Thin {
            wanted,
            distance,
            nodes,
            first,
            second,
        } => {
            let claim = Closeness {
                wanted: *wanted,
                distance: *distance,
            };
            check_thin(
                alloc,
                graph,
                sides,
                nodes.as_slice(),
                first,
                second,
                claim,
                steps,
            )
        }
    }
}
