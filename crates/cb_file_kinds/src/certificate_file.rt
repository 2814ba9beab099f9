//! Certificate files.
ghost use Rattle.std.specs.Prelude.{◌≡◌, ◌⊎◌, ◌≤◌, ℕ, List, length, IfOk, IfErr};
ghost use Rattle.cb_cert.specs.Format.{IsCertificate};
ghost use Rattle.cb_validity.specs.Verdicts.{CertificateShows};
ghost use Rattle.cb_topo.specs.Numbered.{topology_of};
ghost use Rattle.cb_outcome.specs.Roles.{Wanted, Role, byte_limit};
ghost use Rattle.cb_outcome.specs.Judged.{network, certified, IsRejection};
ghost use Rattle.cb_file_kinds.specs.Kinds.{IsWant, IsCertificateAccepted, file_in_role, StopsJudging};
ghost use Rattle.cb_file_kinds.specs.Given.{IsCertificateShown, IsValidFrom};

use crate::kind::FileKind;
use cb_cert::{Certificate, read};
use cb_checker::{Accepted, check};
use cb_graph::Graph;
use cb_report::Fault;
use cb_request::FileName;
use cb_steps::Steps;
use cb_text::first_long;
use cb_topo::Topology;
use std::alloc::Global;
use std::sync::ledger::Ledger;

/// The most bytes that a certificate file, or a file of levels, may have.
pub const MOST_BYTES: usize = 32 << 20;

/// What a certificate shows, and the graph that it was checked against.
#[derive(Drop)]
pub struct Shown {
    pub graph: Graph,
    pub accepted: Accepted,
}

/// A certificate that is valid for a topology, and what it shows.
#[derive(Drop)]
pub struct ValidCertificate {
    pub certificate: Certificate,
    pub shown: Shown,
}

/// A certificate file of any kind, after the topology. To check it, edges are asked for, which are counted.
#[derive(Drop)]
pub struct CertificateFile<'s, L: Ledger> {
    pub topology: Topology,
    pub steps: &'s mut Steps<L>,
}

impl<'s, L: Ledger> FileKind for CertificateFile<'s, L> {
    type Value = ValidCertificate;

    ghost role = { Role.certificate Wanted.any };

    ghost before = { λ file known. known ≡ network (topology_of file.topology) };

    ghost after = { λ file value known. (known ≡ certified (topology_of file.topology) value.certificate) × CertificateShows (topology_of file.topology) value.certificate value.shown.accepted };

    fn most_bytes(&self) -> usize {
        MOST_BYTES
    }

    fn judge<'w>(
        self,
        alloc: Global,
        name: FileName<'w>,
        text: &[u8],
    ) -> Result<ValidCertificate, Fault<'w>> {
        read_valid(alloc, self.topology, name, text, self.steps)
    }
}

/// The valid certificate of a text, or why there is none, whichever kind is wanted.
pub(crate) fn read_valid<'w, L: Ledger>(
    alloc: Global,
    topology: Topology,
    name: FileName<'w>,
    text: &[u8],
    steps: &mut Steps<L>,
) -> Result<ValidCertificate, Fault<'w>>
    requires { length text.now ≤ byte_limit (Role.certificate Wanted.any) }
    ensures valid { IfOk result (IsValidFrom (topology_of topology) text.now) }
    ensures stops { IfErr result (λ fault. (wanted : Wanted) → StopsJudging (λ known. known ≡ network (topology_of topology)) (file_in_role (Role.certificate wanted) name.entry text.now) fault) }
{
    if let Some(line) = first_long(text) {
        return Err(Fault::LimitLine { name, line });
    }
    let certificate = read(alloc, text)?;
    match shown_by(alloc, topology, &certificate, steps) {
        Ok(shown) => Ok(ValidCertificate { certificate, shown }),
        Err(fault) => {
            drop(certificate);
            Err(fault)
        }
    }
}

// What the certificate shows of the topology, or why it isn't valid.
fn shown_by<'w, L: Ledger>(
    alloc: Global,
    topology: Topology,
    certificate: &Certificate,
    steps: &mut Steps<L>,
) -> Result<Shown, Fault<'w>>
    requires { IsCertificate certificate.now }
    ensures shown { IfOk result (IsCertificateShown (topology_of topology) certificate.now) }
    ensures rejected { IfErr result (λ fault. IsWant fault ⊎ IsRejection (topology_of topology) certificate.now fault) }
{
    let mut graph = Graph::new(alloc, topology)?;
    match checked(alloc, &mut graph, certificate, steps) {
        Ok(accepted) => Ok(Shown { graph, accepted }),
        Err(fault) => {
            drop(graph);
            Err(fault)
        }
    }
}

// What the certificate shows of the graph's topology.
fn checked<'w, L: Ledger>(
    alloc: Global,
    graph: &mut Graph,
    certificate: &Certificate,
    steps: &mut Steps<L>,
) -> Result<Accepted, Fault<'w>>
    requires { IsCertificate certificate.now }
    ensures same { graph.new ≡ graph.old }
    ensures accepted { IfOk result (IsCertificateAccepted (topology_of graph.old) certificate.now) }
    ensures rejected { IfErr result (λ fault. IsWant fault ⊎ IsRejection (topology_of graph.old) certificate.now fault) }
{
    Ok(check(alloc, graph, certificate, steps)?)
}
