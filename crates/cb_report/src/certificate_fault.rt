//! What is wrong with a certificate: with its text, or with what it claims.
ghost use Rattle.std.specs.Prelude.{◌≡◌};
ghost use Rattle.cb_report.specs.FaultSources.{fault_of_text, fault_of_rejected};

use crate::fault::Fault;
use cb_cert::CertText;
use cb_model::{GroupName, NodeName};
use cb_validity::Rejected;

/// The first error of a text that is no certificate: what `CertText` names, but for out of memory. Lines count from 1.
#[derive(Clone, Copy, Debug, PartialEq, Eq)]
pub enum FormatError {
    /// The first line isn't the header.
    BadHeader,
    /// The line isn't one that a certificate has after those before it.
    BadLine { line: u64 },
    /// The text ends, and a certificate has more lines.
    Truncated,
    /// After the last line of a certificate there is another one.
    Extra { line: u64 },
    /// With the span that begins here there are too many entries.
    TooManyEntries { line: u64 },
}

impl<'w> From<CertText> for Fault<'w> {
    ghost from_gives = { λ fault result. result ≡ fault_of_text fault };

    fn from(fault: CertText) -> Fault<'w> {
        match fault {
            CertText::BadHeader => Fault::CertBad(FormatError::BadHeader),
            CertText::BadLine { line } => Fault::CertBad(FormatError::BadLine { line }),
            CertText::Truncated => Fault::CertBad(FormatError::Truncated),
            CertText::Extra { line } => Fault::CertBad(FormatError::Extra { line }),
            CertText::TooManyEntries { line } => {
                Fault::CertBad(FormatError::TooManyEntries { line })
            }
            CertText::NoMemory => Fault::Memory,
        }
    }
}

/// The first check that a certificate fails: what `Rejected` names, but for out of memory. Nodes, columns and spans count from 1, and so
/// do entries, over all spans.
#[derive(Debug, Drop)]
pub enum FailedCheck {
    /// No node of the topology has this name, or it doesn't stand above the one before.
    BadNode {
        place: u32,
    },
    /// The number is that of no column, or the column doesn't stand above the one before.
    BadColumn {
        place: u32,
    },
    /// A problem is without a span.
    NoSpan {
        problem: NodeName,
    },
    /// A span is without a problem.
    ExtraSpan {
        place: u32,
    },
    /// The span doesn't begin with the root that is asked for.
    BadRoot {
        entry: u32,
    },
    /// The parent is no earlier entry of the span.
    BadParent {
        entry: u32,
    },
    /// No edge leads from the parent's node to this one.
    NoEdge {
        entry: u32,
    },
    /// The node stands earlier in the span.
    Repeated {
        entry: u32,
    },
    /// The node has a successor that the span doesn't list.
    NotClosed {
        entry: u32,
        successor: NodeName,
    },
    /// Over the columns these two groups are only this distance apart, and more is claimed.
    TooClose {
        first: GroupName,
        second: GroupName,
        distance: u32,
    },
    /// Over all columns the two groups are this far apart, which isn't what is claimed.
    NotThin {
        distance: u32,
    },
    /// The radius at this position is lacking, has no group, or isn't the group's.
    BadRadius {
        place: u32,
    },
}

impl<'w> From<Rejected> for Fault<'w> {
    ghost from_gives = { λ why result. result ≡ fault_of_rejected why };

    fn from(why: Rejected) -> Fault<'w> {
        match why {
            Rejected::BadNode { place } => Fault::CertRejected(FailedCheck::BadNode { place }),
            Rejected::BadColumn { place } => Fault::CertRejected(FailedCheck::BadColumn { place }),
            Rejected::NoSpan { problem } => Fault::CertRejected(FailedCheck::NoSpan { problem }),
            Rejected::ExtraSpan { place } => Fault::CertRejected(FailedCheck::ExtraSpan { place }),
            Rejected::BadRoot { entry } => Fault::CertRejected(FailedCheck::BadRoot { entry }),
            Rejected::BadParent { entry } => Fault::CertRejected(FailedCheck::BadParent { entry }),
            Rejected::NoEdge { entry } => Fault::CertRejected(FailedCheck::NoEdge { entry }),
            Rejected::Repeated { entry } => Fault::CertRejected(FailedCheck::Repeated { entry }),
            Rejected::NotClosed { entry, successor } => {
                Fault::CertRejected(FailedCheck::NotClosed { entry, successor })
            }
            Rejected::TooClose {
                first,
                second,
                distance,
            } => Fault::CertRejected(FailedCheck::TooClose {
                first,
                second,
                distance,
            }),
            Rejected::NotThin { distance } => {
                Fault::CertRejected(FailedCheck::NotThin { distance })
            }
            Rejected::BadRadius { place } => Fault::CertRejected(FailedCheck::BadRadius { place }),
            Rejected::NoMemory => Fault::Memory,
        }
    }
}
