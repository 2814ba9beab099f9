//! Why a text is no certificate.

ghost use Rattle.std.specs.Prelude.{◌≡◌};
ghost use Rattle.cb_cert.specs.declared.fault.CertText.TheVariants.{NoMemory};

use std::alloc::AllocError;

/// The first fault of a text. Lines count from 1.
#[derive(Clone, Copy, Debug, PartialEq, Eq)]
pub enum CertText {
    /// The first line is the header of neither version.
    BadHeader,
    /// The line isn't one that a certificate has after those before it.
    BadLine { line: u64 },
    /// The text ends, and a certificate has more lines.
    Truncated,
    /// After the last line of a certificate there is another one.
    Extra { line: u64 },
    /// With the span that begins here there are too many entries.
    TooManyEntries { line: u64 },
    /// There is not memory enough for the certificate.
    NoMemory,
}

impl From<AllocError> for CertText {
    ghost from_gives = { λ _ fault. fault ≡ NoMemory };

    fn from(_error: AllocError) -> CertText {
        CertText::NoMemory
    }
}
