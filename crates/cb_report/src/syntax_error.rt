//! What is wrong with the tokens of a model.
ghost use Rattle.std.specs.Prelude.{◌≡◌};
ghost use Rattle.cb_report.specs.FaultSources.{fault_of_syntax};

use crate::fault::Fault;
use cb_syntax::SyntaxFault;

/// The first error in the tokens of a model: what `SyntaxFault` names, but for out of memory. Lines and columns count from 1.
#[derive(Clone, Copy, Debug, PartialEq, Eq)]
pub enum SyntaxError {
    /// A byte that begins no token.
    BadByte { line: u32 },
    /// A token that no model has there.
    Unexpected { line: u32, column: u32 },
    /// A run of more than 63 name bytes.
    LongName { line: u32 },
    /// The text ends inside a class.
    Unfinished,
}

impl<'w> From<SyntaxFault> for Fault<'w> {
    ghost from_gives = { λ fault result. result ≡ fault_of_syntax fault };

    fn from(fault: SyntaxFault) -> Fault<'w> {
        match fault {
            SyntaxFault::BadByte { line } => Fault::Syntax(SyntaxError::BadByte { line }),
            SyntaxFault::Unexpected { line, column } => {
                Fault::Syntax(SyntaxError::Unexpected { line, column })
            }
            SyntaxFault::LongName { line } => Fault::Syntax(SyntaxError::LongName { line }),
            SyntaxFault::Unfinished => Fault::Syntax(SyntaxError::Unfinished),
            SyntaxFault::NoMemory => Fault::Memory,
        }
    }
}
