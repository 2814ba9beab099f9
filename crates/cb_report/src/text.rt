//! What a command prints.
ghost use Rattle.std.specs.Prelude.{◌≤◌, ◌++◌, OnOk, OnErr};
ghost use Rattle.cb_io.specs.Outside.{WritesAll, WritesPrefix, WriteFailed};
ghost use Rattle.cb_report.specs.Text.{bytes_of_text};

use crate::chain_lines::ChainLines;
use crate::matrix::MatrixLines;
use cb_io::{Failed, Sink, write_all};

/// What a command prints: bytes that are there, lines that are made as they are written, or such lines after bytes.
#[derive(Drop)]
pub enum Text {
    Bytes(Vec<u8>),
    Matrix(MatrixLines),
    Explained(ChainLines),
    Rewound {
        reports: Vec<u8>,
        matrix: MatrixLines,
    },
}

impl Text {
    /// Writes all bytes, or a prefix of them before a fault.
    pub fn write<O: Sink>(self, out: &mut O) -> Result<(), Failed>
        ensures all { OnOk result (WritesAll (O.tells out.old) (O.tells out.new) (bytes_of_text self)) }
        ensures prefix { WritesPrefix (O.tells out.old) (O.tells out.new) (bytes_of_text self) }
        ensures counts { (O.tells out.old).faults ≤ (O.tells out.new).faults }
        ensures failed { OnErr result (WriteFailed (O.tells out.old) (O.tells out.new)) }
    {
        match self {
            Text::Bytes(bytes) => write_all(out, &bytes),
            Text::Matrix(lines) => lines.write(out),
            Text::Explained(lines) => lines.write(out),
            Text::Rewound { reports, matrix } => write_both(out, &reports, matrix),
        }
    }
}

// Writes bytes, and the lines of a matrix after them, or a prefix of both before a fault.
fn write_both<O: Sink>(out: &mut O, bytes: &[u8], matrix: MatrixLines) -> Result<(), Failed>
    ensures all { OnOk result (WritesAll (O.tells out.old) (O.tells out.new) (bytes.now ++ matrix)) }
    ensures prefix { WritesPrefix (O.tells out.old) (O.tells out.new) (bytes.now ++ matrix) }
    ensures counts { (O.tells out.old).faults ≤ (O.tells out.new).faults }
    ensures failed { OnErr result (WriteFailed (O.tells out.old) (O.tells out.new)) }
{
    match write_all(out, bytes) {
        Ok(()) => matrix.write(out),
        Err(failed) => {
            drop(matrix);
            Err(failed)
        }
    }
}
