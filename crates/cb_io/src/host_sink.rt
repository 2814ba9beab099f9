//! The machine's outputs.
ghost use Rattle.std.specs.Prelude.{◌≡◌, ◌<◌, ◌≤◌, length, IfOk, IfSome, OnOk, OnErr, None};
ghost use Rattle.std.specs.Io.{WritesAtMost};
ghost use Rattle.cb_io.specs.Outside.{next_count, Writes, WriteFailed};

use crate::{Failed, Sink};
use std::io::Write;
use std::marker::Model;

/// Writes to a writer of `std`, as standard output, and flushes each time. What was taken isn't reported; each refusal of the
/// writer is a fault.
#[derive(Drop)]
pub struct HostSink<W: Write + Drop> {
    writer: W,
    faults: u64,
}

impl<W: Write + Drop> Model for HostSink<W> {
    ghost use Rattle.std.specs.Prelude.{None};
    ghost use Rattle.cb_io.specs.Outside.{SinkReport};

    ghost Value = { SinkReport };

    ghost view = { λ s. record { taken = None; faults = s.faults } };
}

impl<W: Write + Drop> HostSink<W> {
    /// A sink without faults.
    pub fn new(writer: W) -> Self
        ensures { result ≡ record { taken = None; faults = 0 } }
    {
        HostSink { writer, faults: 0 }
    }

    // How many bytes the writer took and passed on, or none where it refused.
    fn try_write(&mut self, bytes: &[u8]) -> Option<usize>
        ensures bound { IfSome result (λ n. (0 < n) × (n ≤ length bytes.now)) }
        ensures same { self.new ≡ self.old }
    {
        match self.writer.write(bytes) {
            Ok(count) if count > 0 && self.writer.flush().is_ok() => Some(count),
            _ => None,
        }
    }
}

impl<W: Write + Drop> Sink for HostSink<W> {
    ghost tells = { λ s. s };

    fn write(&mut self, bytes: &[u8]) -> Result<usize, Failed>
        requires { 0 < length bytes.now }
        ensures some { IfOk result (λ n. 0 < n) }
        ensures bound { WritesAtMost result bytes.now }
        ensures bytes { Writes self.old self.new result bytes.now }
        ensures counts { self.old.faults ≤ self.new.faults }
        ensures failed { OnErr result (WriteFailed self.old self.new) }

        // Each refusal is one fault, and nothing else is.
        ensures ok { OnOk result (self.new ≡ self.old) }
        ensures err { OnErr result (self.new ≡ record self.old { faults = next_count self.old.faults }) }
    {
        match self.try_write(bytes) {
            Some(count) => Ok(count),
            None => {
                self.faults = self.faults.saturating_add(1);
                Err(Failed)
            }
        }
    }
}
