//! Bytes that wait until there are many, and are then written together.
ghost use Rattle.std.specs.Prelude.{◌≡◌, ◌↔◌, [], true, false, IsErr, IfOk};
ghost use Rattle.std.specs.List.{flat_map};
ghost use Rattle.cb_report.specs.Gathered.{Gathers};

use cb_io::{Failed, Sink, write_all};
use std::alloc::{AllocError, Global};
use std::marker::Model;

// How many bytes may wait: enough that a system call for them costs nothing beside the copying.
const MOST: usize = 64 << 10;

/// Bytes on their way to a sink, of which the last ones wait. After a write that failed nothing is written any more. Bytes
/// for which there is no memory to wait in are written at once, so no answer says that memory ran out.
#[derive(Drop)]
pub(crate) struct Gathering {
    waiting: Vec<u8>,
    failed: bool,
}

impl Model for Gathering {
    ghost use Rattle.cb_report.specs.Gathered.{Gathered};

    ghost Value = { Gathered };

    ghost view = { λ g. record { waiting = g.waiting.items; failed = g.failed } };
}

impl Gathering {
    /// Nothing waits yet. The memory in which bytes will wait is taken now.
    pub(crate) fn new(alloc: Global) -> Result<Gathering, AllocError>
        ensures waiting { IfOk result (λ gathering. gathering.waiting ≡ []) }
        ensures failed { IfOk result (λ gathering. gathering.failed ≡ false) }
    {
        Ok(Gathering {
            waiting: Vec::with_capacity(alloc, MOST)?,
            failed: false,
        })
    }

    /// Lets the bytes wait after those that wait already, or writes both.
    pub(crate) fn put<O: Sink>(&mut self, out: &mut O, bytes: &[u8])
        ensures { Gathers (O.tells out.old) (O.tells out.new) self.old self.new bytes.now }
    {
        if bytes.len() > MOST.saturating_sub(self.waiting.len()) {
            self.write(out, bytes);
        } else if self.waiting.extend_from_slice(bytes).is_err() {
            self.write(out, bytes);
        }
    }

    /// Lets the parts wait, one after the other.
    pub(crate) fn put_parts<O: Sink>(&mut self, out: &mut O, parts: &[&[u8]])
        ensures { Gathers (O.tells out.old) (O.tells out.new) self.old self.new (flat_map (λ part. part.now) parts.now) }
    {
        for part in parts {
            self.put(out, part);
        }
    }

    /// Writes what waits. It is an error if this write or an earlier one failed.
    pub(crate) fn finish<O: Sink>(&mut self, out: &mut O) -> Result<(), Failed>
        ensures written { Gathers (O.tells out.old) (O.tells out.new) self.old self.new [] }
        ensures none { self.new.failed ≡ false → self.new.waiting ≡ [] }
        ensures failed { IsErr result ↔ (self.new.failed ≡ true) }
    {
        self.flush(out);
        if self.failed { Err(Failed) } else { Ok(()) }
    }

    // Writes what waits.
    fn flush<O: Sink>(&mut self, out: &mut O)
        ensures written { Gathers (O.tells out.old) (O.tells out.new) self.old self.new [] }
        ensures none { self.new.failed ≡ false → self.new.waiting ≡ [] }
    {
        if !self.failed {
            self.failed = write_all(out, &self.waiting).is_err();
            self.waiting.clear();
        }
    }

    // Writes what waits, and then the bytes.
    fn write<O: Sink>(&mut self, out: &mut O, bytes: &[u8])
        ensures { Gathers (O.tells out.old) (O.tells out.new) self.old self.new bytes.now }
    {
        self.flush(out);
        if !self.failed {
            self.failed = write_all(out, bytes).is_err();
        }
    }
}
