//! A sink in memory.
ghost use Rattle.std.specs.Prelude.{◌≡◌, ◌+◌, ◌-◌, ◌^◌, ◌<◌, ◌≤◌, ◌⊎◌, ◌↔◌, [], ◌∷◌, ◌++◌, length, take, min, IfOk, OnOk, OnErr, IsErr};
ghost use Rattle.std.specs.Io.{WritesAtMost};
ghost use Rattle.cb_io.specs.Outside.{Writes, WriteFailed};
ghost use Rattle.cb_io.specs.Memory.{IsNextFailing, with_failing, new_sink, capacity_left, after_write, after_refused_write, sink_report};

use crate::calls::Calls;
use crate::{Failed, Sink};
use std::alloc::{AllocError, Global};
use std::marker::Model;

/// A sink that keeps what it takes. All its memory is taken when it is made, so that a write needs none; it can be
/// set to take small pieces, and to fail at certain calls.
#[derive(Drop)]
pub struct MemSink {
    bytes: Vec<u8>,
    capacity: usize,
    piece: usize,
    calls: Calls,
    faults: u64,
}

impl Model for MemSink {
    ghost use Rattle.std.specs.Prelude.{◌≤◌, ◌<◌, vec_len, vec_capacity};
    ghost use Rattle.cb_io.specs.Memory.{SinkState};

    ghost Value = { SinkState };

    ghost view = { λ s.
        record { bytes = s.bytes.items; capacity = s.capacity; piece = s.piece; calls = s.calls; faults = s.faults } };

    ghost invariant = { λ s. (vec_len s.bytes ≤ s.capacity) × (s.capacity ≤ vec_capacity s.bytes) × (0 < s.piece) };
}

impl MemSink {
    /// A sink with capacity for `capacity` bytes, which takes as many at once as fit.
    pub fn new(alloc: Global, capacity: usize) -> Result<Self, AllocError>
        ensures { IfOk result (λ sink. sink ≡ new_sink capacity) }
    {
        Ok(MemSink {
            bytes: Vec::with_capacity(alloc, capacity)?,
            capacity,
            piece: usize::MAX,
            calls: Calls::new(alloc),
            faults: 0,
        })
    }

    /// From now on a write takes at most `most` bytes.
    pub fn piece(&mut self, most: usize)
        requires { 0 < most }
        ensures { self.new ≡ record self.old { piece = most } }
    {
        self.piece = most;
    }

    /// Lets a write fail, by its number; the first write of all has the number 1.
    pub fn fail_at(&mut self, call: u64) -> Result<(), AllocError>
        ensures ok { OnOk result (self.new ≡ record self.old { calls = with_failing self.old.calls call }) }
        ensures err { OnErr result (self.new ≡ self.old) }
    {
        self.calls.fail_at(call)
    }

    /// The bytes taken so far.
    pub fn bytes(&self) -> &[u8]
        ensures { result.now ≡ self.now.bytes }
    {
        &self.bytes
    }
}

impl Sink for MemSink {
    ghost tells = { sink_report };

    fn write(&mut self, bytes: &[u8]) -> Result<usize, Failed>
        requires { 0 < length bytes.now }
        ensures some { IfOk result (λ n. 0 < n) }
        ensures bound { WritesAtMost result bytes.now }
        ensures bytes { Writes (sink_report self.old) (sink_report self.new) result bytes.now }
        ensures counts { self.old.faults ≤ self.new.faults }
        ensures failed { OnErr result (WriteFailed (sink_report self.old) (sink_report self.new)) }

        // Which calls fail, how many bytes the others take, and that nothing else changes.
        ensures fails { IsErr result ↔ (IsNextFailing self.old.calls ⊎ (capacity_left self.old ≡ 0)) }
        ensures count { IfOk result (λ n. n ≡ min (min (length bytes.now) self.old.piece) (capacity_left self.old)) }
        ensures ok { IfOk result (λ n. self.new ≡ after_write self.old (take n bytes.now)) }
        ensures err { OnErr result (self.new ≡ after_refused_write self.old) }
    {
        let due = self.calls.count();
        let free = self.capacity - self.bytes.len();
        if due || free == 0 {
            self.faults = self.faults.saturating_add(1);
            return Err(Failed);
        }
        let count = bytes.len().min(self.piece).min(free);
        self.bytes.extend_from_slice(&bytes[..count]).unwrap();
        Ok(count)
    }
}
