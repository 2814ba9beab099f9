//! Files and a sink that never fail.
ghost use Rattle.std.specs.Prelude.{◌≡◌, ◌<◌, ◌≤◌, length, IfOk, IsOk, OnOk, OnErr, IsErrOf};
ghost use Rattle.std.specs.Io.{ReadsAtMost, WritesAtMost};
ghost use Rattle.cb_io.specs.Outside.{ReadsBytes, KeepsOthers, NoCountFalls, ReadFailed, Writes, WriteFailed};
ghost use Rattle.cb_io.specs.Memory.{no_files, with_bytes};
ghost use Rattle.cb_io.specs.Never.{never_reported, sink_never_reported};

use crate::mem_files::MemFiles;
use crate::{Failed, FileStop, Files, Sink};
use std::alloc::{AllocError, Global};
use std::marker::Model;

/// Files in memory of which each read succeeds: a name that wasn't added has no bytes.
#[derive(Drop)]
pub struct NeverFiles {
    files: MemFiles,
}

impl Model for NeverFiles {
    ghost use Rattle.std.specs.Prelude.{◌≡◌, []};
    ghost use Rattle.cb_io.specs.Memory.{FilesState};

    ghost Value = { FilesState };

    ghost view = { λ never. never.files };

    ghost invariant = { λ never. never.files.calls.failing ≡ [] };
}

impl NeverFiles {
    /// No file yet.
    pub fn new(alloc: Global) -> Self
        ensures { result ≡ no_files }
    {
        NeverFiles {
            files: MemFiles::new(alloc),
        }
    }

    /// Adds bytes after those left of a name.
    pub fn add(&mut self, name: &str, bytes: &[u8]) -> Result<(), AllocError>
        ensures ok { OnOk result (self.new ≡ with_bytes self.old name.now bytes.now) }
        ensures err { OnErr result (self.new ≡ self.old) }
    {
        self.files.add(name, bytes)
    }
}

impl Files for NeverFiles {
    ghost tells = { never_reported };

    fn read(&mut self, name: &str, buf: &mut [u8]) -> Result<usize, FileStop>
        requires { 0 < length buf.old }
        ensures never_fails { IsOk result }
        ensures bound { ReadsAtMost result buf.new }
        ensures bytes { ReadsBytes (never_reported self.old) (never_reported self.new) name.now result buf.new }
        ensures others { KeepsOthers (never_reported self.old) (never_reported self.new) name.now }
        ensures counts { NoCountFalls (never_reported self.old) (never_reported self.new) }
        ensures failed { IsErrOf result FileStop.Failed → ReadFailed (never_reported self.old) (never_reported self.new) name.now }
    {
        // No read is to fail, so one that does is of a name that wasn't added.
        Ok(self.files.read(name, buf).unwrap_or(0))
    }
}

/// A sink that throws away what it takes.
#[derive(Clone, Copy)]
pub struct NeverSink;

impl NeverSink {
    /// A sink that takes everything.
    pub fn new() -> Self {
        NeverSink
    }
}

impl Sink for NeverSink {
    ghost tells = { λ _. sink_never_reported };

    fn write(&mut self, bytes: &[u8]) -> Result<usize, Failed>
        requires { 0 < length bytes.now }
        ensures never_fails { IsOk result }
        ensures some { IfOk result (λ n. 0 < n) }
        ensures bound { WritesAtMost result bytes.now }
        ensures bytes { Writes sink_never_reported sink_never_reported result bytes.now }
        ensures counts { sink_never_reported.faults ≤ sink_never_reported.faults }
        ensures failed { OnErr result (WriteFailed sink_never_reported sink_never_reported) }
    {
        Ok(bytes.len())
    }
}
