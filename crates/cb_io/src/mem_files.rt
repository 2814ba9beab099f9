//! Files in memory.
ghost use Rattle.std.specs.Prelude.{◌≡◌, ◌+◌, ◌-◌, ◌^◌, ◌<◌, ◌≤◌, ◌⊎◌, ◌↔◌, [], ◌∷◌, ◌++◌, length, take, drop, min, position, IfOk, IfErr, OnOk, OnErr, IsErr, IsErrOf, IsNone, string_bytes};
ghost use Rattle.std.specs.Io.{ReadsAtMost};
ghost use Rattle.std.specs.Str.{bytes_eq};
ghost use Rattle.cb_io.specs.Outside.{ReadsBytes, KeepsOthers, NoCountFalls, ReadFailed, next_count};
ghost use Rattle.cb_io.specs.Pairs.{look_up};
ghost use Rattle.cb_io.specs.Memory.{file_of, with_bytes, with_failing, no_files, IsNextFailing, after_read, after_fault, files_report};

use crate::calls::Calls;
use crate::{FileStop, Files};
use std::alloc::{AllocError, Global};
use std::marker::Model;

// A file that was added. Contracts see its name, and the bytes left with its faults.
#[derive(Drop)]
struct NamedBytes {
    name: String,
    bytes: Vec<u8>,
    at: usize,
    faults: u64,
}

impl Model for NamedBytes {
    ghost use Rattle.std.specs.Prelude.{◌≤◌, List, ℕ, drop, vec_len, string_bytes};
    ghost use Rattle.cb_io.specs.Memory.{FileState};

    ghost Value = { List ℕ × FileState };

    ghost view = { λ e. (string_bytes e.name, record { left = drop e.at e.bytes.items; faults = e.faults }) };

    ghost invariant = { λ e. e.at ≤ vec_len e.bytes };
}

impl NamedBytes {
    fn new(alloc: Global, name: &str, bytes: &[u8], faults: u64) -> Result<Self, AllocError>
        ensures { IfOk result (λ e. e ≡ (name.now, record { left = bytes.now; faults = faults })) }
    {
        Ok(NamedBytes {
            name: String::from_str(alloc, name)?,
            bytes: Vec::from_slice(alloc, bytes)?,
            at: 0,
            faults,
        })
    }

    fn is_named(&self, name: &str) -> bool
        ensures { result ≡ bytes_eq self.now.0 name.now }
    {
        self.name.as_str() == name
    }

    fn add_fault(&mut self)
        ensures counted { self.new ≡ (self.old.0, record self.old.1 { faults = next_count self.old.1.faults }) }
        ensures later { self.old.1.faults ≤ self.new.1.faults }
    {
        self.faults = self.faults.saturating_add(1);
    }

    fn extend(&mut self, bytes: &[u8]) -> Result<(), AllocError>
        ensures ok { OnOk result (self.new ≡ (self.old.0, record self.old.1 { left = self.old.1.left ++ bytes.now })) }
        ensures err { OnErr result (self.new ≡ self.old) }
    {
        self.bytes.extend_from_slice(bytes)
    }

    // Moves at most `most` bytes to the start of `buf`.
    fn take_bytes(&mut self, most: usize, buf: &mut [u8]) -> usize
        ensures count { result ≡ min (min (length self.old.1.left) most) (length buf.old) }
        ensures given { self.old.1.left ≡ take result buf.new ++ self.new.1.left }
        ensures left { self.new ≡ (self.old.0, record self.old.1 { left = drop result self.old.1.left }) }
    {
        let rest = &self.bytes[self.at..];
        let count = rest.len().min(most).min(buf.len());
        buf[..count].copy_from_slice(&rest[..count]);
        self.at += count;
        count
    }
}

// The position of the first entry of a name.
fn place_of(entries: &[NamedBytes], name: &str) -> Option<usize>
    ensures { result ≡ position (λ e. bytes_eq e.0 name.now) entries.now }
{
    entries.iter().position(|e| e.is_named(name))
}

/// Files that were added. They can be set to give small pieces, and to fail at certain calls; a read of a name that
/// wasn't added fails always.
#[derive(Drop)]
pub struct MemFiles {
    alloc: Global,
    entries: Vec<NamedBytes>,
    unknown: u64,
    piece: usize,
    calls: Calls,
}

impl Model for MemFiles {
    ghost use Rattle.std.specs.Prelude.{◌<◌};
    ghost use Rattle.cb_io.specs.Memory.{FilesState};

    ghost Value = { FilesState };

    ghost view = { λ m.
        record { files = m.entries.items; unknown = m.unknown; piece = m.piece; calls = m.calls } };

    ghost invariant = { λ m. 0 < m.piece };
}

impl MemFiles {
    /// No file yet, and reads that give as many bytes as `buf` holds.
    pub fn new(alloc: Global) -> Self
        ensures { result ≡ no_files }
    {
        MemFiles {
            alloc,
            entries: Vec::new(alloc),
            unknown: 0,
            piece: usize::MAX,
            calls: Calls::new(alloc),
        }
    }

    /// Adds bytes after those left of a name. A new name starts with the faults of all names that weren't added.
    pub fn add(&mut self, name: &str, bytes: &[u8]) -> Result<(), AllocError>
        ensures ok { OnOk result (self.new ≡ with_bytes self.old name.now bytes.now) }
        ensures err { OnErr result (self.new ≡ self.old) }
    {
        match place_of(&self.entries, name) {
            Some(place) => {
                let entry = &mut self.entries[place];
                entry.extend(bytes)
            }
            None => {
                let entry = NamedBytes::new(self.alloc, name, bytes, self.unknown)?;
                self.entries.push(entry)?;
                Ok(())
            }
        }
    }

    /// From now on a read gives at most `most` bytes.
    pub fn piece(&mut self, most: usize)
        requires { 0 < most }
        ensures { self.new ≡ record self.old { piece = most } }
    {
        self.piece = most;
    }

    /// Lets a read fail, by its number; the first read of all, of whatever name, has the number 1.
    pub fn fail_at(&mut self, call: u64) -> Result<(), AllocError>
        ensures ok { OnOk result (self.new ≡ record self.old { calls = with_failing self.old.calls call }) }
        ensures err { OnErr result (self.new ≡ self.old) }
    {
        self.calls.fail_at(call)
    }
}

impl Files for MemFiles {
    ghost tells = { files_report };

    fn read(&mut self, name: &str, buf: &mut [u8]) -> Result<usize, FileStop>
        requires { 0 < length buf.old }
        ensures bound { ReadsAtMost result buf.new }
        ensures bytes { ReadsBytes (files_report self.old) (files_report self.new) name.now result buf.new }
        ensures others { KeepsOthers (files_report self.old) (files_report self.new) name.now }
        ensures counts { NoCountFalls (files_report self.old) (files_report self.new) }
        ensures failed { IsErrOf result FileStop.Failed → ReadFailed (files_report self.old) (files_report self.new) name.now }

        // Which calls fail, how many bytes the others give, and that nothing else changes.
        ensures fails { IsErr result ↔ (IsNextFailing self.old.calls ⊎ IsNone (look_up self.old.files name.now)) }
        ensures only_failed { IfErr result (λ stop. stop ≡ FileStop.Failed) }
        ensures count { IfOk result (λ n. let left = (file_of self.old name.now).left in
            n ≡ min (min (length left) self.old.piece) (length buf.old)) }
        ensures ok { IfOk result (λ n. self.new ≡ after_read self.old name.now n) }
        ensures err { OnErr result (self.new ≡ after_fault self.old name.now) }
    {
        let due = self.calls.count();
        let Some(place) = place_of(&self.entries, name) else {
            self.unknown = self.unknown.saturating_add(1);
            return Err(FileStop::Failed);
        };
        let entry = &mut self.entries[place];
        if due {
            entry.add_fault();
            return Err(FileStop::Failed);
        }
        Ok(entry.take_bytes(self.piece, buf))
    }
}
