//! Whole files and whole texts, over any files and any sink.
ghost use Rattle.std.specs.Prelude.{◌≡◌, ◌<◌, ◌≤◌, ◌⊎◌, IfOk, OnOk, OnErr, IsErrOf, vec_len};
ghost use Rattle.cb_io.specs.Outside.{ReadsAll, ReadsPrefix, ReadsMoreThan, ReadsNoMoreThan, KeepsOthers, NoCountFalls, ReadFailed, WritesAll, WritesPrefix, WriteFailed};

use crate::{Failed, FileStop, Files, Sink};
use std::alloc::{AllocError, Global};
use thiserror::Error;

// How many bytes are asked for at once: enough that a system call for each costs nothing beside the copying.
pub(crate) const PIECE: usize = 64 << 10;

/// Why a file wasn't read whole. A prefix of it may have been taken.
#[derive(Clone, Copy, Debug, PartialEq, Eq, Error)]
pub enum ReadStop {
    /// A read of the name failed, and its count of faults rose.
    #[error("read fault")]
    ReadFault,
    /// The file has more bytes than the caller allows.
    #[error("too much")]
    TooMuch,
    /// Memory for the bytes, or for the files' own lists, is missing.
    #[error("no memory")]
    NoMemory,
}

impl From<FileStop> for ReadStop {
    ghost use Rattle.std.specs.Prelude.{◌≡◌};
    ghost use Rattle.cb_io.specs.Stops.{stop_of};

    ghost from_gives = { λ stop result. result ≡ stop_of stop };

    fn from(stop: FileStop) -> ReadStop {
        match stop {
            FileStop::Failed => ReadStop::ReadFault,
            FileStop::NoMemory => ReadStop::NoMemory,
        }
    }
}

impl From<AllocError> for ReadStop {
    ghost use Rattle.std.specs.Prelude.{◌≡◌};
    ghost use Rattle.cb_io.specs.declared.whole.ReadStop.TheVariants.{NoMemory};

    ghost from_gives = { λ _ result. result ≡ NoMemory };

    fn from(_error: AllocError) -> ReadStop {
        ReadStop::NoMemory
    }
}

/// Writes all the bytes, or a prefix of them before a fault.
pub fn write_all<S: Sink>(sink: &mut S, bytes: &[u8]) -> Result<(), Failed>
    ensures all { OnOk result (WritesAll (S.tells sink.old) (S.tells sink.new) bytes.now) }
    ensures prefix { WritesPrefix (S.tells sink.old) (S.tells sink.new) bytes.now }
    ensures counts { (S.tells sink.old).faults ≤ (S.tells sink.new).faults }
    ensures failed { OnErr result (WriteFailed (S.tells sink.old) (S.tells sink.new)) }
{
    let mut at = 0;
    while at < bytes.len() {
        at += sink.write(&bytes[at..])?;
    }
    Ok(())
}

// Capacity for the bytes of one read.
fn piece(alloc: Global) -> Result<Vec<u8>, AllocError>
    ensures { IfOk result (λ piece. 0 < vec_len piece) }
{
    vec![in alloc; 0; PIECE]
}

/// All the bytes left of a name, of which there may be at most `most`.
pub fn read_whole<F: Files>(
    alloc: Global,
    files: &mut F,
    name: &str,
    most: usize,
) -> Result<Vec<u8>, ReadStop>
    ensures all { IfOk result (λ all. ReadsAll (F.tells files.old) (F.tells files.new) name.now all.items) }
    ensures fits { IfOk result (λ all. vec_len all ≤ most) }
    ensures too_much { IsErrOf result ReadStop.TooMuch →
        ReadsMoreThan (F.tells files.old) (F.tells files.new) name.now most }
    ensures not_too_much { IsErrOf result ReadStop.TooMuch ⊎
        ReadsNoMoreThan (F.tells files.old) (F.tells files.new) name.now most }
    ensures failed { IsErrOf result ReadStop.ReadFault →
        ReadFailed (F.tells files.old) (F.tells files.new) name.now }

    // In every case:
    ensures prefix { ReadsPrefix (F.tells files.old) (F.tells files.new) name.now }
    ensures others { KeepsOthers (F.tells files.old) (F.tells files.new) name.now }
    ensures counts { NoCountFalls (F.tells files.old) (F.tells files.new) }
{
    let mut all = Vec::new(alloc);
    let mut piece = piece(alloc)?;
    loop {
        let count = files.read(name, &mut piece)?;
        if count == 0 {
            return Ok(all);
        }
        if count > most - all.len() {
            return Err(ReadStop::TooMuch);
        }
        all.extend_from_slice(&piece[..count])?;
    }
}
