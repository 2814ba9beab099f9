//! Runs of the top call over files and sinks in memory, some calls of which fail.
ghost use Rattle.std.specs.Prelude.{◌≡◌, ◌<◌};

use cb_io::{MemFiles, MemSink};
use cb_steps::{MayCount, Steps};
use cb_top::run;
use std::alloc::{AllocError, Global};
use std::marker::Brand;
use std::process::Abort;
use std::sync::ledger::{Blank, Ledger};

// A cut link silences both its ports.
pub(crate) const LINK: &[u8] =
    b"class Link {\n  problem Cut;\n  symptom Loss;\n  relation ends to Port many inverse on;\n  rule here: Cut => Loss;\n  rule far: Cut => ends.NoSignal;\n}\nclass Port {\n  problem Fail;\n  symptom NoSignal;\n  relation on to Link one inverse ends;\n  rule down: Fail => NoSignal;\n}\n";

// A link with its two ports.
pub(crate) const LINKED: &[u8] =
    b"create L1 Link\ncreate a Port\ncreate b Port\nlink L1 ends a\nlink b on L1\n";

/// What a run is made on: the words, and the files, each in one part or more.
#[derive(Clone, Copy)]
pub(crate) struct Case<'a> {
    pub words: &'a [&'a str],
    pub files: &'a [(&'a str, &'a [u8])],
    pub more: &'a [(&'a str, &'a [u8])],
}

/// What the outside does to it: how many bytes a read gives at most, and a write to the output takes, and which calls
/// fail, if not 0. Each write to the error sink takes one byte.
#[derive(Clone, Copy)]
pub(crate) struct Outside {
    pub piece: usize,
    pub failing_read: u64,
    pub failing_write: u64,
    pub failing_err: u64,
}

/// Whole reads and writes, none of which fails.
pub(crate) const CALM: Outside = Outside {
    piece: usize::MAX,
    failing_read: 0,
    failing_write: 0,
    failing_err: 0,
};

/// What is wanted of it.
#[derive(Clone, Copy)]
pub(crate) struct Wanted<'a> {
    pub code: u8,
    pub out: &'a [u8],
    pub err: &'a [u8],
}

fn words_of(alloc: Global, words: &[&str]) -> Result<Vec<String>, AllocError> {
    let mut all = Vec::new(alloc);
    for word in words {
        all.push(String::from_str(alloc, word)?)?;
    }
    Ok(all)
}

fn files_of(alloc: Global, case: &Case<'_>) -> Result<MemFiles, AllocError> {
    let mut files = MemFiles::new(alloc);
    for (name, bytes) in case.files {
        files.add(name, bytes)?;
    }
    for (name, bytes) in case.more {
        files.add(name, bytes)?;
    }
    Ok(files)
}

// What a run over these files and sinks answers and writes.
fn ran<L: Ledger>(
    rt: &(impl Abort + MayCount),
    alloc: Global,
    case: &Case<'_>,
    outside: &Outside,
    wanted: &Wanted<'_>,
    blank: Blank,
) -> Result<(), AllocError>
    requires name { blank.name ≡ L.name }
    requires parts { blank.parts ≡ L.parts }
    requires some { 0 < L.parts }
{
    let words = words_of(alloc, case.words)?;
    let mut files = files_of(alloc, case)?;
    let mut out = MemSink::new(alloc, 4096)?;
    let mut err = MemSink::new(alloc, 4096)?;
    if outside.piece > 0 {
        files.piece(outside.piece);
        out.piece(outside.piece);
    }
    err.piece(1);
    files.fail_at(outside.failing_read)?;
    out.fail_at(outside.failing_write)?;
    err.fail_at(outside.failing_err)?;
    let mut steps = Steps::<L>::new(rt, blank);
    let status = run(alloc, &words, &mut files, &mut out, &mut err, &mut steps);
    assert_eq!(rt; status.code(), wanted.code);
    assert_eq!(rt; out.bytes(), wanted.out);
    assert_eq!(rt; err.bytes(), wanted.err);
    Ok(())
}

/// Runs the case in a ledger of its own.
pub(crate) fn check(
    rt: &(impl Abort + MayCount),
    alloc: Global,
    case: &Case<'_>,
    outside: &Outside,
    wanted: &Wanted<'_>,
) -> Result<(), AllocError> {
    ran::<Brand>(rt, alloc, case, outside, wanted, Blank::new(1))
}

/// Runs the case, and once more for each byte of the error line, at which the error sink then fails: status and output
/// stay, and the line ends there.
pub(crate) fn check_as_err_fails(
    rt: &(impl Abort + MayCount),
    alloc: Global,
    case: &Case<'_>,
    outside: &Outside,
    wanted: &Wanted<'_>,
) -> Result<(), AllocError> {
    check(rt, alloc, case, outside, wanted)?;
    let mut prefix = Vec::new(alloc);
    let mut failing_err = 0_u64;
    for byte in wanted.err {
        failing_err = failing_err.saturating_add(1);
        let outside = Outside {
            failing_err,
            ..*outside
        };
        let cut = Wanted {
            err: &prefix,
            ..*wanted
        };
        check(rt, alloc, case, &outside, &cut)?;
        prefix.push(*byte)?;
    }
    Ok(())
}
