//! Lines and files at their limits and one byte past them, and values of a log as deep as they may be.
use crate::runs::{CALM, Case, LINK, LINKED, Wanted, check, check_as_err_fails};
use cb_steps::MayCount;
use std::alloc::{AllocError, Global};
use std::process::Abort;
use std::test::Fail;

// A file of three parts: its name, the first part, a byte and how often it is there, and the last part.
type ThreeParts = (&'static str, &'static [u8], u8, usize, &'static [u8]);

// The status, the output and the line.
type Ended = (u8, &'static [u8], &'static [u8]);

// The files, of which one gets bytes.
const EMPTY: &[(&str, &[u8])] = &[("m", b""), ("t", b""), ("s", b""), ("c", b""), ("log", b"")];

const MODEL: &[&str] = &["model", "m"];

const BURST: &[&str] = &["burst", "m", "t", "s"];

const VERIFY: &[&str] = &["verify", "m", "t", "c"];

const CORRELATE: &[&str] = &["correlate", "m", "t", "log", "1", "10"];

const QUIET: &[u8] = b"burst raised 0 unknown 0 distance 0 radius 0 sure groups 1\n  group quiet\n";

const UNKNOWN: &[u8] =
    b"burst raised 1 unknown 1 distance 0 radius 0 sure groups 1\n  group quiet\n";

const DIAGNOSED: &[u8] =
    b"book columns 0 of 0 distance 1 radius 0 groups 1\ndiagnosis c1 1 1 raised 1 unknown 1 distance 0 radius 0 sure groups 1\n  group quiet\n";

// A record of 37 bytes, but for its brace.
const RECORD: &[u8] = b"{\"at\":1,\"from\":\"c1\",\"raise\":\"Loss@L1\"";

// A certificate of seven lines, each with its LF.
const BOOK: &[u8] =
    b"codebook certificate 1\nkind book\ndistance 3\nnodes 0\ncolumns 0\nspans 0\nend\n";

// Lines of 4,096 bytes and of 65,536, and of one more.
const LINES: [(&[&str], ThreeParts, Ended); 23] = [
    (BURST, ("t", b"#", b'x', 4_095, b"\n"), (0, QUIET, b"")),
    (
        BURST,
        ("t", b"#", b'x', 4_096, b"\n"),
        (7, b"", b"error 7 limit line t 1\n"),
    ),
    (BURST, ("t", b"\n#", b'x', 4_095, b""), (0, QUIET, b"")),
    (
        BURST,
        ("t", b"\n#", b'x', 4_096, b""),
        (7, b"", b"error 7 limit line t 2\n"),
    ),
    (BURST, ("t", b"#", b'x', 4_094, b"\r\n"), (0, QUIET, b"")),
    (
        BURST,
        ("t", b"#", b'x', 4_095, b"\r\n"),
        (7, b"", b"error 7 limit line t 1\n"),
    ),
    (
        BURST,
        ("s", b"Heat@p1", b' ', 4_089, b"\n"),
        (0, UNKNOWN, b""),
    ),
    (
        BURST,
        ("s", b"Heat@p1", b' ', 4_090, b"\n"),
        (7, b"", b"error 7 limit line s 1\n"),
    ),
    (
        VERIFY,
        ("c", b"", b'x', 4_096, b"\n"),
        (5, b"", b"error 5 certificate bad-header\n"),
    ),
    (
        VERIFY,
        ("c", b"", b'x', 4_097, b"\n"),
        (7, b"", b"error 7 limit line c 1\n"),
    ),
    (
        VERIFY,
        ("c", BOOK, b'x', 4_096, b""),
        (5, b"", b"error 5 certificate extra line 8\n"),
    ),
    (
        VERIFY,
        ("c", BOOK, b'x', 4_097, b""),
        (7, b"", b"error 7 limit line c 8\n"),
    ),
    (
        CORRELATE,
        ("log", b"", b'x', 65_536, b"\n"),
        (0, b"skipped 1 not-json\n", b""),
    ),
    (
        CORRELATE,
        ("log", b"", b'x', 65_537, b"\n"),
        (0, b"skipped 1 long\n", b""),
    ),
    (
        CORRELATE,
        ("log", b"\n", b'x', 65_536, b""),
        (0, b"skipped 2 not-json\n", b""),
    ),
    (
        CORRELATE,
        ("log", b"\n", b'x', 65_537, b""),
        (0, b"skipped 2 long\n", b""),
    ),
    (
        CORRELATE,
        ("log", b"", b'x', 65_535, b"\r\n"),
        (0, b"skipped 1 not-json\n", b""),
    ),
    (
        CORRELATE,
        ("log", b"", b'x', 65_536, b"\r\n"),
        (0, b"skipped 1 long\n", b""),
    ),
    (CORRELATE, ("log", b"", b' ', 65_536, b"\n"), (0, b"", b"")),
    (
        CORRELATE,
        ("log", b"", b' ', 65_537, b"\n"),
        (0, b"skipped 1 long\n", b""),
    ),
    (
        CORRELATE,
        ("log", RECORD, b' ', 65_498, b"}\n"),
        (0, DIAGNOSED, b""),
    ),
    (
        CORRELATE,
        ("log", RECORD, b' ', 65_499, b"}\n"),
        (0, b"skipped 1 long\n", b""),
    ),
    // The lines of a model have no limit.
    (MODEL, ("m", b"#", b'x', 70_000, b"\n"), (0, b"", b"")),
];

// Files of 16 MiB, or 32 for a certificate, and of one byte more, each in one line. Its bytes are counted before its lines are looked at.
const FILES: [(&[&str], ThreeParts, Ended); 8] = [
    (MODEL, ("m", b"", b'#', 16 << 20, b""), (0, b"", b"")),
    (
        MODEL,
        ("m", b"#", b'#', 16 << 20, b""),
        (7, b"", b"error 7 limit bytes m\n"),
    ),
    (
        BURST,
        ("t", b"", b'x', 16 << 20, b""),
        (7, b"", b"error 7 limit line t 1\n"),
    ),
    (
        BURST,
        ("t", b"x", b'x', 16 << 20, b""),
        (7, b"", b"error 7 limit bytes t\n"),
    ),
    (
        BURST,
        ("s", b"", b'x', 16 << 20, b""),
        (7, b"", b"error 7 limit line s 1\n"),
    ),
    (
        BURST,
        ("s", b"x", b'x', 16 << 20, b""),
        (7, b"", b"error 7 limit bytes s\n"),
    ),
    (
        VERIFY,
        ("c", b"", b'x', 32 << 20, b""),
        (7, b"", b"error 7 limit line c 1\n"),
    ),
    (
        VERIFY,
        ("c", b"x", b'x', 32 << 20, b""),
        (7, b"", b"error 7 limit bytes c\n"),
    ),
];

fn many(alloc: Global, byte: u8, count: usize) -> Result<Vec<u8>, AllocError> {
    vec![in alloc; byte; count]
}

#[test]
fn lines_are_at_their_limits(rt: HostRuntime) -> Result<(), Fail> {
    for (words, (name, first, byte, count, last), (code, out, err)) in LINES {
        let middle = many(rt.alloc(), byte, count)?;
        let case = Case {
            words,
            files: EMPTY,
            more: &[(name, first), (name, &middle), (name, last)],
        };
        check_as_err_fails(&rt, rt.alloc(), &case, &CALM, &Wanted { code, out, err })?;
    }
    Ok(())
}

#[test]
fn files_are_at_their_limits(rt: HostRuntime) -> Result<(), Fail> {
    for (words, (name, first, byte, count, last), (code, out, err)) in FILES {
        let middle = many(rt.alloc(), byte, count)?;
        let case = Case {
            words,
            files: EMPTY,
            more: &[(name, first), (name, &middle), (name, last)],
        };
        check(&rt, rt.alloc(), &case, &CALM, &Wanted { code, out, err })?;
    }
    Ok(())
}

// An alarm of a port, with one member more, but for that one's value.
const ALARM: &[u8] = b"{\"at\":1,\"from\":\"c1\",\"raise\":\"NoSignal@a\",\"more\":";

const TAKEN: &[u8] =
    b"book columns 2 of 3 distance 1 radius 0 groups 4\ndiagnosis c1 1 1 raised 1 unknown 0 distance 0 radius 0 sure groups 1\n  group Fail@a\n";

const NOT_JSON: &[u8] = b"skipped 1 not-json\n";

const NOT_OBJECT: &[u8] = b"skipped 1 not-object\n";

// The line before its nested values, how each opens, what is within all, how each closes, how many there are, the line after them, and the output.
const NESTED: [(&[u8], [&[u8]; 3], usize, &[u8], &[u8]); 13] = [
    (ALARM, [b"[", b"", b"]"], 100, b"}\n", TAKEN),
    (ALARM, [b"[", b"", b"]"], 126, b"}\n", TAKEN),
    (ALARM, [b"[", b"", b"]"], 127, b"}\n", NOT_JSON),
    (ALARM, [b"[", b"", b"]"], 200, b"}\n", NOT_JSON),
    (ALARM, [b"[", b"", b""], 100, b"}\n", NOT_JSON),
    (ALARM, [b"{\"a\":", b"0", b"}"], 100, b"}\n", TAKEN),
    (ALARM, [b"{\"a\":", b"0", b"}"], 126, b"}\n", TAKEN),
    (ALARM, [b"{\"a\":", b"0", b"}"], 127, b"}\n", NOT_JSON),
    (ALARM, [b"{\"a\":", b"0", b"}"], 200, b"}\n", NOT_JSON),
    (b"", [b"[", b"", b"]"], 100, b"", NOT_OBJECT),
    (b"", [b"[", b"", b"]"], 127, b"", NOT_OBJECT),
    (b"", [b"[", b"", b"]"], 128, b"", NOT_JSON),
    (b"", [b"[", b"", b"]"], 200, b"", NOT_JSON),
];

// Adds the part `count` times.
fn repeat(text: &mut Vec<u8>, part: &[u8], count: usize) -> Result<(), AllocError> {
    for _ in 0..count {
        text.extend_from_slice(part)?;
    }
    Ok(())
}

// Follows a log of the linked network.
fn follows(
    rt: &(impl Abort + MayCount),
    alloc: Global,
    log: &[u8],
    out: &[u8],
) -> Result<(), AllocError> {
    let case = Case {
        words: CORRELATE,
        files: &[("m", LINK), ("t", LINKED)],
        more: &[("log", log)],
    };
    let wanted = Wanted {
        code: 0,
        out,
        err: b"",
    };
    check(rt, alloc, &case, &CALM, &wanted)
}

#[test]
fn nested_values_have_a_limit(rt: HostRuntime) -> Result<(), Fail> {
    for (first, [opening, inner, closing], count, last, out) in NESTED {
        let mut log = Vec::from_slice(rt.alloc(), first)?;
        repeat(&mut log, opening, count)?;
        log.extend_from_slice(inner)?;
        repeat(&mut log, closing, count)?;
        log.extend_from_slice(last)?;
        follows(&rt, rt.alloc(), &log, out)?;
    }
    Ok(())
}
