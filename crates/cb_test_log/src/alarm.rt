//! Lines of a log, with their records or the reasons why they have none.
use cb_alarm::{Body, Record, Scratch, Skip, SkipKind, plain_record, read_record};
use cb_network::Edit;
use std::alloc::{AllocError, Global};
use std::process::Abort;
use std::test::Fail;

// The time, the word of what is said, and its names in the order of a line.
type Said = (
    u64,
    &'static [u8],
    &'static [u8],
    &'static [u8],
    &'static [u8],
);

const TABLE: [(&[u8], Result<Said, SkipKind>); 43] = [
    (
        b"{\"at\":5,\"from\":\"c1\",\"raise\":\"NoSignal@p17\"}",
        Ok((5, b"raise", b"c1", b"NoSignal", b"p17")),
    ),
    (
        b"{\"at\":5,\"from\":\"c1\",\"clear\":\"NoSignal@p17\"}",
        Ok((5, b"clear", b"c1", b"NoSignal", b"p17")),
    ),
    (
        b"{\"at\":5,\"edit\":\"delete p1\"}",
        Ok((5, b"delete", b"p1", b"", b"")),
    ),
    (b"{\"at\":5,\"tick\":true}", Ok((5, b"tick", b"", b"", b""))),
    (
        b" { \"tick\" : true , \"at\" : 0 } \r",
        Ok((0, b"tick", b"", b"", b"")),
    ),
    (
        b"{\"at\":18446744073709551615,\"tick\":true}",
        Ok((18446744073709551615, b"tick", b"", b"", b"")),
    ),
    (
        b"{\"at\":1,\"at\":2,\"tick\":true}",
        Ok((2, b"tick", b"", b"", b"")),
    ),
    (
        b"{\"at\":1,\"from\":\"c\",\"raise\":\"A@b\",\"raise\":\"A@d\"}",
        Ok((1, b"raise", b"c", b"A", b"d")),
    ),
    (
        b"{\"at\":1,\"from\":\"c\",\"raise\":\"\\u0041@b\"}",
        Ok((1, b"raise", b"c", b"A", b"b")),
    ),
    (
        b"{\"at\":1,\"from\":5,\"tick\":true,\"note\":{\"raise\":[1,-2.5e3]}}",
        Ok((1, b"tick", b"", b"", b"")),
    ),
    (
        b"{\"at\":1,\"tick\":true,\"x\":[[[[[[[[[[[[[[[[[[[[[[[[[[[[[[[[[[[[[[[[[[[[[[[[[[[[[[[[[[[[[[[[[[[[[[[[[[[[[[[[[[[[[[[[[[[[[[[[[[[[[[[[[[[[[[[[[[[[[[[[[[[[[[]]]]]]]]]]]]]]]]]]]]]]]]]]]]]]]]]]]]]]]]]]]]]]]]]]]]]]]]]]]]]]]]]]]]]]]]]]]]]]]]]]]]]]]]]]]]]]]]]]]]]]]]]]]]]]]]]]]]]]]]]]]]]]}",
        Ok((1, b"tick", b"", b"", b"")),
    ),
    (
        b"{\"at\":1,\"tick\":true,\"x\":[[[[[[[[[[[[[[[[[[[[[[[[[[[[[[[[[[[[[[[[[[[[[[[[[[[[[[[[[[[[[[[[[[[[[[[[[[[[[[[[[[[[[[[[[[[[[[[[[[[[[[[[[[[[[[[[[[[[[[[[[[[[[[[]]]]]]]]]]]]]]]]]]]]]]]]]]]]]]]]]]]]]]]]]]]]]]]]]]]]]]]]]]]]]]]]]]]]]]]]]]]]]]]]]]]]]]]]]]]]]]]]]]]]]]]]]]]]]]]]]]]]]]]]]]]]]]]}",
        Err(SkipKind::NotJson),
    ),
    (b"", Err(SkipKind::NotJson)),
    (b"{\"at\":1", Err(SkipKind::NotJson)),
    (b"{\"at\":01,\"tick\":true}", Err(SkipKind::NotJson)),
    (b"{\"at\":1,\"tick\":true}x", Err(SkipKind::NotJson)),
    (
        b"{\"at\":1,\"from\":\"\\ud800\",\"raise\":\"A@b\"}",
        Err(SkipKind::NotJson),
    ),
    (
        b"{\"at\":1,\"tick\":true,\"x\":\"\xff\"}",
        Err(SkipKind::NotJson),
    ),
    (
        b"{\"at\":1,\"tick\":true,\"x\":\"\0\"}",
        Err(SkipKind::NotJson),
    ),
    (b"[1]", Err(SkipKind::NotObject)),
    (b"5", Err(SkipKind::NotObject)),
    (b"{\"tick\":true}", Err(SkipKind::BadAt)),
    (b"{\"AT\":1,\"tick\":true}", Err(SkipKind::BadAt)),
    (
        b"{\"at\":18446744073709551616,\"tick\":true}",
        Err(SkipKind::BadAt),
    ),
    (b"{\"at\":5.0,\"tick\":true}", Err(SkipKind::BadAt)),
    (b"{\"at\":1e3,\"tick\":true}", Err(SkipKind::BadAt)),
    (b"{\"at\":-0,\"tick\":true}", Err(SkipKind::BadAt)),
    (b"{\"at\":\"5\",\"raise\":\"A@b\"}", Err(SkipKind::BadAt)),
    (b"{\"at\":1,\"raise\":\"A@b\"}", Err(SkipKind::BadSource)),
    (
        b"{\"at\":1,\"from\":5,\"clear\":\"A@b\"}",
        Err(SkipKind::BadSource),
    ),
    (
        b"{\"at\":1,\"from\":\"a b\",\"raise\":\"A@b\"}",
        Err(SkipKind::BadSource),
    ),
    (
        b"{\"at\":1,\"from\":\"c\\u0000\",\"raise\":\"A@b\"}",
        Err(SkipKind::BadSource),
    ),
    (
        b"{\"at\":1,\"from\":\"\",\"raise\":\"A\",\"tick\":true}",
        Err(SkipKind::BadSource),
    ),
    (b"{\"at\":1,\"from\":\"c\"}", Err(SkipKind::BadBody)),
    (
        b"{\"at\":1,\"from\":\"c\",\"raise\":\"A@b\",\"clear\":\"A@b\"}",
        Err(SkipKind::BadBody),
    ),
    (
        b"{\"at\":1,\"tick\":true,\"edit\":\"delete p1\"}",
        Err(SkipKind::BadBody),
    ),
    (
        b"{\"at\":1,\"from\":\"c\",\"raise\":5}",
        Err(SkipKind::BadBody),
    ),
    (b"{\"at\":1,\"edit\":null}", Err(SkipKind::BadBody)),
    (b"{\"at\":1,\"tick\":false}", Err(SkipKind::BadBody)),
    (
        b"{\"at\":1,\"from\":\"c\",\"raise\":\"A\"}",
        Err(SkipKind::BadName),
    ),
    (
        b"{\"at\":1,\"from\":\"c\",\"clear\":\"class@b\"}",
        Err(SkipKind::BadName),
    ),
    (b"{\"at\":1,\"edit\":\"delete\"}", Err(SkipKind::BadEdit)),
    (
        b"{\"at\":1,\"edit\":\"delete p1 p2\"}",
        Err(SkipKind::BadEdit),
    ),
];

fn said(record: &Record) -> (u64, &[u8], &[u8], &[u8], &[u8]) {
    let at = record.at;
    match &record.body {
        Body::Raise { from, node } => (
            at,
            b"raise",
            from.bytes(),
            node.event.bytes(),
            node.instance.bytes(),
        ),
        Body::Clear { from, node } => (
            at,
            b"clear",
            from.bytes(),
            node.event.bytes(),
            node.instance.bytes(),
        ),
        Body::Change { edit } => match edit {
            Edit::Delete { name } => (at, b"delete", name.bytes(), b"", b""),
            _ => (at, b"edit", b"", b"", b""),
        },
        Body::Tick => (at, b"tick", b"", b"", b""),
    }
}

fn check(
    rt: &impl Abort,
    alloc: Global,
    line: &[u8],
    wanted: Result<Said, SkipKind>,
) -> Result<(), AllocError> {
    match read_record(alloc, line) {
        Ok(record) => assert_eq!(rt; Ok(said(&record)), wanted, "{line:?}"),
        Err(Skip::Bad(kind)) => assert_eq!(rt; Err(kind), wanted, "{line:?}"),
        Err(Skip::NoMemory) => return Err(AllocError),
    }
    Ok(())
}

// By its tokens alone, a line has the same record, or no answer. Says whether it has one.
fn check_plain(
    rt: &impl Abort,
    alloc: Global,
    scratch: &mut Scratch,
    line: &[u8],
    wanted: Result<Said, SkipKind>,
) -> Result<bool, AllocError> {
    match plain_record(alloc, scratch, line)? {
        Some(record) => {
            assert_eq!(rt; Ok(said(&record)), wanted, "{line:?}");
            Ok(true)
        }
        None => Ok(false),
    }
}

#[test]
fn reads_lines(rt: HostRuntime) -> Result<(), Fail> {
    for (line, wanted) in TABLE {
        check(&rt, rt.alloc(), line, wanted)?;
    }
    Ok(())
}

// Of the lines of the table that have a record, all but two are read by their tokens: those with an array or an object in them.
const PLAIN: u32 = 9;

#[test]
fn reads_plain_lines(rt: HostRuntime) -> Result<(), Fail> {
    let mut scratch = Scratch::new(rt.alloc());
    let mut plain: u32 = 0;
    for (line, wanted) in TABLE {
        if check_plain(&rt, rt.alloc(), &mut scratch, line, wanted)? {
            plain = u32::saturating_add(plain, 1);
        }
    }
    assert_eq!(&rt; plain, PLAIN);
    Ok(())
}

// What stands before and after a piece, the piece, how often it is doubled, and what the line says.
type Long = (
    &'static [u8],
    &'static [u8],
    &'static [u8],
    u32,
    Result<Said, SkipKind>,
);

const LONG: [Long; 14] = [
    (b"", b"", b"x", 16, Err(SkipKind::NotJson)),
    (b"", b"", b"[", 16, Err(SkipKind::NotJson)),
    (b"", b"0", b"{\"\":", 14, Err(SkipKind::NotJson)),
    (
        b"{\"at\":1,\"tick\":true,\"x\":",
        b"}",
        b"[",
        16,
        Err(SkipKind::NotJson),
    ),
    (
        b"{\"at\":1",
        b",\"tick\":true}",
        b"0",
        16,
        Err(SkipKind::NotJson),
    ),
    (
        b"{\"at\":0.",
        b"1,\"tick\":true}",
        b"0",
        16,
        Err(SkipKind::BadAt),
    ),
    (
        b"{\"at\":1,\"tick\":true,\"x\":\"",
        b"\"}",
        b"\\u0000",
        13,
        Ok((1, b"tick", b"", b"", b"")),
    ),
    (
        b"{\"at\":1,\"tick\":true,\"x\":\"",
        b"\"}",
        b"\\ud800",
        13,
        Err(SkipKind::NotJson),
    ),
    (
        b"{\"at\":1,\"tick\":true,\"x\":\"",
        b"\"}",
        b"\xff",
        16,
        Err(SkipKind::NotJson),
    ),
    (
        b"{\"at\":1,\"tick\":true,\"x\":\"",
        b"\"}",
        b"\0",
        16,
        Err(SkipKind::NotJson),
    ),
    (
        b"{",
        b"\"at\":2,\"tick\":true}",
        b"\"at\":1,",
        13,
        Ok((2, b"tick", b"", b"", b"")),
    ),
    (
        b"{\"at\":1,\"raise\":\"A@b\",\"from\":\"",
        b"\"}",
        b"a",
        16,
        Err(SkipKind::BadSource),
    ),
    (
        b"{\"at\":1,\"from\":\"c\",\"raise\":\"A@",
        b"\"}",
        b"b",
        16,
        Err(SkipKind::BadName),
    ),
    (
        b"{\"at\":1,\"edit\":\"delete ",
        b"\"}",
        b"p",
        16,
        Err(SkipKind::BadEdit),
    ),
];

// A line with a piece that is doubled so often.
fn long_line(
    alloc: Global,
    before: &[u8],
    after: &[u8],
    piece: &[u8],
    doublings: u32,
) -> Result<Vec<u8>, AllocError> {
    let mut middle = Vec::from_slice(alloc, piece)?;
    for _ in 0..doublings {
        let half = Vec::from_slice(alloc, middle.as_slice())?;
        middle.extend_from_slice(half.as_slice())?;
    }
    let mut line = Vec::from_slice(alloc, before)?;
    line.extend_from_slice(middle.as_slice())?;
    line.extend_from_slice(after)?;
    Ok(line)
}

#[test]
fn reads_long_lines(rt: HostRuntime) -> Result<(), Fail> {
    for (before, after, piece, doublings, wanted) in LONG {
        let line = long_line(rt.alloc(), before, after, piece, doublings)?;
        check(&rt, rt.alloc(), line.as_slice(), wanted)?;
    }
    Ok(())
}

#[test]
fn reads_long_plain_lines(rt: HostRuntime) -> Result<(), Fail> {
    let mut scratch = Scratch::new(rt.alloc());
    for (before, after, piece, doublings, wanted) in LONG {
        let line = long_line(rt.alloc(), before, after, piece, doublings)?;
        check_plain(&rt, rt.alloc(), &mut scratch, line.as_slice(), wanted)?;
    }
    Ok(())
}
