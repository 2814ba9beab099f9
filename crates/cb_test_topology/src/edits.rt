//! Lines, with the words of their edits.
use cb_edits::{EditText, read_edit};
use cb_network::Edit;
use std::alloc::{AllocError, Global};
use std::process::Abort;
use std::test::Fail;

// Names of 64 bytes, one too many.
const CREATED: &[u8] =
    b"create p1 a234567890123456789012345678901234567890123456789012345678901234";

const DELETED: &[u8] = b"delete a234567890123456789012345678901234567890123456789012345678901234";

const MUTED: &[u8] = b"mute Heat@a234567890123456789012345678901234567890123456789012345678901234";

// Names of 63 bytes and of 64 inside a line.
const LINKED: &[u8] = b"link p1 a23456789012345678901234567890123456789012345678901234567890123 s1";

const UNLINKED: &[u8] =
    b"unlink p1 a234567890123456789012345678901234567890123456789012345678901234 s1";

const HEARD: &[u8] = b"unmute a23456789012345678901234567890123456789012345678901234567890123@p1";

const UNHEARD: &[u8] =
    b"unmute a234567890123456789012345678901234567890123456789012345678901234@p1";

// The edit's word, and its names in the order of a line.
fn words_in(edit: &Edit) -> (&[u8], &[u8], &[u8], &[u8]) {
    match edit {
        Edit::Create { name, class } => (b"create", name.bytes(), class.bytes(), b""),
        Edit::Delete { name } => (b"delete", name.bytes(), b"", b""),
        Edit::Link { a, rel, b } => (b"link", a.bytes(), rel.bytes(), b.bytes()),
        Edit::Unlink { a, rel, b } => (b"unlink", a.bytes(), rel.bytes(), b.bytes()),
        Edit::Mute { event, name } => (b"mute", event.bytes(), name.bytes(), b""),
        Edit::Unmute { event, name } => (b"unmute", event.bytes(), name.bytes(), b""),
    }
}

fn check(
    rt: &impl Abort,
    alloc: Global,
    line: &[u8],
    wanted: Option<(&[u8], &[u8], &[u8], &[u8])>,
) -> Result<(), AllocError> {
    match read_edit(alloc, line) {
        Ok(edit) => assert_eq!(rt; Some(words_in(&edit)), wanted, "{line:?}"),
        Err(EditText::BadWords) => assert!(rt; wanted.is_none(), "{line:?}"),
        Err(EditText::NoMemory) => return Err(AllocError),
    }
    Ok(())
}

#[test]
fn edits(rt: HostRuntime) -> Result<(), Fail> {
    let table: [(&[u8], (&[u8], &[u8], &[u8], &[u8])); 19] = [
        (b"create p1 Port", (b"create", b"p1", b"Port", b"")),
        (b"  create\tp1 \t Port\r", (b"create", b"p1", b"Port", b"")),
        (b"create class Port", (b"create", b"class", b"Port", b"")),
        (
            b"create create Delete",
            (b"create", b"create", b"Delete", b""),
        ),
        (
            b"create 10.0.0.1:80/x Port",
            (b"create", b"10.0.0.1:80/x", b"Port", b""),
        ),
        (b"delete p1", (b"delete", b"p1", b"", b"")),
        (b"delete\tto", (b"delete", b"to", b"", b"")),
        (b"link p1 to-x s1", (b"link", b"p1", b"to-x", b"s1")),
        (b"link one peer one\r", (b"link", b"one", b"peer", b"one")),
        (b"unlink p1 ends p2", (b"unlink", b"p1", b"ends", b"p2")),
        (b"mute Heat@p1", (b"mute", b"Heat", b"p1", b"")),
        (b"mute E@event", (b"mute", b"E", b"event", b"")),
        (b"unmute Heat@p1\r", (b"unmute", b"Heat", b"p1", b"")),
        (b"unmute unmute@-", (b"unmute", b"unmute", b"-", b"")),
        (&CREATED[..73], (b"create", b"p1", &CREATED[10..73], b"")),
        (&DELETED[..70], (b"delete", &DELETED[7..70], b"", b"")),
        (&MUTED[..73], (b"mute", b"Heat", &MUTED[10..73], b"")),
        (LINKED, (b"link", b"p1", &LINKED[8..71], b"s1")),
        (HEARD, (b"unmute", &HEARD[7..70], b"p1", b"")),
    ];
    for (line, words) in table {
        check(&rt, rt.alloc(), line, Some(words))?;
    }
    Ok(())
}

#[test]
fn bad_words(rt: HostRuntime) -> Result<(), Fail> {
    let table: [&[u8]; 52] = [
        b"",
        b" \t\r",
        b"create",
        b"# create p1 Port",
        b"create p1",
        b"create p1 Port x",
        b"Create p1 Port",
        b"create p1 class",
        b"create p1 9",
        b"create p@1 Port",
        b"create\x0bp1 Port",
        b"create p1\nPort",
        b"delete",
        b"delete p1 p2",
        b"DELETE p1",
        b"deleted p1",
        b"delete p1#",
        b"delete #",
        b"link p1 ends",
        b"link p1 ends s1 x",
        b"link p1 ends s1 x y",
        b"link p1 many s1",
        b"link p1 a.b s1",
        b"link p@1 ends s1",
        b"link p1 ends s@1",
        b"Link p1 ends s1",
        b"unlink p1 ends",
        b"unlink p1 inverse s1",
        b"unlink p1 ends s1 x",
        b"unlinK p1 ends s1",
        b"mute Heat",
        b"mute Heat p1",
        b"mute Heat@",
        b"mute @p1",
        b"mute Heat@p1@p2",
        b"mute Heat@@p1",
        b"mute event@p1",
        b"mute Heat@p1 x",
        b"mute Heat @p1",
        b"mute 9@p1",
        b"mutE Heat@p1",
        b"unmute",
        b"unmute Heat",
        b"unmute hide@p1",
        b"unmute Heat@p1@p2",
        b"unmute Heat@p1 x",
        b"Unmute Heat@p1",
        CREATED,
        DELETED,
        MUTED,
        UNLINKED,
        UNHEARD,
    ];
    for line in table {
        check(&rt, rt.alloc(), line, None)?;
    }
    Ok(())
}
