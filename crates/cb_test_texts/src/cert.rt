//! Texts, whole and damaged.
ghost use Rattle.std.specs.Prelude.{◌≤◌, length};

use cb_cert::{CertText, read, write};
use std::alloc::{AllocError, Global};
use std::process::Abort;
use std::test::Fail;

const HEAD: &[u8] =
    b"codebook certificate 1\nkind book\ndistance 1\nnodes 6\nnode Cut@L1\nnode Loss@L1\nnode Fail@a\nnode NoSignal@a\nnode Fail@b\nnode NoSignal@b\n";

const COLUMNS: &[u8] = b"columns 2\ncolumn 4\ncolumn 6\n";

const FIRST_SPAN: &[u8] = b"spans 3\nspan 4\nentry 1 0\nentry 2 1\nentry 4 1\n";

const SPANS: &[u8] = b"entry 6 1\nspan 2\nentry 3 0\nentry 4 1\nspan 2\nentry 5 0\nentry 6 1\n";

const THIN: &[u8] =
    b"codebook certificate 1\nkind thin\nwanted 2\ndistance 1\nnodes 2\nnode Fail@a\nnode NoSignal@a\nquiet\nspan 2\nentry 1 0\nentry 2 1\n";

const CAPPED: &[u8] =
    b"codebook certificate 2\nkind book\ncap 3\nnodes 6\nnode A@u\nnode B@u\nnode C@u\nnode D@u\nnode X@u\nnode Y@u\n";

const ALL_COLUMNS: &[u8] = b"columns 4\ncolumn 1\ncolumn 2\ncolumn 3\ncolumn 4\n";

const RADII: &[u8] = b"radii 3\nradius 0\nradius 1\nradius 0\n";

const TWO_SPANS: &[u8] =
    b"spans 2\nspan 4\nentry 5 0\nentry 1 1\nentry 2 1\nentry 3 1\nspan 2\nentry 6 0\nentry 4 1\n";

// Texts in parts, with their faults, if they have any. Without one the text is the one that is written again.
const TEXTS: [([&[u8]; 5], Option<CertText>); 30] = [
    ([HEAD, COLUMNS, FIRST_SPAN, SPANS, b"end\n"], None),
    ([THIN, b"", b"", b"", b"end\n"], None),
    ([b"", b"", b"", b"", b""], Some(CertText::Truncated)),
    (
        [b"codebook certificate 2\n", b"", b"", b"", b""],
        Some(CertText::Truncated),
    ),
    (
        [b"codebook certificate 3\n", b"", b"", b"", b""],
        Some(CertText::BadHeader),
    ),
    ([CAPPED, ALL_COLUMNS, RADII, TWO_SPANS, b"end\n"], None),
    (
        [b"codebook certificate 2\nkind thin\n", b"", b"", b"", b""],
        Some(CertText::BadLine { line: 2 }),
    ),
    (
        [
            b"codebook certificate 2\nkind book\ndistance 3\n",
            b"",
            b"",
            b"",
            b"",
        ],
        Some(CertText::BadLine { line: 3 }),
    ),
    (
        [
            b"codebook certificate 1\nkind book\ncap 3\n",
            b"",
            b"",
            b"",
            b"",
        ],
        Some(CertText::BadLine { line: 3 }),
    ),
    (
        [
            b"codebook certificate 2\nkind book\ncap 0\n",
            b"",
            b"",
            b"",
            b"",
        ],
        Some(CertText::BadLine { line: 3 }),
    ),
    (
        [
            b"codebook certificate 2\nkind book\ncap 10000\n",
            b"",
            b"",
            b"",
            b"",
        ],
        Some(CertText::BadLine { line: 3 }),
    ),
    (
        [CAPPED, ALL_COLUMNS, b"radii 0\n", b"", b""],
        Some(CertText::BadLine { line: 16 }),
    ),
    (
        [CAPPED, ALL_COLUMNS, b"radii 8194\n", b"", b""],
        Some(CertText::BadLine { line: 16 }),
    ),
    (
        [CAPPED, ALL_COLUMNS, b"radii 1\nradius 5000\n", b"", b""],
        Some(CertText::BadLine { line: 17 }),
    ),
    (
        [CAPPED, ALL_COLUMNS, b"radii 1\nradius 4999\n", b"", b""],
        Some(CertText::Truncated),
    ),
    (
        [CAPPED, ALL_COLUMNS, TWO_SPANS, b"end\n", b""],
        Some(CertText::BadLine { line: 16 }),
    ),
    (
        [CAPPED, ALL_COLUMNS, RADII, TWO_SPANS, b"end\n\n"],
        Some(CertText::Extra { line: 30 }),
    ),
    (
        [b"codebook certificate 1\r\n", b"", b"", b"", b""],
        Some(CertText::BadHeader),
    ),
    ([HEAD, b"", b"", b"", b""], Some(CertText::Truncated)),
    (
        [HEAD, COLUMNS, FIRST_SPAN, b"", b""],
        Some(CertText::Truncated),
    ),
    (
        [HEAD, COLUMNS, FIRST_SPAN, SPANS, b""],
        Some(CertText::Truncated),
    ),
    (
        [HEAD, COLUMNS, FIRST_SPAN, b"span 2\n", b""],
        Some(CertText::BadLine { line: 19 }),
    ),
    (
        [HEAD, b"columns 2\ncolumn 4\ncolumn 7\n", b"", b"", b""],
        Some(CertText::BadLine { line: 13 }),
    ),
    (
        [HEAD, b"columns 2\ncolumn 04\n", b"", b"", b""],
        Some(CertText::BadLine { line: 12 }),
    ),
    (
        [HEAD, b"columns 8193\n", b"", b"", b""],
        Some(CertText::BadLine { line: 11 }),
    ),
    (
        [HEAD, COLUMNS, b"spans 3\nspan 0\n", b"", b""],
        Some(CertText::BadLine { line: 15 }),
    ),
    (
        [HEAD, COLUMNS, b"spans 1\nspan 1\nentry 1  0\n", b"", b""],
        Some(CertText::BadLine { line: 16 }),
    ),
    (
        [HEAD, COLUMNS, FIRST_SPAN, SPANS, b"endx"],
        Some(CertText::BadLine { line: 26 }),
    ),
    (
        [HEAD, COLUMNS, FIRST_SPAN, SPANS, b"end\n\n"],
        Some(CertText::Extra { line: 27 }),
    ),
    (
        [THIN, b"", b"", b"", b"end\nquiet"],
        Some(CertText::Extra { line: 13 }),
    ),
];

fn check(
    rt: &impl Abort,
    alloc: Global,
    text: &[u8],
    fault: Option<CertText>,
) -> Result<(), AllocError> {
    match read(alloc, text) {
        Ok(certificate) => {
            let written = write(alloc, &certificate)?;
            assert_eq!(rt; fault, None, "{text:?}");
            assert_eq!(rt; written.as_slice(), text);
        }
        Err(found) => assert_eq!(rt; Some(found), fault, "{text:?}"),
    }
    Ok(())
}

// A text of these parts.
fn joined(alloc: Global, parts: [&[u8]; 5]) -> Result<Vec<u8>, AllocError> {
    let mut text = Vec::new(alloc);
    for part in parts {
        text.extend_from_slice(part)?;
    }
    Ok(text)
}

#[test]
fn texts(rt: HostRuntime) -> Result<(), Fail> {
    for (parts, fault) in TEXTS {
        let text = joined(rt.alloc(), parts)?;
        check(&rt, rt.alloc(), &text, fault)?;
    }
    Ok(())
}

#[test]
fn last_lf_may_be_wanting(rt: HostRuntime) -> Result<(), Fail> {
    let text = joined(rt.alloc(), [THIN, b"end", b"", b"", b""])?;
    let certificate = read(rt.alloc(), &text);
    assert!(rt; certificate.is_ok());
    Ok(())
}

// Where line number `count` ends, or the text, where it has fewer lines.
fn end_of(text: &[u8], count: usize) -> usize
    ensures { result ≤ length text.now }
{
    let mut left = count;
    for place in 0..text.len() {
        if left == 0 {
            return place;
        }
        if text[place] == b'\n' {
            left -= 1;
        }
    }
    text.len()
}

// Whether each number of first lines of the text, if it isn't all of them, is found to be truncated.
fn is_truncated_below(alloc: Global, text: &[u8], lines: usize) -> bool {
    for count in 0..lines {
        let fault = read(alloc, &text[..end_of(text, count)]).err();
        if fault != Some(CertText::Truncated) {
            return false;
        }
    }
    true
}

#[test]
fn texts_that_end_early(rt: HostRuntime) -> Result<(), Fail> {
    let text = joined(rt.alloc(), [HEAD, COLUMNS, FIRST_SPAN, SPANS, b"end\n"])?;
    assert!(rt; is_truncated_below(rt.alloc(), &text, 26));
    Ok(())
}
