//! Certificates that are cut, continued or changed, line by line.
use crate::runs::{CALM, Case, LINK, LINKED, Wanted, check};
use cb_steps::MayCount;
use std::alloc::{AllocError, Global};
use std::process::Abort;
use std::test::Fail;

// The lines of the certificate of the linked network's codebook at a distance of 1.
const BOOK: [&[u8]; 26] = [
    b"codebook certificate 1",
    b"kind book",
    b"distance 1",
    b"nodes 6",
    b"node Cut@L1",
    b"node Loss@L1",
    b"node Fail@a",
    b"node NoSignal@a",
    b"node Fail@b",
    b"node NoSignal@b",
    b"columns 2",
    b"column 4",
    b"column 6",
    b"spans 3",
    b"span 4",
    b"entry 1 0",
    b"entry 2 1",
    b"entry 4 1",
    b"entry 6 1",
    b"span 2",
    b"entry 3 0",
    b"entry 4 1",
    b"span 2",
    b"entry 5 0",
    b"entry 6 1",
    b"end",
];

// The lines of that which says that there is none at 2.
const THIN: [&[u8]; 12] = [
    b"codebook certificate 1",
    b"kind thin",
    b"wanted 2",
    b"distance 1",
    b"nodes 2",
    b"node Fail@a",
    b"node NoSignal@a",
    b"quiet",
    b"span 2",
    b"entry 1 0",
    b"entry 2 1",
    b"end",
];

const ACCEPTED: Wanted<'static> = Wanted {
    code: 0,
    out: b"accepted book distance 1 radius 0 groups 4 columns 2\n",
    err: b"",
};

const TRUNCATED: Wanted<'static> = Wanted {
    code: 5,
    out: b"",
    err: b"error 5 certificate truncated\n",
};

const EXTRA: Wanted<'static> = Wanted {
    code: 5,
    out: b"",
    err: b"error 5 certificate extra line 27\n",
};

// What is after the first 25 lines, each with its LF.
const ENDS: [(&[u8], Wanted<'static>); 7] = [
    (b"", TRUNCATED),
    (b"end", ACCEPTED),
    (b"end\n", ACCEPTED),
    (b"end\nx\n", EXTRA),
    (b"end\nx", EXTRA),
    (b"end\n\n", EXTRA),
    (b"end\nend\n", EXTRA),
];

// Checks the certificate of the linked network in two parts.
fn is_checked(
    rt: &(impl Abort + MayCount),
    alloc: Global,
    first: &[u8],
    last: &[u8],
    wanted: &Wanted<'_>,
) -> Result<(), AllocError> {
    let case = Case {
        words: &["verify", "m", "t", "c"],
        files: &[("m", LINK), ("t", LINKED)],
        more: &[("c", first), ("c", last)],
    };
    check(rt, alloc, &case, &CALM, wanted)
}

#[test]
fn a_certificate_that_is_cut_is_truncated(rt: HostRuntime) -> Result<(), Fail> {
    let mut text = Vec::new(rt.alloc());
    for line in &BOOK[..25] {
        // Cut after a line, and before the LF of the next one.
        is_checked(&rt, rt.alloc(), &text, b"", &TRUNCATED)?;
        is_checked(&rt, rt.alloc(), &text, line, &TRUNCATED)?;
        text.extend_from_slice(line)?;
        text.push(b'\n')?;
    }
    for (last, wanted) in &ENDS {
        is_checked(&rt, rt.alloc(), &text, last, wanted)?;
    }
    Ok(())
}

// The certificate, the lines that replace others, by their numbers, and why it is refused.
const CHANGED: [(&[&[u8]], &[(usize, &[u8])], &[u8]); 10] = [
    (
        &BOOK,
        &[(5, b"node Loss@L1\n"), (6, b"node Cut@L1\n")],
        b"error 5 certificate bad-node place 2\n",
    ),
    (
        &BOOK,
        &[(12, b"column 1\n")],
        b"error 5 certificate bad-column place 1\n",
    ),
    (
        &BOOK,
        &[(13, b"column 4\n")],
        b"error 5 certificate bad-column place 2\n",
    ),
    (
        &BOOK,
        &[(14, b"spans 2\n"), (23, b""), (24, b""), (25, b"")],
        b"error 5 certificate no-span problem Fail@b\n",
    ),
    (
        &BOOK,
        &[(14, b"spans 4\n"), (25, b"entry 6 1\nspan 1\nentry 2 0\n")],
        b"error 5 certificate extra-span place 4\n",
    ),
    (
        &BOOK,
        &[(16, b"entry 2 0\n")],
        b"error 5 certificate bad-root entry 1\n",
    ),
    (
        &BOOK,
        &[(18, b"entry 3 1\n")],
        b"error 5 certificate no-edge entry 3\n",
    ),
    (
        &BOOK,
        &[(18, b"entry 2 1\n")],
        b"error 5 certificate repeated entry 3\n",
    ),
    (
        &THIN,
        &[(3, b"wanted 1\n")],
        b"error 5 certificate not-thin distance 1\n",
    ),
    (
        &THIN,
        &[(4, b"distance 2\n")],
        b"error 5 certificate not-thin distance 1\n",
    ),
];

// The line that replaces the one of this number, if there is one.
fn instead<'a>(changes: &[(usize, &'a [u8])], number: usize) -> Option<&'a [u8]> {
    for (changed, text) in changes {
        if *changed == number {
            return Some(text);
        }
    }
    None
}

fn changed(
    alloc: Global,
    lines: &[&[u8]],
    changes: &[(usize, &[u8])],
) -> Result<Vec<u8>, AllocError> {
    let mut text = Vec::new(alloc);
    let mut number = 0_usize;
    for line in lines {
        number = number.saturating_add(1);
        match instead(changes, number) {
            Some(other) => text.extend_from_slice(other)?,
            None => {
                text.extend_from_slice(line)?;
                text.push(b'\n')?;
            }
        }
    }
    Ok(text)
}

#[test]
fn a_changed_certificate_is_refused(rt: HostRuntime) -> Result<(), Fail> {
    for (lines, changes, err) in CHANGED {
        let text = changed(rt.alloc(), lines, changes)?;
        let wanted = Wanted {
            code: 5,
            out: b"",
            err,
        };
        is_checked(&rt, rt.alloc(), &text, b"", &wanted)?;
    }
    Ok(())
}
