//! Files and lines at their limits.
use crate::top::{Case, QUIET, Wanted, check};
use std::alloc::{AllocError, Global};
use std::str::from_utf8;
use std::test::Fail;

// The most bytes of a file that is read whole.
const MOST_BYTES: usize = 16 << 20;

fn spaces(alloc: Global, count: usize) -> Result<Vec<u8>, AllocError> {
    vec![in alloc; b' '; count]
}

#[test]
fn a_file_of_too_many_bytes_is_refused(rt: HostRuntime) -> Result<(), Fail> {
    let bytes = spaces(rt.alloc(), MOST_BYTES + 1)?;
    let Ok(text) = from_utf8(&bytes) else {
        return Err(Fail::new("spaces are text"));
    };
    let case = Case {
        words: &["model", "m"],
        files: &[("m", text)],
        piece: 0,
        failing_read: 0,
        failing_write: 0,
    };
    let wanted = Wanted {
        code: 7,
        out: "",
        err: "error 7 limit bytes m\n",
    };
    check(&rt, rt.alloc(), &case, &wanted)?;
    let case = Case {
        words: &["burst", "m", "t", "s"],
        files: &[("m", ""), ("t", text)],
        piece: 0,
        failing_read: 0,
        failing_write: 0,
    };
    let wanted = Wanted {
        code: 7,
        out: "",
        err: "error 7 limit bytes t\n",
    };
    check(&rt, rt.alloc(), &case, &wanted)?;
    let case = Case {
        words: &["burst", "m", "t", "s"],
        files: &[("m", ""), ("t", ""), ("s", text)],
        piece: 0,
        failing_read: 0,
        failing_write: 0,
    };
    let wanted = Wanted {
        code: 7,
        out: "",
        err: "error 7 limit bytes s\n",
    };
    check(&rt, rt.alloc(), &case, &wanted)?;
    Ok(())
}

// An empty line, and one with one space less than the number.
fn two_lines(alloc: Global, count: usize) -> Result<Vec<u8>, AllocError> {
    let mut bytes = spaces(alloc, count)?;
    if let Some(first) = bytes.first_mut() {
        *first = b'\n';
    }
    Ok(bytes)
}

#[test]
fn a_line_of_too_many_bytes_is_refused(rt: HostRuntime) -> Result<(), Fail> {
    let just_short = two_lines(rt.alloc(), 4_097)?;
    let too_long = two_lines(rt.alloc(), 4_098)?;
    let (Ok(short), Ok(long)) = (from_utf8(&just_short), from_utf8(&too_long)) else {
        return Err(Fail::new("spaces are text"));
    };
    // The topology, the symptoms, the status, the output and the line.
    let cases: [(&str, &str, u8, &str, &str); 3] = [
        (short, short, 0, QUIET, ""),
        (long, short, 7, "", "error 7 limit line t 2\n"),
        (short, long, 7, "", "error 7 limit line s 2\n"),
    ];
    for (topology, symptoms, code, out, err) in cases {
        let case = Case {
            words: &["burst", "m", "t", "s"],
            files: &[("m", ""), ("t", topology), ("s", symptoms)],
            piece: 0,
            failing_read: 0,
            failing_write: 0,
        };
        let wanted = Wanted { code, out, err };
        check(&rt, rt.alloc(), &case, &wanted)?;
    }
    Ok(())
}
