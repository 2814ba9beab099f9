//! Calls of the outside that fail, each in turn.
use crate::runs::{CALM, Case, LINK, LINKED, Outside, Wanted, check_as_err_fails};
use std::test::Fail;

// A raise, another one with its clear, and a raise that closes the window.
const RAISES: &[u8] =
    b"{\"at\":5,\"from\":\"c1\",\"raise\":\"NoSignal@a\"}\n{\"at\":6,\"from\":\"c1\",\"raise\":\"NoSignal@b\"}\n{\"at\":7,\"from\":\"c1\",\"clear\":\"NoSignal@b\"}\n{\"at\":15,\"from\":\"c1\",\"raise\":\"NoSignal@b\"}\n";

// What is written of it.
const WHOLE: &[u8] =
    b"book columns 2 of 3 distance 1 radius 0 groups 4\ndiagnosis c1 5 15 raised 1 unknown 0 distance 0 radius 0 sure groups 1\n  group Fail@a\ndiagnosis c1 15 15 raised 1 unknown 0 distance 0 radius 0 sure groups 1\n  group Fail@b\n";

// What its last line makes of that. The rest is made at the end.
const FIRST: &[u8] =
    b"book columns 2 of 3 distance 1 radius 0 groups 4\ndiagnosis c1 5 15 raised 1 unknown 0 distance 0 radius 0 sure groups 1\n  group Fail@a\n";

// The first 64, 128 and 199 bytes. A write takes at most 64, of what a line makes.
const BY_64: &[u8] = b"book columns 2 of 3 distance 1 radius 0 groups 4\ndiagnosis c1 5 ";

const BY_128: &[u8] =
    b"book columns 2 of 3 distance 1 radius 0 groups 4\ndiagnosis c1 5 15 raised 1 unknown 0 distance 0 radius 0 sure groups 1\n  group ";

const BY_199: &[u8] =
    b"book columns 2 of 3 distance 1 radius 0 groups 4\ndiagnosis c1 5 15 raised 1 unknown 0 distance 0 radius 0 sure groups 1\n  group Fail@a\ndiagnosis c1 15 15 raised 1 unknown 0 distance 0 radius 0 sure g";

const READ_M: &[u8] = b"error 8 read m\n";

const READ_T: &[u8] = b"error 8 read t\n";

const READ_LOG: &[u8] = b"error 8 read log\n";

const WRITE: &[u8] = b"error 9 write\n";

// The read and the write that fail, if not 0, the status, the output and the line. In pieces of 64 bytes the model takes 6 reads, the topology 3
// and the log 4, the last one of each at its end; the third one of the log ends the line that closes the window.
const CALLS: [(u64, u64, u8, &[u8], &[u8]); 20] = [
    (1, 0, 8, b"", READ_M),
    (2, 0, 8, b"", READ_M),
    (3, 0, 8, b"", READ_M),
    (4, 0, 8, b"", READ_M),
    (5, 0, 8, b"", READ_M),
    (6, 0, 8, b"", READ_M),
    (7, 0, 8, b"", READ_T),
    (8, 0, 8, b"", READ_T),
    (9, 0, 8, b"", READ_T),
    (10, 0, 8, b"", READ_LOG),
    (11, 0, 8, b"", READ_LOG),
    (12, 0, 8, b"", READ_LOG),
    (13, 0, 8, FIRST, READ_LOG),
    (14, 0, 0, WHOLE, b""),
    (0, 1, 9, b"", WRITE),
    (0, 2, 9, BY_64, WRITE),
    (0, 3, 9, BY_128, WRITE),
    (0, 4, 9, FIRST, WRITE),
    (0, 5, 9, BY_199, WRITE),
    (0, 6, 0, WHOLE, b""),
];

#[test]
fn each_call_over_a_log_fails_in_turn(rt: HostRuntime) -> Result<(), Fail> {
    let case = Case {
        words: &["correlate", "m", "t", "log", "1", "10"],
        files: &[("m", LINK), ("t", LINKED), ("log", RAISES)],
        more: &[],
    };
    for (failing_read, failing_write, code, out, err) in CALLS {
        let outside = Outside {
            piece: 64,
            failing_read,
            failing_write,
            failing_err: 0,
        };
        let wanted = Wanted { code, out, err };
        check_as_err_fails(&rt, rt.alloc(), &case, &outside, &wanted)?;
        assert!(rt; WHOLE.starts_with(out), "{failing_read} {failing_write}");
    }
    Ok(())
}

// A run that ends with a fault: the words, the files, the write that fails, if not 0, and what is wanted.
#[derive(Clone, Copy)]
struct Faulty<'a> {
    words: &'a [&'a str],
    files: &'a [(&'a str, &'a [u8])],
    failing_write: u64,
    wanted: Wanted<'a>,
}

const THIN: &[u8] =
    b"codebook certificate 1\nkind thin\nwanted 2\ndistance 1\nnodes 2\nnode Fail@a\nnode NoSignal@a\nquiet\nspan 2\nentry 1 0\nentry 2 1\nend\n";

const FAULTY: [Faulty<'static>; 8] = [
    Faulty {
        words: &["burst", "m", "t"],
        files: &[("m", LINK), ("t", LINKED)],
        failing_write: 0,
        wanted: Wanted {
            code: 2,
            out: b"",
            err: b"error 2 usage\n",
        },
    },
    Faulty {
        words: &["model", "m"],
        files: &[("m", b"class A { problem class; }")],
        failing_write: 0,
        wanted: Wanted {
            code: 3,
            out: b"",
            err: b"error 3 model line 1 column 19 unexpected\n",
        },
    },
    Faulty {
        words: &["matrix", "m", "t"],
        files: &[("m", LINK), ("t", b"create a Port\ncreate a Port\n")],
        failing_write: 0,
        wanted: Wanted {
            code: 4,
            out: b"",
            err: b"error 4 topology line 2 exists\n",
        },
    },
    Faulty {
        words: &["burst", "m", "t", "s"],
        files: &[("m", LINK), ("t", LINKED), ("s", b"NoSignal@a\nNoSignal\n")],
        failing_write: 0,
        wanted: Wanted {
            code: 4,
            out: b"",
            err: b"error 4 symptoms line 2 bad-name\n",
        },
    },
    Faulty {
        words: &["decode", "m", "t", "c", "log", "10"],
        files: &[("m", LINK), ("t", LINKED), ("c", THIN), ("log", b"")],
        failing_write: 0,
        wanted: Wanted {
            code: 5,
            out: b"",
            err: b"error 5 certificate not-book\n",
        },
    },
    Faulty {
        words: &["codebook", "m", "t", "2"],
        files: &[("m", LINK), ("t", LINKED)],
        failing_write: 0,
        wanted: Wanted {
            code: 6,
            out: THIN,
            err: b"error 6 distance wanted 2 first quiet second Fail@a distance 1\n",
        },
    },
    Faulty {
        words: &["codebook", "m", "t", "1"],
        files: &[("m", LINK)],
        failing_write: 0,
        wanted: Wanted {
            code: 8,
            out: b"",
            err: READ_T,
        },
    },
    Faulty {
        words: &["verify", "m", "t", "c"],
        files: &[("m", LINK), ("t", LINKED), ("c", THIN)],
        failing_write: 1,
        wanted: Wanted {
            code: 9,
            out: b"",
            err: WRITE,
        },
    },
];

#[test]
fn a_failing_error_sink_changes_no_status(rt: HostRuntime) -> Result<(), Fail> {
    for row in &FAULTY {
        let case = Case {
            words: row.words,
            files: row.files,
            more: &[],
        };
        let outside = Outside {
            failing_write: row.failing_write,
            ..CALM
        };
        check_as_err_fails(&rt, rt.alloc(), &case, &outside, &row.wanted)?;
    }
    Ok(())
}
