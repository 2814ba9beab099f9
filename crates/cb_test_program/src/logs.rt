//! Logs that are followed, over files and sinks in memory.
ghost use Rattle.std.specs.Prelude.{◌≡◌, ◌<◌};

use crate::top::{Case, LINK, LINKED, Wanted, check, words_of};
use cb_io::{MemFiles, MemSink, read_whole};
use cb_steps::{MayCount, Steps};
use cb_top::run;
use std::alloc::{AllocError, Global};
use std::marker::Brand;
use std::process::Abort;
use std::sync::ledger::{Blank, Ledger};
use std::test::Fail;

// A path of two places.
const PATH: &str =
    "class A {\n  problem P;\n  relation mid to B many inverse top;\n  rule r: P => mid.low.S;\n}\nclass B {\n  relation top to A many inverse mid;\n  relation low to C many inverse up;\n}\nclass C {\n  symptom S;\n  relation up to B many inverse low;\n}\n";

const PATHS: &str = "create a1 A\ncreate b1 B\ncreate c1 C\nlink a1 mid b1\n";

// Three problems that cause much, little and nothing, and a symptom that none of them causes.
const UNLIKE: &str =
    "class U {\n  problem X;\n  problem Y;\n  problem Z;\n  symptom A;\n  symptom B;\n  symptom C;\n  symptom D;\n  symptom E;\n  rule a: X => A;\n  rule b: X => B;\n  rule c: X => C;\n  rule d: Y => D;\n}\n";

const ONE: &str = "create u U\n";

// The third symptom of `X` is lost.
const TWO_OF_THREE: &str =
    "{\"at\":1,\"from\":\"c1\",\"raise\":\"A@u\"}\n{\"at\":2,\"from\":\"c1\",\"raise\":\"B@u\"}\n";

/// A log, what it is followed over, and what results from it.
#[derive(Clone, Copy)]
struct Followed {
    model: &'static str,
    topology: &'static str,
    distance: &'static str,
    window: &'static str,
    log: &'static str,
    out: &'static str,
}

const LOGS: [Followed; 19] = [
    // An edit that is refused, and the instance made before it counts as a column.
    Followed {
        model: LINK,
        topology: LINKED,
        distance: "1",
        window: "10",
        log: "{\"at\":1,\"edit\":\"create L2 Link\"}\n{\"at\":2,\"edit\":\"link a on L2\"}\n{\"at\":3,\"from\":\"c1\",\"raise\":\"NoSignal@a\"}\n",
        out: "refused 2 occupied\nbook columns 3 of 4 distance 1 radius 0 groups 5\ndiagnosis c1 3 3 raised 1 unknown 0 distance 0 radius 0 sure groups 1\n  group Fail@a\n",
    },
    // What is raised is diagnosed by the topology of the moment at which its window closes.
    Followed {
        model: LINK,
        topology: LINKED,
        distance: "1",
        window: "10",
        log: "{\"at\":10,\"from\":\"c1\",\"raise\":\"Loss@L1\"}\n{\"at\":11,\"from\":\"c1\",\"raise\":\"NoSignal@a\"}\n{\"at\":12,\"edit\":\"delete L1\"}\n{\"at\":20,\"tick\":true}\n",
        out: "book columns 2 of 2 distance 1 radius 0 groups 3\ndiagnosis c1 10 20 raised 2 unknown 1 distance 0 radius 0 sure groups 1\n  group Fail@a\n",
    },
    // A clear, and a raise that closes a window and opens the next.
    Followed {
        model: LINK,
        topology: LINKED,
        distance: "1",
        window: "10",
        log: "{\"at\":5,\"from\":\"c1\",\"raise\":\"NoSignal@a\"}\n{\"at\":6,\"from\":\"c1\",\"raise\":\"NoSignal@b\"}\n{\"at\":7,\"from\":\"c1\",\"clear\":\"NoSignal@b\"}\n{\"at\":15,\"from\":\"c1\",\"raise\":\"NoSignal@b\"}\n",
        out: "book columns 2 of 3 distance 1 radius 0 groups 4\ndiagnosis c1 5 15 raised 1 unknown 0 distance 0 radius 0 sure groups 1\n  group Fail@a\ndiagnosis c1 15 15 raised 1 unknown 0 distance 0 radius 0 sure groups 1\n  group Fail@b\n",
    },
    // Two sources have windows of their own.
    Followed {
        model: LINK,
        topology: LINKED,
        distance: "1",
        window: "10",
        log: "{\"at\":1,\"from\":\"c1\",\"raise\":\"NoSignal@a\"}\n{\"at\":1,\"from\":\"c2\",\"raise\":\"NoSignal@b\"}\n{\"at\":2,\"from\":\"c2\",\"raise\":\"NoSignal@a\"}\n{\"at\":12,\"tick\":true}\n",
        out: "book columns 2 of 3 distance 1 radius 0 groups 4\ndiagnosis c1 1 12 raised 1 unknown 0 distance 0 radius 0 sure groups 1\n  group Fail@a\ndiagnosis c2 1 12 raised 2 unknown 0 distance 0 radius 0 sure groups 1\n  group Cut@L1\n",
    },
    // What the second source says made ticks: the first one's diagnosis stays.
    Followed {
        model: LINK,
        topology: LINKED,
        distance: "1",
        window: "10",
        log: "{\"at\":1,\"from\":\"c1\",\"raise\":\"NoSignal@a\"}\n{\"at\":1,\"tick\":true}\n{\"at\":2,\"tick\":true}\n{\"at\":12,\"tick\":true}\n",
        out: "book columns 2 of 3 distance 1 radius 0 groups 4\ndiagnosis c1 1 12 raised 1 unknown 0 distance 0 radius 0 sure groups 1\n  group Fail@a\n",
    },
    // A record as other programs write it, with more members, and its line ended by CR and LF.
    Followed {
        model: LINK,
        topology: LINKED,
        distance: "1",
        window: "10",
        log: "{\"severity\":\"major\",\"at\":1700000000,\"from\":\"nms-1\",\"raise\":\"NoSignal@a\",\"text\":\"port down\"}\r\n",
        out: "book columns 2 of 3 distance 1 radius 0 groups 4\ndiagnosis nms-1 1700000000 1700000000 raised 1 unknown 0 distance 0 radius 0 sure groups 1\n  group Fail@a\n",
    },
    // Times that fall, and the greatest.
    Followed {
        model: LINK,
        topology: LINKED,
        distance: "1",
        window: "10",
        log: "{\"at\":100,\"from\":\"c1\",\"raise\":\"NoSignal@a\"}\n{\"at\":50,\"from\":\"c1\",\"raise\":\"NoSignal@b\"}\n{\"at\":18446744073709551615,\"tick\":true}\n{\"at\":18446744073709551615,\"from\":\"c1\",\"raise\":\"NoSignal@a\"}\n",
        out: "book columns 2 of 3 distance 1 radius 0 groups 4\ndiagnosis c1 100 18446744073709551615 raised 2 unknown 0 distance 0 radius 0 sure groups 1\n  group Cut@L1\ndiagnosis c1 18446744073709551615 18446744073709551615 raised 1 unknown 0 distance 0 radius 0 sure groups 1\n  group Fail@a\n",
    },
    // Groups that are closer than wanted are reported before the book.
    Followed {
        model: LINK,
        topology: LINKED,
        distance: "2",
        window: "10",
        log: "{\"at\":1,\"from\":\"c1\",\"raise\":\"NoSignal@a\"}\n{\"at\":2,\"from\":\"c1\",\"raise\":\"NoSignal@b\"}\n",
        out: "thin wanted 2 first quiet second Fail@a distance 1\nbook columns 2 of 3 distance 1 radius 0 groups 4\ndiagnosis c1 1 2 raised 2 unknown 0 distance 0 radius 0 sure groups 1\n  group Cut@L1\n",
    },
    // For a cap each group has a radius of its own. `X` is three places from the others, which are one apart.
    Followed {
        model: UNLIKE,
        topology: ONE,
        distance: "cap3",
        window: "10",
        log: TWO_OF_THREE,
        out: "book columns 4 of 5 cap 3 radius 0 to 1 groups 3\ndiagnosis c1 1 2 raised 2 unknown 0 distance 1 radius 1 sure groups 1\n  group X@u\n",
    },
    // At a distance all groups have the radius of the closest two, and two symptoms of `X` don't count.
    Followed {
        model: UNLIKE,
        topology: ONE,
        distance: "3",
        window: "10",
        log: TWO_OF_THREE,
        out: "thin wanted 3 first quiet second Y@u distance 1\nbook columns 2 of 5 distance 1 radius 0 groups 3\ndiagnosis c1 1 2 raised 2 unknown 0 distance 0 radius 0 sure groups 1\n  group X@u\n",
    },
    // The radius is that of the first listed group: of two as near, and of `quiet` with its problem. What no problem causes doesn't count.
    Followed {
        model: UNLIKE,
        topology: ONE,
        distance: "cap3",
        window: "2",
        log: "{\"at\":1,\"from\":\"c1\",\"raise\":\"A@u\"}\n{\"at\":2,\"from\":\"c1\",\"raise\":\"B@u\"}\n{\"at\":2,\"from\":\"c1\",\"raise\":\"D@u\"}\n{\"at\":3,\"from\":\"c1\",\"raise\":\"C@u\"}\n{\"at\":3,\"from\":\"c1\",\"raise\":\"E@u\"}\n",
        out: "book columns 4 of 5 cap 3 radius 0 to 1 groups 3\ndiagnosis c1 1 3 raised 3 unknown 0 distance 2 radius 1 unsure groups 2\n  group X@u\n  group Y@u\ndiagnosis c1 3 3 raised 2 unknown 0 distance 1 radius 0 unsure groups 1\n  group quiet Z@u\n",
    },
    // The greatest cap keeps every column that some problem causes.
    Followed {
        model: UNLIKE,
        topology: ONE,
        distance: "cap9999",
        window: "10",
        log: "{\"at\":1,\"from\":\"c1\",\"raise\":\"C@u\"}\n",
        out: "book columns 4 of 5 cap 9999 radius 0 to 1 groups 3\ndiagnosis c1 1 1 raised 1 unknown 0 distance 1 radius 0 unsure groups 1\n  group quiet Z@u\n",
    },
    // Each accepted edit makes a codebook for the cap anew, and no thin event comes.
    Followed {
        model: LINK,
        topology: LINKED,
        distance: "cap9999",
        window: "10",
        log: "{\"at\":1,\"from\":\"c1\",\"raise\":\"NoSignal@a\"}\n{\"at\":2,\"from\":\"c1\",\"raise\":\"NoSignal@b\"}\n{\"at\":3,\"edit\":\"mute Loss@L1\"}\n{\"at\":4,\"edit\":\"mute Loss@L1\"}\n{\"at\":20,\"from\":\"c1\",\"raise\":\"NoSignal@a\"}\n{\"at\":30,\"edit\":\"unmute Loss@L1\"}\n{\"at\":31,\"from\":\"c1\",\"raise\":\"NoSignal@a\"}\n",
        out: "refused 4 already-muted\nbook columns 2 of 2 cap 9999 radius 0 to 0 groups 4\ndiagnosis c1 1 20 raised 2 unknown 0 distance 0 radius 0 sure groups 1\n  group Cut@L1\ndiagnosis c1 20 30 raised 1 unknown 0 distance 0 radius 0 sure groups 1\n  group Fail@a\nbook columns 3 of 3 cap 9999 radius 0 to 0 groups 4\ndiagnosis c1 31 31 raised 1 unknown 0 distance 0 radius 0 sure groups 1\n  group Fail@a\n",
    },
    // With `quiet` alone the radius is that of the cap.
    Followed {
        model: UNLIKE,
        topology: "",
        distance: "cap6",
        window: "10",
        log: "{\"at\":1,\"from\":\"c1\",\"raise\":\"A@u\"}\n",
        out: "book columns 0 of 0 cap 6 radius 2 to 2 groups 1\ndiagnosis c1 1 1 raised 1 unknown 1 distance 0 radius 2 sure groups 1\n  group quiet\n",
    },
    // A cap of 1 keeps what a distance of 1 does.
    Followed {
        model: LINK,
        topology: LINKED,
        distance: "cap1",
        window: "10",
        log: "{\"at\":1,\"from\":\"c1\",\"raise\":\"NoSignal@a\"}\n{\"at\":2,\"from\":\"c1\",\"raise\":\"NoSignal@b\"}\n",
        out: "book columns 2 of 3 cap 1 radius 0 to 0 groups 4\ndiagnosis c1 1 2 raised 2 unknown 0 distance 0 radius 0 sure groups 1\n  group Cut@L1\n",
    },
    // A link at the second place of a path.
    Followed {
        model: PATH,
        topology: PATHS,
        distance: "1",
        window: "5",
        log: "{\"at\":1,\"edit\":\"link b1 low c1\"}\n{\"at\":2,\"from\":\"s1\",\"raise\":\"S@c1\"}\n",
        out: "book columns 1 of 1 distance 1 radius 0 groups 2\ndiagnosis s1 2 2 raised 1 unknown 0 distance 0 radius 0 sure groups 1\n  group P@a1\n",
    },
    // Lines that are no records, a blank one, members of others, a CR, and a last line without a LF.
    Followed {
        model: LINK,
        topology: LINKED,
        distance: "1",
        window: "10",
        log: "nonsense\n[1]\n \r\n{\"severity\":\"major\",\"at\":17,\"from\":\"nms-1\",\"raise\":\"NoSignal@a\",\"text\":\"port down\"}\r",
        out: "skipped 1 not-json\nskipped 2 not-object\nbook columns 2 of 3 distance 1 radius 0 groups 4\ndiagnosis nms-1 17 17 raised 1 unknown 0 distance 0 radius 0 sure groups 1\n  group Fail@a\n",
    },
    // No line, and time alone.
    Followed {
        model: LINK,
        topology: LINKED,
        distance: "1",
        window: "10",
        log: "",
        out: "",
    },
    Followed {
        model: LINK,
        topology: LINKED,
        distance: "1",
        window: "10",
        log: "{\"at\":5,\"tick\":true}",
        out: "",
    },
];

// Follows the log in pieces of `piece` bytes.
fn is_followed(
    rt: &(impl Abort + MayCount),
    alloc: Global,
    row: &Followed,
    piece: usize,
) -> Result<(), AllocError> {
    let case = Case {
        words: &["correlate", "m", "t", "l", row.distance, row.window],
        files: &[("m", row.model), ("t", row.topology), ("l", row.log)],
        piece,
        failing_read: 0,
        failing_write: 0,
    };
    let wanted = Wanted {
        code: 0,
        out: row.out,
        err: "",
    };
    check(rt, alloc, &case, &wanted)
}

#[test]
fn a_log_is_followed_in_any_pieces(rt: HostRuntime) -> Result<(), Fail> {
    for row in &LOGS {
        for piece in [1, 7, 65_536] {
            is_followed(&rt, rt.alloc(), row, piece)?;
        }
    }
    Ok(())
}

// A raise, its clear, and a raise that closes the window, each line with its LF.
const RAISES: &str =
    "{\"at\":5,\"from\":\"c1\",\"raise\":\"NoSignal@a\"}\n{\"at\":6,\"from\":\"c1\",\"raise\":\"NoSignal@b\"}\n{\"at\":7,\"from\":\"c1\",\"clear\":\"NoSignal@b\"}\n{\"at\":15,\"from\":\"c1\",\"raise\":\"NoSignal@b\"}\n";

const FIRST_DIAGNOSIS: &str =
    "book columns 2 of 3 distance 1 radius 0 groups 4\ndiagnosis c1 5 15 raised 1 unknown 0 distance 0 radius 0 sure groups 1\n  group Fail@a\n";

#[test]
fn a_log_that_fails_keeps_what_was_reported(rt: HostRuntime) -> Result<(), Fail> {
    // The pieces, and the call that fails, if not 0: of reads, of which the model and the topology take some each and the log one or more
    // before its end, or of writes.
    let cases: [(usize, u64, u64, u8, &str, &str); 10] = [
        (1, 343, 0, 8, "", "error 8 read l\n"),
        (1, 512, 0, 8, FIRST_DIAGNOSIS, "error 8 read l\n"),
        (1, 0, 1, 9, "", "error 9 write\n"),
        (7, 53, 0, 8, "", "error 8 read l\n"),
        (7, 78, 0, 8, FIRST_DIAGNOSIS, "error 8 read l\n"),
        (7, 0, 1, 9, "", "error 9 write\n"),
        (65_536, 5, 0, 8, "", "error 8 read l\n"),
        (65_536, 6, 0, 8, FIRST_DIAGNOSIS, "error 8 read l\n"),
        (65_536, 0, 1, 9, "", "error 9 write\n"),
        (65_536, 0, 2, 9, FIRST_DIAGNOSIS, "error 9 write\n"),
    ];
    for (piece, failing_read, failing_write, code, out, err) in cases {
        let case = Case {
            words: &["correlate", "m", "t", "l", "1", "10"],
            files: &[("m", LINK), ("t", LINKED), ("l", RAISES)],
            piece,
            failing_read,
            failing_write,
        };
        check(&rt, rt.alloc(), &case, &Wanted { code, out, err })?;
    }
    Ok(())
}

// Files with a log of three parts, the second of which is one byte, repeated.
fn in_parts(
    alloc: Global,
    first: &str,
    byte: u8,
    count: usize,
    last: &str,
) -> Result<MemFiles, AllocError> {
    let mut files = MemFiles::new(alloc);
    files.add("m", LINK.as_bytes())?;
    files.add("t", LINKED.as_bytes())?;
    files.add("l", first.as_bytes())?;
    let many = vec![in alloc; byte; count]?;
    files.add("l", &many)?;
    files.add("l", last.as_bytes())?;
    Ok(files)
}

// What a run over these files answers and writes, and how many bytes are left of the log, where a write fails, if not 0.
fn ends<L: Ledger>(
    rt: &(impl Abort + MayCount),
    alloc: Global,
    files: &mut MemFiles,
    failing_write: u64,
    wanted: &Wanted<'_>,
    blank: Blank,
) -> Result<(), AllocError>
    requires name { blank.name ≡ L.name }
    requires parts { blank.parts ≡ L.parts }
    requires some { 0 < L.parts }
{
    let words = words_of(alloc, &["correlate", "m", "t", "l", "1", "10"])?;
    let mut out = MemSink::new(alloc, 4096)?;
    let mut err = MemSink::new(alloc, 4096)?;
    out.fail_at(failing_write)?;
    let mut steps = Steps::<L>::new(rt, blank);
    let status = run(alloc, &words, files, &mut out, &mut err, &mut steps);
    assert_eq!(rt; status.code(), wanted.code);
    assert_eq!(rt; out.bytes(), wanted.out.as_bytes());
    assert_eq!(rt; err.bytes(), wanted.err.as_bytes());
    Ok(())
}

// Whether `run` ends as wanted, in a ledger of its own.
fn ends_so(
    rt: &(impl Abort + MayCount),
    alloc: Global,
    files: &mut MemFiles,
    failing_write: u64,
    wanted: &Wanted<'_>,
) -> Result<(), AllocError> {
    ends::<Brand>(rt, alloc, files, failing_write, wanted, Blank::new(1))
}

#[test]
fn a_log_is_not_read_far_ahead_of_a_failed_write(rt: HostRuntime) -> Result<(), Fail> {
    let alloc = rt.alloc();
    let mut files = in_parts(alloc, RAISES, b'\n', 200_000, "")?;
    let wanted = Wanted {
        code: 9,
        out: "",
        err: "error 9 write\n",
    };
    ends_so(&rt, alloc, &mut files, 1, &wanted)?;
    let left = read_whole(alloc, &mut files, "l", 1 << 20).map_or(0, |rest| rest.len());
    assert!(rt; 134_464 <= left, "{left}");
    Ok(())
}

#[test]
fn a_line_that_is_too_long_is_skipped(rt: HostRuntime) -> Result<(), Fail> {
    let alloc = rt.alloc();
    let raise = "\n{\"at\":1,\"from\":\"c1\",\"raise\":\"Loss@L1\"}";
    let mut files = in_parts(alloc, "nonsense\n[1]\n", b'x', 65_537, raise)?;
    let wanted = Wanted {
        code: 0,
        out: "skipped 1 not-json\nskipped 2 not-object\nskipped 3 long\nbook columns 2 of 3 distance 1 radius 0 groups 4\ndiagnosis c1 1 1 raised 1 unknown 0 distance 0 radius 0 sure groups 1\n  group quiet\n",
        err: "",
    };
    ends_so(&rt, alloc, &mut files, 0, &wanted)?;
    Ok(())
}

#[test]
fn a_log_that_was_read_as_the_model_is_empty(rt: HostRuntime) -> Result<(), Fail> {
    let case = Case {
        words: &["correlate", "m", "t", "m", "1", "10"],
        files: &[("m", LINK), ("t", LINKED)],
        piece: 7,
        failing_read: 0,
        failing_write: 0,
    };
    let wanted = Wanted {
        code: 0,
        out: "",
        err: "",
    };
    check(&rt, rt.alloc(), &case, &wanted)?;
    Ok(())
}

#[test]
fn a_log_that_is_made_up_is_summed_up(rt: HostRuntime) -> Result<(), Fail> {
    let cases: [(&str, &str, u64, u8, &str, &str); 3] = [
        (
            "4",
            "7",
            0,
            0,
            "grow sites 4 start 7\ninstances 19 nodes 46 problems 19 symptoms 18 groups 18\nrecords 3020 skipped 0 refused 508\ndiagnoses 228 sure 44 unknown 256 thin 20 books 20\n",
            "",
        ),
        (
            "1",
            "0",
            0,
            0,
            "grow sites 1 start 0\ninstances 5 nodes 12 problems 5 symptoms 4 groups 5\nrecords 3020 skipped 0 refused 515\ndiagnoses 229 sure 130 unknown 150 thin 20 books 20\n",
            "",
        ),
        ("1", "0", 1, 9, "", "error 9 write\n"),
    ];
    for (sites, start, failing_write, code, out, err) in cases {
        let case = Case {
            words: &["grow", sites, start],
            files: &[],
            piece: 0,
            failing_read: 0,
            failing_write,
        };
        check(&rt, rt.alloc(), &case, &Wanted { code, out, err })?;
    }
    Ok(())
}
