//! The top call, over files and sinks in memory.
ghost use Rattle.std.specs.Prelude.{◌≡◌, ◌<◌};

use cb_io::{MemFiles, MemSink};
use cb_steps::{MayCount, Steps};
use cb_top::{Status, run};
use std::alloc::{AllocError, Global};
use std::marker::Brand;
use std::process::Abort;
use std::str::from_utf8;
use std::sync::ledger::{Blank, Ledger};
use std::test::Fail;

pub(crate) const QUIET: &str =
    "burst raised 0 unknown 0 distance 0 radius 0 sure groups 1\n  group quiet\n";

// A worn pump makes noise and heat, and one that runs dry makes heat and low flow.
const PUMP: &str =
    "class Pump {\n  problem Worn;\n  problem Dry;\n  symptom Noise;\n  symptom Heat;\n  symptom LowFlow;\n  rule n: Worn => Noise;\n  rule h: Worn => Heat;\n  rule h2: Dry => Heat;\n  rule f: Dry => LowFlow;\n}\n";

// `PUMP` in one line, with a comment.
const PUMP_IN_A_LINE: &str =
    "class Pump{problem Worn;problem Dry;symptom Noise;symptom Heat;symptom LowFlow;rule n:Worn=>Noise;rule h:Worn=>Heat;rule h2:Dry=>Heat;rule f:Dry=>LowFlow;}#x";

// A cut link silences both its ports.
pub(crate) const LINK: &str =
    "class Link {\n  problem Cut;\n  symptom Loss;\n  relation ends to Port many inverse on;\n  rule here: Cut => Loss;\n  rule far: Cut => ends.NoSignal;\n}\nclass Port {\n  problem Fail;\n  symptom NoSignal;\n  relation on to Link one inverse ends;\n  rule down: Fail => NoSignal;\n}\n";

// A link with its two ports; and the same with a comment, an empty line and a mute.
pub(crate) const LINKED: &str =
    "create L1 Link\ncreate a Port\ncreate b Port\nlink L1 ends a\nlink b on L1\n";

const LINKED_AND_MUTED: &str =
    "# core site\r\n\r\ncreate L1 Link\r\ncreate a Port\r\ncreate b Port\r\nlink L1 ends a\r\nlink b on L1\r\nmute NoSignal@b";

// What is sick makes its neighbours sick.
const NODE: &str =
    "class Node {\n  problem symptom Sick;\n  relation near to Node many inverse near;\n  rule spread: Sick => near.Sick;\n}\n";

const CHAIN: &str =
    "create n1 Node\ncreate n2 Node\ncreate n3 Node\nlink n1 near n2\nlink n2 near n3\n";

// Two fans that no symptom tells apart, and one that is in no box.
const FAN: &str =
    "class Fan {\n  problem Stop;\n  relation box to Box one inverse fans;\n  rule r: Stop => box.Hot;\n}\nclass Box {\n  symptom Hot;\n  relation fans to Fan many inverse box;\n}\n";

const FANS: &str =
    "create B Box\ncreate f1 Fan\ncreate f2 Fan\ncreate f3 Fan\nlink f1 box B\nlink f2 box B\n";

// A class that blocks a rule, and one that hides a symptom.
const BASE: &str =
    "class Base {\n  problem P;\n  symptom S;\n  symptom T;\n  rule s: P => S;\n  rule t: P => T;\n}\nclass Mid extends Base {\n  block t;\n}\nclass Low extends Mid {\n  hide T;\n}\n";

const BASES: &str = "create x Base\ncreate y Mid\ncreate z Low\n";

// An instance whose name has 63 bytes, the most, and one whose name has 64.
const CREATE_63: &str =
    "create p23456789012345678901234567890123456789012345678901234567890123 Pump\n";

const CREATE_64: &str =
    "create p234567890123456789012345678901234567890123456789012345678901234 Pump\n";

/// What a run is made on: the words, the files, and what the outside does to it.
#[derive(Clone, Copy)]
pub(crate) struct Case<'a> {
    pub words: &'a [&'a str],
    pub files: &'a [(&'a str, &'a str)],
    pub piece: usize,
    pub failing_read: u64,
    pub failing_write: u64,
}

/// What is wanted of it.
#[derive(Clone, Copy)]
pub(crate) struct Wanted<'a> {
    pub code: u8,
    pub out: &'a str,
    pub err: &'a str,
}

pub(crate) fn words_of(alloc: Global, words: &[&str]) -> Result<Vec<String>, AllocError> {
    let mut all = Vec::new(alloc);
    for word in words {
        all.push(String::from_str(alloc, word)?)?;
    }
    Ok(all)
}

fn files_of(alloc: Global, case: &Case<'_>) -> Result<MemFiles, AllocError> {
    let mut files = MemFiles::new(alloc);
    for (name, bytes) in case.files {
        files.add(name, bytes.as_bytes())?;
    }
    if case.piece > 0 {
        files.piece(case.piece);
    }
    files.fail_at(case.failing_read)?;
    Ok(files)
}

// What a run over files and sinks in memory answers and writes.
fn ran<L: Ledger>(
    rt: &(impl Abort + MayCount),
    alloc: Global,
    case: &Case<'_>,
    wanted: &Wanted<'_>,
    blank: Blank,
) -> Result<(), AllocError>
    requires name { blank.name ≡ L.name }
    requires parts { blank.parts ≡ L.parts }
    requires some { 0 < L.parts }
{
    let words = words_of(alloc, case.words)?;
    let mut files = files_of(alloc, case)?;
    let mut out = MemSink::new(alloc, 4096)?;
    let mut err = MemSink::new(alloc, 4096)?;
    if case.piece > 0 {
        out.piece(case.piece);
    }
    out.fail_at(case.failing_write)?;
    let mut steps = Steps::<L>::new(rt, blank);
    let status = run(alloc, &words, &mut files, &mut out, &mut err, &mut steps);
    assert_eq!(rt; status.code(), wanted.code);
    assert_eq!(rt; out.bytes(), wanted.out.as_bytes());
    assert_eq!(rt; err.bytes(), wanted.err.as_bytes());
    Ok(())
}

// Runs the case in a ledger of its own.
pub(crate) fn check(
    rt: &(impl Abort + MayCount),
    alloc: Global,
    case: &Case<'_>,
    wanted: &Wanted<'_>,
) -> Result<(), AllocError> {
    ran::<Brand>(rt, alloc, case, wanted, Blank::new(1))
}

const EMPTY: &[(&str, &str)] = &[("m", ""), ("t", ""), ("s", "")];

#[test]
fn empty_files_are_quiet_in_any_pieces(rt: HostRuntime) -> Result<(), Fail> {
    for piece in [0, 1, 7] {
        let case = Case {
            words: &["burst", "m", "t", "s"],
            files: EMPTY,
            piece,
            failing_read: 0,
            failing_write: 0,
        };
        let wanted = Wanted {
            code: 0,
            out: QUIET,
            err: "",
        };
        check(&rt, rt.alloc(), &case, &wanted)?;
    }
    Ok(())
}

#[test]
fn a_failed_read_names_its_file(rt: HostRuntime) -> Result<(), Fail> {
    // The names that were added, the read that fails, if not 0, and the line.
    let cases: [(&[(&str, &str)], u64, &str); 5] = [
        (&[("m", ""), ("s", "")], 0, "error 8 read t\n"),
        (&[], 0, "error 8 read m\n"),
        (EMPTY, 1, "error 8 read m\n"),
        (EMPTY, 2, "error 8 read t\n"),
        (EMPTY, 3, "error 8 read s\n"),
    ];
    for (files, failing_read, err) in cases {
        let case = Case {
            words: &["burst", "m", "t", "s"],
            files,
            piece: 0,
            failing_read,
            failing_write: 0,
        };
        let wanted = Wanted {
            code: 8,
            out: "",
            err,
        };
        check(&rt, rt.alloc(), &case, &wanted)?;
    }
    Ok(())
}

#[test]
fn a_fault_is_reported_before_the_next_file_is_read(rt: HostRuntime) -> Result<(), Fail> {
    // The files that are there, the status and the line.
    let cases: [(&[(&str, &str)], u8, &str); 2] = [
        (&[("m", "class A {\n")], 3, "error 3 model unfinished\n"),
        (
            &[("m", ""), ("t", "create\n")],
            4,
            "error 4 topology line 1 bad-words\n",
        ),
    ];
    for (files, code, err) in cases {
        let case = Case {
            words: &["burst", "m", "t", "s"],
            files,
            piece: 0,
            failing_read: 0,
            failing_write: 0,
        };
        let wanted = Wanted { code, out: "", err };
        check(&rt, rt.alloc(), &case, &wanted)?;
    }
    Ok(())
}

#[test]
fn a_refused_write_leaves_a_prefix(rt: HostRuntime) -> Result<(), Fail> {
    for (failing_write, out) in [(1, ""), (2, "burst r"), (3, "burst raised 0")] {
        let case = Case {
            words: &["burst", "m", "t", "s"],
            files: EMPTY,
            piece: 7,
            failing_read: 0,
            failing_write,
        };
        let wanted = Wanted {
            code: 9,
            out,
            err: "error 9 write\n",
        };
        check(&rt, rt.alloc(), &case, &wanted)?;
    }
    Ok(())
}

/// A run that comes to its end: the words, the files in the order in which they are read, and the output.
#[derive(Clone, Copy)]
struct Worked<'a> {
    words: &'a [&'a str],
    files: &'a [(&'a str, &'a str)],
    out: &'a str,
}

// How many bytes a read gives at most, and a write takes.
const PIECE: usize = 7;

const WORKED: [Worked<'static>; 4] = [
    Worked {
        words: &["model", "m"],
        files: &[("m", LINK)],
        out: LINK,
    },
    Worked {
        words: &["burst", "m", "t", "s"],
        files: &[
            ("m", PUMP_IN_A_LINE),
            ("t", "create p1 Pump\n"),
            ("s", "Heat@p1\n"),
        ],
        out: "burst raised 1 unknown 0 distance 1 radius 0 unsure groups 3\n  group quiet\n  group Dry@p1\n  group Worn@p1\n",
    },
    Worked {
        words: &["burst", "m", "t", "s"],
        files: &[("m", LINK), ("t", LINKED_AND_MUTED), ("s", "NoSignal@b\n")],
        out: "burst raised 1 unknown 1 distance 0 radius 0 sure groups 1\n  group quiet Fail@b\n",
    },
    Worked {
        words: &["burst", "m", "t", "s"],
        files: &[("m", NODE), ("t", CHAIN), ("s", "Sick@n1\nSick@n3\n")],
        out: "burst raised 2 unknown 0 distance 1 radius 1 sure groups 1\n  group Sick@n1 Sick@n2 Sick@n3\n",
    },
];

// The run in small pieces, in which these calls fail.
fn in_pieces<'a>(worked: &Worked<'a>, failing_read: u64, failing_write: u64) -> Case<'a> {
    Case {
        words: worked.words,
        files: worked.files,
        piece: PIECE,
        failing_read,
        failing_write,
    }
}

// Each read fails in turn: the line names its file, and there is no output.
fn each_read_fails(
    rt: &(impl Abort + MayCount),
    alloc: Global,
    worked: &Worked<'_>,
) -> Result<(), AllocError> {
    let mut read = 0_u64;
    for (name, text) in worked.files {
        let err = format!(in alloc; "error 8 read {name}\n")?;
        let wanted = Wanted {
            code: 8,
            out: "",
            err: err.as_str(),
        };
        // One read for each piece, and one that finds the end.
        for _ in 0..=text.as_bytes().chunks(PIECE).len() {
            read = read.saturating_add(1);
            check(rt, alloc, &in_pieces(worked, read, 0), &wanted)?;
        }
    }
    let wanted = Wanted {
        code: 0,
        out: worked.out,
        err: "",
    };
    check(
        rt,
        alloc,
        &in_pieces(worked, read.saturating_add(1), 0),
        &wanted,
    )
}

// Each write fails in turn: the output has the pieces before it.
fn each_write_fails(
    rt: &(impl Abort + MayCount),
    alloc: Global,
    worked: &Worked<'_>,
) -> Result<(), Fail> {
    let mut write = 0_u64;
    let mut prefix = Vec::new(alloc);
    for piece in worked.out.as_bytes().chunks(PIECE) {
        write = write.saturating_add(1);
        let Ok(out) = from_utf8(&prefix) else {
            return Err(Fail::new("a prefix of the output is text"));
        };
        let wanted = Wanted {
            code: 9,
            out,
            err: "error 9 write\n",
        };
        check(rt, alloc, &in_pieces(worked, 0, write), &wanted)?;
        prefix.extend_from_slice(piece)?;
    }
    let wanted = Wanted {
        code: 0,
        out: worked.out,
        err: "",
    };
    check(
        rt,
        alloc,
        &in_pieces(worked, 0, write.saturating_add(1)),
        &wanted,
    )?;
    Ok(())
}

#[test]
fn each_call_fails_in_turn(rt: HostRuntime) -> Result<(), Fail> {
    for worked in WORKED {
        each_read_fails(&rt, rt.alloc(), &worked)?;
        each_write_fails(&rt, rt.alloc(), &worked)?;
    }
    Ok(())
}

#[test]
fn words_are_a_command_or_not(rt: HostRuntime) -> Result<(), Fail> {
    const USAGE: (u8, &str) = (2, "error 2 usage\n");
    let cases: [(&[&str], (u8, &str)); 27] = [
        (&[], USAGE),
        (&["burst", "m", "t"], USAGE),
        (&["Burst", "m", "t", "s"], USAGE),
        (&["model"], USAGE),
        (&["matrix", "m"], USAGE),
        (&["codebook", "m", "t", "0"], USAGE),
        (&["codebook", "m", "t", "10000"], USAGE),
        (&["codebook", "m", "t", "01"], USAGE),
        (&["decode", "m", "t", "c", "l", "1000000000001"], USAGE),
        (&["decode", "m", "t", "c", "l", "0"], USAGE),
        (&["correlate", "m", "t", "l", "10", "0"], USAGE),
        (&["correlate", "m", "t", "l", "cap0", "10"], USAGE),
        (&["correlate", "m", "t", "l", "cap03", "10"], USAGE),
        (&["correlate", "m", "t", "l", "cap", "10"], USAGE),
        (&["correlate", "m", "t", "l", "cap10000", "10"], USAGE),
        (&["correlate", "m", "t", "l", "3", "cap10"], USAGE),
        (&["codebook", "m", "t", "cap0"], USAGE),
        (&["codebook", "m", "t", "cap03"], USAGE),
        (&["codebook", "m", "t", "cap"], USAGE),
        (&["grow", "257", "0"], USAGE),
        (&["grow", "0", "7"], USAGE),
        (&["grow", "4", "18446744073709551616"], USAGE),
        (&["explain", "m", "t"], USAGE),
        (&["levels", "m", "t", "Sick"], USAGE),
        (&["levels", "m", "t", "Sick@n1@n2"], USAGE),
        (&["levels", "m", "t", "rule@n1"], USAGE),
        (&["prove", "m", "t"], USAGE),
    ];
    for (words, (code, err)) in cases {
        let case = Case {
            words,
            files: EMPTY,
            piece: 0,
            failing_read: 0,
            failing_write: 0,
        };
        let wanted = Wanted { code, out: "", err };
        check(&rt, rt.alloc(), &case, &wanted)?;
    }
    Ok(())
}

#[test]
fn a_model_is_printed_or_has_a_fault(rt: HostRuntime) -> Result<(), Fail> {
    // The text, the status, the output and the line.
    let cases: [(&str, u8, &str, &str); 10] = [
        (
            "class A{problem P;symptom S;rule r:P=>S;}#x",
            0,
            "class A {\n  problem P;\n  symptom S;\n  rule r: P => S;\n}\n",
            "",
        ),
        ("", 0, "", ""),
        (LINK, 0, LINK, ""),
        (
            "class A { problem class; }",
            3,
            "",
            "error 3 model line 1 column 19 unexpected\n",
        ),
        (
            "class A {\n  rule r: E => F;\n}\nclass A { }",
            3,
            "",
            "error 3 model line 4 two-classes\n",
        ),
        (
            "class A { event E; } class B extends A { problem E; }",
            3,
            "",
            "error 3 model line 1 two-names\n",
        ),
        (
            "class A extends B { } class B extends A { }",
            3,
            "",
            "error 3 model line 1 loop\n",
        ),
        (
            "class aaaaaaaaaaaaaaaaaaaaaaaaaaaaaaaaaaaaaaaaaaaaaaaaaaaaaaaaaaaaaaaa",
            3,
            "",
            "error 3 model line 1 long-name\n",
        ),
        ("class A {\n  = ", 3, "", "error 3 model line 2 bad-byte\n"),
        ("class A {\n", 3, "", "error 3 model unfinished\n"),
    ];
    for (model, code, out, err) in cases {
        let case = Case {
            words: &["model", "m"],
            files: &[("m", model)],
            piece: 7,
            failing_read: 0,
            failing_write: 0,
        };
        let wanted = Wanted { code, out, err };
        check(&rt, rt.alloc(), &case, &wanted)?;
    }
    Ok(())
}

#[test]
fn a_pump_is_known_by_its_symptoms(rt: HostRuntime) -> Result<(), Fail> {
    // The topology, the symptoms, and the answer.
    let cases: [(&str, &str, &str); 7] = [
        (
            CREATE_63,
            "Heat@p1\n",
            "burst raised 1 unknown 1 distance 0 radius 0 sure groups 1\n  group quiet\n",
        ),
        (
            "create p1 Pump\n",
            "Noise@p1\nHeat@p1\n",
            "burst raised 2 unknown 0 distance 0 radius 0 sure groups 1\n  group Worn@p1\n",
        ),
        (
            "create p1 Pump\n",
            "Heat@p1\n",
            "burst raised 1 unknown 0 distance 1 radius 0 unsure groups 3\n  group quiet\n  group Dry@p1\n  group Worn@p1\n",
        ),
        (
            "create p1 Pump\n",
            "Noise@p1\nNoise@p1\nHeat@p1\nNoise@p9\n",
            "burst raised 3 unknown 1 distance 0 radius 0 sure groups 1\n  group Worn@p1\n",
        ),
        (
            "# two\r\n\r\n\tcreate p2 Pump \r\ncreate p1 Pump",
            " Heat@p2\r\n#\r\nLowFlow@p2",
            "burst raised 2 unknown 0 distance 0 radius 0 sure groups 1\n  group Dry@p2\n",
        ),
        (
            "",
            "Heat@p1\n",
            "burst raised 1 unknown 1 distance 0 radius 0 sure groups 1\n  group quiet\n",
        ),
        (
            "create p1 Pump\n",
            "",
            "burst raised 0 unknown 0 distance 0 radius 0 sure groups 1\n  group quiet\n",
        ),
    ];
    for model in [PUMP, PUMP_IN_A_LINE] {
        for (topology, symptoms, out) in cases {
            let case = Case {
                words: &["burst", "m", "t", "s"],
                files: &[("m", model), ("t", topology), ("s", symptoms)],
                piece: 7,
                failing_read: 0,
                failing_write: 0,
            };
            let wanted = Wanted {
                code: 0,
                out,
                err: "",
            };
            check(&rt, rt.alloc(), &case, &wanted)?;
        }
    }
    Ok(())
}

#[test]
fn links_are_known_by_their_symptoms(rt: HostRuntime) -> Result<(), Fail> {
    // The model, the topology, the symptoms, and the answer.
    let cases: [(&str, &str, &str, &str); 4] = [
        (
            LINK,
            LINKED,
            "NoSignal@a\nNoSignal@b\n",
            "burst raised 2 unknown 0 distance 1 radius 0 unsure groups 3\n  group Cut@L1\n  group Fail@a\n  group Fail@b\n",
        ),
        (
            LINK,
            LINKED,
            "Loss@L1\n",
            "burst raised 1 unknown 0 distance 1 radius 0 unsure groups 1\n  group quiet\n",
        ),
        (
            NODE,
            CHAIN,
            "Sick@n1\nSick@n3\n",
            "burst raised 2 unknown 0 distance 1 radius 1 sure groups 1\n  group Sick@n1 Sick@n2 Sick@n3\n",
        ),
        (
            LINK,
            LINKED_AND_MUTED,
            "NoSignal@b\n",
            "burst raised 1 unknown 1 distance 0 radius 0 sure groups 1\n  group quiet Fail@b\n",
        ),
    ];
    for (model, topology, symptoms, out) in cases {
        let case = Case {
            words: &["burst", "m", "t", "s"],
            files: &[("m", model), ("t", topology), ("s", symptoms)],
            piece: 7,
            failing_read: 0,
            failing_write: 0,
        };
        let wanted = Wanted {
            code: 0,
            out,
            err: "",
        };
        check(&rt, rt.alloc(), &case, &wanted)?;
    }
    Ok(())
}

#[test]
fn a_matrix_is_printed(rt: HostRuntime) -> Result<(), Fail> {
    // The model, the topology, and the answer.
    let cases: [(&str, &str, &str); 5] = [
        (
            LINK,
            LINKED,
            "columns 3\n  column Loss@L1\n  column NoSignal@a\n  column NoSignal@b\ngroups 4\n  group 000 quiet\n  group 111 Cut@L1\n  group 010 Fail@a\n  group 001 Fail@b\ndistance 1\n",
        ),
        (
            LINK,
            "",
            "columns 0\ngroups 1\n  group - quiet\ndistance none\n",
        ),
        (
            FAN,
            FANS,
            "columns 1\n  column Hot@B\ngroups 2\n  group 0 quiet Stop@f3\n  group 1 Stop@f1 Stop@f2\ndistance 1\n",
        ),
        (
            NODE,
            CHAIN,
            "columns 3\n  column Sick@n1\n  column Sick@n2\n  column Sick@n3\ngroups 2\n  group 000 quiet\n  group 111 Sick@n1 Sick@n2 Sick@n3\ndistance 3\n",
        ),
        (
            BASE,
            BASES,
            "columns 5\n  column S@x\n  column T@x\n  column S@y\n  column T@y\n  column S@z\ngroups 4\n  group 00000 quiet\n  group 11000 P@x\n  group 00100 P@y\n  group 00001 P@z\ndistance 1\n",
        ),
    ];
    for (model, topology, out) in cases {
        let case = Case {
            words: &["matrix", "m", "t"],
            files: &[("m", model), ("t", topology)],
            piece: 7,
            failing_read: 0,
            failing_write: 0,
        };
        let wanted = Wanted {
            code: 0,
            out,
            err: "",
        };
        check(&rt, rt.alloc(), &case, &wanted)?;
    }
    Ok(())
}

#[test]
fn a_wrong_line_is_reported(rt: HostRuntime) -> Result<(), Fail> {
    // The model, the topology, the symptoms, and the line.
    let cases: [(&str, &str, &str, &str); 14] = [
        (PUMP, CREATE_64, "", "error 4 topology line 1 bad-words\n"),
        (
            PUMP,
            "create p1\n",
            "",
            "error 4 topology line 1 bad-words\n",
        ),
        (
            PUMP,
            "create p1 Pump now\n",
            "",
            "error 4 topology line 1 bad-words\n",
        ),
        (
            PUMP,
            "create p@1 Pump\n",
            "",
            "error 4 topology line 1 bad-words\n",
        ),
        (
            PUMP,
            "create p1 pump\n",
            "",
            "error 4 topology line 1 no-class\n",
        ),
        (
            PUMP,
            "# one\n\ncreate p1 Pump\nlink p1 feeds p1\n",
            "",
            "error 4 topology line 4 no-relation\n",
        ),
        (
            PUMP,
            "create p1 Pump\nmute Worn@p1\n",
            "",
            "error 4 topology line 2 no-symptom\n",
        ),
        (
            LINK,
            "create a Port\ncreate a Port\n",
            "",
            "error 4 topology line 2 exists\n",
        ),
        (
            LINK,
            "create L1 Link\ncreate a Port\nlink a on L1\nlink L1 ends a\n",
            "",
            "error 4 topology line 4 linked\n",
        ),
        (
            LINK,
            "create L1 Link\ncreate a Port\nlink a on L1\nunlink L1 ends a\nunlink a on L1\n",
            "",
            "error 4 topology line 5 not-linked\n",
        ),
        (PUMP, "", "x\n", "error 4 symptoms line 1 bad-name\n"),
        (
            PUMP,
            "create p1 Pump\n",
            "Heat@p1\n\nHeat\n",
            "error 4 symptoms line 3 bad-name\n",
        ),
        (
            PUMP,
            "create p1 Pump\n",
            "Heat@p1 Noise@p1\n",
            "error 4 symptoms line 1 bad-name\n",
        ),
        // The topology is judged before the symptoms.
        (PUMP, "x\n", "x\n", "error 4 topology line 1 bad-words\n"),
    ];
    for (model, topology, symptoms, err) in cases {
        let case = Case {
            words: &["burst", "m", "t", "s"],
            files: &[("m", model), ("t", topology), ("s", symptoms)],
            piece: 0,
            failing_read: 0,
            failing_write: 0,
        };
        let wanted = Wanted {
            code: 4,
            out: "",
            err,
        };
        check(&rt, rt.alloc(), &case, &wanted)?;
    }
    Ok(())
}
