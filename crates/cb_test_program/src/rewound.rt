//! The command `rewind`.
use crate::top::{Case, Wanted, check};
use std::test::Fail;

// A cut link is seen at its ends, too.
const LINKS: &str =
    "class Link {\n  problem Cut;\n  symptom Loss;\n  relation ends to Port many inverse on;\n  rule here: Cut => Loss;\n  rule far: Cut => ends.NoSignal;\n}\nclass Port {\n  problem Fail;\n  symptom NoSignal;\n  relation on to Link one inverse ends;\n  rule down: Fail => NoSignal;\n}\n";

const LINKED: &str = "create L1 Link\ncreate a Port\ncreate b Port\nlink L1 ends a\nlink b on L1\n";

// The matrix of the link and its two ports.
const LINKED_MATRIX: &str =
    "columns 3\n  column Loss@L1\n  column NoSignal@a\n  column NoSignal@b\ngroups 4\n  group 000 quiet\n  group 111 Cut@L1\n  group 010 Fail@a\n  group 001 Fail@b\ndistance 1\n";

// Without the link.
const PORTS_MATRIX: &str =
    "columns 2\n  column NoSignal@a\n  column NoSignal@b\ngroups 3\n  group 00 quiet\n  group 10 Fail@a\n  group 01 Fail@b\ndistance 1\n";

// A node infects those near it.
const SICK: &str =
    "class Node {\n  problem symptom Sick;\n  relation near to Node many inverse near;\n  rule spread: Sick => near.Sick;\n}\n";

const ALONE: &str = "create n1 Node\nlink n1 near n1\n";

const ALONE_MATRIX: &str =
    "columns 1\n  column Sick@n1\ngroups 2\n  group 0 quiet\n  group 1 Sick@n1\ndistance 1\n";

#[test]
fn edits_are_made_and_taken_back(rt: HostRuntime) -> Result<(), Fail> {
    // The model and the topology, the script, the depth, and the answer.
    let cases: [((&str, &str), &str, &str, &str); 10] = [
        ((LINKS, LINKED), "delete L1\nundo\n", "4", LINKED_MATRIX),
        // Of two edits one can be taken back, at depth 1.
        (
            (LINKS, LINKED),
            "mute NoSignal@a\ndelete a\nundo\nundo\n",
            "1",
            "refused 4 nothing\ncolumns 2\n  column Loss@L1\n  column NoSignal@b\ngroups 3\n  group 00 quiet Fail@a\n  group 11 Cut@L1\n  group 01 Fail@b\ndistance 1\n",
        ),
        (
            (LINKS, LINKED),
            "mute NoSignal@a\ndelete a\nundo\nundo\n",
            "2",
            LINKED_MATRIX,
        ),
        // A link of an instance to itself comes back once.
        (
            (SICK, ALONE),
            "delete n1\nundo\nunlink n1 near n1\n",
            "4",
            ALONE_MATRIX,
        ),
        // An empty script, and one without a move.
        ((LINKS, LINKED), "", "1024", LINKED_MATRIX),
        (
            (LINKS, LINKED),
            "# delete L1\n\n \t\r\n  #undo",
            "1",
            LINKED_MATRIX,
        ),
        // Lines that end with CR and LF, the last one without.
        (
            (LINKS, LINKED),
            "# a trial\r\ndelete L1\r\n\r\n undo \r\ndelete\tL1",
            "3",
            PORTS_MATRIX,
        ),
        // A refused edit isn't taken back: the undo takes back the edit before it.
        (
            (LINKS, LINKED),
            "delete L1\ndelete L1\nundo\nundo\n",
            "3",
            "refused 2 no-instance\nrefused 4 nothing\ncolumns 3\n  column Loss@L1\n  column NoSignal@a\n  column NoSignal@b\ngroups 4\n  group 000 quiet\n  group 111 Cut@L1\n  group 010 Fail@a\n  group 001 Fail@b\ndistance 1\n",
        ),
        // Past the depth the oldest is forgotten.
        (
            (LINKS, LINKED),
            "delete L1\nmute NoSignal@a\nunmute NoSignal@a\nundo\nundo\nundo\n",
            "2",
            "refused 6 nothing\ncolumns 2\n  column NoSignal@a\n  column NoSignal@b\ngroups 3\n  group 00 quiet\n  group 10 Fail@a\n  group 01 Fail@b\ndistance 1\n",
        ),
        // Each kind of edit is taken back.
        (
            (LINKS, LINKED),
            "create c Port\nlink L1 ends c\nmute Loss@L1\nunmute Loss@L1\nunlink a on L1\nundo\nundo\nundo\nundo\nundo\n",
            "5",
            LINKED_MATRIX,
        ),
    ];
    for ((model, topology), script, depth, out) in cases {
        let case = Case {
            words: &["rewind", "m", "t", "s", depth],
            files: &[("m", model), ("t", topology), ("s", script)],
            piece: 0,
            failing_read: 0,
            failing_write: 0,
        };
        let wanted = Wanted {
            code: 0,
            out,
            err: "",
        };
        check(&rt, rt.alloc(), &case, &wanted)?;
    }
    Ok(())
}

#[test]
fn scripts_are_judged_before_the_job(rt: HostRuntime) -> Result<(), Fail> {
    // The topology, the script, the depth, the status and the line.
    let cases: [(&str, &str, &str, u8, &str); 10] = [
        (
            LINKED,
            "delete L1\n\nundo now\nno\n",
            "1",
            4,
            "error 4 script line 3 bad-words\n",
        ),
        (
            LINKED,
            "undo\nUndo\n",
            "1",
            4,
            "error 4 script line 2 bad-words\n",
        ),
        (
            LINKED,
            "delete class@L1\r\n",
            "1",
            4,
            "error 4 script line 1 bad-words\n",
        ),
        (
            LINKED,
            "create c Port # new\n",
            "1",
            4,
            "error 4 script line 1 bad-words\n",
        ),
        // The topology is judged before it.
        (
            "undo\n",
            "undo now\n",
            "1",
            4,
            "error 4 topology line 1 bad-words\n",
        ),
        (LINKED, "undo\n", "0", 2, "error 2 usage\n"),
        (LINKED, "undo\n", "1025", 2, "error 2 usage\n"),
        (LINKED, "undo\n", "01", 2, "error 2 usage\n"),
        (LINKED, "undo\n", "", 2, "error 2 usage\n"),
        (LINKED, "undo\n", "cap3", 2, "error 2 usage\n"),
    ];
    for (topology, script, depth, code, err) in cases {
        let case = Case {
            words: &["rewind", "m", "t", "s", depth],
            files: &[("m", LINKS), ("t", topology), ("s", script)],
            piece: 0,
            failing_read: 0,
            failing_write: 0,
        };
        check(&rt, rt.alloc(), &case, &Wanted { code, out: "", err })?;
    }
    Ok(())
}

#[test]
fn calls_fail_in_a_script(rt: HostRuntime) -> Result<(), Fail> {
    // The name of the script, the read and the write that fail, if not 0, the status, the output and the line.
    let cases: [(&str, (u64, u64), u8, &str, &str); 5] = [
        ("-", (0, 0), 0, "refused 1 nothing\n", ""),
        ("x", (0, 0), 8, "", "error 8 read x\n"),
        ("-", (3, 0), 8, "", "error 8 read -\n"),
        ("-", (0, 1), 9, "", "error 9 write\n"),
        ("-", (0, 2), 9, "refused 1 nothing\n", "error 9 write\n"),
    ];
    for (name, (failing_read, failing_write), code, reported, err) in cases {
        let case = Case {
            words: &["rewind", "m", "t", name, "1"],
            files: &[("m", ""), ("t", ""), ("-", "undo\n")],
            piece: 0,
            failing_read,
            failing_write,
        };
        let out = if code == 0 {
            "refused 1 nothing\ncolumns 0\ngroups 1\n  group - quiet\ndistance none\n"
        } else {
            reported
        };
        check(&rt, rt.alloc(), &case, &Wanted { code, out, err })?;
    }
    Ok(())
}
