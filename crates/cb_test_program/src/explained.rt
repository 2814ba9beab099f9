//! The commands `explain`, `levels` and `prove`.
use crate::top::{Case, Wanted, check};
use std::test::Fail;

// A box that is dead shuts down its ports.
const BOX: &str =
    "class Box {\n  problem Dead;\n  symptom Silent;\n  relation ports to Port many inverse box;\n  rule own: Dead => Silent;\n  rule down: Dead => ports.Down;\n}\nclass Port {\n  problem Down;\n  symptom NoSignal;\n  relation box to Box one inverse ports;\n  rule s: Down => NoSignal;\n}\n";

const BOXED: &str = "create b1 Box\ncreate p1 Port\nlink b1 ports p1\n";

const BOX_LEVELS: &str =
    "codebook levels 1\nnodes 4\nnode Dead@b1\nnode Silent@b1\nnode Down@p1\nnode NoSignal@p1\nentries 4\nentry 1 0 0\nentry 2 1 1\nentry 3 1 1\nentry 4 2 3\nend\n";

// Who is sick infects the next ones. The first leads to both others, and the third back to the first.
const SICK: &str =
    "class Node {\n  problem symptom Sick;\n  relation next to Node many inverse back;\n  relation back to Node many inverse next;\n  rule spread: Sick => next.Sick;\n}\n";

const RING: &str =
    "create n1 Node\ncreate n2 Node\ncreate n3 Node\nlink n1 next n2\nlink n2 next n3\nlink n1 next n3\nlink n3 next n1\n";

// The levels of a chain that isn't the shortest.
const LONG_WAY: &str =
    "codebook levels 1\nnodes 3\nnode Sick@n1\nnode Sick@n2\nnode Sick@n3\nentries 3\nentry 1 0 0\nentry 2 1 1\nentry 3 2 2\nend\n";

#[test]
fn chains_are_listed_below_their_group(rt: HostRuntime) -> Result<(), Fail> {
    // The model and the topology, the symptoms, and the answer.
    let cases: [((&str, &str), &str, &str); 4] = [
        (
            (BOX, BOXED),
            "Silent@b1\nNoSignal@p1\n",
            "explain raised 2 unknown 0 distance 0 radius 0 sure groups 1\n  group Dead@b1\n    chain 1 Dead@b1 Silent@b1\n    chain 2 Dead@b1 Down@p1 NoSignal@p1\n",
        ),
        (
            (BOX, BOXED),
            "Silent@b1\n",
            "explain raised 1 unknown 0 distance 1 radius 0 unsure groups 2\n  group quiet\n  group Dead@b1\n    chain 1 Dead@b1 Silent@b1\n    chain 2 Dead@b1 Down@p1 NoSignal@p1\n",
        ),
        (
            (BOX, BOXED),
            "",
            "explain raised 0 unknown 0 distance 0 radius 0 sure groups 1\n  group quiet\n",
        ),
        (
            (SICK, RING),
            "Sick@n1\nSick@n2\nSick@n3\n",
            "explain raised 3 unknown 0 distance 0 radius 1 sure groups 1\n  group Sick@n1 Sick@n2 Sick@n3\n    chain 0 Sick@n1\n    chain 1 Sick@n1 Sick@n2\n    chain 1 Sick@n1 Sick@n3\n    chain 2 Sick@n2 Sick@n3 Sick@n1\n    chain 0 Sick@n2\n    chain 1 Sick@n2 Sick@n3\n    chain 1 Sick@n3 Sick@n1\n    chain 2 Sick@n3 Sick@n1 Sick@n2\n    chain 0 Sick@n3\n",
        ),
    ];
    for ((model, topology), symptoms, out) in cases {
        let case = Case {
            words: &["explain", "m", "t", "s"],
            files: &[("m", model), ("t", topology), ("s", symptoms)],
            piece: 0,
            failing_read: 0,
            failing_write: 0,
        };
        let wanted = Wanted {
            code: 0,
            out,
            err: "",
        };
        check(&rt, rt.alloc(), &case, &wanted)?;
    }
    Ok(())
}

#[test]
fn levels_are_of_a_problem(rt: HostRuntime) -> Result<(), Fail> {
    // The model and the topology, the node, the status, the output and the line.
    let cases: [((&str, &str), &str, u8, &str, &str); 5] = [
        ((BOX, BOXED), "Dead@b1", 0, BOX_LEVELS, ""),
        (
            (SICK, RING),
            "Sick@n1",
            0,
            "codebook levels 1\nnodes 3\nnode Sick@n1\nnode Sick@n2\nnode Sick@n3\nentries 3\nentry 1 0 0\nentry 2 1 1\nentry 3 1 1\nend\n",
            "",
        ),
        (
            (BOX, BOXED),
            "Silent@b1",
            12,
            "",
            "error 12 problem Silent@b1\n",
        ),
        (
            (SICK, RING),
            "Sick@n9",
            12,
            "",
            "error 12 problem Sick@n9\n",
        ),
        ((SICK, RING), "Sick", 2, "", "error 2 usage\n"),
    ];
    for ((model, topology), node, code, out, err) in cases {
        let case = Case {
            words: &["levels", "m", "t", node],
            files: &[("m", model), ("t", topology)],
            piece: 0,
            failing_read: 0,
            failing_write: 0,
        };
        check(&rt, rt.alloc(), &case, &Wanted { code, out, err })?;
    }
    Ok(())
}

#[test]
fn levels_are_proved_or_rejected(rt: HostRuntime) -> Result<(), Fail> {
    // The model and the topology, the text, the status, the output and the line.
    let cases: [((&str, &str), &str, u8, &str, &str); 5] = [
        (
            (BOX, BOXED),
            BOX_LEVELS,
            0,
            "accepted levels Dead@b1 reached 4 deepest 2\n",
            "",
        ),
        (
            (BOX, BOXED),
            "codebook levels 1\nnodes 4\nnode Dead@b1\nnode Silent@b1\nnode Down@p1\nnode NoSignal@p1\nentries 4\nentry 1 0 0\nentry 2 1 1\nentry 3 1 1\nentry 4 3 3\nend\n",
            5,
            "",
            "error 5 levels bad-level entry 4\n",
        ),
        (
            (SICK, RING),
            LONG_WAY,
            5,
            "",
            "error 5 levels not-short entry 1 successor Sick@n3\n",
        ),
        (
            (SICK, RING),
            "codebook certificate 1\n",
            5,
            "",
            "error 5 levels bad-header\n",
        ),
        ((SICK, RING), "", 5, "", "error 5 levels truncated\n"),
    ];
    for ((model, topology), text, code, out, err) in cases {
        let case = Case {
            words: &["prove", "m", "t", "l"],
            files: &[("m", model), ("t", topology), ("l", text)],
            piece: 0,
            failing_read: 0,
            failing_write: 0,
        };
        check(&rt, rt.alloc(), &case, &Wanted { code, out, err })?;
    }
    Ok(())
}
