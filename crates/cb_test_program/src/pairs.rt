//! The command `pairs`.
use crate::top::{Case, LINK, LINKED, Wanted, check};
use cb_steps::MayCount;
use std::alloc::{AllocError, Global};
use std::process::Abort;
use std::test::Fail;

// Each raises its own alarm and that of the next one; each two of three in a circle raise all.
const CIRCLE: &str =
    "class T {\n  problem P;\n  symptom S;\n  relation next to T one inverse back;\n  relation back to T one inverse next;\n  rule own: P => S;\n  rule far: P => next.S;\n}\n";

const THREE: &str =
    "create a T\ncreate b T\ncreate c T\nlink a next b\nlink b next c\nlink c next a\n";

#[test]
fn one_fault_or_two_are_listed(rt: HostRuntime) -> Result<(), Fail> {
    // The model, the topology, the symptoms, and the answer.
    let cases: [(&str, &str, &str, &str); 6] = [
        (
            LINK,
            LINKED,
            "NoSignal@a\nNoSignal@b\n",
            "pairs raised 2 unknown 0 distance 0 radius 0 sure fits 1\n  fit Fail@a and Fail@b\n",
        ),
        (
            LINK,
            LINKED,
            "Loss@L1\nNoSignal@a\nNoSignal@b\n",
            "pairs raised 3 unknown 0 distance 0 radius 0 sure fits 3\n  fit Cut@L1\n  fit Cut@L1 and Fail@a\n  fit Cut@L1 and Fail@b\n",
        ),
        (
            CIRCLE,
            THREE,
            "S@a\nS@b\nS@c\n",
            "pairs raised 3 unknown 0 distance 0 radius 0 sure fits 3\n  fit P@a and P@b\n  fit P@a and P@c\n  fit P@b and P@c\n",
        ),
        (
            LINK,
            LINKED,
            "",
            "pairs raised 0 unknown 0 distance 0 radius 0 sure fits 1\n  fit quiet\n",
        ),
        (
            LINK,
            LINKED,
            "Loss@L1\nFail@b\n",
            "pairs raised 2 unknown 1 distance 1 radius 0 unsure fits 1\n  fit quiet\n",
        ),
        (
            CIRCLE,
            "create a T\n",
            "S@a\n",
            "pairs raised 1 unknown 0 distance 0 radius 0 sure fits 1\n  fit P@a\n",
        ),
    ];
    for (model, topology, symptoms, out) in cases {
        let wanted = Wanted {
            code: 0,
            out,
            err: "",
        };
        asks(&rt, rt.alloc(), [model, topology, symptoms], &wanted)?;
    }
    Ok(())
}

// Asks for the model, the topology and the symptoms.
fn asks(
    rt: &(impl Abort + MayCount),
    alloc: Global,
    files: [&str; 3],
    wanted: &Wanted<'_>,
) -> Result<(), AllocError> {
    let [model, topology, symptoms] = files;
    let case = Case {
        words: &["pairs", "m", "t", "s"],
        files: &[("m", model), ("t", topology), ("s", symptoms)],
        piece: 0,
        failing_read: 0,
        failing_write: 0,
    };
    check(rt, alloc, &case, wanted)
}

#[test]
fn many_groups_are_a_status(rt: HostRuntime) -> Result<(), Fail> {
    // The ports, the status, the output and the line.
    let cases: [(u32, u8, &str, &str); 3] = [
        (
            126,
            0,
            "pairs raised 1 unknown 0 distance 0 radius 0 sure fits 1\n  fit Fail@p1\n",
            "",
        ),
        (127, 13, "", "error 13 groups 129\n"),
        (128, 13, "", "error 13 groups 130\n"),
    ];
    for (ports, code, out, err) in cases {
        let topology = with_ports(rt.alloc(), ports)?;
        let wanted = Wanted { code, out, err };
        asks(
            &rt,
            rt.alloc(),
            [LINK, topology.as_str(), "NoSignal@p1\n"],
            &wanted,
        )?;
    }
    Ok(())
}

// A link with these many ports: each is a group, and so are the link and the quiet one.
fn with_ports(alloc: Global, ports: u32) -> Result<String, AllocError> {
    let mut text = String::from_str(alloc, "create L1 Link\n")?;
    for port in 1..=ports {
        let lines = format!(in alloc; "create p{port} Port\nlink L1 ends p{port}\n")?;
        text.push_str(lines.as_str())?;
    }
    Ok(text)
}

#[test]
fn wrong_symptoms_have_a_line(rt: HostRuntime) -> Result<(), Fail> {
    let wanted = Wanted {
        code: 4,
        out: "",
        err: "error 4 symptoms line 1 bad-name\n",
    };
    asks(&rt, rt.alloc(), [LINK, LINKED, "no node\n"], &wanted)?;
    Ok(())
}
