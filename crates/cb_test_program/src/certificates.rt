//! Certificates: written, checked, changed and decoded with, over files and sinks in memory.

use crate::top::{Case, LINK, LINKED, Wanted, check};
use cb_steps::MayCount;
use std::alloc::{AllocError, Global};
use std::process::Abort;
use std::test::Fail;

// The certificate of the linked network's codebook at a distance of 1, and that there is none at 2.
const BOOK: &str =
    "codebook certificate 1\nkind book\ndistance 1\nnodes 6\nnode Cut@L1\nnode Loss@L1\nnode Fail@a\nnode NoSignal@a\nnode Fail@b\nnode NoSignal@b\ncolumns 2\ncolumn 4\ncolumn 6\nspans 3\nspan 4\nentry 1 0\nentry 2 1\nentry 4 1\nentry 6 1\nspan 2\nentry 3 0\nentry 4 1\nspan 2\nentry 5 0\nentry 6 1\nend\n";

const THIN: &str =
    "codebook certificate 1\nkind thin\nwanted 2\ndistance 1\nnodes 2\nnode Fail@a\nnode NoSignal@a\nquiet\nspan 2\nentry 1 0\nentry 2 1\nend\n";

const EMPTY_BOOK: &str =
    "codebook certificate 1\nkind book\ndistance 3\nnodes 0\ncolumns 0\nspans 0\nend\n";

const ACCEPTED: &str = "accepted book distance 1 radius 0 groups 4 columns 2\n";

// Two problems that share no symptom: X causes three, Y one. The certificate of their codebook for a cap of 3.
const UNLIKE: &str =
    "class U { problem X; problem Y; symptom A; symptom B; symptom C; symptom D; rule a: X => A; rule b: X => B; rule c: X => C; rule d: Y => D; }";

const CAPPED: &str =
    "codebook certificate 2\nkind book\ncap 3\nnodes 6\nnode A@u\nnode B@u\nnode C@u\nnode D@u\nnode X@u\nnode Y@u\ncolumns 4\ncolumn 1\ncolumn 2\ncolumn 3\ncolumn 4\nradii 3\nradius 0\nradius 1\nradius 0\nspans 2\nspan 4\nentry 5 0\nentry 1 1\nentry 2 1\nentry 3 1\nspan 2\nentry 6 0\nentry 4 1\nend\n";

// At a distance of 3 the second of them is too close to `quiet`.
const TOO_CLOSE: &str =
    "codebook certificate 1\nkind thin\nwanted 3\ndistance 1\nnodes 2\nnode D@u\nnode Y@u\nquiet\nspan 2\nentry 2 0\nentry 1 1\nend\n";

const EMPTY_CAPPED: &str =
    "codebook certificate 2\nkind book\ncap 4\nnodes 0\ncolumns 0\nradii 1\nradius 1\nspans 0\nend\n";

#[test]
fn a_codebook_for_a_cap_is_certified(rt: HostRuntime) -> Result<(), Fail> {
    // The topology, the distance or the cap, the status, the certificate, and the line of the fault.
    let cases: [(&str, &str, u8, &str, &str); 3] = [
        ("create u U\n", "cap3", 0, CAPPED, ""),
        ("", "cap4", 0, EMPTY_CAPPED, ""),
        (
            "create u U\n",
            "3",
            6,
            TOO_CLOSE,
            "error 6 distance wanted 3 first quiet second Y@u distance 1\n",
        ),
    ];
    for (topology, distance, code, out, err) in cases {
        let case = Case {
            words: &["codebook", "m", "t", distance],
            files: &[("m", UNLIKE), ("t", topology)],
            piece: 7,
            failing_read: 0,
            failing_write: 0,
        };
        check(&rt, rt.alloc(), &case, &Wanted { code, out, err })?;
    }
    Ok(())
}

// An edit, two of the three symptoms of X, and that of Y.
const OF_BOTH: &str =
    "{\"at\":1,\"edit\":\"mute A@u\"}\n{\"at\":2,\"from\":\"c1\",\"raise\":\"A@u\"}\n{\"at\":3,\"from\":\"c1\",\"raise\":\"B@u\"}\n{\"at\":13,\"from\":\"c1\",\"raise\":\"A@u\"}\n{\"at\":14,\"from\":\"c1\",\"raise\":\"B@u\"}\n{\"at\":14,\"from\":\"c1\",\"raise\":\"D@u\"}\n";

#[test]
fn a_log_is_followed_by_a_certificate_for_a_cap(rt: HostRuntime) -> Result<(), Fail> {
    // The certificate, the status, the output, and the line of the fault.
    let cases: [(&str, u8, &str, &str); 2] = [
        (
            CAPPED,
            0,
            "accepted book cap 3 radius 0 to 1 groups 3 columns 4\nrefused 1 fixed\ndiagnosis c1 2 13 raised 2 unknown 0 distance 1 radius 1 sure groups 1\n  group X@u\ndiagnosis c1 13 14 raised 3 unknown 0 distance 2 radius 1 unsure groups 2\n  group X@u\n  group Y@u\n",
            "",
        ),
        (TOO_CLOSE, 5, "", "error 5 certificate not-book\n"),
    ];
    for (certificate, code, out, err) in cases {
        let case = Case {
            words: &["decode", "m", "t", "c", "l", "10"],
            files: &[
                ("m", UNLIKE),
                ("t", "create u U\n"),
                ("c", certificate),
                ("l", OF_BOTH),
            ],
            piece: 65_536,
            failing_read: 0,
            failing_write: 0,
        };
        check(&rt, rt.alloc(), &case, &Wanted { code, out, err })?;
    }
    Ok(())
}

#[test]
fn a_codebook_for_a_cap_is_checked(rt: HostRuntime) -> Result<(), Fail> {
    // What is changed of the certificate, the status, the output, and the line of the fault.
    let cases: [(&[(&str, &str)], u8, &str, &str); 7] = [
        (
            &[],
            0,
            "accepted book cap 3 radius 0 to 1 groups 3 columns 4\n",
            "",
        ),
        (
            &[("radius 1\nradius 0\n", "radius 1\nradius 1\n")],
            5,
            "",
            "error 5 certificate bad-radius place 3\n",
        ),
        (
            &[("radii 3\n", "radii 4\n"), ("spans 2", "radius 0\nspans 2")],
            5,
            "",
            "error 5 certificate bad-radius place 4\n",
        ),
        (
            &[(
                "radii 3\nradius 0\nradius 1\nradius 0\n",
                "radii 1\nradius 0\n",
            )],
            5,
            "",
            "error 5 certificate bad-radius place 2\n",
        ),
        // Two groups that are too close come before a radius that is wrong.
        (
            &[
                ("columns 4\ncolumn 1\n", "columns 3\n"),
                ("radius 1\n", "radius 2\n"),
            ],
            5,
            "",
            "error 5 certificate too-close first quiet second X@u distance 2\n",
        ),
        // Under a cap of 2 one column of X can go, and no group has a radius but 0.
        (
            &[
                ("cap 3", "cap 2"),
                ("columns 4\ncolumn 1\n", "columns 3\n"),
                ("radius 1\n", "radius 0\n"),
            ],
            0,
            "accepted book cap 2 radius 0 to 0 groups 3 columns 3\n",
            "",
        ),
        (
            &[("kind book", "kind thin")],
            5,
            "",
            "error 5 certificate bad-line line 2\n",
        ),
    ];
    for (parts, code, out, err) in cases {
        let text = changed(rt.alloc(), CAPPED, parts)?;
        let case = Case {
            words: &["verify", "m", "t", "c"],
            files: &[("m", UNLIKE), ("t", "create u U\n"), ("c", &text)],
            piece: 65_536,
            failing_read: 0,
            failing_write: 0,
        };
        check(&rt, rt.alloc(), &case, &Wanted { code, out, err })?;
    }
    Ok(())
}

#[test]
fn a_codebook_is_certified(rt: HostRuntime) -> Result<(), Fail> {
    // The topology, the distance, the status, the certificate, and the line of the fault.
    let cases: [(&str, &str, u8, &str, &str); 3] = [
        (LINKED, "1", 0, BOOK, ""),
        (
            LINKED,
            "2",
            6,
            THIN,
            "error 6 distance wanted 2 first quiet second Fail@a distance 1\n",
        ),
        ("", "3", 0, EMPTY_BOOK, ""),
    ];
    for (topology, distance, code, out, err) in cases {
        let case = Case {
            words: &["codebook", "m", "t", distance],
            files: &[("m", LINK), ("t", topology)],
            piece: 7,
            failing_read: 0,
            failing_write: 0,
        };
        check(&rt, rt.alloc(), &case, &Wanted { code, out, err })?;
    }
    Ok(())
}

// The certificate with its parts changed.
fn changed(alloc: Global, certificate: &str, parts: &[(&str, &str)]) -> Result<String, AllocError> {
    let mut text = String::from_str(alloc, certificate)?;
    for (part, with) in parts {
        text = text.replace(alloc, *part, with)?;
    }
    Ok(text)
}

// Checks the certificate of a topology.
fn is_checked<'a>(
    rt: &(impl Abort + MayCount),
    alloc: Global,
    topology: &'a str,
    certificate: &'a str,
    wanted: &Wanted<'_>,
) -> Result<(), AllocError> {
    let case = Case {
        words: &["verify", "m", "t", "c"],
        files: &[("m", LINK), ("t", topology), ("c", certificate)],
        piece: 64,
        failing_read: 0,
        failing_write: 0,
    };
    check(rt, alloc, &case, wanted)
}

#[test]
fn a_valid_certificate_is_accepted(rt: HostRuntime) -> Result<(), Fail> {
    let thin = "accepted thin wanted 2 first quiet second Fail@a distance 1\n";
    let empty = "accepted book distance 3 radius 1 groups 1 columns 0\n";
    // The topology, the certificate, what is changed of it, and what it shows.
    let cases: [(&str, &str, &[(&str, &str)], &str); 4] = [
        (LINKED, BOOK, &[], ACCEPTED),
        (LINKED, BOOK, &[("end\n", "end")], ACCEPTED),
        (LINKED, THIN, &[], thin),
        ("", EMPTY_BOOK, &[], empty),
    ];
    for (topology, certificate, parts, out) in cases {
        let wanted = Wanted {
            code: 0,
            out,
            err: "",
        };
        let text = changed(rt.alloc(), certificate, parts)?;
        is_checked(&rt, rt.alloc(), topology, text.as_str(), &wanted)?;
    }
    Ok(())
}

#[test]
fn a_changed_certificate_is_refused(rt: HostRuntime) -> Result<(), Fail> {
    // The certificate, what is changed of it, and why it is refused.
    let cases: [(&str, &[(&str, &str)], &str); 20] = [
        (BOOK, &[("end\n", "")], "truncated"),
        (BOOK, &[("end\n", "end\nx\n")], "extra line 27"),
        (
            BOOK,
            &[("entry 4 1\nentry 6 1\n", "entry 4 1\n")],
            "bad-line line 19",
        ),
        (
            BOOK,
            &[("node Cut@L1\nnode Loss@L1\n", "node Loss@L1\nnode Cut@L1\n")],
            "bad-node place 2",
        ),
        (BOOK, &[("column 4\n", "column 1\n")], "bad-column place 1"),
        (BOOK, &[("column 6\n", "column 4\n")], "bad-column place 2"),
        (
            BOOK,
            &[
                ("spans 3", "spans 2"),
                ("span 2\nentry 5 0\nentry 6 1\n", ""),
            ],
            "no-span problem Fail@b",
        ),
        (
            BOOK,
            &[
                ("spans 3", "spans 4"),
                ("end\n", "span 1\nentry 2 0\nend\n"),
            ],
            "extra-span place 4",
        ),
        (BOOK, &[("entry 1 0", "entry 2 0")], "bad-root entry 1"),
        (
            BOOK,
            &[("entry 4 1\nentry 6", "entry 4 4\nentry 6")],
            "bad-parent entry 3",
        ),
        (
            BOOK,
            &[("entry 4 1\nentry 6", "entry 3 1\nentry 6")],
            "no-edge entry 3",
        ),
        (
            BOOK,
            &[("entry 4 1\nentry 6 1", "entry 4 2\nentry 3 1")],
            "no-edge entry 3",
        ),
        (
            BOOK,
            &[("entry 4 1\nentry 6", "entry 2 1\nentry 6")],
            "repeated entry 3",
        ),
        (
            BOOK,
            &[
                ("span 4\n", "span 3\n"),
                ("entry 4 1\nentry 6 1\n", "entry 4 1\n"),
            ],
            "not-closed entry 1 successor NoSignal@b",
        ),
        (
            BOOK,
            &[("column 4\ncolumn 6\n", "column 2\ncolumn 4\n")],
            "too-close first quiet second Fail@b distance 0",
        ),
        (
            BOOK,
            &[("distance 1", "distance 2")],
            "too-close first quiet second Fail@a distance 1",
        ),
        (THIN, &[("wanted 2", "wanted 1")], "not-thin distance 1"),
        (THIN, &[("distance 1", "distance 2")], "not-thin distance 1"),
        (THIN, &[("quiet\n", "")], "bad-line line 11"),
        (THIN, &[("nodes 2", "nodes 3")], "bad-line line 8"),
    ];
    for (certificate, parts, why) in cases {
        let err = format!(in rt.alloc(); "error 5 certificate {why}\n")?;
        let wanted = Wanted {
            code: 5,
            out: "",
            err: err.as_str(),
        };
        let text = changed(rt.alloc(), certificate, parts)?;
        is_checked(&rt, rt.alloc(), LINKED, text.as_str(), &wanted)?;
    }
    Ok(())
}

#[test]
fn a_certificate_of_another_topology_is_refused(rt: HostRuntime) -> Result<(), Fail> {
    // The edits after those that the certificate knows of, the certificate, and why it is refused.
    let cases: [(&str, &str, &str); 5] = [
        ("delete L1\ndelete a\ndelete b\n", BOOK, "bad-node place 1"),
        ("mute NoSignal@b\n", BOOK, "bad-column place 2"),
        ("create c Port\n", BOOK, "no-span problem Fail@c"),
        ("unlink b on L1\n", BOOK, "no-edge entry 4"),
        ("mute NoSignal@a\n", THIN, "not-thin distance 0"),
    ];
    for (edits, certificate, why) in cases {
        let err = format!(in rt.alloc(); "error 5 certificate {why}\n")?;
        let wanted = Wanted {
            code: 5,
            out: "",
            err: err.as_str(),
        };
        let mut topology = String::from_str(rt.alloc(), LINKED)?;
        topology.push_str(edits)?;
        is_checked(&rt, rt.alloc(), topology.as_str(), certificate, &wanted)?;
    }
    Ok(())
}

// An edit, and two raises of one window.
const LOG: &str =
    "{\"at\":1,\"edit\":\"mute NoSignal@a\"}\n{\"at\":2,\"from\":\"c1\",\"raise\":\"NoSignal@a\"}\n{\"at\":2,\"from\":\"c1\",\"raise\":\"NoSignal@b\"}\n";

#[test]
fn a_log_is_followed_by_a_certificate(rt: HostRuntime) -> Result<(), Fail> {
    // The certificate, the read and the write that fail, the status, the output, and the line of the fault.
    let cases: [(&str, u64, u64, u8, &str, &str); 6] = [
        (
            BOOK,
            0,
            0,
            0,
            "accepted book distance 1 radius 0 groups 4 columns 2\nrefused 1 fixed\ndiagnosis c1 2 2 raised 2 unknown 0 distance 0 radius 0 sure groups 1\n  group Cut@L1\n",
            "",
        ),
        (THIN, 0, 0, 5, "", "error 5 certificate not-book\n"),
        (
            "codebook certificate 1\n",
            0,
            0,
            5,
            "",
            "error 5 certificate truncated\n",
        ),
        (BOOK, 0, 1, 9, "", "error 9 write\n"),
        // The first read of the log, and the one at its end.
        (BOOK, 7, 0, 8, ACCEPTED, "error 8 read l\n"),
        (
            BOOK,
            8,
            0,
            8,
            "accepted book distance 1 radius 0 groups 4 columns 2\nrefused 1 fixed\n",
            "error 8 read l\n",
        ),
    ];
    for (certificate, failing_read, failing_write, code, out, err) in cases {
        let case = Case {
            words: &["decode", "m", "t", "c", "l", "10"],
            files: &[("m", LINK), ("t", LINKED), ("c", certificate), ("l", LOG)],
            piece: 65_536,
            failing_read,
            failing_write,
        };
        check(&rt, rt.alloc(), &case, &Wanted { code, out, err })?;
    }
    Ok(())
}
