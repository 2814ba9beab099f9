//! The lines of levels, and those of what is wrong with levels.
ghost use Rattle.std.specs.Prelude.{◌≢◌, IfOk};
ghost use Rattle.cb_levels.specs.declared.fault.LevelText.TheVariants.{NoMemory as NoTextMemory};
ghost use Rattle.cb_levels.specs.declared.verdict.LevelFault.TheVariants.{NoMemory};

use cb_io::MemSink;
use cb_levels::{LevelFault, LevelText, Proved};
use cb_model::{Name, NodeName};
use cb_report::{Fault, level_fault_text, level_format_text, proved_text, say_fault};
use cb_request::Request;
use std::alloc::{AllocError, Global};
use std::test::Fail;

fn node(alloc: Global, event: &[u8], instance: &[u8]) -> Result<NodeName, AllocError> {
    Ok(NodeName {
        event: Name::of(alloc, event)?,
        instance: Name::of(alloc, instance)?,
    })
}

#[test]
fn accepted_levels_have_one_line(rt: HostRuntime) -> Result<(), Fail> {
    let alloc = rt.alloc();
    let proved = Proved {
        root: node(alloc, b"Dead", b"b1")?,
        reached: 4,
        deepest: 2,
    };
    let text = proved_text(alloc, &proved)?;
    assert_eq!(rt;
        text.as_slice(),
        b"accepted levels Dead@b1 reached 4 deepest 2\n".as_slice()
    );
    Ok(())
}

// The line of a fault on the error sink.
fn said(alloc: Global, fault: &Fault<'_>) -> Result<Vec<u8>, AllocError> {
    let mut sink = MemSink::new(alloc, 200)?;
    say_fault(&mut sink, fault);
    Vec::from_slice(alloc, sink.bytes())
}

const FORMAT_LINES: [(LevelText, &str); 4] = [
    (LevelText::BadHeader, "error 5 levels bad-header\n"),
    (
        LevelText::BadLine { line: 7 },
        "error 5 levels bad-line line 7\n",
    ),
    (LevelText::Truncated, "error 5 levels truncated\n"),
    (
        LevelText::Extra { line: 13 },
        "error 5 levels extra line 13\n",
    ),
];

// Whether both lines of an error in a text of levels are this one.
fn is_format_line(alloc: Global, fault: LevelText, line: &str) -> Result<bool, AllocError>
    requires { fault ≢ NoTextMemory }
{
    let text = level_format_text(alloc, &fault)?;
    let on_sink = said(alloc, &Fault::from(fault))?;
    Ok(text.as_slice() == line.as_bytes() && on_sink.as_slice() == line.as_bytes())
}

#[test]
fn each_error_of_a_text_of_levels_has_its_line(rt: HostRuntime) -> Result<(), Fail> {
    for (fault, line) in FORMAT_LINES {
        if let LevelText::NoMemory = fault {
            continue;
        }
        let is = is_format_line(rt.alloc(), fault, line)?;
        assert!(rt; is, "{line}");
    }
    Ok(())
}

const CHECK_LINES: [&str; 8] = [
    "error 5 levels bad-node place 1\n",
    "error 5 levels bad-root entry 2\n",
    "error 5 levels bad-parent entry 3\n",
    "error 5 levels no-edge entry 4\n",
    "error 5 levels repeated entry 5\n",
    "error 5 levels bad-level entry 6\n",
    "error 5 levels not-closed entry 7 successor NoSignal@p1\n",
    "error 5 levels not-short entry 8 successor Sick@n3\n",
];

// The failed check of the line at a position.
fn failed(alloc: Global, position: usize) -> Result<LevelFault, AllocError>
    ensures { IfOk result (λ fault. fault ≢ NoMemory) }
{
    Ok(match position {
        0 => LevelFault::BadNode { place: 1 },
        1 => LevelFault::BadRoot { entry: 2 },
        2 => LevelFault::BadParent { entry: 3 },
        3 => LevelFault::NoEdge { entry: 4 },
        4 => LevelFault::Repeated { entry: 5 },
        5 => LevelFault::BadLevel { entry: 6 },
        6 => LevelFault::NotClosed {
            entry: 7,
            successor: node(alloc, b"NoSignal", b"p1")?,
        },
        _ => LevelFault::NotShort {
            entry: 8,
            successor: node(alloc, b"Sick", b"n3")?,
        },
    })
}

// Whether both lines of the failed check at a position are this one.
fn is_check_line(alloc: Global, position: usize, line: &str) -> Result<bool, AllocError> {
    let fault = failed(alloc, position)?;
    let text = level_fault_text(alloc, &fault)?;
    let on_sink = said(alloc, &Fault::from(fault))?;
    Ok(text.as_slice() == line.as_bytes() && on_sink.as_slice() == line.as_bytes())
}

#[test]
fn each_failed_check_of_levels_has_its_line(rt: HostRuntime) -> Result<(), Fail> {
    for (position, line) in CHECK_LINES.iter().enumerate() {
        let is = is_check_line(rt.alloc(), position, line)?;
        assert!(rt; is, "{line}");
    }
    Ok(())
}

// The line for the levels of a word that names no problem; none if the words ask for nothing.
fn no_problem_line(alloc: Global, name: &str) -> Result<Vec<u8>, AllocError> {
    let mut words = Vec::new(alloc);
    for word in ["levels", "m", "t", name] {
        words.push(String::from_str(alloc, word)?)?;
    }
    match Request::of(&words) {
        Some(Request::Levels { node, .. }) => said(alloc, &Fault::NoProblem { node }),
        _ => Ok(Vec::new(alloc)),
    }
}

#[test]
fn a_word_is_a_node_or_words_ask_for_nothing(rt: HostRuntime) -> Result<(), Fail> {
    let alloc = rt.alloc();
    let cases: [(&str, &str); 8] = [
        ("Sick@n9", "error 12 problem Sick@n9\n"),
        ("Sick@0/1:a.b", "error 12 problem Sick@0/1:a.b\n"),
        ("Sick", ""),
        ("@n9", ""),
        ("Sick@", ""),
        ("Sick@n1@n2", ""),
        ("rule@n9", ""),
        ("9@n9", ""),
    ];
    for (word, line) in cases {
        let said = no_problem_line(alloc, word)?;
        assert_eq!(rt; said.as_slice(), line.as_bytes(), "{word}");
    }
    Ok(())
}
