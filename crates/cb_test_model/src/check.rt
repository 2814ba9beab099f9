//! A tree with members of every kind, and trees that break a rule.
ghost use Rattle.std.specs.Prelude.{IfOk, IfSome, IsTrue};
ghost use Rattle.std.specs.List.{All};
ghost use Rattle.cb_grammar.specs.Grammar.{NameFits, NamesFit};

use cb_check::{TypeFault, check};
use cb_grammar::{Lexeme, Machine, Token, Tree};
use cb_model::{Name, Place, Tables};
use cb_text::{is_name, words};
use std::alloc::{AllocError, Global};
use std::test::Fail;

// A host inherits what any device has, and hangs on a link.
const TEXT: [&[u8]; 17] = [
    b"class Device {",
    b"  problem Down ;",
    b"  symptom Alarm ;",
    b"  rule loud : Down => Alarm ;",
    b"}",
    b"class Host extends Device {",
    b"  symptom Lost ;",
    b"  relation on to Link many inverse of ;",
    b"  rule far : Down => on . Cut ;",
    b"  block loud ;",
    b"  hide Alarm ;",
    b"}",
    b"class Link {",
    b"  event Cut ;",
    b"  relation of to Host one inverse on ;",
    b"  rule back : Cut => of . Alarm ;",
    b"}",
];

const ROWS: &str =
    "class None\nclass Some(ClassId(0))\nclass None\nevent 0 true false\nevent 0 false true\nevent 1 false true\nevent 2 false false\nrelation (1, 2, true, 1)\nrelation (2, 1, false, 0)\nrule (0, 0, 1)\nrule (1, 0, 3) 0\nrule (2, 3, 1) 1\nblock 1 0\nhide 1 1\n";

// The token of a word that is no name.
fn sign(word: &[u8]) -> Lexeme
    ensures { NameFits result }
{
    if word == b"class".as_slice() {
        Lexeme::Class
    } else if word == b"extends".as_slice() {
        Lexeme::Extends
    } else if word == b"problem".as_slice() {
        Lexeme::Problem
    } else if word == b"symptom".as_slice() {
        Lexeme::Symptom
    } else if word == b"event".as_slice() {
        Lexeme::Event
    } else if word == b"relation".as_slice() {
        Lexeme::Relation
    } else if word == b"to".as_slice() {
        Lexeme::To
    } else if word == b"one".as_slice() {
        Lexeme::One
    } else if word == b"many".as_slice() {
        Lexeme::Many
    } else if word == b"inverse".as_slice() {
        Lexeme::Inverse
    } else if word == b"rule".as_slice() {
        Lexeme::Rule
    } else if word == b"block".as_slice() {
        Lexeme::Block
    } else if word == b"hide".as_slice() {
        Lexeme::Hide
    } else if word == b"{".as_slice() {
        Lexeme::Open
    } else if word == b"}".as_slice() {
        Lexeme::Close
    } else if word == b";".as_slice() {
        Lexeme::Semicolon
    } else if word == b":".as_slice() {
        Lexeme::Colon
    } else if word == b".".as_slice() {
        Lexeme::Dot
    } else if word == b"+".as_slice() {
        Lexeme::Plus
    } else {
        Lexeme::Arrow
    }
}

// The token of a word.
fn lexeme(alloc: Global, word: &[u8], line: u32) -> Result<Lexeme, AllocError>
    ensures { IfOk result NameFits }
{
    if !is_name(word) {
        return Ok(sign(word));
    }
    let name = Name::of(alloc, word)?;
    Ok(Lexeme::Name(Token {
        name,
        line,
        start: 0,
    }))
}

// Reads a line more, and says whether a model goes on like that.
fn read_line(
    alloc: Global,
    machine: &mut Machine,
    line: &[u8],
    number: u32,
) -> Result<bool, AllocError>
    requires { All NameFits machine.old }
    ensures { IfOk result (λ reads. IsTrue reads → All NameFits machine.new) }
{
    for word in words(line) {
        if !machine.read(alloc, lexeme(alloc, word, number)?)? {
            return Ok(false);
        }
    }
    Ok(true)
}

// Reads the text, with another line at one place, and says whether a model goes on like that.
fn read_text(
    alloc: Global,
    machine: &mut Machine,
    place: usize,
    instead: &[u8],
) -> Result<bool, AllocError>
    requires { All NameFits machine.old }
    ensures { IfOk result (λ reads. IsTrue reads → All NameFits machine.new) }
{
    for (i, line) in TEXT.iter().enumerate() {
        let line = if i == place { instead } else { *line };
        if !read_line(alloc, machine, line, i as u32 + 1)? {
            return Ok(false);
        }
    }
    Ok(true)
}

// The tree of the text, with another line at one place.
fn tree_of(alloc: Global, place: usize, instead: &[u8]) -> Result<Option<Tree>, AllocError>
    ensures { IfOk result (λ tree. IfSome tree NamesFit) }
{
    let mut machine = Machine::new(alloc);
    let reads = read_text(alloc, &mut machine, place, instead);
    let tree = machine.finish();
    if !reads? {
        return Ok(None);
    }
    Ok(tree)
}

// The places of a path: the numbers of their relations, each with its plus.
fn path_shown(alloc: Global, path: &[Place]) -> Result<String, AllocError> {
    let mut out = String::new(alloc);
    for place in path {
        let sign = if place.plus { "+" } else { "" };
        out.push_str(format!(in alloc; " {}{sign}", place.rel.0)?.as_str())?;
    }
    Ok(out)
}

// The rows of the tables but for their names, a line each.
fn shown(alloc: Global, tables: &Tables) -> Result<String, AllocError> {
    let mut out = String::new(alloc);
    for row in tables.classes.as_slice() {
        out.push_str(format!(in alloc; "class {:?}\n", row.parent)?.as_str())?;
    }
    for row in tables.events.as_slice() {
        let line = format!(in alloc; "event {} {} {}\n", row.class.0, row.problem, row.symptom)?;
        out.push_str(line.as_str())?;
    }
    for row in tables.relations.as_slice() {
        let ends = (row.class.0, row.target.0, row.many, row.inverse.0);
        out.push_str(format!(in alloc; "relation {ends:?}\n")?.as_str())?;
    }
    for row in tables.rules.as_slice() {
        let ends = (row.class.0, row.cause.0, row.effect.0);
        let path = path_shown(alloc, row.path.as_slice())?;
        out.push_str(format!(in alloc; "rule {ends:?}{}\n", path.as_str())?.as_str())?;
    }
    for row in tables.blocks.as_slice() {
        out.push_str(format!(in alloc; "block {} {}\n", row.class.0, row.rule)?.as_str())?;
    }
    for row in tables.hides.as_slice() {
        out.push_str(format!(in alloc; "hide {} {}\n", row.class.0, row.event.0)?.as_str())?;
    }
    Ok(out)
}

// What the check says of the text, with another line at one place.
fn reported(alloc: Global, place: usize, instead: &[u8]) -> Result<String, AllocError> {
    let Some(tree) = tree_of(alloc, place, instead)? else {
        return String::from_str(alloc, "no tree");
    };
    match check(alloc, &tree) {
        Ok(model) => {
            let rows = shown(alloc, model.tables());
            drop(model);
            rows
        }
        Err(TypeFault::Broken(fault)) => format!(in alloc; "{:?} {}", fault.rule, fault.line),
        Err(TypeFault::NoMemory) => Err(AllocError),
    }
}

#[test]
fn checks_trees(rt: HostRuntime) -> Result<(), Fail> {
    let cases = [
        (0, b"class Device {".as_slice(), ROWS),
        (6, b"  symptom Down ;", "TwoNames 7"),
        (
            7,
            b"  relation on to Link many inverse on ;",
            "BadInverse 8",
        ),
        (8, b"  rule far : Down => on . Alarm ;", "NoEffect 9"),
        // The relation leads to a class that doesn't have it.
        (8, b"  rule far : Down => on + . Cut ;", "NoRepeat 9"),
        (9, b"  block back ;", "NoBlocked 10"),
    ];
    for (place, instead, wanted) in cases {
        assert_eq!(rt; reported(rt.alloc(), place, instead)?.as_str(), wanted);
    }
    Ok(())
}
