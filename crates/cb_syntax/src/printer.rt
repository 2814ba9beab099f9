//! Writes a model.
ghost use Rattle.std.specs.Prelude.{◌≡◌, ◌++◌, IfOk, OnOk};
ghost use Rattle.cb_syntax.specs.Canonical.{canonical_text, class_text, member_text};
ghost use Rattle.cb_syntax.specs.Written.{event_words, count_words, named_written, relation_written, rule_written, dot_written, parent_written, head_written};
ghost use Rattle.cb_syntax.specs.Laws.{CanonicalSpells, OneCanonical};

use cb_grammar::{ClassDecl, Member, PlaceToken, Token, Tree};
use std::alloc::{AllocError, Global};

/// The canonical text of a tree.
pub fn print(alloc: Global, tree: &Tree) -> Result<Vec<u8>, AllocError>
    ensures { IfOk result (λ text. text.items ≡ canonical_text tree.now) }
{
    let mut out = Vec::new(alloc);
    for class in tree.classes.as_slice() {
        push_class(&mut out, class)?;
    }
    Ok(out)
}

// Adds a class.
fn push_class(out: &mut Vec<u8>, class: &ClassDecl) -> Result<(), AllocError>
    ensures { OnOk result (out.new.items ≡ out.old.items ++ class_text class.now) }
{
    push_head(out, class)?;
    for member in class.members.as_slice() {
        push_member(out, member)?;
    }
    out.extend_from_slice(b"}\n")?;
    Ok(())
}

// Adds the line of a class up to its members.
fn push_head(out: &mut Vec<u8>, class: &ClassDecl) -> Result<(), AllocError>
    ensures { OnOk result (out.new.items ≡ out.old.items ++ head_written class.now) }
{
    out.extend_from_slice(b"class ")?;
    out.extend_from_slice(class.name.name.bytes())?;
    push_parent(out, &class.parent)?;
    out.extend_from_slice(b" {\n")?;
    Ok(())
}

// Adds the class that is extended, if there is one.
fn push_parent(out: &mut Vec<u8>, parent: &Option<Token>) -> Result<(), AllocError>
    ensures { OnOk result (out.new.items ≡ out.old.items ++ parent_written parent.now) }
{
    if let Some(token) = parent {
        out.extend_from_slice(b" extends ")?;
        out.extend_from_slice(token.name.bytes())?;
    }
    Ok(())
}

// Adds a member.
fn push_member(out: &mut Vec<u8>, member: &Member) -> Result<(), AllocError>
    ensures { OnOk result (out.new.items ≡ out.old.items ++ member_text member.now) }
{
    match member {
        Member::Event {
            name,
            problem,
            symptom,
        } => push_named(out, event_words(*problem, *symptom), name),
        Member::Relation {
            name,
            target,
            many,
            inverse,
        } => push_relation(out, name, target, *many, inverse),
        Member::Rule {
            name,
            cause,
            path,
            effect,
        } => push_rule(out, name, cause, path.as_slice(), effect),
        Member::Block { name } => push_named(out, b"  block ", name),
        Member::Hide { name } => push_named(out, b"  hide ", name),
    }
}

// The words before an event's name.
fn event_words(problem: bool, symptom: bool) -> &'static [u8]
    ensures { result.now ≡ event_words problem symptom }
{
    match (problem, symptom) {
        (true, true) => b"  problem symptom ".as_slice(),
        (true, false) => b"  problem ".as_slice(),
        (false, true) => b"  symptom ".as_slice(),
        (false, false) => b"  event ".as_slice(),
    }
}

// Adds a member that is words and a name.
fn push_named(out: &mut Vec<u8>, words: &[u8], name: &Token) -> Result<(), AllocError>
    ensures { OnOk result (out.new.items ≡ out.old.items ++ named_written words.now name.now) }
{
    out.extend_from_slice(words)?;
    out.extend_from_slice(name.name.bytes())?;
    out.extend_from_slice(b";\n")?;
    Ok(())
}

// The words before a relation's inverse.
fn count_words(many: bool) -> &'static [u8]
    ensures { result.now ≡ count_words many }
{
    if many {
        b" many inverse ".as_slice()
    } else {
        b" one inverse ".as_slice()
    }
}

// Adds a relation.
fn push_relation(
    out: &mut Vec<u8>,
    name: &Token,
    target: &Token,
    many: bool,
    inverse: &Token,
) -> Result<(), AllocError>
    ensures { OnOk result (out.new.items ≡ out.old.items ++ relation_written name.now target.now many inverse.now) }
{
    out.extend_from_slice(b"  relation ")?;
    out.extend_from_slice(name.name.bytes())?;
    out.extend_from_slice(b" to ")?;
    out.extend_from_slice(target.name.bytes())?;
    push_named(out, count_words(many), inverse)
}

// What follows the name at a place of a path.
fn dot_words(plus: bool) -> &'static [u8]
    ensures { result.now ≡ dot_written plus }
{
    if plus {
        b"+.".as_slice()
    } else {
        b".".as_slice()
    }
}

// Adds a rule.
fn push_rule(
    out: &mut Vec<u8>,
    name: &Token,
    cause: &Token,
    path: &[PlaceToken],
    effect: &Token,
) -> Result<(), AllocError>
    ensures { OnOk result (out.new.items ≡ out.old.items ++ rule_written name.now cause.now path.now effect.now) }
{
    out.extend_from_slice(b"  rule ")?;
    out.extend_from_slice(name.name.bytes())?;
    out.extend_from_slice(b": ")?;
    out.extend_from_slice(cause.name.bytes())?;
    out.extend_from_slice(b" => ")?;
    for place in path {
        out.extend_from_slice(place.name.name.bytes())?;
        out.extend_from_slice(dot_words(place.plus))?;
    }
    push_named(out, b"", effect)
}

/// The canonical text of a tree spells the tree, but for its lines and starts.
pub fn canonical_spells()
    ensures { CanonicalSpells }
{}

/// Trees with one canonical text are equal, but for the lines and starts of their names.
pub fn one_canonical()
    ensures { OneCanonical }
{}
