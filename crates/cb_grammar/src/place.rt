//! What has been read of a member of a class.
ghost use Rattle.std.specs.Prelude.{◌≡◌, IfOk};
ghost use Rattle.cb_grammar.specs.Table.{begun, next_event, next_relation, next_rule, next, longer};

use crate::lexeme::Lexeme;
use crate::tree::{LONGEST_PATH, Member, PlaceToken, Token};
use cb_model::List;
use std::alloc::{AllocError, Global};

/// An event's words, and then its name, with whether it is marked problem and symptom.
#[derive(Drop)]
pub enum EventPlace {
    Problem,
    ProblemSymptom,
    Symptom,
    Event,
    Named(Token, bool, bool),
}

/// A relation's name, its target, whether it leads to many, and its inverse, as far as they are read.
#[derive(Drop)]
pub enum RelationPlace {
    Word,
    Named(Token),
    To(Token),
    Target(Token, Token),
    Count(Token, Token, bool),
    Inverse(Token, Token, bool),
    Whole(Token, Token, bool, Token),
}

/// A rule's name, its cause, its path and its effect, as far as they are read. What seems the effect is a place of
/// the path where a dot follows, or a plus and a dot.
#[derive(Drop)]
pub enum RulePlace {
    Word,
    Named(Token),
    Colon(Token),
    Cause(Token, Token),
    Arrow(Token, Token),
    Effect(Token, Token, List<PlaceToken>, Token),
    Plus(Token, Token, List<PlaceToken>, Token),
    Dot(Token, Token, List<PlaceToken>),
}

/// Nothing of a member yet, or what has been read of one.
#[derive(Drop)]
pub enum MemberSoFar {
    Start,
    Event(EventPlace),
    Relation(RelationPlace),
    Rule(RulePlace),
    Block,
    BlockName(Token),
    Hide,
    HideName(Token),
}

/// A position after one token more: still inside the member, after it, or nowhere.
#[derive(Drop)]
pub enum Grown {
    More(MemberSoFar),
    Whole(Member),
    Wrong,
}

// The first token of a member.
fn begin(lexeme: Lexeme) -> Grown
    ensures { result ≡ begun lexeme }
{
    match lexeme {
        Lexeme::Problem => Grown::More(MemberSoFar::Event(EventPlace::Problem)),
        Lexeme::Symptom => Grown::More(MemberSoFar::Event(EventPlace::Symptom)),
        Lexeme::Event => Grown::More(MemberSoFar::Event(EventPlace::Event)),
        Lexeme::Relation => Grown::More(MemberSoFar::Relation(RelationPlace::Word)),
        Lexeme::Rule => Grown::More(MemberSoFar::Rule(RulePlace::Word)),
        Lexeme::Block => Grown::More(MemberSoFar::Block),
        Lexeme::Hide => Grown::More(MemberSoFar::Hide),
        _ => Grown::Wrong,
    }
}

// An event, one token more.
fn grow_event(place: EventPlace, lexeme: Lexeme) -> Grown
    ensures { result ≡ next_event place lexeme }
{
    let next = match place {
        EventPlace::Problem => match lexeme {
            Lexeme::Symptom => EventPlace::ProblemSymptom,
            Lexeme::Name(name) => EventPlace::Named(name, true, false),
            _ => return Grown::Wrong,
        },
        EventPlace::ProblemSymptom => match lexeme {
            Lexeme::Name(name) => EventPlace::Named(name, true, true),
            _ => return Grown::Wrong,
        },
        EventPlace::Symptom => match lexeme {
            Lexeme::Name(name) => EventPlace::Named(name, false, true),
            _ => return Grown::Wrong,
        },
        EventPlace::Event => match lexeme {
            Lexeme::Name(name) => EventPlace::Named(name, false, false),
            _ => return Grown::Wrong,
        },
        EventPlace::Named(name, problem, symptom) => match lexeme {
            Lexeme::Semicolon => {
                return Grown::Whole(Member::Event {
                    name,
                    problem,
                    symptom,
                });
            }
            _ => return Grown::Wrong,
        },
    };
    Grown::More(MemberSoFar::Event(next))
}

// A relation, one token more.
fn grow_relation(place: RelationPlace, lexeme: Lexeme) -> Grown
    ensures { result ≡ next_relation place lexeme }
{
    let next = match place {
        RelationPlace::Word => match lexeme {
            Lexeme::Name(name) => RelationPlace::Named(name),
            _ => return Grown::Wrong,
        },
        RelationPlace::Named(name) => match lexeme {
            Lexeme::To => RelationPlace::To(name),
            _ => return Grown::Wrong,
        },
        RelationPlace::To(name) => match lexeme {
            Lexeme::Name(target) => RelationPlace::Target(name, target),
            _ => return Grown::Wrong,
        },
        RelationPlace::Target(name, target) => match lexeme {
            Lexeme::One => RelationPlace::Count(name, target, false),
            Lexeme::Many => RelationPlace::Count(name, target, true),
            _ => return Grown::Wrong,
        },
        RelationPlace::Count(name, target, many) => match lexeme {
            Lexeme::Inverse => RelationPlace::Inverse(name, target, many),
            _ => return Grown::Wrong,
        },
        RelationPlace::Inverse(name, target, many) => match lexeme {
            Lexeme::Name(inverse) => RelationPlace::Whole(name, target, many, inverse),
            _ => return Grown::Wrong,
        },
        RelationPlace::Whole(name, target, many, inverse) => match lexeme {
            Lexeme::Semicolon => {
                return Grown::Whole(Member::Relation {
                    name,
                    target,
                    many,
                    inverse,
                });
            }
            _ => return Grown::Wrong,
        },
    };
    Grown::More(MemberSoFar::Relation(next))
}

// A rule, one token more.
fn grow_rule(alloc: Global, place: RulePlace, lexeme: Lexeme) -> Result<Grown, AllocError>
    ensures { IfOk result (λ grown. grown ≡ next_rule place lexeme) }
{
    let next = match place {
        RulePlace::Word => match lexeme {
            Lexeme::Name(name) => RulePlace::Named(name),
            _ => return Ok(Grown::Wrong),
        },
        RulePlace::Named(name) => match lexeme {
            Lexeme::Colon => RulePlace::Colon(name),
            _ => return Ok(Grown::Wrong),
        },
        RulePlace::Colon(name) => match lexeme {
            Lexeme::Name(cause) => RulePlace::Cause(name, cause),
            _ => return Ok(Grown::Wrong),
        },
        RulePlace::Cause(name, cause) => match lexeme {
            Lexeme::Arrow => RulePlace::Arrow(name, cause),
            _ => return Ok(Grown::Wrong),
        },
        RulePlace::Arrow(name, cause) => match lexeme {
            Lexeme::Name(effect) => RulePlace::Effect(name, cause, List::new(alloc), effect),
            _ => return Ok(Grown::Wrong),
        },
        RulePlace::Effect(name, cause, path, effect) => {
            return grow_path(name, cause, path, effect, lexeme);
        }
        RulePlace::Plus(name, cause, path, last) => match lexeme {
            Lexeme::Dot => return add_place(name, cause, path, last, true),
            _ => return Ok(Grown::Wrong),
        },
        RulePlace::Dot(name, cause, path) => match lexeme {
            Lexeme::Name(effect) => RulePlace::Effect(name, cause, path, effect),
            _ => return Ok(Grown::Wrong),
        },
    };
    Ok(Grown::More(MemberSoFar::Rule(next)))
}

// What seemed the effect is a place of the path.
fn add_place(
    name: Token,
    cause: Token,
    path: List<PlaceToken>,
    last: Token,
    plus: bool,
) -> Result<Grown, AllocError>
    ensures { IfOk result (λ grown. grown ≡ longer name cause path last plus) }
{
    let mut more = path;
    more.push(PlaceToken { name: last, plus })?;
    Ok(Grown::More(MemberSoFar::Rule(RulePlace::Dot(name, cause, more))))
}

// A rule ends, or what seemed its effect is a place of its path, unless that is full.
fn grow_path(
    name: Token,
    cause: Token,
    path: List<PlaceToken>,
    effect: Token,
    lexeme: Lexeme,
) -> Result<Grown, AllocError>
    ensures { IfOk result (λ grown. grown ≡ next_rule (RulePlace.Effect name cause path effect) lexeme) }
{
    match lexeme {
        Lexeme::Semicolon => Ok(Grown::Whole(Member::Rule {
            name,
            cause,
            path,
            effect,
        })),
        Lexeme::Dot => {
            if path.len() >= LONGEST_PATH {
                return Ok(Grown::Wrong);
            }
            add_place(name, cause, path, effect, false)
        }
        Lexeme::Plus => {
            if path.len() >= LONGEST_PATH {
                return Ok(Grown::Wrong);
            }
            Ok(Grown::More(MemberSoFar::Rule(RulePlace::Plus(name, cause, path, effect))))
        }
        _ => Ok(Grown::Wrong),
    }
}

/// A member, one token more.
pub(crate) fn grow(alloc: Global, place: MemberSoFar, lexeme: Lexeme) -> Result<Grown, AllocError>
    ensures { IfOk result (λ grown. grown ≡ next place lexeme) }
{
    match place {
        MemberSoFar::Start => Ok(begin(lexeme)),
        MemberSoFar::Event(inner) => Ok(grow_event(inner, lexeme)),
        MemberSoFar::Relation(inner) => Ok(grow_relation(inner, lexeme)),
        MemberSoFar::Rule(inner) => grow_rule(alloc, inner, lexeme),
        MemberSoFar::Block => match lexeme {
            Lexeme::Name(name) => Ok(Grown::More(MemberSoFar::BlockName(name))),
            _ => Ok(Grown::Wrong),
        },
        MemberSoFar::BlockName(name) => match lexeme {
            Lexeme::Semicolon => Ok(Grown::Whole(Member::Block { name })),
            _ => Ok(Grown::Wrong),
        },
        MemberSoFar::Hide => match lexeme {
            Lexeme::Name(name) => Ok(Grown::More(MemberSoFar::HideName(name))),
            _ => Ok(Grown::Wrong),
        },
        MemberSoFar::HideName(name) => match lexeme {
            Lexeme::Semicolon => Ok(Grown::Whole(Member::Hide { name })),
            _ => Ok(Grown::Wrong),
        },
    }
}
