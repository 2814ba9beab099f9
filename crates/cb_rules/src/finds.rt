//! What the rules ask of a directory.
ghost use Rattle.std.specs.Prelude.{ℕ, ◌≡◌, ◌↔◌, ◌<◌, length, IfOk, IfSome, IfNone, IfErr, IsTrue};
ghost use Rattle.cb_rules.specs.declared.rule.TypeRule.TheVariants.{TwoNames, BadInverse, NoTarget};
ghost use Rattle.cb_rules.specs.Classes.{HasSomeMember, IsAbove, IsEventNamed, IsSymptomNamed, IsRuleNamed, IsRelationNamed, IsRelationBack, LeadsAlong, IsNamedBefore, DeclaresBefore, Inherits};
ghost use Rattle.cb_rules.specs.Rules.{Owns, StopsAt, LeadsHome};
ghost use Rattle.cb_rules.specs.Fault.{KeepsBefore};
ghost use Rattle.cb_rules.specs.Finds.{is_symptom as counts_symptom, RelationLeads, LooksBack};

use crate::directory::Directory;
use crate::entry::MemberKind;
use cb_grammar::{Member, PlaceToken};
use cb_model::MOST_ANCESTORS;

/// Whether a class before this position has the name.
pub(crate) fn is_named_before(directory: &Directory<'_>, class: usize, name: &[u8]) -> bool
    ensures { IsTrue result ↔ IsNamedBefore directory.now class name.now }
{
    match directory.class_named(name) {
        Some(first) => first < class,
        None => false,
    }
}

/// Whether the class declares the name before this position of its members.
pub(crate) fn declares_before(
    directory: &Directory<'_>,
    class: usize,
    place: usize,
    name: &[u8],
) -> bool
    requires { class < length directory.now.classes }
    ensures { IsTrue result ↔ DeclaresBefore directory.now class place name.now }
{
    match directory.own(class, name) {
        Some(first) => first < place,
        None => false,
    }
}

/// Whether an ancestor of the class declares the name.
pub(crate) fn inherits(directory: &Directory<'_>, class: usize, name: &[u8]) -> bool
    requires class { class < length directory.now.classes }
    requires keeps { KeepsBefore directory.now TwoNames }
    ensures { IsTrue result ↔ Inherits directory.now class name.now }
{
    match directory.parent(class) {
        Some(parent) => directory.member_named(parent, name).is_some(),
        None => false,
    }
}

/// Whether the class has an event of this name.
pub(crate) fn has_event(directory: &Directory<'_>, class: usize, name: &[u8]) -> bool
    requires class { class < length directory.now.classes }
    requires keeps { KeepsBefore directory.now NoTarget }
    ensures { IsTrue result ↔ HasSomeMember directory.now class (IsEventNamed name.now) }
{
    match directory.member(class, name) {
        Some(member) => MemberKind::Event.has(member),
        None => false,
    }
}

/// Whether the class has an event of this name that is marked symptom.
pub(crate) fn has_symptom(directory: &Directory<'_>, class: usize, name: &[u8]) -> bool
    requires class { class < length directory.now.classes }
    requires keeps { KeepsBefore directory.now NoTarget }
    ensures { IsTrue result ↔ HasSomeMember directory.now class (IsSymptomNamed name.now) }
{
    match directory.member(class, name) {
        Some(member) => is_symptom(member),
        None => false,
    }
}

/// Whether the class has a rule of this name.
pub(crate) fn has_rule(directory: &Directory<'_>, class: usize, name: &[u8]) -> bool
    requires class { class < length directory.now.classes }
    requires keeps { KeepsBefore directory.now NoTarget }
    ensures { IsTrue result ↔ HasSomeMember directory.now class (IsRuleNamed name.now) }
{
    match directory.member(class, name) {
        Some(member) => MemberKind::Rule.has(member),
        None => false,
    }
}

/// The class to which the relation of this name leads that the class has.
pub(crate) fn target_of(directory: &Directory<'_>, class: usize, name: &[u8]) -> Option<usize>
    requires class { class < length directory.now.classes }
    requires keeps { KeepsBefore directory.now BadInverse }
    ensures found { IfSome result (RelationLeads directory.now class name.now) }
    ensures absent { IfNone result (¬ HasSomeMember directory.now class (IsRelationNamed name.now)) }
{
    let Some(member) = directory.member(class, name) else {
        return None;
    };
    let Member::Relation { target, .. } = member else {
        return None;
    };
    directory.class_named(target.name.bytes())
}

/// Whether the class is the other one or descends from it.
pub(crate) fn is_heir(directory: &Directory<'_>, class: usize, of: usize) -> bool
    requires class { class < length directory.now.classes }
    requires keeps { KeepsBefore directory.now TwoNames }
    ensures { IsTrue result ↔ ((n : ℕ) × IsAbove directory.now class n of) }
{
    let mut at = class;
    for _step in 0..=MOST_ANCESTORS {
        if at == of {
            return true;
        }
        let Some(parent) = directory.parent(at) else {
            return false;
        };
        at = parent;
    }
    false
}

/// Whether the relation of this name that the class has leads to the class that declares it, or to a descendant of that.
pub(crate) fn leads_home(directory: &Directory<'_>, class: usize, name: &[u8]) -> bool
    requires class { class < length directory.now.classes }
    requires keeps { KeepsBefore directory.now BadInverse }
    ensures { IsTrue result ↔ LeadsHome directory.now class name.now }
{
    let Some(next) = target_of(directory, class, name) else {
        return false;
    };
    let Some(place) = directory.member_named(class, name) else {
        return false;
    };
    is_heir(directory, next, place.class)
}

/// The class that a path reaches from this one, or the line of its first place that is no relation of the class reached
/// there.
pub(crate) fn follow(
    directory: &Directory<'_>,
    class: usize,
    path: &[PlaceToken],
) -> Result<usize, u32>
    requires class { class < length directory.now.classes }
    requires keeps { KeepsBefore directory.now BadInverse }
    ensures reached { IfOk result (LeadsAlong directory.now class path.now) }
    ensures stopped { IfErr result (StopsAt directory.now class path.now) }
{
    let mut at = class;
    for step in path {
        let Some(next) = target_of(directory, at, step.name.name.bytes()) else {
            return Err(step.name.line);
        };
        at = next;
    }
    Ok(at)
}

/// Whether the class itself declares a relation of this name that leads to the class named `home` and has an inverse
/// named `back`.
pub(crate) fn leads_back(
    directory: &Directory<'_>,
    class: usize,
    name: &[u8],
    home: &[u8],
    back: &[u8],
) -> bool
    requires class { class < length directory.now.classes }
    requires keeps { KeepsBefore directory.now NoTarget }
    ensures { IsTrue result ↔ Owns directory.now class (IsRelationBack name.now home.now back.now) }
{
    let Some(place) = directory.own(class, name) else {
        return false;
    };
    looks_back(
        directory.tree().classes.at(class).members.at(place),
        home,
        back,
    )
}

// Whether a member is a relation to the class named `home` with an inverse named `back`.
fn looks_back(member: &Member, home: &[u8], back: &[u8]) -> bool
    ensures { IsTrue result ↔ LooksBack home.now back.now member.now }
{
    match member {
        Member::Relation {
            target,
            inverse,
            ..
        } => target.name.bytes() == home && inverse.name.bytes() == back,
        _ => false,
    }
}

fn is_symptom(member: &Member) -> bool
    ensures { result ≡ counts_symptom member.now }
{
    match member {
        Member::Event { symptom, .. } => *symptom,
        _ => false,
    }
}
