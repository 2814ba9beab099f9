//! The rows of a tree's declarations.
ghost use Rattle.std.specs.Prelude.{ℕ, [], ◌∷◌, IfOk, OnOk};
ghost use Rattle.cb_grammar.specs.declared.tree.Member.TheVariants.{Relation, Rule};
ghost use Rattle.cb_rules.specs.Classes.{ClassAt, MemberAt};
ghost use Rattle.cb_rules.specs.Fault.{KeepsAll};
ghost use Rattle.cb_check.specs.Stands.{relation_in, rule_in};
ghost use Rattle.cb_check.specs.Rows.{GivesClass, GivesRelation, GivesRule, GivesBy, AddsMembers, AreTablesOf};

use crate::finder::Finder;
use cb_grammar::{ClassDecl, Member, PlaceToken, Token};
use cb_model::{
    BlockRow, ClassId, ClassRow, EventRow, HideRow, List, Name, RelRow, RuleRow, Tables,
};
use std::alloc::{AllocError, Global};

/// The tables of the finder's tree: the k-th declaration of a kind gives the k-th row.
pub(crate) fn tables_of(alloc: Global, finder: &Finder) -> Result<Tables, AllocError>
    ensures { IfOk result (AreTablesOf finder.now finder.now.classes) }
{
    let mut tables = Tables {
        classes: List::new(alloc),
        events: List::new(alloc),
        relations: List::new(alloc),
        rules: List::new(alloc),
        blocks: List::new(alloc),
        hides: List::new(alloc),
    };
    for (place, decl) in finder.tree().classes.as_slice().iter().enumerate() {
        tables.classes.push(class_row(alloc, finder, decl)?)?;
        add_members(alloc, finder, ClassId(place as u16), decl, &mut tables)?;
    }
    Ok(tables)
}

// The row of a class.
fn class_row(alloc: Global, finder: &Finder, decl: &ClassDecl) -> Result<ClassRow, AllocError>
    requires keeps { KeepsAll finder.now }
    requires class { (k : ℕ) × ClassAt finder.now k decl.now }
    ensures { IfOk result (GivesClass finder.now decl.now) }
{
    let parent = match &decl.parent {
        Some(name) => Some(finder.class(name)),
        None => None,
    };
    let name = Name::of(alloc, decl.name.name.bytes())?;
    Ok(ClassRow { name, parent })
}

// Adds the rows of what the class declares.
fn add_members(
    alloc: Global,
    finder: &Finder,
    class: ClassId,
    decl: &ClassDecl,
    tables: &mut Tables,
) -> Result<(), AllocError>
    requires keeps { KeepsAll finder.now }
    requires class { ClassAt finder.now class.0 decl.now }
    ensures { OnOk result (AddsMembers finder.now class decl.now.members tables.old tables.new) }
{
    for member in decl.members.as_slice() {
        add_member(alloc, finder, class, member, tables)?;
    }
    Ok(())
}

// Adds the row of one member.
fn add_member(
    alloc: Global,
    finder: &Finder,
    class: ClassId,
    member: &Member,
    tables: &mut Tables,
) -> Result<(), AllocError>
    requires keeps { KeepsAll finder.now }
    requires member { (i : ℕ) × MemberAt finder.now class.0 i member.now }
    ensures { OnOk result (AddsMembers finder.now class (member.now ∷ []) tables.old tables.new) }
{
    match member {
        Member::Event {
            name,
            problem,
            symptom,
        } => tables.events.push(EventRow {
            class,
            name: Name::of(alloc, name.name.bytes())?,
            problem: *problem,
            symptom: *symptom,
        }),
        Member::Relation {
            name,
            target,
            many,
            inverse,
        } => {
            let row = relation_row(alloc, finder, class, name, target, *many, inverse)?;
            tables.relations.push(row)
        }
        Member::Rule {
            name,
            cause,
            path,
            effect,
        } => {
            let row = rule_row(alloc, finder, class, name, cause, path, effect)?;
            tables.rules.push(row)
        }
        Member::Block { name } => {
            let rule = finder.rule(class, name);
            tables.blocks.push(BlockRow { class, rule })
        }
        Member::Hide { name } => {
            let event = finder.event(class, name);
            tables.hides.push(HideRow { class, event })
        }
    }
}

// The row of a relation.
fn relation_row(
    alloc: Global,
    finder: &Finder,
    class: ClassId,
    name: &Token,
    target: &Token,
    many: bool,
    inverse: &Token,
) -> Result<RelRow, AllocError>
    requires keeps { KeepsAll finder.now }
    requires member { (i : ℕ) × MemberAt finder.now class.0 i (Relation name.now target.now many inverse.now) }
    ensures { IfOk result (GivesBy (relation_in class) (GivesRelation finder.now) (Relation name.now target.now many inverse.now)) }
{
    let target = finder.class(target);
    Ok(RelRow {
        class,
        name: Name::of(alloc, name.name.bytes())?,
        target,
        many,
        inverse: finder.own_relation(target, inverse),
    })
}

// The row of a rule.
fn rule_row(
    alloc: Global,
    finder: &Finder,
    class: ClassId,
    name: &Token,
    cause: &Token,
    path: &List<PlaceToken>,
    effect: &Token,
) -> Result<RuleRow, AllocError>
    requires keeps { KeepsAll finder.now }
    requires member { (i : ℕ) × MemberAt finder.now class.0 i (Rule name.now cause.now path.now effect.now) }
    ensures { IfOk result (GivesBy (rule_in class) (GivesRule finder.now) (Rule name.now cause.now path.now effect.now)) }
{
    let (path, reached) = finder.path(alloc, class, path.as_slice())?;
    Ok(RuleRow {
        class,
        name: Name::of(alloc, name.name.bytes())?,
        cause: finder.event(class, cause),
        path,
        effect: finder.event(reached, effect),
    })
}
