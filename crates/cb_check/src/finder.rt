//! What the names of a tree denote.
ghost use Rattle.std.specs.Prelude.{◌≡◌, IfOk, map};
ghost use Rattle.cb_grammar.specs.declared.tree.Member.{Member as TheMember};
ghost use Rattle.cb_rules.specs.Classes.{IsClassNamed, MemberAt, HasSomeMember, HasAt, Declares, IsRelationMember};
ghost use Rattle.cb_rules.specs.Rules.{IsNoClass};
ghost use Rattle.cb_rules.specs.Fault.{KeepsAll};
ghost use Rattle.cb_check.specs.Denotes.{DenotesEvent, DenotesRule, DenotesOwn, DenotesPath};
ghost use Rattle.cb_check.specs.Stands.{place_in};
ghost use Rattle.cb_check.specs.Finder.{NeedsEvent, NeedsRelation, NeedsRule, NeedsOwn, NeedsPath, HasNumberedMember, IsNumberAt, IsRelationInto, StepsTo};

use crate::numbers::numbers_of;
use cb_grammar::{Member, PlaceToken, Token, Tree};
use cb_model::{ClassId, EventId, List, Place as PathPlace, RelId};
use cb_rules::{Directory, MemberPosition};
use std::alloc::{AllocError, Global};
use std::marker::Model;

/// Finds what the names of a tree denote, which keeps all type rules. Contracts see the tree.
#[derive(Drop)]
pub struct Finder<'t> {
    directory: Directory<'t>,
    numbers: List<List<u32>>,
}

impl<'t> Model for Finder<'t> {
    ghost use Rattle.cb_grammar.specs.declared.tree.Tree.{Tree as TheTree};
    ghost use Rattle.cb_check.specs.Finder.{IsFinder};

    ghost Value = { TheTree };

    ghost view = { λ f. f.directory };

    ghost invariant = { λ f. IsFinder f.directory f.numbers };
}

impl<'t> Finder<'t> {
    /// The finder of a directory's tree.
    pub fn of(alloc: Global, directory: Directory<'t>) -> Result<Finder<'t>, AllocError>
        requires { KeepsAll directory }
        ensures { IfOk result (λ finder. finder ≡ directory.entry) }
    {
        let numbers = numbers_of(alloc, directory.tree())?;
        Ok(Finder { directory, numbers })
    }

    /// The tree, of which it is known that it keeps all type rules.
    pub fn tree(&self) -> &Tree
        ensures tree { result.now ≡ self.now }
        ensures keeps { KeepsAll self.now }
    {
        self.directory.tree()
    }

    /// The class of this name.
    pub fn class(&self, name: &Token) -> ClassId
        requires { ¬ IsNoClass self.now name.now.name }
        ensures { IsClassNamed self.now name.now.name result.0 }
    {
        let class = self.directory.class_named(name.name.bytes()).unwrap();
        ClassId(class as u16)
    }

    /// The event that the class has under this name.
    pub fn event(&self, class: ClassId, name: &Token) -> EventId
        requires { NeedsEvent self.now class.0 name.now.name }
        ensures { DenotesEvent self.now class.0 name.now.name result.0 }
    {
        EventId(self.number(self.place(class, name)))
    }

    /// The number of the rule that the class has under this name.
    pub fn rule(&self, class: ClassId, name: &Token) -> u32
        requires { NeedsRule self.now class.0 name.now.name }
        ensures { DenotesRule self.now class.0 name.now.name result }
    {
        self.number(self.place(class, name))
    }

    /// The relation that the class itself declares under this name.
    pub fn own_relation(&self, class: ClassId, name: &Token) -> RelId
        requires { NeedsOwn self.now class.0 name.now.name }
        ensures { DenotesOwn self.now class name.now.name result.0 }
    {
        let class = class.0 as usize;
        let member = self.directory.own(class, name.name.bytes()).unwrap();
        RelId(self.number(MemberPosition { class, member }))
    }

    /// The places of a path, and the class that they lead to.
    pub fn path(
        &self,
        alloc: Global,
        class: ClassId,
        steps: &[PlaceToken],
    ) -> Result<(List<PathPlace>, ClassId), AllocError>
        requires { NeedsPath self.now class.0 steps.now }
        ensures { IfOk result (λ found. DenotesPath self.now class.0 (map place_in steps.now) found.0 found.1.0) }
    {
        let mut path = List::new(alloc);
        let mut reached = class;
        for step in steps {
            let (rel, next) = self.step(reached, &step.name);
            path.push(PathPlace {
                rel,
                plus: step.plus,
            })?;
            reached = next;
        }
        Ok((path, reached))
    }

    // A relation, and the class that it leads to.
    fn step(&self, class: ClassId, name: &Token) -> (RelId, ClassId)
        requires { NeedsRelation self.now class.0 name.now.name }
        ensures { StepsTo self.now class.0 name.now.name result.0.0 result.1.0 }
    {
        let place = self.place(class, name);
        (RelId(self.number(place)), self.target_at(place))
    }

    // The target of the relation at this position.
    fn target_at(&self, place: MemberPosition) -> ClassId
        requires { (member : TheMember) × MemberAt self.now place.class place.member member × IsRelationMember member }
        ensures { (member : TheMember) × MemberAt self.now place.class place.member member × IsRelationInto self.now member result.0 }
    {
        let decl = self.directory.tree().classes.at(place.class);
        match decl.members.at(place.member) {
            Member::Relation { target, .. } => self.class(target),
            _ => unreachable!(),
        }
    }

    // Where what the class has under this name is declared.
    fn place(&self, class: ClassId, name: &Token) -> MemberPosition
        requires { ¬ (¬ HasSomeMember self.now class.0 (Declares name.now.name)) }
        ensures keeps { KeepsAll self.now }
        ensures place { HasAt self.now class.0 (Declares name.now.name) result.class result.member }
    {
        self.directory
            .member_named(class.0 as usize, name.name.bytes())
            .unwrap()
    }

    // The number of the event, the relation or the rule at this position.
    fn number(&self, place: MemberPosition) -> u32
        requires { HasNumberedMember self.now place.class place.member }
        ensures { IsNumberAt self.now place.class place.member result }
    {
        *self.numbers.at(place.class).at(place.member)
    }
}
