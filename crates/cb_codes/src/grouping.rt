//! Groups of problems that no symptom tells apart.
ghost use Rattle.std.specs.Prelude.{◌≡◌, ◌≤◌, List as Items, [], ◌∷◌, ◌++◌, length, IfOk, OnOk};
ghost use Rattle.cb_coding.specs.Groups.{zeros as no_symptom};
ghost use Rattle.cb_coding.specs.declared.group.Problem.{Problem as Problem_};
ghost use Rattle.cb_codes.specs.Groups.{Fit};
ghost use Rattle.cb_codes.specs.Grouped.{group, problem_of, AddsProblem, FitsTogether, HoldsProblems, TakesMember, groups_in};

use crate::each_once::EachOnce;
use crate::groups::Groups;
use cb_bits::Row;
use cb_compact::CompactRow;
use cb_model::{List, NamedGroup, NodeName};
use std::alloc::{AllocError, Global};

/// Groups of problems that are added one by one.
#[derive(Drop)]
pub struct Grouping {
    /// For each problem, in the order in which they were added, the position of its group.
    pub places: List<usize>,
    pub codes: EachOnce,
    pub named: Vec<NamedGroup>,
}

impl Grouping {
    /// Quiet alone, without problems.
    pub fn of_quiet(alloc: Global, width: usize) -> Result<Grouping, AllocError>
        ensures sound { IfOk result (FitsTogether width) }
        ensures quiet { IfOk result (λ made. groups_in made ≡ group (no_symptom width) [] ∷ []) }
        ensures none { IfOk result (HoldsProblems []) }
    {
        let mut codes = EachOnce::new(alloc, width);
        let quiet = CompactRow::of(alloc, &Row::zeroed(alloc, width)?)?;
        codes.place_of(alloc, quiet)?;
        let mut named = Vec::new(alloc);
        named.push(NamedGroup {
            quiet: true,
            members: List::new(alloc),
        })?;
        Ok(Grouping {
            places: List::new(alloc),
            codes,
            named,
        })
    }

    /// Adds a problem to the group of its code, which is opened where there is none. After an `Err` the value is of no more use.
    pub fn add(&mut self, alloc: Global, name: NodeName, code: CompactRow) -> Result<(), AllocError>
        requires sound { FitsTogether (length code) self.old }
        ensures sound { OnOk result (FitsTogether (length code) self.new) }
        ensures added { OnOk result (AddsProblem (problem_of name code) (groups_in self.old) (groups_in self.new)) }
        ensures holds { OnOk result ((before : Items Problem_) → HoldsProblems before self.old → HoldsProblems (before ++ problem_of name code ∷ []) self.new) }
    {
        let place = self.codes.place_of(alloc, code)?;
        take_member(alloc, &mut self.named, place, name)?;
        self.places.push(place)?;
        Ok(())
    }

    /// The groups alone.
    pub fn into_groups(self, alloc: Global) -> Groups
        requires { Fit self.codes.codes.rows self.named.items }
        ensures width { result.width ≡ self.codes.codes.width }
        ensures groups { result.groups ≡ groups_in self }
    {
        Groups::of(self.codes.into_codes(alloc), List::of(self.named))
    }
}

// Adds a member to the group at a position, or opens one with it after the last.
fn take_member(
    alloc: Global,
    named: &mut Vec<NamedGroup>,
    place: usize,
    member: NodeName,
) -> Result<(), AllocError>
    requires { place ≤ length named.old.items }
    ensures { OnOk result (TakesMember place member named.old.items named.new.items) }
{
    if place < named.len() {
        named[place].members.push(member)?;
        return Ok(());
    }
    // Most groups have one member.
    let mut members = Vec::with_capacity(alloc, 1)?;
    members.push(member)?;
    named.push(NamedGroup {
        quiet: place == 0,
        members: List::of(members),
    })?;
    Ok(())
}
