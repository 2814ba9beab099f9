//! What a class has of an event and of a rule, once it is known what the class hides and blocks.
ghost use Rattle.std.specs.Prelude.{◌≡◌, IfOk};
ghost use Rattle.cb_model.specs.Views.{rule_of};

use crate::id::EventId;
use crate::list::List;
use crate::tables::{Place, RuleRow};
use std::alloc::{AllocError, Global};

/// What an event is for a class.
#[derive(Clone, Copy, PartialEq, Eq)]
pub struct Marks {
    pub problem: bool,
    pub symptom: bool,
}

/// A rule of a class: the cause at an instance brings about the effect at each instance that the path leads to.
#[derive(Drop)]
pub struct Rule {
    pub cause: EventId,
    pub path: List<Place>,
    pub effect: EventId,
}

impl Rule {
    /// The rule of a row.
    pub(crate) fn of(alloc: Global, row: &RuleRow) -> Result<Rule, AllocError>
        ensures { IfOk result (λ rule. rule ≡ rule_of row.now) }
    {
        Ok(Rule {
            cause: row.cause,
            path: row.path.copy(alloc)?,
            effect: row.effect,
        })
    }
}
