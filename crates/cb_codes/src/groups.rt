//! Groups with their codes.
ghost use Rattle.std.specs.Prelude.{◌≡◌, length};
ghost use Rattle.cb_coding.specs.Groups.{codes_of};
ghost use Rattle.cb_codes.specs.Groups.{groups_of, named_of, Fit};

use crate::codes::Codes;
use cb_model::{List, NamedGroup};
use std::marker::Model;

/// Groups in order, each with its code; the first is the quiet one. Contracts see how many columns the codes have, and the
/// groups.
#[derive(Drop)]
pub struct Groups {
    codes: Codes,
    named: List<NamedGroup>,
}

impl Model for Groups {
    ghost use Rattle.cb_codes.specs.Groups.{Grouped, groups_of, Fit};

    ghost Value = { Grouped };

    ghost view = { λ g. record { width = g.codes.width; groups = groups_of g.codes.rows g.named } };

    ghost invariant = { λ g. Fit g.codes.rows g.named };
}

impl Groups {
    /// These codes with the members of these groups.
    pub fn of(codes: Codes, named: List<NamedGroup>) -> Groups
        requires { Fit codes.rows named }
        ensures width { result.width ≡ codes.width }
        ensures groups { result.groups ≡ groups_of codes.rows named }
    {
        Groups { codes, named }
    }

    /// How many groups there are.
    pub fn len(&self) -> usize
        ensures { result ≡ length self.now.groups }
    {
        self.codes.len()
    }

    /// The code of each group.
    pub fn codes(&self) -> &Codes
        ensures width { result.now.width ≡ self.now.width }
        ensures rows { result.now.rows ≡ codes_of self.now.groups }
    {
        &self.codes
    }

    /// The groups by their members.
    pub fn named(&self) -> &List<NamedGroup>
        ensures { result.now ≡ named_of self.now.groups }
    {
        &self.named
    }
}
