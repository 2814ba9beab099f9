//! How far apart each two codes are asked to be.
ghost use Rattle.std.specs.Prelude.{◌≡◌, ◌<◌, ◌≤◌, min, length, IfSome, IfNone};
ghost use Rattle.cb_coding.specs.Needs.{need_of};
ghost use Rattle.cb_distance.specs.Close.{far};
ghost use Rattle.cb_distance.specs.Asked.{need_by, most_asked, AreNeedsFor};

use cb_codes::Codes;
use cb_model::Wish;

/// How far apart each two codes are asked to be: all as far, or as far as over all columns, but no farther than a cap.
#[derive(Drop)]
pub enum Needs<'a> {
    Plain(usize),
    Capped { cap: u32, whole: &'a Codes },
}

impl<'a> Needs<'a> {
    /// What a wish asks of the codes.
    pub(crate) fn of(codes: &'a Codes, wish: Wish) -> Needs<'a>
        ensures asked { need_by result ≡ need_of codes.now.width codes.now.rows wish }
        ensures codes { AreNeedsFor codes.now result }
        ensures few { most_asked result < 4294967296 }
    {
        match wish {
            Wish::Plain(distance) => Needs::Plain(distance as usize),
            Wish::Cap(cap) => Needs::Capped { cap, whole: codes },
        }
    }

    /// The most that is asked of any two codes.
    pub(crate) fn most(&self) -> usize
        ensures { result ≡ most_asked self.now }
    {
        match self {
            Needs::Plain(distance) => *distance,
            Needs::Capped { cap, .. } => *cap as usize,
        }
    }

    /// How far apart the codes are, where that is less than is asked.
    pub(crate) fn shortfall(&self, codes: &Codes, first: usize, second: usize) -> Option<usize>
        requires needs { AreNeedsFor codes.now self.now }
        requires first { first < length codes.now.rows }
        requires second { second < length codes.now.rows }
        ensures some { IfSome result (λ apart. (apart ≡ far codes.now first second) × (apart < need_by self.now first second)) }
        ensures none { IfNone result (need_by self.now first second ≤ far codes.now first second) }
    {
        match self {
            Needs::Plain(distance) => codes.distance_below(first, second, *distance),
            Needs::Capped { cap, whole } => short_of_cap(
                codes,
                whole,
                *cap as usize,
                first,
                second,
            ),
        }
    }
}

// How far apart the codes are, where that is below the cap and below how far they are over all columns.
fn short_of_cap(
    codes: &Codes,
    whole: &Codes,
    cap: usize,
    first: usize,
    second: usize,
) -> Option<usize>
    requires rows { length whole.now.rows ≡ length codes.now.rows }
    requires first { first < length codes.now.rows }
    requires second { second < length codes.now.rows }
    ensures some { IfSome result (λ apart. (apart ≡ far codes.now first second) × (apart < min cap (far whole.now first second))) }
    ensures none { IfNone result (min cap (far whole.now first second) ≤ far codes.now first second) }
{
    match codes.distance_below(first, second, cap) {
        Some(apart) => match whole.distance_below(first, second, apart + 1) {
            Some(_) => None,
            None => Some(apart),
        },
        None => None,
    }
}
