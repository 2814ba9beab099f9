//! One group, or two at once.
ghost use Rattle.std.specs.Prelude.{◌≡◌, ◌<◌, ◌≤◌, ◌^◌, ◌++◌, [], ◌∷◌, cond, length, IfOk, IfErr, OnOk};
ghost use Rattle.cb_coding.specs.Answers.{radius as radius_of};
ghost use Rattle.cb_pairs.specs.Separation.{IsSeparation};
ghost use Rattle.cb_pairs.specs.Fits.{AreFits, group_limit, ArePairsRefused};

use crate::codes::{codes_of, rows_of};
use crate::guess::{Fits, Guess, PairFault};
use crate::guesses::guesses_of;
use crate::landmarks::landmarks_of;
use crate::nearest::{is_at, least_from};
use crate::separation::separation_of;
use cb_bits::Row;
use cb_codes::Codes;
use cb_model::List;
use std::alloc::{AllocError, Global};
use std::marker::Model;

// More groups make more guesses than are gone through.
const MOST_GROUPS: usize = 128;

/// The guesses of groups, with their codes. Contracts see the codes of the groups.
#[derive(Drop)]
pub struct Pairs<'g> {
    groups: &'g Codes,
    guesses: List<Guess>,
    // The code of each guess.
    codes: List<Row>,
    separation: u32,
}

impl<'g> Model for Pairs<'g> {
    ghost use Rattle.cb_codes.specs.Codes.{Coded};
    ghost use Rattle.cb_pairs.specs.Kept.{AreGuessCodes};

    ghost Value = { Coded };

    ghost view = { λ p. p.groups.now };

    ghost invariant = { λ p. AreGuessCodes p.groups.now p.guesses p.codes p.separation };
}

impl<'g> Pairs<'g> {
    /// The guesses of `groups`, the first of which is the quiet one.
    pub fn of(alloc: Global, groups: &'g Codes) -> Result<Pairs<'g>, PairFault>
        requires some { 0 < length groups.now.rows }
        requires places_fit { length groups.now.rows < 2 ^ 32 }
        requires columns_fit { groups.now.width < 2 ^ 32 }
        ensures pairs { IfOk result (λ pairs. pairs ≡ groups.now) }
        ensures few { OnOk result (length groups.now.rows ≤ group_limit) }
        ensures fault { IfErr result (ArePairsRefused (length groups.now.rows)) }
    {
        if MOST_GROUPS < groups.len() {
            return Err(PairFault::TooManyGroups {
                groups: groups.len() as u32,
            });
        }
        match pairs_of(alloc, groups) {
            Ok(pairs) => Ok(pairs),
            Err(_) => Err(PairFault::NoMemory),
        }
    }

    /// The least distance of two guesses whose codes differ, or 1 where none do.
    pub fn separation(&self) -> u32
        ensures { IsSeparation self.now.width self.now.rows result }
    {
        self.separation
    }

    /// The guesses nearest to a word, which says of each column whether it is raised.
    pub fn fits(&self, alloc: Global, word: &Row) -> Result<Fits, AllocError>
        requires { length word.now ≡ self.now.width }
        ensures { IfOk result (AreFits self.now.width self.now.rows word.now) }
    {
        // All codes have that width.
        let _width = self.groups.width();
        let distance = least_from(&self.codes, word);
        let mut guesses = Vec::new(alloc);
        for at in 0..self.guesses.len() {
            let keep = is_at(word, self.codes.at(at), distance);
            keep_if(&mut guesses, *self.guesses.at(at), keep)?;
        }
        Ok(Fits {
            distance: distance as u32,
            guesses: List::of(guesses),
            sure: distance <= radius(self.separation) as usize,
        })
    }
}

// The guesses of so few groups.
fn pairs_of<'g>(alloc: Global, groups: &'g Codes) -> Result<Pairs<'g>, AllocError>
    requires some { 0 < length groups.now.rows }
    requires columns_fit { groups.now.width < 2 ^ 32 }
    requires few { length groups.now.rows ≤ group_limit }
    ensures { IfOk result (λ pairs. pairs ≡ groups.now) }
{
    let width = groups.width();
    let guesses = guesses_of(alloc, groups.len() as u32)?;
    let rows = rows_of(alloc, groups)?;
    let codes = codes_of(alloc, &rows, &guesses)?;
    let marks = landmarks_of(alloc, &rows, &guesses, &codes, width)?;
    let separation = separation_of(alloc, &rows, &codes, &marks, width)?;
    Ok(Pairs {
        groups,
        guesses,
        codes,
        separation,
    })
}

// Adds a guess where it is to be kept.
fn keep_if(guesses: &mut Vec<Guess>, guess: Guess, keep: bool) -> Result<(), AllocError>
    ensures { OnOk result (guesses.new.items ≡ guesses.old.items ++ cond keep (guess ∷ []) []) }
{
    if keep {
        guesses.push(guess)?;
    }
    Ok(())
}

/// How many lost or spurious symptoms guesses of that separation put up with.
pub fn radius(separation: u32) -> u32
    ensures { result ≡ radius_of separation }
{
    separation.saturating_sub(1) / 2
}
