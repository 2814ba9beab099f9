//! Codes of one width.
ghost use Rattle.std.specs.Prelude.{◌≡◌, ◌<◌, ℕ, [], ◌∷◌, ◌++◌, length, IsTrue, OnOk, OnErr, IfSome, SomeIff, slice_get, Some};
ghost use Rattle.cb_coding.specs.Distance.{HaveWidth, all_columns, apart};
ghost use Rattle.cb_codes.specs.Codes.{AreDifferent};
ghost use Rattle.cb_codes.specs.Holders.{holders_of};

use crate::holders::Holders;
use cb_compact::CompactRow;
use std::alloc::{AllocError, Global};
use std::marker::Model;

/// Codes in order, each a row with one position a column, kept by its columns where these are few. Contracts see how many columns there
/// are, and the rows. Once it is asked to, it keeps for each column which codes have it, if that takes little memory.
#[derive(Drop)]
pub struct Codes {
    width: usize,
    rows: Vec<CompactRow>,
    holders: Holders,
    // Whether it is known that no code is there twice.
    differ: bool,
}

impl Model for Codes {
    ghost use Rattle.cb_coding.specs.Distance.{HaveWidth};
    ghost use Rattle.std.specs.Prelude.{◌≡◌, true};
    ghost use Rattle.cb_codes.specs.Codes.{Coded, AreDifferent};
    ghost use Rattle.cb_codes.specs.Holders.{AreHoldersOrNone};

    ghost Value = { Coded };

    ghost view = { λ c. record { width = c.width; rows = c.rows.items } };

    ghost invariant = { λ c. HaveWidth c.width c.rows.items × AreHoldersOrNone c.width c.rows.items c.holders × (c.differ ≡ true → AreDifferent c.rows.items) };
}

impl Codes {
    /// No code.
    pub fn new(alloc: Global, width: usize) -> Codes
        ensures width { result.width ≡ width }
        ensures none { result.rows ≡ [] }
    {
        Codes {
            width,
            rows: Vec::new(alloc),
            holders: Holders::none(alloc),
            differ: true,
        }
    }

    /// Adds a code after the others. Where memory runs out, that code is dropped.
    pub fn push(&mut self, code: CompactRow) -> Result<(), AllocError>
        requires { length code ≡ self.old.width }
        ensures width { self.new.width ≡ self.old.width }
        ensures pushed { OnOk result (self.new.rows ≡ self.old.rows ++ code ∷ []) }
        ensures err { OnErr result (self.new ≡ self.old) }
    {
        self.rows.push(code)?;
        self.holders.clear();
        self.differ = false;
        Ok(())
    }

    /// As `push`, of a code that isn't there yet: where no code was there twice, none is afterwards, and this is known.
    pub fn push_new(&mut self, code: CompactRow) -> Result<(), AllocError>
        requires width { length code ≡ self.old.width }
        requires new { (i : ℕ) → ¬ (slice_get self.old.rows i ≡ Some code) }
        ensures width { self.new.width ≡ self.old.width }
        ensures pushed { OnOk result (self.new.rows ≡ self.old.rows ++ code ∷ []) }
        ensures err { OnErr result (self.new ≡ self.old) }
    {
        let differ = self.differ;
        self.push(code)?;
        self.differ = differ;
        Ok(())
    }

    /// Whether it is known that no code is there twice. It takes no search.
    pub fn differ(&self) -> bool
        ensures { IsTrue result → AreDifferent self.now.rows }
    {
        self.differ
    }

    /// Lists which codes have each column, once all codes are there. The lists are given up if a code is added later.
    pub fn list_holders(&mut self, alloc: Global)
        ensures { self.new ≡ self.old }
    {
        self.holders = Holders::of(alloc, self.width, &self.rows);
    }

    /// How many codes there are.
    pub fn len(&self) -> usize
        ensures { result ≡ length self.now.rows }
    {
        self.rows.len()
    }

    /// How many columns there are.
    pub fn width(&self) -> usize
        ensures width { result ≡ self.now.width }
        ensures all { HaveWidth self.now.width self.now.rows }
    {
        self.width
    }

    /// The code at a position.
    pub fn row(&self, i: usize) -> &CompactRow
        requires { i < length self.now.rows }
        ensures { slice_get self.now.rows i ≡ Some result.now }
    {
        &self.rows[i]
    }

    /// At how many columns two codes differ, where these are fewer than the limit. It stops once there are as many.
    pub fn distance_below(&self, i: usize, j: usize, limit: usize) -> Option<usize>
        requires first { i < length self.now.rows }
        requires second { j < length self.now.rows }
        ensures { let distance = apart (all_columns self.now.width) self.now.rows i j in
            SomeIff result (distance < limit) distance }
    {
        self.rows[i].distance_below(&self.rows[j], limit)
    }

    /// The positions of the codes that have a column, in order. It is none if there are no such lists.
    pub fn holders(&self, column: usize) -> Option<&[u32]>
        ensures { IfSome result (λ places. places.now ≡ holders_of self.now.rows column) }
    {
        let starts = &self.holders.starts;
        if starts.is_empty() || self.width <= column {
            return None;
        }
        let start = starts[column] as usize;
        let end = starts[column + 1] as usize;
        Some(&self.holders.places[start..end])
    }
}
