//! The codebook in use: for a distance, or for a cap.
ghost use Rattle.std.specs.Prelude.{◌≡◌, ◌≤◌, ◌<◌, ◌^◌, ◌↔◌, length, IfOk, IsTrue};
ghost use Rattle.cb_coding.specs.Answers.{radius as radius_of};
ghost use Rattle.cb_log.specs.declared.event.Event.TheVariants.{BookMade};
ghost use Rattle.cb_session.specs.InUse.{IsInUseFor, KeepsDistance, ReportsCapped, in_use_of};

use crate::extremes::least_and_greatest;
use cb_codes::Codes;
use cb_coding::{Book, CapBook};
use cb_log::Event;
use cb_model::{List, Wish};
use cb_reduce::{book_in_use, reduce_cap};
use std::alloc::{AllocError, Global};

/// The codebook in use.
#[derive(Drop)]
pub(crate) enum BookInUse {
    /// Over its columns any two codes are as far apart as its distance.
    Plain(Book),
    /// Over its columns any two codes are as far apart as over all, or as its cap. Each has a radius of its own.
    Capped(CapBook),
}

impl BookInUse {
    /// For a cap the codebook for it. For a distance the codebook at it, if any two codes are at least that far apart; else the one at the
    /// least distance of two codes.
    pub fn of(alloc: Global, codes: &Codes, wish: Wish) -> Result<BookInUse, AllocError>
        requires places_fit { length codes.now.rows ≤ 2 ^ 16 }
        requires columns_fit { codes.now.width ≤ 2 ^ 16 }
        ensures { IfOk result (IsInUseFor codes.now.width codes.now.rows wish) }
    {
        match wish {
            Wish::Plain(distance) => Ok(BookInUse::Plain(book_in_use(alloc, codes, distance)?)),
            Wish::Cap(cap) => Ok(BookInUse::Capped(reduce_cap(alloc, codes, cap)?)),
        }
    }

    /// Its columns.
    pub fn columns(&self) -> &List<u32>
        ensures { result.now ≡ (in_use_of self.now).kept }
    {
        match self {
            BookInUse::Plain(book) => &book.columns,
            BookInUse::Capped(book) => &book.columns,
        }
    }

    /// Whether it keeps all codes this far apart, by its own distance. Of one for a cap that isn't known.
    pub fn keeps(&self, distance: u32) -> bool
        ensures { IsTrue result ↔ KeepsDistance self.now distance }
    {
        match self {
            BookInUse::Plain(book) => distance <= book.distance,
            BookInUse::Capped(_) => false,
        }
    }
}

/// Reports the numbers of a codebook for a distance, with those of all columns and of all groups.
pub(crate) fn plain_event(book: &Book, of: u32, groups: u32) -> Event
    requires { length book.now.columns < 2 ^ 32 }
    ensures { result ≡ BookMade (length book.now.columns) of book.now.distance (radius_of book.now.distance) groups }
{
    Event::BookMade {
        columns: book.columns.len() as u32,
        of,
        distance: book.distance,
        radius: radius(book.distance),
        groups,
    }
}

/// Reports the numbers of a codebook for a cap, with those of all columns and of all groups.
pub(crate) fn capped_event(book: &CapBook, of: u32, groups: u32) -> Event
    requires few { length book.now.columns < 2 ^ 32 }
    requires some { 0 < length book.now.radii }
    ensures { ReportsCapped book.now of groups result }
{
    let (least, greatest) = least_and_greatest(&book.radii);
    Event::CapMade {
        columns: book.columns.len() as u32,
        of,
        cap: book.cap,
        least,
        greatest,
        groups,
    }
}

// How many lost or spurious symptoms codes at a distance tolerate.
fn radius(distance: u32) -> u32
    ensures { result ≡ radius_of distance }
{
    distance.saturating_sub(1) / 2
}
