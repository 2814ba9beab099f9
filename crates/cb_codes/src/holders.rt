//! Which codes have a column, for all columns at once. Where that would take too much memory there are no lists at all.
ghost use Rattle.std.specs.Prelude.{◌≡◌, ◌<◌, ◌≤◌, ◌+◌, ◌^◌, List, Bool, [], length, replicate, IfOk, IfSome};
ghost use Rattle.cb_coding.specs.Distance.{HaveWidth};
ghost use Rattle.cb_codes.specs.Holders.{AreHolders, AreHoldersOrNone, AreCounted, AreStarts, AreHolderLists, HaveEntries};

use cb_compact::CompactRow;
use std::alloc::{AllocError, Global};

// More columns, or more ones of all codes together, are not worth their memory.
const MOST_COLUMNS: usize = 65_536;

const MOST_ONES: usize = 4_194_304;

/// For each column the positions of the codes that have it, in order, one list after the other. The entry of a column says where its list
/// starts, and the next one where it ends. If there are no lists there is no entry.
#[derive(Drop)]
pub struct Holders {
    pub(crate) starts: Vec<u32>,
    pub(crate) places: Vec<u32>,
}

impl Holders {
    /// No lists.
    pub(crate) fn none(alloc: Global) -> Holders
        ensures { result.starts.items ≡ [] }
    {
        Holders {
            starts: Vec::new(alloc),
            places: Vec::new(alloc),
        }
    }

    /// The lists of these codes, or none.
    pub(crate) fn of(alloc: Global, width: usize, codes: &[CompactRow]) -> Holders
        requires { HaveWidth width codes.now }
        ensures { AreHoldersOrNone width codes.now result }
    {
        if MOST_COLUMNS < width || u32::MAX as usize <= codes.len() || are_too_many(codes) {
            return Holders::none(alloc);
        }
        match lists_of(alloc, width, codes) {
            Ok(Some(lists)) => lists,
            _ => Holders::none(alloc),
        }
    }

    /// Gives up the lists.
    pub(crate) fn clear(&mut self)
        ensures { self.new.starts.items ≡ [] }
    {
        self.starts.clear();
        self.places.clear();
    }
}

// Whether these codes have too many columns together.
fn are_too_many(codes: &[CompactRow]) -> bool {
    let mut ones: usize = 0;
    for code in codes {
        ones = ones.saturating_add(code.ones());
    }
    MOST_ONES < ones
}

// The lists, made by counting: how long each is, then where it starts, and then its positions. It is none where they are too long together.
fn lists_of(
    alloc: Global,
    width: usize,
    codes: &[CompactRow],
) -> Result<Option<Holders>, AllocError>
    requires wide { HaveWidth width codes.now }
    requires narrow { width ≤ 65536 }
    requires few { length codes.now < 2 ^ 32 }
    ensures { IfOk result (λ made. IfSome made (AreHolders width codes.now)) }
{
    let mut starts = vec![in alloc; 0_u32; width + 1]?;
    let entries: &mut [u32] = &mut starts;
    count_all(codes, entries);
    let Some(total) = add_up(entries) else {
        return Ok(None);
    };
    let mut places = vec![in alloc; 0_u32; total as usize]?;
    list_all(codes, entries, &mut places);
    Ok(Some(Holders { starts, places }))
}

// Counts in the entry after that of each column the codes that have it.
fn count_all(codes: &[CompactRow], counts: &mut [u32])
    requires entries { HaveEntries counts.old codes.now }
    requires few { length codes.now < 2 ^ 32 }
    requires zeros { counts.old ≡ replicate (length counts.old) 0 }
    ensures { AreCounted codes.now (length codes.now) counts.new }
{
    for place in 0..codes.len() {
        count(codes, place, counts);
    }
}

// Counts a code for each column that it has.
fn count(codes: &[CompactRow], place: usize, counts: &mut [u32])
    requires within { place < length codes.now }
    requires entries { HaveEntries counts.old codes.now }
    requires few { length codes.now < 2 ^ 32 }
    requires counted { AreCounted codes.now place counts.old }
    ensures { AreCounted codes.now (place + 1) counts.new }
{
    let code = &codes[place];
    let Some(columns) = code.positions() else {
        return count_found(codes, place, counts);
    };
    for column in columns {
        counts[*column as usize + 1] += 1;
    }
}

// As `count`, if the columns of the code aren't stored.
fn count_found(codes: &[CompactRow], place: usize, counts: &mut [u32])
    requires within { place < length codes.now }
    requires entries { HaveEntries counts.old codes.now }
    requires few { length codes.now < 2 ^ 32 }
    requires counted { AreCounted codes.now place counts.old }
    ensures { AreCounted codes.now (place + 1) counts.new }
{
    let code = &codes[place];
    // A length fits its type, and so does the position after a column.
    let _width = code.len();
    let mut from = 0;
    while let Some(column) = code.next_one(from) {
        from = column + 1;
        counts[from] += 1;
    }
}

// Makes of counts where lists of as many start, one after the other, and returns where the last one ends.
fn add_up(counts: &mut [u32]) -> Option<u32>
    ensures { IfSome result (λ total. (codes : List (List Bool)) → AreCounted codes (length codes) counts.old → AreStarts codes total counts.new) }
{
    let mut total: u32 = 0;
    for next in 1..counts.len() {
        let many = counts[next];
        counts[next] = total;
        total = total.checked_add(many)?;
    }
    Some(total)
}

// Lists each code for the columns that it has. The entry after that of a column says where its next position goes, and in the end where its
// list ends, which is where the next one starts.
fn list_all(codes: &[CompactRow], nexts: &mut [u32], places: &mut [u32])
    requires entries { HaveEntries nexts.old codes.now }
    requires few { length codes.now < 2 ^ 32 }
    requires short { length places.old < 2 ^ 32 }
    requires none { AreHolderLists codes.now 0 nexts.old places.old }
    ensures { AreHolderLists codes.now (length codes.now) nexts.new places.new }
{
    for place in 0..codes.len() {
        list(codes, place, nexts, places);
    }
}

// Lists a code for the columns that it has.
fn list(codes: &[CompactRow], place: usize, nexts: &mut [u32], places: &mut [u32])
    requires within { place < length codes.now }
    requires entries { HaveEntries nexts.old codes.now }
    requires few { length codes.now < 2 ^ 32 }
    requires short { length places.old < 2 ^ 32 }
    requires before { AreHolderLists codes.now place nexts.old places.old }
    ensures { AreHolderLists codes.now (place + 1) nexts.new places.new }
{
    let code = &codes[place];
    let Some(columns) = code.positions() else {
        return list_found(codes, place, nexts, places);
    };
    for column in columns {
        let entry = *column as usize + 1;
        let next = nexts[entry];
        places[next as usize] = place as u32;
        nexts[entry] = next + 1;
    }
}

// As `list`, if the columns of the code aren't stored.
fn list_found(codes: &[CompactRow], place: usize, nexts: &mut [u32], places: &mut [u32])
    requires within { place < length codes.now }
    requires entries { HaveEntries nexts.old codes.now }
    requires few { length codes.now < 2 ^ 32 }
    requires short { length places.old < 2 ^ 32 }
    requires before { AreHolderLists codes.now place nexts.old places.old }
    ensures { AreHolderLists codes.now (place + 1) nexts.new places.new }
{
    let code = &codes[place];
    // A length fits its type, and so does the position after a column.
    let _width = code.len();
    let mut from = 0;
    while let Some(column) = code.next_one(from) {
        from = column + 1;
        let next = nexts[from];
        places[next as usize] = place as u32;
        nexts[from] = next + 1;
    }
}
