//! Codes, each once.
ghost use Rattle.std.specs.Prelude.{◌≡◌, ◌↔◌, ◌<◌, [], length, nat_eq, slice_get, Some, IsTrue, IfOk, OnOk, OnErr};
ghost use Rattle.std.specs.HashMap.{ContainsKey};
ghost use Rattle.cb_codes.specs.EachOnce.{HaveMarks, IsPlaceIn, FindsPlace};
ghost use Rattle.cb_codes.specs.Marks.{IsMark};

use crate::codes::Codes;
use crate::marks::mark_of;
use cb_compact::CompactRow;
use std::alloc::{AllocError, Global};
use std::collections::HashMap;

/// Codes of one width, each once, and for each mark of theirs the position at which the first code with it was to be put.
#[derive(Drop)]
pub struct EachOnce {
    pub codes: Codes,
    pub firsts: HashMap<u64, usize>,
}

impl EachOnce {
    /// No code.
    pub fn new(alloc: Global, width: usize) -> EachOnce
        ensures none { result.codes.rows ≡ [] }
        ensures width { result.codes.width ≡ width }
        ensures marks { HaveMarks result.codes.rows result.firsts }
    {
        EachOnce {
            codes: Codes::new(alloc, width),
            firsts: HashMap::new(alloc),
        }
    }

    /// The position of a code, which goes after the others where it isn't among them. After an `Err` the codes are as before.
    pub fn place_of(&mut self, alloc: Global, code: CompactRow) -> Result<usize, AllocError>
        requires marks { HaveMarks self.old.codes.rows self.old.firsts }
        requires width { length code ≡ self.old.codes.width }
        ensures marks { HaveMarks self.new.codes.rows self.new.firsts }
        ensures width { self.new.codes.width ≡ self.old.codes.width }
        ensures place { IfOk result (FindsPlace code self.old.codes.rows self.new.codes.rows) }
        ensures err { OnErr result (self.new.codes ≡ self.old.codes) }
    {
        let mark = mark_of(alloc, &code)?;
        if let Some(place) = look_up(&self.codes, &mut self.firsts, mark, &code)? {
            return Ok(place);
        }
        let place = self.codes.len();
        self.codes.push_new(code)?;
        Ok(place)
    }

    /// The codes alone, and which of them have each column.
    pub fn into_codes(self, alloc: Global) -> Codes
        ensures { result ≡ self.codes }
    {
        let mut codes = self.codes;
        codes.list_holders(alloc);
        codes
    }
}

// The position of a code with this mark, if it is among the codes. A mark that is new goes to the others, with the position that the code
// is to have. If it isn't put there, as memory runs out, that does no harm: all codes are looked through then.
fn look_up(
    codes: &Codes,
    firsts: &mut HashMap<u64, usize>,
    mark: u64,
    code: &CompactRow,
) -> Result<Option<usize>, AllocError>
    requires marks { HaveMarks codes.now.rows firsts.old }
    requires mark { IsMark code.now mark }
    requires width { length code.now ≡ codes.now.width }
    ensures marks { HaveMarks codes.now.rows firsts.new }
    ensures has { OnOk result (ContainsKey nat_eq firsts.new mark) }
    ensures place { IfOk result (IsPlaceIn codes.now.rows code.now) }
{
    if let Some(first) = firsts.get(&mark) {
        return Ok(place_from(codes, *first, code));
    }
    firsts.insert(mark, codes.len())?;
    Ok(None)
}

// The position of a code, if it is among the codes. It is looked for at one position first.
fn place_from(codes: &Codes, first: usize, code: &CompactRow) -> Option<usize>
    requires width { length code.now ≡ codes.now.width }
    ensures { IsPlaceIn codes.now.rows code.now result }
{
    if first < codes.len() && is_there(codes, first, code) {
        Some(first)
    } else {
        place_among(codes, code)
    }
}

// The position of a code, looked for among all codes.
fn place_among(codes: &Codes, code: &CompactRow) -> Option<usize>
    requires width { length code.now ≡ codes.now.width }
    ensures { IsPlaceIn codes.now.rows code.now result }
{
    for place in 0..codes.len() {
        if is_there(codes, place, code) {
            return Some(place);
        }
    }
    None
}

// Whether a code is at a position.
fn is_there(codes: &Codes, place: usize, code: &CompactRow) -> bool
    requires within { place < length codes.now.rows }
    requires width { length code.now ≡ codes.now.width }
    ensures { IsTrue result ↔ slice_get codes.now.rows place ≡ Some code.now }
{
    // All codes have that width.
    let _width = codes.width();
    codes.row(place).distance_below(code, 1).is_some()
}
