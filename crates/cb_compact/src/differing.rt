//! The positions at which two rows differ, one after the other.
ghost use Rattle.std.specs.Prelude.{◌≡◌, ◌+◌, length, IfSome, IfNone};
ghost use Rattle.cb_compact.specs.Compact.{IsNextDiffering, DifferNowhereFrom};
ghost use Rattle.cb_compact.specs.Cursors.{IsCursorAt};
ghost use Rattle.cb_compact.specs.Course.{IsOnCourse};

use crate::apart::next_apart;
use crate::compact::CompactRow;
use crate::cursor::Cursor;
use crate::merged::{Merged, merged_of};
use cb_bits::Row;

/// How two rows are gone through: by the words of both, by two lists of positions, or by the ones.
#[derive(Drop)]
enum Course<'a> {
    Words(&'a Row, &'a Row),
    Lists(Merged<'a>),
    Ones(Cursor, Cursor),
}

/// Two rows that are gone through together, from a position on.
#[derive(Drop)]
pub struct Differing<'a> {
    left: &'a CompactRow,
    right: &'a CompactRow,
    from: usize,
    course: Course<'a>,
}

impl<'a> Differing<'a> {
    /// All positions at which two rows differ.
    pub fn of(left: &'a CompactRow, right: &'a CompactRow) -> Differing<'a>
        ensures left { result.left.now ≡ left.now }
        ensures right { result.right.now ≡ right.now }
        ensures from { result.from ≡ 0 }
        ensures course { IsOnCourse left.now right.now 0 result.course }
    {
        let course = course_of(left, right);
        Differing {
            left,
            right,
            from: 0,
            course,
        }
    }

    /// The next position at which the two differ.
    #[inline(always)]
    pub fn next(&mut self) -> Option<usize>
        requires same { length self.old.left.now ≡ length self.old.right.now }
        requires course { IsOnCourse self.old.left.now self.old.right.now self.old.from self.old.course }
        ensures left { self.new.left.now ≡ self.old.left.now }
        ensures right { self.new.right.now ≡ self.old.right.now }
        ensures course { IsOnCourse self.new.left.now self.new.right.now self.new.from self.new.course }
        ensures next { IfSome result (IsNextDiffering self.old.left.now self.old.right.now self.old.from) }
        ensures from { IfSome result (λ place. self.new.from ≡ place + 1) }
        ensures none { IfNone result (DifferNowhereFrom self.old.left.now self.old.right.now self.old.from) }
    {
        match &mut self.course {
            Course::Words(one, other) => next_by_words(one, other, &mut self.from),
            Course::Lists(lists) => lists.next(self.left, self.right, &mut self.from),
            Course::Ones(one, other) => {
                next_by_ones(self.left, self.right, one, other, &mut self.from)
            }
        }
    }
}

// Two whole rows go by their words, two lists by their positions, and others by their ones.
fn course_of<'a>(left: &'a CompactRow, right: &'a CompactRow) -> Course<'a>
    ensures { IsOnCourse left.now right.now 0 result }
{
    if let Some(one) = left.whole() {
        if let Some(other) = right.whole() {
            return Course::Words(one, other);
        }
    }
    match merged_of(left, right) {
        Some(lists) => Course::Lists(lists),
        None => Course::Ones(Cursor::of(left), Cursor::of(right)),
    }
}

// The next position at which two rows differ, by the words of both.
fn next_by_words(one: &Row, other: &Row, from: &mut usize) -> Option<usize>
    requires { length one.now ≡ length other.now }
    ensures next { IfSome result (IsNextDiffering one.now other.now from.old) }
    ensures from { IfSome result (λ place. from.new ≡ place + 1) }
    ensures none { IfNone result (DifferNowhereFrom one.now other.now from.old) }
{
    // A length fits its type, and so does the position after one.
    let _len = one.len();
    let place = next_apart(one, other, *from)?;
    *from = place + 1;
    Some(place)
}

// The next position at which two rows differ, by the ones of both.
fn next_by_ones(
    left: &CompactRow,
    right: &CompactRow,
    one: &mut Cursor,
    other: &mut Cursor,
    from: &mut usize,
) -> Option<usize>
    requires same { length left.now ≡ length right.now }
    requires one { IsCursorAt left.now from.old one.old.before one.old.next }
    requires other { IsCursorAt right.now from.old other.old.before other.old.next }
    ensures one { IsCursorAt left.now from.new one.new.before one.new.next }
    ensures other { IsCursorAt right.now from.new other.new.before other.new.next }
    ensures next { IfSome result (IsNextDiffering left.now right.now from.old) }
    ensures from { IfSome result (λ place. from.new ≡ place + 1) }
    ensures none { IfNone result (DifferNowhereFrom left.now right.now from.old) }
{
    // A length fits its type, and so does the position after a one.
    let _len = left.len();
    while let Some(place) = one.lower(other) {
        let is = one.pass(left, place);
        let too = other.pass(right, place);
        *from = place + 1;
        if is != too {
            return Some(place);
        }
    }
    None
}
