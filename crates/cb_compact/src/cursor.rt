//! The ones of a row, one after the other.
ghost use Rattle.std.specs.Prelude.{◌≡◌, ◌+◌, false, slice_index_or};
ghost use Rattle.cb_compact.specs.Cursors.{is_at, lower_of, IsCursorAt};

use crate::compact::CompactRow;

/// How far a row was gone through: its next one, and how many come before.
#[derive(Drop)]
pub struct Cursor {
    before: usize,
    next: Option<usize>,
}

impl Cursor {
    /// At the first position of a row.
    pub fn of(row: &CompactRow) -> Cursor
        ensures { IsCursorAt row.now 0 result.before result.next }
    {
        Cursor {
            before: 0,
            next: row.one_after(0, 0),
        }
    }

    /// The lower of the next ones of two rows, or the only one.
    pub fn lower(&self, other: &Cursor) -> Option<usize>
        ensures { result ≡ lower_of self.now.next other.now.next }
    {
        match self.next {
            None => other.next,
            Some(k) => match other.next {
                None => Some(k),
                Some(j) => Some(k.min(j)),
            },
        }
    }

    /// Goes on past a position before which no one is left, and says whether it is a one itself.
    pub fn pass(&mut self, row: &CompactRow, place: usize) -> bool
        requires { IsCursorAt row.now place self.old.before self.old.next }
        ensures cursor { IsCursorAt row.now (place + 1) self.new.before self.new.next }
        ensures is { result ≡ slice_index_or row.now place false }
    {
        // A length fits its type, and so does what is after a one.
        let _len = row.len();
        let is = self.stands_at(place);
        if is {
            self.before += 1;
            self.next = row.one_after(self.before, place + 1);
        }
        is
    }

    // Whether the next one is at a position.
    fn stands_at(&self, place: usize) -> bool
        ensures { result ≡ is_at self.now.next place }
    {
        match self.next {
            None => false,
            Some(next) => next == place,
        }
    }
}
