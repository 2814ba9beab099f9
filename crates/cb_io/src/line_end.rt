//! Where the next line of a file ends.
ghost use Rattle.std.specs.Prelude.{◌≡◌, ◌+◌, ◌^◌, ◌<◌, ◌≤◌, false, length, take, drop, IfOk, IfErr, IfSome, IfNone, IsErrOf};
ghost use Rattle.cb_io.specs.LineReading.{IsOneLine, BeginWith};
ghost use Rattle.cb_io.specs.LineSearch.{ThrowsLong, IsLostWhole, FindsLineEnd, GivesUp, length_with_lf, size_of};
ghost use Rattle.cb_io.specs.Outside.{ReadFailed};
ghost use Rattle.cb_io.specs.Pieces.{piece_limit};

use crate::hand::Hand;
use crate::{Files, ReadStop};
use memchr::memchr;

// Where a line ends: how many of its bytes were thrown away, how many of the buffered ones it has, and whether it is the last one,
// which the end of the file ends, not a LF.
#[derive(Clone, Copy)]
pub(crate) struct LineEnd {
    pub(crate) lost: u64,
    pub(crate) length: usize,
    pub(crate) is_last: bool,
}

impl LineEnd {
    // How many of the buffered bytes are those of the line, with its LF.
    pub(crate) fn bytes_with_lf(&self) -> usize
        requires { length_with_lf self.now < 2 ^ 64 }
        ensures { result ≡ length_with_lf self.now }
    {
        if self.is_last {
            self.length
        } else {
            self.length + 1
        }
    }

    // How many bytes the line has in all, with its LF.
    pub(crate) fn size(&self) -> u64
        requires { size_of self.now < 2 ^ 64 }
        ensures { result ≡ size_of self.now }
    {
        self.lost + self.bytes_with_lf() as u64
    }
}

// The position of the first LF, which isn't among the bytes that were searched before.
fn find_lf(bytes: &[u8], searched: usize) -> Option<usize>
    requires within { searched ≤ length bytes.now }
    requires none { IsOneLine (take searched bytes.now) }
    ensures none { IfNone result (IsOneLine bytes.now) }
    ensures lf { IfSome result (λ at. BeginWith bytes.now (take at bytes.now) (drop (at + 1) bytes.now)) }
    ensures new { IfSome result (λ at. searched ≤ at) }
    ensures within { IfSome result (λ at. at < length bytes.now) }
{
    let at = memchr(b'\n', &bytes[searched..])?;
    Some(searched + at)
}

// The line that a LF ends, if it fits into `capacity`.
fn end_at(lost: u64, length: usize, capacity: u64) -> Result<LineEnd, ReadStop>
    requires { lost ≤ capacity }
    ensures end { IfOk result (λ end. end ≡ record { lost = lost; length = length; is_last = false }) }
    ensures within { IfOk result (λ end. lost + length < capacity) }
    ensures over { IfErr result (λ stop. (stop ≡ ReadStop.TooMuch) × (capacity ≤ lost + length)) }
{
    if length as u64 >= capacity - lost {
        return Err(ReadStop::TooMuch);
    }
    Ok(LineEnd {
        lost,
        length,
        is_last: false,
    })
}

// Throws away what is buffered of a line without its end, if the line is too long, and says how many bytes of it are lost.
fn throw_long(hand: &mut Hand, lost: u64, line_most: usize, capacity: u64) -> Result<u64, ReadStop>
    requires capacity { lost ≤ capacity }
    requires long { IsLostWhole line_most lost }
    ensures size { hand.new.size ≡ hand.old.size }
    ensures throws { IfOk result (ThrowsLong line_most hand.old hand.new lost) }
    ensures within { IfOk result (λ now_lost. now_lost + length hand.new.kept ≤ capacity) }
    ensures over { IfErr result (λ stop. (stop ≡ ReadStop.TooMuch) × (capacity < lost + length hand.old.kept)) }
{
    let length = hand.kept().len();
    if length as u64 > capacity - lost {
        return Err(ReadStop::TooMuch);
    }
    let open = lost + length as u64;
    if open <= line_most as u64 {
        return Ok(lost);
    }
    hand.take_text(0, length);
    Ok(open)
}

// Reads on to the end of the next line. A line has at most `line_most` bytes without its LF, and `capacity` has at least one more.
pub(crate) fn find_end<F: Files>(
    hand: &mut Hand,
    files: &mut F,
    name: &str,
    line_most: usize,
    capacity: u64,
) -> Result<LineEnd, ReadStop>
    requires few { length hand.old.kept ≤ piece_limit }
    requires size { line_most < hand.old.size }
    ensures size { hand.new.size ≡ hand.old.size }
    ensures found { IfOk result (FindsLineEnd hand.old.kept (F.tells files.old) (F.tells files.new) name.now line_most capacity hand.new) }
    ensures stopped { IfErr result (GivesUp hand.old.kept (F.tells files.old) (F.tells files.new) name.now capacity) }
    ensures in_hand { (¬ IsOneLine hand.old.kept) → files.new ≡ files.old }
    ensures failed { IsErrOf result ReadStop.ReadFault → ReadFailed (F.tells files.old) (F.tells files.new) name.now }
{
    let mut lost = 0;
    let mut searched = 0;
    'reads: loop {
        if let Some(length) = find_lf(hand.kept(), searched) {
            return end_at(lost, length, capacity);
        }
        lost = throw_long(hand, lost, line_most, capacity)?;
        searched = hand.kept().len();
        if hand.refill(files, name)? == 0 {
            return Ok(LineEnd {
                lost,
                length: searched,
                is_last: true,
            });
        }
    }
}
