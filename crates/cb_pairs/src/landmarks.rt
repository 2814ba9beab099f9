//! How far codes are from those of single groups, which tells without a look at two codes that they are far apart.
ghost use Rattle.std.specs.Prelude.{◌≡◌, ◌<◌, ℕ, List as Items, Bool, length, IsTrue, IfOk};
ghost use Rattle.std.specs.List.{All};
ghost use Rattle.cb_coding.specs.Distance.{HaveWidth};
ghost use Rattle.cb_pairs.specs.Guesses.{IsOfGroups};
ghost use Rattle.cb_pairs.specs.Landmarks.{AreDistances, AreFar, AreLandmarks, HaveLandmarks, AreSeen, AreSeenBy, IsLandmark};

use crate::guess::Guess;
use cb_bits::Row;
use cb_model::List;
use std::alloc::{AllocError, Global};

/// A group, and how far its code is from that of a guess.
#[derive(Clone, Copy, Debug)]
pub(crate) struct Landmark {
    place: usize,
    distance: usize,
}

/// The groups that a guess names; one that stands alone counts twice.
#[derive(Clone, Copy, Debug)]
pub(crate) struct Landmarks {
    first: Landmark,
    second: Landmark,
}

/// The landmarks of each guess. `rows` are the codes of the groups, `codes` those of the guesses.
pub(crate) fn landmarks_of(
    alloc: Global,
    rows: &List<Row>,
    guesses: &List<Guess>,
    codes: &List<Row>,
    width: usize,
) -> Result<List<Landmarks>, AllocError>
    requires rows { HaveWidth width rows.now }
    requires codes { HaveWidth width codes.now }
    requires within { All (IsOfGroups (length rows.now)) guesses.now }
    requires all { length codes.now ≡ length guesses.now }
    ensures { IfOk result (HaveLandmarks width rows.now codes.now) }
{
    let mut marks = List::new(alloc);
    for at in 0..guesses.len() {
        let guess = *guesses.at(at);
        let code = codes.at(at);
        let first = as_seen(rows, guess.first as usize, code);
        let second = as_seen(rows, second_or_first(guess) as usize, code);
        marks.push(Landmarks { first, second })?;
    }
    Ok(marks)
}

// The second group of a guess, or the first one where it stands alone.
fn second_or_first(guess: Guess) -> u32
    ensures { (count : ℕ) → IsOfGroups count guess → result < count }
{
    guess.second.unwrap_or(guess.first)
}

// The group at a position, as seen from a code.
fn as_seen(rows: &List<Row>, place: usize, code: &Row) -> Landmark
    requires within { place < length rows.now }
    requires wide { HaveWidth (length code.now) rows.now }
    ensures { IsLandmark (length code.now) rows.now code.now result }
{
    Landmark {
        place,
        distance: rows.at(place).distance(code),
    }
}

/// How far a code is from that of each group.
pub(crate) fn distances_of(
    alloc: Global,
    code: &Row,
    rows: &List<Row>,
) -> Result<List<usize>, AllocError>
    requires { HaveWidth (length code.now) rows.now }
    ensures { IfOk result (AreDistances (length code.now) rows.now code.now) }
{
    let mut distances = List::new(alloc);
    for place in 0..rows.len() {
        distances.push(code.distance(rows.at(place)))?;
    }
    Ok(distances)
}

/// Whether a code with these distances from the groups and one with these landmarks are at least `limit` apart: by way of
/// a landmark it is no shorter.
pub(crate) fn are_far(distances: &List<usize>, marks: Landmarks, limit: usize) -> bool
    requires first { marks.first.place < length distances.now }
    requires second { marks.second.place < length distances.now }
    ensures { IsTrue result → (one other : Items Bool) → AreSeen one other distances.now marks → AreFar one other limit }
{
    is_far(distances, marks.first, limit) || is_far(distances, marks.second, limit)
}

// Whether they are by one landmark.
fn is_far(distances: &List<usize>, mark: Landmark, limit: usize) -> bool
    requires { mark.place < length distances.now }
    ensures { IsTrue result → (one other : Items Bool) → AreSeenBy one other distances.now mark → AreFar one other limit }
{
    let distance = *distances.at(mark.place);
    limit <= distance.saturating_sub(mark.distance)
}
