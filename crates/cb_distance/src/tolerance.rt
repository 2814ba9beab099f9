//! How many lost or spurious symptoms each code tolerates, where each two are as far apart as over all columns, or as a cap.
//!
//! The nearest other code is looked for as the first close one is: what has none of k columns of a code is at least k columns away.
ghost use Rattle.std.specs.Prelude.{◌≡◌, ◌≢◌, ◌<◌, ◌≤◌, ℕ, length, IfOk};
ghost use Rattle.std.specs.List.{All, Contains};
ghost use Rattle.cb_coding.specs.Answers.{radius as radius_of};
ghost use Rattle.cb_coding.specs.Radii.{AreRadii, IsNearestNeed};
ghost use Rattle.cb_distance.specs.Close.{far};
ghost use Rattle.cb_distance.specs.Nearest.{IsCloserOf, IsCapOrNeed, StaysCapOrNeed};

use crate::close::few_holders;
use cb_codes::Codes;
use cb_model::List;
use std::alloc::{AllocError, Global};

/// The radius of each code for a cap, in order.
pub fn radii(alloc: Global, codes: &Codes, cap: u32) -> Result<List<u32>, AllocError>
    ensures { IfOk result (AreRadii codes.now.width codes.now.rows cap) }
{
    let mut radii = List::new(alloc);
    for place in 0..codes.len() {
        radii.push(radius(nearest_need(codes, cap, place)))?;
    }
    Ok(radii)
}

// How near the nearest other code is, or the cap where none is nearer. The first code comes first, since the quiet one is near to most.
fn nearest_need(codes: &Codes, cap: u32, place: usize) -> u32
    requires { place < length codes.now.rows }
    ensures { IsNearestNeed codes.now.width codes.now.rows cap place result }
{
    let code = codes.row(place);
    // A length fits its type, and so does the position after a column. All codes have one width.
    let _width = code.len();
    let _wide = codes.width();
    let mut best = closer(codes, place, 0, cap);
    let mut looked = 0;
    let mut from = 0;
    while looked < best {
        let Some(column) = code.next_one(from) else {
            return nearest_of_all(codes, cap, place, best);
        };
        if let Some(places) = few_holders(codes, column, best as usize) {
            best = closest_among(codes, place, places, best);
            looked += 1;
        }
        from = column + 1;
    }
    best
}

// How near the nearest other code is, found among all codes, where `best` was found before.
fn nearest_of_all(codes: &Codes, cap: u32, place: usize, mut best: u32) -> u32
    requires within { place < length codes.now.rows }
    requires best { IsCapOrNeed codes.now cap place best }
    ensures { IsNearestNeed codes.now.width codes.now.rows cap place result }
{
    for other in 0..codes.len() {
        best = closer(codes, place, other, best);
    }
    best
}

// How near the nearest of these codes is, where that is less than what was found before.
fn closest_among(codes: &Codes, place: usize, places: &[u32], mut best: u32) -> u32
    requires place { place < length codes.now.rows }
    requires places { All (λ other. other < length codes.now.rows) places.now }
    ensures low { result ≤ best }
    ensures far { (j : ℕ) → Contains places.now j → j ≢ place → result ≤ far codes.now place j }
    ensures reached { StaysCapOrNeed codes.now place best result }
{
    for other in places {
        best = closer(codes, place, *other as usize, best);
    }
    best
}

// How far another code is from one, where that is less than what was found so far.
fn closer(codes: &Codes, place: usize, other: usize, best: u32) -> u32
    requires place { place < length codes.now.rows }
    requires other { other < length codes.now.rows }
    ensures { IsCloserOf codes.now place other best result }
{
    if other == place {
        return best;
    }
    match codes.distance_below(place, other, best as usize) {
        Some(distance) => distance as u32,
        None => best,
    }
}

// How many lost or spurious symptoms codes at a distance tolerate.
fn radius(distance: u32) -> u32
    ensures { result ≡ radius_of distance }
{
    distance.saturating_sub(1) / 2
}
