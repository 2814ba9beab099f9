//! The positions of a certificate's columns among all columns.
ghost use Rattle.std.specs.Prelude.{IfOk};
ghost use Rattle.cb_checker.specs.Places.{IsThere, AreThere, IsPlaceOf, ArePlacesOf};

use crate::known::id_at;
use cb_nodes::NodeId;
use cb_topo::ColumnIndex;
use std::alloc::{AllocError, Global};

/// For each number of a column, its position among all columns.
pub(crate) fn places_of(
    alloc: Global,
    all: &ColumnIndex,
    ids: &[NodeId],
    numbers: &[u32],
) -> Result<Vec<u32>, AllocError>
    requires there { AreThere all.now ids.now numbers.now }
    ensures { IfOk result (λ places. ArePlacesOf all.now ids.now numbers.now places.items) }
{
    let mut places = Vec::new(alloc);
    for place in 0..numbers.len() {
        places.push(place_of(all, ids, numbers[place]))?;
    }
    Ok(places)
}

// The position of the column of this number.
fn place_of(all: &ColumnIndex, ids: &[NodeId], number: u32) -> u32
    requires there { IsThere all.now ids.now number }
    ensures { IsPlaceOf all.now ids.now number result }
{
    let id = id_at(ids, number).unwrap();
    all.position(id).unwrap()
}
