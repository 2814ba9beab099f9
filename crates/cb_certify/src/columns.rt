//! Columns by their positions.
ghost use Rattle.std.specs.Prelude.{◌<◌, length, IfOk};
ghost use Rattle.std.specs.List.{All};
ghost use Rattle.cb_certify.specs.Columns.{AreAt};

use cb_model::List;
use cb_nodes::NodeId;
use std::alloc::{AllocError, Global};

/// The numbers at these positions among all columns.
pub(crate) fn columns_at(
    alloc: Global,
    all: &List<NodeId>,
    places: &List<u32>,
) -> Result<List<NodeId>, AllocError>
    requires { All (λ place. place < length all.now) places.now }
    ensures { IfOk result (AreAt all.now places.now) }
{
    let mut columns = List::new(alloc);
    for k in 0..places.len() {
        let place = places.at(k);
        let column = all.at(*place as usize);
        columns.push(*column)?;
    }
    Ok(columns)
}
