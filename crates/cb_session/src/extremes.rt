//! The least and the greatest of radii.
ghost use Rattle.std.specs.Prelude.{◌<◌, length};
ghost use Rattle.cb_session.specs.Extremes.{AreExtremeRadii};

use cb_model::List;

/// The least and the greatest radius.
pub(crate) fn least_and_greatest(radii: &List<u32>) -> (u32, u32)
    requires { 0 < length radii.now }
    ensures { AreExtremeRadii radii.now result.0 result.1 }
{
    let mut least = *radii.at(0);
    let mut greatest = least;
    for radius in radii.as_slice() {
        least = least.min(*radius);
        greatest = greatest.max(*radius);
    }
    (least, greatest)
}
