//! The differences of a station's targets, as angles on the circle.
ghost use Rattle.std.specs.Prelude.{◌≡◌, ◌<◌, All, length, slice_index_or, IfOk};
ghost use Rattle.directions_apart.specs.Apart.{stated_by};
ghost use Rattle.exact_adjustment.specs.Adjustments.{choice_by};
ghost use Rattle.station_differences.specs.Angles.{AreAngles};
ghost use Rattle.station_differences.specs.StatedTargets.{choice_at};

use directions_apart::difference;
use exact_adjustment::Adjustment;
use std::alloc::{AllocError, Global};
use wide_number::Wide;

/// The angles of the targets at these places of an adjustment; a direction is stated of each.
pub(crate) fn angles(
    alloc: Global,
    adjustment: &Adjustment,
    stated: &[i64],
    places: &[usize],
) -> Result<Vec<Wide>, AllocError>
    requires each { length stated.now ≡ length adjustment.now.directions }
    requires inside { All (λ place. place < length stated.now) places.now }
    ensures { IfOk result (λ angles. AreAngles (choice_at places.now (choice_by adjustment.now))
        (λ i. stated_by stated.now (slice_index_or places.now i 0)) (length places.now)
        angles.items) }
{
    let mut angles = Vec::with_capacity(alloc, places.len())?;
    for &place in places {
        angles.push(difference(adjustment, stated, place))?;
    }
    Ok(angles)
}
