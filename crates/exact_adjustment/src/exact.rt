//! Whether an adjustment is an exact one of a station.
ghost use Rattle.std.specs.Prelude.{◌≡◌, ◌↔◌, IsTrue, length};
ghost use Rattle.exact_adjustment.specs.Adjustments.{AdjustmentValue};
ghost use Rattle.exact_adjustment.specs.Exact.{AddsUp, IsExact};
ghost use Rattle.adjust_kernel.specs.Stations.{StationValue};

use crate::adjustment::Adjustment;
use crate::certificate::{are_sets_even, are_targets_even};
use adjust_kernel::Station;

/// Whether an adjustment has a direction for each target of a station, an orientation for each set
/// and full turns for each observation.
fn is_of(station: &Station, adjustment: &Adjustment) -> bool
    ensures { IsTrue result ↔ ((length adjustment.now.turns ≡ length station.now.obs)
        × (length adjustment.now.directions ≡ length station.now.targets)
        × (length adjustment.now.orientations ≡ length station.now.sets)) }
{
    adjustment.turns().len() == station.obs().len()
        && adjustment.directions().len() == station.targets().len()
        && adjustment.orientations().len() == station.sets().len()
}

/// Whether an adjustment is an exact one of a station: it has the station's targets, sets and
/// observations, and all sums of residuals are 0. Nothing else is asked of where it comes from.
pub fn is_exact(station: &Station, adjustment: &Adjustment) -> bool
    ensures { IsTrue result ↔ IsExact station.now adjustment.now }
{
    if !is_of(station, adjustment) {
        return false;
    }
    let denominator = adjustment.denominator();
    let directions = adjustment.directions();
    let orientations = adjustment.orientations();
    let turns = adjustment.turns();
    let obs = station.obs();
    are_targets_even(denominator, directions, orientations, turns, obs)
        && are_sets_even(denominator, directions, orientations, turns, obs)
}
