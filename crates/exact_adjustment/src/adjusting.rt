//! The exact adjustment of a station.
ghost use Rattle.std.specs.Prelude.{◌≡◌, IfErr, IfOk, OnOk, length};
ghost use Rattle.adjust_kernel.specs.declared.bounds.TheConstants.{LARGEST_RESIDUAL_LIMIT};
ghost use Rattle.exact_adjustment.specs.Adjustments.{AdjustmentValue};
ghost use Rattle.exact_adjustment.specs.Exact.{IsExact, KeepsLimit};
ghost use Rattle.exact_adjustment.specs.Faults.{IsAdjustError, IsAdjustFault};
ghost use Rattle.exact_adjustment.specs.LeastOf.{AreTied, HasResidualsWithin};
ghost use Rattle.modular_solver.specs.Said.{WasSaid};

use crate::adjustment::Adjustment;
use crate::exact::is_exact;
use crate::fault::{AdjustError, AdjustFault};
use crate::nearest::are_nearest;
use crate::residuals::greatest_above;
use adjust_kernel::{ResidualLimit, Station, is_connected};
use modular_solver::{Found, find};
use std::alloc::Global;

/// The adjustment of a station that is held together, as a solver found it that nothing rests on:
/// what it found is tested.
fn tested(
    station: &Station,
    found: Option<Found>,
    limit: ResidualLimit,
) -> Result<Adjustment, AdjustFault>
    requires tied { AreTied station.now }
    requires said { WasSaid (length station.now.sets) (length station.now.targets)
        station.now.obs found }
    ensures exact { IfOk result (IsExact station.now) }
    ensures limited { IfOk result (λ a. KeepsLimit station.now a LARGEST_RESIDUAL_LIMIT) }
    ensures held { OnOk result (HasResidualsWithin station.now limit) }
    ensures tied { OnOk result (AreTied station.now) }
    ensures fault { IfErr result (IsAdjustFault station.now limit) }
{
    // A station says of what it answers that it keeps the rules, and a limit that it does.
    let _ = station.obs();
    let _ = limit.half_units();
    let Some(found) = found else {
        return Err(AdjustFault::NotFound);
    };
    let Found {
        denominator,
        directions,
        orientations,
        turns,
        first_directions,
        first_orientations,
    } = found;
    let Some(adjustment) = Adjustment::new(denominator, directions, orientations, turns) else {
        return Err(AdjustFault::NotFound);
    };
    if !is_exact(station, &adjustment) {
        return Err(AdjustFault::NotFound);
    }
    let Some(place) = greatest_above(station, &adjustment, limit) else {
        return Ok(adjustment);
    };
    let turns = adjustment.turns();
    if !are_nearest(station, turns, &first_directions, &first_orientations) {
        return Err(AdjustFault::NotFound);
    }
    Err(AdjustFault::Residual(place as u32 + 1))
}

/// The adjustment of a station that is held together.
fn adjust_tied(
    alloc: Global,
    station: &Station,
    limit: ResidualLimit,
) -> Result<Adjustment, AdjustError>
    requires { AreTied station.now }
    ensures exact { IfOk result (IsExact station.now) }
    ensures limited { IfOk result (λ a. KeepsLimit station.now a LARGEST_RESIDUAL_LIMIT) }
    ensures held { OnOk result (HasResidualsWithin station.now limit) }
    ensures tied { OnOk result (AreTied station.now) }
    ensures fault { IfErr result (IsAdjustError station.now limit) }
{
    let sets = station.sets().len();
    let targets = station.targets().len();
    let found = find(alloc, sets, targets, station.obs())?;
    Ok(tested(station, found, limit)?)
}

/// The exact adjustment of a station, complete or not: the least-squares directions and
/// orientations and the full turns, than which no others have a smaller sum of squared residuals
/// (`laws::least`), over one denominator; no residual is above the limit, whichever choice is
/// least. Memory is linear in the observations.
///
/// # Errors
///
/// `NotConnected` where the observations don't hold all sets and targets together; else `Residual`
/// where no directions and orientations, with whatever full turns, have all sums of residuals 0 and
/// no residual above the limit; `NotFound` where no adjustment was found. `Memory` where memory ran
/// out.
pub fn adjust(
    alloc: Global,
    station: &Station,
    limit: ResidualLimit,
) -> Result<Adjustment, AdjustError>
    ensures exact { IfOk result (IsExact station.now) }
    ensures limited { IfOk result (λ a. KeepsLimit station.now a LARGEST_RESIDUAL_LIMIT) }
    ensures held { OnOk result (HasResidualsWithin station.now limit) }
    ensures tied { OnOk result (AreTied station.now) }
    ensures fault { IfErr result (IsAdjustError station.now limit) }
{
    if !is_connected(station.sets().len(), station.targets().len(), station.obs()) {
        return Err(AdjustError::Fault(AdjustFault::NotConnected));
    }
    adjust_tied(alloc, station, limit)
}
