//! How it is computed.
ghost use Rattle.std.specs.Prelude.{◌≡◌, ◌<◌, ◌≤◌, ℕ, IfErr, IfOk, OnOk, length, slice_index_or};
ghost use Rattle.adjust_kernel.specs.declared.bounds.TheConstants.{LARGEST_RESIDUAL_LIMIT};
ghost use Rattle.directions_apart.specs.Rounding.{IsRounded};
ghost use Rattle.adjust_kernel.specs.declared.units.TheConstants.{UNIT};
ghost use Rattle.exact_adjustment.specs.Adjustments.{choice_by};
ghost use Rattle.exact_adjustment.specs.Exact.{IsExact, KeepsLimit};
ghost use Rattle.exact_adjustment.specs.Faults.{IsAdjustError};
ghost use Rattle.exact_adjustment.specs.LeastOf.{AreTied, HasResidualsWithin};
ghost use Rattle.station_report.specs.Computing.{IsComputedOf};

use crate::computed::Computed;
use crate::deviation::accuracy_by;
use adjust_kernel::{ResidualLimit, Station, UNIT};
use directions_apart::rounded;
use exact_adjustment::{AdjustError, Adjustment, adjust};
use station_results::{adjusted_by, greatest_of};
use std::alloc::{AllocError, Global};

/// The adjusted directions of a station, its residuals, the greatest of them, and the accuracy of
/// its directions: least over all directions, orientations and full turns. No residual is above the
/// limit. Memory is linear in the observations.
///
/// # Errors
///
/// Those of `exact_adjustment::adjust`: its `AdjustFault`, and `Memory`.
pub fn computed_of(
    alloc: Global,
    station: &Station,
    limit: ResidualLimit,
) -> Result<Computed, AdjustError>
    ensures computed { IfOk result (IsComputedOf station.now) }
    ensures held { OnOk result (HasResidualsWithin station.now limit) }
    ensures fault { IfErr result (IsAdjustError station.now limit) }
{
    let adjustment = adjust(alloc, station, limit)?;
    Ok(computed_by(alloc, station, &adjustment)?)
}

/// What `computed_of` answers, by an adjustment of the station.
///
/// The only error is that memory was refused.
pub fn computed_by(
    alloc: Global,
    station: &Station,
    adjustment: &Adjustment,
) -> Result<Computed, AllocError>
    requires exact { IsExact station.now adjustment.now }
    requires limited { KeepsLimit station.now adjustment.now LARGEST_RESIDUAL_LIMIT }
    requires tied { AreTied station.now }
    ensures { IfOk result (IsComputedOf station.now) }
{
    let directions = directions_by(alloc, adjustment)?;
    let accuracy = accuracy_by(alloc, station, adjustment)?;
    let rows = adjusted_by(alloc, station, adjustment)?;
    let greatest = greatest_of(&rows);
    Ok(Computed {
        directions,
        rows,
        greatest,
        accuracy,
    })
}

/// The directions of an adjustment's targets, rounded to 0.000001 gon.
fn directions_by(alloc: Global, adjustment: &Adjustment) -> Result<Vec<u64>, AllocError>
    ensures count { IfOk result (λ directions.
        length directions.items ≡ length adjustment.now.directions) }
    ensures each { IfOk result (λ directions. (t : ℕ) → t < length directions.items
        → IsRounded (choice_by adjustment.now) t UNIT (slice_index_or directions.items t 0)) }
{
    let targets = adjustment.directions().len();
    let mut directions = Vec::with_capacity(alloc, targets)?;
    for target in 0..targets {
        directions.push(rounded(adjustment, target, UNIT as u32))?;
    }
    Ok(directions)
}
