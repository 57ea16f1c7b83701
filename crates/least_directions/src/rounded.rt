//! A station's least-squares directions, rounded as tables print them.
ghost use Rattle.std.specs.Prelude.{◌≡◌, ◌≤◌, ◌<◌, ◌%◌, ℕ, All, length, slice_index_or, IfErr};
ghost use Rattle.std.specs.Prelude.{IfOk, OnOk};
ghost use Rattle.directions_apart.specs.Rounding.{IsRounded};
ghost use Rattle.adjust_kernel.specs.declared.bounds.TheConstants.{LARGEST_RESIDUAL_LIMIT};
ghost use Rattle.adjust_kernel.specs.declared.units.TheConstants.{CIRCLE};
ghost use Rattle.exact_adjustment.specs.Adjustments.{choice_by};
ghost use Rattle.exact_adjustment.specs.Exact.{IsExact, KeepsLimit};
ghost use Rattle.exact_adjustment.specs.Faults.{IsAdjustError};
ghost use Rattle.exact_adjustment.specs.LeastOf.{AreTied, HasResidualsWithin};
ghost use Rattle.least_directions.specs.LeastDirections.{AreRounded};

use adjust_kernel::{CIRCLE, ResidualLimit, Station};
use directions_apart::rounded;
use exact_adjustment::{AdjustError, Adjustment, adjust};
use std::alloc::{AllocError, Global};

/// The directions of an adjustment's targets, rounded to whole steps.
fn rounded_to_steps(
    alloc: Global,
    adjustment: &Adjustment,
    step: u32,
) -> Result<Vec<u64>, AllocError>
    requires some { 1 ≤ step }
    requires circle { CIRCLE % step ≡ 0 }
    ensures count { IfOk result (λ directions.
        length directions.items ≡ length adjustment.now.directions) }
    ensures each { IfOk result (λ directions. (t : ℕ) → t < length directions.items
        → IsRounded (choice_by adjustment.now) t step (slice_index_or directions.items t 0)) }
{
    let targets = adjustment.directions().len();
    let mut directions = Vec::with_capacity(alloc, targets)?;
    for target in 0..targets {
        directions.push(rounded(adjustment, target, step))?;
    }
    Ok(directions)
}

/// The least-squares directions of a station's targets, in their order, rounded to whole steps, the
/// middle of two upwards: the first is 0, and each is from 0 and below a full circle. Steps and
/// directions are in units of 0.000000001 gon. No residual is above the limit. Memory is linear in
/// the observations.
///
/// # Errors
///
/// Those of `exact_adjustment::adjust`: its `AdjustFault`, and `Memory`.
pub fn rounded_directions(
    alloc: Global,
    station: &Station,
    step: u32,
    limit: ResidualLimit,
) -> Result<Vec<u64>, AdjustError>
    requires some { 1 ≤ step }
    requires circle { CIRCLE % step ≡ 0 }
    ensures rounded { IfOk result (λ directions. AreRounded station.now step directions.items) }
    ensures first { IfOk result (λ directions. slice_index_or directions.items 0 0 ≡ 0) }
    ensures whole { IfOk result (λ directions.
        All (λ direction. (direction < CIRCLE) × (direction % step ≡ 0)) directions.items) }
    ensures held { OnOk result (HasResidualsWithin station.now limit) }
    ensures fault { IfErr result (IsAdjustError station.now limit) }
{
    let adjustment = adjust(alloc, station, limit)?;
    Ok(rounded_by(alloc, station, &adjustment, step)?)
}

/// What `rounded_directions` answers, by an adjustment of the station.
///
/// The only error is that memory was refused.
pub fn rounded_by(
    alloc: Global,
    station: &Station,
    adjustment: &Adjustment,
    step: u32,
) -> Result<Vec<u64>, AllocError>
    requires exact { IsExact station.now adjustment.now }
    requires limited { KeepsLimit station.now adjustment.now LARGEST_RESIDUAL_LIMIT }
    requires tied { AreTied station.now }
    requires some { 1 ≤ step }
    requires circle { CIRCLE % step ≡ 0 }
    ensures rounded { IfOk result (λ directions. AreRounded station.now step directions.items) }
    ensures first { IfOk result (λ directions. slice_index_or directions.items 0 0 ≡ 0) }
    ensures whole { IfOk result (λ directions.
        All (λ direction. (direction < CIRCLE) × (direction % step ≡ 0)) directions.items) }
{
    // A station says of what it answers that it keeps the rules.
    let _ = station.obs();
    let directions = rounded_to_steps(alloc, adjustment, step)?;
    Ok(directions)
}
