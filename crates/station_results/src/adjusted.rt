//! The observations of a station, adjusted.
ghost use Rattle.std.specs.Prelude.{◌≡◌, ◌*◌, length, map, pos, IfErr, IfOk, OnOk};
ghost use Rattle.std.specs.List.{AllZip};
ghost use Rattle.adjust_kernel.specs.Matching.{key_of_obs, observed};
ghost use Rattle.adjust_kernel.specs.Pairs.{turned_by};
ghost use Rattle.adjust_kernel.specs.Residuals.{residual};
ghost use Rattle.adjust_kernel.specs.Stations.{IsObs, IsStation};
ghost use Rattle.adjust_kernel.specs.Within.{IsWithin};
ghost use Rattle.adjust_kernel.specs.declared.bounds.TheConstants.{LARGEST_RESIDUAL_LIMIT};
ghost use Rattle.adjust_kernel.specs.declared.bounds.TheConstants.{LARGEST_TURN};
ghost use Rattle.exact_adjustment.specs.Adjustments.{choice_by};
ghost use Rattle.exact_adjustment.specs.Exact.{IsExact, KeepsLimit, observed_by};
ghost use Rattle.exact_adjustment.specs.Faults.{IsAdjustError};
ghost use Rattle.exact_adjustment.specs.LeastOf.{HasResidualsWithin};
ghost use Rattle.station_results.specs.Adjusting.{IsRowOf};
ghost use Rattle.station_results.specs.Residuals.{AreAdjusted, key_of};

use crate::residual::{LARGEST_RESIDUAL, adjusted_direction, lifted_residual};
use adjust_kernel::{Name, Obs, ResidualLimit, Station};
use exact_adjustment::{AdjustError, Adjustment, adjust};
use std::alloc::{AllocError, Global};

/// An observation of a station, adjusted.
#[derive(Clone, Copy, Debug, PartialEq, Eq, Drop)]
pub struct AdjustedObs {
    /// The number of its set.
    pub set: u16,
    /// The name of its target.
    pub target: Name,
    /// The two-face direction in half units (0.005 mgon each), below a full circle.
    pub value: u32,
    /// The direction of the target less the orientation of the set, in units of 0.000000001 gon, a
    /// multiple of 1,000 and below a full circle.
    pub adjusted: u64,
    /// The adjusted direction less the two-face direction, in units of 0.001 mgon: from -10,000 to
    /// 10,000.
    pub residual: i32,
}

/// The observations of a station, in their order, adjusted by least squares: over all directions,
/// orientations and full turns. Adjusted directions are rounded to 0.000001 gon and residuals to
/// 0.001 mgon, the middle of two upwards, each from the exact fraction. No residual, before it is
/// rounded, is above the limit. Memory is linear in the observations.
///
/// # Errors
///
/// Those of `exact_adjustment::adjust`: its `AdjustFault`, and `Memory`.
pub fn adjusted_observations(
    alloc: Global,
    station: &Station,
    limit: ResidualLimit,
) -> Result<Vec<AdjustedObs>, AdjustError>
    ensures adjusted { IfOk result (λ rows. AreAdjusted station.now rows.items) }
    ensures held { OnOk result (HasResidualsWithin station.now limit) }
    ensures fault { IfErr result (IsAdjustError station.now limit) }
{
    let adjustment = adjust(alloc, station, limit)?;
    Ok(adjusted_by(alloc, station, &adjustment)?)
}

/// The observations of a station, adjusted by an adjustment of it.
pub fn adjusted_by(
    alloc: Global,
    station: &Station,
    adjustment: &Adjustment,
) -> Result<Vec<AdjustedObs>, AllocError>
    requires exact { IsExact station.now adjustment.now }
    requires limited { KeepsLimit station.now adjustment.now LARGEST_RESIDUAL_LIMIT }
    ensures valid { IsStation station.now }
    ensures observed { IfOk result (λ rows. map key_of rows.items ≡ observed station.now) }
    ensures each { IfOk result (λ rows. AllZip (IsRowOf (choice_by adjustment.now))
        (observed_by station.now adjustment.now) rows.items) }
{
    let obs = station.obs();
    let turns = adjustment.turns();
    let mut rows = Vec::with_capacity(alloc, obs.len())?;
    for place in 0..obs.len() {
        rows.push(adjusted_obs(station, adjustment, obs[place], turns[place]))?;
    }
    Ok(rows)
}

/// An observation with these full turns, adjusted.
fn adjusted_obs(station: &Station, adjustment: &Adjustment, obs: Obs, turn: i8) -> AdjustedObs
    requires obs { IsObs (length station.now.sets) (length station.now.targets) obs }
    requires each_target { length adjustment.now.directions ≡ length station.now.targets }
    requires each_set { length adjustment.now.orientations ≡ length station.now.sets }
    requires turn { IsWithin LARGEST_TURN turn }
    requires limited { IsWithin (pos (LARGEST_RESIDUAL_LIMIT * adjustment.now.denominator))
        (residual (choice_by adjustment.now) (turned_by obs turn)) }
    ensures key { key_of result ≡ key_of_obs station.now.sets station.now.targets obs }
    ensures row { IsRowOf (choice_by adjustment.now) (turned_by obs turn) result }
{
    let residual = lifted_residual(adjustment, &obs, turn);
    AdjustedObs {
        set: station.sets()[obs.set as usize],
        target: station.targets()[obs.target as usize],
        value: obs.value,
        adjusted: adjusted_direction(obs.value, residual),
        residual: residual as i32 - LARGEST_RESIDUAL as i32,
    }
}
