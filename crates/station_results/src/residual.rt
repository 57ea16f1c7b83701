//! One residual of an adjustment, rounded, and the direction that it makes of a two-face direction.
ghost use Rattle.std.specs.Prelude.{◌≡◌, ◌≤◌, ◌<◌, ◌+◌, ◌*◌, ◌%◌, pos, ◌+ℤ◌, ◌-ℤ◌, ◌*ℤ◌, length};
ghost use Rattle.adjust_kernel.specs.Pairs.{turned_by};
ghost use Rattle.adjust_kernel.specs.Residuals.{residual};
ghost use Rattle.adjust_kernel.specs.Stations.{IsObs};
ghost use Rattle.adjust_kernel.specs.Within.{IsWithin};
ghost use Rattle.adjust_kernel.specs.declared.bounds.TheConstants.{LARGEST_TURN, TURN};
ghost use Rattle.directions_apart.specs.Arcs.{IsWayRound};
ghost use Rattle.exact_adjustment.specs.Adjustments.{choice_by};
ghost use Rattle.station_results.specs.Residuals.{IsRoundedResidual};

use adjust_kernel::{CIRCLE, HALF_UNIT, LARGEST_RESIDUAL_LIMIT, LARGEST_TURN, Obs, TURN, UNIT};
use exact_adjustment::Adjustment;
use wide_number::{Wide, quotient};

/// Units of 0.001 mgon in a half unit (0.005 mgon).
const UNITS: u64 = HALF_UNIT / UNIT;

/// No residual is larger than this, in units of 0.001 mgon.
pub(crate) const LARGEST_RESIDUAL: u64 = LARGEST_RESIDUAL_LIMIT as u64 * UNITS;

/// As many turns are added to each observation, so that none is negative.
pub const LIFT: u64 = LARGEST_TURN as u64 * TURN as u64;

/// An observation with its full turns, lifted, in half units.
pub fn lifted(value: u32, turn: i8) -> u64
    requires value { value < TURN }
    requires turn { IsWithin LARGEST_TURN turn }
    ensures value { pos result ≡ (pos value +ℤ pos TURN *ℤ turn) +ℤ pos LIFT }
    ensures bound { result ≤ 19 * TURN }
{
    let turns = (i64::from(turn) + i64::from(LARGEST_TURN)) as u64;
    u64::from(value) + u64::from(TURN) * turns
}

/// The residual of an observation with these full turns, in half units times the denominator: the
/// first number less the second.
pub fn sides(adjustment: &Adjustment, obs: &Obs, turn: i8) -> (Wide, Wide)
    requires obs { IsObs (length adjustment.now.orientations) (length adjustment.now.directions)
        obs.now }
    requires turn { IsWithin LARGEST_TURN turn }
    ensures residual { (pos result.0 -ℤ pos result.1)
        ≡ residual (choice_by adjustment.now) (turned_by obs.now turn) }
    ensures first { result.0 ≤ adjustment.now.denominator * (10 * TURN) }
    ensures second { result.1 ≤ adjustment.now.denominator * (20 * TURN) }
{
    let denominator = adjustment.denominator();
    let mut first = adjustment.directions()[obs.target as usize].times(1);
    first.add_product(denominator, LIFT);
    let mut second = adjustment.orientations()[obs.set as usize].times(1);
    second.add_product(denominator, lifted(obs.value, turn));
    (first, second)
}

/// The residual of an observation with these full turns, rounded to units of 0.001 mgon, the middle
/// of two upwards; and lifted by the largest residual, so that it is not negative.
pub(crate) fn lifted_residual(adjustment: &Adjustment, obs: &Obs, turn: i8) -> u64
    requires obs { IsObs (length adjustment.now.orientations) (length adjustment.now.directions)
        obs.now }
    requires turn { IsWithin LARGEST_TURN turn }
    requires limited { IsWithin (pos (LARGEST_RESIDUAL_LIMIT * adjustment.now.denominator))
        (residual (choice_by adjustment.now) (turned_by obs.now turn)) }
    ensures rounded { IsRoundedResidual (choice_by adjustment.now) (turned_by obs.now turn)
        (pos result -ℤ pos LARGEST_RESIDUAL) }
    ensures bound { result ≤ 2 * LARGEST_RESIDUAL }
{
    let denominator = adjustment.denominator();
    let (first, second) = sides(adjustment, obs, turn);
    // Halves of units: half a unit more, and the quotient is the nearest whole number of units.
    let mut halves = first.times(2 * UNITS);
    halves.add_product(denominator, 2 * LARGEST_RESIDUAL + 1);
    halves.subtract(&second.times(2 * UNITS));
    quotient(&halves, &denominator.times(2), 2 * LARGEST_RESIDUAL + 1)
}

/// A two-face direction and its residual, which is lifted, together: on the circle from 0, in units
/// of 0.000000001 gon.
pub(crate) fn adjusted_direction(value: u32, lifted_residual: u64) -> u64
    requires value { value < TURN }
    requires residual { lifted_residual ≤ 2 * LARGEST_RESIDUAL }
    ensures { IsWayRound CIRCLE (pos 0) (pos (HALF_UNIT * value)
        +ℤ pos UNIT *ℤ (pos lifted_residual -ℤ pos LARGEST_RESIDUAL)) result }
{
    let lifted = HALF_UNIT * u64::from(value) + UNIT * lifted_residual;
    (lifted + (CIRCLE - UNIT * LARGEST_RESIDUAL)) % CIRCLE
}
