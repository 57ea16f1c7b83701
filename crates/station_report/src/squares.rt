//! The sum of the squares of an adjustment's residuals.
//!
//! It has the square of the denominator in it, and so twice the bits that a [`Wide`] holds. But the
//! residuals of each target add to 0, and those of each set: so in their squares' sum one factor
//! may be any number that differs from the residual by one of its target and one of its set. With a
//! whole number times the denominator as that factor, the denominator can be taken out of the sum.
ghost use Rattle.std.specs.Prelude.{◌≡◌, ◌≤◌, ◌<◌, ◌+◌, ◌*◌, ℕ, pos, ◌+ℤ◌, ◌-ℤ◌, length, IfOk};
ghost use Rattle.std.specs.Prelude.{slice_index_or};
ghost use Rattle.adjust_kernel.specs.Pairs.{turned_by};
ghost use Rattle.adjust_kernel.specs.Residuals.{residual, sum_of_squares, unrolled};
ghost use Rattle.adjust_kernel.specs.Stations.{IsObs, IsStation};
ghost use Rattle.adjust_kernel.specs.Within.{IsWithin};
ghost use Rattle.adjust_kernel.specs.declared.bounds.TheConstants.{LARGEST_RESIDUAL_LIMIT};
ghost use Rattle.adjust_kernel.specs.declared.bounds.TheConstants.{LARGEST_TURN};
ghost use Rattle.exact_adjustment.specs.Adjustments.{AreOnCircle, choice_by};
ghost use Rattle.exact_adjustment.specs.Exact.{IsExact, KeepsLimit, observed_by};
ghost use Rattle.exact_adjustment.specs.declared.bounds.TheConstants.{LARGEST_FACTOR};
ghost use Rattle.station_report.specs.Factors.{AreWhole, IsWhole};
ghost use Rattle.wide_number.specs.Limbs.{WIDE_LIMIT};

use adjust_kernel::{LARGEST_RESIDUAL_LIMIT, Obs, Station, TURN};
use exact_adjustment::Adjustment;
use station_results::{LIFT, lifted, sides};
use std::alloc::{AllocError, Global};
use wide_number::{Wide, quotient};

/// No residual is larger than this, in half units: as much is added to each, so that none is
/// negative.
const LARGEST: u64 = LARGEST_RESIDUAL_LIMIT as u64;

/// The sum of the squares of an adjustment's residuals, over the square of the denominator: what it
/// is times the denominator.
pub(crate) fn squares_of(
    alloc: Global,
    station: &Station,
    adjustment: &Adjustment,
) -> Result<Wide, AllocError>
    requires exact { IsExact station.now adjustment.now }
    requires limited { KeepsLimit station.now adjustment.now LARGEST_RESIDUAL_LIMIT }
    ensures squares { IfOk result (λ squares. pos (adjustment.now.denominator * squares)
        ≡ sum_of_squares (choice_by adjustment.now) (observed_by station.now adjustment.now)) }
    ensures bound { IfOk result (λ squares. squares
        ≤ adjustment.now.denominator * (LARGEST * LARGEST * length station.now.obs)) }
{
    let denominator = adjustment.denominator();
    let directions = wholes_of(alloc, adjustment.directions(), denominator)?;
    let orientations = wholes_of(alloc, adjustment.orientations(), denominator)?;
    Ok(squares_by(station, adjustment, &directions, &orientations))
}

/// The whole half units of each of these angles.
fn wholes_of(alloc: Global, angles: &[Wide], denominator: &Wide) -> Result<Vec<u64>, AllocError>
    requires on_circle { AreOnCircle denominator.now angles.now }
    requires fits { denominator.now * LARGEST_FACTOR < WIDE_LIMIT }
    ensures { IfOk result (λ wholes. AreWhole denominator.now angles.now wholes.items) }
{
    let mut wholes = Vec::with_capacity(alloc, angles.len())?;
    for place in 0..angles.len() {
        wholes.push(quotient(&angles[place], denominator, u64::from(TURN)))?;
    }
    Ok(wholes)
}

/// The sum of `squares_of`, by the whole half units of the directions and the orientations.
fn squares_by(
    station: &Station,
    adjustment: &Adjustment,
    directions: &[u64],
    orientations: &[u64],
) -> Wide
    requires exact { IsExact station.now adjustment.now }
    requires limited { KeepsLimit station.now adjustment.now LARGEST_RESIDUAL_LIMIT }
    requires directions { AreWhole adjustment.now.denominator adjustment.now.directions
        directions.now }
    requires orientations { AreWhole adjustment.now.denominator adjustment.now.orientations
        orientations.now }
    ensures squares { pos (adjustment.now.denominator * result)
        ≡ sum_of_squares (choice_by adjustment.now) (observed_by station.now adjustment.now) }
    ensures bound { result
        ≤ adjustment.now.denominator * (LARGEST * LARGEST * length station.now.obs) }
{
    let denominator = adjustment.denominator();
    let obs = station.obs();
    let turns = adjustment.turns();
    let mut sum = Wide::zero();
    let mut factors = 0;
    for place in 0..obs.len() {
        let one = &obs[place];
        let turn = turns[place];
        let direction = directions[one.target as usize];
        let orientation = orientations[one.set as usize];
        let factor = lifted_factor(adjustment, one, turn, direction, orientation);
        sum.add_product(&lifted_residual(adjustment, one, turn), factor);
        factors += factor;
    }
    sum.subtract(&denominator.times(LARGEST * factors));
    sum
}

/// The residual of an observation with these full turns, lifted, in half units times the
/// denominator.
fn lifted_residual(adjustment: &Adjustment, obs: &Obs, turn: i8) -> Wide
    requires obs { IsObs (length adjustment.now.orientations) (length adjustment.now.directions)
        obs.now }
    requires turn { IsWithin LARGEST_TURN turn }
    requires limited { IsWithin (pos (LARGEST_RESIDUAL_LIMIT * adjustment.now.denominator))
        (residual (choice_by adjustment.now) (turned_by obs.now turn)) }
    ensures value { pos result ≡ residual (choice_by adjustment.now) (turned_by obs.now turn)
        +ℤ pos (LARGEST * adjustment.now.denominator) }
    ensures bound { result ≤ adjustment.now.denominator * (2 * LARGEST) }
{
    let (mut first, second) = sides(adjustment, obs, turn);
    first.add_product(adjustment.denominator(), LARGEST);
    first.subtract(&second);
    first
}

/// The whole number of half units near that residual, lifted too.
fn lifted_factor(
    adjustment: &Adjustment,
    obs: &Obs,
    turn: i8,
    direction: u64,
    orientation: u64,
) -> u64
    requires obs { IsObs (length adjustment.now.orientations) (length adjustment.now.directions)
        obs.now }
    requires turn { IsWithin LARGEST_TURN turn }
    requires limited { IsWithin (pos (LARGEST_RESIDUAL_LIMIT * adjustment.now.denominator))
        (residual (choice_by adjustment.now) (turned_by obs.now turn)) }
    requires direction { IsWhole adjustment.now.denominator
        (slice_index_or adjustment.now.directions obs.now.target 0) direction }
    requires orientation { IsWhole adjustment.now.denominator
        (slice_index_or adjustment.now.orientations obs.now.set 0) orientation }
    ensures value { pos result ≡ (pos direction -ℤ pos orientation
        -ℤ unrolled (turned_by obs.now turn)) +ℤ pos LARGEST }
    ensures bound { result ≤ 2 * LARGEST }
{
    (direction + LIFT + LARGEST) - (orientation + lifted(obs.value, turn))
}
