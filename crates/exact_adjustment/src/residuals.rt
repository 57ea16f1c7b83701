//! Residuals of an adjustment, in size.
ghost use Rattle.std.specs.Prelude.{◌≡◌, ◌<◌, pos, ◌-ℤ◌, length, IfNone, IfSome};
ghost use Rattle.std.specs.Int.RustNames.{unsigned_abs};
ghost use Rattle.adjust_kernel.specs.Pairs.{turned_by};
ghost use Rattle.adjust_kernel.specs.Residuals.{residual};
ghost use Rattle.adjust_kernel.specs.Stations.{IsObs};
ghost use Rattle.adjust_kernel.specs.Within.{IsWithin};
ghost use Rattle.adjust_kernel.specs.declared.bounds.TheConstants.{LARGEST_TURN};
ghost use Rattle.exact_adjustment.specs.Adjustments.{choice_by};
ghost use Rattle.exact_adjustment.specs.Exact.{IsExact, IsGreatestAbove, KeepsLimit};

use crate::adjustment::Adjustment;
use crate::certificate::add_residual;
use adjust_kernel::{Obs, ResidualLimit, Station};
use wide_number::Wide;

/// The larger of two numbers less the smaller.
fn difference(mut a: Wide, mut b: Wide) -> Wide
    ensures { result ≡ unsigned_abs (pos a -ℤ pos b) }
{
    if a.is_below(&b) {
        b.subtract(&a);
        return b;
    }
    a.subtract(&b);
    a
}

/// The size of the residual of an observation with these full turns, in half units times the
/// denominator.
fn residual_size(adjustment: &Adjustment, obs: &Obs, turn: i8) -> Wide
    requires obs { IsObs (length adjustment.now.orientations) (length adjustment.now.directions)
        obs.now }
    requires turn { IsWithin LARGEST_TURN turn }
    ensures { result ≡ unsigned_abs
        (residual (choice_by adjustment.now) (turned_by obs.now turn)) }
{
    let mut left = Wide::zero();
    let mut right = Wide::zero();
    add_residual(
        &mut left,
        &mut right,
        adjustment.denominator(),
        adjustment.directions(),
        adjustment.orientations(),
        obs,
        turn,
    );
    difference(left, right)
}

/// The place of the observation with the greatest residual in size, if it is above the limit: of
/// the first where several are as great.
pub fn greatest_above(
    station: &Station,
    adjustment: &Adjustment,
    limit: ResidualLimit,
) -> Option<usize>
    requires { IsExact station.now adjustment.now }
    ensures none { IfNone result (KeepsLimit station.now adjustment.now limit) }
    ensures some { IfSome result (IsGreatestAbove station.now adjustment.now limit) }
{
    let obs = station.obs();
    let turns = adjustment.turns();
    let mut greatest = Wide::zero();
    let mut at = 0;
    for place in 0..obs.len() {
        let size = residual_size(adjustment, &obs[place], turns[place]);
        if greatest.is_below(&size) {
            greatest = size;
            at = place;
        }
    }
    let most = adjustment
        .denominator()
        .times(u64::from(limit.half_units()));
    if most.is_below(&greatest) {
        return Some(at);
    }
    None
}
