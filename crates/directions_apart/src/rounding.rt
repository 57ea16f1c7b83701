//! Directions of an adjustment, rounded as they are printed.
ghost use Rattle.std.specs.Prelude.{◌≡◌, ◌≤◌, ◌<◌, ◌+◌, ◌*◌, ◌*ℤ◌, ◌%◌, length, pos};
ghost use Rattle.directions_apart.specs.Rounding.{IsRounded};
ghost use Rattle.exact_adjustment.specs.Adjustments.{choice_by};
ghost use Rattle.exact_adjustment.specs.declared.bounds.TheConstants.{LARGEST_FACTOR};
ghost use Rattle.wide_number.specs.Limbs.{WIDE_LIMIT};

use adjust_kernel::{CIRCLE, HALF_UNIT};
use exact_adjustment::Adjustment;
use wide_number::{Wide, quotient};

/// How many steps are nearest to a direction; in the middle of two, the next.
fn nearest_steps(direction: &Wide, denominator: &Wide, step: u32) -> u64
    requires some { 1 ≤ denominator.now }
    requires step { 1 ≤ step }
    requires direction { direction.now < denominator.now * CIRCLE }
    requires fits { denominator.now * LARGEST_FACTOR < WIDE_LIMIT }
    ensures low { 2 * (result * (denominator.now * step))
        ≤ 2 * direction.now + denominator.now * step }
    ensures high { 2 * direction.now + denominator.now * step
        < 2 * (result * (denominator.now * step)) + 2 * (denominator.now * step) }
    ensures bound { result * step ≤ CIRCLE + step }
{
    let step = u64::from(step);
    let mut twice = direction.times(2);
    twice.add_product(denominator, step);
    quotient(&twice, &denominator.times(2 * step), CIRCLE / step + 2)
}

/// The direction of a target, in units of 0.000000001 gon times the denominator.
fn direction(adjustment: &Adjustment, target: usize) -> Wide
    requires { target < length adjustment.now.directions }
    ensures value { pos result ≡ (pos HALF_UNIT *ℤ (choice_by adjustment.now).direction target) }
    ensures bound { result < (choice_by adjustment.now).denominator * CIRCLE }
{
    adjustment.directions()[target].times(HALF_UNIT)
}

/// The direction of a target, by its place, rounded to whole steps, on the circle from 0: steps and
/// answer are in units of 0.000000001 gon. What lies in the middle of two steps is rounded up.
pub fn rounded(adjustment: &Adjustment, target: usize, step: u32) -> u64
    requires target { target < length adjustment.now.directions }
    requires some { 1 ≤ step }
    requires circle { CIRCLE % step ≡ 0 }
    ensures { IsRounded (choice_by adjustment.now) target step result }
{
    let steps = nearest_steps(
        &direction(adjustment, target),
        adjustment.denominator(),
        step,
    );
    steps * u64::from(step) % CIRCLE
}
