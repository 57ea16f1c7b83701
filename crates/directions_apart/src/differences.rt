//! Stated directions less those of an adjustment.
ghost use Rattle.std.specs.Prelude.{◌≡◌, ◌<◌, ◌≤◌, ◌*◌, ◌*ℤ◌, pos, length};
ghost use Rattle.adjust_kernel.specs.Residuals.{Choice};
ghost use Rattle.directions_apart.specs.Apart as spec;
ghost use Rattle.directions_apart.specs.Arcs.{IsWayRound};
ghost use Rattle.exact_adjustment.specs.Adjustments.{IsAdjustment, choice_by};
ghost use Rattle.wide_number.specs.Limbs.{WIDE_LIMIT};

use crate::circle::{on_circle, way_round};
use adjust_kernel::{CIRCLE, HALF_UNIT, PARTS};
use exact_adjustment::Adjustment;
use wide_number::Wide;

/// A full circle, in parts times an adjustment's denominator.
pub(crate) fn circle(adjustment: &Adjustment) -> Wide
    ensures value { result ≡ spec.circle_of (choice_by adjustment.now) }
    ensures valid { IsAdjustment adjustment.now }
{
    adjustment.denominator().times(PARTS * CIRCLE)
}

/// The direction of a target, in parts times the denominator.
fn direction(adjustment: &Adjustment, target: usize) -> Wide
    requires { target < length adjustment.now.directions }
    ensures value { pos result
        ≡ (pos (PARTS * HALF_UNIT) *ℤ (choice_by adjustment.now).direction target) }
    ensures bound { result < spec.circle_of (choice_by adjustment.now) }
{
    adjustment.directions()[target].times(PARTS * HALF_UNIT)
}

/// The stated direction of a target less the adjusted one, on the circle: in parts times the
/// denominator.
pub fn difference(adjustment: &Adjustment, stated: &[i64], target: usize) -> Wide
    requires in_adjustment { target < length adjustment.now.directions }
    requires in_stated { target < length stated.now }
    ensures { IsWayRound (spec.circle_of (choice_by adjustment.now)) (pos 0)
        (spec.difference (choice_by adjustment.now) (spec.stated_by stated.now) target) result }
{
    way_round(
        &circle(adjustment),
        &direction(adjustment, target),
        adjustment.denominator().times(on_circle(stated[target])),
    )
}
