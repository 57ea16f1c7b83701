//! Differences after the best rotation, rounded.
ghost use Rattle.std.specs.Prelude.{◌≡◌, ◌≤◌, ◌<◌, ◌+◌, ◌*◌, All, length, pos, ◌-ℤ◌};
ghost use Rattle.std.specs.Prelude.{IfOk, slice_index_or};
ghost use Rattle.adjust_kernel.specs.declared.units.TheConstants.{CIRCLE, PARTS};
ghost use Rattle.directions_apart.specs.Apart.{stated_by};
ghost use Rattle.exact_adjustment.specs.Adjustments.{choice_by};
ghost use Rattle.exact_adjustment.specs.declared.bounds.TheConstants.{LARGEST_FACTOR};
ghost use Rattle.station_differences.specs.Angles.{angle_of};
ghost use Rattle.station_differences.specs.BestArcs.{IsBestArc};
ghost use Rattle.station_differences.specs.Differences.{AreDifferences, IsFromMiddle};
ghost use Rattle.station_differences.specs.Differences.{IsRoundedFromMiddle};
ghost use Rattle.station_differences.specs.StatedTargets.{choice_at};
ghost use Rattle.wide_number.specs.Limbs.{WIDE_LIMIT};

use crate::angles::angles;
use crate::arc::{Arc, best_arc};
use adjust_kernel::{CIRCLE, PARTS, UNIT};
use directions_apart::way_round;
use exact_adjustment::Adjustment;
use std::alloc::{AllocError, Global};
use wide_number::{Wide, quotient};

/// No difference is larger than half a circle, in units of 0.001 mgon.
const LARGEST_DIFFERENCE: u64 = CIRCLE / (2 * UNIT);

/// How far an angle is from the middle of an arc of this spread, by the way from its start to the
/// angle: rounded to units of 0.001 mgon, the middle of two upwards; and lifted by the largest
/// difference, so that it is not negative.
fn lifted_difference(denominator: &Wide, way: &Wide, spread: &Wide) -> u64
    requires some { 1 ≤ denominator.now }
    requires in_arc { way.now ≤ spread.now }
    requires below { spread.now < denominator.now * (PARTS * CIRCLE) }
    requires fits { denominator.now * LARGEST_FACTOR < WIDE_LIMIT }
    ensures rounded { IsRoundedFromMiddle denominator.now way.now spread.now
        (pos result -ℤ pos LARGEST_DIFFERENCE) }
    ensures bound { result ≤ 2 * LARGEST_DIFFERENCE }
{
    // Twice the way, less the spread, is twice as far from the middle. Half a unit more, and the
    // quotient is the nearest whole number of units. The spread is taken off first, so that no sum
    // is above two circles and a unit.
    let mut twice = denominator.times(PARTS * (CIRCLE + UNIT));
    twice.subtract(spread);
    twice.add_product(way, 2);
    quotient(
        &twice,
        &denominator.times(2 * PARTS * UNIT),
        2 * LARGEST_DIFFERENCE + 1,
    )
}

/// The angle at a place after the rotation that brings the middle of the best arc to 0, in units of
/// 0.001 mgon, the middle of two upwards.
fn difference_at(denominator: &Wide, circle: &Wide, angles: &[Wide], arc: &Arc, place: usize) -> i32
    requires some { 1 ≤ denominator.now }
    requires fits { denominator.now * LARGEST_FACTOR < WIDE_LIMIT }
    requires circle { circle.now ≡ denominator.now * (PARTS * CIRCLE) }
    requires angles { All (λ angle. angle < circle.now) angles.now }
    requires best { IsBestArc circle.now (angle_of angles.now) (length angles.now) arc.now.start
        arc.now.spread }
    requires below { arc.now.spread < circle.now }
    requires place { place < length angles.now }
    ensures { IsFromMiddle denominator.now circle.now (angle_of angles.now) arc.now.start
        arc.now.spread place result }
{
    let way = way_round(circle, &angles[arc.start], angles[place].times(1));
    let lifted = lifted_difference(denominator, &way, &arc.spread);
    lifted as i32 - LARGEST_DIFFERENCE as i32
}

/// The differences of the targets at these places of an adjustment, of each of which a direction is
/// stated, in units of 0.001 mgon: after the rotation that is the best of these targets.
pub(crate) fn differences_at(
    alloc: Global,
    adjustment: &Adjustment,
    stated: &[i64],
    places: &[usize],
) -> Result<Vec<i32>, AllocError>
    requires each { length stated.now ≡ length adjustment.now.directions }
    requires some { 1 ≤ length places.now }
    requires inside { All (λ place. place < length stated.now) places.now }
    ensures { IfOk result (λ differences. AreDifferences (length places.now)
        (choice_at places.now (choice_by adjustment.now))
        (λ i. stated_by stated.now (slice_index_or places.now i 0)) differences.items) }
{
    let denominator = adjustment.denominator();
    let circle = denominator.times(PARTS * CIRCLE);
    let angles = angles(alloc, adjustment, stated, places)?;
    let arc = best_arc(&circle, &angles);
    let mut differences = Vec::with_capacity(alloc, places.len())?;
    for place in 0..places.len() {
        differences.push(difference_at(denominator, &circle, &angles, &arc, place))?;
    }
    Ok(differences)
}
