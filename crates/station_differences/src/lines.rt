//! The targets of a station beside a table, each with its least-squares direction.
ghost use Rattle.std.specs.Prelude.{◌≡◌, ◌≤◌, ◌∷◌, [], length, take, IfOk};
ghost use Rattle.exact_adjustment.specs.Adjustments.{choice_by};
ghost use Rattle.station_differences.specs.ByAdjustment.{AreLinesBy};
ghost use Rattle.station_differences.specs.Differences.{differences_of};
ghost use Rattle.station_differences.specs.Lines.{HasStated, compared_of, least_on, target_on};
ghost use Rattle.station_differences.specs.StatedTargets.{IsEnough, stated_directions};

use crate::compared::TargetDifference;
use crate::difference::differences_at;
use crate::line::{LackingTarget, TargetLine};
use crate::stated::{at_each_place, stated_places};
use adjust_kernel::{Name, UNIT};
use directions_apart::{on_circle, rounded};
use exact_adjustment::Adjustment;
use std::alloc::{AllocError, Global};

/// The targets of an adjustment, in their order, with the directions that are stated of them, and
/// the least-squares ones: least over all directions, orientations and full turns. Of enough of
/// them a direction is stated, as [`crate::is_enough`] tells; of the others the least-squares
/// direction is all.
///
/// One rotation is taken off all differences of stated targets: the one that makes the largest
/// smallest, which brings the middle of the narrowest arc that holds them to 0; of several arcs
/// that of which the first stated target's difference is the start. What is rounded is rounded from
/// the exact fraction, the middle of two upwards. Stated directions are in parts, 81 of which are
/// 0.000000001 gon.
///
/// The only error is that memory was refused.
pub fn lines_by(
    alloc: Global,
    targets: &[Name],
    adjustment: &Adjustment,
    stated: &[Option<i64>],
) -> Result<Vec<TargetLine>, AllocError>
    requires each_target { length adjustment.now.directions ≡ length targets.now }
    requires each_stated { length stated.now ≡ length targets.now }
    requires enough { IsEnough stated.now }
    ensures { IfOk result (λ lines. AreLinesBy (choice_by adjustment.now) targets.now stated.now
        lines.items) }
{
    // An adjustment says of what it answers that it keeps the rules.
    let _ = adjustment.denominator();
    let places = stated_places(alloc, stated)?;
    let directions = at_each_place(alloc, stated)?;
    let differences = differences_at(alloc, adjustment, &directions, &places)?;
    let mut lines = Vec::with_capacity(alloc, targets.len())?;
    let mut taken = 0;
    for place in 0..targets.len() {
        let least = rounded(adjustment, place, UNIT as u32);
        let left = &differences[taken..];
        lines.push(line_of(targets[place], least, stated[place], left))?;
        taken += stated_count(stated[place]);
    }
    Ok(lines)
}

/// The line of a target, which takes the first of the differences that are left where a direction
/// is stated.
fn line_of(target: Name, least: u64, stated: Option<i64>, left: &[i32]) -> TargetLine
    requires { length (stated_directions (stated ∷ [])) ≤ length left.now }
    ensures named { target_on result ≡ target }
    ensures least { least_on result ≡ least }
    ensures stated { HasStated stated result }
    ensures difference { differences_of (compared_of (result ∷ []))
        ≡ take (length (stated_directions (stated ∷ []))) left.now }
{
    match stated {
        Some(direction) => TargetLine::Compared(TargetDifference {
            target,
            stated: on_circle(direction),
            least,
            difference: left[0],
        }),
        None => TargetLine::Lacking(LackingTarget { target, least }),
    }
}

/// How many directions are stated of a target: one or none.
fn stated_count(stated: Option<i64>) -> usize
    ensures { result ≡ length (stated_directions (stated ∷ [])) }
{
    match stated {
        Some(_) => 1,
        None => 0,
    }
}
