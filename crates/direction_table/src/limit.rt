//! The limit of a comparison where none is stated.

ghost use Rattle.std.specs.Prelude.{◌≡◌, ◌≤◌, ◌==◌, if◌then◌else◌, max};
ghost use Rattle.direction_table.specs.UsualLimits as spec;

use crate::direction::{COARSEST_STEP, DEGREE_PARTS, FINEST_STEP};
use adjust_kernel::{PARTS, UNIT};

/// The least usual limit of a comparison, in units of 0.000001 gon.
pub const USUAL_WITHIN: u32 = 10;

/// The largest limit of a comparison, in units of 0.000001 gon: 1 gon.
pub const LARGEST_WITHIN: u32 = 1_000_000;

/// 0.000001 gon, in parts.
pub const UNIT_PARTS: u64 = PARTS * UNIT;

/// By how much the field file has the readings of an instrument rounded at most, in units of
/// 0.000001 gon: half of 0.01 mgon.
const ROUNDED_READINGS: u32 = 5;

/// The finer of two steps, where 0 is none.
pub(crate) fn finer(step: u64, other: u64) -> u64
    ensures { result ≡ spec.finer step other }
{
    if step == 0 {
        return other;
    }
    if other == 0 {
        return step;
    }
    step.min(other)
}

/// The limit of a comparison with directions that are rounded to steps of so many parts, in units
/// of 0.000001 gon: half a step, rounded up, and 5.
fn limit_of_step(step: u64) -> u32
    requires { step ≤ COARSEST_STEP }
    ensures { result ≡ spec.limit_of_step step }
{
    ((step + (2 * UNIT_PARTS - 1)) / (2 * UNIT_PARTS)) as u32 + ROUNDED_READINGS
}

/// The usual limit of a table whose finest step has so many parts, or is 0 for none, in units of
/// 0.000001 gon.
pub(crate) fn usual_within(finest_step: u64) -> u32
    requires { finest_step ≤ COARSEST_STEP }
    ensures { result ≡ max USUAL_WITHIN (spec.limit_of_step finest_step) }
{
    limit_of_step(finest_step).max(USUAL_WITHIN)
}

/// By how many parts the numbers of a table, whose finest step is this, may be off from the
/// directions that are read of them.
pub(crate) fn most_off(finest_step: u64) -> u64
    ensures value { result ≡ (if finest_step == 1 then DEGREE_PARTS else 0) }
    ensures bound { result ≤ DEGREE_PARTS }
{
    if finest_step == FINEST_STEP {
        DEGREE_PARTS
    } else {
        0
    }
}
