//! Directions as text, in gon or in degrees, and their numbers of parts.

ghost use Rattle.std.specs.Prelude.{◌≡◌, ◌<◌, ◌≤◌, ◌*◌, pos, true, false, IfSome, IfNone};
ghost use Rattle.std.specs.Prelude.{OnSome};
ghost use Rattle.adjust_kernel.specs.Within.{IsWithin};
ghost use Rattle.direction_table.specs.Directions as spec;
ghost use Rattle.direction_table.specs.Gons as gons;

use crate::degrees::{has_minutes, packed_of, sexagesimal_of};
use crate::gon::{MOST_DECIMALS, has_exponent, size_of};
use crate::unit::AngleUnit;
use adjust_kernel::{CIRCLE, PARTS};

/// Parts in 0.000000001 degrees.
pub const DEGREE_PARTS: u64 = 90;

/// Parts in 0.000001 seconds.
pub const SECOND_PARTS: u64 = 25;

/// Parts in a full circle.
pub const CIRCLE_PARTS: u64 = PARTS * CIRCLE;

/// No direction is rounded to larger steps, in parts: a degree has as many.
pub(crate) const COARSEST_STEP: u64 = 90_000_000_000;

/// The step that a number tells of which something is left out, in parts: less than any other.
pub(crate) const FINEST_STEP: u64 = 1;

/// A number without its sign, in parts.
#[derive(Clone, Copy)]
pub(crate) struct Angle {
    /// Its parts.
    pub(crate) size: u128,
    /// The step to which it is rounded as it is written; 0 where it tells none.
    pub(crate) step: u64,
}

/// One unit of the last of so many decimals, in units of the ninth; 0 where there are none.
fn last_unit(decimals: u128) -> u64
    ensures value { result ≡ spec.last_unit decimals }
    ensures bound { result ≤ 1_000_000_000 }
{
    if decimals == 0 {
        return 0;
    }
    10u64.pow((MOST_DECIMALS as u128).saturating_sub(decimals) as u32)
}

/// The decimal number that bytes write, where a unit of its ninth decimal has so many parts.
fn decimal_of(bytes: &[u8], parts: u64) -> Option<Angle>
    requires { parts ≤ DEGREE_PARTS }
    ensures size { IfSome result (λ angle. angle.size ≡ parts * gons.size_value bytes.now) }
    ensures step { IfSome result (λ angle. angle.step ≡ spec.size_step parts bytes.now) }
    ensures bound { IfSome result (λ angle. angle.step ≤ COARSEST_STEP) }
    ensures some { OnSome result (gons.is_size bytes.now ≡ true) }
    ensures none { IfNone result (gons.is_size bytes.now ≡ false) }
{
    let size = size_of(bytes)?;
    Some(Angle {
        size: u128::from(parts) * size.value,
        step: if size.is_whole {
            parts * last_unit(size.decimals)
        } else {
            FINEST_STEP
        },
    })
}

/// Whether degrees have minutes, and no exponent.
fn are_sexagesimal(bytes: &[u8]) -> bool
    ensures { result ≡ spec.are_sexagesimal bytes.now }
{
    has_minutes(bytes) && !has_exponent(bytes)
}

/// The number that bytes write in a unit.
fn angle_of(unit: AngleUnit, bytes: &[u8]) -> Option<Angle>
    ensures size { IfSome result (λ angle. angle.size ≡ spec.angle_value unit bytes.now) }
    ensures step { IfSome result (λ angle. angle.step ≡ spec.angle_step unit bytes.now) }
    ensures bound { IfSome result (λ angle. angle.step ≤ COARSEST_STEP) }
    ensures some { OnSome result (spec.is_angle unit bytes.now ≡ true) }
    ensures none { IfNone result (spec.is_angle unit bytes.now ≡ false) }
{
    match unit {
        AngleUnit::Gon => decimal_of(bytes, PARTS),
        AngleUnit::Degrees => {
            if are_sexagesimal(bytes) {
                sexagesimal_of(bytes)
            } else {
                decimal_of(bytes, DEGREE_PARTS)
            }
        }
        AngleUnit::PackedDegrees => packed_of(bytes),
    }
}

/// A field that is a direction, taken apart.
#[derive(Clone, Copy)]
pub(crate) struct Direction {
    is_negative: bool,
    angle: Angle,
}

/// A number with this sign, if these bytes are one.
fn direction_of(unit: AngleUnit, is_negative: bool, bytes: &[u8]) -> Option<Direction>
    ensures size { IfSome result (λ d. d.angle.size ≡ spec.angle_value unit bytes.now) }
    ensures sign { IfSome result (λ d. d.is_negative ≡ is_negative) }
    ensures step { IfSome result (λ d. d.angle.step ≡ spec.angle_step unit bytes.now) }
    ensures bound { IfSome result (λ d. d.angle.step ≤ COARSEST_STEP) }
    ensures some { OnSome result (spec.is_angle unit bytes.now ≡ true) }
    ensures none { IfNone result (spec.is_angle unit bytes.now ≡ false) }
{
    let angle = angle_of(unit, bytes)?;
    Some(Direction { is_negative, angle })
}

impl Direction {
    /// The direction of a field, if it is one, however large.
    pub(crate) fn of(unit: AngleUnit, field: &[u8]) -> Option<Direction>
        ensures size { IfSome result
            (λ d. d.angle.size ≡ spec.angle_value unit (gons.unsigned field.now)) }
        ensures sign { IfSome result (λ d. d.is_negative ≡ gons.is_negative field.now) }
        ensures step { IfSome result (λ d. d.angle.step ≡ spec.step_in unit field.now) }
        ensures bound { IfSome result (λ d. d.angle.step ≤ COARSEST_STEP) }
        ensures some { OnSome result (spec.is_direction unit field.now ≡ true) }
        ensures none { IfNone result (spec.is_direction unit field.now ≡ false) }
    {
        match field {
            [b'-', bytes @ ..] => direction_of(unit, true, bytes),
            [b'+', bytes @ ..] => direction_of(unit, false, bytes),
            _ => direction_of(unit, false, field),
        }
    }

    /// The step to which it is rounded as it is written, in parts; 0 where it tells none.
    pub(crate) fn step(self) -> u64
        ensures { result ≡ self.angle.step }
    {
        self.angle.step
    }

    /// The direction in parts, if it is a full circle at most; a full circle is 0.
    pub(crate) fn on_circle(self) -> Option<i64>
        ensures value { IfSome result
            (λ value. value ≡ spec.on_circle self.is_negative self.angle.size) }
        ensures bound { IfSome result (λ value. IsWithin (pos CIRCLE_PARTS) value) }
        ensures some { OnSome result (self.angle.size ≤ CIRCLE_PARTS) }
        ensures none { IfNone result (CIRCLE_PARTS < self.angle.size) }
    {
        if self.angle.size > u128::from(CIRCLE_PARTS) {
            return None;
        }
        if self.angle.size == u128::from(CIRCLE_PARTS) {
            return Some(0);
        }
        let size = self.angle.size as i64;
        Some(if self.is_negative { -size } else { size })
    }
}
