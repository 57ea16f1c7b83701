//! Angles between observations of a complete station.
ghost use Rattle.std.specs.Prelude.{◌≡◌, ◌<◌, ◌≤ℤ◌, ◌<ℤ◌, pos, ◌*ℤ◌, ◌-ℤ◌, length};
ghost use Rattle.adjust_kernel.specs.Within.{IsWithin};
ghost use Rattle.sheet_means.specs.Complete.{IsComplete};
ghost use Rattle.sheet_means.specs.Turning as Turning;

use adjust_kernel::{Station, TURN};

/// The direction of a target in a set, by their places.
fn value_of(station: &Station, set: usize, target: usize) -> i64
    requires complete { IsComplete station.now }
    requires set { set < length station.now.sets }
    requires target { target < length station.now.targets }
    ensures value { result ≡ Turning.value_of station.now.obs set target }
    ensures low { pos 0 ≤ℤ result }
    ensures high { result <ℤ pos TURN }
{
    let place = set * station.targets().len() + target;
    i64::from(station.obs()[place].value)
}

/// The angle from the first target to another in a set.
fn angle_of(station: &Station, set: usize, target: usize) -> i64
    requires complete { IsComplete station.now }
    requires set { set < length station.now.sets }
    requires target { target < length station.now.targets }
    ensures value { result
        ≡ Turning.value_of station.now.obs set target -ℤ Turning.value_of station.now.obs set 0 }
    ensures bound { IsWithin (pos TURN) result }
{
    value_of(station, set, target) - value_of(station, set, 0)
}

/// The angle from the first target to another in a set, less the same angle in the first set.
pub fn angle_difference(station: &Station, set: usize, target: usize) -> i64
    requires complete { IsComplete station.now }
    requires set { set < length station.now.sets }
    requires target { target < length station.now.targets }
    ensures value { result ≡ Turning.angle_difference station.now.obs set target }
    ensures bound { IsWithin (pos TURN *ℤ pos 2) result }
{
    angle_of(station, set, target) - angle_of(station, 0, target)
}
