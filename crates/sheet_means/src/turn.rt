//! The full turns of an observation.
ghost use Rattle.std.specs.Prelude.{◌≡◌, pos, ◌+ℤ◌, ◌*ℤ◌};
ghost use Rattle.adjust_kernel.specs.Within.{IsWithin};
ghost use Rattle.sheet_means.specs.Turning.{IsInHalfCircle};

use adjust_kernel::TURN;

/// Half units (0.005 mgon each) in half a circle.
pub const HALF_TURN: i64 = TURN as i64 / 2;

/// The largest number of full turns of an observation in a sheet of means.
pub const MOST_TURNS: i8 = 2;

/// The full turns that bring a difference of two angles into the half circle: most often none,
/// which is asked first.
pub fn turn_of(difference: i64) -> i8
    requires { IsWithin (pos TURN *ℤ pos 2) difference }
    ensures value { IsInHalfCircle (difference +ℤ pos TURN *ℤ result) }
    ensures bound { IsWithin MOST_TURNS result }
{
    if (-HALF_TURN..HALF_TURN).contains(&difference) {
        0
    } else if difference < -3 * HALF_TURN {
        2
    } else if difference < 0 {
        1
    } else if difference < 3 * HALF_TURN {
        -1
    } else {
        -2
    }
}
