//! The root of a number, rounded.
ghost use Rattle.std.specs.Prelude.{◌≤◌, ◌<◌, ◌-◌};
ghost use Rattle.station_report.specs.Deviations.{square_above, square_below};

/// No number is above this: 100 squares of a full circle of half units.
const LARGEST_SQUARE: u64 = 640_000_000_000_000_000;

/// More than half the root of that.
const ROOT: u64 = 400_000_001;

/// Half the root of a number, rounded to a whole number, the middle of two upwards. By halving.
pub(crate) fn half_root(number: u64) -> u64
    requires { number ≤ LARGEST_SQUARE }
    ensures low { square_below result ≤ number }
    ensures high { number < square_above result }
    ensures bound { result < ROOT }
{
    let mut low = 0;
    let mut high = ROOT;
    while high - low > 1 {
        let middle = low + (high - low) / 2;
        let below = 2 * middle - 1;
        if number < below * below {
            high = middle;
        } else {
            low = middle;
        }
    }
    low
}
