//! Sums of observations with their full turns. All of them fit into 64 bits.
ghost use Rattle.std.specs.Prelude.{◌≡◌, ◌<◌, pos, ◌*ℤ◌, length};
ghost use Rattle.adjust_kernel.specs.Within.{IsWithin};
ghost use Rattle.adjust_kernel.specs.Pairs.{turned_by_rows};
ghost use Rattle.sheet_means.specs.Complete.{IsComplete};
ghost use Rattle.sheet_means.specs.Parts.{AreMeansRows};
ghost use Rattle.sheet_means.specs.Totals as Totals;
ghost use Rattle.adjust_kernel.specs.Residuals as Residuals;

use crate::turn::MOST_TURNS;
use adjust_kernel::{MOST_SETS, MOST_TARGETS, Row, Station, TURN};

/// No observation with its full turns is larger than this in a sheet of means, in half units (0.005
/// mgon each).
pub const LARGEST_UNROLLED: i64 = (MOST_TURNS as i64 + 1) * TURN as i64;

/// The observation of a set and a target with its full turns, by their places.
fn observation_at(station: &Station, rows: &[Row], set: usize, target: usize) -> i64
    requires complete { IsComplete station.now }
    requires rows { AreMeansRows station.now rows.now }
    requires set { set < length station.now.sets }
    requires target { target < length station.now.targets }
    ensures value { result ≡ Residuals.unrolled
        (Totals.observation_at (turned_by_rows station.now.obs rows.now)
        (length station.now.targets) set target) }
    ensures bound { IsWithin LARGEST_UNROLLED result }
{
    rows[set * station.targets().len() + target].unrolled()
}

/// The observations of a target, added over all sets.
pub fn target_total(station: &Station, rows: &[Row], target: usize) -> i64
    requires complete { IsComplete station.now }
    requires rows { AreMeansRows station.now rows.now }
    requires target { target < length station.now.targets }
    ensures value { result ≡ Totals.target_total (turned_by_rows station.now.obs rows.now) target }
    ensures bound { IsWithin (LARGEST_UNROLLED *ℤ pos MOST_SETS) result }
{
    let mut total = 0;
    for set in 0..station.sets().len() {
        total += observation_at(station, rows, set, target);
    }
    total
}

/// The observations of a set, added over all targets.
pub fn set_total(station: &Station, rows: &[Row], set: usize) -> i64
    requires complete { IsComplete station.now }
    requires rows { AreMeansRows station.now rows.now }
    requires set { set < length station.now.sets }
    ensures value { result ≡ Totals.set_total (turned_by_rows station.now.obs rows.now) set }
    ensures bound { IsWithin (LARGEST_UNROLLED *ℤ pos MOST_TARGETS) result }
{
    let mut total = 0;
    for target in 0..station.targets().len() {
        total += observation_at(station, rows, set, target);
    }
    total
}
