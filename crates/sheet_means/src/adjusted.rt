//! The adjusted directions and orientations: means of the observations, times sets times targets.
ghost use Rattle.std.specs.Prelude.{◌≡◌, ◌<◌, ◌≤◌, pos, ◌*ℤ◌, ◌-ℤ◌, [], length, slice_index_or};
ghost use Rattle.std.specs.Prelude.{IfOk};
ghost use Rattle.adjust_kernel.specs.Pairs.{turned_by_rows};
ghost use Rattle.adjust_kernel.specs.Within.{IsWithin};
ghost use Rattle.sheet_means.specs.Complete.{IsComplete};
ghost use Rattle.sheet_means.specs.Parts.{AreMeansRows, IsMeansDirection, IsMeansOrientation};
ghost use Rattle.sheet_means.specs.Parts.{AreEach};
ghost use Rattle.sheet_means.specs.Totals as Totals;

use crate::totals::{LARGEST_UNROLLED, set_total, target_total};
use adjust_kernel::{Direction, MOST_ROWS, MOST_SETS, MOST_TARGETS, Orientation, Row, Station};
use std::alloc::{AllocError, Global};

/// No direction and no orientation of a sheet of means is larger, in half units (0.005 mgon each)
/// times sets times targets.
pub const LARGEST_MEAN: i128 = 4 * LARGEST_UNROLLED as i128 * MOST_ROWS as i128;

/// A sum over the sets less another.
fn subtract(sum: i64, other: i64) -> i64
    requires sum { IsWithin (LARGEST_UNROLLED *ℤ pos MOST_SETS) sum }
    requires other { IsWithin (LARGEST_UNROLLED *ℤ pos MOST_SETS) other }
    ensures value { result ≡ (sum -ℤ other) }
    ensures bound { IsWithin (LARGEST_UNROLLED *ℤ pos 2 *ℤ pos MOST_SETS) result }
{
    sum - other
}

/// A difference of two sums over the sets, times the number of targets.
fn times_targets(targets: usize, difference: i64) -> i64
    requires targets { targets ≤ MOST_TARGETS }
    requires difference { IsWithin (LARGEST_UNROLLED *ℤ pos 2 *ℤ pos MOST_SETS) difference }
    ensures value { result ≡ (pos targets *ℤ difference) }
    ensures bound { IsWithin (LARGEST_UNROLLED *ℤ pos 2 *ℤ pos MOST_ROWS) result }
{
    targets as i64 * difference
}

/// A sum over the targets times the number of sets.
fn times_sets(sets: usize, sum: i64) -> i64
    requires sets { sets ≤ MOST_SETS }
    requires sum { IsWithin (LARGEST_UNROLLED *ℤ pos MOST_TARGETS) sum }
    ensures value { result ≡ (pos sets *ℤ sum) }
    ensures bound { IsWithin (LARGEST_UNROLLED *ℤ pos MOST_ROWS) result }
{
    sets as i64 * sum
}

/// The direction of a target: its observations over the sets, less the first target's, as a mean.
fn direction_of(station: &Station, target: usize, difference: i64) -> Direction
    requires target { target < length station.now.targets }
    requires difference { IsWithin (LARGEST_UNROLLED *ℤ pos 2 *ℤ pos MOST_SETS) difference }
    ensures name { result.name ≡ slice_index_or station.now.targets target [] }
    ensures value { result.value ≡ (pos (length station.now.targets) *ℤ difference) }
    ensures bound { IsWithin LARGEST_MEAN result.value }
{
    let targets = station.targets();
    Direction {
        name: targets[target],
        value: i128::from(times_targets(targets.len(), difference)),
    }
}

/// The directions of the targets; and what all sets have in common in their orientations: the
/// observations of all targets, less those of the first times the number of targets.
pub fn directions_of(
    alloc: Global,
    station: &Station,
    rows: &[Row],
) -> Result<(Vec<Direction>, i64), AllocError>
    requires complete { IsComplete station.now }
    requires rows { AreMeansRows station.now rows.now }
    ensures directions { IfOk result (λ made.
        AreEach (IsMeansDirection station.now (turned_by_rows station.now.obs rows.now))
        (length station.now.targets) made.0.items) }
    ensures rest { IfOk result (λ made.
        made.1 ≡ Totals.whole_total (turned_by_rows station.now.obs rows.now)
        -ℤ pos (length station.now.targets)
        *ℤ Totals.target_total (turned_by_rows station.now.obs rows.now) 0) }
    ensures bound { IfOk result (λ made.
        IsWithin (LARGEST_UNROLLED *ℤ pos 2 *ℤ pos MOST_ROWS) made.1) }
{
    let targets = station.targets().len();
    let first = target_total(station, rows, 0);
    let mut directions = Vec::with_capacity(alloc, targets)?;
    let mut rest = 0;
    for target in 0..targets {
        let difference = subtract(target_total(station, rows, target), first);
        directions.push(direction_of(station, target, difference))?;
        rest += difference;
    }
    Ok((directions, rest))
}

/// The orientation of a set: the mean over the targets of direction less observation.
fn orientation_of(station: &Station, rows: &[Row], rest: i64, set: usize) -> Orientation
    requires complete { IsComplete station.now }
    requires rows { AreMeansRows station.now rows.now }
    requires rest { rest ≡ Totals.whole_total (turned_by_rows station.now.obs rows.now)
        -ℤ pos (length station.now.targets)
        *ℤ Totals.target_total (turned_by_rows station.now.obs rows.now) 0 }
    requires bound { IsWithin (LARGEST_UNROLLED *ℤ pos 2 *ℤ pos MOST_ROWS) rest }
    requires set { set < length station.now.sets }
    ensures { IsMeansOrientation station.now (turned_by_rows station.now.obs rows.now) set result }
{
    let sets = station.sets();
    let share = times_sets(sets.len(), set_total(station, rows, set));
    Orientation {
        set: sets[set],
        value: i128::from(rest - share),
    }
}

/// The orientations of the sets, by what they have in common.
pub fn orientations_of(
    alloc: Global,
    station: &Station,
    rows: &[Row],
    rest: i64,
) -> Result<Vec<Orientation>, AllocError>
    requires complete { IsComplete station.now }
    requires rows { AreMeansRows station.now rows.now }
    requires rest { rest ≡ Totals.whole_total (turned_by_rows station.now.obs rows.now)
        -ℤ pos (length station.now.targets)
        *ℤ Totals.target_total (turned_by_rows station.now.obs rows.now) 0 }
    requires bound { IsWithin (LARGEST_UNROLLED *ℤ pos 2 *ℤ pos MOST_ROWS) rest }
    ensures { IfOk result (λ orientations.
        AreEach (IsMeansOrientation station.now (turned_by_rows station.now.obs rows.now))
        (length station.now.sets) orientations.items) }
{
    let sets = station.sets().len();
    let mut orientations = Vec::with_capacity(alloc, sets)?;
    for set in 0..sets {
        orientations.push(orientation_of(station, rows, rest, set))?;
    }
    Ok(orientations)
}
