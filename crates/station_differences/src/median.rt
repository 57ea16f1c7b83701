//! The median of differences: where most targets agree, what they agree on.
ghost use Rattle.std.specs.Prelude.{◌≡◌, ◌≤◌, ◌<◌, length, IfSome};
ghost use Rattle.std.specs.List.{position};
ghost use Rattle.station_differences.specs.Medians as spec;

use crate::compared::TargetDifference;

/// How many rows have a difference below this one.
fn below(rows: &[TargetDifference], difference: i32) -> usize
    ensures value { result ≡ spec.below rows.now difference }
    ensures bound { result ≤ length rows.now }
{
    rows.iter()
        .filter(|row| row.difference < difference)
        .count()
}

/// How many rows have a difference that is not above this one.
fn not_above(rows: &[TargetDifference], difference: i32) -> usize
    ensures value { result ≡ spec.not_above rows.now difference }
    ensures bound { result ≤ length rows.now }
{
    rows.iter()
        .filter(|row| row.difference <= difference)
        .count()
}

/// Whether a difference is the lower median of rows.
fn is_median(rows: &[TargetDifference], difference: i32) -> bool
    ensures { result ≡ spec.is_median rows.now difference }
{
    let below = below(rows, difference);
    let not_above = not_above(rows, difference);
    below < rows.len() - below && rows.len() - not_above <= not_above
}

/// Whether the difference of a row is the lower median of rows.
fn has_median(rows: &[TargetDifference], row: &TargetDifference) -> bool
    ensures { result ≡ spec.is_median rows.now row.now.difference }
{
    is_median(rows, row.difference)
}

/// The place of the first row that has the lower median.
fn median_place(rows: &[TargetDifference]) -> Option<usize>
    ensures value { result ≡ position (λ row. spec.is_median rows.now row.difference) rows.now }
    ensures inside { IfSome result (λ place. place < length rows.now) }
{
    rows.iter().position(|row| has_median(rows, row))
}

/// The lower median of the differences of rows, in units of 0.001 mgon; 0 of no rows.
pub fn median_of(rows: &[TargetDifference]) -> i32
    ensures { result ≡ spec.median_of rows.now }
{
    match median_place(rows) {
        Some(place) => rows[place].difference,
        None => 0,
    }
}
