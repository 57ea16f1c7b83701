//! The accuracy of a station's directions.
ghost use Rattle.std.specs.Prelude.{◌≡◌, ◌<◌, ◌≤◌, ◌^◌, IfOk, None, Ok, length, true, false};
ghost use Rattle.std.specs.Option.{ForSome};
ghost use Rattle.adjust_kernel.specs.Stations.{IsStation};
ghost use Rattle.adjust_kernel.specs.declared.bounds.TheConstants.{LARGEST_RESIDUAL_LIMIT};
ghost use Rattle.adjust_kernel.specs.declared.bounds.TheConstants.{MOST_ROWS, MOST_SETS};
ghost use Rattle.exact_adjustment.specs.Exact.{IsExact, KeepsLimit};
ghost use Rattle.exact_adjustment.specs.LeastOf.{AreTied};
ghost use Rattle.station_report.specs.Computing.{AreSquaresOf};
ghost use Rattle.station_report.specs.Deviations as spec;
ghost use Rattle.station_report.specs.Small.{AreSmall};

use crate::accuracy::Accuracy;
use crate::root::half_root;
use crate::squares::squares_of;
use adjust_kernel::{LARGEST_RESIDUAL_LIMIT, Station};
use exact_adjustment::Adjustment;
use std::alloc::{AllocError, Global};
use wide_number::{Wide, quotient};

/// Squares of 0.001 mgon in the square of a half unit (0.005 mgon).
const SQUARES: u64 = 25;

/// Quarters of the square of 0.001 mgon in the square of a half unit (0.005 mgon).
pub(crate) const QUARTERS: u64 = 100;

/// The square of the largest residual, in half units.
const LARGEST_SQUARE: u64 = LARGEST_RESIDUAL_LIMIT as u64 * LARGEST_RESIDUAL_LIMIT as u64;

/// The degrees of freedom of a station's adjustment: its observations less its targets and its
/// sets, and one more.
pub fn degrees_of(station: &Station) -> u64
    ensures value { result ≡ spec.degrees_of station.now }
    ensures bound { result ≤ MOST_ROWS }
    ensures valid { IsStation station.now }
{
    let obs = station.obs().len() as u64 + 1;
    obs.saturating_sub(station.targets().len() as u64 + station.sets().len() as u64)
}

/// The accuracy of a station's directions by an exact adjustment of it: the sum of the squares of all
/// residuals; the standard deviation of one two-face direction, which is the root of that sum over
/// the degrees of freedom; and where each set has each target, that of each adjusted direction, over
/// the root of the number of sets. Each is rounded once, the middle of two upwards. None where there
/// are no degrees of freedom.
///
/// The only error is that memory was refused, which is asked for where there are some.
pub fn accuracy_by(
    alloc: Global,
    station: &Station,
    adjustment: &Adjustment,
) -> Result<Option<Accuracy>, AllocError>
    requires exact { IsExact station.now adjustment.now }
    requires limited { KeepsLimit station.now adjustment.now LARGEST_RESIDUAL_LIMIT }
    requires tied { AreTied station.now }
    ensures accuracy { IfOk result (spec.IsAccuracy station.now) }
    ensures none { spec.degrees_of station.now ≡ 0 → result ≡ Ok None }
    ensures small { IfOk result (λ accuracy. ForSome accuracy AreSmall) }
{
    if degrees_of(station) == 0 {
        return Ok(None);
    }
    let squares = squares_of(alloc, station, adjustment)?;
    Ok(Some(accuracy_of(station, adjustment, &squares)))
}

/// The accuracy of a station's directions, by the sum of squares over the denominator.
fn accuracy_of(station: &Station, adjustment: &Adjustment, squares: &Wide) -> Accuracy
    requires { AreSquaresOf station.now adjustment.now squares.now }
    ensures accuracy { spec.HasAccuracy station.now result }
    ensures small { AreSmall result }
{
    Accuracy {
        squares: sum_of(station, adjustment, squares),
        of_one: deviation_of(station, adjustment, squares, 1),
        of_adjusted: of_adjusted(station, adjustment, squares),
    }
}

/// The sum of squares, in squares of 0.001 mgon.
fn sum_of(station: &Station, adjustment: &Adjustment, squares: &Wide) -> u64
    requires { AreSquaresOf station.now adjustment.now squares.now }
    ensures rounded { spec.OfEachLeast station.now (λ denominator squares.
        spec.IsSumOf denominator squares result) }
    ensures bound { result < 2 ^ 40 }
{
    let denominator = adjustment.denominator();
    let most = SQUARES * LARGEST_SQUARE * station.obs().len() as u64 + 1;
    // Half a square more, and the quotient is the nearest whole number of squares.
    let mut halves = squares.times(2 * SQUARES);
    halves.add_product(denominator, 1);
    quotient(&halves, &denominator.times(2), most)
}

/// The standard deviation of the mean of so many two-face directions, in units of 0.001 mgon.
fn deviation_of(station: &Station, adjustment: &Adjustment, squares: &Wide, number: u64) -> u32
    requires squares { AreSquaresOf station.now adjustment.now squares.now }
    requires some { 1 ≤ number }
    requires few { number ≤ MOST_SETS }
    ensures deviation { spec.IsDeviationOf station.now number result }
    ensures bound { result < 2 ^ 31 }
{
    let obs = station.obs();
    let degrees = degrees_of(station) * number;
    let denominator = adjustment.denominator();
    let most = QUARTERS * LARGEST_SQUARE * obs.len() as u64 / degrees + 1;
    let unit = denominator.times(degrees);
    let quarters = squares.times(QUARTERS);
    let square = quotient(&quarters, &unit, most);
    half_root(square) as u32
}

/// Whether each set of a station has each target.
fn has_all(station: &Station) -> bool
    ensures all { result ≡ true → spec.HasAll station.now }
    ensures gap { result ≡ false → ¬ (spec.HasAll station.now) }
{
    station.obs().len() == station.sets().len() * station.targets().len()
}

/// The standard deviation of each adjusted direction, where each set has each target.
fn of_adjusted(station: &Station, adjustment: &Adjustment, squares: &Wide) -> Option<u32>
    requires { AreSquaresOf station.now adjustment.now squares.now }
    ensures deviation { spec.IsOfAdjusted station.now result }
    ensures bound { ForSome result (λ units. units < 2 ^ 31) }
{
    if has_all(station) {
        let sets = station.sets().len() as u64;
        return Some(deviation_of(station, adjustment, squares, sets));
    }
    None
}
