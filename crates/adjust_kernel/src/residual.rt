//! Scaled residuals: what is left of a direction, less the orientation, against the observation.
//!
//! Everything is in half units times the sheet's denominator, so that all numbers are whole. Each
//! step has its own bound, and no step is near the end of 128 bits.
ghost use Rattle.std.specs.Prelude.{◌≡◌, ◌≤◌, ◌<◌, pos, ◌*ℤ◌, length, slice_index_or};
ghost use Rattle.adjust_kernel.specs.Matching.{Matches};
ghost use Rattle.adjust_kernel.specs.TurnedObservations.{TurnedObservation};
ghost use Rattle.adjust_kernel.specs.Within.{IsWithin};
ghost use Rattle.adjust_kernel.specs.Stations.{IsObs};
ghost use Rattle.adjust_kernel.specs.Pairs.{ArePaired, turned_by, turned_by_rows, choice_stated_by};
ghost use Rattle.adjust_kernel.specs.Residuals.{residual};
ghost use Rattle.adjust_kernel.specs.Verdict.{observations};

use crate::bounds::{LARGEST_ANGLE, LARGEST_DENOMINATOR, LARGEST_RESIDUAL, LARGEST_TURN, TURN};
use crate::obs::Obs;
use crate::row::{Row, unrolled};
use crate::sheet::Sheet;
use crate::station::Station;

/// No observation with its full turns is larger than this, in half units.
const LARGEST_UNROLLED: i64 = (LARGEST_TURN as i64 + 1) * TURN as i64;

/// An observation with its full turns, times the denominator: both fit into 64 bits with a sign,
/// and the machine multiplies two such numbers at once.
fn scaled(denominator: u64, observation: i64) -> i128
    requires denominator { denominator ≤ LARGEST_DENOMINATOR }
    requires observation { IsWithin LARGEST_UNROLLED observation }
    ensures value { result ≡ (pos denominator *ℤ observation) }
    ensures bound { IsWithin (pos LARGEST_DENOMINATOR *ℤ LARGEST_UNROLLED) result }
{
    i128::from(denominator as i64) * i128::from(observation)
}

/// The direction of a target.
fn direction_of(sheet: &Sheet, target: u32) -> i128
    requires { target < length sheet.now.directions }
    ensures value { result ≡ (choice_stated_by sheet.now).direction target }
    ensures bound { IsWithin LARGEST_ANGLE result }
{
    sheet.directions()[target as usize].value
}

/// The orientation of a set.
fn orientation_of(sheet: &Sheet, set: u32) -> i128
    requires { set < length sheet.now.orientations }
    ensures value { result ≡ (choice_stated_by sheet.now).orientation set }
    ensures bound { IsWithin LARGEST_ANGLE result }
{
    sheet.orientations()[set as usize].value
}

/// The scaled residual of an observation and the sheet's row for it.
fn residual_at(sheet: &Sheet, obs: &Obs, row: &Row) -> i128
    requires obs { IsObs (length sheet.now.orientations) (length sheet.now.directions) obs.now }
    requires turn { IsWithin LARGEST_TURN row.now.turn }
    ensures value { result
        ≡ residual (choice_stated_by sheet.now) (turned_by obs.now row.now.turn) }
    ensures bound { IsWithin LARGEST_RESIDUAL result }
{
    let direction = direction_of(sheet, obs.target);
    let orientation = orientation_of(sheet, obs.set);
    let observation = scaled(sheet.denominator(), unrolled(obs.value, row.turn));
    direction - orientation - observation
}

/// The scaled residual of a row, by its place from 0, in half units (0.005 mgon each) times the
/// sheet's denominator: of a sheet of this station.
pub fn residual_of(station: &Station, sheet: &Sheet, row: usize) -> i128
    requires matches { Matches station.now sheet.now }
    requires row { row < length station.now.obs }
    ensures value { (d : TurnedObservation)
        → result ≡ residual (choice_stated_by sheet.now)
        (slice_index_or (observations station.now sheet.now) row d) }
    ensures bound { IsWithin LARGEST_RESIDUAL result }
{
    row_residual(sheet, station.obs(), row)
}

/// The scaled residual of the sheet's row at a place from 0.
pub(crate) fn row_residual(sheet: &Sheet, obs: &[Obs], row: usize) -> i128
    requires paired { ArePaired sheet.now obs.now }
    requires row { row < length obs.now }
    ensures value { (d : TurnedObservation)
        → result ≡ residual (choice_stated_by sheet.now)
        (slice_index_or (turned_by_rows obs.now sheet.now.rows) row d) }
    ensures bound { IsWithin LARGEST_RESIDUAL result }
{
    residual_at(sheet, &obs[row], &sheet.rows()[row])
}
