//! The greatest residual of a station.
ghost use Rattle.std.specs.Prelude.{◌≡◌, ◌≤◌, ◌<◌, ◌+◌, length, unsigned_abs};
ghost use Rattle.station_results.specs.Greatest.{IsGreatest, IsGreatestBefore, residual_at};

use crate::adjusted::AdjustedObs;

/// The size of the residual at a place, in units of 0.001 mgon.
pub fn size_at(rows: &[AdjustedObs], place: usize) -> u32
    requires { place < length rows.now }
    ensures { result ≡ unsigned_abs (residual_at rows.now place) }
{
    rows[place].residual.unsigned_abs()
}

/// The place of the greatest residual before the next place, or that: of the greatest up to there.
fn greater_of(rows: &[AdjustedObs], at: usize, place: usize) -> usize
    requires place { place < length rows.now }
    requires so_far { IsGreatestBefore rows.now place at }
    ensures { IsGreatestBefore rows.now (place + 1) result }
{
    let size = size_at(rows, place);
    if size_at(rows, at) < size {
        return place;
    }
    at
}

/// The place of the greatest residual in size: of the first where several are as great.
pub fn greatest_of(rows: &[AdjustedObs]) -> usize
    requires { 1 ≤ length rows.now }
    ensures { IsGreatest rows.now result }
{
    let mut at = 0;
    for place in 1..rows.len() {
        at = greater_of(rows, at, place);
    }
    at
}
