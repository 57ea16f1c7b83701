//! The rows of the sheet of means: the observations with their full turns.
ghost use Rattle.std.specs.Prelude.{◌≡◌, length, IfOk};
ghost use Rattle.adjust_kernel.specs.Matching.{key_of_row, key_of_obs};
ghost use Rattle.adjust_kernel.specs.Pairs.{turned_by};
ghost use Rattle.adjust_kernel.specs.Stations.{IsObs};
ghost use Rattle.sheet_means.specs.Complete.{IsComplete};
ghost use Rattle.sheet_means.specs.Turning.{IsTurned};
ghost use Rattle.sheet_means.specs.Parts.{IsMeansRow, AreMeansRows};

use crate::angle::angle_difference;
use crate::turn::turn_of;
use adjust_kernel::{Obs, Row, Station};
use std::alloc::{AllocError, Global};

/// The row of an observation.
fn row_of(station: &Station, obs: &Obs) -> Row
    requires complete { IsComplete station.now }
    requires obs { IsObs (length station.now.sets) (length station.now.targets) obs.now }
    ensures key { key_of_row result ≡ key_of_obs station.now.sets station.now.targets obs.now }
    ensures turned { IsTurned station.now.obs (turned_by obs.now result.turn) }
    ensures row { IsMeansRow result }
{
    let set = obs.set as usize;
    let target = obs.target as usize;
    Row {
        set: station.sets()[set],
        target: station.targets()[target],
        value: obs.value,
        turn: turn_of(angle_difference(station, set, target)),
    }
}

/// The rows of a complete station.
// Apart from its caller, so that the loop's values stay in registers.
#[inline(never)]
pub fn rows_of(alloc: Global, station: &Station) -> Result<Vec<Row>, AllocError>
    requires complete { IsComplete station.now }
    ensures { IfOk result (λ rows. AreMeansRows station.now rows.items) }
{
    let mut rows = Vec::with_capacity(alloc, station.obs().len())?;
    for obs in station.obs() {
        rows.push_reserved(row_of(station, obs));
    }
    Ok(rows)
}
