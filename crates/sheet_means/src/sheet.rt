//! The sheet of means.
ghost use Rattle.std.specs.Prelude.{◌≡◌, ◌↔◌, length, Err, None, IfOk, OnOk};
ghost use Rattle.adjust_kernel.specs.Pairs.{turned_by_rows};
ghost use Rattle.adjust_kernel.specs.Sheets.{SheetValue};
ghost use Rattle.adjust_kernel.specs.Verdict.{IsAcceptedSheet};
ghost use Rattle.sheet_means.specs.Complete.{IsComplete};
ghost use Rattle.sheet_means.specs.Means.{IsMeansSheet, HasSmallNumbers, IsUnturnedAtFirst};
ghost use Rattle.sheet_means.specs.Parts.{AreEach, AreMeansRows, IsMeansDirection};
ghost use Rattle.sheet_means.specs.Parts.{IsMeansOrientation};

use crate::adjusted::{directions_of, orientations_of};
use crate::complete::is_complete;
use crate::fault::MeansFault;
use crate::rows::rows_of;
use adjust_kernel::{Direction, Orientation, Row, Sheet, Station};
use std::alloc::Global;

/// The sheet with these means.
fn sheet_of(
    station: &Station,
    directions: Vec<Direction>,
    orientations: Vec<Orientation>,
    rows: Vec<Row>,
) -> Sheet
    requires complete { IsComplete station.now }
    requires directions { AreEach
        (IsMeansDirection station.now (turned_by_rows station.now.obs rows.items))
        (length station.now.targets) directions.items }
    requires orientations { AreEach
        (IsMeansOrientation station.now (turned_by_rows station.now.obs rows.items))
        (length station.now.sets) orientations.items }
    requires rows { AreMeansRows station.now rows.items }
    ensures sheet { IsMeansSheet station.now result }
    ensures accepted { IsAcceptedSheet station.now result None }
    ensures unturned { IsUnturnedAtFirst station.now result }
    ensures small { HasSmallNumbers result }
{
    let denominator = station.sets().len() as u64 * station.targets().len() as u64;
    Sheet::from_valid(station.name(), denominator, directions, orientations, rows)
}

/// The sheet of means of a station: the least-squares adjustment of complete sets.
///
/// The full turns of each observation bring its angle to the first target to within half a circle
/// of the same angle in the first set. Directions and orientations are then means, over sets times
/// targets, so that all numbers are whole. Memory and time are linear in the observations.
///
/// # Errors
///
/// `Incomplete` where some target was not observed in some set; else `Memory` where memory ran out.
pub fn means(alloc: Global, station: &Station) -> Result<Sheet, MeansFault>
    ensures incomplete { (result ≡ Err MeansFault.Incomplete) ↔ (IsComplete station.now → ⊥) }
    ensures complete { OnOk result (IsComplete station.now) }
    ensures sheet { IfOk result (IsMeansSheet station.now) }
    ensures only { IfOk result (λ sheet.
        (other : SheetValue) → IsMeansSheet station.now other → other ≡ sheet) }

    // Whatever memory there is, the kernel accepts the sheet.
    ensures accepted { IfOk result (λ sheet. IsAcceptedSheet station.now sheet None) }
    ensures unturned { IfOk result (IsUnturnedAtFirst station.now) }
    ensures small { IfOk result HasSmallNumbers }
{
    if !is_complete(station) {
        return Err(MeansFault::Incomplete);
    }
    let rows = rows_of(alloc, station)?;
    let (directions, rest) = directions_of(alloc, station, &rows)?;
    let orientations = orientations_of(alloc, station, &rows, rest)?;
    Ok(sheet_of(station, directions, orientations, rows))
}
