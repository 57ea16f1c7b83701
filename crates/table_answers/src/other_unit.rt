//! The unit in which a table agrees, where it is apart as it is read.
ghost use Rattle.std.specs.Prelude.{◌≡◌, ◌≤◌, ◌↔◌, IfOk, IsTrue, OnOk, length};
ghost use Rattle.adjust_kernel.specs.declared.bounds.TheConstants.{LARGEST_RESIDUAL_LIMIT};
ghost use Rattle.direction_table.specs.declared.fault.TableFault.TheVariants.{Memory};
ghost use Rattle.exact_adjustment.specs.Exact.{IsExact, KeepsLimit};
ghost use Rattle.exact_adjustment.specs.LeastOf.{AreTied};
ghost use Rattle.table_answers.specs.NearTables.{IsNear};
ghost use Rattle.table_answers.specs.OtherUnits.{Agrees, AgreesIn, IsFirstUnit, IsOtherUnit};
ghost use Rattle.table_answers.specs.OtherUnits as spec;

use adjust_kernel::Station;
use direction_table::{
    AngleUnit, DEGREE_PARTS, StatedTable, TableFault, TableForm, read_stated_table,
};
use exact_adjustment::Adjustment;
use least_directions::apart_by;
use std::alloc::{AllocError, Global};

/// The unit that is named of a table that agrees as it is read, or doesn't: none; else the first of
/// gon, degrees and D.MMSS in which it agrees by its usual limit.
///
/// The only error is that memory was refused.
pub(crate) fn other_unit(
    alloc: Global,
    form: TableForm,
    station: &Station,
    adjustment: &Adjustment,
    agrees: bool,
    bytes: &[u8],
) -> Result<Option<AngleUnit>, AllocError>
    requires exact { IsExact station.now adjustment.now }
    requires limited { KeepsLimit station.now adjustment.now LARGEST_RESIDUAL_LIMIT }
    requires tied { AreTied station.now }
    requires agrees { IsTrue agrees ↔ Agrees form station.now bytes.now }
    ensures { IfOk result (IsOtherUnit form station.now bytes.now) }
{
    if agrees {
        return Ok(None);
    }
    first_unit(alloc, form, station, adjustment, bytes)
}

/// The first of gon, degrees and D.MMSS in which a table agrees that doesn't as it is read.
fn first_unit(
    alloc: Global,
    form: TableForm,
    station: &Station,
    adjustment: &Adjustment,
    bytes: &[u8],
) -> Result<Option<AngleUnit>, AllocError>
    requires exact { IsExact station.now adjustment.now }
    requires limited { KeepsLimit station.now adjustment.now LARGEST_RESIDUAL_LIMIT }
    requires tied { AreTied station.now }
    requires apart { ¬ Agrees form station.now bytes.now }
    ensures { IfOk result (IsFirstUnit form station.now bytes.now) }
{
    if agrees_in(alloc, form, AngleUnit::Gon, station, adjustment, bytes)? {
        return Ok(Some(AngleUnit::Gon));
    }
    if agrees_in(alloc, form, AngleUnit::Degrees, station, adjustment, bytes)? {
        return Ok(Some(AngleUnit::Degrees));
    }
    if agrees_in(
        alloc,
        form,
        AngleUnit::PackedDegrees,
        station,
        adjustment,
        bytes,
    )? {
        return Ok(Some(AngleUnit::PackedDegrees));
    }
    Ok(None)
}

/// Whether a table that doesn't agree as it is read agrees in this unit.
fn agrees_in(
    alloc: Global,
    form: TableForm,
    unit: AngleUnit,
    station: &Station,
    adjustment: &Adjustment,
    bytes: &[u8],
) -> Result<bool, AllocError>
    requires exact { IsExact station.now adjustment.now }
    requires limited { KeepsLimit station.now adjustment.now LARGEST_RESIDUAL_LIMIT }
    requires tied { AreTied station.now }
    requires apart { ¬ Agrees form station.now bytes.now }
    ensures { IfOk result (λ agrees. IsTrue agrees ↔ AgreesIn form station.now bytes.now unit) }
{
    if unit == form.unit {
        return Ok(false);
    }
    let columns = form.columns;
    agrees(
        alloc,
        TableForm { unit, columns },
        station,
        adjustment,
        bytes,
    )
}

/// Whether a table agrees by its usual limit, where it is read in this form.
fn agrees(
    alloc: Global,
    form: TableForm,
    station: &Station,
    adjustment: &Adjustment,
    bytes: &[u8],
) -> Result<bool, AllocError>
    requires exact { IsExact station.now adjustment.now }
    requires limited { KeepsLimit station.now adjustment.now LARGEST_RESIDUAL_LIMIT }
    requires tied { AreTied station.now }
    ensures { IfOk result (λ agrees. IsTrue agrees ↔ Agrees form station.now bytes.now) }
{
    match read_stated_table(alloc, form, station.targets(), bytes) {
        Ok(stated) => Ok(is_near(station, adjustment, &stated)),
        Err(fault) => {
            known(fault)?;
            Ok(false)
        }
    }
}

/// Whether what a table states is within its usual limit.
pub(crate) fn is_near(station: &Station, adjustment: &Adjustment, stated: &StatedTable) -> bool
    requires exact { IsExact station.now adjustment.now }
    requires limited { KeepsLimit station.now adjustment.now LARGEST_RESIDUAL_LIMIT }
    requires tied { AreTied station.now }
    requires each { length stated.now.directions.items ≡ length station.now.targets }
    requires off { stated.now.most_off ≤ DEGREE_PARTS }
    ensures { IsNear station.now stated.now.directions.items stated.now.most_off
        stated.now.usual_within result }
{
    let apart = apart_by(station, adjustment, &stated.directions, stated.most_off);
    apart <= stated.usual_within
}

/// That a fault is one of the bytes; where memory ran out, that is answered.
fn known(fault: TableFault) -> Result<(), AllocError>
    ensures { OnOk result (¬ (fault ≡ Memory)) }
{
    match fault {
        TableFault::Memory => Err(AllocError),
        TableFault::TooLong
        | TableFault::Columns(_, _)
        | TableFault::Row(_, _)
        | TableFault::Missing(_) => Ok(()),
    }
}

/// The line that names the unit in which a table agrees; no byte where none is named.
pub(crate) fn unit_note(unit: Option<AngleUnit>) -> &'static [u8]
    ensures { result.now ≡ spec.unit_note unit }
{
    match unit {
        None => b"",
        Some(AngleUnit::Gon) => {
            b"note: read as gon, with neither --degrees nor --dmmss, \
            the table agrees within its usual limit\n"
        }
        Some(AngleUnit::Degrees) => {
            b"note: read as degrees, with --degrees, the table agrees within its usual limit\n"
        }
        Some(AngleUnit::PackedDegrees) => {
            b"note: read as D.MMSS, with --dmmss, the table agrees within its usual limit\n"
        }
    }
}
