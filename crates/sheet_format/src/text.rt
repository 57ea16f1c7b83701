//! The text of a sheet, made in memory.
//!
//! The rows go through `csv`'s writer, which puts quotes where a name asks for them.

ghost use Rattle.std.specs.Prelude.{◌≡◌, map, IfErr, IfOk, OnOk};
ghost use Rattle.adjust_kernel.specs.Sheets.{IsSheet};
ghost use Rattle.csv.specs.Writing.{default_writer, row_text};
ghost use Rattle.sheet_format.specs.Rows.{obs_fields, set_fields, sheet_fields, target_fields};
ghost use Rattle.sheet_format.specs.Texts as spec;
ghost use Rattle.sheet_format.specs.declared.fault.WriteFault.TheVariants.{Memory};

use crate::fault::WriteFault;
use crate::number_texts::{SetNumber, turn_text};
use crate::version::Version;
use adjust_kernel::{Direction, Name, Orientation, Row, Sheet};
use csv::{Writer, WriterBuilder};
use itoa::Buffer;
use std::alloc::{AllocError, Global};
use std::io::Write;

/// The text of a sheet.
pub(crate) fn sheet_text(alloc: Global, sheet: &Sheet) -> Result<Vec<u8>, WriteFault>
    ensures text { IfOk result (λ text. text.items ≡ spec.sheet_text sheet.now) }
    ensures valid { IsSheet sheet.now }
    ensures fault { IfErr result (λ fault. fault ≡ Memory) }
{
    let mut writer = WriterBuilder::new().from_writer(Vec::new(alloc));
    push_sheet(&mut writer, sheet)?;
    Ok(writer.into_inner()?)
}

/// Writes the rows of a sheet.
fn push_sheet<W: Write + Drop>(writer: &mut Writer<W>, sheet: &Sheet) -> Result<(), AllocError>
    ensures ok { OnOk result (spec.Writes W.contents writer.old writer.new
        (spec.sheet_text sheet.now)) }
    ensures valid { IsSheet sheet.now }
{
    push_header(
        writer,
        Version::for_sheet(sheet),
        sheet.name(),
        sheet.denominator(),
    )?;
    push_targets(writer, sheet.directions())?;
    push_sets(writer, sheet.orientations())?;
    push_obs(writer, sheet.rows())
}

/// Writes one row after those that were written. An error of `csv` is out of memory: the text is
/// made there.
fn push_row<W: Write + Drop>(writer: &mut Writer<W>, fields: &[&[u8]]) -> Result<(), AllocError>
    ensures { OnOk result (spec.Writes W.contents writer.old writer.new
        (row_text default_writer (map (λ f. f.now) fields.now))) }
{
    writer.write_fields(fields).map_err(|_| AllocError)
}

/// Writes the first row.
fn push_header<W: Write + Drop>(
    writer: &mut Writer<W>,
    version: Version,
    name: Name,
    denominator: u64,
) -> Result<(), AllocError>
    ensures { OnOk result (spec.Writes W.contents writer.old writer.new
        (row_text default_writer (sheet_fields version name denominator))) }
{
    let mut number = Buffer::new();
    push_row(
        writer,
        &[
            b"sheet".as_slice(),
            version.text(),
            name.bytes(),
            number.format(denominator).as_bytes(),
            b"".as_slice(),
        ],
    )
}

/// Writes the row of a target.
fn push_target<W: Write + Drop>(
    writer: &mut Writer<W>,
    direction: &Direction,
) -> Result<(), AllocError>
    ensures { OnOk result (spec.Writes W.contents writer.old writer.new
        (row_text default_writer (target_fields direction.now))) }
{
    let mut value = Buffer::new();
    push_row(
        writer,
        &[
            b"target".as_slice(),
            b"".as_slice(),
            direction.name.bytes(),
            value.format(direction.value).as_bytes(),
            b"".as_slice(),
        ],
    )
}

/// Writes the row of a set.
fn push_set<W: Write + Drop>(
    writer: &mut Writer<W>,
    orientation: &Orientation,
) -> Result<(), AllocError>
    ensures { OnOk result (spec.Writes W.contents writer.old writer.new
        (row_text default_writer (set_fields orientation.now))) }
{
    let mut number = Buffer::new();
    let mut value = Buffer::new();
    push_row(
        writer,
        &[
            b"set".as_slice(),
            number.format(orientation.set).as_bytes(),
            b"".as_slice(),
            value.format(orientation.value).as_bytes(),
            b"".as_slice(),
        ],
    )
}

/// Writes the rows of the targets.
fn push_targets<W: Write + Drop>(
    writer: &mut Writer<W>,
    directions: &[Direction],
) -> Result<(), AllocError>
    ensures { OnOk result (spec.Writes W.contents writer.old writer.new
        (spec.rows_text (map target_fields directions.now))) }
{
    for direction in directions {
        push_target(writer, direction)?;
    }
    Ok(())
}

/// Writes the rows of the sets.
fn push_sets<W: Write + Drop>(
    writer: &mut Writer<W>,
    orientations: &[Orientation],
) -> Result<(), AllocError>
    ensures { OnOk result (spec.Writes W.contents writer.old writer.new
        (spec.rows_text (map set_fields orientations.now))) }
{
    for orientation in orientations {
        push_set(writer, orientation)?;
    }
    Ok(())
}

/// Writes the rows of the observations. The numbers of all rows are made into text in the same
/// place.
fn push_obs<W: Write + Drop>(writer: &mut Writer<W>, rows: &[Row]) -> Result<(), AllocError>
    ensures { OnOk result (spec.Writes W.contents writer.old writer.new
        (spec.rows_text (map obs_fields rows.now))) }
{
    let mut number = SetNumber::new();
    let mut value = Buffer::new();
    let mut turn = Buffer::new();
    for row in rows {
        push_row(
            writer,
            &[
                b"obs".as_slice(),
                number.text(row.set),
                row.target.bytes(),
                value.format(row.value).as_bytes(),
                turn_text(row.turn, &mut turn),
            ],
        )?;
    }
    Ok(())
}
