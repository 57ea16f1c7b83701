//! The text of residuals, made in memory.
//!
//! The rows go through `csv`'s writer, which puts quotes where a name asks for them.
ghost use Rattle.std.specs.Prelude.{◌≡◌, map, IfOk, OnOk};
ghost use Rattle.csv.specs.Writing.{default_writer, row_text};
ghost use Rattle.sheet_format.specs.Texts.{Writes, rows_text};
ghost use Rattle.station_residuals.specs.ResidualTexts as spec;

use adjust_kernel::HALF_UNIT;
use angle_texts::{push_gon, push_mgon};
use csv::{Writer, WriterBuilder};
use itoa::Buffer;
use station_results::AdjustedObs;
use std::alloc::{AllocError, Global};
use std::io::Write;

/// The text of adjusted observations: a row of titles, and a row for each in their order.
///
/// The only error is that memory was refused.
pub fn text_of(alloc: Global, rows: &[AdjustedObs]) -> Result<Vec<u8>, AllocError>
    ensures { IfOk result (λ text. text.items ≡ spec.residuals_text rows.now) }
{
    let mut writer = WriterBuilder::new().from_writer(Vec::new(alloc));
    push_all(alloc, &mut writer, rows)?;
    writer.into_inner().map_err(|_| AllocError)
}

/// Writes the titles and the rows.
fn push_all<W: Write + Drop>(
    alloc: Global,
    writer: &mut Writer<W>,
    rows: &[AdjustedObs],
) -> Result<(), AllocError>
    ensures { OnOk result (Writes W.contents writer.old writer.new
        (spec.residuals_text rows.now)) }
{
    push_titles(writer)?;
    push_rows(alloc, writer, rows)
}

/// Writes the titles.
fn push_titles<W: Write + Drop>(writer: &mut Writer<W>) -> Result<(), AllocError>
    ensures { OnOk result (Writes W.contents writer.old writer.new
        (row_text default_writer spec.titles)) }
{
    push_row(
        writer,
        &[
            b"set".as_slice(),
            b"target".as_slice(),
            b"direction".as_slice(),
            b"adjusted".as_slice(),
            b"residual".as_slice(),
        ],
    )
}

/// Writes the rows of the observations. The numbers of all rows are made into text in the same
/// places.
fn push_rows<W: Write + Drop>(
    alloc: Global,
    writer: &mut Writer<W>,
    rows: &[AdjustedObs],
) -> Result<(), AllocError>
    ensures { OnOk result (Writes W.contents writer.old writer.new
        (rows_text (map spec.row_of rows.now))) }
{
    let mut number = Buffer::new();
    let mut direction = Vec::new(alloc);
    let mut adjusted = Vec::new(alloc);
    let mut residual = Vec::new(alloc);
    for row in rows {
        direction.clear();
        push_gon(&mut direction, HALF_UNIT * u64::from(row.value))?;
        adjusted.clear();
        push_gon(&mut adjusted, row.adjusted)?;
        residual.clear();
        push_mgon(&mut residual, row.residual)?;
        push_row(
            writer,
            &[
                number.format(row.set).as_bytes(),
                row.target.bytes(),
                direction.as_slice(),
                adjusted.as_slice(),
                residual.as_slice(),
            ],
        )?;
    }
    Ok(())
}

/// Writes one row after those that were written. An error of `csv` is out of memory: the text is
/// made there.
fn push_row<W: Write + Drop>(writer: &mut Writer<W>, fields: &[&[u8]]) -> Result<(), AllocError>
    ensures { OnOk result (Writes W.contents writer.old writer.new
        (row_text default_writer (map (λ f. f.now) fields.now))) }
{
    writer.write_fields(fields).map_err(|_| AllocError)
}
