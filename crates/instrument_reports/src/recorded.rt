//! The rows of what was recorded of instrument and time, made in memory.

ghost use Rattle.std.specs.Prelude.{◌≡◌, ◌++◌, IfOk, OnErr, OnOk};
ghost use Rattle.csv.specs.Writing.{row_text};
ghost use Rattle.instrument_reports.specs.Rows as spec;
ghost use Rattle.instrument_words.specs.Instrument.{instrument_value, told_value};
ghost use Rattle.row_forms.specs.Forms.{writer_of};
ghost use Rattle.row_forms.specs.Writing.{Writes};
ghost use Rattle.row_forms.specs.declared.form.RowForm.{RowForm as Form};

use csv::Writer;
use instrument_words::{
    Contents, DATE, INSTRUMENT_TYPE, Instrument, SERIAL_NUMBER, TIME_FORMAT_1, TIME_FORMAT_2,
};
use itoa::Buffer;
use row_forms::{RowForm, rows_in, write_row};
use std::alloc::{AllocError, Global};
use std::io::Write;

/// Adds to the rows of a report one that is of no observation: what it is of, and two cells of it.
///
/// The only error is that memory was refused; then nothing was added.
pub fn push_further_row(
    alloc: Global,
    rows: &mut Vec<u8>,
    form: RowForm,
    kind: &[u8],
    name: &[u8],
    content: &[u8],
) -> Result<(), AllocError>
    ensures added { OnOk result (rows.new.items ≡ rows.old.items
        ++ row_text (writer_of form) (spec.further_row kind.now name.now content.now)) }
    ensures kept { OnErr result (rows.new.items ≡ rows.old.items) }
{
    let row = further_row(alloc, form, kind, name, content)?;
    rows.extend_from_slice(&row)?;
    Ok(())
}

/// The text of such a row.
fn further_row(
    alloc: Global,
    form: RowForm,
    kind: &[u8],
    name: &[u8],
    content: &[u8],
) -> Result<Vec<u8>, AllocError>
    ensures { IfOk result (λ row. row.items
        ≡ row_text (writer_of form) (spec.further_row kind.now name.now content.now)) }
{
    let mut writer = rows_in(form, Vec::new(alloc));
    write_further_row(&mut writer, kind, name, content)?;
    writer.into_inner().map_err(|_| AllocError)
}

/// Writes such a row: as wide as the others, with no byte in its further cells.
fn write_further_row<W: Write + Drop>(
    writer: &mut Writer<W>,
    kind: &[u8],
    name: &[u8],
    content: &[u8],
) -> Result<(), AllocError>
    ensures { (form : Form) → OnOk result (Writes form W.contents writer.old writer.new
        (row_text (writer_of form) (spec.further_row kind.now name.now content.now))) }
{
    let none = b"".as_slice();
    write_row(
        writer,
        &[
            kind, name, content, none, none, none, none, none, none, none, none, none, none,
        ],
    )
}

/// Adds the row of a content of the words of an index.
fn push_content(
    alloc: Global,
    rows: &mut Vec<u8>,
    form: RowForm,
    index: u8,
    content: &[u8],
) -> Result<(), AllocError>
    ensures { OnOk result
        (rows.new.items ≡ rows.old.items ++ spec.content_row form index content.now) }
{
    let mut number = Buffer::new();
    let digits = number.format(index).as_bytes();
    push_further_row(alloc, rows, form, b"recorded".as_slice(), digits, content)
}

/// Adds the rows of contents: of the first, and of the last where one of them is another.
fn push_contents(
    alloc: Global,
    rows: &mut Vec<u8>,
    form: RowForm,
    index: u8,
    told: Option<Contents<'_>>,
) -> Result<(), AllocError>
    ensures { OnOk result
        (rows.new.items ≡ rows.old.items ++ spec.index_rows form index (told_value told.entry)) }
{
    let Some(told) = told else {
        return Ok(());
    };
    push_content(alloc, rows, form, index, told.first)?;
    if told.varies {
        push_content(alloc, rows, form, index, told.last)?;
    }
    Ok(())
}

/// Adds to rows in a form those of what a field file recorded of instrument and time.
///
/// The only error is that memory was refused.
pub(crate) fn push_recorded(
    alloc: Global,
    rows: &mut Vec<u8>,
    form: RowForm,
    told: &Instrument<'_>,
) -> Result<(), AllocError>
    ensures { OnOk result
        (rows.new.items ≡ rows.old.items ++ spec.recorded_rows form (instrument_value told.now)) }
{
    push_contents(alloc, rows, form, SERIAL_NUMBER, told.serial_number)?;
    push_contents(alloc, rows, form, INSTRUMENT_TYPE, told.instrument_type)?;
    push_contents(alloc, rows, form, DATE, told.date)?;
    push_contents(alloc, rows, form, TIME_FORMAT_1, told.time_format_1)?;
    push_contents(alloc, rows, form, TIME_FORMAT_2, told.time_format_2)
}
