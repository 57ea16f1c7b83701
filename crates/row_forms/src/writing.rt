//! Rows of a form, written into memory.
//!
//! The rows go through `csv`'s writer, which puts quotes where a name asks for them.
ghost use Rattle.std.specs.Prelude.{◌≡◌, ℕ, List, [], map, IfOk, OnOk, Some};
ghost use Rattle.csv.specs.Writing.{row_text};
ghost use Rattle.row_forms.specs.Forms.{writer_of};
ghost use Rattle.row_forms.specs.Writing as spec;
ghost use Rattle.row_forms.specs.declared.form.RowForm.{RowForm as Form};

use crate::form::RowForm;
use csv::{Writer, WriterBuilder};
use std::alloc::{AllocError, Global};
use std::io::Write;

/// A writer of rows of a form into a place that holds nothing yet.
pub fn rows_in<W: Write + Drop>(form: RowForm, out: W) -> Writer<W>
    ensures { W.contents out ≡ Some [] → spec.HasWritten form W.contents result [] }
{
    let mut builder = WriterBuilder::new();
    builder.delimiter(form.separator()).from_writer(out)
}

/// A writer of rows of a form into memory, below a row of titles, which it has written.
pub fn rows_below(
    alloc: Global,
    titles: &[&[u8]],
    form: RowForm,
) -> Result<Writer<Vec<u8>>, AllocError>
    ensures { IfOk result (λ writer. spec.HasWritten form ⟦<Vec<u8> as Write>⟧.contents writer
        (row_text (writer_of form) (map (λ title. title.now) titles.now))) }
{
    let mut writer = rows_in(form, Vec::new(alloc));
    write_row(&mut writer, titles)?;
    Ok(writer)
}

/// Writes one row after those that were written. An error of `csv` is out of memory: the text is
/// made there.
pub fn write_row<W: Write + Drop>(
    writer: &mut Writer<W>,
    fields: &[&[u8]],
) -> Result<(), AllocError>
    ensures { (form : Form) → OnOk result (spec.Writes form W.contents writer.old writer.new
        (row_text (writer_of form) (map (λ f. f.now) fields.now))) }
{
    writer.write_fields(fields).map_err(|_| AllocError)
}

/// What was written into memory between two rows.
pub fn written_text(writer: Writer<Vec<u8>>) -> Result<Vec<u8>, AllocError>
    ensures { (form : Form) (written : List ℕ)
        → spec.HasWritten form ⟦<Vec<u8> as Write>⟧.contents writer written
        → IfOk result (λ text. text.items ≡ written) }
{
    writer.into_inner().map_err(|_| AllocError)
}

/// The text of a row of a form.
pub fn text_of_row(alloc: Global, fields: &[&[u8]], form: RowForm) -> Result<Vec<u8>, AllocError>
    ensures { IfOk result (λ text.
        text.items ≡ row_text (writer_of form) (map (λ f. f.now) fields.now)) }
{
    written_text(rows_below(alloc, fields, form)?)
}
