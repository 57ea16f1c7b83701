//! The text of a table of directions, made in memory.
//!
//! The rows go through `csv`'s writer, which puts quotes where a name asks for them.

ghost use Rattle.std.specs.Prelude.{◌≡◌, IfOk, OnOk};
ghost use Rattle.row_forms.specs.Forms.{number_in};
ghost use Rattle.row_forms.specs.Writing.{Writes};
ghost use Rattle.direction_table.specs.TableTexts as spec;
ghost use Rattle.direction_table.specs.Texts.{direction_text};

use crate::decimals::Decimals;
use crate::text::push_direction;
use adjust_kernel::Name;
use csv::Writer;
use row_forms::{RowForm, rows_in, set_point, write_row};
use std::alloc::{AllocError, Global};
use std::io::Write;

/// A target with its direction.
#[derive(Clone, Copy, Debug, PartialEq, Eq, Drop)]
pub struct TargetDirection {
    /// The target.
    pub name: Name,
    /// In units of the ninth decimal of a gon.
    pub direction: u64,
}

/// The text of the table of these targets and directions, a row for each in their order, with so
/// many decimals, in a form; decimals after the last are left out.
///
/// The only error is that memory was refused.
pub fn table_text(
    alloc: Global,
    stated: &[TargetDirection],
    decimals: Decimals,
    form: RowForm,
) -> Result<Vec<u8>, AllocError>
    ensures { IfOk result (λ text. text.items ≡ spec.table_text form decimals stated.now) }
{
    let mut writer = rows_in(form, Vec::new(alloc));
    push_rows(alloc, &mut writer, stated, decimals, form)?;
    writer.into_inner().map_err(|_| AllocError)
}

/// Writes the rows of the targets. The directions of all rows are made into text in the same place.
fn push_rows<W: Write + Drop>(
    alloc: Global,
    writer: &mut Writer<W>,
    stated: &[TargetDirection],
    decimals: Decimals,
    form: RowForm,
) -> Result<(), AllocError>
    ensures { OnOk result (Writes form W.contents writer.old writer.new
        (spec.table_text form decimals stated.now)) }
{
    let mut field = Vec::new(alloc);
    for row in stated {
        set_direction(&mut field, row.direction, decimals, form)?;
        write_row(writer, &[row.name.bytes(), field.as_slice()])?;
    }
    Ok(())
}

/// Makes a text that of a direction.
fn set_direction(
    text: &mut Vec<u8>,
    direction: u64,
    decimals: Decimals,
    form: RowForm,
) -> Result<(), AllocError>
    ensures { OnOk result
        (text.new.items ≡ number_in form (direction_text decimals direction)) }
{
    text.clear();
    push_direction(text, direction, decimals)?;
    set_point(text, form);
    Ok(())
}
