//! Columns of a text.
ghost use Rattle.std.specs.Prelude.{◌≡◌, ◌++◌, OnOk, OnErr, decimal, replicate};
ghost use Rattle.direction_table.specs.Beginnings.{IsBegun};
ghost use Rattle.station_report.specs.Columns as spec;

use itoa::Buffer;
use std::alloc::AllocError;

/// The width of a column of directions or angles in gon with six decimals.
pub(crate) const GON: usize = 13;

/// The width of a column of readings in gon, with five decimals.
pub(crate) const READ: usize = 11;

/// Adds blanks to a text.
pub(crate) fn push_blanks(text: &mut Vec<u8>, count: usize) -> Result<(), AllocError>
    ensures added { OnOk result (text.new.items ≡ text.old.items ++ replicate count spec.blank) }
    ensures kept { OnErr result (text.new.items ≡ text.old.items) }
{
    text.resize(text.len().saturating_add(count), b' ')
}

/// Adds a field to a text, in a column that begins with it.
///
/// The only error is that memory was refused; then a beginning of it may have been added.
#[tactic(auto, using(direction_table::proofs::Begun::first_part))]
pub fn push_left(text: &mut Vec<u8>, width: usize, field: &[u8]) -> Result<(), AllocError>
    ensures added { OnOk result
        (text.new.items ≡ text.old.items ++ spec.left_text width field.now) }
    ensures begun { OnErr result
        (IsBegun (spec.left_text width field.now) text.old.items text.new.items) }
{
    text.extend_from_slice(field)?;
    push_blanks(text, width.saturating_sub(field.len()))?;
    Ok(())
}

/// Adds a field to a text, in a column that ends with it.
///
/// The only error is that memory was refused; then a beginning of it may have been added.
#[tactic(auto, using(direction_table::proofs::Begun::first_part))]
pub fn push_right(text: &mut Vec<u8>, width: usize, field: &[u8]) -> Result<(), AllocError>
    ensures added { OnOk result
        (text.new.items ≡ text.old.items ++ spec.right_text width field.now) }
    ensures begun { OnErr result
        (IsBegun (spec.right_text width field.now) text.old.items text.new.items) }
{
    push_blanks(text, width.saturating_sub(field.len()))?;
    text.extend_from_slice(field)?;
    Ok(())
}

/// Adds a number to a text, in a column that ends with it.
pub(crate) fn push_right_number(
    text: &mut Vec<u8>,
    width: usize,
    number: u16,
) -> Result<(), AllocError>
    ensures { OnOk result
        (text.new.items ≡ text.old.items ++ spec.right_text width (decimal number)) }
{
    let mut digits = Buffer::new();
    push_right(text, width, digits.format(number).as_bytes())?;
    Ok(())
}

/// Adds a count to a text. Where memory is refused the text stays as it is.
pub fn push_count(text: &mut Vec<u8>, count: usize) -> Result<(), AllocError>
    ensures added { OnOk result (text.new.items ≡ text.old.items ++ decimal count) }
    ensures kept { OnErr result (text.new.items ≡ text.old.items) }
{
    let mut digits = Buffer::new();
    text.extend_from_slice(digits.format(count).as_bytes())?;
    Ok(())
}
