//! The numbers of rows, as text.
ghost use Rattle.std.specs.Prelude.{◌≡◌};
ghost use Rattle.row_forms.specs.Forms as spec;

use crate::form::RowForm;

/// Turns a number that is written with a point into a number of a form.
pub fn set_point(number: &mut Vec<u8>, form: RowForm)
    ensures { number.new.items ≡ spec.number_in form number.old.items }
{
    match form {
        RowForm::Commas => {}
        RowForm::Semicolons => {
            for byte in number.iter_mut() {
                *byte = with_comma(*byte);
            }
        }
    }
}

/// A byte of a number, with a comma for its point.
fn with_comma(byte: u8) -> u8
    ensures { result ≡ spec.with_comma byte }
{
    if byte == b'.' { b',' } else { byte }
}
