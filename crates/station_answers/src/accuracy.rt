//! How accurate a station's directions are, as a row for other programs.
ghost use Rattle.std.specs.Option.{ForSome};
ghost use Rattle.std.specs.Prelude.{◌++◌, ◌≡◌, ◌<◌, ◌^◌, IfOk, OnOk, Some};
ghost use Rattle.station_answers.specs.Accuracy.{IsAccuracyText, numbers_text, of_adjusted_text};
ghost use Rattle.station_report.specs.Computing.{IsComputedOf};
ghost use Rattle.station_report.specs.Small.{AreSmall};

use adjust_kernel::{Station, UNIT};
use angle_texts::{push_gon, push_mgon};
use station_report::{Accuracy, Computed, degrees_of, push_count};
use std::alloc::{AllocError, Global};

/// The text of how accurate a station's directions are, by what was computed of it: titles, and a
/// row of the degrees of freedom, of the standard deviations of one two-face direction and of each
/// adjusted direction in mgon, and of the sum of the squares of all residuals in mgon^2.
///
/// The only error is that memory was refused.
pub(crate) fn accuracy_by(
    alloc: Global,
    station: &Station,
    computed: &Computed,
) -> Result<Vec<u8>, AllocError>
    requires { IsComputedOf station.now computed.now }
    ensures { IfOk result (λ text. IsAccuracyText station.now text.items) }
{
    let mut text = Vec::new(alloc);
    text.extend_from_slice(b"degrees,deviation,of adjusted,squares\n")?;
    push_count(&mut text, degrees_of(station) as usize)?;
    text.push(b',')?;
    push_numbers(&mut text, computed.accuracy)?;
    text.push(b'\n')?;
    Ok(text)
}

/// Adds the numbers of an accuracy, with commas between them; of no accuracy the commas alone.
fn push_numbers(text: &mut Vec<u8>, accuracy: Option<Accuracy>) -> Result<(), AllocError>
    requires { ForSome accuracy AreSmall }
    ensures { OnOk result (text.new.items ≡ text.old.items ++ numbers_text accuracy) }
{
    match accuracy {
        Some(accuracy) => push_accuracy(text, accuracy),
        None => text.extend_from_slice(b",,"),
    }
}

/// Adds the numbers of an accuracy.
fn push_accuracy(text: &mut Vec<u8>, accuracy: Accuracy) -> Result<(), AllocError>
    requires { AreSmall accuracy }
    ensures { OnOk result (text.new.items ≡ text.old.items ++ numbers_text (Some accuracy)) }
{
    push_mgon(text, accuracy.of_one as i32)?;
    text.push(b',')?;
    push_of_adjusted(text, accuracy.of_adjusted)?;
    text.push(b',')?;
    // A square of 0.001 mgon is 0.000001 mgon^2. `push_gon` takes units of 0.000000001, UNIT of
    // which make up one of these, and has six decimals.
    push_gon(text, UNIT * accuracy.squares)
}

/// Adds the standard deviation of each adjusted direction in mgon; nothing where there is none.
fn push_of_adjusted(text: &mut Vec<u8>, deviation: Option<u32>) -> Result<(), AllocError>
    requires { ForSome deviation (λ units. units < 2 ^ 31) }
    ensures { OnOk result (text.new.items ≡ text.old.items ++ of_adjusted_text deviation) }
{
    match deviation {
        Some(units) => push_mgon(text, units as i32),
        None => Ok(()),
    }
}
