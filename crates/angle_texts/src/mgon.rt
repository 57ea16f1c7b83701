//! A small angle in mgon.
ghost use Rattle.std.specs.Prelude.{◌≡◌, ◌++◌, OnOk, OnErr};
ghost use Rattle.direction_table.specs.Beginnings.{IsBegun};
ghost use Rattle.angle_texts.specs.MgonTexts as spec;

use crate::digits::digit;
use itoa::Buffer;
use std::alloc::AllocError;

/// Adds an angle in mgon to a text, which is in units of 0.001 mgon: a minus where it is negative,
/// the whole, a point and three decimals.
///
/// The only error is that memory was refused; then a beginning of it may have been added.
#[tactic(auto, using(direction_table::proofs::Begun::of_two))]
pub fn push_mgon(text: &mut Vec<u8>, units: i32) -> Result<(), AllocError>
    ensures added { OnOk result (text.new.items ≡ text.old.items ++ spec.mgon_text units) }
    ensures begun { OnErr result (IsBegun (spec.mgon_text units) text.old.items text.new.items) }
{
    push_sign(text, units)?;
    push_thousandths(text, units.unsigned_abs())
}

/// Adds an angle in mgon to a text, which is in units of 0.01 mgon: a minus where it is negative,
/// the whole, a point and two decimals.
///
/// The only error is that memory was refused; then a beginning of it may have been added.
#[tactic(auto, using(direction_table::proofs::Begun::of_two))]
pub fn push_short_mgon(text: &mut Vec<u8>, units: i32) -> Result<(), AllocError>
    ensures added { OnOk result (text.new.items ≡ text.old.items ++ spec.short_mgon_text units) }
    ensures begun { OnErr result
        (IsBegun (spec.short_mgon_text units) text.old.items text.new.items) }
{
    push_sign(text, units)?;
    push_hundredths(text, units.unsigned_abs())
}

/// Adds what stands before a number.
fn push_sign(text: &mut Vec<u8>, number: i32) -> Result<(), AllocError>
    ensures added { OnOk result (text.new.items ≡ text.old.items ++ spec.sign_text number) }
    ensures begun { OnErr result (IsBegun (spec.sign_text number) text.old.items text.new.items) }
{
    if number < 0 {
        text.push(b'-')?;
    }
    Ok(())
}

/// Adds a number of thousandths to a text, as a limit in units of 0.001 mgon is one of a mgon: the
/// whole, a point and three decimals.
///
/// The only error is that memory was refused; then a beginning of it may have been added.
#[tactic(auto, using(direction_table::proofs::Begun::first_part))]
pub fn push_thousandths(text: &mut Vec<u8>, number: u32) -> Result<(), AllocError>
    ensures added { OnOk result (text.new.items ≡ text.old.items ++ spec.thousandths_text number) }
    ensures begun { OnErr result
        (IsBegun (spec.thousandths_text number) text.old.items text.new.items) }
{
    let number = u64::from(number);
    let mut whole = Buffer::new();
    text.extend_from_slice(whole.format(number / 1_000).as_bytes())?;
    text.extend_from_slice(&[b'.', digit(number / 100), digit(number / 10), digit(number)])?;
    Ok(())
}

/// Adds a number of hundredths: the whole, a point and two decimals.
#[tactic(auto, using(direction_table::proofs::Begun::first_part))]
fn push_hundredths(text: &mut Vec<u8>, number: u32) -> Result<(), AllocError>
    ensures added { OnOk result (text.new.items ≡ text.old.items ++ spec.hundredths_text number) }
    ensures begun { OnErr result
        (IsBegun (spec.hundredths_text number) text.old.items text.new.items) }
{
    let number = u64::from(number);
    let mut whole = Buffer::new();
    text.extend_from_slice(whole.format(number / 100).as_bytes())?;
    text.extend_from_slice(&[b'.', digit(number / 10), digit(number)])?;
    Ok(())
}
