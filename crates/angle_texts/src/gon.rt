//! Directions in gon.
ghost use Rattle.std.specs.Prelude.{◌≡◌, ◌++◌, OnOk, OnErr};
ghost use Rattle.direction_table.specs.Beginnings.{IsBegun};
ghost use Rattle.direction_table.specs.Texts.{direction_text};

use crate::digits::digit;
use direction_table::GON;
use itoa::Buffer;
use std::alloc::AllocError;

/// Adds a direction in gon to a text, which is in units of 0.000000001 gon: the gon, a point and
/// five decimals. What lies below the fifth decimal is left out.
///
/// The only error is that memory was refused; then a beginning of it may have been added.
// Results have many rows, and digits at stated places take a third of the time of `push_direction`.
#[tactic(auto, using(direction_table::proofs::Begun::first_part))]
pub fn push_short_gon(text: &mut Vec<u8>, direction: u64) -> Result<(), AllocError>
    ensures added { OnOk result
        (text.new.items ≡ text.old.items ++ direction_text 5 direction) }
    ensures begun { OnErr result
        (IsBegun (direction_text 5 direction) text.old.items text.new.items) }
{
    let mut gons = Buffer::new();
    text.extend_from_slice(gons.format(direction / GON).as_bytes())?;
    text.extend_from_slice(&[
        b'.',
        digit(direction / 100_000_000),
        digit(direction / 10_000_000),
        digit(direction / 1_000_000),
        digit(direction / 100_000),
        digit(direction / 10_000),
    ])?;
    Ok(())
}

/// Adds a direction in gon to a text, which is in units of 0.000000001 gon: the gon, a point and
/// six decimals. What lies below the sixth decimal is left out.
///
/// The only error is that memory was refused; then a beginning of it may have been added.
#[tactic(auto, using(direction_table::proofs::Begun::of_six))]
pub fn push_gon(text: &mut Vec<u8>, direction: u64) -> Result<(), AllocError>
    ensures added { OnOk result
        (text.new.items ≡ text.old.items ++ direction_text 6 direction) }
    ensures begun { OnErr result
        (IsBegun (direction_text 6 direction) text.old.items text.new.items) }
{
    push_short_gon(text, direction)?;
    text.push(digit(direction / 1_000))?;
    Ok(())
}
