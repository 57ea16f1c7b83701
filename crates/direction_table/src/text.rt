//! A direction as text.

ghost use Rattle.std.specs.Prelude.{◌≡◌, ◌++◌, OnOk, OnErr};
ghost use Rattle.direction_table.specs.Beginnings.{IsBegun};
ghost use Rattle.direction_table.specs.Texts as spec;

use crate::decimals::{Decimals, MOST_WRITTEN};
use crate::gon::GON;
use itoa::Buffer;
use std::alloc::AllocError;

/// Adds a direction to a text, with so many decimals: the gon, a point and the decimals. The
/// direction is in units of the ninth decimal of a gon; decimals after the last are left out.
///
/// Where memory is refused, a beginning of it may have been added.
#[tactic(auto, using(crate::proofs::Begun::first_part, crate::proofs::Begun::of_second))]
pub fn push_direction(
    text: &mut Vec<u8>,
    direction: u64,
    decimals: Decimals,
) -> Result<(), AllocError>
    ensures added { OnOk result
        (text.new.items ≡ text.old.items ++ spec.direction_text decimals direction) }
    ensures begun { OnErr result
        (IsBegun (spec.direction_text decimals direction) text.old.items text.new.items) }
{
    let mut gons = Buffer::new();
    text.extend_from_slice(gons.format(direction / GON).as_bytes())?;
    text.push(b'.')?;
    push_decimals(text, direction, decimals)
}

/// Adds the decimals of a direction.
fn push_decimals(text: &mut Vec<u8>, direction: u64, decimals: Decimals) -> Result<(), AllocError>
    ensures added { OnOk result
        (text.new.items ≡ text.old.items ++ spec.decimals_of decimals direction) }
    ensures begun { OnErr result
        (IsBegun (spec.decimals_of decimals direction) text.old.items text.new.items) }
{
    for place in 0..decimals.count() {
        let digit = direction / 10u64.pow(MOST_WRITTEN - place) % 10;
        text.push(b'0' + digit as u8)?;
    }
    Ok(())
}
