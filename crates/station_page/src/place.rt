//! Where a refusal stands, for a page.

ghost use Rattle.std.specs.Prelude.{IfOk};
ghost use Rattle.station_page.specs.Answers.{IsPlaceOf};
ghost use Rattle.station_page.specs.HandedOut.{Shows};
ghost use Rattle.station_page.specs.Placed.{IsPlaceText};

use crate::hand_out::hand_out_text;
use refusal_places::{place_in, place_text};
use std::alloc::{AllocError, Global};

/// Hands out what the line of a refusal names, and where that stands in a whole field file or in the
/// sheet or the table beside it, as a row below titles: what it is, its number, its row among all
/// where it is counted by its kind, the place of its first byte, from 0, and that after its last.
/// Below the titles there is none where the line names nothing, and no place of what stands in no
/// file, or is not there.
///
/// `line` is the line of any refusal, and `other` has no bytes where there is no other file. Answers
/// 0 for the row, 1 where there was no memory, and 3 where `out` has too little room.
#[unsafe(no_mangle)]
pub extern "C" fn station_page_place(
    alloc: Global,
    line: &[u8],
    gsi: &[u8],
    other: &[u8],
    out: &mut [u8],
    written: &mut usize,
) -> u8
    ensures { Shows (IsPlaceOf line.now gsi.now other.now) out.old out.new written.new result }
{
    hand_out_text(&text_of(alloc, line, gsi, other), out, written)
}

/// What the line of a refusal names, and where that stands, as a row.
fn text_of(alloc: Global, line: &[u8], gsi: &[u8], other: &[u8]) -> Result<Vec<u8>, AllocError>
    ensures { IfOk result (λ text. IsPlaceText line.now gsi.now other.now text.items) }
{
    let text = place_text(alloc, place_in(line, gsi, other))?;
    Ok(text)
}
