//! The copy of a field file with changed lines, for a page.

ghost use Rattle.station_page.specs.Answers.{IsChangeAnswer};
ghost use Rattle.station_page.specs.HandedOut.{Shows};

use crate::hand_out::{OUT_OF_RANGE, Refusing, hand_out_text};
use changed_lines::{ChangeFault, Unsaid, changed_copy, changes_in};
use std::alloc::Global;

/// Hands out a copy of a whole field file in which just the lines that `changes` names are changed;
/// at a refusal the line of it.
///
/// `changes` has a change in each line, in the order of the file: `N` leaves line N out, `N=NAME`
/// gives its point another name. There is a line feed between each two, and no bytes for no change.
///
/// Answers 0 for the copy, 1 for a refusal, 2 where a line of `changes` is no change, and 3 where
/// `out` has too little room.
#[unsafe(no_mangle)]
pub extern "C" fn station_page_change(
    alloc: Global,
    gsi: &[u8],
    changes: &[u8],
    out: &mut [u8],
    written: &mut usize,
) -> u8
    ensures { Shows (IsChangeAnswer gsi.now changes.now) out.old out.new written.new result }
{
    *written = 0;
    match changes_in(alloc, changes) {
        Ok(changes) => hand_out_text(&changed_copy(alloc, gsi, &changes), out, written),
        Err(Unsaid::Memory) => ChangeFault::Memory.refuse(out, written),
        Err(Unsaid::Wrong) => OUT_OF_RANGE,
    }
}
