//! The copy of a field file with codes put in and what is told of it, for a page.

ghost use Rattle.std.specs.Prelude.{length, take};
ghost use Rattle.station_page.specs.Answers.{IsMarkAnswer};
ghost use Rattle.station_page.specs.HandedOut.{Leaves, Shows};
ghost use Rattle.station_page.specs.Statements.{StatesBeginnings, StatesFile};
ghost use Rattle.station_page.specs.declared.marking.ToldAs.TheVariants.{Notes, Rows};

use crate::marking::{Marking, ToldAs};
use std::alloc::Global;

/// Hands out a copy of a whole field file with codes put in, and in `notes` what was recognized; at
/// a refusal no copy, and in `notes` the line of it, after the lines of each station where these
/// were judged.
///
/// `name` is that of the file's one station, where its lines set none up, and `code` the code whose
/// blocks begin a station each; each is no bytes where none is stated. `same_set_up` is whether a
/// set-up line of the station that is open begins nothing, `again` whether a name that comes again
/// is another set-up. `sets` states how many sets were read to the end, and `targets` how many
/// targets they have: lines in UTF-8, each `N`, the number of each station, or `NAME=N`, that of
/// one, and none where no number is stated. `others` is whether stations with a fault stay outside.
///
/// Answers 0 for the copy, 1 for a refusal, 2 where `name` or `code` can't be one, or a line of
/// `sets` or `targets` can't stand where it does, and 3 where `out` or `notes` has too little room.
#[unsafe(no_mangle)]
pub extern "C" fn station_page_mark(
    alloc: Global,
    gsi: &[u8],
    name: &[u8],
    code: &[u8],
    sets: &[u8],
    targets: &[u8],
    same_set_up: bool,
    again: bool,
    others: bool,
    out: &mut [u8],
    written: &mut usize,
    notes: &mut [u8],
    notes_written: &mut usize,
) -> u8
    ensures copy { Shows (IsMarkAnswer Notes (StatesBeginnings name.now code.now same_set_up)
        (StatesFile sets.now targets.now again others) gsi.now (length notes.old)
        (take notes_written.new notes.new)) out.old out.new written.new result }
    ensures notes { Leaves notes.old notes.new notes_written.new }
{
    let marking = Marking {
        gsi,
        name,
        code,
        sets,
        targets,
        same_set_up,
        again,
        others,
    };
    marking.hand_out(alloc, ToldAs::Notes, out, written, notes, notes_written)
}

/// Hands out a copy of a whole field file with codes put in, or the line of the refusal; and in
/// `rows`, below titles, what was recognized of the stations, at a refusal too, where they were
/// judged.
///
/// What is stated is that of `station_page_mark`. Answers 0 for the copy, 1 for a refusal, 2 where
/// `name` or `code` can't be one, or a line of `sets` or `targets` can't stand where it does, and 3
/// where `out` or `rows` has too little room.
#[unsafe(no_mangle)]
pub extern "C" fn station_page_mark_rows(
    alloc: Global,
    gsi: &[u8],
    name: &[u8],
    code: &[u8],
    sets: &[u8],
    targets: &[u8],
    same_set_up: bool,
    again: bool,
    others: bool,
    out: &mut [u8],
    written: &mut usize,
    rows: &mut [u8],
    rows_written: &mut usize,
) -> u8
    ensures copy { Shows (IsMarkAnswer Rows (StatesBeginnings name.now code.now same_set_up)
        (StatesFile sets.now targets.now again others) gsi.now (length rows.old)
        (take rows_written.new rows.new)) out.old out.new written.new result }
    ensures rows { Leaves rows.old rows.new rows_written.new }
{
    let marking = Marking {
        gsi,
        name,
        code,
        sets,
        targets,
        same_set_up,
        again,
        others,
    };
    marking.hand_out(alloc, ToldAs::Rows, out, written, rows, rows_written)
}
