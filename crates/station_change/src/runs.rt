//! The command `change`, over a source of bytes and sinks: it makes its call, and answers the exit
//! status.

ghost use Rattle.std.specs.Prelude.{◌≡◌};
ghost use Rattle.byte_ends.specs.Writers.{writer_change};
ghost use Rattle.byte_ends.specs.Source.{UntilDropped};
ghost use Rattle.station_check.specs.RunEndings.{RunWithNotes, Tells, WritesOrFails};
ghost use Rattle.station_change.specs.FaultTexts.{refusal_line};
ghost use Rattle.station_change.specs.Notes.{notes_of};
ghost use Rattle.station_change.specs.Runs.{IsChangeRun};

use crate::changed::copy_of_source;
use crate::fault::PrintFault;
use crate::notes::notes_text;
use crate::refused::refusal_line;
use byte_ends::{Sink, Source};
use changed_lines::{Change, ChangeFault};
use station_check::{ACCEPTED, refuse_by, write_whole};
use std::alloc::Global;

/// Prints a copy of a field file in which just these lines are changed, and answers the exit
/// status: 0 where all of the copy was written to `out`, else 1, with the line of a refusal on
/// `err`. After the copy `err` gets a note of each change. Where `err` fails, they are lost and the
/// status stays.
// Out of line, so that runs without it need no room for it on the stack.
#[inline(never)]
pub fn run_change<R: Source, W: Sink, E: Sink>(
    alloc: Global,
    gsi: R,
    changes: &[Change],
    out: &mut W,
    err: &mut E,
) -> u8
    ensures { UntilDropped R.told R.failed R.gave gsi (λ gsi. RunWithNotes (notes_of changes.now)
        refusal_line (IsChangeRun changes.now gsi)
        result (writer_change W.Sink out.old out.new)
        (writer_change E.Sink err.old err.new)) }
{
    let mut reader = gsi;
    let copy = match copy_of_source(alloc, &mut reader, changes) {
        Ok(copy) => copy,
        Err(fault) => return refuse(fault, err),
    };
    // Memory is taken before a byte is written.
    let Ok(notes) = notes_text(alloc, changes) else {
        return refuse(PrintFault::Change(ChangeFault::Memory), err);
    };
    match write_whole(out, &copy) {
        Ok(()) => tell(&notes, err),
        Err(_) => refuse(PrintFault::Write, err),
    }
}

/// Writes notes, where there are some, and answers the status.
fn tell<E: Sink>(notes: &[u8], err: &mut E) -> u8
    ensures status { result ≡ 0 }
    ensures notes { Tells notes.now (writer_change E.Sink err.old err.new) }
{
    if !notes.is_empty() {
        // Where `err` fails, they are lost.
        let _ = err.write_all(notes);
    }
    ACCEPTED
}

/// Writes the line of a refusal, and answers its status.
fn refuse<E: Sink>(fault: PrintFault, err: &mut E) -> u8
    ensures status { result ≡ 1 }
    ensures line { WritesOrFails (refusal_line fault) (writer_change E.Sink err.old err.new) }
{
    refuse_by(refusal_line(fault).as_slice(), err)
}
