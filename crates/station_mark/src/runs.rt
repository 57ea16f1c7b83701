//! The command `mark`, over a source of bytes and sinks: it makes its call, and answers the exit
//! status.

ghost use Rattle.std.specs.Prelude.{◌≡◌, ◌⊎◌};
ghost use Rattle.byte_ends.specs.Writers.{writer_change};
ghost use Rattle.byte_ends.specs.Source.{UntilDropped};
ghost use Rattle.set_marks.specs.declared.fault.MarkFault.TheVariants.{Memory};
ghost use Rattle.job_statements.specs.Numbers.{said_in};
ghost use Rattle.station_check.specs.RunEndings.{RunWithNotes, WritesOrFails};
ghost use Rattle.station_mark.specs.FaultTexts.{refusal_line, refusal_text, unmarked};
ghost use Rattle.station_mark.specs.Runs.{IsMarkRun, notes_in};
ghost use Rattle.station_mark.specs.declared.fault.PrintFault.TheVariants.{Mark};

use crate::copy::write_copy;
use crate::fault::PrintFault;
use crate::mark::mark_bytes;
use crate::notes::notes_text;
use crate::refused::{refusal_line, refusal_text};
use byte_ends::{Sink, Source};
use job_statements::{Beginnings, Stated};
use set_marks::{MarkFault, Refused};
use station_check::{ACCEPTED, refuse_by};
use std::alloc::Global;

/// Prints a copy of a field file with codes put in, and answers the exit status: 0 where all of the
/// copy was written to `out`, else 1, with the line of a refusal on `err`. After the copy `err`
/// gets the notes of what was recognized; at a refusal of stations a note of each before the line.
/// Where `err` fails, they are lost and the status stays.
// Out of line, so that runs without it need no room for it on the stack.
#[inline(never)]
pub fn run_mark<R: Source, W: Sink, E: Sink>(
    alloc: Global,
    gsi: R,
    beginnings: Beginnings,
    stated: Stated,
    out: &mut W,
    err: &mut E,
) -> u8
    ensures { UntilDropped R.told R.failed R.gave gsi (λ gsi. RunWithNotes notes_in refusal_text
        (IsMarkRun beginnings (said_in stated) gsi)
        result (writer_change W.Sink out.old out.new)
        (writer_change E.Sink err.old err.new)) }
{
    let file = match mark_bytes(alloc, gsi, beginnings, stated) {
        Ok(file) => file,
        Err(refused) => return refuse_marking(alloc, &refused, err),
    };
    // Memory is taken before a byte is written.
    let Ok(notes) = notes_text(alloc, &file.marked.stations) else {
        return refuse(PrintFault::Mark(MarkFault::Memory), err);
    };
    match write_copy(out, &file.bytes, &file.marked.marks) {
        Ok(()) => tell(&notes, err),
        Err(_) => refuse(PrintFault::Write, err),
    }
}

/// Writes notes, and answers the status.
fn tell<E: Sink>(notes: &[u8], err: &mut E) -> u8
    ensures status { result ≡ 0 }
    ensures notes { WritesOrFails notes.now
        (writer_change E.Sink err.old err.new) }
{
    // Where `err` fails, they are lost.
    let _ = err.write_all(notes);
    ACCEPTED
}

/// Writes the text of a refused marking, or that memory ran out for it, and answers its status.
fn refuse_marking<E: Sink>(alloc: Global, refused: &Refused, err: &mut E) -> u8
    ensures status { result ≡ 1 }
    ensures text { WritesOrFails (refusal_text (unmarked refused.now))
        (writer_change E.Sink err.old err.new)
        ⊎ WritesOrFails (refusal_line (Mark Memory)) (writer_change E.Sink err.old err.new) }
{
    match refusal_text(alloc, refused) {
        Ok(text) => refuse_by(&text, err),
        Err(_) => refuse(PrintFault::Mark(MarkFault::Memory), err),
    }
}

/// Writes the line of a refusal, and answers its status.
fn refuse<E: Sink>(fault: PrintFault, err: &mut E) -> u8
    ensures status { result ≡ 1 }
    ensures line { WritesOrFails (refusal_line fault)
        (writer_change E.Sink err.old err.new) }
{
    refuse_by(refusal_line(fault).as_slice(), err)
}
