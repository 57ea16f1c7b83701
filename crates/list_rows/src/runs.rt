//! The list as rows as a command, over a source of bytes and sinks: it makes its call, and answers
//! the exit status.
ghost use Rattle.byte_ends.specs.Writers.{writer_change};
ghost use Rattle.byte_ends.specs.Source.{UntilDropped};
ghost use Rattle.list_rows.specs.Runs.{IsRowsRun};
ghost use Rattle.station_check.specs.ListNotes.{unchecked_note};
ghost use Rattle.station_check.specs.RunEndings.{RunWithNotes};
ghost use Rattle.station_check.specs.VerdictLines.{refusal_line};

use crate::rows::write_rows;
use byte_ends::{Sink, Source};
use row_forms::RowForm;
use station_book::Limits;
use station_check::{note_unchecked, refuse};
use std::alloc::Global;

/// Writes the rows of a field file's stations in a form to `out`, and answers the exit status: 0
/// where all was written, else 1, with the line of a refusal on `err`. Where no station is listed
/// though the file has readings, `err` gets a note of them. Where `err` fails, the line is lost and
/// the status stays.
pub fn run_list_rows<R: Source, W: Sink, E: Sink>(
    alloc: Global,
    gsi: R,
    limits: Limits,
    form: RowForm,
    out: &mut W,
    err: &mut E,
) -> u8
    ensures { UntilDropped R.told R.failed R.gave gsi (λ gsi. RunWithNotes unchecked_note
        refusal_line (IsRowsRun form limits gsi)
        result (writer_change W.Sink out.old out.new)
        (writer_change E.Sink err.old err.new)) }
{
    match write_rows(alloc, gsi, limits, form, out) {
        Ok(unchecked) => note_unchecked(unchecked, err),
        Err(fault) => refuse(fault, err),
    }
}
