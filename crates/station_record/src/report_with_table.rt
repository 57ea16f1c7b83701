//! The report with a table, with the digests of what was read.

ghost use Rattle.std.specs.Prelude.{⊤};
ghost use Rattle.byte_ends.specs.Writers.{writer_change};
ghost use Rattle.byte_ends.specs.Source.{UntilDropped};
ghost use Rattle.station_record.specs.Made.{IsRecordedTable};
ghost use Rattle.station_record.specs.Parts.{ArePartsOf};
ghost use Rattle.station_record.specs.Recorded.{IsRecordedTableReport};
ghost use Rattle.table_answers.specs.Printing.{PrintsReport};
ghost use Rattle.table_answers.specs.Runs.{PrintsBeside};
ghost use Rattle.table_answers.specs.Telling.{RunTold};
ghost use Rattle.table_report.specs.Values.{asked_of, value_of};

use crate::texts::with_digests;
use byte_digests::Digesting;
use byte_ends::{Sink, Source};
use instrument_reports::table_report_of;
use station_book::ResultLimits;
use station_compare::Refusal;
use std::alloc::Global;
use table_answers::{Noted, TableAnswer, tell};
use table_report::{Asked, TableReport};

/// Writes the report of a station with a table as `run_table_report` does, and answers its exit
/// status. After the text it writes one line for the field file and one for the table, as
/// `sha256sum` prints them: the digest of the bytes that were read, and the name.
// Out of line, so that runs without it need no room for it on the stack.
#[inline(never)]
pub fn run_table_report_recorded<R: Source, Q: Source, W: Sink, E: Sink>(
    alloc: Global,
    gsi: R,
    table: Q,
    station: &[u8],
    limits: ResultLimits,
    asked: &Asked<'_, '_>,
    out: &mut W,
    err: &mut E,
) -> u8
    ensures { UntilDropped R.told R.failed R.gave gsi (λ gsi_change.
        UntilDropped Q.told Q.failed Q.gave table (λ table_change.
        RunTold {A = ⊤}
        (IsRecordedTableReport (asked_of asked.now) limits gsi_change table_change station.now)
        result (writer_change W.Sink out.old out.new)
        (writer_change E.Sink err.old err.new))) }
{
    let digested_gsi = Digesting::new(gsi);
    let mut digested_table = Digesting::new(table);
    let (answer, digested_gsi) = table_report_of(
        alloc,
        digested_gsi,
        &mut digested_table,
        station,
        limits,
        asked,
    );
    let gsi_digest = digested_gsi.digest();
    let table_digest = digested_table.digest();
    let (report, note) = recorded_both(alloc, answer, &gsi_digest, &table_digest, asked);
    let printed = print_report(report, out);
    tell(printed, &note, err)
}

/// A report with a table as it is printed, with the digests of its two files, and the note of the
/// table; or the refusal.
fn recorded_both(
    alloc: Global,
    answer: Result<Noted<TableReport>, Refusal>,
    gsi: &[u8; 32],
    table: &[u8; 32],
    asked: &Asked<'_, '_>,
) -> (Result<TableReport, Refusal>, Vec<u8>)
    ensures { ArePartsOf (IsRecordedTable (asked_of asked.now) gsi.now table.now) answer result.0
        result.1.items }
{
    let noted = match answer {
        Ok(noted) => noted,
        Err(refusal) => return (Err(refusal), Vec::new(alloc)),
    };
    let beyond = noted.answer.beyond;
    match with_digests(alloc, noted.answer.text, gsi, table, asked) {
        Ok(text) => (Ok(TableReport { text, beyond }), noted.note),
        Err(fault) => (Err(Refusal::from(fault)), Vec::new(alloc)),
    }
}

/// Prints a report, and answers its verdict; or passes on a refusal.
fn print_report<W: Sink>(answer: Result<TableReport, Refusal>, out: &mut W) -> Result<(), Refusal>
    ensures { PrintsBeside (λ report. PrintsReport (value_of report)) answer result
        (writer_change W.Sink out.old out.new) }
{
    let report = answer?;
    Ok(Asked::print(report, out)?)
}
