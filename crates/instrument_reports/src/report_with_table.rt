//! The report of a station with a table, with what its field file recorded of instrument and time.

ghost use Rattle.std.specs.Prelude.{⊤, MatchResult, option_map};
ghost use Rattle.byte_ends.specs.Source.{UntilDropped, reader_change};
ghost use Rattle.byte_ends.specs.Writers.{writer_change};
ghost use Rattle.instrument_reports.specs.Answers.{SaysTableReportOf};
ghost use Rattle.instrument_reports.specs.Printing.{IsNotedMade, IsNotedOf};
ghost use Rattle.instrument_reports.specs.Printing as spec;
ghost use Rattle.instrument_reports.specs.Runs.{IsTableReportRun};
ghost use Rattle.instrument_reports.specs.Telling.{IsWith};
ghost use Rattle.instrument_words.specs.Below.{on_pages};
ghost use Rattle.station_compare.specs.Hints.{IsHinted};
ghost use Rattle.station_compare.specs.Refusals.{by_fault};
ghost use Rattle.station_report.specs.NoteTexts.{head_of};
ghost use Rattle.table_answers.specs.Answers.{ReadsBoth, StatesBeside};
ghost use Rattle.table_answers.specs.Noting.{Noting};
ghost use Rattle.table_answers.specs.Refusing.{HasNoAnswer, RefusesComparison};
ghost use Rattle.table_answers.specs.Runs.{IsOfPrinting};
ghost use Rattle.table_answers.specs.Telling.{RunTold};
ghost use Rattle.table_report.specs.Values.{asked_of, value_of};

use crate::printing::as_printed;
use crate::telling::Telling;
use byte_ends::{Sink, Source};
use instrument_words::Rereading;
use station_answers::Report;
use station_book::ResultLimits;
use station_compare::{CompareFault, Refusal};
use station_report::Head;
use std::alloc::Global;
use table_answers::{Noted, TableAnswer, table_answer_of, tell};
use table_report::{Asked, TableReport};

/// The report of the station of this name with a table, with what its field file recorded of
/// instrument and time, and the field file's reader, which is given back.
///
/// # Errors
///
/// Those of `table_answers::table_answer_of`.
pub fn table_report_of<R: Source, Q: Source>(
    alloc: Global,
    gsi: R,
    table: &mut Q,
    name: &[u8],
    limits: ResultLimits,
    asked: &Asked<'_, '_>,
) -> (Result<Noted<TableReport>, Refusal>, R)
    ensures { ReadsBoth (reader_change R.told R.failed R.gave gsi result.1)
        (reader_change Q.told Q.failed Q.gave table.old table.new) (by_fault result.0)
        (λ file stated. MatchResult (by_fault result.0)
        (λ noted. StatesBeside
        (Noting (SaysTableReportOf file (asked_of asked.now) limits) asked.now.form) limits file
        stated name.now (value_of noted.answer, noted.note.items))
        (HasNoAnswer (RefusesComparison asked.now.form limits) limits file stated name.now)
        × IsHinted limits file name.now result.0) }
{
    let reading = Rereading::new(alloc, gsi);
    let (answer, reading) = table_answer_of(alloc, reading, table, name, limits, asked);
    let (gsi, kept) = reading.into_parts();
    (noted_with(alloc, asked.head, answer, kept), gsi)
}

/// The answer of a report with a table and this head, with what these bytes of its field file
/// recorded.
fn noted_with(
    alloc: Global,
    head: Head<'_, '_>,
    answer: Result<Noted<TableReport>, Refusal>,
    kept: Option<Vec<u8>>,
) -> Result<Noted<TableReport>, Refusal>
    ensures { IsNotedOf (IsWith (on_pages (head_of head.entry).notes.language)
        (option_map (λ bytes. bytes.items) kept)) answer result }
{
    let noted = answer?;
    let beyond = noted.answer.beyond;
    let text = Report { head }.told(alloc, noted.answer.text, &kept)?;
    Ok(Noted {
        answer: TableReport { text, beyond },
        note: noted.note,
    })
}

/// A report with a table and this head, as it is printed.
fn noted_as_printed(
    alloc: Global,
    head: Head<'_, '_>,
    answer: Result<Noted<TableReport>, Refusal>,
) -> Result<Noted<TableReport>, Refusal>
    ensures { IsNotedMade (spec.as_printed (head_of head.entry).notes) answer result }
{
    let noted = answer?;
    let beyond = noted.answer.beyond;
    let text = as_printed(alloc, head, noted.answer.text)?;
    Ok(Noted {
        answer: TableReport { text, beyond },
        note: noted.note,
    })
}

/// Writes that report, and flushes once; answers the note of the table too.
///
/// # Errors
///
/// Those of the report, at which nothing was asked of the writer; `Apart` where the table is apart;
/// `Write` where a call of the writer failed.
fn write_table_report<R: Source, Q: Source, W: Sink>(
    alloc: Global,
    gsi: R,
    table: &mut Q,
    name: &[u8],
    limits: ResultLimits,
    asked: &Asked<'_, '_>,
    writer: &mut W,
) -> (Result<(), Refusal>, Vec<u8>)
    ensures { UntilDropped R.told R.failed R.gave gsi (λ gsi. IsTableReportRun
        (asked_of asked.now) limits gsi
        (reader_change Q.told Q.failed Q.gave table.old table.new) name.now result.0 result.1.items
        (writer_change W.Sink writer.old writer.new)) }
{
    let (answered, _gsi) = table_report_of(alloc, gsi, table, name, limits, asked);
    match noted_as_printed(alloc, asked.head, answered) {
        Ok(noted) => (unhinted(Asked::print(noted.answer, writer)), noted.note),
        Err(refusal) => (Err(refusal), Vec::new(alloc)),
    }
}

/// A report that was printed: a refusal that comes of printing has no hint.
fn unhinted(printed: Result<(), CompareFault>) -> Result<(), Refusal>
    ensures { IsOfPrinting printed result }
{
    printed?;
    Ok(())
}

/// Prints that report to `out`, and answers the exit status: 0 where all was written and the table
/// agrees, else 1. `err` gets the note of the table, and then the line of a refusal and its hint;
/// where it fails, they are lost and the status stays.
pub fn run_table_report<R: Source, Q: Source, W: Sink, E: Sink>(
    alloc: Global,
    gsi: R,
    table: &mut Q,
    name: &[u8],
    limits: ResultLimits,
    asked: &Asked<'_, '_>,
    out: &mut W,
    err: &mut E,
) -> u8
    ensures { UntilDropped R.told R.failed R.gave gsi (λ gsi. RunTold {A = ⊤}
        (IsTableReportRun (asked_of asked.now) limits gsi
        (reader_change Q.told Q.failed Q.gave table.old table.new) name.now)
        result (writer_change W.Sink out.old out.new)
        (writer_change E.Sink err.old err.new)) }
{
    let (printed, note) = write_table_report(alloc, gsi, table, name, limits, asked, out);
    tell(printed, &note, err)
}
