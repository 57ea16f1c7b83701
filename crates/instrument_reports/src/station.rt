//! A station's report and its rows, with what its field file recorded of instrument and time.

ghost use Rattle.std.specs.Prelude.{⊤, MatchResult};
ghost use Rattle.byte_ends.specs.Source.{UntilDropped, reader_change};
ghost use Rattle.byte_ends.specs.Writers.{writer_change};
ghost use Rattle.instrument_reports.specs.Answers.{SaysReportOf, SaysRowsOf, SaysWith};
ghost use Rattle.instrument_reports.specs.Runs.{IsReportRowsRun, IsReportRun, IsRunOf};
ghost use Rattle.station_answers.specs.Answers.{HasNone, StatesOf};
ghost use Rattle.station_check.specs.RunEndings.{Run};
ghost use Rattle.station_compare.specs.Hints.{IsHinted};
ghost use Rattle.station_compare.specs.Refusals.{by_fault, refusal_text};
ghost use Rattle.station_compare.specs.Runs.{ReadsFieldFile};
ghost use Rattle.station_report.specs.NoteTexts.{head_of};

use crate::telling::{Telling, answer_with};
use byte_ends::{Sink, Source};
use instrument_words::Rereading;
use row_forms::RowForm;
use station_answers::{Report, ReportRows, answer_of};
use station_book::ResultLimits;
use station_check::{ACCEPTED, write_whole};
use station_compare::{Refusal, refuse};
use station_report::Head;
use std::alloc::Global;

/// The report of the station of this name, with what its field file recorded of instrument and
/// time, and the field file's reader, which is given back.
///
/// # Errors
///
/// Those of `station_answers::answer_of`.
pub fn report_of<R: Source>(
    alloc: Global,
    gsi: R,
    name: &[u8],
    limits: ResultLimits,
    head: Head<'_, '_>,
) -> (Result<Vec<u8>, Refusal>, R)
    ensures { ReadsFieldFile (reader_change R.told R.failed R.gave gsi result.1)
        (by_fault result.0)
        (λ file. MatchResult (by_fault result.0)
        (λ text. StatesOf (SaysReportOf file (head_of head.entry) limits) limits file name.now
        text.items)
        (HasNone limits file name.now)
        × IsHinted limits file name.now result.0) }
{
    told_of(alloc, gsi, name, limits, &Report { head })
}

/// The rows of the report of the station of this name, and then those of what its field file
/// recorded of instrument and time; and the field file's reader, which is given back.
///
/// # Errors
///
/// Those of `station_answers::answer_of`.
pub fn rows_of<R: Source>(
    alloc: Global,
    gsi: R,
    name: &[u8],
    limits: ResultLimits,
    form: RowForm,
) -> (Result<Vec<u8>, Refusal>, R)
    ensures { ReadsFieldFile (reader_change R.told R.failed R.gave gsi result.1)
        (by_fault result.0)
        (λ file. MatchResult (by_fault result.0)
        (λ text. StatesOf (SaysRowsOf file form) limits file name.now text.items)
        (HasNone limits file name.now)
        × IsHinted limits file name.now result.0) }
{
    told_of(alloc, gsi, name, limits, &ReportRows { form })
}

/// What is asked of the station of this name, with what its field file recorded.
///
/// # Errors
///
/// Those of `station_answers::answer_of`.
fn told_of<R: Source, A: Telling>(
    alloc: Global,
    gsi: R,
    name: &[u8],
    limits: ResultLimits,
    asked: &A,
) -> (Result<Vec<u8>, Refusal>, R)
    ensures { ReadsFieldFile (reader_change R.told R.failed R.gave gsi result.1)
        (by_fault result.0)
        (λ file. MatchResult (by_fault result.0)
        (λ text. StatesOf (SaysWith (A.put asked.now) (A.says asked.now limits) file) limits file
        name.now text.items)
        (HasNone limits file name.now)
        × IsHinted limits file name.now result.0) }
{
    let reading = Rereading::new(alloc, gsi);
    let (answer, reading) = answer_of(alloc, reading, name, limits, asked);
    let (gsi, kept) = reading.into_parts();
    (answer_with(alloc, asked, answer, &kept), gsi)
}

/// Writes what is asked, as it is printed, and flushes once.
///
/// # Errors
///
/// Those of the answer; `Memory`; `Write` where a call of the writer failed. At any other nothing
/// was asked of the writer.
fn write_told<R: Source, A: Telling, W: Sink>(
    alloc: Global,
    gsi: R,
    name: &[u8],
    limits: ResultLimits,
    asked: &A,
    writer: &mut W,
) -> Result<(), Refusal>
    ensures { UntilDropped R.told R.failed R.gave gsi (λ gsi. IsRunOf
        (SaysWith (A.put asked.now) (A.says asked.now limits)) (A.print asked.now) limits gsi
        name.now result (writer_change W.Sink writer.old writer.new)) }
{
    let (answer, _gsi) = told_of(alloc, gsi, name, limits, asked);
    let text = answer?;
    let printed = asked.printed(alloc, text)?;
    write_whole(writer, &printed)?;
    Ok(())
}

/// Writes it to `out`, and answers the exit status: 0 where all was written, else 1, with the line
/// of a refusal and its hint on `err`. Where `err` fails, they are lost and the status stays.
fn run_told<R: Source, A: Telling, W: Sink, E: Sink>(
    alloc: Global,
    gsi: R,
    name: &[u8],
    limits: ResultLimits,
    asked: &A,
    out: &mut W,
    err: &mut E,
) -> u8
    ensures { UntilDropped R.told R.failed R.gave gsi (λ gsi. Run {A = ⊤} refusal_text
        (IsRunOf (SaysWith (A.put asked.now) (A.says asked.now limits)) (A.print asked.now) limits
        gsi name.now)
        result (writer_change W.Sink out.old out.new)
        (writer_change E.Sink err.old err.new)) }
{
    match write_told(alloc, gsi, name, limits, asked, out) {
        Ok(()) => ACCEPTED,
        Err(refusal) => refuse(&refusal, err),
    }
}

/// Writes that report to `out`, in pages where its head is told so, and answers the exit status: 0
/// where all was written, else 1, with the line of a refusal and its hint on `err`. Where `err`
/// fails, they are lost and the status stays.
pub fn run_report<R: Source, W: Sink, E: Sink>(
    alloc: Global,
    gsi: R,
    name: &[u8],
    limits: ResultLimits,
    head: Head<'_, '_>,
    out: &mut W,
    err: &mut E,
) -> u8
    ensures { UntilDropped R.told R.failed R.gave gsi (λ gsi. Run {A = ⊤} refusal_text
        (IsReportRun (head_of head.entry) limits gsi name.now)
        result (writer_change W.Sink out.old out.new)
        (writer_change E.Sink err.old err.new)) }
{
    run_told(alloc, gsi, name, limits, &Report { head }, out, err)
}

/// Writes those rows to `out`, and answers the exit status, as [`run_report`] does.
pub fn run_rows<R: Source, W: Sink, E: Sink>(
    alloc: Global,
    gsi: R,
    name: &[u8],
    limits: ResultLimits,
    form: RowForm,
    out: &mut W,
    err: &mut E,
) -> u8
    ensures { UntilDropped R.told R.failed R.gave gsi (λ gsi. Run {A = ⊤} refusal_text
        (IsReportRowsRun form limits gsi name.now)
        result (writer_change W.Sink out.old out.new)
        (writer_change E.Sink err.old err.new)) }
{
    run_told(alloc, gsi, name, limits, &ReportRows { form }, out, err)
}
