//! The reports and the rows of all stations of a field file, with what the file recorded of
//! instrument and time.

ghost use Rattle.std.specs.Prelude.{⊤, MatchResult};
ghost use Rattle.book_answers.specs.Answers.{IsRefusedOfAll, StatesAll};
ghost use Rattle.book_answers.specs.Refusals.{fault_of, named_refusal_text};
ghost use Rattle.byte_ends.specs.Source.{UntilDropped, reader_change};
ghost use Rattle.byte_ends.specs.Writers.{writer_change};
ghost use Rattle.instrument_reports.specs.Answers.{TellsAll, TellsInstrument};
ghost use Rattle.instrument_reports.specs.Runs.{IsReportRowsRunOfAll, IsReportsRun, IsRunOfEach};
ghost use Rattle.station_check.specs.RunEndings.{Run};
ghost use Rattle.station_compare.specs.Runs.{ReadsFieldFile};
ghost use Rattle.station_report.specs.NoteTexts.{head_of};

use crate::telling::{Telling, answer_with};
use book_answers::{Arrangement, StationRefusal, answer_of_all, refusal_text};
use byte_ends::{Sink, Source};
use instrument_words::Rereading;
use row_forms::RowForm;
use station_answers::{Report, ReportRows};
use station_book::ResultLimits;
use station_check::{ACCEPTED, refuse_by, write_whole};
use station_report::Head;
use std::alloc::Global;

/// What is asked of all stations of a field file in one text, with what the file recorded, and the
/// file's reader, which is given back.
///
/// # Errors
///
/// Those of `book_answers::answer_of_all`.
fn told_of_all<R: Source, A: Telling>(
    alloc: Global,
    gsi: R,
    limits: ResultLimits,
    asked: &A,
    arrangement: Arrangement,
) -> (Result<Vec<u8>, StationRefusal>, R)
    ensures { ReadsFieldFile (reader_change R.told R.failed R.gave gsi result.1)
        (fault_of result.0)
        (λ file. MatchResult result.0
        (λ text. TellsInstrument (A.put asked.now) file
        (StatesAll (A.says asked.now limits) limits arrangement file) text.items)
        (IsRefusedOfAll (A.says asked.now limits) limits file)) }
{
    let reading = Rereading::new(alloc, gsi);
    let (answer, reading) = answer_of_all(alloc, reading, limits, asked, arrangement);
    let (gsi, kept) = reading.into_parts();
    (answer_with(alloc, asked, answer, &kept), gsi)
}

/// Writes what is asked, as it is printed, and flushes once.
///
/// # Errors
///
/// Those of the answer; `Memory`; `Write` where a call of the writer failed. At any other nothing
/// was asked of the writer.
fn write_told_of_all<R: Source, A: Telling, W: Sink>(
    alloc: Global,
    gsi: R,
    limits: ResultLimits,
    asked: &A,
    arrangement: Arrangement,
    writer: &mut W,
) -> Result<(), StationRefusal>
    ensures { UntilDropped R.told R.failed R.gave gsi (λ gsi. IsRunOfEach
        (TellsAll (A.put asked.now) (A.says asked.now limits) limits arrangement)
        (A.print asked.now) gsi result (writer_change W.Sink writer.old writer.new)) }
{
    let (answer, _gsi) = told_of_all(alloc, gsi, limits, asked, arrangement);
    let text = answer?;
    let printed = asked.printed(alloc, text)?;
    write_whole(writer, &printed)?;
    Ok(())
}

/// Writes it to `out`, and answers the exit status: 0 where all was written, else 1, with the line
/// of a refusal, its hint and the name of its station on `err`. Where `err` fails, they are lost
/// and the status stays.
fn run_told_of_all<R: Source, A: Telling, W: Sink, E: Sink>(
    alloc: Global,
    gsi: R,
    limits: ResultLimits,
    asked: &A,
    arrangement: Arrangement,
    out: &mut W,
    err: &mut E,
) -> u8
    ensures { UntilDropped R.told R.failed R.gave gsi (λ gsi. Run {A = ⊤} named_refusal_text
        (IsRunOfEach (TellsAll (A.put asked.now) (A.says asked.now limits) limits arrangement)
        (A.print asked.now) gsi)
        result (writer_change W.Sink out.old out.new)
        (writer_change E.Sink err.old err.new)) }
{
    match write_told_of_all(alloc, gsi, limits, asked, arrangement, out) {
        Ok(()) => ACCEPTED,
        Err(refused) => refuse_by(refusal_text(&refused).as_slice(), err),
    }
}

/// Writes the reports of all stations of a field file in one text to `out`, with what the file
/// recorded of instrument and time on each page, and in pages where their head is told so; and
/// answers the exit status: 0 where all was written, else 1, with the line of a refusal, its hint
/// and the name of its station on `err`. Where `err` fails, they are lost and the status stays.
pub fn run_reports<R: Source, W: Sink, E: Sink>(
    alloc: Global,
    gsi: R,
    limits: ResultLimits,
    head: Head<'_, '_>,
    out: &mut W,
    err: &mut E,
) -> u8
    ensures { UntilDropped R.told R.failed R.gave gsi (λ gsi. Run {A = ⊤} named_refusal_text
        (IsReportsRun (head_of head.entry) limits gsi)
        result (writer_change W.Sink out.old out.new)
        (writer_change E.Sink err.old err.new)) }
{
    let asked = Report { head };
    run_told_of_all(alloc, gsi, limits, &asked, Arrangement::Pages, out, err)
}

/// Writes the rows of all stations of a field file to `out`, under one line of titles, and then,
/// once, those of what the file recorded of instrument and time; and answers the exit status, as
/// [`run_reports`] does.
pub fn run_rows_of_all<R: Source, W: Sink, E: Sink>(
    alloc: Global,
    gsi: R,
    limits: ResultLimits,
    form: RowForm,
    out: &mut W,
    err: &mut E,
) -> u8
    ensures { UntilDropped R.told R.failed R.gave gsi (λ gsi. Run {A = ⊤} named_refusal_text
        (IsReportRowsRunOfAll form limits gsi)
        result (writer_change W.Sink out.old out.new)
        (writer_change E.Sink err.old err.new)) }
{
    let asked = ReportRows { form };
    run_told_of_all(alloc, gsi, limits, &asked, Arrangement::Rows, out, err)
}
