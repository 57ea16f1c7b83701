//! The report, with the digest of what was read.

ghost use Rattle.std.specs.Prelude.{⊤};
ghost use Rattle.byte_ends.specs.Writers.{writer_change};
ghost use Rattle.byte_ends.specs.Source.{UntilDropped};
ghost use Rattle.station_check.specs.RunEndings.{Run};
ghost use Rattle.station_compare.specs.Refusals.{refusal_text};
ghost use Rattle.station_report.specs.NoteTexts.{head_of};
ghost use Rattle.station_record.specs.Made.{IsMadeOf};
ghost use Rattle.station_record.specs.Recorded.{IsRecordedReport, recorded_report_text};

use crate::compare::report;
use crate::named::HeadedReader;
use crate::texts::{print_text, with_digest};
use byte_digests::Digesting;
use byte_ends::{Sink, Source};
use instrument_reports::report_of;
use station_book::ResultLimits;
use station_compare::Refusal;
use station_report::Head;
use std::alloc::Global;

/// Writes the report of a station as `run_report` does, and answers its exit status. After the text
/// it writes a line for the field file, as `sha256sum` prints it: the digest of the bytes that were
/// read, and the name.
// Out of line, so that runs without it need no room for it on the stack.
#[inline(never)]
pub fn run_report_recorded<R: Source, W: Sink, E: Sink>(
    alloc: Global,
    gsi: HeadedReader<'_, '_, R>,
    station: &[u8],
    limits: ResultLimits,
    out: &mut W,
    err: &mut E,
) -> u8
    ensures { UntilDropped R.told R.failed R.gave gsi.entry.reader (λ gsi_change.
        Run {A = ⊤} refusal_text
        (IsRecordedReport (head_of gsi.entry.head) limits gsi_change station.now)
        result (writer_change W.Sink out.old out.new)
        (writer_change E.Sink err.old err.new)) }
{
    let digested = Digesting::new(gsi.reader);
    let (answer, digested) = report_of(alloc, digested, station, limits, gsi.head);
    let digest = digested.digest();
    let recorded = recorded_report(alloc, answer, &digest, gsi.head);
    let printed = print_text(recorded, out);
    report(printed, err)
}

/// A report as it is printed, with the digest of its field file; or the refusal.
fn recorded_report(
    alloc: Global,
    answer: Result<Vec<u8>, Refusal>,
    gsi: &[u8; 32],
    head: Head<'_, '_>,
) -> Result<Vec<u8>, Refusal>
    ensures { IsMadeOf (λ text. text.items) (recorded_report_text (head_of head.entry) gsi.now)
        answer result }
{
    let text = answer?;
    Ok(with_digest(alloc, text, gsi, head)?)
}
