//! The check, with the digests of what it judged.

ghost use Rattle.std.specs.Prelude.{◌≡◌, ⊤};
ghost use Rattle.byte_ends.specs.Writers.{writer_change};
ghost use Rattle.byte_ends.specs.Source.{UntilDropped};
ghost use Rattle.station_check.specs.RunEndings.{PrintsAnswer, Reports, Run, no_notes, status_of};
ghost use Rattle.station_check.specs.VerdictLines.{refusal_line};
ghost use Rattle.station_check.specs.VerdictLines as spec;
ghost use Rattle.station_check.specs.declared.fault.Fault.TheVariants.{Write};
ghost use Rattle.station_record.specs.Recorded.{IsRecordedCheck, recorded_text};

use crate::lines::write_recorded;
use crate::named::NamedReader;
use adjust_kernel::{Accepted, ResidualLimit};
use byte_digests::Digesting;
use byte_ends::{Sink, Source};
use station_book::Limits;
use station_check::{ACCEPTED, Fault, accepted_line, check_sources, refuse};
use std::alloc::Global;

/// Checks a sheet against a field file as `run_check` does, and answers its exit status. After the
/// line of an acceptance it writes one line for the field file and one for the sheet, as
/// `sha256sum` prints them: the digest of the bytes that were read, and the name.
// Out of line, so that runs without it need no room for it on the stack.
#[inline(never)]
pub fn run_check_recorded<R: Source, Q: Source, W: Sink, E: Sink>(
    alloc: Global,
    gsi: NamedReader<'_, R>,
    sheet: NamedReader<'_, Q>,
    limits: Limits,
    limit: Option<ResidualLimit>,
    out: &mut W,
    err: &mut E,
) -> u8
    ensures { UntilDropped R.told R.failed R.gave gsi.entry.reader (λ gsi_change.
        UntilDropped Q.told Q.failed Q.gave sheet.entry.reader (λ sheet_change.
        Run {A = ⊤} refusal_line (IsRecordedCheck limits limit
        gsi_change gsi.entry.name.now sheet_change sheet.entry.name.now)
        result (writer_change W.Sink out.old out.new)
        (writer_change E.Sink err.old err.new))) }
{
    let digested_gsi = Digesting::new(gsi.reader);
    let mut digested_sheet = Digesting::new(sheet.reader);
    let (verdict, digested_gsi) = check_sources(
        alloc,
        digested_gsi,
        &mut digested_sheet,
        limits,
        limit,
    );
    let gsi_digest = digested_gsi.digest();
    let sheet_digest = digested_sheet.digest();
    let printed = print_verdict(verdict, gsi_digest, gsi.name, sheet_digest, sheet.name, out);
    report(printed, err)
}

/// Prints the lines of an accepted sheet and of the two files, and passes on a refusal.
fn print_verdict<W: Sink>(
    verdict: Result<Accepted, Fault>,
    gsi: [u8; 32],
    gsi_name: &[u8],
    sheet: [u8; 32],
    sheet_name: &[u8],
    out: &mut W,
) -> Result<(), Fault>
    ensures { PrintsAnswer (λ a. recorded_text (spec.accepted_line a) gsi gsi_name.now
        sheet sheet_name.now) Write verdict result
        (writer_change W.Sink out.old out.new) }
{
    let accepted = verdict?;
    let line = accepted_line(accepted);
    write_recorded(line.as_slice(), &gsi, gsi_name, &sheet, sheet_name, out)?;
    Ok(())
}

/// Writes the line of a refusal to `err`, and answers the exit status.
fn report<E: Sink>(printed: Result<(), Fault>, err: &mut E) -> u8
    ensures exits { result ≡ status_of printed }
    ensures reports { Reports no_notes refusal_line printed
        (writer_change E.Sink err.old err.new) }
{
    match printed {
        Ok(()) => ACCEPTED,
        Err(fault) => refuse(fault, err),
    }
}
