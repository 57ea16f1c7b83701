//! The comparison, with the digests of what it judged.

ghost use Rattle.std.specs.Prelude.{◌≡◌, ⊤};
ghost use Rattle.byte_ends.specs.Writers.{writer_change};
ghost use Rattle.byte_ends.specs.Source.{UntilDropped};
ghost use Rattle.station_check.specs.RunEndings.{Reports, no_notes, status_of};
ghost use Rattle.station_compare.specs.Refusals.{refusal_text};
ghost use Rattle.station_record.specs.Parts.{ArePartsOf};
ghost use Rattle.station_record.specs.Recorded.{IsRecordedCompare, PrintsRecorded};
ghost use Rattle.table_answers.specs.Runs.{PrintsBeside};
ghost use Rattle.table_answers.specs.Telling.{RunTold};

use crate::lines::write_recorded;
use crate::named::NamedReader;
use byte_digests::Digesting;
use byte_ends::{Sink, Source};
use direction_table::TableForm;
use station_book::ResultLimits;
use station_check::ACCEPTED;
use station_compare::{Refusal, agreement_line, refuse};
use std::alloc::Global;
use table_answers::{Compared, Comparison, Noted, table_answer_of, tell};

/// Compares a table with the station of this name as `run_compare` does, and answers its exit
/// status. After the line of an agreement it writes one line for the field file and one for the
/// table, as `sha256sum` prints them: the digest of the bytes that were read, and the name.
// Out of line, so that runs without it need no room for it on the stack.
#[inline(never)]
pub fn run_compare_recorded<R: Source, Q: Source, W: Sink, E: Sink>(
    alloc: Global,
    gsi: NamedReader<'_, R>,
    table: NamedReader<'_, Q>,
    form: TableForm,
    station: &[u8],
    limits: ResultLimits,
    within: Option<u32>,
    out: &mut W,
    err: &mut E,
) -> u8
    ensures { UntilDropped R.told R.failed R.gave gsi.entry.reader (λ gsi_change.
        UntilDropped Q.told Q.failed Q.gave table.entry.reader (λ table_change.
        RunTold {A = ⊤} (IsRecordedCompare form limits within station.now
        gsi_change gsi.entry.name.now table_change table.entry.name.now)
        result (writer_change W.Sink out.old out.new)
        (writer_change E.Sink err.old err.new))) }
{
    let asked = Comparison { form, within };
    let digested_gsi = Digesting::new(gsi.reader);
    let mut digested_table = Digesting::new(table.reader);
    let (answer, digested_gsi) = table_answer_of(
        alloc,
        digested_gsi,
        &mut digested_table,
        station,
        limits,
        &asked,
    );
    let gsi_digest = digested_gsi.digest();
    let table_digest = digested_table.digest();
    let (compared, note) = parts_of(alloc, answer);
    let printed = print_verdict(
        compared,
        gsi_digest,
        gsi.name,
        table_digest,
        table.name,
        out,
    );
    tell(printed, &note, err)
}

/// Prints the lines of a table that agrees and of the two files, and passes on a refusal.
fn print_verdict<W: Sink>(
    compared: Result<Compared, Refusal>,
    gsi: [u8; 32],
    gsi_name: &[u8],
    table: [u8; 32],
    table_name: &[u8],
    out: &mut W,
) -> Result<(), Refusal>
    ensures { PrintsBeside (PrintsRecorded gsi_name.now table_name.now gsi table) compared result
        (writer_change W.Sink out.old out.new) }
{
    let agreement = compared?.verdict()?;
    let line = agreement_line(agreement);
    write_recorded(line.as_slice(), &gsi, gsi_name, &table, table_name, out)?;
    Ok(())
}

/// An answer, and the note of its table: no byte where there is no answer.
fn parts_of(
    alloc: Global,
    noted: Result<Noted<Compared>, Refusal>,
) -> (Result<Compared, Refusal>, Vec<u8>)
    ensures { ArePartsOf (λ own whole. whole ≡ own) noted result.0 result.1.items }
{
    match noted {
        Ok(noted) => (Ok(noted.answer), noted.note),
        Err(refusal) => (Err(refusal), Vec::new(alloc)),
    }
}

/// Writes the line of a refusal and its hint to `err`, and answers the exit status.
pub(crate) fn report<E: Sink>(printed: Result<(), Refusal>, err: &mut E) -> u8
    ensures exits { result ≡ status_of printed }
    ensures reports { Reports no_notes refusal_text printed
        (writer_change E.Sink err.old err.new) }
{
    match printed {
        Ok(()) => ACCEPTED,
        Err(refusal) => refuse(&refusal, err),
    }
}
