//! The rows of the report, with the digest of what was read.

ghost use Rattle.std.specs.Prelude.{◌≡◌, ◌++◌, ⊤, OnOk};
ghost use Rattle.byte_ends.specs.Source.{UntilDropped};
ghost use Rattle.byte_ends.specs.Writers.{writer_change};
ghost use Rattle.csv.specs.Writing.{row_text};
ghost use Rattle.hex.specs.Hex.{encode_lower};
ghost use Rattle.row_forms.specs.Forms.{writer_of};
ghost use Rattle.station_check.specs.RunEndings.{Run};
ghost use Rattle.station_compare.specs.Refusals.{refusal_text};
ghost use Rattle.station_record.specs.Made.{IsMadeOf};
ghost use Rattle.station_record.specs.Rows.{AreRecordedRows};
ghost use Rattle.station_record.specs.Rows as spec;

use crate::compare::report;
use crate::named::NamedReader;
use crate::texts::print_text;
use byte_digests::Digesting;
use byte_ends::{Sink, Source};
use instrument_reports::{push_further_row, rows_of};
use row_forms::RowForm;
use station_book::ResultLimits;
use station_compare::{CompareFault, Refusal};
use std::alloc::{AllocError, Global};

/// Writes the rows of the report of the station of this name as `run_rows` does, and answers the
/// exit status. After them it writes the row of the field file: the word `file`, the name as it is,
/// and the SHA-256 digest of the bytes that were read.
// Out of line, so that runs without it need no room for it on the stack.
#[inline(never)]
pub fn run_rows_recorded<R: Source, W: Sink, E: Sink>(
    alloc: Global,
    gsi: NamedReader<'_, R>,
    station: &[u8],
    limits: ResultLimits,
    form: RowForm,
    out: &mut W,
    err: &mut E,
) -> u8
    ensures { UntilDropped R.told R.failed R.gave gsi.entry.reader (λ gsi_change.
        Run {A = ⊤} refusal_text
        (AreRecordedRows form gsi.entry.name.now limits gsi_change station.now)
        result (writer_change W.Sink out.old out.new)
        (writer_change E.Sink err.old err.new)) }
{
    let digested = Digesting::new(gsi.reader);
    let (answer, digested) = rows_of(alloc, digested, station, limits, form);
    let digest = digested.digest();
    let recorded = with_file_row(alloc, answer, form, gsi.name, &digest);
    let printed = print_text(recorded, out);
    report(printed, err)
}

/// The rows of an answer, and then that of their field file; or the refusal.
fn with_file_row(
    alloc: Global,
    answer: Result<Vec<u8>, Refusal>,
    form: RowForm,
    path: &[u8],
    digest: &[u8; 32],
) -> Result<Vec<u8>, Refusal>
    ensures { IsMadeOf (λ text. text.items) (spec.recorded_rows_text form path.now digest.now)
        answer result }
{
    let mut rows = answer?;
    match push_file_row(alloc, &mut rows, form, path, digest) {
        Ok(()) => Ok(rows),
        Err(AllocError) => Err(Refusal::from(CompareFault::Memory)),
    }
}

/// Adds the row of a field file.
fn push_file_row(
    alloc: Global,
    rows: &mut Vec<u8>,
    form: RowForm,
    path: &[u8],
    digest: &[u8; 32],
) -> Result<(), AllocError>
    ensures { OnOk result (rows.new.items
        ≡ rows.old.items ++ row_text (writer_of form) (spec.file_row path.now digest.now)) }
{
    let kind = b"file".as_slice();
    let digits = digits_of(digest);
    push_further_row(alloc, rows, form, kind, path, digits.as_slice())
}

/// The digits of a digest.
fn digits_of(digest: &[u8; 32]) -> [u8; 64]
    ensures { result ≡ encode_lower digest.now }
{
    let mut digits = [0; 64];
    hex::encode_to_slice(digest, &mut digits).unwrap();
    digits
}
