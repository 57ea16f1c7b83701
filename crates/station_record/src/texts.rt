//! The texts of reports with the digests of what was read, made in memory as they are printed.

ghost use Rattle.std.specs.Prelude.{◌≡◌, ◌++◌, OnOk, MatchResult};
ghost use Rattle.byte_digests.specs.DigestLines.{digest_line};
ghost use Rattle.byte_ends.specs.Writers.{writer_change};
ghost use Rattle.report_phrases.specs.Phrases.{said};
ghost use Rattle.report_phrases.specs.declared.phrase.Phrase.TheVariants.{Digests};
ghost use Rattle.station_check.specs.RunEndings.{PrintsAnswer};
ghost use Rattle.station_compare.specs.Refusals.{unhinted};
ghost use Rattle.station_compare.specs.declared.fault.CompareFault.TheVariants.{Memory, Write};
ghost use Rattle.station_record.specs.Recorded.{recorded_both_text, recorded_report_text};
ghost use Rattle.station_report.specs.NoteTexts.{head_of};
ghost use Rattle.table_report.specs.Values.{asked_of};

use byte_digests::{MOST_BESIDE_NAME, put_digest_line};
use byte_ends::Sink;
use instrument_reports::as_printed;
use report_phrases::Phrase;
use station_check::write_whole;
use station_compare::{CompareFault, Refusal};
use station_report::Head;
use std::alloc::{AllocError, Global};
use table_report::Asked;

/// Adds the line of a digest.
fn push_digest_line(
    alloc: Global,
    text: &mut Vec<u8>,
    digest: &[u8; 32],
    name: &[u8],
) -> Result<(), AllocError>
    ensures { OnOk result (text.new.items ≡ text.old.items ++ digest_line digest.now name.now) }
{
    let most = MOST_BESIDE_NAME.saturating_add(name.len().saturating_mul(2));
    let mut line = Vec::new(alloc);
    line.resize(most, 0)?;
    let Some(end) = put_digest_line(digest, name, &mut line) else {
        return Err(AllocError);
    };
    text.extend_from_slice(&line[..end])?;
    Ok(())
}

/// Adds what stands after a report with this head: the title of digests, and the line of that of
/// its field file.
fn push_digest(
    alloc: Global,
    text: &mut Vec<u8>,
    gsi: &[u8; 32],
    head: Head<'_, '_>,
) -> Result<(), AllocError>
    ensures { OnOk result (text.new.items ≡ text.old.items
        ++ (said (head_of head.entry).notes.language Digests
        ++ digest_line gsi.now head.entry.path.now)) }
{
    text.extend_from_slice(Phrase::Digests.said(head.language()))?;
    push_digest_line(alloc, text, gsi, head.path)
}

/// The text of a report with this head as it is printed, with the digest of its field file.
///
/// The only error is that memory was refused.
pub(crate) fn with_digest(
    alloc: Global,
    text: Vec<u8>,
    gsi: &[u8; 32],
    head: Head<'_, '_>,
) -> Result<Vec<u8>, CompareFault>
    ensures { MatchResult result
        (λ whole. whole.items ≡ recorded_report_text (head_of head.entry) gsi.now text.items)
        (λ fault. fault ≡ Memory) }
{
    let mut recorded = text;
    push_digest(alloc, &mut recorded, gsi, head)?;
    as_printed(alloc, head, recorded)
}

/// The text of a report with a table as it is printed, with the digests of its files.
///
/// The only error is that memory was refused.
pub(crate) fn with_digests(
    alloc: Global,
    text: Vec<u8>,
    gsi: &[u8; 32],
    table: &[u8; 32],
    asked: &Asked<'_, '_>,
) -> Result<Vec<u8>, CompareFault>
    ensures { MatchResult result (λ whole. whole.items
        ≡ recorded_both_text (asked_of asked.now) gsi.now table.now text.items)
        (λ fault. fault ≡ Memory) }
{
    let head = asked.head;
    let mut recorded = text;
    push_digest(alloc, &mut recorded, gsi, head)?;
    push_digest_line(alloc, &mut recorded, table, asked.table_path)?;
    as_printed(alloc, head, recorded)
}

/// Prints a text, and passes on a refusal.
pub(crate) fn print_text<W: Sink>(
    answer: Result<Vec<u8>, Refusal>,
    out: &mut W,
) -> Result<(), Refusal>
    ensures { PrintsAnswer (λ text. text.items) (unhinted Write) answer result
        (writer_change W.Sink out.old out.new) }
{
    let text = answer?;
    write_whole(out, &text)?;
    Ok(())
}
