//! A report as it is printed.

ghost use Rattle.std.specs.Prelude.{◌≡◌, MatchResult};
ghost use Rattle.instrument_reports.specs.Printing as spec;
ghost use Rattle.station_compare.specs.declared.fault.CompareFault.TheVariants.{Memory};
ghost use Rattle.station_report.specs.NoteTexts.{head_of};

use report_pages::paged;
use report_phrases::Phrase;
use station_compare::CompareFault;
use station_report::Head;
use std::alloc::Global;

/// The text of a report with this head, as it is printed: divided into pages, where it is told to
/// be.
///
/// The only error is that memory was refused.
pub fn as_printed(alloc: Global, head: Head<'_, '_>, text: Vec<u8>) -> Result<Vec<u8>, CompareFault>
    ensures { MatchResult result
        (λ whole. whole.items ≡ spec.as_printed (head_of head.entry).notes text.items)
        (λ fault. fault ≡ Memory) }
{
    let has_pages = match head.notes {
        Some(notes) => notes.pages,
        None => false,
    };
    if has_pages {
        return Ok(paged(alloc, Phrase::Station.said(head.language()), &text)?);
    }
    Ok(text)
}
