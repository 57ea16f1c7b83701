//! What a field file recorded of instrument and time, for a page.

ghost use Rattle.std.specs.Prelude.{IfOk};
ghost use Rattle.station_page.specs.Answers.{IsInstrumentOf};
ghost use Rattle.station_page.specs.HandedOut.{ShowsInRange};
ghost use Rattle.station_page.specs.Languages.{IsLanguage, stated_language};
ghost use Rattle.station_page.specs.Recorded.{IsRecorded};

use crate::hand_out::{OUT_OF_RANGE, hand_out_text};
use crate::language::language_of;
use instrument_words::{instrument_in, push_instrument};
use report_phrases::Language;
use std::alloc::{AllocError, Global};

/// Hands out the lines that a report has of what a whole field file recorded of instrument and time:
/// one for each of the words 12, 13, 17, 18 and 19 that it has, as they stand; of a file with a fault
/// of its lines, of the blocks before that.
///
/// The language is 0 for English, 1 for German and 2 for French. Answers 0 for the lines, 1 where
/// there was no memory, 2 for another language, and 3 where `out` has too little room.
#[unsafe(no_mangle)]
pub extern "C" fn station_page_instrument(
    alloc: Global,
    gsi: &[u8],
    language: u32,
    out: &mut [u8],
    written: &mut usize,
) -> u8
    ensures { ShowsInRange (IsLanguage language)
        (IsInstrumentOf (stated_language language) gsi.now) out.old out.new written.new result }
{
    *written = 0;
    let Some(language) = language_of(language) else {
        return OUT_OF_RANGE;
    };
    hand_out_text(&lines_of(alloc, gsi, language), out, written)
}

/// The lines of what a field file recorded, in a language.
fn lines_of(alloc: Global, gsi: &[u8], language: Language) -> Result<Vec<u8>, AllocError>
    ensures { IfOk result (λ text. IsRecorded language gsi.now text.items) }
{
    let mut text = Vec::new(alloc);
    push_instrument(&mut text, language, &instrument_in(gsi))?;
    Ok(text)
}
