//! Lines that are put on each page of a text.

ghost use Rattle.std.specs.Prelude.{◌≡◌, ◌++◌, ◌∷◌, ◌==◌, ◌&&◌, [], List, IfOk, OnOk, false};
ghost use Rattle.std.specs.Prelude.{if◌then◌else◌};
ghost use Rattle.gsi_file.specs.FileAnswers.{file_answers};
ghost use Rattle.gsi_word.specs.Blocks.{GsiBlock};
ghost use Rattle.instrument_words.specs.Below as spec;
ghost use Rattle.instrument_words.specs.Instrument.{AreBlocksUpTo, instrument_of};

use crate::instrument::instrument_in;
use crate::lines::push_instrument;
use report_phrases::Language;
use std::alloc::{AllocError, Global};

/// The lines of a report down to that of its field file: that of the program, an empty one, and
/// that one.
pub const LINES_ABOVE: usize = 3;

/// What ends a line.
const LINE_FEED: u8 = b'\n';

/// What a page begins with, but for the first.
const FORM_FEED: u8 = 0x0C;

/// How many lines are still to come above the lines that are put, after a byte.
fn lines_above(above: usize, byte: u8) -> usize
    ensures { result ≡ spec.lines_above above byte }
{
    match byte {
        FORM_FEED => LINES_ABOVE,
        LINE_FEED => above.saturating_sub(1),
        _ => above,
    }
}

/// Adds a byte of a text, and the lines where it ends the last line above them.
fn push_byte(whole: &mut Vec<u8>, byte: u8, above: usize, lines: &[u8]) -> Result<(), AllocError>
    ensures { OnOk result (whole.new.items ≡ whole.old.items
        ++ byte ∷ (if above == 1 && byte == spec.LINE_FEED then lines.now else [])) }
{
    whole.push(byte)?;
    if above == 1 && byte == LINE_FEED {
        whole.extend_from_slice(lines)?;
    }
    Ok(())
}

/// Adds a text, with lines put on each of its pages.
fn push_pages(whole: &mut Vec<u8>, text: &[u8], lines: &[u8]) -> Result<(), AllocError>
    ensures { OnOk result (whole.new.items
        ≡ whole.old.items ++ spec.put_on_pages LINES_ABOVE lines.now text.now) }
{
    let mut above = LINES_ABOVE;
    for &byte in text {
        push_byte(whole, byte, above, lines)?;
        above = lines_above(above, byte);
    }
    Ok(())
}

/// The text of reports in a language of a field file of these bytes, with what the file recorded of
/// instrument and time on each page, below the line that names it.
///
/// The only error is that memory was refused.
pub fn with_instrument(
    alloc: Global,
    language: Language,
    text: &[u8],
    bytes: &[u8],
) -> Result<Vec<u8>, AllocError>
    ensures { IfOk result (λ whole. (blocks : List GsiBlock)
        → AreBlocksUpTo (file_answers (record { bytes = bytes.now; fails = false })) blocks
        → whole.items ≡ spec.on_pages language (instrument_of blocks) text.now) }
{
    let mut lines = Vec::new(alloc);
    push_instrument(&mut lines, language, &instrument_in(bytes))?;
    let mut whole = Vec::new(alloc);
    push_pages(&mut whole, text, &lines)?;
    Ok(whole)
}
