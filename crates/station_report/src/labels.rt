//! Labels and fixed phrases of a report.
ghost use Rattle.std.specs.Prelude.{◌≡◌, ◌++◌, OnOk, OnErr};
ghost use Rattle.direction_table.specs.Beginnings.{IsBegun};
ghost use Rattle.report_phrases.specs.Phrases.{said};
ghost use Rattle.station_report.specs.NoteTexts as spec;

use crate::columns::push_blanks;
use report_phrases::{Language, Phrase};
use std::alloc::AllocError;

/// The width of the column of labels, in lines that say what something is.
pub const ENTRY_NAMES: usize = 22;

/// The first byte of a character of UTF-8 is below this, or from [`FIRST_OF_MANY`] on.
const FIRST_GOING_ON: u8 = 0x80;

/// The least first byte of a character that has several.
const FIRST_OF_MANY: u8 = 0xC0;

/// Whether a byte begins a character.
fn begins_character(byte: u8) -> bool
    ensures { result ≡ spec.begins_character byte }
{
    byte < FIRST_GOING_ON || FIRST_OF_MANY <= byte
}

/// How many characters a text has.
fn characters_of(text: &[u8]) -> usize
    ensures { result ≡ spec.characters_of text.now }
{
    text.iter().filter(|byte| begins_character(**byte)).count()
}

/// Adds a label, in a column of characters that begins with it.
///
/// The only error is that memory was refused; then a beginning of it may have been added.
#[tactic(auto, using(direction_table::proofs::Begun::first_part, direction_table::proofs::Begun::of_second))]
pub fn push_label(text: &mut Vec<u8>, label: &[u8]) -> Result<(), AllocError>
    ensures added { OnOk result (text.new.items ≡ text.old.items ++ spec.label_text label.now) }
    ensures begun { OnErr result
        (IsBegun (spec.label_text label.now) text.old.items text.new.items) }
{
    text.extend_from_slice(label)?;
    push_blanks(text, (ENTRY_NAMES - 1).saturating_sub(characters_of(label)))?;
    text.push(b' ')?;
    Ok(())
}

/// Adds a phrase of a language. Where memory is refused the text stays as it is.
pub fn push_phrase(text: &mut Vec<u8>, language: Language, phrase: Phrase) -> Result<(), AllocError>
    ensures added { OnOk result (text.new.items ≡ text.old.items ++ said language phrase) }
    ensures kept { OnErr result (text.new.items ≡ text.old.items) }
{
    text.extend_from_slice(phrase.said(language))?;
    Ok(())
}
