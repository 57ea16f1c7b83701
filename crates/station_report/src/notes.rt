//! The lines of a report that say what it was told to note, and those for a signature.
ghost use Rattle.std.specs.Prelude.{◌≡◌, ◌++◌, OnOk};
ghost use Rattle.report_notes.specs.Notes.{notes_value};
ghost use Rattle.std.specs.List.{flat_map};
ghost use Rattle.std.specs.Prelude.{map, option_map};
ghost use Rattle.report_notes.specs.Notes.{note_value};
ghost use Rattle.report_phrases.specs.Phrases.{said};
ghost use Rattle.station_report.specs.NoteTexts as spec;

use crate::columns::push_left;
use crate::labels::{ENTRY_NAMES, push_label};
use byte_digests::push_name;
use report_notes::{Note, Notes};
use report_phrases::{Language, Phrase};
use std::alloc::{AllocError, Global};

/// A line to write on by hand.
const LINE: &[u8] = b"________________________________________\n";

/// Adds the line of a note.
fn push_note(
    text: &mut Vec<u8>,
    field: &mut Vec<u8>,
    key: &[u8],
    said: &[u8],
) -> Result<(), AllocError>
    ensures { OnOk result
        (text.new.items ≡ text.old.items ++ spec.note_text key.now said.now) }
{
    field.clear();
    push_name(field, key)?;
    push_label(text, field)?;
    push_name(text, said)?;
    text.push(b'\n')?;
    Ok(())
}

/// Adds the line of the date, where one is stated.
fn push_date(
    text: &mut Vec<u8>,
    field: &mut Vec<u8>,
    language: Language,
    date: Option<&str>,
) -> Result<(), AllocError>
    ensures { OnOk result (text.new.items ≡ text.old.items
        ++ spec.date_text language (option_map (λ date. date.now) date.entry)) }
{
    match date {
        Some(date) => push_note(text, field, Phrase::Date.said(language), date.as_bytes()),
        None => Ok(()),
    }
}

/// Adds the line of one of the notes.
fn push_line(text: &mut Vec<u8>, field: &mut Vec<u8>, line: &Note<'_>) -> Result<(), AllocError>
    ensures { OnOk result (text.new.items
        ≡ text.old.items ++ spec.note_text line.now.key.now line.now.text.now) }
{
    push_note(text, field, line.key.as_bytes(), line.text.as_bytes())
}

/// Adds the lines of notes.
fn push_lines(text: &mut Vec<u8>, field: &mut Vec<u8>, lines: &[Note<'_>]) -> Result<(), AllocError>
    ensures { OnOk result (text.new.items ≡ text.old.items
        ++ flat_map (λ note. spec.note_text note.key note.text) (map note_value lines.now)) }
{
    for line in lines {
        push_line(text, field, line)?;
    }
    Ok(())
}

/// Adds the lines of these notes.
fn push_noted(alloc: Global, text: &mut Vec<u8>, notes: &Notes<'_>) -> Result<(), AllocError>
    ensures { OnOk result
        (text.new.items ≡ text.old.items ++ spec.notes_text (notes_value notes.now)) }
{
    let mut field = Vec::new(alloc);
    push_date(text, &mut field, notes.language, notes.date)?;
    push_lines(text, &mut field, &notes.lines)?;
    Ok(())
}

/// Adds the lines of what a report was told to note.
pub(crate) fn push_notes(
    alloc: Global,
    text: &mut Vec<u8>,
    notes: Option<&Notes<'_>>,
) -> Result<(), AllocError>
    ensures { OnOk result
        (text.new.items ≡ text.old.items ++ spec.notes_text (spec.noted notes.entry)) }
{
    match notes {
        Some(notes) => push_noted(alloc, text, notes),
        None => Ok(()),
    }
}

/// Adds a line to write on by hand.
fn push_blank_line(text: &mut Vec<u8>, language: Language, label: Phrase) -> Result<(), AllocError>
    ensures { OnOk result
        (text.new.items ≡ text.old.items ++ spec.blank_line (said language label)) }
{
    text.push(b'\n')?;
    push_left(text, ENTRY_NAMES, label.said(language))?;
    text.extend_from_slice(LINE)?;
    Ok(())
}

/// Adds the lines for a place and a date, and for a signature.
fn push_blank_lines(text: &mut Vec<u8>, language: Language) -> Result<(), AllocError>
    ensures { OnOk result (text.new.items ≡ text.old.items ++ spec.blank_lines language) }
{
    push_blank_line(text, language, Phrase::PlaceAndDate)?;
    push_blank_line(text, language, Phrase::Signature)?;
    Ok(())
}

/// The language of a report that notes this.
pub(crate) fn language_of(notes: Option<&Notes<'_>>) -> Language
    ensures { result ≡ (spec.noted notes.entry).language }
{
    match notes {
        Some(notes) => notes.language,
        None => Language::English,
    }
}

/// Whether lines for a signature are asked for.
fn has_signature(notes: Option<&Notes<'_>>) -> bool
    ensures { result ≡ (spec.noted notes.entry).signature }
{
    match notes {
        Some(notes) => notes.signature,
        None => false,
    }
}

/// Adds the lines for a signature, where they are asked for.
pub(crate) fn push_signature(
    text: &mut Vec<u8>,
    notes: Option<&Notes<'_>>,
) -> Result<(), AllocError>
    ensures { OnOk result (text.new.items
        ≡ text.old.items ++ spec.signature_text (spec.noted notes.entry)) }
{
    if has_signature(notes) {
        return push_blank_lines(text, language_of(notes));
    }
    Ok(())
}
