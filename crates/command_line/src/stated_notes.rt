//! The options that state what a report notes.

ghost use Rattle.std.specs.Prelude.{◌≡◌, ◌↔◌, List, ℕ, IfErr, IfNone, IfOk, IfSome, IsTrue, codes};
ghost use Rattle.clap.specs.Words.{found_of};
ghost use Rattle.command_line.specs.Mistakes.{IsWrongLanguage, IsWrongNote};
ghost use Rattle.command_line.specs.StatedNotes as spec;
ghost use Rattle.command_line.specs.StatedNotes.{SpeaksOfNotes, StatesLines, StatesNoNotes};
ghost use Rattle.command_line.specs.StatedNotes.{StatesNotes, language_stated};
ghost use Rattle.command_line.specs.StatedNumbers.{texts_of};
ghost use Rattle.report_notes.specs.Stated.{AreUnnoted};

use crate::arguments::{DATE, LANGUAGE, NOTE, PAGES, SIGNATURE};
use crate::found::has_flag;
use clap::ArgMatches;
use report_notes::{Note, Notes, Unnoted, notes_of};
use report_phrases::Language;
use std::alloc::{AllocError, Global};

/// The language of a code.
fn language_named(code: &str) -> Option<Language>
    ensures { result ≡ spec.language_named code.now }
{
    match code {
        "en" => Some(Language::English),
        "de" => Some(Language::German),
        "fr" => Some(Language::French),
        _ => None,
    }
}

/// The language that a report is to be written in, unless the text states none.
fn language_of(found: &ArgMatches<'_>) -> Option<Language>
    ensures { result ≡ language_stated (found_of found.now) }
{
    match found.get_str(LANGUAGE) {
        None => Some(Language::English),
        Some(code) => language_named(code),
    }
}

/// The notes that the texts of the option state of a report in this language, or why they state
/// none.
fn lines_by<'a>(
    alloc: Global,
    language: Language,
    found: &ArgMatches<'a>,
) -> Result<Vec<Note<'a>>, Unnoted<'a>>
    ensures noted { IfOk result
        (λ lines. StatesLines (found_of found.now) language lines.items) }
    ensures why { IfErr result (AreUnnoted language
        (texts_of (found_of found.now) (codes "note"))) }
{
    match found.get_strs(NOTE) {
        Some(texts) => notes_of(alloc, language, texts),
        None => notes_of(alloc, language, &[]),
    }
}

/// What a report is to note, unless its language is none or a text of the option states no note.
pub(crate) fn notes_stated<'a>(
    alloc: Global,
    found: &ArgMatches<'a>,
) -> Result<Option<Notes<'a>>, AllocError>
    ensures stated { IfOk result (λ said. IfSome said (StatesNotes (found_of found.now))) }
    ensures none { IfOk result (λ said. IfNone said (StatesNoNotes (found_of found.now))) }
{
    let Some(language) = language_of(found) else {
        return Ok(None);
    };
    match lines_by(alloc, language, found) {
        Ok(lines) => Ok(Some(Notes {
            language,
            date: found.get_str(DATE),
            lines,
            signature: has_flag(found, SIGNATURE),
            pages: has_flag(found, PAGES),
        })),
        Err(Unnoted::Memory) => Err(AllocError),
        Err(Unnoted::Wrong(_)) => Ok(None),
    }
}

/// What is stated as the language of a report, where it is none.
pub(crate) fn wrong_language<'a>(found: &ArgMatches<'a>) -> Option<&'a str>
    ensures wrong { IfSome result (λ text. IsWrongLanguage (found_of found.now) text.now) }
    ensures none { IfNone result ((text : List ℕ) → ¬ IsWrongLanguage (found_of found.now) text) }
{
    let code = found.get_str(LANGUAGE)?;
    match language_named(code) {
        Some(_) => None,
        None => Some(code),
    }
}

/// The first text of the option that states no note in the stated language.
pub(crate) fn wrong_note<'a>(
    alloc: Global,
    found: &ArgMatches<'a>,
) -> Result<Option<&'a str>, AllocError>
    ensures wrong { IfOk result (λ first. IfSome first (λ text.
        IsWrongNote (found_of found.now) text.now)) }
    ensures none { IfOk result (λ first. IfNone first ((text : List ℕ)
        → ¬ IsWrongNote (found_of found.now) text)) }
{
    let Some(language) = language_of(found) else {
        return Ok(None);
    };
    match lines_by(alloc, language, found) {
        Ok(_) => Ok(None),
        Err(Unnoted::Memory) => Err(AllocError),
        Err(Unnoted::Wrong(text)) => Ok(Some(text)),
    }
}

/// Whether something is stated that a report alone can have.
pub(crate) fn has_notes(found: &ArgMatches<'_>) -> bool
    ensures { IsTrue result ↔ SpeaksOfNotes (found_of found.now) }
{
    found.contains_id(LANGUAGE)
        || found.contains_id(DATE)
        || found.contains_id(NOTE)
        || has_flag(found, SIGNATURE)
        || has_flag(found, PAGES)
}
