//! Notes that texts state, as those of an option of a command line.
ghost use Rattle.std.specs.Prelude.{◌≡◌, ◌++◌, ◌∷◌, [], IfErr, IfNone, IfOk, IfSome, OnOk};
ghost use Rattle.std.specs.Prelude.{true, false, map};
ghost use Rattle.report_notes.specs.Stated.{AddsNote, AreNoted, AreUnnoted, IsFree, IsOwnLabel};
ghost use Rattle.report_notes.specs.Stated.{IsUnnoted, StatesNote};
ghost use Rattle.report_notes.specs.Stated as spec;
ghost use Rattle.report_notes.specs.declared.notes.Note.{Note};
ghost use Rattle.report_notes.specs.declared.stated.Unnoted.TheVariants.{Memory};

use crate::notes::Note;
use report_phrases::{Language, Phrase};
use std::alloc::{AllocError, Global};

/// Why texts state no notes.
#[derive(Clone, Copy, Debug)]
pub enum Unnoted<'a> {
    /// This is the first that states none.
    Wrong(&'a str),
    /// There was no memory.
    Memory,
}

impl<'a> From<AllocError> for Unnoted<'a> {
    ghost from_gives = { λ _ why. why ≡ Memory };

    fn from(_: AllocError) -> Unnoted<'a> {
        Unnoted::Memory
    }
}

/// The blank.
const BLANK: u8 = b' ';

/// Whether blanks stand in a text one at a time, and at neither end; a text without a byte isn't so.
fn is_spaced(text: &[u8]) -> bool
    ensures { result ≡ spec.is_spaced true text.now }
{
    let mut after = true;
    'bytes: for &byte in text {
        if byte == BLANK && after {
            return false;
        }
        after = byte == BLANK;
    }
    !after
}

/// Whether the head of a report in a language has this label of its own.
fn is_own_label(language: Language, label: &[u8]) -> bool
    ensures yes { result ≡ true → IsOwnLabel language label.now }
    ensures no { result ≡ false → ¬ (IsOwnLabel language label.now) }
{
    label == Phrase::FieldFile.said(language)
        || label == Phrase::Station.said(language)
        || label == Phrase::Date.said(language)
        || label == Phrase::Sets.said(language)
        || label == Phrase::Targets.said(language)
        || label == Phrase::TwoFaceDirections.said(language)
        || label == Phrase::MissingDirections.said(language)
        || label == Phrase::LimitOfTwoC.said(language)
        || label == Phrase::LimitOfTwoI.said(language)
        || label == Phrase::LimitOfResiduals.said(language)
}

/// Whether a note may be of this: it is not empty, it has blanks one at a time and inside alone, and
/// it is no label that the head of a report in a language has of its own.
fn is_free(language: Language, key: &[u8]) -> bool
    ensures yes { result ≡ true → IsFree language key.now }
    ensures no { result ≡ false → ¬ (IsFree language key.now) }
{
    is_spaced(key) && !is_own_label(language, key)
}

/// The note that a text `KEY=TEXT` states: what it is of stands before the first `=`.
fn note_in(language: Language, text: &str) -> Option<Note<'_>>
    ensures note { IfSome result (StatesNote language text.now) }
    ensures none { IfNone result ((note : Note) → ¬ StatesNote language text.now note) }
{
    let (key, said) = text.split_once('=')?;
    if is_free(language, key.as_bytes()) {
        Some(Note { key, text: said })
    } else {
        None
    }
}

/// Adds a note.
fn push<'a>(notes: &mut Vec<Note<'a>>, note: Note<'a>) -> Result<(), AllocError>
    ensures { OnOk result (notes.new.items ≡ notes.old.items ++ note.entry ∷ []) }
{
    notes.push(note)?;
    Ok(())
}

/// Adds the note that a text states.
fn add<'a>(language: Language, notes: &mut Vec<Note<'a>>, text: &'a str) -> Result<(), Unnoted<'a>>
    ensures added { IfOk result
        (λ _. AddsNote language notes.old.items text.now notes.new.items) }
    ensures why { IfErr result (IsUnnoted language text.now) }
{
    match note_in(language, text) {
        Some(note) => {
            push(notes, note)?;
            Ok(())
        }
        None => Err(Unnoted::Wrong(text)),
    }
}

/// The notes of a report in a language that texts `KEY=TEXT` state, in the order in which they
/// stand.
///
/// # Errors
///
/// The first text that states none, which has no `=`, or before it nothing, a blank at an end or
/// beside another, or a label of the head of such a report; or that memory ran out.
pub fn notes_of<'a>(
    alloc: Global,
    language: Language,
    texts: &[&'a str],
) -> Result<Vec<Note<'a>>, Unnoted<'a>>
    ensures noted { IfOk result
        (λ notes. AreNoted language (map (λ text. text.now) texts.now) notes.items) }
    ensures why { IfErr result (AreUnnoted language (map (λ text. text.now) texts.now)) }
{
    let mut notes = Vec::new(alloc);
    for &text in texts {
        add(language, &mut notes, text)?;
    }
    Ok(notes)
}
