//! What is told of the part of a station.
ghost use Rattle.std.specs.Prelude.{◌≡◌, ◌≤◌, ◌++◌, ℕ, IfErr, IfOk, drop, length};
ghost use Rattle.book_answers.specs.Notes as spec;
ghost use Rattle.direction_table.specs.TableNotes.{told_note};
ghost use Rattle.table_answers.specs.Noting.{IsNote};
ghost use Rattle.table_answers.specs.Refusing.{HasNoAnswerOf, HasNoDifferences};

use crate::columns::read_in_whole;
use adjust_kernel::Name;
use direction_table::{ByColumns, TableForm, read_part_table, told_note};
use station_book::Surveyed;
use station_compare::CompareFault;
use std::alloc::{AllocError, Global};

/// What a note begins with.
const NOTE: &[u8] = b"note: ";

/// What a line has behind `note: `, where it begins so.
fn behind_note(line: &[u8]) -> &[u8]
    ensures { result.now ≡ spec.noted line.now }
{
    if line.starts_with(NOTE) {
        &line[NOTE.len()..]
    } else {
        line
    }
}

/// A line with the name of the station in it.
fn line_of(alloc: Global, name: Name, line: &[u8]) -> Result<Vec<u8>, AllocError>
    ensures { IfOk result (λ named. named.items ≡ spec.line_of name line.now) }
{
    let mut named = Vec::new(alloc);
    named.extend_from_slice(b"note: station ")?;
    named.extend_from_slice(name.bytes())?;
    named.extend_from_slice(b": ")?;
    named.extend_from_slice(behind_note(line))?;
    Ok(named)
}

/// A line that is told of the part of the station of this name; of no byte nothing.
#[tactic(auto, using(crate::proofs::NoteLaws::named_none, crate::proofs::NoteLaws::named_some))]
fn named_line(alloc: Global, name: Name, line: &[u8]) -> Result<Vec<u8>, AllocError>
    ensures { IfOk result (λ named. named.items ≡ spec.named_line name line.now) }
{
    if line.is_empty() {
        return Ok(Vec::new(alloc));
    }
    line_of(alloc, name, line)
}

/// The line of the columns by which a part was read, with the name of its station, by the columns of
/// the whole table.
fn named_columns(alloc: Global, name: Name, by: Option<ByColumns>) -> Result<Vec<u8>, AllocError>
    ensures { IfOk result (λ note. note.items ≡ spec.named_columns name by) }
{
    named_line(alloc, name, &told_note(alloc, read_in_whole(by))?)
}

/// The notes of a part with the name of its station: that of the columns by which it was read, and
/// what stands behind that in the note that it has alone.
fn named_notes(
    alloc: Global,
    name: Name,
    by: Option<ByColumns>,
    own: &[u8],
) -> Result<Vec<u8>, AllocError>
    requires { length (told_note by) ≤ length own.now }
    ensures { IfOk result (λ note. note.items ≡ spec.named_columns name by
        ++ spec.named_line name (drop (length (told_note by)) own.now)) }
{
    let told = told_note(alloc, by)?;
    let mut note = named_columns(alloc, name, by)?;
    note.extend_from_slice(&named_line(alloc, name, &own[told.len()..])?)?;
    Ok(note)
}

/// The note of a part with the name of its station, of the note that it has alone.
pub(crate) fn note_in_whole(
    alloc: Global,
    form: TableForm,
    surveyed: &Surveyed,
    part: &[u8],
    own: Vec<u8>,
) -> Result<Vec<u8>, CompareFault>
    requires { IsNote form surveyed.now.station part.now own.items }
    ensures note { IfOk result (λ note.
        spec.IsNoteOf form surveyed.now part.now note.items) }
    // Whichever of them is asked for, nothing is answered of a part that is no table.
    ensures compared { IfErr result (λ fault. (residual : ℕ)
        → HasNoAnswerOf form surveyed.now.station residual part.now fault) }
    ensures differs { IfErr result (λ fault. (residual : ℕ)
        → HasNoDifferences form surveyed.now.station residual part.now fault) }
{
    // Most parts have two columns, and agree: then none is read twice.
    if own.is_empty() {
        return Ok(own);
    }
    let station = surveyed.station();
    let read = read_part_table(alloc, form, station.targets(), part)?;
    Ok(named_notes(alloc, station.name(), read.by_columns, &own)?)
}
