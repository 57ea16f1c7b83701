//! Where a refusal stands in the files that it speaks of.

ghost use Rattle.std.specs.Prelude.{◌≡◌, ℕ, IfNone, IfSome, None, length};
ghost use Rattle.refusal_places.specs.Lines.{IsWithin};
ghost use Rattle.refusal_places.specs.MeantParts.{IsMeant};
ghost use Rattle.refusal_places.specs.NamedPlaces.{named_in};
ghost use Rattle.refusal_places.specs.Places.{IsFoundAt, IsPlace, Stands};
ghost use Rattle.refusal_places.specs.declared.named.Named.TheVariants.{Block};

use crate::kind::{KindRow, row_of_kind};
use crate::line::line_span;
use crate::meant::meant_in;
use crate::meant_part::meant_of;
use crate::named::{Named, named_in};
use crate::row::{COMMA, row_span, table_row_span};
use crate::span::Span;

/// What the line of a refusal names, and where that is found.
#[derive(Clone, Copy, Debug, PartialEq, Eq)]
pub struct Place {
    /// What it names.
    pub named: Named,
    /// Where that is found.
    pub found: Found,
    /// Of its bytes those that are meant: of a block the byte or the word that its fault speaks of,
    /// where it has that; else all of them.
    pub meant: Option<Span>,
}

/// Where something is found in a file.
#[derive(Clone, Copy, Debug, PartialEq, Eq)]
pub struct Found {
    /// Which of all rows it is, from 1, where it is counted among those of its kind.
    pub row: Option<u64>,
    /// Its bytes; none of what stands in no file, or is not there.
    pub span: Option<Span>,
}

impl Found {
    /// What is counted among all stands here.
    fn at(span: Option<Span>) -> Found
        ensures row { result.row ≡ None }
        ensures span { result.span ≡ span }
    {
        Found { row: None, span }
    }

    /// A row of a kind.
    fn of_kind(row: Option<KindRow>) -> Found
        ensures { IsFoundAt row result }
    {
        match row {
            Some(KindRow { row, span }) => Found {
                row: Some(row),
                span: Some(span),
            },
            None => Found::at(None),
        }
    }
}

/// What the line of a refusal names, where that stands, in a field file, or in the sheet or the table
/// beside it, and which part of it is meant. Nothing where the line names nothing.
pub fn place_in(line: &[u8], field: &[u8], other: &[u8]) -> Option<Place>
    ensures place { IfSome result (IsPlace line.now field.now other.now) }
    ensures none { IfNone result (named_in line.now ≡ None) }
{
    let named = named_in(line)?;
    let found = found_in(named, field, other);
    let meant = meant_part(line, field, named, found.span);
    Some(Place {
        named,
        found,
        meant,
    })
}

/// Where something stands in a field file, or in the sheet or the table beside it.
fn found_in(named: Named, field: &[u8], other: &[u8]) -> Found
    ensures { Stands named field.now other.now result }
{
    match named {
        Named::Block(number) => Found::at(line_span(field, number)),
        Named::SheetRow(number) => Found::at(row_span(other, COMMA, number)),
        Named::TableRow(number) => Found::at(table_row_span(other, number)),
        Named::Target(number) => Found::of_kind(row_of_kind(other, b"target", number)),
        Named::Set(number) => Found::of_kind(row_of_kind(other, b"set", number)),
        Named::Observation(number) => Found::of_kind(row_of_kind(other, b"obs", number)),
        Named::StationTarget(_) | Named::StationObservation(_) => Found::at(None),
    }
}

/// What is meant of what the line of a refusal names, where that stands here.
fn meant_part(line: &[u8], field: &[u8], named: Named, span: Option<Span>) -> Option<Span>
    requires { (number : ℕ) → named ≡ Block number → IfSome span (IsWithin (length field.now)) }
    ensures { IsMeant line.now field.now named span result }
{
    match named {
        Named::Block(_) => match span {
            Some(span) => Some(meant_of(field, span, meant_in(line))),
            None => None,
        },
        Named::SheetRow(_)
        | Named::TableRow(_)
        | Named::Target(_)
        | Named::Set(_)
        | Named::Observation(_)
        | Named::StationTarget(_)
        | Named::StationObservation(_) => span,
    }
}
