//! Where a row of a sheet stands that is counted among those of its kind.

ghost use Rattle.std.specs.Prelude.{◌≡◌};
ghost use Rattle.refusal_places.specs.Kinds as spec;

use crate::row::COMMA;
use crate::rows::Rows;
use crate::span::Span;
use row_forms::{Place, Step, step_at};

/// A row that is counted among those of its kind.
#[derive(Clone, Copy, Debug, PartialEq, Eq)]
pub struct KindRow {
    /// Which of all rows it is, from 1.
    pub row: u64,
    /// Where it stands.
    pub span: Span,
}

/// Whether this is the first field of a row whose fields commas separate.
#[tactic(auto, using(crate::proofs::FirstFields::byte_by_byte))]
fn is_first_field(field: &[u8], row: &[u8]) -> bool
    ensures { result ≡ spec.is_first_field field.now row.now }
{
    let mut left = field;
    let mut place = Place::RowStart;
    for at in 0..row.len() {
        match step_at(place, COMMA, row[at]) {
            Step::Skip(next) => place = next,
            Step::Keep(next) => match left {
                [first, rest @ ..] if row[at] == *first => {
                    left = rest;
                    place = next;
                }
                _ => return false,
            },
            Step::EndField | Step::EndRow => return left.is_empty(),
        }
    }
    left.is_empty()
}

/// Of the rows of a sheet that begin with this field the one of this number, the first of which has
/// number 1.
pub fn row_of_kind(sheet: &[u8], kind: &[u8], number: u64) -> Option<KindRow>
    ensures { result ≡ spec.row_of_kind_at kind.now sheet.now number }
{
    let mut before = number.checked_sub(1)?;
    let mut rows = Rows::of(sheet, COMMA);
    let mut row = 1;
    'rows: while let Some(span) = rows.next() {
        if is_first_field(kind, &sheet[span.first..span.end]) {
            if before == 0 {
                return Some(KindRow { row, span });
            }
            before -= 1;
        }
        row += 1;
    }
    None
}
