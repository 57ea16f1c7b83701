//! Where a row of a sheet or a table stands.

ghost use Rattle.std.specs.Prelude.{◌≡◌, Some, true, IfNone, IfSome, ◌↔◌};
ghost use Rattle.refusal_places.specs.Rows.{IsRowHowever, row_at};
ghost use Rattle.refusal_places.specs.declared.span.Span.{Span};

use crate::rows::Rows;
use crate::span::Span;

/// What separates the fields of a sheet.
pub(crate) const COMMA: u8 = b',';

/// Where the row of this number stands in a text whose fields this byte separates, as refusals count
/// rows: from 1, without lines that have no byte. No row has number 0.
pub fn row_span(bytes: &[u8], separator: u8, number: u64) -> Option<Span>
    ensures { result ≡ row_at separator bytes.now number }
{
    let mut before = number.checked_sub(1)?;
    let mut rows = Rows::of(bytes, separator);
    'rows: while before > 0 {
        rows.next()?;
        before -= 1;
    }
    rows.next()
}

/// Whether the row of this number stands here, where this byte separates the fields.
fn is_row(bytes: &[u8], separator: u8, number: u64, span: Span) -> bool
    ensures row { result ≡ true ↔ (row_at separator bytes.now number ≡ Some span) }
{
    match row_span(bytes, separator, number) {
        Some(other) => other.first == span.first && other.end == span.end,
        None => false,
    }
}

/// Where the row of this number stands in a table, if it stands there whichever of the separators of
/// tables separates its fields: quotes stand for others by one than by another.
pub fn table_row_span(table: &[u8], number: u64) -> Option<Span>
    ensures row { IfSome result (IsRowHowever table.now number) }
    ensures none { IfNone result ((span : Span) → ¬ (IsRowHowever table.now number span)) }
{
    let span = row_span(table, COMMA, number)?;
    if is_row(table, b';', number, span)
        && is_row(table, b'\t', number, span)
        && is_row(table, b' ', number, span)
    {
        Some(span)
    } else {
        None
    }
}
