//! The rows of a sheet or a table, one by one: where each stands. No byte of them is kept.

ghost use Rattle.std.specs.Prelude.{◌≡◌, ◌≤◌, length};
ghost use Rattle.refusal_places.specs.Rows.{mark_size};

use crate::span::Span;
use row_forms::{Place, Step, is_in_row, step_at, without_mark};

/// How many bytes of a text are a byte order mark at its start.
#[tactic(auto, using(crate::proofs::RowWalks::mark_short))]
fn mark_size(text: &[u8]) -> usize
    ensures value { result ≡ mark_size text.now }
    ensures within { result ≤ length text.now }
{
    text.len() - without_mark(text).len()
}

/// The rows of a text that are left to be found.
#[derive(Clone, Copy)]
pub(crate) struct Rows<'a> {
    bytes: &'a [u8],
    separator: u8,
    /// The place from which on they are looked for.
    at: usize,
    ghost inside: { at ≤ length bytes.now },
}

impl<'a> Rows<'a> {
    ghost use Rattle.std.specs.Prelude.{◌≡◌, ◌<◌, IfSome, length};
    ghost use Rattle.refusal_places.specs.Lines.{IsWithin};
    ghost use Rattle.refusal_places.specs.RowsLeft as spec;
    ghost use Rattle.refusal_places.specs.Rows.{row_spans};

    /// All rows of a text whose fields are separated so.
    #[tactic(auto, using(crate::proofs::RowWalks::after_mark))]
    pub(crate) fn of(bytes: &'a [u8], separator: u8) -> Rows<'a>
        ensures left { spec.spans_left result ≡ row_spans separator bytes.now }
        ensures bytes { result.bytes.now ≡ bytes.now }
    {
        Rows {
            bytes,
            separator,
            at: mark_size(bytes),
        }
    }

    /// Where the next row stands.
    #[tactic(auto, using(crate::proofs::RowWalks::byte_by_byte))]
    pub(crate) fn next(&mut self) -> Option<Span>
        ensures row { spec.GivesRow (spec.spans_left self.old) result (spec.spans_left self.new) }
        ensures within { IfSome result (IsWithin (length self.old.bytes.now)) }
        ensures bytes { self.new.bytes.now ≡ self.old.bytes.now }
        ensures shorter { IfSome result (λ _. self.old.at < self.new.at) }
    {
        let mut first = self.at;
        let mut place = Place::RowStart;
        for at in self.at..self.bytes.len() {
            match step_at(place, self.separator, self.bytes[at]) {
                Step::Skip(next) | Step::Keep(next) => {
                    place = next;
                    if !is_in_row(next) {
                        first = at + 1;
                    }
                }
                Step::EndField => place = Place::FieldStart,
                Step::EndRow => {
                    self.at = at + 1;
                    return Some(Span { first, end: at });
                }
            }
        }
        let end = self.bytes.len();
        self.at = end;
        if is_in_row(place) {
            Some(Span { first, end })
        } else {
            None
        }
    }
}
