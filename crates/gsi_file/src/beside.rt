//! How the lines beside a place of a file end.

ghost use Rattle.std.specs.Prelude.{◌≡◌, slice_index};
ghost use Rattle.std.specs.List.{position};
ghost use Rattle.gsi_file.specs.Beside.{end_bytes, end_from, end_before, end_beside};
ghost use Rattle.gsi_file.specs.Parts.{is_line_end};

use crate::line_end::{CARRIAGE_RETURN, LINE_FEED};
use memchr::memchr2;

/// The bytes that end a line.
#[derive(Clone, Copy, Debug, PartialEq, Eq, Drop)]
pub enum LineEnd {
    /// A line feed.
    LineFeed,
    /// A carriage return.
    CarriageReturn,
    /// A carriage return and a line feed.
    Both,
}

impl LineEnd {
    /// Its bytes.
    pub fn bytes(self) -> &'static [u8]
        ensures { result.now ≡ end_bytes self }
    {
        match self {
            LineEnd::LineFeed => b"\n",
            LineEnd::CarriageReturn => b"\r",
            LineEnd::Both => b"\r\n",
        }
    }
}

/// The byte at a place, or 0 where there is none.
fn byte_at(bytes: &[u8], place: usize) -> u8
    ensures { result ≡ slice_index bytes.now place }
{
    match bytes.get(place) {
        Some(byte) => *byte,
        None => 0,
    }
}

/// The end of a line whose first byte that ends it stands at this place.
fn end_from(bytes: &[u8], first: Option<usize>) -> LineEnd
    ensures { result ≡ end_from bytes.now first }
{
    let Some(at) = first else {
        return LineEnd::LineFeed;
    };
    if byte_at(bytes, at) == LINE_FEED {
        return LineEnd::LineFeed;
    }
    if at < bytes.len() && byte_at(bytes, at + 1) == LINE_FEED {
        LineEnd::Both
    } else {
        LineEnd::CarriageReturn
    }
}

/// The end of the line that ends right before this place.
fn end_before(bytes: &[u8], at: usize) -> LineEnd
    ensures { result ≡ end_before bytes.now at }
{
    if byte_at(bytes, at.saturating_sub(1)) == CARRIAGE_RETURN {
        LineEnd::CarriageReturn
    } else if byte_at(bytes, at.saturating_sub(2)) == CARRIAGE_RETURN {
        LineEnd::Both
    } else {
        LineEnd::LineFeed
    }
}

/// The place of the first byte that ends a line.
#[tactic(auto, using(crate::proofs::FirstEnds::is_position))]
fn first_end(bytes: &[u8]) -> Option<usize>
    ensures { result ≡ position is_line_end bytes.now }
{
    memchr2(LINE_FEED, CARRIAGE_RETURN, bytes)
}

/// How the lines beside a place end at which a line begins: the line before it, or at the beginning of
/// the file its first.
pub fn end_beside(bytes: &[u8], at: usize) -> LineEnd
    ensures { result ≡ end_beside bytes.now at }
{
    if at == 0 {
        end_from(bytes, first_end(bytes))
    } else {
        end_before(bytes, at)
    }
}
