//! The first line of what is left of a file.

ghost use Rattle.std.specs.Prelude.{◌≡◌, ◌<◌, ◌≤◌, ◌+◌, ◌-◌, Some, length, take, drop};
ghost use Rattle.std.specs.List.{position};
ghost use Rattle.gsi_file.specs.Beside.{end_bytes, end_from};
ghost use Rattle.gsi_file.specs.Parts.{is_line_end};
ghost use Rattle.changed_lines.specs.FirstLines.{IsFirstLine};

use gsi_file::{CARRIAGE_RETURN, LINE_FEED};
use memchr::memchr2;

/// A line, and what comes after it.
#[derive(Clone, Copy)]
pub(crate) struct FirstLine<'a> {
    /// Its bytes before its end.
    pub(crate) text: &'a [u8],
    /// The bytes that end it: none where the file ends.
    pub(crate) end: &'a [u8],
    /// Both.
    pub(crate) whole: &'a [u8],
    /// What comes after it.
    pub(crate) after: &'a [u8],
}

/// The place of the first byte that ends a line.
#[tactic(auto, using(gsi_file::proofs::FirstEnds::is_position))]
fn first_end(bytes: &[u8]) -> Option<usize>
    ensures { result ≡ position is_line_end bytes.now }
{
    memchr2(LINE_FEED, CARRIAGE_RETURN, bytes)
}

/// How many bytes end a line whose first byte that ends it stands at this place: a carriage return
/// and a line feed end it together.
fn end_length(bytes: &[u8], at: usize) -> usize
    requires { at < length bytes.now }
    ensures value { result ≡ length (end_bytes (end_from bytes.now (Some at))) }
    ensures within { at + result ≤ length bytes.now }
{
    if bytes[at] != LINE_FEED && at + 1 < bytes.len() && bytes[at + 1] == LINE_FEED {
        2
    } else {
        1
    }
}

/// The bytes cut at two places.
fn cut(bytes: &[u8], at: usize, next: usize) -> FirstLine<'_>
    requires { (at ≤ next) × (next ≤ length bytes.now) }
    ensures text { result.text.now ≡ take at bytes.now }
    ensures end { result.end.now ≡ take (next - at) (drop at bytes.now) }
    ensures whole { result.whole.now ≡ take next bytes.now }
    ensures after { result.after.now ≡ drop next bytes.now }
{
    FirstLine {
        text: &bytes[..at],
        end: &bytes[at..next],
        whole: &bytes[..next],
        after: &bytes[next..],
    }
}

/// The first line of some bytes, of which there is one at least.
pub(crate) fn first_line(bytes: &[u8]) -> FirstLine<'_>
    requires { 0 < length bytes.now }
    ensures { IsFirstLine bytes.now result }
{
    match first_end(bytes) {
        Some(at) => cut(bytes, at, at + end_length(bytes, at)),
        None => cut(bytes, bytes.len(), bytes.len()),
    }
}
