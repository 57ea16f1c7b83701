//! The lines of a text.

ghost use Rattle.std.specs.Prelude.{◌≡◌, ◌<◌, ◌==◌, IfOk, length, map, slice_index_or};
ghost use Rattle.report_pages.specs.Lines as spec;

use std::alloc::{AllocError, Global};

/// What ends a line.
pub(crate) const LINE_FEED: u8 = b'\n';

/// What each row of a table begins with.
pub(crate) const BLANK: u8 = b' ';

/// The lines of a text, each with the line feed that ends it.
///
/// The only error is that memory was refused.
pub(crate) fn lines_of(alloc: Global, text: &[u8]) -> Result<Vec<&[u8]>, AllocError>
    ensures { IfOk result (λ lines. map (λ line. line.now) lines.items ≡ spec.lines text.now) }
{
    text.split_inclusive(|byte| *byte == LINE_FEED)
        .collect(alloc)
}

/// The line at a place.
pub(crate) fn line_at<'t>(lines: &[&'t [u8]], place: usize) -> &'t [u8]
    requires { place < length lines.now }
    ensures { slice_index_or lines.now place result ≡ result }
{
    lines[place]
}

/// The first byte of a line.
fn first_byte(line: &[u8]) -> u8
    ensures { result ≡ spec.first_byte line.now }
{
    match line.first() {
        Some(byte) => *byte,
        None => LINE_FEED,
    }
}

/// Whether nothing stands in a line.
pub(crate) fn is_empty(line: &[u8]) -> bool
    ensures { result ≡ spec.is_empty line.now }
{
    first_byte(line) == LINE_FEED
}

/// Whether the first of these lines is empty.
pub(crate) fn begins_empty(lines: &[&[u8]]) -> bool
    ensures { result ≡ spec.begins_empty (map (λ line. line.now) lines.now) }
{
    match lines.first() {
        Some(line) => is_empty(line),
        None => false,
    }
}

/// Whether a line begins with a blank.
pub(crate) fn begins_with_blank(line: &[u8]) -> bool
    ensures { result ≡ (spec.first_byte line.now == BLANK) }
{
    first_byte(line) == BLANK
}
