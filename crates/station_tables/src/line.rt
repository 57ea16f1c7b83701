//! The lines of a table.

ghost use Rattle.std.specs.Prelude.{◌≡◌, ◌≤◌, ◌+◌, IfOk, length};
ghost use Rattle.station_tables.specs.Lines as spec;
ghost use Rattle.station_tables.specs.Lines.{of_lines};

use std::alloc::{AllocError, Global};

/// The most bytes of a table of all stations.
pub const LONGEST_TABLES: usize = 16_777_216;

/// The bytes with which a program may begin a text.
const BYTE_ORDER_MARK: [u8; 3] = [0xef, 0xbb, 0xbf];

/// A text without the byte order mark that it may begin with.
fn without_mark(text: &[u8]) -> &[u8]
    ensures value { result.now ≡ spec.without_mark text.now }
    ensures short { length result.now ≤ length text.now }
{
    if text.starts_with(&BYTE_ORDER_MARK) {
        &text[BYTE_ORDER_MARK.len()..]
    } else {
        text
    }
}

/// The byte of a carriage return.
const CARRIAGE_RETURN: u8 = b'\r';

/// Whether a text begins with a line feed.
fn feeds(text: &[u8]) -> bool
    ensures { result ≡ spec.feeds text.now }
{
    match text {
        [] => false,
        [byte, ..] => *byte == b'\n',
    }
}

/// Whether a line ends with this byte before this text: a line feed, or a carriage return that none
/// follows.
fn ends_line(byte: u8, after: &[u8]) -> bool
    ensures { result ≡ spec.ends_line byte after.now }
{
    byte == b'\n' || (byte == CARRIAGE_RETURN && !feeds(after))
}

/// The lines of a table, each without the byte that ends it; a byte order mark is passed over.
///
/// The only error is that memory was refused.
pub fn lines_of(alloc: Global, table: &[u8]) -> Result<Vec<&[u8]>, AllocError>
    ensures lines { IfOk result (λ lines. of_lines lines.items ≡ spec.lines_of table.now) }
    ensures few { IfOk result (λ lines. length lines.items ≤ length table.now + 1) }
{
    let text = without_mark(table);
    let mut lines = Vec::new(alloc);
    let mut start = 0;
    'bytes: for place in 0..text.len() {
        if ends_line(text[place], &text[place + 1..]) {
            lines.push(&text[start..place])?;
            start = place + 1;
        }
    }
    lines.push(&text[start..])?;
    Ok(lines)
}

/// Whether something stands in a line: more than the carriage return before its line feed.
pub(crate) fn has_text(line: &[u8]) -> bool
    ensures { result ≡ spec.has_text line.now }
{
    match line {
        [] => false,
        [byte] => *byte != CARRIAGE_RETURN,
        _ => true,
    }
}
