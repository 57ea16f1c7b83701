//! Where a numbered line of a field file stands.

ghost use Rattle.std.specs.Prelude.{◌≡◌, ◌<◌, ◌≤◌, ◌-◌, IfNone, IfSome, drop, length, slice_index};
ghost use Rattle.std.specs.Prelude.{take, true};
ghost use Rattle.gsi_file.specs.Parts.{HasNoEnd, is_line_end};
ghost use Rattle.refusal_places.specs.Lines.{HasNoLine, IsLineAt};

use crate::span::Span;
use gsi_file::{CARRIAGE_RETURN, LINE_FEED, is_blank};
use memchr::memchr2;

/// Where the part of a file ends that begins here: at the byte that ends it, or with the file.
fn part_end(bytes: &[u8], first: usize) -> usize
    requires { first ≤ length bytes.now }
    ensures within { (first ≤ result) × (result ≤ length bytes.now) }
    ensures plain { HasNoEnd (take (result - first) (drop first bytes.now)) }
    ensures end { result < length bytes.now → is_line_end (slice_index bytes.now result) ≡ true }
{
    match memchr2(LINE_FEED, CARRIAGE_RETURN, &bytes[first..]) {
        Some(after) => first + after,
        None => bytes.len(),
    }
}

/// Where the line of this number stands in a field file, as refusals count lines: from 1, without
/// lines of blanks. No line has number 0.
pub fn line_span(bytes: &[u8], number: u64) -> Option<Span>
    ensures line { IfSome result (IsLineAt bytes.now number) }
    ensures none { IfNone result (HasNoLine bytes.now number) }
{
    if number == 0 {
        return None;
    }
    let mut first = 0;
    let mut left = number;
    'parts: loop {
        let end = part_end(bytes, first);
        if !is_blank(&bytes[first..end]) {
            if left == 1 {
                return Some(Span { first, end });
            }
            left -= 1;
        }
        if end == bytes.len() {
            return None;
        }
        first = end + 1;
    }
}
