//! Where the first part of some bytes ends, with a short way for readings as most are written.

ghost use Rattle.std.specs.Prelude.{◌≡◌, ◌<◌, ◌≤◌, ◌+◌, IfNone, IfSome, length, slice_index, take};
ghost use Rattle.std.specs.Prelude.{true};
ghost use Rattle.gsi_word.specs.PlainLines.{is_plain_reading};
ghost use Rattle.gsi_file.specs.declared.bounds.TheConstants.{LONGEST_LINE};
ghost use Rattle.gsi_file.specs.Parts.{HasNoEnd, is_line_end};
ghost use Rattle.gsi_file.specs.PartEnds.{IsPartEnd};

use crate::bounds::LONGEST_LINE;
use crate::line_end::{is_line_end, line_end};
use gsi_word::steps::{PLAIN_LENGTH, WIDE_LENGTH, WORD_LENGTH, is_plain_reading};

/// What was found of the bytes of a part.
#[derive(Clone, Copy)]
pub(crate) enum Tested {
    /// It is a reading as most are written.
    Plain,
    /// All its bytes are printable.
    Printable,
    /// Nothing.
    No,
}

/// Where a part of some bytes ends.
#[derive(Clone, Copy)]
pub(crate) struct PartEnd {
    /// The place of the byte that ends it.
    pub(crate) place: usize,
    /// What was found of the bytes before it.
    pub(crate) tested: Tested,
}

/// Where a line at the front ends that has so many bytes or one more, and is a reading as most are
/// written; of that many bytes or fewer it answers nothing, for it looks at two places.
#[inline(always)]
fn plain_end_at(bytes: &[u8], size: usize) -> Option<usize>
    requires { size ≤ LONGEST_LINE + 16 }
    ensures { IfSome result (λ place. (place < length bytes.now)
        × ((is_line_end (slice_index bytes.now place) ≡ true)
        × (is_plain_reading (take place bytes.now) ≡ true))) }
{
    if bytes.len() <= size + 1 {
        return None;
    }
    let place = if is_line_end(bytes[size]) {
        size
    } else {
        size + 1
    };
    if is_line_end(bytes[place]) && is_plain_reading(&bytes[..place]) {
        Some(place)
    } else {
        None
    }
}

/// Where the words end of a line at the front that has three words of GSI-8 or more, if it ends
/// with a word or a blank: another place is harmless, for the line is tested up to it.
#[inline(always)]
fn words_end(bytes: &[u8]) -> usize
    ensures { result ≤ LONGEST_LINE + 16 }
{
    let mut end = PLAIN_LENGTH;
    'words: while end < LONGEST_LINE && end + 1 < bytes.len() && bytes[end] == b' ' {
        if is_line_end(bytes[end + 1]) {
            return end;
        }
        end += WORD_LENGTH;
    }
    end
}

/// Whether these bytes begin with the `*` of GSI-16.
fn is_starred(bytes: &[u8]) -> bool {
    match bytes.first() {
        Some(byte) => *byte == b'*',
        None => false,
    }
}

/// Where a line at the front ends that is a reading as most are written.
#[inline(always)]
fn plain_end(bytes: &[u8]) -> Option<usize>
    ensures { IfSome result (λ place. (place < length bytes.now)
        × ((is_line_end (slice_index bytes.now place) ≡ true)
        × (is_plain_reading (take place bytes.now) ≡ true))) }
{
    if let Some(place) = plain_end_at(bytes, PLAIN_LENGTH) {
        return Some(place);
    }
    if is_starred(bytes) {
        return plain_end_at(bytes, WIDE_LENGTH);
    }
    plain_end_at(bytes, words_end(bytes))
}

/// Where the first part of some bytes ends, if a byte ends one.
#[inline(always)]
pub(crate) fn part_end(bytes: &[u8]) -> Option<PartEnd>
    ensures end { IfSome result (IsPartEnd bytes.now) }
    ensures none { IfNone result (HasNoEnd bytes.now) }
{
    if let Some(place) = plain_end(bytes) {
        return Some(PartEnd {
            place,
            tested: Tested::Plain,
        });
    }
    let end = line_end(bytes, 0, bytes.len());
    if end.place == bytes.len() {
        return None;
    }
    let tested = if end.printable {
        Tested::Printable
    } else {
        Tested::No
    };
    Some(PartEnd {
        place: end.place,
        tested,
    })
}
