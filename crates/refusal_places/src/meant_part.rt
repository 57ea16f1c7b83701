//! Which part of a line of a field file is meant.

ghost use Rattle.std.specs.Prelude.{◌≡◌, ◌==◌, ◌≤◌, ◌<◌, ◌-◌, IfSome, length};
ghost use Rattle.std.specs.List.{position};
ghost use Rattle.gsi_word.specs.Blocks.{is_starred};
ghost use Rattle.gsi_word.specs.Bytes.{blank};
ghost use Rattle.refusal_places.specs.Lines.{IsWithin, bytes_of};
ghost use Rattle.refusal_places.specs.MeantParts as spec;

use crate::meant::Meant;
use crate::span::Span;
use gsi_word::{GSI_8, GSI_16};

/// What stands between two words.
const BLANK: u8 = b' ';

/// How many bytes of a word stand before its content: its index, its information and its sign.
const BEFORE_CONTENT: usize = 7;

/// Whether the words of a line are those of GSI-16.
fn is_starred(line: &[u8]) -> bool
    ensures { result ≡ is_starred line.now }
{
    line.starts_with(b"*")
}

/// Where the first word of a line begins.
fn first_word(line: &[u8]) -> usize
    ensures { result ≡ spec.first_word line.now }
{
    if is_starred(line) { 1 } else { 0 }
}

/// How many bytes each word of a line has.
fn word_size(line: &[u8]) -> usize
    ensures value { result ≡ spec.word_size line.now }
    ensures small { result ≤ 23 }
{
    if is_starred(line) {
        BEFORE_CONTENT + GSI_16
    } else {
        BEFORE_CONTENT + GSI_8
    }
}

/// The byte of this number of a line.
fn byte_at(line: &[u8], number: u64) -> Option<Span>
    ensures value { result ≡ spec.byte_at line.now number }
    ensures within { IfSome result (IsWithin (length line.now)) }
{
    if number == 0 || number > line.len() as u64 {
        return None;
    }
    let end = number as usize;
    Some(Span {
        first: end - 1,
        end,
    })
}

/// How many bytes of a text stand before its first blank.
fn unbroken(text: &[u8]) -> usize
    ensures value { result ≡ spec.unbroken text.now }
    ensures within { result ≤ length text.now }
{
    match first_blank(text) {
        Some(at) => at,
        None => text.len(),
    }
}

/// The place of the first blank.
fn first_blank(text: &[u8]) -> Option<usize>
    ensures { result ≡ position (λ b. b == blank) text.now }
{
    text.iter().position(|byte| *byte == BLANK)
}

/// Where the word of this number of a line begins, if a byte stands there.
fn word_begin(line: &[u8], number: u64) -> Option<usize>
    ensures value { result ≡ spec.begin_at line.now number }
    ensures within { IfSome result (λ begin. begin < length line.now) }
{
    let before = number.checked_sub(1)?;
    let bytes = before.checked_mul(word_size(line) as u64 + 1)?;
    let begin = bytes.checked_add(first_word(line) as u64)?;
    if begin < line.len() as u64 {
        Some(begin as usize)
    } else {
        None
    }
}

/// What stands where the word of this number would begin.
fn word_at(line: &[u8], number: u64) -> Option<Span>
    ensures value { result ≡ spec.word_at line.now number }
    ensures within { IfSome result (IsWithin (length line.now)) }
{
    let first = word_begin(line, number)?;
    Some(Span {
        first,
        end: first + 1 + unbroken(&line[first + 1..]),
    })
}

/// The first word of this index.
#[tactic(auto, using(crate::proofs::MeantWords::starts))]
fn word_of(line: &[u8], index: u8) -> Option<Span>
    ensures word { spec.IsWordOf line.now index result }
    ensures within { IfSome result (IsWithin (length line.now)) }
{
    let size = word_size(line);
    let mut first = first_word(line);
    'words: while first + size <= line.len() {
        let end = first + size;
        if line[first] == b'0' + index / 10 && line[first + 1] == b'0' + index % 10 {
            return Some(Span { first, end });
        }
        first = end + 1;
    }
    None
}

/// The part of a line that is meant, if it has one.
fn part_in(line: &[u8], meant: Meant) -> Option<Span>
    ensures part { spec.IsMeantIn line.now meant result }
    ensures within { IfSome result (IsWithin (length line.now)) }
{
    match meant {
        Meant::Byte(number) => byte_at(line, number),
        Meant::Word(number) => word_at(line, number),
        Meant::Index(index) => word_of(line, index),
    }
}

/// A part of what stands here as a part of the file; without one all of it.
fn within(span: Span, part: Option<Span>) -> Span
    requires ordered { span.first ≤ span.end }
    requires inside { IfSome part (IsWithin (span.end - span.first)) }
    ensures { result ≡ spec.within span part }
{
    match part {
        Some(part) => Span {
            first: span.first + part.first,
            end: span.first + part.end,
        },
        None => span,
    }
}

/// Of a line of a field file that stands here the part that is meant.
pub(crate) fn meant_of(field: &[u8], span: Span, meant: Option<Meant>) -> Span
    requires { IsWithin (length field.now) span }
    ensures { spec.IsMeantOf (bytes_of field.now span) span meant result }
{
    match meant {
        Some(meant) => within(span, part_in(&field[span.first..span.end], meant)),
        None => span,
    }
}
