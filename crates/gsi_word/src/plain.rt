//! Lines as most readings are written: three words with plus signs.
//!
//! What may stand at a place of such a line depends on the place alone. So a few loads tell it,
//! each compared with the lowest and with the highest bytes of its places, and neither the ends of
//! the words nor their parts are looked for.

ghost use Rattle.std.specs.Prelude.{◌≡◌, ◌≤◌, ◌⊎◌, ◌+◌, length, take, drop, true, IfSome};
ghost use Rattle.std.specs.Char.{is_ascii_digit};
ghost use Rattle.std.specs.List.{list_all};
ghost use Rattle.std.specs.Bool.{OnTrue, OnFalse};
ghost use Rattle.gsi_word.specs.Angles.{decimal_value};
ghost use Rattle.gsi_word.specs.Blocks.{GsiBlock, IsBlock};
ghost use Rattle.gsi_word.specs.BlockViews.{block_of};
ghost use Rattle.gsi_word.specs.Shapes.{IsShape};
ghost use Rattle.gsi_word.specs.PlainLines.{are_within, load, is_first, is_later, is_wide_first};
ghost use Rattle.gsi_word.specs.PlainLines.{is_wide_second, is_content, is_plain_length, is_plain};
ghost use Rattle.gsi_word.specs.PlainLines.{is_plain_wide, is_direction, is_zenith};
ghost use Rattle.gsi_word.specs.PlainLines.{is_wide_direction, is_wide_zenith, is_wide_angle};
ghost use Rattle.gsi_word.specs.PlainLines.{is_more, goes_on, begins_reading, is_narrow_reading};
ghost use Rattle.gsi_word.specs.PlainLines.{is_wide_reading};
ghost use Rattle.gsi_word.specs.PlainLines.{is_plain_reading, HasAngle};
ghost use Rattle.gsi_word.specs.declared.index.TheConstants.{HORIZONTAL_DIRECTION};
ghost use Rattle.gsi_word.specs.declared.index.TheConstants.{VERTICAL_ANGLE};

use crate::block::Block;
use crate::decimal::value_of_eight;
use crate::line::block_in;
use crate::printable::LANES;
use crate::shape::Shape;
use crate::word::{GSI_8, GSI_16, is_input_mode};
use std::simd::prelude::*;

/// How many words such a line has.
const WORDS: usize = 3;

/// How many bytes they take in GSI-8, with the blanks between them.
pub const PLAIN_LENGTH: usize = 47;

/// How many bytes each further word takes in GSI-8, with the blank before it.
pub const WORD_LENGTH: usize = 16;

/// How many bytes they take in GSI-16, with the `*` and the blanks between them.
pub const WIDE_LENGTH: usize = 72;

/// Whether each byte of the load at a place lies between the lowest and the highest of its place.
#[inline(always)]
fn is_within(bytes: &[u8], at: usize, lowest: [u8; LANES], highest: [u8; LANES]) -> bool
    requires { at + LANES ≤ length bytes.now }
    ensures { result ≡ are_within lowest highest (load at bytes.now) }
{
    let load = u8x16::from_slice(&bytes[at..]);
    let is_below = load.simd_lt(u8x16::from_array(lowest));
    let is_above = load.simd_gt(u8x16::from_array(highest));
    (is_below | is_above).to_bitmask() == 0
}

/// Whether a point number of GSI-8 and a blank stand first.
#[inline(always)]
fn is_first(line: &[u8]) -> bool
    requires { LANES ≤ length line.now }
    ensures { result ≡ is_first (load 0 line.now) }
{
    is_within(line, 0, *b"11!!!!+         ", *b"11~~~~+~~~~~~~~ ")
}

/// Whether a blank and a word stand there whose index begins with 2 or 3: all of it in GSI-8, its
/// front in GSI-16.
#[inline(always)]
fn is_later(line: &[u8], at: usize) -> bool
    requires { at + LANES ≤ length line.now }
    ensures { result ≡ is_later (load at line.now) }
{
    is_within(line, at, *b" 20!!!!+        ", *b" 39~~~~+~~~~~~~~")
}

/// Whether the front of a point number of GSI-16 stands first, after a `*`.
#[inline(always)]
fn is_wide_first(line: &[u8]) -> bool
    requires { LANES ≤ length line.now }
    ensures { result ≡ is_wide_first (load 0 line.now) }
{
    is_within(line, 0, *b"*11!!!!+        ", *b"*11~~~~+~~~~~~~~")
}

/// Whether the end of a content, a blank, and a word up to its sign stand there, whose index begins
/// with 2 or 3.
#[inline(always)]
fn is_wide_second(line: &[u8], at: usize) -> bool
    requires { at + LANES ≤ length line.now }
    ensures { result ≡ is_wide_second (load at line.now) }
{
    is_within(line, at, *b"         20!!!!+", *b"~~~~~~~~ 39~~~~+")
}

/// Whether the bytes of a content stand there.
#[inline(always)]
fn is_content(line: &[u8], at: usize) -> bool
    requires { at + LANES ≤ length line.now }
    ensures { result ≡ is_content (load at line.now) }
{
    is_within(line, at, *b"                ", *b"~~~~~~~~~~~~~~~~")
}

/// Whether the line has so many bytes, or one more, a blank.
#[inline(always)]
fn is_plain_length(line: &[u8], size: usize) -> bool
    requires { (size ≤ WIDE_LENGTH) ⊎ (size ≤ length line.now) }
    ensures value { result ≡ is_plain_length size line.now }
    ensures long { OnTrue result (size ≤ length line.now) }
{
    line.len() == size || line.len() == size + 1 && line[size] == b' '
}

/// Whether a line is three GSI-8 words with plus signs, a point number and two whose indices begin
/// with 2 or 3, and perhaps a blank.
#[inline(always)]
#[tactic(auto, unfolding(crate::specs::PlainLines::is_plain))]
fn is_plain(line: &[u8]) -> bool
    ensures { result ≡ is_plain line.now }
{
    is_plain_length(line, PLAIN_LENGTH)
        && is_first(line)
        && is_later(line, 15)
        && is_later(line, 31)
}

/// Whether a line is written so in GSI-16.
#[inline(always)]
#[tactic(auto, unfolding(crate::specs::PlainLines::is_plain_wide))]
fn is_plain_wide(line: &[u8]) -> bool
    ensures { result ≡ is_plain_wide line.now }
{
    is_plain_length(line, WIDE_LENGTH)
        && is_wide_first(line)
        && is_wide_second(line, 16)
        && is_content(line, 32)
        && is_later(line, 48)
        && is_content(line, 56)
}

/// Whether a blank and a word 21 stand there, in gon with a plus sign and eight digits, below a
/// full turn.
#[inline(always)]
fn is_direction(line: &[u8], at: usize) -> bool
    requires { at + LANES ≤ length line.now }
    ensures { result ≡ is_direction (load at line.now) }
{
    is_within(line, at, *b" 21!!.2+00000000", *b" 21~~32+39999999")
}

/// Whether a blank and a word 22 stand there, in gon with a plus sign and eight digits, below a
/// full turn.
#[inline(always)]
fn is_zenith(line: &[u8], at: usize) -> bool
    requires { at + LANES ≤ length line.now }
    ensures { result ≡ is_zenith (load at line.now) }
{
    is_within(line, at, *b" 22!!.2+00000000", *b" 22~~32+39999999")
}

/// Whether the end of a content, a blank, and a word 21 up to its sign stand there, in gon with a
/// plus sign.
#[inline(always)]
fn is_wide_direction(line: &[u8], at: usize) -> bool
    requires { at + LANES ≤ length line.now }
    ensures { result ≡ is_wide_direction (load at line.now) }
{
    is_within(line, at, *b"         21!!.2+", *b"~~~~~~~~ 21~~32+")
}

/// Whether a blank and the front of a word 22 stand there, in gon with a plus sign and eight zeros.
#[inline(always)]
fn is_wide_zenith(line: &[u8], at: usize) -> bool
    requires { at + LANES ≤ length line.now }
    ensures { result ≡ is_wide_zenith (load at line.now) }
{
    is_within(line, at, *b" 22!!.2+00000000", *b" 22~~32+00000000")
}

/// Whether an angle's content stands there: eight zeros and eight digits, below a full turn.
#[inline(always)]
fn is_wide_angle(line: &[u8], at: usize) -> bool
    requires { at + LANES ≤ length line.now }
    ensures { result ≡ is_wide_angle (load at line.now) }
{
    is_within(line, at, *b"0000000000000000", *b"0000000039999999")
}

/// Whether a blank and a further word stand there: of GSI-8, with a plus sign and an index that
/// begins with 3, or with 5 to 9.
#[inline(always)]
fn is_more(line: &[u8], at: usize) -> bool
    requires { at + LANES ≤ length line.now }
    ensures { result ≡ is_more at line.now }
{
    is_within(line, at, *b" 30!!!!+        ", *b" 99~~~~+~~~~~~~~") && line[at + 1] != b'4'
}

/// Whether all words after the third are such, and at most one blank comes after them.
#[inline(always)]
#[tactic(auto, unfolding(crate::specs::PlainLines::goes_on))]
fn goes_on(line: &[u8]) -> bool
    requires { PLAIN_LENGTH ≤ length line.now }
    ensures { result ≡ goes_on line.now }
{
    let mut at = PLAIN_LENGTH;
    'words: while at + WORD_LENGTH <= line.len() {
        if !is_more(line, at) {
            return false;
        }
        at += WORD_LENGTH;
    }
    is_plain_length(line, at)
}

/// Whether a line of GSI-8 begins with a point number, a direction and a zenith angle in gon, with
/// plus signs.
#[inline(always)]
#[tactic(auto, unfolding(crate::specs::PlainLines::begins_reading))]
fn begins_reading(line: &[u8]) -> bool
    requires { PLAIN_LENGTH ≤ length line.now }
    ensures { result ≡ begins_reading line.now }
{
    is_first(line)
        && is_direction(line, 15)
        && is_zenith(line, 31)
        && is_input_mode(line[20])
        && is_input_mode(line[36])
}

/// Whether a line of GSI-8 is a point number, a direction and a zenith angle in gon, with plus
/// signs, then perhaps further words, and at most one blank.
#[inline(always)]
#[tactic(auto, unfolding(crate::specs::PlainLines::is_narrow_reading))]
fn is_narrow_reading(line: &[u8]) -> bool
    ensures { result ≡ is_narrow_reading line.now }
{
    line.len() >= PLAIN_LENGTH && begins_reading(line) && goes_on(line)
}

/// Whether a line of GSI-16 is written so.
#[inline(always)]
#[tactic(auto, unfolding(crate::specs::PlainLines::is_wide_reading))]
fn is_wide_reading(line: &[u8]) -> bool
    ensures { result ≡ is_wide_reading line.now }
{
    is_plain_length(line, WIDE_LENGTH)
        && is_wide_first(line)
        && is_wide_direction(line, 16)
        && is_wide_angle(line, 32)
        && is_wide_zenith(line, 48)
        && is_wide_angle(line, 56)
        && is_input_mode(line[29])
        && is_input_mode(line[53])
}

/// Whether a line is a reading as most are written: a point number, a direction and a zenith angle
/// in gon, with plus signs, and at most one blank.
#[inline(always)]
#[tactic(auto, unfolding(crate::specs::PlainLines::is_plain_reading))]
pub fn is_plain_reading(line: &[u8]) -> bool
    ensures { result ≡ is_plain_reading line.now }
{
    is_narrow_reading(line) || is_wide_reading(line)
}

/// Whether such a line is of GSI-16.
#[inline(always)]
fn is_wide(line: &[u8]) -> bool
    requires { is_plain_reading line.now ≡ true }
    ensures narrow { OnFalse result (is_narrow_reading line.now ≡ true) }
    ensures wide { OnTrue result (is_wide_reading line.now ≡ true) }
{
    line[0] == b'*'
}

/// The shape of such a line.
#[inline(always)]
fn reading_shape(line: &[u8]) -> Shape
    requires { is_plain_reading line.now ≡ true }
    ensures { IsShape result line.now }
{
    if is_wide(line) {
        return Shape {
            width: GSI_16,
            count: WORDS,
        };
    }
    Shape {
        width: GSI_8,
        count: WORDS + (line.len() - PLAIN_LENGTH) / WORD_LENGTH,
    }
}

/// The block that such a line is.
#[inline(always)]
pub fn reading_block(line: &[u8]) -> Block<'_>
    requires { is_plain_reading line.now ≡ true }
    ensures { IsBlock line.now (block_of result) }
{
    block_in(line, reading_shape(line))
}

/// The number that the eight digits from a place on write.
#[inline(always)]
fn eight_at(line: &[u8], at: usize) -> u32
    requires room { at + 8 ≤ length line.now }
    requires digits { list_all is_ascii_digit (take 8 (drop at line.now)) ≡ true }
    ensures { result ≡ decimal_value (take 8 (drop at line.now)) }
{
    value_of_eight(&line[at..at + GSI_8])
}

/// The direction and the zenith angle of such a line, in units of 0.00001 gon.
#[inline(always)]
pub fn reading_angles(line: &[u8]) -> (u32, u32)
    requires { is_plain_reading line.now ≡ true }
    ensures hz { (b : GsiBlock) → IsBlock line.now b
        → HasAngle HORIZONTAL_DIRECTION b.words result.0 }
    ensures zenith { (b : GsiBlock) → IsBlock line.now b
        → HasAngle VERTICAL_ANGLE b.words result.1 }
{
    if is_wide(line) {
        (eight_at(line, 40), eight_at(line, 64))
    } else {
        (eight_at(line, 23), eight_at(line, 39))
    }
}

/// The shape of a line that is written as most readings are, in GSI-8 or GSI-16.
#[inline(always)]
pub(crate) fn plain_shape(line: &[u8]) -> Option<Shape>
    ensures { IfSome result (λ s. IsShape s line.now) }
{
    if is_plain(line) {
        return Some(Shape {
            width: GSI_8,
            count: WORDS,
        });
    }
    if is_plain_wide(line) {
        return Some(Shape {
            width: GSI_16,
            count: WORDS,
        });
    }
    None
}
