//! Reading a line: is it a block, or what is its first fault?
//!
//! A line is looked at twice, from left to right. First all its bytes: whether each may stand in a
//! line. Then the words: of printable bytes only the two digits, the information, the sign and the
//! byte after the word are left to be tested, and the content is not looked at again.

ghost use Rattle.std.specs.Prelude.{◌≡◌, ◌≢◌, ◌↔◌, ◌⊎◌, ◌≤◌, ◌+◌, length, drop, replicate, All};
ghost use Rattle.std.specs.Prelude.{Any, IsTrue, IfOk, IfErr};
ghost use Rattle.std.specs.Bool.{OnTrue, OnFalse};
ghost use Rattle.gsi_word.specs.Bytes.{blank};
ghost use Rattle.gsi_word.specs.Words.{IsLineByte};
ghost use Rattle.gsi_word.specs.Blocks.{is_starred, width_of, word_bytes, AreWords, IsBlock};
ghost use Rattle.gsi_word.specs.LineFaults.{IsWordFault, IsLineFault};
ghost use Rattle.gsi_word.specs.Layout.{begins_word, is_width, words_from, KeepsWords};
ghost use Rattle.gsi_word.specs.BlockViews.{block_of};
ghost use Rattle.gsi_word.specs.Shapes.{shaped, IsShape};
ghost use Rattle.gsi_word.specs.declared.index.TheConstants.{CODE_NUMBER, POINT_NUMBER};

use crate::block::Block;
use crate::index::{CODE_NUMBER, POINT_NUMBER};
use crate::line_fault::LineFault;
use crate::plain::plain_shape;
use crate::printable::check_printable;
use crate::shape::Shape;
use crate::word::{CONTENT, GSI_8, GSI_16, INFO, SIGN, index_of};

/// What a GSI-16 line begins with.
const STAR: &[u8] = b"*";

/// The block that a line is, or the line's first fault.
///
/// The line comes without its end, a carriage return or a line feed.
pub fn read_block(line: &[u8]) -> Result<Block<'_>, LineFault>
    ensures block { IfOk result (λ b. IsBlock line.now (block_of b)) }
    ensures fault { IfErr result (IsLineFault line.now) }
{
    let shape = read_shape(line)?;
    Ok(block_in(line, shape))
}

/// The shape of the block that a line is, or the line's first fault.
#[inline(always)]
fn read_shape(line: &[u8]) -> Result<Shape, LineFault>
    ensures shape { IfOk result (λ s. IsShape s line.now) }
    ensures fault { IfErr result (IsLineFault line.now) }
{
    if let Err(at) = check_printable(line) {
        return Err(LineFault::Byte(at));
    }
    read_words(line)
}

/// The shape of the block that a line is, or the line's first fault, where all its bytes are known
/// to be printable: for a caller that has tested them, and looks at the words later.
///
/// The line comes without its end, as for [`read_block`].
#[inline(always)]
pub fn read_words(line: &[u8]) -> Result<Shape, LineFault>
    requires { All IsLineByte line.now }
    ensures shape { IfOk result (λ s. IsShape s line.now) }
    ensures fault { IfErr result (IsLineFault line.now) }
{
    match plain_shape(line) {
        Some(shape) => Ok(shape),
        None => search_words(line),
    }
}

/// What `read_words` answers, of any line.
// Apart from its caller, so that the way of lines as most readings are written stays small.
#[inline(never)]
fn search_words(line: &[u8]) -> Result<Shape, LineFault>
    requires { All IsLineByte line.now }
    ensures shape { IfOk result (λ s. IsShape s line.now) }
    ensures fault { IfErr result (IsLineFault line.now) }
{
    let bytes = word_bytes(line);
    let width = width_of(line);
    match count_words(bytes, width) {
        Err(nth) => Err(LineFault::Word(nth)),
        Ok(_) if !is_first_index(index_of(bytes)) => Err(LineFault::FirstWord),
        Ok(count) => Ok(Shape { width, count }),
    }
}

/// The block of this shape that a line is.
pub fn block_in(line: &[u8], shape: Shape) -> Block<'_>
    requires { IsShape shape line.now }
    ensures { block_of result ≡ shaped shape line.now }
{
    Block {
        bytes: word_bytes(line),
        width: shape.width,
        count: shape.count,
    }
}

/// Whether the line is GSI-16.
fn is_starred(line: &[u8]) -> bool
    ensures { result ≡ is_starred line.now }
{
    line.starts_with(STAR)
}

/// How many bytes the content of each word of the line has.
fn width_of(line: &[u8]) -> usize
    ensures value { result ≡ width_of line.now }
    ensures known { IsTrue (is_width result) }
{
    if is_starred(line) { GSI_16 } else { GSI_8 }
}

/// The part of the line in which its words stand.
fn word_bytes(line: &[u8]) -> &[u8]
    ensures { result.now ≡ word_bytes line.now }
{
    line.strip_prefix(STAR).unwrap_or(line)
}

/// How many words the bytes are, or the place of the first, from 1, that is none.
#[inline(always)]
fn count_words(bytes: &[u8], width: usize) -> Result<usize, usize>
    requires printable { All IsLineByte bytes.now }
    requires known { IsTrue (is_width width) }
    ensures words { IfOk result (λ n. AreWords width bytes.now (words_from width n bytes.now)) }
    ensures kept { IfOk result (KeepsWords width bytes.now) }
    ensures fault { IfErr result (IsWordFault width bytes.now) }
{
    let mut rest = bytes;
    let mut count = 0;
    'words: while begins_word(rest, width) {
        rest = after_word(rest, width);
        count += 1;
    }
    if count > 0 && is_blank(rest) {
        Ok(count)
    } else {
        Err(count + 1)
    }
}

/// Whether printable bytes begin with a word that ends them or has a blank after it.
#[tactic(auto, unfolding(crate::specs::Layout::begins_word))]
fn begins_word(bytes: &[u8], width: usize) -> bool
    requires { IsTrue (is_width width) }
    ensures test { result ≡ begins_word width bytes.now }
    ensures long { OnTrue result (7 + width ≤ length bytes.now) }
{
    let size = CONTENT + width;
    if bytes.len() < size {
        return false;
    }
    if !bytes[0].is_ascii_digit() || !bytes[1].is_ascii_digit() {
        return false;
    }
    if bytes[INFO..SIGN].contains(&b' ') {
        return false;
    }
    if bytes[SIGN] != b'+' && bytes[SIGN] != b'-' {
        return false;
    }
    bytes.len() == size || bytes[size] == b' '
}

/// What follows the first word and the blank after it.
fn after_word(bytes: &[u8], width: usize) -> &[u8]
    requires { 7 + width ≤ length bytes.now }
    ensures { result.now ≡ drop (8 + width) bytes.now }
{
    let next = CONTENT + width + 1;
    &bytes[next.min(bytes.len())..]
}

/// Whether there are only blanks.
fn is_blank(bytes: &[u8]) -> bool
    ensures blank { OnTrue result (bytes.now ≡ replicate (length bytes.now) blank) }
    ensures ink { OnFalse result (Any (λ b. b ≢ blank) bytes.now) }
{
    bytes.iter().all(|b| *b == b' ')
}

/// Whether a word of this index begins a block: a point number or a code number.
fn is_first_index(index: u8) -> bool
    ensures { IsTrue result ↔ ((index ≡ POINT_NUMBER) ⊎ (index ≡ CODE_NUMBER)) }
{
    index == POINT_NUMBER || index == CODE_NUMBER
}
