//! A code line that is put in.

ghost use Rattle.std.specs.Prelude.{◌≡◌, ◌<◌, ◌≤◌, ◌+◌, ◌-◌, ◌++◌, ◌∷◌, length, replicate};
ghost use Rattle.arrayvec.specs.ArrayVec.{array_vec_len};
ghost use Rattle.gsi_word.specs.declared.index.TheConstants.{CODE_NUMBER, CODE_INFORMATION};
ghost use Rattle.gsi_word.specs.declared.word.TheConstants.{GSI_16};
ghost use Rattle.gsi_word.specs.Bytes.{blank, zero_digit};
ghost use Rattle.gsi_word.specs.Words.{spelled};
ghost use Rattle.set_marks.specs.Marks.{width_of, word_of, digits, HasRoom, line_of, words_text};

use adjust_kernel::Name;
use arrayvec::ArrayVec;
use gsi_file::LineEnd;
use gsi_word::{GSI_8, GSI_16};

/// What a code line says.
#[derive(Clone, Copy, Debug, Drop)]
pub enum Code {
    /// Code 10: a station of this name begins.
    Station(Name),
    /// Code 20: its set of this number begins.
    Set(u8),
    /// Code 30: the set ends.
    Close,
}

/// A code line, and where it is put in.
#[derive(Clone, Copy, Debug, Drop)]
pub struct Mark {
    /// The place of the byte before which it stands.
    pub at: usize,
    /// Whether it is GSI-16.
    pub wide: bool,
    /// How it ends.
    pub line_end: LineEnd,
    /// What it says.
    pub code: Code,
}

/// A code line, and the block before which it is put in.
#[derive(Clone, Copy, Debug, Drop)]
pub struct BlockMark {
    /// The number of the block, from 1.
    pub block: u32,
    /// Whether it is GSI-16.
    pub wide: bool,
    /// What it says.
    pub code: Code,
}

/// Bytes of a code word, at most: an index of 2, an information of 4, a sign, and a content.
const LONGEST_CODE_WORD: usize = 2 + 4 + 1 + GSI_16;

/// Bytes of the words of a code line, at most: two, and a blank.
const LONGEST_CODE_WORDS: usize = 2 * LONGEST_CODE_WORD + 1;

/// Bytes of a code line, at most: the `*`, its words, and its end.
pub const LONGEST_CODE_LINE: usize = LONGEST_CODE_WORDS + 3;

/// The bytes of a code line, in no memory but its own.
pub type CodeLine = ArrayVec<u8, LONGEST_CODE_LINE>;

const ZEROS: [u8; GSI_16] = [b'0'; GSI_16];

/// How many bytes the content of each word of a line has.
pub(crate) fn width(wide: bool) -> usize
    ensures { result ≡ width_of wide }
{
    if wide { GSI_16 } else { GSI_8 }
}

/// Zeros, no more than a content of GSI-16 has bytes.
fn zeros(count: usize) -> &'static [u8]
    requires { count ≤ GSI_16 }
    ensures { result.now ≡ replicate count zero_digit }
{
    &ZEROS[..count]
}

/// Adds bytes to a code line that has room for them.
fn add(line: &mut CodeLine, bytes: &[u8])
    requires { array_vec_len line.old + length bytes.now ≤ LONGEST_CODE_LINE }
    ensures items { line.new.items ≡ line.old.items ++ bytes.now }
    ensures len { array_vec_len line.new ≡ array_vec_len line.old + length bytes.now }
{
    line.try_extend_from_slice(bytes).unwrap();
}

/// Adds a word of these first bytes, whose content is the name, filled with zeros.
fn add_word(line: &mut CodeLine, front: &[u8], wide: bool, name: &[u8])
    requires name { length name.now ≤ width_of wide }
    requires room { array_vec_len line.old + length front.now + GSI_16 ≤ LONGEST_CODE_LINE }
    ensures items { line.new.items ≡ line.old.items
        ++ (front.now ++ (replicate (width_of wide - length name.now) zero_digit ++ name.now)) }
    ensures len { array_vec_len line.new
        ≤ array_vec_len line.old + length front.now + GSI_16 }
{
    add(line, front);
    add(line, zeros(width(wide) - name.len()));
    add(line, name);
}

/// Adds a code word: the number of the code, filled with zeros.
fn add_code(line: &mut CodeLine, wide: bool, code: &[u8])
    requires code { length code.now ≡ 2 }
    requires room { array_vec_len line.old + LONGEST_CODE_WORD ≤ LONGEST_CODE_LINE }
    ensures items { line.new.items
        ≡ line.old.items ++ spelled (word_of (width_of wide) CODE_NUMBER code.now) }
    ensures len { array_vec_len line.new ≤ array_vec_len line.old + LONGEST_CODE_WORD }
{
    add_word(line, b"41....+", wide, code);
}

/// Adds a blank and a word of first information.
fn add_information(line: &mut CodeLine, wide: bool, name: &[u8])
    requires name { length name.now ≤ width_of wide }
    requires room { array_vec_len line.old + 1 + LONGEST_CODE_WORD ≤ LONGEST_CODE_LINE }
    ensures items { line.new.items
        ≡ line.old.items ++ blank ∷ spelled (word_of (width_of wide) CODE_INFORMATION name.now) }
    ensures len { array_vec_len line.new ≤ array_vec_len line.old + 1 + LONGEST_CODE_WORD }
{
    add_word(line, b" 42....+", wide, name);
}

/// The two digits of a number.
fn digits(number: u8) -> [u8; 2]
    requires { number < 100 }
    ensures { result ≡ digits number }
{
    [b'0' + number / 10, b'0' + number % 10]
}

/// Adds the words of a code line.
fn add_words(line: &mut CodeLine, wide: bool, code: &Code)
    requires code { HasRoom wide code.now }
    requires room { array_vec_len line.old + LONGEST_CODE_WORDS ≤ LONGEST_CODE_LINE }
    ensures items { line.new.items ≡ line.old.items ++ words_text wide code.now }
    ensures len { array_vec_len line.new ≤ array_vec_len line.old + LONGEST_CODE_WORDS }
{
    match code {
        Code::Station(name) => {
            add_code(line, wide, b"10");
            add_information(line, wide, name.bytes());
        }
        Code::Set(number) => {
            add_code(line, wide, b"20");
            add_information(line, wide, &digits(*number));
        }
        Code::Close => add_code(line, wide, b"30"),
    }
}

/// A code line, with its end.
pub fn code_line(mark: &Mark) -> CodeLine
    requires { HasRoom mark.now.wide mark.now.code }
    ensures { result.items ≡ line_of mark.now }
{
    let mut line = CodeLine::new();
    if mark.wide {
        add(&mut line, b"*");
    }
    add_words(&mut line, mark.wide, &mark.code);
    add(&mut line, mark.line_end.bytes());
    line
}
