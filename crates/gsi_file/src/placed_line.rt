//! A numbered line of a file that lies in memory.

ghost use Rattle.std.specs.Prelude.{◌≡◌, ◌≤◌, ◌+◌, length, true};
ghost use Rattle.gsi_word.specs.PlainLines.{is_plain_reading};
ghost use Rattle.gsi_file.specs.declared.bounds.TheConstants.{LONGEST_FILE};

use gsi_word::Block;

/// A line of a field file that is a block, where it lies in memory.
#[derive(Debug, Drop)]
pub struct PlacedLine<'a> {
    /// Which of the file's lines it is, from 1; lines of blanks are not counted.
    pub number: u32,
    /// The place in the file where it begins, from 0.
    pub place: usize,
    /// Its bytes, without what ends it.
    pub bytes: &'a [u8],
    /// Its words.
    pub block: Block<'a>,
    /// Whether it was found to be a reading as most are written.
    pub plain: bool,
    ghost in_file: { place + length bytes.now ≤ LONGEST_FILE },
    ghost is_plain: { plain ≡ true → is_plain_reading bytes.now ≡ true },
}
