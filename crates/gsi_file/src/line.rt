//! A numbered line.

use gsi_word::Block;

/// A line of a field file that is a block, and its number.
#[derive(Debug, Drop)]
pub struct Line<'a> {
    /// Which of the file's lines it is, from 1; lines of blanks are not counted.
    pub number: u32,
    /// Its words.
    pub block: Block<'a>,
}
