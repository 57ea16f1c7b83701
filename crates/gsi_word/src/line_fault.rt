//! Why a line is no block.

use thiserror::Error;

/// The first fault of a line that is no block: bytes are looked at before words, and all words
/// before the first one's index.
#[derive(Clone, Copy, Debug, PartialEq, Eq, Error)]
pub enum LineFault {
    /// The byte at this place, from 1, is no blank and no visible character of ASCII: transfer the
    /// file from the instrument again.
    #[error("byte {0} is no blank and no visible character of ASCII")]
    Byte(usize),
    /// What stands at the place of this word, from 1, is none: it is too short, begins with other
    /// than two digits, has a blank in its information, lacks its sign, or a byte other than a
    /// blank follows it. A line without any word has this fault at word 1. Transfer the file
    /// from the instrument again.
    #[error("word {0} is missing, cut short or not written as GSI")]
    Word(usize),
    /// The first word is neither a point number (11) nor a code number (41): have the instrument
    /// write one of them first.
    #[error("the first word is neither a point number nor a code number")]
    FirstWord,
}
