//! What a search for the word of an index finds.

ghost use Rattle.std.specs.Prelude.{◌≡◌, ◌+◌, List, ℕ, Some, take, slice_get};
ghost use Rattle.gsi_word.specs.Words.{GsiWord};
ghost use Rattle.gsi_word.specs.FoundWords.{found};

use crate::word::Word;

/// The words of one index in a block.
#[derive(Debug, Drop)]
pub enum Found<'a> {
    /// No word has the index.
    Absent,
    /// One word has it, this one.
    One(Word<'a>),
    /// Two words or more have it.
    Twice,
}

impl<'a> Found<'a> {
    /// Counts one word more, if it has the index.
    pub(crate) fn count(&mut self, index: u8, word: &Word<'a>)
        ensures { (words : List GsiWord) (i : ℕ) → self.old ≡ found index (take i words)
            → slice_get words i ≡ Some word.now → self.new ≡ found index (take (i + 1) words) }
    {
        if word.index() == index {
            *self = match self {
                Found::Absent => Found::One(Word { bytes: word.bytes }),
                _ => Found::Twice,
            };
        }
    }
}
