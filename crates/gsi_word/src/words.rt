//! The words of a block, one after another.

use crate::block::Block;
use crate::word::Word;

/// The words of a block, in order. From [`Block::words`].
#[derive(Drop)]
pub struct Words<'a> {
    pub(crate) block: Block<'a>,
    /// How many words came.
    pub(crate) place: usize,
}

impl<'a> Iterator for Words<'a> {
    ghost use Rattle.std.specs.Iterator.{YieldsFirst, item_count};
    ghost use Rattle.gsi_word.specs.BlockViews.{words_left};

    type Item = Word<'a>;

    ghost next_gives = { YieldsFirst words_left };

    ghost remaining = { item_count words_left };

    fn next(&mut self) -> Option<Word<'a>> {
        if self.place < self.block.count {
            let word = self.block.word_within(self.place);
            self.place += 1;
            Some(word)
        } else {
            None
        }
    }
}
