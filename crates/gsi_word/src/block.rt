//! A line that is a block of words.

ghost use Rattle.gsi_word.specs.Layout.{KeepsWords};

use crate::found::Found;
use crate::word::{CONTENT, Word};
use crate::words::Words;

/// A block: a line of at least one word, of which the first is a point number or a code number.
#[derive(Clone, Copy, Debug)]
pub struct Block<'a> {
    /// The line, without the `*` before the words.
    pub(crate) bytes: &'a [u8],
    /// How many bytes the content of each word has.
    pub(crate) width: usize,
    /// How many words there are.
    pub(crate) count: usize,
    ghost kept: { KeepsWords width bytes.now count },
}

impl<'a> Block<'a> {
    ghost use Rattle.std.specs.Prelude.{◌≡◌, ◌<◌, ◌≤◌, length, Some, IfSome, slice_get, ◌⊎◌};
    ghost use Rattle.gsi_word.specs.Words.{IsWord};
    ghost use Rattle.gsi_word.specs.BlockViews.{block_of, words_left};
    ghost use Rattle.gsi_word.specs.FoundWords.{found};
    ghost use Rattle.gsi_word.specs.declared.found.Found.TheVariants.{One};
    ghost use Rattle.gsi_word.specs.declared.word.TheConstants.{GSI_8, GSI_16};

    /// How many bytes the content of each word has: 8, or 16 in a line that begins with `*`.
    pub fn width(&self) -> u8
        ensures value { result ≡ (block_of self.now).width }
        ensures known { (result ≡ GSI_8) ⊎ (result ≡ GSI_16) }
    {
        self.width as u8
    }

    /// How many words there are, at least one.
    #[tactic(auto, using(crate::proofs::RunLaws::length_words_from))]
    pub fn len(&self) -> usize
        ensures value { result ≡ length (block_of self.now).words }
        ensures some_word { 0 < result }
    {
        self.count
    }

    /// The word at a place, from 0.
    pub fn word(&self, i: usize) -> Option<Word<'a>>
        ensures value { result ≡ slice_get (block_of self.now).words i }
        ensures well_formed { IfSome result (IsWord (block_of self.now).width) }
    {
        if i < self.count {
            Some(self.word_within(i))
        } else {
            None
        }
    }

    /// The first word.
    pub fn first(&self) -> Word<'a>
        ensures value { slice_get (block_of self.now).words 0 ≡ Some result }
        ensures well_formed { IsWord (block_of self.now).width result }
    {
        self.word_within(0)
    }

    /// The words, in order.
    pub fn words(&self) -> Words<'a>
        ensures { words_left result ≡ (block_of self.now).words }
    {
        Words {
            block: *self,
            place: 0,
        }
    }

    /// The word at a place that one has.
    pub(crate) fn word_within(&self, i: usize) -> Word<'a>
        requires { i < self.now.count }
        ensures value { slice_get (block_of self.now).words i ≡ Some result }
        ensures well_formed { IsWord (block_of self.now).width result }
    {
        let size = CONTENT + self.width;
        let start = (size + 1) * i;
        Word {
            bytes: &self.bytes[start..start + size],
        }
    }

    /// The word of this index, where there is just one.
    pub fn find(&self, index: u8) -> Found<'a>
        ensures { result ≡ found index (block_of self.now).words }
    {
        let mut sought = Found::Absent;
        let mut i = 0;
        while let Some(word) = self.word(i) {
            sought.count(index, &word);
            i += 1;
        }
        sought
    }

    /// The word of each of two indices, where there is just one.
    #[inline(always)]
    pub fn find_two(&self, first: u8, second: u8) -> (Found<'a>, Found<'a>)
        ensures first { result.0 ≡ found first (block_of self.now).words }
        ensures second { result.1 ≡ found second (block_of self.now).words }
    {
        match self.second_and_third(first, second) {
            Some((one, other)) => (Found::One(one), Found::One(other)),
            None => self.search_two(first, second),
        }
    }

    /// The second word and the third, where there are three words, and the first index is of the
    /// second alone and the second index of the third alone: so a reading of a direction and a
    /// zenith angle is written.
    #[inline(always)]
    fn second_and_third(&self, first: u8, second: u8) -> Option<(Word<'a>, Word<'a>)>
        ensures first { IfSome result (λ r. One r.0 ≡ found first (block_of self.now).words) }
        ensures second { IfSome result (λ r. One r.1 ≡ found second (block_of self.now).words) }
    {
        if self.count != 3 || first == second {
            return None;
        }
        let begin = self.word_within(0).index();
        let one = self.word_within(1);
        let other = self.word_within(2);
        if begin == first || begin == second || one.index() != first || other.index() != second {
            return None;
        }
        Some((one, other))
    }

    /// What `find_two` answers, of any block, in one pass.
    #[inline(always)]
    fn search_two(&self, first: u8, second: u8) -> (Found<'a>, Found<'a>)
        ensures first { result.0 ≡ found first (block_of self.now).words }
        ensures second { result.1 ≡ found second (block_of self.now).words }
    {
        let mut of_first = Found::Absent;
        let mut of_second = Found::Absent;
        let mut i = 0;
        while let Some(word) = self.word(i) {
            of_first.count(first, &word);
            of_second.count(second, &word);
            i += 1;
        }
        (of_first, of_second)
    }
}
