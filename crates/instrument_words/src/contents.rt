//! What the words of one index say.

ghost use Rattle.std.specs.Prelude.{◌≡◌, ◌∷◌, ◌++◌, List, ℕ, Some};
ghost use Rattle.gsi_word.specs.BlockViews.{block_of};
ghost use Rattle.instrument_words.specs.Onto.{onto};
ghost use Rattle.instrument_words.specs.Instrument.{contents_among, contents_value, told_value};

use gsi_word::Block;

/// The contents of the words of one index, of which there are some, as a report tells them.
#[derive(Clone, Copy, Debug, Drop)]
pub struct Contents<'a> {
    /// The first, in the order of the file.
    pub first: &'a [u8],
    /// The last.
    pub last: &'a [u8],
    /// Whether one of them is another than the first.
    pub varies: bool,
}

/// What is told of contents and of one more.
fn with_content<'a>(told: Option<Contents<'a>>, content: &'a [u8]) -> Contents<'a>
    ensures { (more : List (List ℕ)) → onto (Some (contents_value result)) more
        ≡ onto (told_value told.entry) (content.now ∷ more) }
{
    match told {
        Some(told) => Contents {
            first: told.first,
            last: content,
            varies: told.varies || told.first != content,
        },
        None => Contents {
            first: content,
            last: content,
            varies: false,
        },
    }
}

/// What is told of contents and of those of the words of an index in one block more.
pub(crate) fn with_block<'a>(
    told: Option<Contents<'a>>,
    index: u8,
    block: &Block<'a>,
) -> Option<Contents<'a>>
    ensures { (more : List (List ℕ)) → onto (told_value result) more
        ≡ onto (told_value told.entry) (contents_among index (block_of block.now).words ++ more) }
{
    let mut told = told;
    for word in block.words() {
        if word.index() == index {
            told = Some(with_content(told, word.content()));
        }
    }
    told
}
