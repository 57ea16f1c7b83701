//! What the words of a field file say of instrument and time.

ghost use Rattle.std.specs.Prelude.{◌≡◌, ◌∷◌, [], List, ℕ, false};
ghost use Rattle.gsi_file.specs.FileAnswers.{file_answers};
ghost use Rattle.gsi_word.specs.BlockViews.{block_of};
ghost use Rattle.gsi_word.specs.Blocks.{GsiBlock};
ghost use Rattle.instrument_words.specs.Onto.{instrument_onto};
ghost use Rattle.instrument_words.specs.Instrument.{AreBlocksUpTo, instrument_of, instrument_value};

use crate::contents::{Contents, with_block};
use gsi_file::MemoryLines;
use gsi_word::Block;

/// The index of the serial number of the instrument.
pub const SERIAL_NUMBER: u8 = 12;

/// The index of the type of the instrument.
pub const INSTRUMENT_TYPE: u8 = 13;

/// The index of the date.
pub const DATE: u8 = 17;

/// The index of the first form of the time.
pub const TIME_FORMAT_1: u8 = 18;

/// The index of the second form of the time.
pub const TIME_FORMAT_2: u8 = 19;

/// What a field file recorded of instrument and time, of each index that it has words of.
#[derive(Clone, Copy, Debug, Drop)]
pub struct Instrument<'a> {
    /// Words 12: the serial number of the instrument.
    pub serial_number: Option<Contents<'a>>,
    /// Words 13: the type of the instrument.
    pub instrument_type: Option<Contents<'a>>,
    /// Words 17: the date.
    pub date: Option<Contents<'a>>,
    /// Words 18: the first form of the time.
    pub time_format_1: Option<Contents<'a>>,
    /// Words 19: the second form of the time.
    pub time_format_2: Option<Contents<'a>>,
}

/// What no block recorded.
fn nothing() -> Instrument<'static>
    ensures { instrument_value result ≡ instrument_of [] }
{
    Instrument {
        serial_number: None,
        instrument_type: None,
        date: None,
        time_format_1: None,
        time_format_2: None,
    }
}

/// What was recorded, and that of one block more.
fn with_words<'a>(told: Instrument<'a>, block: &Block<'a>) -> Instrument<'a>
    ensures { (more : List GsiBlock) → instrument_onto (instrument_value result) more
        ≡ instrument_onto (instrument_value told.entry) (block_of block.now ∷ more) }
{
    Instrument {
        serial_number: with_block(told.serial_number, SERIAL_NUMBER, block),
        instrument_type: with_block(told.instrument_type, INSTRUMENT_TYPE, block),
        date: with_block(told.date, DATE, block),
        time_format_1: with_block(told.time_format_1, TIME_FORMAT_1, block),
        time_format_2: with_block(told.time_format_2, TIME_FORMAT_2, block),
    }
}

/// What a field file of these bytes recorded, up to its end or to the first fault of its lines: of
/// each index the contents of its words, in the order of the file.
pub fn instrument_in(bytes: &[u8]) -> Instrument<'_>
    ensures { (blocks : List GsiBlock)
        → AreBlocksUpTo (file_answers (record { bytes = bytes.now; fails = false })) blocks
        → instrument_value result ≡ instrument_of blocks }
{
    let mut told = nothing();
    let mut lines = MemoryLines::new(bytes, false);
    'lines: loop {
        match lines.next() {
            Ok(Some(line)) => told = with_words(told, &line.block),
            Ok(None) => return told,
            Err(_) => return told,
        }
    }
}
