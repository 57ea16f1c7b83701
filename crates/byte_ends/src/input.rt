//! All bytes of a source.

ghost use Rattle.std.specs.Prelude.{◌≡◌, MatchResult};
ghost use Rattle.byte_ends.specs.Came.{BytesCame, ExplainsInput, Leaves, input_left};
ghost use Rattle.byte_ends.specs.Input.{input_within, Ended};
ghost use Rattle.byte_ends.specs.Source.{reader_change};

use crate::source::Source;
use std::alloc::Global;
use thiserror::Error;

/// Bytes that are asked for at a time.
const PIECE: usize = 4_096;

/// Why the bytes of a source aren't had whole.
#[derive(Clone, Copy, Debug, PartialEq, Eq, Error)]
pub enum InputFault {
    /// A read failed: see whether the input can be read to its end.
    #[error("a read failed")]
    Read,

    /// There are more bytes than the limit: see whether this is the input that was meant.
    #[error("the input is too long")]
    TooLong,

    /// There was no memory: run it again with more.
    #[error("out of memory")]
    Memory,
}

/// All bytes of a source, at most so many. The source is asked until it ends or fails, or has given
/// a byte too many. The room for the bytes grows with what comes.
///
/// # Errors
///
/// `Read` where a read failed; `TooLong` where there are more bytes; `Memory` may stand in the
/// place of any answer.
pub fn read_whole<S: Source>(
    alloc: Global,
    source: &mut S,
    most: usize,
) -> Result<Vec<u8>, InputFault>
    ensures came { BytesCame (reader_change S.told S.failed S.gave source.old source.new)
        (λ gives. MatchResult result
        (λ bytes. input_within most gives ≡ Ended bytes.items)
        (ExplainsInput (input_within most gives))) }
    ensures left { Leaves input_left result
        (reader_change S.told S.failed S.gave source.old source.new) }
{
    let mut bytes = Vec::new(alloc);
    let mut piece = [0; PIECE];
    'reading: while bytes.len() <= most {
        match source.read(&mut piece) {
            Ok(0) => return Ok(bytes),
            Ok(n) => {
                if bytes.extend_from_slice(&piece[..n]).is_err() {
                    return Err(InputFault::Memory);
                }
            }
            Err(_) => return Err(InputFault::Read),
        }
    }
    Err(InputFault::TooLong)
}
