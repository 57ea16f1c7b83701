//! All bytes of a reader, kept also where a read fails after them.

ghost use Rattle.std.specs.Prelude.{◌≡◌, IfOk, IfErr, OnErr, List, ℕ};
ghost use Rattle.byte_ends.specs.Source.{HasGiven, reader_change};
ghost use Rattle.station_mark.specs.Giving.{IsAllGiven};

use byte_ends::Source;
use std::alloc::{AllocError, Global};

/// Bytes that are asked for at a time.
const PIECE: usize = 32_768;

/// What a reader gave.
#[derive(Drop)]
pub(crate) struct Given {
    /// Its bytes.
    pub(crate) bytes: Vec<u8>,
    /// Whether a read failed after them.
    pub(crate) fails: bool,
}

/// All bytes of a reader. It is asked until it ends or fails, or has given more than so many. The
/// room for them grows with what comes.
pub(crate) fn all_given<S: Source>(
    alloc: Global,
    source: &mut S,
    most: usize,
) -> Result<Given, AllocError>
    ensures given { IfOk result (λ given. IsAllGiven most
        (reader_change S.told S.failed S.gave source.old source.new)
        given.bytes.items given.fails) }
    ensures some { IfErr result (λ _. (bytes : List ℕ) × HasGiven
        (reader_change S.told S.failed S.gave source.old source.new) bytes) }
    ensures unfailed { OnErr result (S.failed source.new ≡ S.failed source.old) }
{
    let mut bytes = Vec::new(alloc);
    let mut piece = [0; PIECE];
    'reading: while bytes.len() <= most {
        match source.read(&mut piece) {
            Ok(0) => {
                return Ok(Given {
                    bytes,
                    fails: false,
                });
            }
            Ok(n) => {
                bytes.extend_from_slice(&piece[..n])?;
            }
            Err(_) => return Ok(Given { bytes, fails: true }),
        }
    }
    Ok(Given {
        bytes,
        fails: false,
    })
}
