//! A source that keeps what it gives.

ghost use Rattle.std.specs.Prelude.{◌≡◌, ◌≤◌, [], ℕ, List, Option, Some, None, IfOk, length};
ghost use Rattle.std.specs.Prelude.{option_map};
ghost use Rattle.byte_ends.specs.Sink.{failed_after};
ghost use Rattle.byte_ends.specs.Source.{Reads, TellsOver, Adds, given_by};

use byte_ends::{Failed, Source};
use std::alloc::Global;

/// A source that keeps the bytes that another gives, as long as there is memory for them, and has
/// the histories of that one too.
#[derive(Drop)]
pub struct Rereading<R> {
    reader: R,
    /// All that the reader gave; none once memory was refused for some of it.
    kept: Option<Vec<u8>>,
}

impl<R: Source> Rereading<R> {
    ghost use Rattle.instrument_words.specs.Rereading.{kept_by, reader_of};

    /// What a reader gives from here on is kept.
    pub fn new(alloc: Global, reader: R) -> Rereading<R>
        ensures reader { reader_of result ≡ reader }
        ensures nothing { kept_by result ≡ Some [] }
    {
        Rereading {
            reader,
            kept: Some(Vec::new(alloc)),
        }
    }

    /// The reader, and all that it gave, or none where memory was refused for some of it.
    pub fn into_parts(self) -> (R, Option<Vec<u8>>)
        ensures reader { result.0 ≡ reader_of self }
        ensures kept { option_map (λ bytes. bytes.items) result.1 ≡ kept_by self }
    {
        (self.reader, self.kept)
    }
}

impl<R: Source> Source for Rereading<R> {
    ghost use Rattle.instrument_words.specs.Rereading.{reader_of, histories};

    ghost told = { λ s. R.told (reader_of s) };

    ghost failed = { λ s. R.failed (reader_of s) };

    ghost gave = { λ s. histories R.gave s };

    fn read(&mut self, buf: &mut [u8]) -> Result<usize, Failed> {
        let n = self.reader.read(buf)?;
        if let Some(bytes) = &mut self.kept {
            if bytes.extend_from_slice(&buf[..n]).is_err() {
                self.kept = None;
            }
        }
        Ok(n)
    }
}
