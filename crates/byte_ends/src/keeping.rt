ghost use Rattle.std.specs.Prelude.{◌≡◌, ◌≤◌, [], ℕ, List, Option, Some, None, IfOk, length};
ghost use Rattle.std.specs.Prelude.{option_map};
ghost use Rattle.byte_ends.specs.Sink.{failed_after};
ghost use Rattle.byte_ends.specs.Source.{Reads, TellsOver, Adds, given_by};

use crate::failed::Failed;
use crate::source::Source;
use std::alloc::Global;

/// A source that keeps the bytes that another gives, as long as there is memory for them.
///
/// What a contract says of every source it says of this one, and here the bytes of which it speaks
/// are in hand.
#[derive(Drop)]
pub struct Keeping<R> {
    reader: R,
    /// All that the reader gave; none once memory was refused for some of it.
    kept: Option<Vec<u8>>,
}

impl<R: Source> Keeping<R> {
    ghost use Rattle.byte_ends.specs.Keeping.{kept_by, reader_under};

    /// What a reader gives from here on is kept.
    pub fn new(alloc: Global, reader: R) -> Keeping<R>
        ensures reader { reader_under result ≡ reader }
        ensures nothing { kept_by result ≡ Some [] }
    {
        Keeping {
            reader,
            kept: Some(Vec::new(alloc)),
        }
    }

    /// All that it gave, or none where memory was refused for some of it.
    pub fn kept(&self) -> Option<&[u8]>
        ensures { option_map (λ bytes. bytes.now) result ≡ kept_by self.now }
    {
        self.kept.as_ref().map(|bytes| bytes.as_slice())
    }
}

impl<R: Source> Source for Keeping<R> {
    ghost use Rattle.byte_ends.specs.Keeping.{reader_under, HasKept};

    ghost told = { λ s. R.told (reader_under s) };

    ghost failed = { λ s. R.failed (reader_under s) };

    ghost gave = { λ s history given. HasKept s given };

    fn read(&mut self, buf: &mut [u8]) -> Result<usize, Failed> {
        let n = self.reader.read(buf)?;
        if let Some(bytes) = &mut self.kept {
            if bytes.extend_from_slice(&buf[..n]).is_err() {
                self.kept = None;
            }
        }
        Ok(n)
    }
}
