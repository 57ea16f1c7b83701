ghost use Rattle.std.specs.Prelude.{◌≡◌, ◌≤◌, [], List, ℕ, IfOk, length};
ghost use Rattle.byte_ends.specs.Sink.{failed_after};
ghost use Rattle.byte_ends.specs.Source.{Reads, TellsOver, Adds, given_by};
ghost use Rattle.sha2.specs.Hashers.{Holds256};
ghost use Rattle.sha2.specs.Sha256.{sha256};

use byte_ends::{Failed, Source};
use sha2::{Digest, Sha256};

/// A source that digests what it gives.
#[derive(Drop)]
pub struct Digesting<R> {
    reader: R,
    hasher: Sha256,
}

impl<R: Source> Digesting<R> {
    ghost use Rattle.byte_digests.specs.Digesting.{reader_of, hasher_of};

    /// What a reader gives from here on is digested.
    pub fn new(reader: R) -> Digesting<R>
        ensures reader { reader_of result ≡ reader }
        ensures nothing { Holds256 (hasher_of result) [] }
    {
        Digesting {
            reader,
            hasher: Sha256::new(),
        }
    }

    /// The SHA-256 digest of all that it gave.
    pub fn digest(self) -> [u8; 32]
        ensures { (given : List ℕ) → Holds256 (hasher_of self) given → result ≡ sha256 given }
    {
        self.hasher.finalize()
    }
}

impl<R: Source> Source for Digesting<R> {
    ghost use Rattle.byte_digests.specs.Digesting.{reader_of, histories};

    ghost told = { λ s. R.told (reader_of s) };

    ghost failed = { λ s. R.failed (reader_of s) };

    ghost gave = { λ s. histories R.gave s };

    fn read(&mut self, buf: &mut [u8]) -> Result<usize, Failed> {
        let n = self.reader.read(buf)?;
        self.hasher.update(&buf[..n]);
        Ok(n)
    }
}
