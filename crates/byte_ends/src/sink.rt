ghost use Rattle.std.specs.Prelude.{◌≡◌, ◌<◌, ◌+◌, ℕ, Bool, List, Option, OnOk, OnErr, length};
ghost use Rattle.std.specs.Io.KnownBytes.{WriteAppends, Appends};
ghost use Rattle.byte_ends.specs.Sink.{TakesSome, failed_after, flushed_after};
ghost use Rattle.byte_ends.specs.Sink.{flushed_by_write, flushed_by_flush, AppendsSome};

use crate::failed::Failed;

/// What bytes are written to.
pub trait Sink {
    // Whether a call of it has failed.
    ghost failed: { Self → Bool };

    // The bytes that it holds, or nothing.
    ghost holds: { Self → Option (List ℕ) };

    // Whether all that was written to it has been flushed.
    ghost flushed: { Self → Bool };

    /// Writes once, the first bytes of these, and answers how many it took: of some bytes at least
    /// one.
    fn write(&mut self, bytes: &[u8]) -> Result<usize, Failed>
        ensures takes { TakesSome result (length bytes.now) }
        ensures failed { failed self.new ≡ failed_after (failed self.old) result }
        ensures holds { WriteAppends (holds self.old) (holds self.new) result bytes.now }
        ensures flushed { flushed self.new ≡ flushed_by_write (flushed self.old) result };

    /// Flushes what was written so far.
    fn flush(&mut self) -> Result<(), Failed>
        ensures failed { failed self.new ≡ failed_after (failed self.old) result }
        ensures holds { holds self.new ≡ holds self.old }
        ensures flushed { flushed self.new ≡ flushed_by_flush (flushed self.old) result };

    /// Writes all the bytes, or fails with some of the first written.
    final fn write_all(&mut self, bytes: &[u8]) -> Result<(), Failed>
    where
        Self: Sized,
        ensures failed { failed self.new ≡ failed_after (failed self.old) result }
        ensures flushed { OnOk result (flushed self.new
            ≡ flushed_after (flushed self.old) (length bytes.now)) }
        ensures ok { OnOk result (Appends (holds self.old) (holds self.new) bytes.now) }
        ensures cut_short { OnErr result (AppendsSome (holds self.old) (holds self.new) bytes.now) }
    {
        let mut written = 0;
        'writing: while written < bytes.len() {
            written += self.write(&bytes[written..])?;
        }
        Ok(())
    }
}

impl<S: Sink> Sink for &mut S {
    ghost failed = { λ s. S.failed s.now };

    ghost holds = { λ s. S.holds s.now };

    ghost flushed = { λ s. S.flushed s.now };

    fn write(&mut self, bytes: &[u8]) -> Result<usize, Failed> {
        Sink::write(&mut **self, bytes)
    }

    fn flush(&mut self) -> Result<(), Failed> {
        Sink::flush(&mut **self)
    }
}
