ghost use Rattle.std.specs.Prelude.{◌≡◌, ◌<◌, ℕ, Bool, List, Option, None, length};
ghost use Rattle.std.specs.Io.KnownBytes.{WriteAppends, Keeps};
ghost use Rattle.byte_ends.specs.Sink.{TakesSome, failed_after, flushed_by_write};
ghost use Rattle.byte_ends.specs.Sink.{flushed_by_flush};

use crate::failed::Failed;
use crate::sink::Sink;
use std::io::Write;

/// A writer of std's. It tells no bytes. A write of some bytes that takes none is `Failed`.
///
/// That each write and each flush is one call of the writer no clause can say, since std's writers
/// don't show how often they are called: it is what the two are seen to do, and tested.
#[derive(Drop)]
pub struct OfWrite<W> {
    writer: W,
    has_failed: bool,
    /// Whether a flush has come after the last byte that was taken.
    is_flushed: bool,
}

impl<W: Write + Drop> OfWrite<W> {
    ghost use Rattle.std.specs.Prelude.{true, false};
    ghost use Rattle.byte_ends.specs.OfWrite.{writer_of, made_of};

    pub fn new(writer: W) -> OfWrite<W>
        ensures made { result ≡ made_of writer }
        ensures writer { writer_of result ≡ writer }
        ensures unfailed { ⟦<OfWrite<W> as Sink>⟧.failed result ≡ false }
        ensures flushed { ⟦<OfWrite<W> as Sink>⟧.flushed result ≡ true }
    {
        OfWrite {
            writer,
            has_failed: false,
            is_flushed: true,
        }
    }

    /// The writer, with what was written.
    pub fn into_inner(self) -> W
        ensures { result ≡ writer_of self }
    {
        self.writer
    }
}

impl<W: Write + Drop> Sink for OfWrite<W> {
    ghost use Rattle.byte_ends.specs.OfWrite.{writer_of, has_failed, is_flushed};

    ghost failed = { λ s. has_failed s };

    ghost holds = { λ _. None };

    ghost flushed = { λ s. is_flushed s };

    fn write(&mut self, bytes: &[u8]) -> Result<usize, Failed>
        ensures takes { TakesSome result (length bytes.now) }
        ensures failed { has_failed self.new ≡ failed_after (has_failed self.old) result }
        ensures flushed { is_flushed self.new
            ≡ flushed_by_write (is_flushed self.old) result }
        ensures passes_on { WriteAppends (W.contents (writer_of self.old))
            (W.contents (writer_of self.new)) result bytes.now }
    {
        match self.writer.write(bytes) {
            Ok(n) if n > 0 || bytes.is_empty() => {
                if n > 0 {
                    self.is_flushed = false;
                }
                Ok(n)
            }
            _ => {
                self.has_failed = true;
                Err(Failed)
            }
        }
    }

    fn flush(&mut self) -> Result<(), Failed>
        ensures failed { has_failed self.new ≡ failed_after (has_failed self.old) result }
        ensures flushed { is_flushed self.new
            ≡ flushed_by_flush (is_flushed self.old) result }
        ensures passes_on { Keeps (W.contents (writer_of self.old))
            (W.contents (writer_of self.new)) }
    {
        match self.writer.flush() {
            Ok(()) => {
                self.is_flushed = true;
                Ok(())
            }
            Err(_) => {
                self.has_failed = true;
                Err(Failed)
            }
        }
    }
}
