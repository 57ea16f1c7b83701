ghost use Rattle.std.specs.Prelude.{◌≡◌, ◌≢◌, ◌≤◌, Option, None, IfOk, length, ⊤};
ghost use Rattle.std.specs.Io.KnownBytes.{ReadConsumes};
ghost use Rattle.byte_ends.specs.Sink.{failed_after};
ghost use Rattle.byte_ends.specs.Source.{Told, Reads, TellsOver};

use crate::failed::Failed;
use crate::source::Source;
use std::io::Read;

/// Whether more may come of a reader.
#[derive(Clone, Copy)]
enum State {
    /// Bytes may come.
    Open,
    /// It has ended.
    Ended,
    /// A read of it has failed.
    BrokenOff,
}

/// A reader of std's. It tells nothing until it is over.
///
/// A read after the one that ended or failed asks the reader no more. That each read before is one
/// call of the reader no clause can say, since std's readers don't show how often they are called:
/// it is what `read` is seen to do, and tested. What it goes by is the state alone, and `made` says
/// with which a reader is new.
#[derive(Drop)]
pub struct OfRead<R> {
    reader: R,
    state: State,
}

impl<R: Read + Drop> OfRead<R> {
    ghost use Rattle.std.specs.Prelude.{false};
    ghost use Rattle.byte_ends.specs.OfRead.{reader_of, made_of};

    pub fn new(reader: R) -> OfRead<R>
        ensures made { result ≡ made_of reader }
        ensures reader { reader_of result ≡ reader }
        ensures untold { ⟦<OfRead<R> as Source>⟧.told result ≡ None }
        ensures unfailed { ⟦<OfRead<R> as Source>⟧.failed result ≡ false }
    {
        OfRead {
            reader,
            state: State::Open,
        }
    }

    /// The reader, as its reads have left it.
    pub fn into_inner(self) -> R
        ensures { result ≡ reader_of self }
    {
        self.reader
    }
}

impl<R: Read + Drop> Source for OfRead<R> {
    ghost use Rattle.byte_ends.specs.OfRead.{reader_of, read_told, read_failed, told_after};

    ghost told = { λ s. read_told s };

    ghost failed = { λ s. read_failed s };

    ghost gave = { λ _ _ _. ⊤ };

    fn read(&mut self, buf: &mut [u8]) -> Result<usize, Failed>
        ensures bound { IfOk result (λ n. n ≤ length buf.new) }
        ensures reads { Reads (read_told self.old) (read_told self.new) result buf.new }
        ensures over { TellsOver (read_told self.new) result (length buf.new) }
        ensures failed { read_failed self.new ≡ failed_after (read_failed self.old) result }

        // The reader is over after an end or a failure, and after nothing else.
        ensures told { read_told self.old ≡ None
            → read_told self.new ≡ told_after result (length buf.new) }

        // It is asked while it is not over, and not by a later read.
        ensures passes_on { read_told self.old ≡ None
            → ReadConsumes (R.remaining (reader_of self.old))
            (R.remaining (reader_of self.new)) result buf.new }
        ensures unasked { read_told self.old ≢ None → reader_of self.new ≡ reader_of self.old }
    {
        match self.state {
            State::Open => {}
            State::Ended => return Ok(0),
            State::BrokenOff => return Err(Failed),
        }
        match self.reader.read(buf) {
            Ok(n) => {
                if n == 0 && !buf.is_empty() {
                    self.state = State::Ended;
                }
                Ok(n)
            }
            Err(_) => {
                self.state = State::BrokenOff;
                Err(Failed)
            }
        }
    }
}
