//! A text in memory.

ghost use Rattle.std.specs.Prelude.{◌≡◌, ◌<◌, [], Some, length};
ghost use Rattle.std.specs.Io.KnownBytes.{WriteAppends};
ghost use Rattle.byte_ends.specs.Sink.{TakesSome, failed_after, flushed_by_write};
ghost use Rattle.byte_ends.specs.Sink.{flushed_by_flush};
ghost use Rattle.station_page.specs.Texts.{text_of, has_failed, is_flushed};

use byte_ends::{Failed, Sink};
use std::alloc::Global;

/// A text that grows with what is written to it. A write fails only where there is no memory.
#[derive(Drop)]
pub(crate) struct Text {
    bytes: Vec<u8>,
    has_failed: bool,
    /// Whether a flush has come after the last byte that was taken.
    is_flushed: bool,
}

impl Text {
    ghost use Rattle.std.specs.Prelude.{true, false};

    /// A text of no bytes.
    pub(crate) fn new(alloc: Global) -> Text
        ensures empty { text_of result ≡ [] }
        ensures unfailed { has_failed result ≡ false }
        ensures flushed { is_flushed result ≡ true }
    {
        Text {
            bytes: Vec::new(alloc),
            has_failed: false,
            is_flushed: true,
        }
    }

    /// What was written.
    pub(crate) fn bytes(&self) -> &[u8]
        ensures { result.now ≡ text_of self.now }
    {
        self.bytes.as_slice()
    }
}

impl Sink for Text {
    ghost failed = { λ text. has_failed text };

    ghost holds = { λ text. Some (text_of text) };

    ghost flushed = { λ text. is_flushed text };

    fn write(&mut self, bytes: &[u8]) -> Result<usize, Failed>
        ensures takes { TakesSome result (length bytes.now) }
        ensures failed { has_failed self.new ≡ failed_after (has_failed self.old) result }
        ensures holds { WriteAppends (Some (text_of self.old)) (Some (text_of self.new))
            result bytes.now }
        ensures flushed { is_flushed self.new
            ≡ flushed_by_write (is_flushed self.old) result }
    {
        match self.bytes.extend_from_slice(bytes) {
            Ok(()) => {
                if !bytes.is_empty() {
                    self.is_flushed = false;
                }
                Ok(bytes.len())
            }
            Err(_) => {
                self.has_failed = true;
                Err(Failed)
            }
        }
    }

    fn flush(&mut self) -> Result<(), Failed>
        ensures failed { has_failed self.new ≡ failed_after (has_failed self.old) result }
        ensures holds { Some (text_of self.new) ≡ Some (text_of self.old) }
        ensures flushed { is_flushed self.new
            ≡ flushed_by_flush (is_flushed self.old) result }
    {
        self.is_flushed = true;
        Ok(())
    }
}
