ghost use Rattle.std.specs.Prelude.{◌≡◌, ◌≤◌, ℕ, Bool, List, Option, IfOk, length};
ghost use Rattle.byte_ends.specs.Sink.{failed_after};
ghost use Rattle.byte_ends.specs.Source.{Told, Reads, TellsOver, Adds, given_by};

use crate::failed::Failed;

/// What bytes are read from.
///
/// A source that has ended or failed is over: no byte comes after that, but the same end or failure
/// again.
pub trait Source: Drop {
    // What it will still give, and whether it then fails. `None`: contracts don't know; after an
    // end or a failure they always do.
    ghost told: { Self → Option Told };

    // Whether a read of it has failed.
    ghost failed: { Self → Bool };

    // Its histories, by number: whether by that one it may have given these bytes, in all. A source
    // that keeps nothing of them may have given any; one that keeps a history of what it asks for
    // puts it before those of the source that it asks.
    ghost gave: { Self → ℕ → List ℕ → Type 0 };

    /// Reads once, into the front of `buf`, and answers how many bytes came.
    ///
    /// From a read into some room `Ok(0)` is the end, and `Failed` comes for any cause. A read into
    /// no room gives no byte, and its `Ok(0)` says nothing.
    fn read(&mut self, buf: &mut [u8]) -> Result<usize, Failed>
        ensures bound { IfOk result (λ n. n ≤ length buf.new) }
        ensures reads { Reads (told self.old) (told self.new) result buf.new }
        ensures over { TellsOver (told self.new) result (length buf.new) }
        ensures failed { failed self.new ≡ failed_after (failed self.old) result }
        ensures adds { Adds (gave self.old) (gave self.new) (given_by result buf.new) };
}

impl<S: Source> Source for &mut S {
    ghost told = { λ s. S.told s.now };

    ghost failed = { λ s. S.failed s.now };

    ghost gave = { λ s. S.gave s.now };

    fn read(&mut self, buf: &mut [u8]) -> Result<usize, Failed> {
        Source::read(&mut **self, buf)
    }
}
