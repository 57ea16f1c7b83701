ghost use Rattle.std.specs.Prelude.{◌<◌, ◌≤◌, Option, Some, IfOk, length, ⊤};
ghost use Rattle.byte_ends.specs.Source.{Told, Reads, TellsOver};

use crate::failed::Failed;
use crate::source::Source;

/// A source of known bytes, for tests.
#[derive(Drop)]
pub struct Script<'a> {
    rest: &'a [u8],
    step: usize,
    fails: bool,
    has_failed: bool,
    ghost steps: { 0 < step },
}

impl<'a> Script<'a> {
    ghost use Rattle.std.specs.Prelude.{◌≡◌, false};
    ghost use Rattle.byte_ends.specs.Script.{script_told, script_step};

    /// Gives these bytes, at most `step` of them for each read, and after the last byte fails or
    /// ends.
    pub fn new(bytes: &'a [u8], step: usize, fails: bool) -> Script<'a>
        requires { 0 < step }
        ensures bytes { (script_told result).bytes ≡ bytes.now }
        ensures fails { (script_told result).fails ≡ fails }
        ensures step { script_step result ≡ step }
        ensures unfailed { ⟦<Script<'a> as Source>⟧.failed result ≡ false }
    {
        Script {
            rest: bytes,
            step,
            fails,
            has_failed: false,
        }
    }
}

impl Source for Script<'_> {
    ghost use Rattle.std.specs.Prelude.{◌≡◌, ◌↔◌, [], min, true, IsErr};
    ghost use Rattle.byte_ends.specs.Script.{script_told, script_step, script_failed};
    ghost use Rattle.byte_ends.specs.Sink.{failed_after};

    ghost told = { λ s. Some (script_told s) };

    ghost failed = { λ s. script_failed s };

    ghost gave = { λ _ _ _. ⊤ };

    fn read(&mut self, buf: &mut [u8]) -> Result<usize, Failed>
        ensures bound { IfOk result (λ n. n ≤ length buf.new) }
        ensures reads { Reads (Some (script_told self.old)) (Some (script_told self.new))
            result buf.new }
        ensures over { TellsOver (Some (script_told self.new)) result (length buf.new) }
        ensures failed { script_failed self.new ≡ failed_after (script_failed self.old) result }
        ensures count { IfOk result (λ n. n ≡ min (script_step self.old)
            (min (length (script_told self.old).bytes) (length buf.new))) }
        ensures fails { IsErr result ↔ (((script_told self.old).bytes ≡ [])
            × ((script_told self.old).fails ≡ true)) }
        ensures step { script_step self.new ≡ script_step self.old }
    {
        if self.rest.is_empty() && self.fails {
            self.has_failed = true;
            return Err(Failed);
        }
        let n = self.step.min(self.rest.len()).min(buf.len());
        let (front, rest) = self.rest.split_at(n);
        buf[..n].copy_from_slice(front);
        self.rest = rest;
        Ok(n)
    }
}
