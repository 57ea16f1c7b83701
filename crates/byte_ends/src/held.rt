ghost use Rattle.std.specs.Prelude.{◌≡◌, ◌<◌, ◌≤◌, ◌+◌, ℕ, Bool, List, Option, Some, length};
ghost use Rattle.std.specs.Prelude.{vec_len, vec_capacity, IfOk};
ghost use Rattle.std.specs.Io.KnownBytes.{WriteAppends};
ghost use Rattle.byte_ends.specs.Sink.{TakesSome, failed_after, flushed_by_write};
ghost use Rattle.byte_ends.specs.Sink.{flushed_by_flush};

use crate::failed::Failed;
use crate::out_of_memory::OutOfMemory;
use crate::sink::Sink;
use std::alloc::Global;

/// A sink that holds what is written to it, for tests.
#[derive(Drop)]
pub struct Held {
    bytes: Vec<u8>,
    room: usize,
    step: usize,
    flush_fails: bool,
    has_failed: bool,
    /// Whether a flush has come after the last byte that was taken.
    is_flushed: bool,
    ghost steps: { 0 < step },
    ghost has_room: { vec_len bytes + room ≤ vec_capacity bytes },
}

impl Held {
    ghost use Rattle.std.specs.Prelude.{[], true, false};
    ghost use Rattle.byte_ends.specs.Held.{IsSetTo};

    /// Takes `room` bytes in all, at most `step` for each write; each flush fails or none does.
    ///
    /// Its memory is taken here, once.
    pub fn new(
        alloc: Global,
        room: usize,
        step: usize,
        flush_fails: bool,
    ) -> Result<Held, OutOfMemory>
        requires { 0 < step }
        ensures empty { IfOk result (λ h. ⟦<Held as Sink>⟧.holds h ≡ Some []) }
        ensures unfailed { IfOk result (λ h. ⟦<Held as Sink>⟧.failed h ≡ false) }
        ensures flushed { IfOk result (λ h. ⟦<Held as Sink>⟧.flushed h ≡ true) }
        ensures set { IfOk result (λ h. IsSetTo h room step flush_fails) }
    {
        match Vec::with_capacity(alloc, room) {
            Ok(bytes) => Ok(Held {
                bytes,
                room,
                step,
                flush_fails,
                has_failed: false,
                is_flushed: true,
            }),
            Err(_) => Err(OutOfMemory),
        }
    }

    /// What was written.
    pub fn bytes(&self) -> &[u8]
        ensures { ⟦<Held as Sink>⟧.holds self.now ≡ Some result.now }
    {
        self.bytes.as_slice()
    }
}

impl Sink for Held {
    ghost use Rattle.std.specs.Prelude.{◌-◌, ◌↔◌, min, true, IsErr, MatchResult};
    ghost use Rattle.byte_ends.specs.Held.{held_bytes, held_room, held_step, held_flush_fails};
    ghost use Rattle.byte_ends.specs.Held.{has_failed, is_flushed, IsSetTo};

    ghost failed = { λ s. has_failed s };

    ghost holds = { λ s. Some (held_bytes s) };

    ghost flushed = { λ s. is_flushed s };

    fn write(&mut self, bytes: &[u8]) -> Result<usize, Failed>
        ensures takes { TakesSome result (length bytes.now) }
        ensures failed { has_failed self.new ≡ failed_after (has_failed self.old) result }
        ensures holds { WriteAppends (Some (held_bytes self.old)) (Some (held_bytes self.new))
            result bytes.now }
        ensures flushed { is_flushed self.new
            ≡ flushed_by_write (is_flushed self.old) result }
        ensures count { IfOk result (λ n. n ≡ min (held_step self.old)
            (min (held_room self.old) (length bytes.now))) }
        ensures full { IsErr result ↔ ((held_room self.old ≡ 0) × (0 < length bytes.now)) }
        ensures set { MatchResult result
            (λ n. IsSetTo self.new (held_room self.old - n) (held_step self.old)
            (held_flush_fails self.old))
            (λ _. IsSetTo self.new (held_room self.old) (held_step self.old)
            (held_flush_fails self.old)) }
    {
        let n = self.step.min(self.room).min(bytes.len());
        if n == 0 && !bytes.is_empty() {
            self.has_failed = true;
            return Err(Failed);
        }
        match self.bytes.extend_from_slice(&bytes[..n]) {
            Ok(()) => {
                self.room -= n;
                if n > 0 {
                    self.is_flushed = false;
                }
                Ok(n)
            }
            Err(_) => {
                self.has_failed = true;
                Err(Failed)
            }
        }
    }

    fn flush(&mut self) -> Result<(), Failed>
        ensures failed { has_failed self.new ≡ failed_after (has_failed self.old) result }
        ensures holds { Some (held_bytes self.new) ≡ Some (held_bytes self.old) }
        ensures flushed { is_flushed self.new
            ≡ flushed_by_flush (is_flushed self.old) result }
        ensures fails { IsErr result ↔ (held_flush_fails self.old ≡ true) }
        ensures set { IsSetTo self.new (held_room self.old) (held_step self.old)
            (held_flush_fails self.old) }
    {
        if self.flush_fails {
            self.has_failed = true;
            return Err(Failed);
        }
        self.is_flushed = true;
        Ok(())
    }
}
