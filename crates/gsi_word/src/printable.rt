//! Bytes that may stand in a line.
//!
//! A whole line is tested by a loop that has no early end, so that the compiler can test many bytes
//! at once. It goes over a number of bytes that fills its loads, and then over the last load of the
//! line, so that no bytes are left to be tested one by one; some are tested twice. Only a line that
//! fails is searched for its first bad byte.

ghost use Rattle.std.specs.Prelude.{◌≡◌, ◌↔◌, ◌≤◌, ◌<◌, ◌+◌, ℕ, length, not, position, slice_index};
ghost use Rattle.std.specs.Prelude.{All, IsTrue, IfErr, OnOk};
ghost use Rattle.gsi_word.specs.Words.{IsLineByte};
ghost use Rattle.gsi_word.specs.LineFaults.{IsByteFault};
ghost use Rattle.gsi_word.specs.Layout.{is_printable};

use crate::lanes::lowest_lane;
use std::simd::prelude::*;

/// How many bytes are tested together: one in each lane of a load.
pub const LANES: usize = 16;

/// Whether a byte may stand in a line: a blank or a visible character of ASCII.
fn is_printable(byte: u8) -> bool
    ensures { result ≡ is_printable byte }
{
    (b' '..=b'~').contains(&byte)
}

/// Whether all bytes may stand in a line.
fn are_printable(bytes: &[u8]) -> bool
    ensures { IsTrue result ↔ All IsLineByte bytes.now }
{
    if bytes.len() < LANES {
        return has_no_unprintable(bytes);
    }
    let whole = bytes.len() / LANES * LANES;
    has_no_unprintable(&bytes[..whole]) && has_no_unprintable(&bytes[bytes.len() - LANES..])
}

/// What `are_printable` answers, in one pass over all bytes.
fn has_no_unprintable(bytes: &[u8]) -> bool
    ensures { IsTrue result ↔ All IsLineByte bytes.now }
{
    let mut unprintable = false;
    for byte in bytes {
        unprintable |= !is_printable(*byte);
    }
    !unprintable
}

/// Whether all bytes may stand in a line, or the place of the first, from 1, that may not.
pub fn check_printable(line: &[u8]) -> Result<(), usize>
    ensures printable { OnOk result (All IsLineByte line.now) }
    ensures fault { IfErr result (IsByteFault line.now) }
{
    if are_printable(line) {
        return Ok(());
    }
    match first_unprintable(line) {
        Some(place) => Err(place + 1),
        None => Ok(()),
    }
}

/// The place of the first byte, from 0, that may not stand in a line.
fn first_unprintable(line: &[u8]) -> Option<usize>
    ensures { result ≡ position (λ b. not (is_printable b)) line.now }
{
    line.iter().position(|byte| !is_printable(*byte))
}

/// With how many bytes that may stand in a line the load at a place begins: all [`LANES`] of them,
/// or those before the first that may not.
#[inline(always)]
pub fn printable_run(bytes: &[u8], at: usize) -> usize
    requires { at + LANES ≤ length bytes.now }
    ensures bound { result ≤ LANES }
    ensures printable { (k : ℕ) → at ≤ k → k < at + result
        → IsLineByte (slice_index bytes.now k) }
    ensures unprintable { result < LANES → ¬ IsLineByte (slice_index bytes.now (at + result)) }
{
    let load = u8x16::from_slice(&bytes[at..]);
    let unprintable = load.simd_lt(u8x16::splat(b' ')) | load.simd_gt(u8x16::splat(b'~'));
    lowest_lane(unprintable.to_bitmask(), LANES)
}
