//! The zeros before a name.

ghost use Rattle.std.specs.Prelude.{◌≡◌, ◌<◌, ◌==◌, length, drop, ◌⊎◌};
ghost use Rattle.std.specs.List.{prefix_len};
ghost use Rattle.gsi_word.specs.Bytes.{zero_digit};
ghost use Rattle.gsi_word.specs.Names.{name_of};
ghost use Rattle.gsi_word.specs.declared.word.TheConstants.{GSI_8, GSI_16};

use crate::lanes::lowest_lane;
use crate::word::{GSI_8, GSI_16};
use std::simd::prelude::*;

/// How many zeros stand before the name that a content holds, at least one byte kept.
#[inline(always)]
pub(crate) fn zeros_before(content: &[u8]) -> usize
    requires { (length content.now ≡ GSI_8) ⊎ (length content.now ≡ GSI_16) }
    ensures name { drop result content.now ≡ name_of content.now }
    ensures some_byte { result < length content.now }
{
    let zeros = leading_zeros(content);
    if zeros < content.len() {
        zeros
    } else {
        content.len() - 1
    }
}

/// How many zeros the content begins with. All its bytes are looked at together.
#[inline(always)]
fn leading_zeros(content: &[u8]) -> usize
    requires { (length content.now ≡ GSI_8) ⊎ (length content.now ≡ GSI_16) }
    ensures { result ≡ prefix_len (λ b. b == zero_digit) content.now }
{
    if content.len() == GSI_8 {
        let others = u8x8::from_slice(content).simd_ne(u8x8::splat(b'0'));
        lowest_lane(others.to_bitmask(), GSI_8)
    } else {
        let others = u8x16::from_slice(content).simd_ne(u8x16::splat(b'0'));
        lowest_lane(others.to_bitmask(), GSI_16)
    }
}
