//! The end of eight or sixteen bytes, moved as one number: so many has the content of a word, and
//! most names are the end of one. It is there for speed alone: `Name::from_valid` makes the same
//! name of bytes of any length.

ghost use Rattle.std.specs.Prelude.{◌≡◌, ◌<◌, length, drop};
ghost use Rattle.adjust_kernel.specs.Names.{padded};

use crate::bounds::LONGEST_NAME;
use std::simd::prelude::*;

/// How many bytes are moved as a number of 64 bits.
pub(crate) const EIGHT: usize = 8;

/// The last of eight bytes, from this place on, and then zeros. The first byte is the lowest of a
/// number, so a shift takes off those before the place.
#[inline(always)]
pub(crate) fn end_of_eight(bytes: &[u8], from: usize) -> [u8; LONGEST_NAME]
    requires eight { length bytes.now ≡ 8 }
    requires inside { from < 8 }
    ensures { result ≡ padded (drop from bytes.now) }
{
    let number = u64::from_le_bytes(u8x8::from_slice(bytes).to_array());
    let last = number >> (8 * from as u32);
    u64x2::from_array([last, 0]).to_le_bytes().to_array()
}

/// The same of sixteen bytes, as one number of 128 bits.
#[inline(always)]
pub(crate) fn end_of_sixteen(bytes: &[u8], from: usize) -> [u8; LONGEST_NAME]
    requires sixteen { length bytes.now ≡ 16 }
    requires inside { from < 16 }
    ensures { result ≡ padded (drop from bytes.now) }
{
    let number = u128::from_le_bytes(u8x16::from_slice(bytes).to_array());
    let last = number >> (8 * from as u32);
    let low = (last % (1 << 64)) as u64;
    let high = (last >> 64) as u64;
    u64x2::from_array([low, high]).to_le_bytes().to_array()
}
