//! Numbers in decimal digits.

ghost use Rattle.std.specs.Prelude.{◌≡◌, ◌≤◌, ◌<◌, ◌+◌, ◌-◌, ◌*◌, IsTrue, length, slice_index};
ghost use Rattle.std.specs.Prelude.{true};
ghost use Rattle.std.specs.Char.{is_ascii_digit};
ghost use Rattle.std.specs.List.{list_all};
ghost use Rattle.gsi_word.specs.Angles.{decimal_number, decimal_value};
ghost use Rattle.gsi_word.specs.declared.word.TheConstants.{GSI_16};

use crate::word::{GSI_8, GSI_16};
use std::simd::prelude::*;

/// What each of eight digits is worth: they are read together.
const WORTH: [u32; GSI_8] = [10_000_000, 1_000_000, 100_000, 10_000, 1_000, 100, 10, 1];

/// What the last of eight digits is worth where eight more come after it.
const WORTH_BEFORE_EIGHT: u64 = 100_000_000;

/// The number that the bytes write, or `None` where one of them is no digit. No bytes write 0.
#[inline(always)]
pub fn decimal_number(bytes: &[u8]) -> Option<u64>
    requires { length bytes.now ≤ GSI_16 }
    ensures { result ≡ decimal_number bytes.now }
{
    if bytes.len() == GSI_8 {
        number_of_eight(bytes)
    } else if bytes.len() == GSI_16 {
        number_of_sixteen(bytes)
    } else {
        number_one_by_one(bytes)
    }
}

/// `decimal_number`, one byte after another.
// Apart from its caller, so that the ways of eight and of sixteen bytes, which all contents take,
// stay small.
#[inline(never)]
fn number_one_by_one(bytes: &[u8]) -> Option<u64>
    requires { length bytes.now ≤ GSI_16 }
    ensures { result ≡ decimal_number bytes.now }
{
    let mut number = 0;
    for byte in bytes {
        if !byte.is_ascii_digit() {
            return None;
        }
        number = 10 * number + (*byte - b'0') as u64;
    }
    Some(number)
}

/// `decimal_number` of eight bytes: one test for all of them.
#[inline(always)]
fn number_of_eight(bytes: &[u8]) -> Option<u64>
    requires { length bytes.now ≡ 8 }
    ensures { result ≡ decimal_number bytes.now }
{
    if !are_digits(bytes) {
        return None;
    }
    Some(value_of_eight(bytes) as u64)
}

/// `decimal_number` of sixteen bytes: one test for all of them, and then each half as eight.
#[inline(always)]
fn number_of_sixteen(bytes: &[u8]) -> Option<u64>
    requires { length bytes.now ≡ GSI_16 }
    ensures { result ≡ decimal_number bytes.now }
{
    if !are_digits(bytes) {
        return None;
    }
    let (first, last) = bytes.split_at(GSI_8);
    Some(value_of_eight(first) as u64 * WORTH_BEFORE_EIGHT + value_of_eight(last) as u64)
}

/// The number that eight digits write: the sum of what each of them is worth.
#[inline(always)]
pub(crate) fn value_of_eight(bytes: &[u8]) -> u32
    requires eight { length bytes.now ≡ 8 }
    requires digits { IsTrue (list_all is_ascii_digit bytes.now) }
    ensures value { result ≡ decimal_value bytes.now }
    ensures bound { result < 100000000 }
{
    let digits: u32x8 = u8x8::from_slice(bytes).strict_sub(u8x8::splat(b'0')).cast();
    let worths = digits.strict_mul(u32x8::from_array(WORTH));
    worths.strict_reduce_sum()
}

/// Whether all bytes are digits, in one pass without an early end.
#[inline(always)]
fn are_digits(bytes: &[u8]) -> bool
    ensures { result ≡ list_all is_ascii_digit bytes.now }
{
    let mut other = false;
    for byte in bytes {
        other |= !byte.is_ascii_digit();
    }
    !other
}
