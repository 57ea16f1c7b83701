//! Pieces of text, put at a place of a page's room.
//!
//! Each call answers the place after its piece. So the place stands in a register until the line
//! is whole, and no byte of it waits for the last one's count. A piece of a constant length is a
//! load and a store.

ghost use Rattle.std.specs.Prelude.{◌≡◌, ◌<◌, ◌≤◌, ◌+◌, ◌++◌, length, take, decimal};
ghost use Rattle.std.specs.Fmt.{signed_decimal};

use crate::page::PAGE;
use crate::verdict_line::LONGEST_U32;
use itoa::{Buffer, Integer, write_digits};

/// The room of a page: the text up to a place stands, and what is after it may be written over.
pub(crate) type Room = [u8; PAGE];

/// Puts bytes.
#[inline(always)]
pub(crate) fn put_bytes(room: &mut Room, at: usize, bytes: &[u8]) -> usize
    requires { at + length bytes.now ≤ PAGE }
    ensures next { result ≡ at + length bytes.now }
    ensures whole { length room.new ≡ PAGE }
    ensures text { take result room.new ≡ take at room.old ++ bytes.now }
{
    let end = at + bytes.len();
    room[at..end].copy_from_slice(bytes);
    end
}

/// Puts a text of a constant length. It is taken out of its place first, since the compiler then
/// sees that it is no part of the room: so it is a load and a store.
#[inline(always)]
pub(crate) fn put<const N: usize>(room: &mut Room, at: usize, text: &[u8; N]) -> usize
    requires { at + N ≤ PAGE }
    ensures next { result ≡ at + N }
    ensures text { take result room.new ≡ take at room.old ++ text.now }
{
    let text = *text;
    put_bytes(room, at, &text)
}

/// Puts bytes of a length that is known: a load and a store too. They are cut to that length, which
/// changes nothing, so that the compiler knows it.
#[inline(always)]
pub(crate) fn put_known<const N: usize>(room: &mut Room, at: usize, bytes: &[u8]) -> usize
    requires room { at + N ≤ PAGE }
    requires known { length bytes.now ≡ N }
    ensures next { result ≡ at + N }
    ensures text { take result room.new ≡ take at room.old ++ bytes.now }
{
    let mut text = [0; N];
    text.copy_from_slice(&bytes[..N]);
    put(room, at, &text)
}

/// Puts the first n bytes of a text of a constant length, after which there is room for all of it.
#[inline(always)]
pub(crate) fn put_start<const N: usize>(
    room: &mut Room,
    at: usize,
    bytes: &[u8; N],
    n: usize,
) -> usize
    requires room { at + N ≤ PAGE }
    requires short { n ≤ N }
    ensures next { result ≡ at + n }
    ensures text { take result room.new ≡ take at room.old ++ take n bytes.now }
{
    put(room, at, bytes);
    at + n
}

/// Puts a number in plain decimals, with a sign where it is below 0.
pub(crate) fn put_number<I: Integer>(room: &mut Room, at: usize, number: I) -> usize
    requires { at + I.MAX_STR_LEN ≤ PAGE }
    ensures next { result ≤ at + I.MAX_STR_LEN }
    ensures text { take result room.new ≡ take at room.old ++ I.text number }
{
    let mut digits = Buffer::new();
    put_bytes(room, at, digits.format(number).as_bytes())
}

/// How many digits a number below 10,000 has.
#[inline(always)]
#[tactic(auto, using(crate::proofs::DigitCounts::few_digits))]
fn short_count(number: u32) -> usize
    requires { number < 10000 }
    ensures value { result ≡ length (decimal number) }
    ensures bound { result ≤ 4 }
    ensures fewer { number < 100 → result ≤ 2 }
{
    if number < 100 {
        if number < 10 { 1 } else { 2 }
    } else if number < 1_000 {
        3
    } else {
        4
    }
}

/// How many digits a number has in plain decimals.
#[inline(always)]
#[tactic(auto, using(crate::proofs::DigitCounts::more_digits))]
fn digit_count(number: u32) -> usize
    ensures value { result ≡ length (decimal number) }
    ensures bound { result ≤ LONGEST_U32 }
{
    if number < 10_000 {
        short_count(number)
    } else if number < 100_000_000 {
        4 + short_count(number / 10_000)
    } else {
        8 + short_count(number / 100_000_000)
    }
}

/// Puts a number in plain decimals. Its digits are written where they stand, with no copy.
#[inline(always)]
pub(crate) fn put_digits(room: &mut Room, at: usize, number: u32) -> usize
    requires { at + LONGEST_U32 ≤ PAGE }
    ensures next { result ≤ at + LONGEST_U32 }
    ensures text { take result room.new ≡ take at room.old ++ decimal number }
{
    let end = at + digit_count(number);
    write_digits(u64::from(number), room, end);
    end
}

/// Puts a number in plain decimals, with a sign where it is below 0: likewise.
#[inline(always)]
pub(crate) fn put_signed(room: &mut Room, at: usize, number: i32) -> usize
    requires { at + 1 + LONGEST_U32 ≤ PAGE }
    ensures next { result ≤ at + 1 + LONGEST_U32 }
    ensures text { take result room.new ≡ take at room.old ++ signed_decimal number }
{
    if number >= 0 {
        return put_digits(room, at, number.unsigned_abs());
    }
    let digits_at = put(room, at, b"-");
    put_digits(room, digits_at, number.unsigned_abs())
}
