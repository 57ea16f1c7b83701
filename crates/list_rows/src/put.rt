//! Pieces of a text, put at a place of a room for it, as `station_check` puts those of the plain
//! list into a page. Each call answers the place after its piece.
ghost use Rattle.std.specs.Prelude.{◌≡◌, ◌≤◌, ◌+◌, ◌++◌, length, take, decimal};

use itoa::Buffer;
use station_check::LONGEST_U32;

/// Puts bytes.
#[inline(always)]
pub(crate) fn put_bytes(room: &mut [u8], at: usize, bytes: &[u8]) -> usize
    requires { at + length bytes.now ≤ length room.old }
    ensures next { result ≡ at + length bytes.now }
    ensures whole { length room.new ≡ length room.old }
    ensures text { take result room.new ≡ take at room.old ++ bytes.now }
{
    let end = at + bytes.len();
    room[at..end].copy_from_slice(bytes);
    end
}

/// Puts a text of a constant length: a few loads and stores. It is taken out of its place first,
/// since the compiler then sees that it is no part of the room.
#[inline(always)]
pub(crate) fn put<const N: usize>(room: &mut [u8], at: usize, text: &[u8; N]) -> usize
    requires { at + N ≤ length room.old }
    ensures next { result ≡ at + N }
    ensures whole { length room.new ≡ length room.old }
    ensures text { take result room.new ≡ take at room.old ++ text.now }
{
    let text = *text;
    put_bytes(room, at, &text)
}

/// Puts the first n bytes of a text of a constant length, after which there is room for all of it.
#[inline(always)]
pub(crate) fn put_start<const N: usize>(
    room: &mut [u8],
    at: usize,
    text: &[u8; N],
    n: usize,
) -> usize
    requires room { at + N ≤ length room.old }
    requires short { n ≤ N }
    ensures next { result ≡ at + n }
    ensures whole { length room.new ≡ length room.old }
    ensures text { take result room.new ≡ take at room.old ++ take n text.now }
{
    put(room, at, text);
    at + n
}

/// Puts a number in plain decimals.
pub(crate) fn put_number(room: &mut [u8], at: usize, number: u32) -> usize
    requires { at + LONGEST_U32 ≤ length room.old }
    ensures next { result ≤ at + LONGEST_U32 }
    ensures whole { length room.new ≡ length room.old }
    ensures text { take result room.new ≡ take at room.old ++ decimal number }
{
    let mut digits = Buffer::new();
    put_bytes(room, at, digits.format(number).as_bytes())
}
