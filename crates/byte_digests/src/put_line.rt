//! The line of a file's digest, put at the front of a slice: it takes no memory.

ghost use Rattle.std.specs.Prelude.{◌≡◌, ◌<◌, ◌≤◌, ◌+◌, ◌*◌, ◌∷◌, [], length, take, drop, IfSome};
ghost use Rattle.std.specs.Prelude.{IfNone};
ghost use Rattle.std.specs.List.{flat_map};
ghost use Rattle.byte_digests.specs.DigestLines as spec;
ghost use Rattle.byte_digests.specs.PutAt.{IsPut};

use crate::digest_line::{BEFORE_NAME, LINE_FEED, digits_of, escape_of, mark_of};

/// The most bytes of a line, less twice those of the name: what an escaped name begins with, the
/// digits and the blanks, and a line feed.
pub const MOST_BESIDE_NAME: usize = 1 + BEFORE_NAME + 1;

/// Puts the line of a digest and of the name of its file at the front of a slice, and answers how
/// many bytes it has; none where it has no room, and then nothing is put. What stands after the
/// line stays.
pub fn put_digest_line(digest: &[u8; 32], name: &[u8], out: &mut [u8]) -> Option<usize>
    ensures fits { IfSome result (λ end. end ≤ length out.old) }
    ensures line { IfSome result (λ end. take end out.new ≡ spec.digest_line digest.now name.now) }
    ensures rest { IfSome result (λ end. drop end out.new ≡ drop end out.old) }
    ensures too_long { IfNone result
        (length out.old < length (spec.digest_line digest.now name.now)) }
    ensures room { IfNone result (length out.old < MOST_BESIDE_NAME + 2 * length name.now) }
    ensures unchanged { IfNone result (out.new ≡ out.old) }
{
    let mark = mark_of(name);
    let digits = digits_of(digest);
    let beside_name = mark.len() + digits.len() + 1;
    if out.len() < beside_name || out.len() - beside_name < escaped_length(name) {
        return None;
    }
    let end = put(mark, out, 0);
    let end = put(&digits, out, end);
    let end = put_name(name, out, end);
    Some(put(&[LINE_FEED], out, end))
}

/// How many bytes a name has with those escaped that have to be.
fn escaped_length(name: &[u8]) -> usize
    ensures length { result ≡ length (flat_map spec.escaped name.now) }
    ensures bound { result ≤ 2 * length name.now }
{
    let mut length = 0;
    'name: for &byte in name {
        length += length_of(byte);
    }
    length
}

/// How many bytes a byte of a name has, escaped where it has to be.
fn length_of(byte: u8) -> usize
    ensures length { result ≡ length (spec.escaped byte) }
    ensures bound { result ≤ 2 }
{
    match escape_of(byte) {
        Some(escape) => escape.len(),
        None => 1,
    }
}

/// Puts a name at a place, with the bytes escaped that have to be, and answers where it ends.
fn put_name(name: &[u8], out: &mut [u8], at: usize) -> usize
    requires { at + length (flat_map spec.escaped name.now) ≤ length out.old }
    ensures { IsPut (flat_map spec.escaped name.now) at out.old out.new result }
{
    let mut end = at;
    'name: for &byte in name {
        end = put_byte(byte, out, end);
    }
    end
}

/// Puts a byte of a name at a place, escaped where it has to be, and answers where it ends.
fn put_byte(byte: u8, out: &mut [u8], at: usize) -> usize
    requires { at + length (spec.escaped byte) ≤ length out.old }
    ensures { IsPut (spec.escaped byte) at out.old out.new result }
{
    match escape_of(byte) {
        Some(escape) => put(escape, out, at),
        None => put(&[byte], out, at),
    }
}

/// Puts a text at a place, and answers where it ends.
fn put(text: &[u8], out: &mut [u8], at: usize) -> usize
    requires { at + length text.now ≤ length out.old }
    ensures { IsPut text.now at out.old out.new result }
{
    let end = at + text.len();
    out[at..end].copy_from_slice(text);
    end
}
