//! The line of a file's digest, as `sha256sum` prints it.

ghost use Rattle.std.specs.Prelude.{◌≡◌, ◌≤◌, ◌∷◌, [], length, OnOk, OnErr, IfSome, IfNone};
ghost use Rattle.std.specs.Io.KnownBytes.{Appends};
ghost use Rattle.std.specs.List.{list_any, flat_map};
ghost use Rattle.byte_digests.specs.DigestLines as spec;
ghost use Rattle.byte_ends.specs.Sink.{AppendsSome, failed_after};

use byte_ends::{Failed, Sink};

/// The byte that an escaped byte of a name begins with, and the line of such a name.
pub(crate) const BACKSLASH: u8 = b'\\';

/// The byte that stands twice between the digits and the name.
pub(crate) const BLANK: u8 = b' ';

/// Bytes of the digits, 64, and of the two blanks.
pub(crate) const BEFORE_NAME: usize = 66;

/// The byte that ends the line.
pub(crate) const LINE_FEED: u8 = b'\n';

/// A byte that is escaped in a name.
pub(crate) const CARRIAGE_RETURN: u8 = b'\r';

/// What stands for a line feed of a name, after a backslash.
const LETTER_N: u8 = b'n';

/// What stands for a carriage return of a name, after a backslash.
const LETTER_R: u8 = b'r';

/// Writes the line of a digest and of the name of its file, and flushes nothing.
pub fn write_digest_line<W: Sink>(
    digest: &[u8; 32],
    name: &[u8],
    writer: &mut W,
) -> Result<(), Failed>
    ensures failed { W.failed writer.new ≡ failed_after (W.failed writer.old) result }
    ensures ok { OnOk result (Appends (W.holds writer.old) (W.holds writer.new)
        (spec.digest_line digest.now name.now)) }
    ensures cut_short { OnErr result (AppendsSome (W.holds writer.old) (W.holds writer.new)
        (spec.digest_line digest.now name.now)) }
{
    write_mark(name, writer)?;
    write_digits(digest, writer)?;
    write_name(name, writer)?;
    writer.write_all(&[LINE_FEED])
}

/// Writes what the line of a name begins with.
fn write_mark<W: Sink>(name: &[u8], writer: &mut W) -> Result<(), Failed>
    ensures failed { W.failed writer.new ≡ failed_after (W.failed writer.old) result }
    ensures ok { OnOk result (Appends (W.holds writer.old) (W.holds writer.new)
        (spec.mark_of name.now)) }
    ensures cut_short { OnErr result (AppendsSome (W.holds writer.old) (W.holds writer.new)
        (spec.mark_of name.now)) }
{
    writer.write_all(mark_of(name))
}

/// What the line of a name begins with.
pub(crate) fn mark_of(name: &[u8]) -> &'static [u8]
    ensures mark { result.now ≡ spec.mark_of name.now }
    ensures bound { length result.now ≤ 1 }
{
    if has_escapes(name) { &[BACKSLASH] } else { &[] }
}

/// Writes the digits of a digest, and two blanks.
fn write_digits<W: Sink>(digest: &[u8; 32], writer: &mut W) -> Result<(), Failed>
    ensures failed { W.failed writer.new ≡ failed_after (W.failed writer.old) result }
    ensures ok { OnOk result (Appends (W.holds writer.old) (W.holds writer.new)
        (spec.digits_of digest.now)) }
    ensures cut_short { OnErr result (AppendsSome (W.holds writer.old) (W.holds writer.new)
        (spec.digits_of digest.now)) }
{
    writer.write_all(&digits_of(digest))
}

/// The digits of a digest, and two blanks.
pub(crate) fn digits_of(digest: &[u8; 32]) -> [u8; BEFORE_NAME]
    ensures { result ≡ spec.digits_of digest.now }
{
    let mut text = [BLANK; BEFORE_NAME];
    hex::encode_to_slice(digest, &mut text[..64]).unwrap();
    text
}

/// Writes a name, with the bytes escaped that have to be.
fn write_name<W: Sink>(name: &[u8], writer: &mut W) -> Result<(), Failed>
    ensures failed { W.failed writer.new ≡ failed_after (W.failed writer.old) result }
    ensures ok { OnOk result (Appends (W.holds writer.old) (W.holds writer.new)
        (flat_map spec.escaped name.now)) }
    ensures cut_short { OnErr result (AppendsSome (W.holds writer.old) (W.holds writer.new)
        (flat_map spec.escaped name.now)) }
{
    if !has_escapes(name) {
        return writer.write_all(name);
    }
    'name: for &byte in name {
        write_byte(byte, writer)?;
    }
    Ok(())
}

/// Writes a byte of a name, escaped where it has to be.
fn write_byte<W: Sink>(byte: u8, writer: &mut W) -> Result<(), Failed>
    ensures failed { W.failed writer.new ≡ failed_after (W.failed writer.old) result }
    ensures ok { OnOk result (Appends (W.holds writer.old) (W.holds writer.new)
        (spec.escaped byte)) }
    ensures cut_short { OnErr result (AppendsSome (W.holds writer.old) (W.holds writer.new)
        (spec.escaped byte)) }
{
    match escape_of(byte) {
        Some(escape) => writer.write_all(escape),
        None => writer.write_all(&[byte]),
    }
}

/// What stands in the line for a byte that is escaped; none where the byte stands for itself.
pub(crate) fn escape_of(byte: u8) -> Option<&'static [u8]>
    ensures escaped { IfSome result (λ escape. escape.now ≡ spec.escaped byte) }
    ensures plain { IfNone result (spec.escaped byte ≡ byte ∷ []) }
{
    match byte {
        BACKSLASH => Some(&[BACKSLASH, BACKSLASH]),
        LINE_FEED => Some(&[BACKSLASH, LETTER_N]),
        CARRIAGE_RETURN => Some(&[BACKSLASH, LETTER_R]),
        _ => None,
    }
}

/// Whether a name has a byte that is escaped.
pub(crate) fn has_escapes(name: &[u8]) -> bool
    ensures { result ≡ list_any spec.is_escaped name.now }
{
    name.iter().any(|&byte| byte == BACKSLASH || byte == LINE_FEED || byte == CARRIAGE_RETURN)
}
