//! The name of a file, added to a text that has it on a line.

ghost use Rattle.std.specs.Prelude.{◌≡◌, ◌++◌, OnOk, OnErr, Some};
ghost use Rattle.std.specs.List.{flat_map, list_any};
ghost use Rattle.byte_digests.specs.NameTexts as spec;
ghost use Rattle.byte_ends.specs.Sink.{AppendsSome};

use crate::digest_line::{BACKSLASH, BLANK, CARRIAGE_RETURN, LINE_FEED, escape_of, has_escapes};
use std::alloc::AllocError;

/// The control byte that is above all others: those below a blank are control bytes too.
const DELETE: u8 = 0x7F;

/// What a code begins with, after a backslash.
const LETTER_X: u8 = b'x';

/// Adds the name of a file to a text: a backslash, a line feed and a carriage return escaped as the
/// line of its digest has them, each other control byte as `\x` and two digits, and a backslash
/// before a name that has one of these.
///
/// The only error is that memory was refused; then a beginning of it may have been added.
pub fn push_name(text: &mut Vec<u8>, name: &[u8]) -> Result<(), AllocError>
    ensures added { OnOk result (text.new.items ≡ text.old.items ++ spec.name_text name.now) }
    ensures begun { OnErr result (AppendsSome (Some text.old.items) (Some text.new.items)
        (spec.name_text name.now)) }
{
    text.extend_from_slice(mark_of(name))?;
    push_shown(text, name)
}

/// What a name begins with.
fn mark_of(name: &[u8]) -> &'static [u8]
    ensures { result.now ≡ spec.name_mark name.now }
{
    if has_escapes(name) || has_codes(name) {
        &[BACKSLASH]
    } else {
        &[]
    }
}

/// Whether a name has a byte that is written as a code.
fn has_codes(name: &[u8]) -> bool
    ensures { result ≡ list_any spec.is_coded name.now }
{
    name.iter().any(|&byte| is_coded(byte))
}

/// Whether a byte is written as a code.
fn is_coded(byte: u8) -> bool
    ensures { result ≡ spec.is_coded byte }
{
    match byte {
        BACKSLASH | LINE_FEED | CARRIAGE_RETURN => false,
        _ => byte < BLANK || byte == DELETE,
    }
}

/// Adds the bytes of a name, as the text has them.
fn push_shown(text: &mut Vec<u8>, name: &[u8]) -> Result<(), AllocError>
    ensures added { OnOk result (text.new.items ≡ text.old.items ++ flat_map spec.shown name.now) }
    ensures begun { OnErr result (AppendsSome (Some text.old.items) (Some text.new.items)
        (flat_map spec.shown name.now)) }
{
    'bytes: for &byte in name {
        push_byte(text, byte)?;
    }
    Ok(())
}

/// Adds a byte of a name, as the text has it.
fn push_byte(text: &mut Vec<u8>, byte: u8) -> Result<(), AllocError>
    ensures added { OnOk result (text.new.items ≡ text.old.items ++ spec.shown byte) }
    ensures begun { OnErr result (AppendsSome (Some text.old.items) (Some text.new.items)
        (spec.shown byte)) }
{
    if is_coded(byte) {
        text.extend_from_slice(&code_of(byte))?;
        return Ok(());
    }
    match escape_of(byte) {
        Some(escape) => text.extend_from_slice(escape)?,
        None => text.push(byte)?,
    }
    Ok(())
}

/// The code of a byte.
fn code_of(byte: u8) -> [u8; 4]
    ensures { result ≡ spec.code_of byte }
{
    let mut digits = [0; 2];
    hex::encode_to_slice(&[byte], &mut digits).unwrap();
    [BACKSLASH, LETTER_X, digits[0], digits[1]]
}
