//! What a line says of a station.

ghost use Rattle.std.specs.Prelude.{◌≡◌, option_map};
ghost use Rattle.station_tables.specs.Said as spec;

use adjust_kernel::{LONGEST_NAME, Name};
use arrayvec::ArrayVec;

/// The byte before and after a name that is quoted.
const QUOTE: u8 = b'"';

/// Bytes of a name in double quotes, at most.
const LONGEST_QUOTED: usize = 2 + 2 * LONGEST_NAME;

/// Whether a byte stands between the name of a station and what is said of it.
fn is_separator(byte: u8) -> bool
    ensures { result ≡ spec.is_separator byte }
{
    byte == b',' || byte == b';' || byte == b'\t'
}

/// What stands after the separator at the beginning of a text, where it begins with one.
fn after_separator(text: &[u8]) -> Option<&[u8]>
    ensures { option_map (λ said. said.now) result ≡ spec.after_separator text.now }
{
    let (byte, said) = text.split_first()?;
    if is_separator(*byte) {
        Some(said)
    } else {
        None
    }
}

/// What a line has after this front and a separator, where it begins with them.
fn after_front<'a>(front: &[u8], line: &'a [u8]) -> Option<&'a [u8]>
    ensures { option_map (λ said. said.now) result ≡ spec.after_front front.now line.now }
{
    if !line.starts_with(front) {
        return None;
    }
    after_separator(&line[front.len()..])
}

/// A name in double quotes, with each quote of it doubled.
fn quoted(name: Name) -> ArrayVec<u8, LONGEST_QUOTED>
    ensures { result.items ≡ spec.quoted name }
{
    let mut quoted = ArrayVec::<u8, LONGEST_QUOTED>::new();
    quoted.try_push(QUOTE).unwrap();
    'bytes: for &byte in name.bytes() {
        if byte == QUOTE {
            quoted.try_push(QUOTE).unwrap();
        }
        quoted.try_push(byte).unwrap();
    }
    quoted.try_push(QUOTE).unwrap();
    quoted
}

/// What a line says of the station of this name, where it is of that.
pub(crate) fn said_of<'a>(name: Name, line: &'a [u8]) -> Option<&'a [u8]>
    ensures { option_map (λ said. said.now) result ≡ spec.said_of name line.now }
{
    // Most lines begin without a quote: then no name is put into quotes.
    match line.first() {
        Some(&QUOTE) => match after_front(name.bytes(), line) {
            Some(said) => Some(said),
            None => after_front(quoted(name).as_slice(), line),
        },
        _ => after_front(name.bytes(), line),
    }
}
