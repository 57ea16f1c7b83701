//! What a refusal of a block speaks of in its line.

ghost use Rattle.std.specs.Prelude.{◌≡◌, not};
ghost use Rattle.std.specs.Char.{is_ascii_digit};
ghost use Rattle.std.specs.List.{position};
ghost use Rattle.refusal_places.specs.Meant as spec;

use crate::number::{first_other, number_after};
use gsi_word::{CODE_INFORMATION, HORIZONTAL_DIRECTION, POINT_NUMBER, VERTICAL_ANGLE};

/// What a refusal speaks of in the line of its block.
#[derive(Clone, Copy, Debug, PartialEq, Eq)]
pub enum Meant {
    /// The byte of this number, from 1.
    Byte(u64),
    /// What stands where the word of this number, from 1, would begin.
    Word(u64),
    /// The first word of this index.
    Index(u8),
}

/// What the line of a refusal of a block speaks of; nothing where it speaks of no part of the block
/// by itself.
pub fn meant_in(line: &[u8]) -> Option<Meant>
    ensures { result ≡ spec.meant_in line.now }
{
    meant_by(fault_in(line))
}

/// What a fault speaks of.
fn meant_by(fault: &[u8]) -> Option<Meant>
    ensures { result ≡ spec.meant_by fault.now }
{
    match numbered_meant(fault) {
        Some(meant) => Some(meant),
        None => match index_meant(fault) {
            Some(index) => Some(Meant::Index(index)),
            None => None,
        },
    }
}

/// What stands after the digits that a text begins with.
fn after_digits(text: &[u8]) -> &[u8]
    ensures { result.now ≡ spec.after_digits text.now }
{
    match first_other(text) {
        Some(at) => &text[at..],
        None => &[],
    }
}

/// A text without these words, where it begins with them.
fn without<'a>(text: &'a [u8], words: &[u8]) -> &'a [u8]
    ensures { result.now ≡ spec.without words.now text.now }
{
    if text.starts_with(words) {
        &text[words.len()..]
    } else {
        text
    }
}

/// The fault in the line of a refusal: its name, and what it carries.
fn fault_in(line: &[u8]) -> &[u8]
    ensures { result.now ≡ spec.fault_in line.now }
{
    let fault = without(after_digits(without(line, b"refused: block ")), b": ");
    without(fault, b"mark: ")
}

/// The byte or the word of a number that a fault names.
fn numbered_meant(fault: &[u8]) -> Option<Meant>
    ensures { result ≡ spec.numbered_meant fault.now }
{
    if let Some(number) = number_after(fault, b"Byte ") {
        return Some(Meant::Byte(number));
    }
    if let Some(number) = number_after(fault, b"Word ") {
        return Some(Meant::Word(number));
    }
    if fault.starts_with(b"FirstWord") {
        return Some(Meant::Word(1));
    }
    None
}

/// The index of the word that a fault speaks of.
fn index_meant(fault: &[u8]) -> Option<u8>
    ensures { result ≡ spec.index_meant fault.now }
{
    if is_of_target(fault) {
        Some(POINT_NUMBER)
    } else if is_of_direction(fault) {
        Some(HORIZONTAL_DIRECTION)
    } else if is_of_zenith(fault) {
        Some(VERTICAL_ANGLE)
    } else if is_of_information(fault) {
        Some(CODE_INFORMATION)
    } else {
        None
    }
}

/// Whether a fault speaks of the target that is read.
fn is_of_target(fault: &[u8]) -> bool
    ensures { result ≡ spec.is_of_target fault.now }
{
    fault.starts_with(b"TooManyTargets")
        || fault.starts_with(b"ReadTwice")
        || fault.starts_with(b"FaceMissing")
        || fault.starts_with(b"Order")
        || fault.starts_with(b"EndsElsewhere")
        || fault.starts_with(b"PairAfter")
        || fault.starts_with(b"OtherTargets")
        || fault.starts_with(b"SightsItself")
}

/// Whether a fault speaks of the direction.
fn is_of_direction(fault: &[u8]) -> bool
    ensures { result ≡ spec.is_of_direction fault.now }
{
    fault.starts_with(b"WordTwice 21")
        || fault.starts_with(b"Hz ")
        || fault.starts_with(b"FaceTwice")
        || fault.starts_with(b"TwoC")
}

/// Whether a fault speaks of the zenith angle.
fn is_of_zenith(fault: &[u8]) -> bool
    ensures { result ≡ spec.is_of_zenith fault.now }
{
    fault.starts_with(b"WordTwice 22")
        || fault.starts_with(b"Zenith ")
        || fault.starts_with(b"FaceUnclear")
        || fault.starts_with(b"FirstFace")
        || fault.starts_with(b"TwoI")
}

/// Whether a fault speaks of the name of a station or the number of a set.
fn is_of_information(fault: &[u8]) -> bool
    ensures { result ≡ spec.is_of_information fault.now }
{
    fault.starts_with(b"WordTwice 42")
        || fault.starts_with(b"SetNumber")
        || fault.starts_with(b"StationTwice")
        || fault.starts_with(b"SetTwice")
}
