//! A number that stands in a line after some words.

ghost use Rattle.std.specs.Prelude.{◌≡◌, not};
ghost use Rattle.std.specs.Char.{is_ascii_digit};
ghost use Rattle.std.specs.List.{position};
ghost use Rattle.refusal_places.specs.Numbers as spec;

use gsi_word::decimal_number;

/// The most digits of a number.
const MOST_DIGITS: usize = 10;

/// The place of the first byte that is no digit.
pub(crate) fn first_other(text: &[u8]) -> Option<usize>
    ensures { result ≡ position (λ b. not (is_ascii_digit b)) text.now }
{
    text.iter().position(|byte| !byte.is_ascii_digit())
}

/// The digits that a text begins with.
fn first_digits(text: &[u8]) -> &[u8]
    ensures { result.now ≡ spec.first_digits text.now }
{
    match first_other(text) {
        Some(at) => &text[..at],
        None => text,
    }
}

/// The number that so few digits write.
fn number_of(digits: &[u8]) -> Option<u64>
    ensures { result ≡ spec.number_of digits.now }
{
    if digits.is_empty() || digits.len() > MOST_DIGITS {
        None
    } else {
        decimal_number(digits)
    }
}

/// The number that stands after these words, with which a line begins.
pub(crate) fn number_after(line: &[u8], words: &[u8]) -> Option<u64>
    ensures { result ≡ spec.number_after words.now line.now }
{
    if line.starts_with(words) {
        number_of(first_digits(&line[words.len()..]))
    } else {
        None
    }
}
