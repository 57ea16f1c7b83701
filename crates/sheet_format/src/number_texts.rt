//! Numbers of observations as text, of which most are as the one before.

ghost use Rattle.std.specs.Prelude.{◌≡◌, ◌≤◌, take};
ghost use Rattle.std.specs.Fmt.{decimal, signed_decimal};
ghost use Rattle.sheet_format.specs.declared.number_texts.TheConstants.{MOST_DIGITS};

use itoa::Buffer;

/// The most digits of a set's number.
const MOST_DIGITS: usize = 5;

/// The text of an observation's full turns, of which most are 0.
pub(crate) fn turn_text<'a>(turn: i8, buffer: &'a mut Buffer) -> &'a [u8]
    ensures { result.now ≡ signed_decimal turn }
{
    match turn {
        0 => b"0",
        turn => buffer.format(turn).as_bytes(),
    }
}

/// The text of a set's number, which many rows have one after another: it is made anew only where
/// another number comes.
#[derive(Drop)]
pub(crate) struct SetNumber {
    number: u16,
    length: usize,
    digits: [u8; MOST_DIGITS],
    ghost fits: { length ≤ MOST_DIGITS },
    ghost text: { take length digits ≡ decimal number },
}

impl SetNumber {
    /// The text of 0.
    pub(crate) fn new() -> SetNumber {
        SetNumber::of(0)
    }

    /// The text of this number.
    pub(crate) fn text(&mut self, number: u16) -> &[u8]
        ensures { result.now ≡ decimal number }
    {
        if number != self.number {
            *self = SetNumber::of(number);
        }
        &self.digits[..self.length]
    }

    /// The text of this number, made anew.
    fn of(number: u16) -> SetNumber
        ensures { result.number ≡ number }
    {
        let mut buffer = Buffer::new();
        let text = buffer.format(number).as_bytes();
        let mut digits = [b'0'; MOST_DIGITS];
        digits[..text.len()].copy_from_slice(text);
        SetNumber {
            number,
            length: text.len(),
            digits,
        }
    }
}
