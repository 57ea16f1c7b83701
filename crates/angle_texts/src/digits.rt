//! Digits of a number, as text.
ghost use Rattle.std.specs.Prelude.{◌≡◌};
ghost use Rattle.direction_table.specs.Texts.{last_digit};

/// The last digit of a number, as text.
pub fn digit(number: u64) -> u8
    ensures { result ≡ last_digit number }
{
    b'0' + (number % 10) as u8
}
