//! Decimal numbers, as programs print directions in gon, and those in degrees without minutes.

ghost use Rattle.std.specs.Prelude.{◌≡◌, ◌<◌, ◌≤◌, ◌^◌, ◌/◌, ◌%◌, ◌==◌, ◌&&◌, length, true, false};
ghost use Rattle.std.specs.Prelude.{◌+◌, ◌-◌, ◌∷◌, IfSome, IfNone, OnSome};
ghost use Rattle.std.specs.List.{position};
ghost use Rattle.std.specs.Str.Parse.{digits_value};
ghost use Rattle.direction_table.specs.Gons as spec;

use crate::decimal::{MOST_SHIFT, Number, after_first, read_shifted, whole_of};

/// A gon, in units of the ninth decimal.
pub const GON: u64 = 1_000_000_000;

/// The most decimals of a number that count.
pub(crate) const MOST_DECIMALS: usize = 9;

/// The most digits before the point, and of an exponent.
pub(crate) const MOST_WHOLE: usize = 3;

/// No number that is read has more digits, those of its nine decimals among them.
const MOST_POWER: u64 = 30;

/// A number without its sign.
#[derive(Clone, Copy)]
pub(crate) struct Size {
    /// In units of the ninth decimal; what stands past it is left out.
    pub(crate) value: u128,
    /// Whether nothing but zeros is left out.
    pub(crate) is_whole: bool,
    /// How many decimals it has.
    pub(crate) decimals: u128,
}

/// Whether a byte is the letter before an exponent.
fn is_letter(byte: u8) -> bool
    ensures { result ≡ spec.is_letter byte }
{
    byte == b'e' || byte == b'E'
}

/// Whether a number has an exponent.
pub(crate) fn has_exponent(bytes: &[u8]) -> bool
    ensures { result ≡ spec.has_exponent bytes.now }
{
    bytes.iter().any(|b| is_letter(*b))
}

/// The place of the first letter before an exponent.
fn first_letter(bytes: &[u8]) -> Option<usize>
    ensures value { result ≡ position (λ b. spec.is_letter b) bytes.now }
    ensures inside { IfSome result (λ place. place < length bytes.now) }
{
    bytes.iter().position(|b| is_letter(*b))
}

/// The place of the letter of a number, or its end.
fn letter_of(bytes: &[u8]) -> usize
    ensures value { result ≡ spec.letter_of bytes.now }
    ensures inside { result ≤ length bytes.now }
{
    first_letter(bytes).unwrap_or(bytes.len())
}

/// The power of ten that the digits of an exponent write: one to three of them.
fn power_of(digits: &[u8]) -> Option<u64>
    ensures value { IfSome result (λ power. power ≡ digits_value 10 digits.now) }
    ensures bound { IfSome result (λ power. power < 10 ^ 9) }
    ensures some { OnSome result (spec.are_power digits.now ≡ true) }
    ensures none { IfNone result (spec.are_power digits.now ≡ false) }
{
    if digits.is_empty() {
        return None;
    }
    whole_of(digits, MOST_WHOLE)
}

/// How often a power of ten is in a number.
#[derive(Clone, Copy)]
struct Quotient {
    /// The whole number of times; what is left over is left out.
    value: u128,
    /// Whether nothing is left over.
    is_whole: bool,
}

/// A number divided by a power of ten.
fn divided(value: u128, power: u64) -> Quotient
    requires { value < 10 ^ 30 }
    ensures value { result.value ≡ value / 10 ^ power }
    ensures whole { result.is_whole ≡ (value % 10 ^ power == 0) }
{
    if power > MOST_POWER {
        return Quotient {
            value: 0,
            is_whole: value == 0,
        };
    }
    let divisor = 10u128.pow(power as u32);
    Quotient {
        value: value / divisor,
        is_whole: value % divisor == 0,
    }
}

/// A number whose exponent has a minus.
fn lowered(number: Number, power: u64) -> Size
    requires value { number.value < 10 ^ 30 }
    requires power { power < 10 ^ 9 }
    ensures value { result.value ≡ number.value / 10 ^ power }
    ensures whole { result.is_whole ≡ (number.is_whole && (number.value % 10 ^ power == 0)) }
    ensures decimals { result.decimals ≡ number.decimals + power }
{
    let divided = divided(number.value, power);
    Size {
        value: divided.value,
        is_whole: number.is_whole && divided.is_whole,
        decimals: number.decimals as u128 + u128::from(power),
    }
}

/// A number whose exponent has a plus or none.
fn raised(number: Number, power: u64) -> Size
    ensures value { result.value ≡ number.value }
    ensures whole { result.is_whole ≡ number.is_whole }
    ensures decimals { result.decimals ≡ number.decimals - power }
{
    Size {
        value: number.value,
        is_whole: number.is_whole,
        decimals: (number.decimals as u128).saturating_sub(u128::from(power)),
    }
}

/// The number of a mantissa whose exponent has this sign and these digits.
fn raised_of(mantissa: &[u8], sign: u8, digits: &[u8]) -> Option<Size>
    ensures value { IfSome result
        (λ size. size.value ≡ spec.scaled_value mantissa.now (sign ∷ digits.now)) }
    ensures bound { IfSome result (λ size. size.value < 10 ^ 30) }
    ensures whole { IfSome result
        (λ size. size.is_whole ≡ spec.is_scaled_whole mantissa.now (sign ∷ digits.now)) }
    ensures decimals { IfSome result
        (λ size. size.decimals ≡ spec.scaled_decimals mantissa.now (sign ∷ digits.now)) }
    ensures some { OnSome result (spec.is_raised mantissa.now sign digits.now ≡ true) }
    ensures none { IfNone result (spec.is_raised mantissa.now sign digits.now ≡ false) }
{
    let power = power_of(digits)?;
    if sign == b'-' {
        return Some(lowered(read_shifted(mantissa, 0)?, power));
    }
    if sign != b'+' || power > MOST_SHIFT as u64 {
        return None;
    }
    Some(raised(read_shifted(mantissa, power as usize)?, power))
}

/// The number of a mantissa and an exponent.
fn scaled_of(mantissa: &[u8], exponent: &[u8]) -> Option<Size>
    ensures value { IfSome result
        (λ size. size.value ≡ spec.scaled_value mantissa.now exponent.now) }
    ensures bound { IfSome result (λ size. size.value < 10 ^ 30) }
    ensures whole { IfSome result
        (λ size. size.is_whole ≡ spec.is_scaled_whole mantissa.now exponent.now) }
    ensures decimals { IfSome result
        (λ size. size.decimals ≡ spec.scaled_decimals mantissa.now exponent.now) }
    ensures some { OnSome result (spec.is_scaled mantissa.now exponent.now ≡ true) }
    ensures none { IfNone result (spec.is_scaled mantissa.now exponent.now ≡ false) }
{
    match exponent {
        [] => None,
        [sign, digits @ ..] => raised_of(mantissa, *sign, digits),
    }
}

/// The number that bytes write without a sign.
pub(crate) fn size_of(bytes: &[u8]) -> Option<Size>
    ensures value { IfSome result (λ size. size.value ≡ spec.size_value bytes.now) }
    ensures bound { IfSome result (λ size. size.value < 10 ^ 30) }
    ensures whole { IfSome result (λ size. size.is_whole ≡ spec.is_whole_size bytes.now) }
    ensures decimals { IfSome result (λ size. size.decimals ≡ spec.size_decimals bytes.now) }
    ensures some { OnSome result (spec.is_size bytes.now ≡ true) }
    ensures none { IfNone result (spec.is_size bytes.now ≡ false) }
{
    if !has_exponent(bytes) {
        return Some(raised(read_shifted(bytes, 0)?, 0));
    }
    let (mantissa, rest) = bytes.split_at(letter_of(bytes));
    scaled_of(mantissa, after_first(rest))
}
