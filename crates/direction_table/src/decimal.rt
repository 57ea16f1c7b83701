//! Decimal numbers without a sign, as text.

ghost use Rattle.std.specs.Prelude.{◌≡◌, ◌==◌, ◌<◌, ◌≤◌, ◌^◌, ◌*◌, ◌-◌, length, true, false};
ghost use Rattle.std.specs.Prelude.{IfSome, IfNone, OnSome};
ghost use Rattle.std.specs.Char.{is_ascii_digit};
ghost use Rattle.std.specs.List.{list_all, position};
ghost use Rattle.std.specs.Str.Parse.{digits_value};
ghost use Rattle.sheet_format.specs.Numbers.{zero_digit};
ghost use Rattle.direction_table.specs.DecimalNumbers as spec;

use sheet_format::of_digits;

/// The most digits before the point of a number that is read, and the most decimals that count.
pub const MOST_DIGITS: usize = 9;

/// The number of at most nine digits; of none it is 0.
fn few_digits(digits: &[u8]) -> Option<u64>
    requires { length digits.now ≤ MOST_DIGITS }
    ensures value { IfSome result (λ number. number ≡ digits_value 10 digits.now) }
    ensures bound { IfSome result (λ number. number < 10 ^ 9) }
    ensures some { OnSome result (list_all is_ascii_digit digits.now ≡ true) }
    ensures none { IfNone result (list_all is_ascii_digit digits.now ≡ false) }
{
    of_digits(digits)
}

/// The number before a point, if it is of at most so many digits.
pub(crate) fn whole_of(digits: &[u8], most: usize) -> Option<u64>
    requires { most ≤ MOST_DIGITS }
    ensures value { IfSome result (λ number. number ≡ digits_value 10 digits.now) }
    ensures bound { IfSome result (λ number. number < 10 ^ 9) }
    ensures some { OnSome result (spec.is_whole most digits.now ≡ true) }
    ensures none { IfNone result (spec.is_whole most digits.now ≡ false) }
{
    if digits.len() > most {
        return None;
    }
    few_digits(digits)
}

/// Whether these digits are all 0.
fn are_zeros(digits: &[u8]) -> bool
    ensures { result ≡ list_all (λ digit. digit == zero_digit) digits.now }
{
    digits.iter().all(|digit| *digit == b'0')
}

/// At most so many decimals, in units of the last of so many.
pub(crate) fn counted_decimals(digits: &[u8], most: usize) -> Option<u64>
    requires most { most ≤ MOST_DIGITS }
    requires few { length digits.now ≤ most }
    ensures value { IfSome result
        (λ number. number ≡ digits_value 10 digits.now * 10 ^ (most - length digits.now)) }
    ensures bound { IfSome result (λ number. number < 10 ^ 18) }
    ensures some { OnSome result (list_all is_ascii_digit digits.now ≡ true) }
    ensures none { IfNone result (list_all is_ascii_digit digits.now ≡ false) }
{
    let number = few_digits(digits)?;
    Some(number * 10u64.pow((most - digits.len()) as u32))
}

/// The decimals after a point, of which so many count, in units of the last that counts.
fn fraction_of(digits: &[u8], most: usize) -> Option<u64>
    requires { most ≤ MOST_DIGITS }
    ensures value { IfSome result (λ number. number ≡ spec.fraction_value most digits.now) }
    ensures bound { IfSome result (λ number. number < 10 ^ 18) }
    ensures some { OnSome result (spec.is_fraction most digits.now ≡ true) }
    ensures none { IfNone result (spec.is_fraction most digits.now ≡ false) }
{
    let (counted, beyond) = digits.split_at(digits.len().min(most));
    let fraction = counted_decimals(counted, most)?;
    if !are_zeros(beyond) {
        return None;
    }
    Some(fraction)
}

/// The place of the first decimal point or comma.
fn first_mark(bytes: &[u8]) -> Option<usize>
    ensures value { result ≡ position (λ b. spec.is_mark b) bytes.now }
    ensures inside { IfSome result (λ place. place < length bytes.now) }
{
    bytes.iter().position(|b| *b == b'.' || *b == b',')
}

/// The place of the decimal point or comma of a number, or its end.
pub(crate) fn mark_of(bytes: &[u8]) -> usize
    ensures value { result ≡ spec.mark_of bytes.now }
    ensures inside { result ≤ length bytes.now }
{
    first_mark(bytes).unwrap_or(bytes.len())
}

/// What follows the first byte.
pub(crate) fn after_first(bytes: &[u8]) -> &[u8]
    ensures value { result.now ≡ spec.after_first bytes.now }
{
    match bytes {
        [] => &[],
        [_, rest @ ..] => rest,
    }
}

/// A decimal number without a sign.
#[derive(Clone, Copy)]
pub struct Size {
    /// In units of the last decimal that counts.
    pub value: u64,
    /// How many digits stand before the point.
    pub whole_digits: usize,
    /// How many decimals are written.
    pub decimals: usize,
}

/// The number that bytes write without a sign: at most `most_whole` digits before the point or
/// comma, and any number after it. `most_decimals` of them count, and those after them are 0.
pub fn read_decimal(bytes: &[u8], most_whole: usize, most_decimals: usize) -> Option<Size>
    requires whole { most_whole ≤ MOST_DIGITS }
    requires decimals { most_decimals ≤ MOST_DIGITS }
    ensures value { IfSome result
        (λ size. size.value ≡ spec.decimal_value most_decimals bytes.now) }
    ensures whole_digits { IfSome result
        (λ size. size.whole_digits ≡ length (spec.whole_part bytes.now)) }
    ensures decimals { IfSome result
        (λ size. size.decimals ≡ length (spec.decimals_part bytes.now)) }
    ensures some { OnSome result (spec.is_decimal most_whole most_decimals bytes.now ≡ true) }
    ensures none { IfNone result (spec.is_decimal most_whole most_decimals bytes.now ≡ false) }
{
    let (whole, rest) = bytes.split_at(mark_of(bytes));
    let decimals = after_first(rest);
    if whole.len() + decimals.len() == 0 {
        return None;
    }
    let number = whole_of(whole, most_whole)?;
    let fraction = fraction_of(decimals, most_decimals)?;
    Some(Size {
        value: number * 10u64.pow(most_decimals as u32) + fraction,
        whole_digits: whole.len(),
        decimals: decimals.len(),
    })
}

/// The most places by which a point is moved to the right.
pub(crate) const MOST_SHIFT: usize = 2;

/// The most digits before a point that was moved.
const MOST_SHIFTED_WHOLE: usize = 3;

/// 1, in units of the last of the decimals that count.
const ONE: u128 = 1_000_000_000;

/// Whether these are digits.
fn are_digits(digits: &[u8]) -> bool
    ensures { result ≡ list_all is_ascii_digit digits.now }
{
    digits.iter().all(|digit| digit.is_ascii_digit())
}

/// Decimals after a point.
#[derive(Clone, Copy)]
pub(crate) struct Decimals {
    /// Those that count, in units of the last of them.
    pub(crate) value: u64,
    /// Whether those after them are 0.
    pub(crate) is_whole: bool,
}

/// Any number of decimals, of which nine count.
pub(crate) fn decimals_of(digits: &[u8]) -> Option<Decimals>
    ensures value { IfSome result (λ d. d.value ≡ spec.fraction_value MOST_DIGITS digits.now) }
    ensures bound { IfSome result (λ d. d.value < 10 ^ 18) }
    ensures whole { IfSome result (λ d. d.is_whole ≡ spec.end_in_zeros MOST_DIGITS digits.now) }
    ensures some { OnSome result (spec.are_decimals MOST_DIGITS digits.now ≡ true) }
    ensures none { IfNone result (spec.are_decimals MOST_DIGITS digits.now ≡ false) }
{
    let (counted, beyond) = digits.split_at(digits.len().min(MOST_DIGITS));
    let value = counted_decimals(counted, MOST_DIGITS)?;
    if !are_digits(beyond) {
        return None;
    }
    Some(Decimals {
        value,
        is_whole: are_zeros(beyond),
    })
}

/// A decimal number without a sign, of which nine decimals count.
#[derive(Clone, Copy)]
pub(crate) struct Number {
    /// In units of the ninth decimal; what stands past it is left out.
    pub(crate) value: u128,
    /// Whether nothing but zeros is left out.
    pub(crate) is_whole: bool,
    /// How many digits stand before the point, as it is written.
    pub(crate) whole_digits: usize,
    /// How many decimals are written.
    pub(crate) decimals: usize,
}

/// The number that bytes write without a sign, with its point moved to the right by so many places:
/// then at most three digits stand before it, and any number after it.
pub(crate) fn read_shifted(bytes: &[u8], shift: usize) -> Option<Number>
    requires { shift ≤ MOST_SHIFT }
    ensures value { IfSome result (λ n. n.value ≡ spec.shifted_value shift bytes.now) }
    ensures bound { IfSome result (λ n. n.value < 10 ^ 30) }
    ensures whole { IfSome result (λ n. n.is_whole ≡ spec.is_shifted_whole shift bytes.now) }
    ensures whole_digits { IfSome result
        (λ n. n.whole_digits ≡ length (spec.whole_part bytes.now)) }
    ensures decimals { IfSome result
        (λ n. n.decimals ≡ length (spec.decimals_part bytes.now)) }
    ensures some { OnSome result (spec.is_shifted shift bytes.now ≡ true) }
    ensures none { IfNone result (spec.is_shifted shift bytes.now ≡ false) }
{
    let (whole, rest) = bytes.split_at(mark_of(bytes));
    let decimals = after_first(rest);
    if decimals.len() + whole.len() == 0 {
        return None;
    }
    let number = whole_of(whole, MOST_SHIFTED_WHOLE - shift)?;
    let (passed, left) = decimals.split_at(decimals.len().min(shift));
    let moved = counted_decimals(passed, shift)?;
    let fraction = decimals_of(left)?;
    let ones = u128::from(number) * 10u128.pow(shift as u32) + u128::from(moved);
    Some(Number {
        value: ones * ONE + u128::from(fraction.value),
        is_whole: fraction.is_whole,
        whole_digits: whole.len(),
        decimals: decimals.len(),
    })
}
