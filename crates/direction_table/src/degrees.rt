//! Directions in degrees, minutes and seconds as text.

ghost use Rattle.std.specs.Prelude.{◌≡◌, ◌<◌, ◌≤◌, ◌==◌, ◌^◌, length, not, true, false, IfSome};
ghost use Rattle.std.specs.Prelude.{IfNone, OnSome};
ghost use Rattle.std.specs.List.{list_any, position, prefix_len};
ghost use Rattle.std.specs.Str.{bytes_eq};
ghost use Rattle.std.specs.Str.Parse.{digits_value};
ghost use Rattle.direction_table.specs.DecimalNumbers.{decimals_part};
ghost use Rattle.direction_table.specs.Degrees as spec;

use crate::decimal::{after_first, counted_decimals, decimals_of, mark_of, read_shifted, whole_of};
use crate::direction::{Angle, COARSEST_STEP, FINEST_STEP, SECOND_PARTS};
use crate::field::without_blanks_before;
use crate::gon::MOST_WHOLE;

/// Parts in a degree.
pub const DEGREE: u64 = 90_000_000_000;

/// Minutes in a degree, and seconds in a minute.
const SIXTIETHS: u64 = 60;

/// Parts in a minute.
pub const MINUTE: u64 = DEGREE / SIXTIETHS;

/// A second, in units of its ninth decimal.
const SECOND: u128 = 1_000_000_000;

/// A part, in units of the ninth decimal of a second.
const PART: u128 = 40;

/// The first byte of the sign of degrees.
const DEGREE_SIGN: u8 = 0xC2;

/// Its second byte.
const DEGREE_SIGN_END: u8 = 0xB0;

/// Digits of minutes, and of whole seconds.
const SIXTIETHS_DIGITS: usize = 2;

/// The decimals of seconds whose step is a whole number of parts.
const MOST_SECONDS_DECIMALS: usize = 6;

/// The place of the first of such bytes.
fn first_of(bytes: &[u8], mark: u8) -> Option<usize>
    ensures value { result ≡ position (λ b. b == mark) bytes.now }
    ensures inside { IfSome result (λ place. place < length bytes.now) }
{
    bytes.iter().position(|b| *b == mark)
}

/// The place of the first of such bytes, or the end.
fn place_of(bytes: &[u8], mark: u8) -> usize
    ensures value { result ≡ spec.place_of mark bytes.now }
    ensures inside { result ≤ length bytes.now }
{
    first_of(bytes, mark).unwrap_or(bytes.len())
}

/// What stands before the first of such bytes, and after it.
pub(crate) fn cut(bytes: &[u8], mark: u8) -> (&[u8], &[u8])
    ensures before { result.0.now ≡ spec.before mark bytes.now }
    ensures after { result.1.now ≡ spec.after mark bytes.now }
{
    let (before, rest) = bytes.split_at(place_of(bytes, mark));
    (before, after_first(rest))
}

/// The bytes after one that they begin with; none, where they begin with another.
fn without_first(bytes: &[u8], mark: u8) -> &[u8]
    ensures { result.now ≡ spec.without_first mark bytes.now }
{
    match bytes {
        [first, rest @ ..] if *first == mark => rest,
        _ => &[],
    }
}

/// The bytes after a sign of minutes that they begin with; none, where they begin with none.
fn without_minute_sign(bytes: &[u8]) -> &[u8]
    ensures { result.now ≡ spec.without_sign spec.minute_signs bytes.now }
{
    match bytes {
        [b'\'', rest @ ..] => rest,
        [0xE2, 0x80, 0xB2, rest @ ..] => rest,
        [0xE2, 0x80, 0x99, rest @ ..] => rest,
        _ => &[],
    }
}

/// Whether bytes are a sign of seconds and nothing more.
fn is_second_sign(bytes: &[u8]) -> bool
    ensures { result ≡ list_any (λ sign. bytes_eq sign bytes.now) spec.second_signs }
{
    match bytes {
        [b'"'] => true,
        [b'\'', b'\''] => true,
        [0xE2, 0x80, 0xB3] => true,
        [0xE2, 0x80, 0x9D] => true,
        _ => false,
    }
}

/// Whether a byte is one of seconds.
fn is_of_seconds(byte: u8) -> bool
    ensures { result ≡ spec.is_of_seconds byte }
{
    byte.is_ascii_digit() || byte == b'.' || byte == b','
}

/// The place of the first byte that is none of seconds.
fn first_other(bytes: &[u8]) -> Option<usize>
    ensures value { result ≡ position (λ b. not (spec.is_of_seconds b)) bytes.now }
    ensures inside { IfSome result (λ place. place < length bytes.now) }
{
    bytes.iter().position(|b| !is_of_seconds(*b))
}

/// The place of the first byte that is none of seconds, or the end.
fn end_of_seconds(bytes: &[u8]) -> usize
    ensures value { result ≡ prefix_len spec.is_of_seconds bytes.now }
    ensures inside { result ≤ length bytes.now }
{
    first_other(bytes).unwrap_or(bytes.len())
}

/// The seconds that bytes begin with, where a sign of seconds and nothing more follows; else none.
fn signed_seconds(bytes: &[u8]) -> &[u8]
    ensures { result.now ≡ spec.signed_seconds bytes.now }
{
    let (seconds, sign) = bytes.split_at(end_of_seconds(bytes));
    if is_second_sign(sign) { seconds } else { &[] }
}

/// Whether bytes have this one.
fn has_mark(bytes: &[u8], mark: u8) -> bool
    ensures { result ≡ spec.has_mark mark bytes.now }
{
    bytes.iter().any(|b| *b == mark)
}

/// Whether a direction has minutes: a hyphen, a colon, a blank or the sign of degrees.
pub(crate) fn has_minutes(bytes: &[u8]) -> bool
    ensures { result ≡ spec.has_minutes bytes.now }
{
    has_mark(bytes, DEGREE_SIGN)
        || has_mark(bytes, b':')
        || has_mark(bytes, b' ')
        || has_mark(bytes, b'-')
}

/// The three numbers of a direction, as they are written.
#[derive(Clone, Copy)]
struct Sexagesimal<'a> {
    degrees: &'a [u8],
    minutes: &'a [u8],
    seconds: &'a [u8],
}

/// The numbers that have a mark after the degrees and after the minutes.
fn by_mark(bytes: &[u8], mark: u8) -> Sexagesimal<'_>
    ensures { spec.numbers_view result ≡ spec.by_mark mark bytes.now }
{
    let (degrees, rest) = cut(bytes, mark);
    let (minutes, seconds) = cut(rest, mark);
    Sexagesimal {
        degrees,
        minutes,
        seconds,
    }
}

/// The numbers that have their signs.
fn by_signs(bytes: &[u8]) -> Sexagesimal<'_>
    ensures { spec.numbers_view result ≡ spec.by_signs bytes.now }
{
    let (degrees, rest) = cut(bytes, DEGREE_SIGN);
    let rest = without_blanks_before(without_first(rest, DEGREE_SIGN_END));
    let (minutes, rest) = rest.split_at(rest.len().min(SIXTIETHS_DIGITS));
    Sexagesimal {
        degrees,
        minutes,
        seconds: signed_seconds(without_blanks_before(without_minute_sign(rest))),
    }
}

/// The numbers of a direction that has minutes.
fn numbers_of(bytes: &[u8]) -> Sexagesimal<'_>
    ensures { spec.numbers_view result ≡ spec.numbers_of bytes.now }
{
    if has_mark(bytes, DEGREE_SIGN) {
        by_signs(bytes)
    } else if has_mark(bytes, b':') {
        by_mark(bytes, b':')
    } else if has_mark(bytes, b' ') {
        by_mark(bytes, b' ')
    } else {
        by_mark(bytes, b'-')
    }
}

/// Whether bytes are degrees, minutes and seconds.
pub(crate) fn is_sexagesimal(bytes: &[u8]) -> bool
    ensures { result ≡ spec.is_sexagesimal (spec.numbers_of bytes.now) }
{
    sexagesimal_of(bytes).is_some()
}

/// Degrees of one to three digits.
fn degrees_of(digits: &[u8]) -> Option<u64>
    ensures value { IfSome result (λ number. number ≡ digits_value 10 digits.now) }
    ensures bound { IfSome result (λ number. number < 10 ^ 9) }
    ensures some { OnSome result (spec.are_degrees digits.now ≡ true) }
    ensures none { IfNone result (spec.are_degrees digits.now ≡ false) }
{
    if digits.is_empty() {
        return None;
    }
    whole_of(digits, MOST_WHOLE)
}

/// Minutes of two digits, below 60.
fn minutes_of(digits: &[u8]) -> Option<u64>
    ensures value { IfSome result (λ number. number ≡ digits_value 10 digits.now) }
    ensures bound { IfSome result (λ number. number < 60) }
    ensures some { OnSome result (spec.are_minutes digits.now ≡ true) }
    ensures none { IfNone result (spec.are_minutes digits.now ≡ false) }
{
    if digits.len() != SIXTIETHS_DIGITS {
        return None;
    }
    let number = whole_of(digits, MOST_WHOLE)?;
    if number >= SIXTIETHS {
        return None;
    }
    Some(number)
}

/// Seconds, and how many decimals they are written with.
#[derive(Clone, Copy)]
struct Seconds {
    /// In parts; what is less than one is left out.
    parts: u128,
    /// Whether nothing is left out.
    is_whole: bool,
    decimals: usize,
}

/// Seconds of two digits and any decimals, below 60.
fn seconds_of(bytes: &[u8]) -> Option<Seconds>
    ensures value { IfSome result (λ seconds. seconds.parts ≡ spec.seconds_value bytes.now) }
    ensures bound { IfSome result (λ seconds. seconds.parts < 10 ^ 30) }
    ensures whole { IfSome result
        (λ seconds. seconds.is_whole ≡ spec.are_whole_seconds bytes.now) }
    ensures decimals { IfSome result
        (λ seconds. seconds.decimals ≡ length (decimals_part bytes.now)) }
    ensures some { OnSome result (spec.are_seconds bytes.now ≡ true) }
    ensures none { IfNone result (spec.are_seconds bytes.now ≡ false) }
{
    let number = read_shifted(bytes, 0)?;
    if number.whole_digits != SIXTIETHS_DIGITS {
        return None;
    }
    if number.value >= u128::from(SIXTIETHS) * SECOND {
        return None;
    }
    Some(Seconds {
        parts: number.value / PART,
        is_whole: number.is_whole && number.value % PART == 0,
        decimals: number.decimals,
    })
}

/// The direction that bytes with minutes write.
pub(crate) fn sexagesimal_of(bytes: &[u8]) -> Option<Angle>
    ensures size { IfSome result
        (λ angle. angle.size ≡ spec.sexagesimal_value (spec.numbers_of bytes.now)) }
    ensures step { IfSome result
        (λ angle. angle.step ≡ spec.sexagesimal_step (spec.numbers_of bytes.now)) }
    ensures bound { IfSome result (λ angle. angle.step ≤ COARSEST_STEP) }
    ensures some { OnSome result (spec.is_sexagesimal (spec.numbers_of bytes.now) ≡ true) }
    ensures none { IfNone result (spec.is_sexagesimal (spec.numbers_of bytes.now) ≡ false) }
{
    sexagesimal_by(&numbers_of(bytes))
}

/// The direction of three numbers.
fn sexagesimal_by(numbers: &Sexagesimal<'_>) -> Option<Angle>
    ensures size { IfSome result
        (λ angle. angle.size ≡ spec.sexagesimal_value (spec.numbers_view numbers.now)) }
    ensures step { IfSome result
        (λ angle. angle.step ≡ spec.sexagesimal_step (spec.numbers_view numbers.now)) }
    ensures bound { IfSome result (λ angle. angle.step ≤ COARSEST_STEP) }
    ensures some { OnSome result (spec.is_sexagesimal (spec.numbers_view numbers.now) ≡ true) }
    ensures none { IfNone result (spec.is_sexagesimal (spec.numbers_view numbers.now) ≡ false) }
{
    let degrees = degrees_of(numbers.degrees)?;
    let minutes = minutes_of(numbers.minutes)?;
    let seconds = seconds_of(numbers.seconds)?;
    let size = u128::from(DEGREE) * u128::from(degrees)
        + u128::from(MINUTE) * u128::from(minutes)
        + seconds.parts;
    Some(Angle {
        size,
        step: if seconds.is_whole {
            told_step(size, seconds.decimals)
        } else {
            FINEST_STEP
        },
    })
}

/// The step that a direction of so many parts tells, with so many decimals of its seconds; 0 of
/// 0-00-00, which tells none.
fn told_step(size: u128, decimals: usize) -> u64
    ensures value { result ≡ spec.told_step size decimals }
    ensures bound { result ≤ COARSEST_STEP }
{
    if size == 0 && decimals == 0 {
        return 0;
    }
    step_of(decimals)
}

/// Degrees whose minutes and seconds stand after the point, as they are written.
#[derive(Clone, Copy)]
struct Packed<'a> {
    degrees: &'a [u8],
    minutes: &'a [u8],
    seconds: &'a [u8],
    /// The decimals of seconds.
    fraction: &'a [u8],
    /// How many digits stand after the point.
    decimals: usize,
}

/// The digits of such degrees.
fn packed_digits(bytes: &[u8]) -> Packed<'_>
    ensures digits { spec.packed_view result ≡ spec.packed_digits bytes.now }
    ensures minutes { length result.minutes.now ≤ 2 }
    ensures seconds { length result.seconds.now ≤ 2 }
{
    let (degrees, rest) = bytes.split_at(mark_of(bytes));
    let decimals = after_first(rest);
    let (minutes, left) = decimals.split_at(decimals.len().min(SIXTIETHS_DIGITS));
    let (seconds, fraction) = left.split_at(left.len().min(SIXTIETHS_DIGITS));
    Packed {
        degrees,
        minutes,
        seconds,
        fraction,
        decimals: decimals.len(),
    }
}

/// Minutes or whole seconds of at most two digits, of which one that isn't there is 0; below 60.
fn sixtieths_of(digits: &[u8]) -> Option<u64>
    requires { length digits.now ≤ 2 }
    ensures value { IfSome result (λ number. number ≡ spec.sixtieths_value digits.now) }
    ensures bound { IfSome result (λ number. number < 60) }
    ensures some { OnSome result (spec.are_sixtieths digits.now ≡ true) }
    ensures none { IfNone result (spec.are_sixtieths digits.now ≡ false) }
{
    let sixtieths = counted_decimals(digits, SIXTIETHS_DIGITS)?;
    if sixtieths >= SIXTIETHS {
        return None;
    }
    Some(sixtieths)
}

/// Seconds after a point.
#[derive(Clone, Copy)]
struct PackedSeconds {
    /// In units of their ninth decimal; what stands past it is left out.
    value: u128,
    /// Whether nothing but zeros is left out.
    is_whole: bool,
}

/// The seconds of two digits and decimals.
fn packed_seconds_of(digits: &Packed<'_>) -> Option<PackedSeconds>
    requires { length digits.now.seconds.now ≤ 2 }
    ensures value { IfSome result
        (λ seconds. seconds.value ≡ spec.packed_seconds (spec.packed_view digits.now)) }
    ensures bound { IfSome result (λ seconds. seconds.value < 10 ^ 30) }
    ensures whole { IfSome result
        (λ seconds. seconds.is_whole ≡ spec.end_in_nine digits.now.fraction.now) }
    ensures some { OnSome result (spec.are_packed_seconds (spec.packed_view digits.now) ≡ true) }
    ensures none { IfNone result (spec.are_packed_seconds (spec.packed_view digits.now) ≡ false) }
{
    let seconds = sixtieths_of(digits.seconds)?;
    let fraction = decimals_of(digits.fraction)?;
    Some(PackedSeconds {
        value: u128::from(seconds) * SECOND + u128::from(fraction.value),
        is_whole: fraction.is_whole,
    })
}

/// The direction of degrees whose minutes and seconds stand after the point.
pub(crate) fn packed_of(bytes: &[u8]) -> Option<Angle>
    ensures size { IfSome result
        (λ angle. angle.size ≡ spec.packed_value (spec.packed_digits bytes.now)) }
    ensures step { IfSome result
        (λ angle. angle.step ≡ spec.packed_step (spec.packed_digits bytes.now)) }
    ensures bound { IfSome result (λ angle. angle.step ≤ COARSEST_STEP) }
    ensures some { OnSome result (spec.is_packed (spec.packed_digits bytes.now) ≡ true) }
    ensures none { IfNone result (spec.is_packed (spec.packed_digits bytes.now) ≡ false) }
{
    packed_by(&packed_digits(bytes))
}

/// The direction of these digits.
fn packed_by(digits: &Packed<'_>) -> Option<Angle>
    requires minutes { length digits.now.minutes.now ≤ 2 }
    requires seconds { length digits.now.seconds.now ≤ 2 }
    ensures size { IfSome result
        (λ angle. angle.size ≡ spec.packed_value (spec.packed_view digits.now)) }
    ensures step { IfSome result
        (λ angle. angle.step ≡ spec.packed_step (spec.packed_view digits.now)) }
    ensures bound { IfSome result (λ angle. angle.step ≤ COARSEST_STEP) }
    ensures some { OnSome result (spec.is_packed (spec.packed_view digits.now) ≡ true) }
    ensures none { IfNone result (spec.is_packed (spec.packed_view digits.now) ≡ false) }
{
    let degrees = degrees_of(digits.degrees)?;
    let minutes = sixtieths_of(digits.minutes)?;
    let seconds = packed_seconds_of(digits)?;
    Some(Angle {
        size: u128::from(DEGREE) * u128::from(degrees)
            + u128::from(MINUTE) * u128::from(minutes)
            + seconds.value / PART,
        step: if seconds.is_whole && seconds.value % PART == 0 {
            packed_unit(digits.decimals)
        } else {
            FINEST_STEP
        },
    })
}

/// One unit of the last of so many decimals after which minutes and seconds stand, in parts.
fn packed_unit(decimals: usize) -> u64
    ensures value { result ≡ spec.packed_unit decimals }
    ensures bound { result ≤ COARSEST_STEP }
{
    match decimals {
        0 => 0,
        1 => 10 * MINUTE,
        2 => MINUTE,
        3 => 10 * step_of(0),
        _ => step_of(decimals - 4),
    }
}

/// The step of so many decimals of seconds, in parts.
fn step_of(decimals: usize) -> u64
    ensures value { result ≡ spec.seconds_step decimals }
    ensures bound { result ≤ COARSEST_STEP }
{
    SECOND_PARTS * 10u64.pow(MOST_SECONDS_DECIMALS.saturating_sub(decimals) as u32)
}
