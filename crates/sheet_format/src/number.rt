//! Numbers as text: each has one form, a canonical decimal.
//!
//! A short field, as nearly all are, is tested and read in one pass, digit by digit, in 64 bits.
//! The number of a longer one is read where its range is asked for.

ghost use Rattle.std.specs.Prelude.{◌≡◌, ◌≤◌, ◌<◌, ◌^◌, ◌≤ℤ◌, length, pos, true, false, IfSome};
ghost use Rattle.std.specs.Prelude.{IfNone, OnSome};
ghost use Rattle.std.specs.Char.{is_ascii_digit};
ghost use Rattle.std.specs.List.{list_all};
ghost use Rattle.std.specs.Str.Parse.{digits_value};
ghost use Rattle.sheet_format.specs.Numbers as spec;
ghost use Rattle.sheet_format.specs.declared.number.TheConstants.{SHORT};

fn are_digits(bytes: &[u8]) -> bool
    ensures { result ≡ list_all is_ascii_digit bytes.now }
{
    bytes.iter().all(|b| b.is_ascii_digit())
}

fn is_positive(bytes: &[u8]) -> bool
    ensures { result ≡ spec.is_positive bytes.now }
{
    match bytes {
        [b'1'..=b'9', rest @ ..] => are_digits(rest),
        _ => false,
    }
}

/// Whether a field is a canonical decimal, whatever its length.
// Apart from its caller, since few fields are so long that it is asked.
#[cold]
#[inline(never)]
fn is_canonical(bytes: &[u8]) -> bool
    ensures { result ≡ spec.is_canonical bytes.now }
{
    match bytes {
        [b'0', rest @ ..] => rest.is_empty(),
        [b'-', rest @ ..] => is_positive(rest),
        _ => is_positive(bytes),
    }
}

/// The most bytes of a field that is read digit by digit: 64 bits hold its number.
pub const SHORT: usize = 18;

/// The number of at most [`SHORT`] bytes, if all are digits; of no bytes it is 0.
#[inline(always)]
pub fn of_digits(digits: &[u8]) -> Option<u64>
    requires { length digits.now ≤ SHORT }
    ensures value { IfSome result (λ number. number ≡ digits_value 10 digits.now) }
    ensures bound { IfSome result (λ number. number < 10 ^ SHORT) }
    ensures some { OnSome result (list_all is_ascii_digit digits.now ≡ true) }
    ensures none { IfNone result (list_all is_ascii_digit digits.now ≡ false) }
{
    let mut value: u64 = 0;
    for digit in digits {
        if !digit.is_ascii_digit() {
            return None;
        }
        value = value * 10 + u64::from(digit - b'0');
    }
    Some(value)
}

/// The number of a short field, if it is a digit 1 to 9 and any digits.
#[inline(always)]
fn positive_of(field: &[u8]) -> Option<u64>
    requires { length field.now ≤ SHORT }
    ensures value { IfSome result (λ number. number ≡ digits_value 10 field.now) }
    ensures bound { IfSome result (λ number. number < 10 ^ SHORT) }
    ensures some { OnSome result (spec.is_positive field.now ≡ true) }
    ensures none { IfNone result (spec.is_positive field.now ≡ false) }
{
    match field {
        [b'1'..=b'9', ..] => of_digits(field),
        _ => None,
    }
}

/// The number of a short field, if it is a canonical decimal.
fn short_number(field: &[u8]) -> Option<i64>
    requires { length field.now ≤ SHORT }
    ensures value { IfSome result (λ number. number ≡ spec.value_of field.now) }
    ensures some { OnSome result (spec.is_canonical field.now ≡ true) }
    ensures none { IfNone result (spec.is_canonical field.now ≡ false) }
{
    match field {
        [b'0'] => Some(0),
        [b'0', ..] => None,
        [b'-', digits @ ..] => Some(-(positive_of(digits)? as i64)),
        _ => Some(positive_of(field)? as i64),
    }
}

/// A canonical decimal of more bytes than [`SHORT`]. Its number is read where its range is asked
/// for.
#[derive(Drop)]
pub(crate) struct LongNumeral<'a> {
    field: &'a [u8],
    ghost canonical: { spec.is_canonical field.now ≡ true },
    ghost long: { SHORT < length field.now },
}

impl<'a> LongNumeral<'a> {
    /// The number, if it lies from `low` to `high`.
    fn within(&self, low: i128, high: i128) -> Option<i128>
        ensures value { IfSome result (λ number. number ≡ spec.value_of self.now.field.now) }
        ensures within { OnSome result
            (spec.is_within low high (spec.value_of self.now.field.now) ≡ true) }
        ensures outside { IfNone result
            (spec.is_within low high (spec.value_of self.now.field.now) ≡ false) }
    {
        let number = str::from_utf8(self.field).ok()?.parse::<i128>().ok()?;
        if low <= number && number <= high {
            Some(number)
        } else {
            None
        }
    }
}

/// A canonical field as its number.
#[derive(Drop)]
pub(crate) enum Numeral<'a> {
    /// The number of a short field.
    Short(i64),
    /// A longer field.
    Long(LongNumeral<'a>),
}

impl<'a> Numeral<'a> {
    ghost use Rattle.sheet_format.specs.Numerals.{number_of};

    /// The number of a field, if it is a canonical decimal.
    #[inline(always)]
    pub(crate) fn parse(field: &'a [u8]) -> Option<Numeral<'a>>
        ensures value { IfSome result (λ number. number_of number ≡ spec.value_of field.now) }
        ensures some { OnSome result (spec.is_canonical field.now ≡ true) }
        ensures none { IfNone result (spec.is_canonical field.now ≡ false) }
    {
        if field.len() <= SHORT {
            return Some(Numeral::Short(short_number(field)?));
        }
        if !is_canonical(field) {
            return None;
        }
        Some(Numeral::Long(LongNumeral { field }))
    }

    /// The number, if it lies from `low` to `high`.
    #[inline(always)]
    pub(crate) fn within(&self, low: i128, high: i128) -> Option<i128>
        ensures value { IfSome result (λ number. number ≡ number_of self.now) }
        ensures within { OnSome result (spec.is_within low high (number_of self.now) ≡ true) }
        ensures outside { IfNone result (spec.is_within low high (number_of self.now) ≡ false) }
    {
        match self {
            Numeral::Short(short) => {
                let number = i128::from(*short);
                if low <= number && number <= high {
                    Some(number)
                } else {
                    None
                }
            }
            Numeral::Long(long) => long.within(low, high),
        }
    }

    /// The number, if it is at most `most`, either way.
    #[inline(always)]
    pub(crate) fn at_most(&self, most: i128) -> Option<i128>
        requires { pos 0 ≤ℤ most }
        ensures value { IfSome result (λ number. number ≡ number_of self.now) }
        ensures within { OnSome result (spec.is_at_most most (number_of self.now) ≡ true) }
        ensures outside { IfNone result (spec.is_at_most most (number_of self.now) ≡ false) }
    {
        self.within(-most, most)
    }

    /// The number, if it lies from `low` to `high`. A long field has none of so few bits.
    #[inline(always)]
    pub(crate) fn small_within(&self, low: i32, high: i32) -> Option<i32>
        ensures value { IfSome result (λ number. number ≡ number_of self.now) }
        ensures range { IfSome result (λ number. (low ≤ℤ number) × (number ≤ℤ high)) }
        ensures within { OnSome result (spec.is_within low high (number_of self.now) ≡ true) }
        ensures outside { IfNone result (spec.is_within low high (number_of self.now) ≡ false) }
    {
        match self {
            Numeral::Short(short) => {
                if i64::from(low) <= *short && *short <= i64::from(high) {
                    Some(*short as i32)
                } else {
                    None
                }
            }
            Numeral::Long(_) => None,
        }
    }

    /// The number, if it lies from `low` to `high`; neither is below 0.
    #[inline(always)]
    pub(crate) fn natural_within(&self, low: u64, high: u64) -> Option<u64>
        ensures value { IfSome result (λ number. number ≡ spec.natural_of (number_of self.now)) }
        ensures range { IfSome result (λ number. (low ≤ number) × (number ≤ high)) }
        ensures within { OnSome result
            (spec.is_within (pos low) (pos high) (number_of self.now) ≡ true) }
        ensures outside { IfNone result
            (spec.is_within (pos low) (pos high) (number_of self.now) ≡ false) }
    {
        self.within(i128::from(low), i128::from(high))
            .map(|number| number as u64)
    }
}
