//! The limit that a text states.

ghost use Rattle.std.specs.Prelude.{◌≡◌, ◌≢◌, ◌<◌, ◌≤◌, ◌^◌, ◌++◌, ℕ, List, IfNone, IfSome};
ghost use Rattle.std.specs.Prelude.{MatchOption, OnSome, codes, true, false};
ghost use Rattle.limit_texts.specs.Limits.{StatesLimit, StatesMgon, StatesUnits, is_number};
ghost use Rattle.limit_texts.specs.Limits.{thousandths_in, thousandths_value};

use direction_table::read_decimal;

/// The most digits before the point of a number of mgon.
const MOST_WHOLE: usize = 9;

/// The decimals of a number of mgon that count: those after them are 0.
const MOST_DECIMALS: usize = 3;

/// The unit in which a limit is counted.
#[derive(Clone, Copy, Debug, PartialEq, Eq)]
pub enum LimitUnit {
    /// 0.01 mgon: of face differences.
    Hundredth,

    /// A half unit of 0.005 mgon: of residuals.
    HalfUnit,

    /// 0.001 mgon: of the directions of a table.
    Thousandth,
}

impl LimitUnit {
    /// How many thousandths of a mgon it is.
    fn thousandths(self) -> u64
        ensures value { result ≡ thousandths_in self }
        ensures some { 0 < result }
    {
        match self {
            LimitUnit::Hundredth => 10,
            LimitUnit::HalfUnit => 5,
            LimitUnit::Thousandth => 1,
        }
    }
}

/// The limit that a text states, counted in this unit: in mgon, as `0.3mgon`, or as a whole number
/// of the unit, as `30`.
///
/// `None` where it is neither, or is no whole number of the unit, or 32 bits don't hold it.
pub fn limit_stated(text: &str, unit: LimitUnit) -> Option<u32>
    ensures stated { IfSome result (StatesLimit unit text.now) }
    ensures none { IfNone result
        ((limit : ℕ) → StatesLimit unit text.now limit → 2 ^ 32 ≤ limit) }
{
    match units_stated(text) {
        Some(limit) => Some(limit),
        None => mgon_stated(text.as_bytes(), unit.thousandths()),
    }
}

/// The limit that a text states as a whole number of units.
fn units_stated(text: &str) -> Option<u32>
    ensures stated { IfSome result (StatesUnits text.now) }
    ensures none { IfNone result ((limit : ℕ) → StatesUnits text.now limit → 2 ^ 32 ≤ limit) }
{
    match text.parse::<i64>() {
        Ok(limit) => u32::try_from(limit).ok(),
        Err(_) => None,
    }
}

/// The limit that a text states in mgon, in units of so many thousandths of a mgon.
fn mgon_stated(text: &[u8], unit: u64) -> Option<u32>
    requires { 0 < unit }
    ensures stated { IfSome result (StatesMgon unit text.now) }
    ensures none { IfNone result
        ((limit : ℕ) → StatesMgon unit text.now limit → 2 ^ 32 ≤ limit) }
{
    let number = before_mgon(text)?;
    let thousandths = thousandths_of(number)?;
    if thousandths % unit != 0 {
        return None;
    }
    let limit = in_32_bits(thousandths / unit)?;
    Some(limit)
}

/// What stands before `mgon` at the end of a text.
fn before_mgon(text: &[u8]) -> Option<&[u8]>
    ensures { MatchOption result ((number : List ℕ) → text.now ≢ number ++ codes "mgon")
        (λ number. text.now ≡ number.now ++ codes "mgon") }
{
    text.strip_suffix(b"mgon")
}

/// The number of mgon that bytes write, in thousandths.
fn thousandths_of(bytes: &[u8]) -> Option<u64>
    ensures value { IfSome result (λ number. number ≡ thousandths_value bytes.now) }
    ensures some { OnSome result (is_number bytes.now ≡ true) }
    ensures none { IfNone result (is_number bytes.now ≡ false) }
{
    let size = read_decimal(bytes, MOST_WHOLE, MOST_DECIMALS)?;
    Some(size.value)
}

/// A number, if 32 bits hold it.
fn in_32_bits(number: u64) -> Option<u32>
    ensures some { IfSome result (λ held. held ≡ number) }
    ensures none { IfNone result (2 ^ 32 ≤ number) }
{
    u32::try_from(number).ok()
}
