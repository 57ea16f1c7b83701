//! The entry that each kind of row states: its columns are tested in a fixed order.

ghost use Rattle.std.specs.Prelude.{◌≡◌, ◌<◌, true, false, None, Some, IfErr, IfNone, IfOk, IfSome};
ghost use Rattle.std.specs.Prelude.{OnOk, OnSome};
ghost use Rattle.adjust_kernel.specs.Names.{IsName};
ghost use Rattle.adjust_kernel.specs.Sheets.{IsDirection, IsOrientation, IsRow, IsSetNumber};
ghost use Rattle.adjust_kernel.specs.Within.{IsWithin};
ghost use Rattle.sheet_format.specs.Columns.{columns_view};
ghost use Rattle.sheet_format.specs.Drafts as spec;
ghost use Rattle.sheet_format.specs.Faults as faults;
ghost use Rattle.sheet_format.specs.Numbers.{is_at_most, natural_of};
ghost use Rattle.sheet_format.specs.Numerals.{number_of};
ghost use Rattle.sheet_format.specs.Versions.{largest_angle};

use crate::columns::Columns;
use crate::fault::RowKind;
use crate::number::Numeral;
use crate::version::Version;
use adjust_kernel::{
    Direction, LARGEST_ANGLE, LARGEST_SET_NUMBER, LARGEST_TURN, Name, Orientation, Row, TURN,
};

/// What the first row states.
#[derive(Clone, Copy)]
pub(crate) struct Header {
    pub(crate) version: Version,
    pub(crate) name: Name,
    pub(crate) denominator: u64,
}

/// The name of a field.
fn name_of(field: &[u8]) -> Option<Name>
    ensures value { IfSome result (λ name. name ≡ field.now) }
    ensures some { OnSome result (faults.is_name field.now ≡ true) }
    ensures valid { IfSome result IsName }
    ensures none { IfNone result (faults.is_name field.now ≡ false) }
{
    Name::new(field)
}

/// The number of a set.
#[inline(always)]
fn set_number(number: &Numeral<'_>) -> Option<u16>
    ensures value { IfSome result (λ set. set ≡ natural_of (number_of number.now)) }
    ensures valid { IfSome result IsSetNumber }
    ensures within { OnSome result (faults.is_set_number (number_of number.now) ≡ true) }
    ensures outside { IfNone result (faults.is_set_number (number_of number.now) ≡ false) }
{
    number
        .small_within(1, i32::from(LARGEST_SET_NUMBER))
        .map(|set| set as u16)
}

/// A direction on the circle, in half units.
fn circle_value(number: &Numeral<'_>) -> Option<u32>
    ensures value { IfSome result (λ value. value ≡ natural_of (number_of number.now)) }
    ensures valid { IfSome result (λ value. value < TURN) }
    ensures within { OnSome result (faults.is_circle_value (number_of number.now) ≡ true) }
    ensures outside { IfNone result (faults.is_circle_value (number_of number.now) ≡ false) }
{
    number
        .small_within(0, TURN as i32 - 1)
        .map(|value| value as u32)
}

/// The full turns of an observation.
fn full_turns(number: &Numeral<'_>) -> Option<i8>
    ensures value { IfSome result (λ turns. turns ≡ number_of number.now) }
    ensures valid { IfSome result (IsWithin LARGEST_TURN) }
    ensures within { OnSome result (is_at_most LARGEST_TURN (number_of number.now) ≡ true) }
    ensures outside { IfNone result (is_at_most LARGEST_TURN (number_of number.now) ≡ false) }
{
    let most = i32::from(LARGEST_TURN);
    number.small_within(-most, most).map(|turns| turns as i8)
}

/// An adjusted direction or orientation, in half units times the denominator.
#[inline(always)]
fn angle(number: &Numeral<'_>, version: Version) -> Option<i128>
    ensures value { IfSome result (λ angle. angle ≡ number_of number.now) }
    ensures valid { IfSome result (IsWithin LARGEST_ANGLE) }
    ensures within { OnSome result
        (is_at_most (largest_angle version) (number_of number.now) ≡ true) }
    ensures outside { IfNone result
        (is_at_most (largest_angle version) (number_of number.now) ≡ false) }
{
    number.at_most(version.largest_angle())
}

/// What the columns of the first row state, or their first fault.
pub(crate) fn header_of(columns: &Columns<'_>) -> Result<Header, RowKind>
    ensures faultless { OnOk result (faults.sheet_row_fault (columns_view columns.now) ≡ None) }
    ensures value { IfOk result (λ header. header ≡ spec.header_of (columns_view columns.now)) }
    ensures valid { IfOk result spec.IsHeader }
    ensures fault { IfErr result
        (λ kind. faults.sheet_row_fault (columns_view columns.now) ≡ Some kind) }
{
    let version = Version::parse(columns.number).ok_or(RowKind::Version)?;
    if !columns.turn.is_empty() {
        return Err(RowKind::NotEmpty);
    }
    let name = name_of(columns.name).ok_or(RowKind::Name)?;
    let number = Numeral::parse(columns.value).ok_or(RowKind::Number)?;
    let denominator = number
        .natural_within(1, version.largest_denominator())
        .ok_or(RowKind::Range)?;
    Ok(Header {
        version,
        name,
        denominator,
    })
}

/// The direction that the columns of a target's row state, or their first fault.
pub(crate) fn direction_of(columns: &Columns<'_>, version: Version) -> Result<Direction, RowKind>
    ensures faultless { OnOk result
        (faults.target_fault version (columns_view columns.now) ≡ None) }
    ensures value { IfOk result
        (λ direction. direction ≡ spec.direction_of (columns_view columns.now)) }
    ensures valid { IfOk result IsDirection }
    ensures fault { IfErr result
        (λ kind. faults.target_fault version (columns_view columns.now) ≡ Some kind) }
{
    if !columns.number.is_empty() || !columns.turn.is_empty() {
        return Err(RowKind::NotEmpty);
    }
    let name = name_of(columns.name).ok_or(RowKind::Name)?;
    let value = Numeral::parse(columns.value).ok_or(RowKind::Number)?;
    let value = angle(&value, version).ok_or(RowKind::Range)?;
    Ok(Direction { name, value })
}

/// The orientation that the columns of a set's row state, or their first fault.
pub(crate) fn orientation_of(
    columns: &Columns<'_>,
    version: Version,
) -> Result<Orientation, RowKind>
    ensures faultless { OnOk result (faults.set_fault version (columns_view columns.now) ≡ None) }
    ensures value { IfOk result
        (λ orientation. orientation ≡ spec.orientation_of (columns_view columns.now)) }
    ensures valid { IfOk result IsOrientation }
    ensures fault { IfErr result
        (λ kind. faults.set_fault version (columns_view columns.now) ≡ Some kind) }
{
    if !columns.name.is_empty() || !columns.turn.is_empty() {
        return Err(RowKind::NotEmpty);
    }
    let number = Numeral::parse(columns.number).ok_or(RowKind::Number)?;
    let value = Numeral::parse(columns.value).ok_or(RowKind::Number)?;
    let set = set_number(&number).ok_or(RowKind::Range)?;
    let value = angle(&value, version).ok_or(RowKind::Range)?;
    Ok(Orientation { set, value })
}

/// The row that the columns of an observation's row state, or their first fault.
pub(crate) fn obs_row_of(columns: &Columns<'_>) -> Result<Row, RowKind>
    ensures faultless { OnOk result (faults.obs_fault (columns_view columns.now) ≡ None) }
    ensures value { IfOk result (λ row. row ≡ spec.obs_row_of (columns_view columns.now)) }
    ensures valid { IfOk result IsRow }
    ensures fault { IfErr result (λ kind. faults.obs_fault (columns_view columns.now) ≡ Some kind) }
{
    let target = name_of(columns.name).ok_or(RowKind::Name)?;
    let number = Numeral::parse(columns.number).ok_or(RowKind::Number)?;
    let value = Numeral::parse(columns.value).ok_or(RowKind::Number)?;
    let turn = Numeral::parse(columns.turn).ok_or(RowKind::Number)?;
    let set = set_number(&number).ok_or(RowKind::Range)?;
    let value = circle_value(&value).ok_or(RowKind::Range)?;
    let turn = full_turns(&turn).ok_or(RowKind::Range)?;
    Ok(Row {
        set,
        target,
        value,
        turn,
    })
}
