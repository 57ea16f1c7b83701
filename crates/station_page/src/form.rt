//! How a table is to be read, as numbers state it.

ghost use Rattle.std.specs.Prelude.{◌≤◌, ◌-◌, SomeIff};
ghost use Rattle.station_page.specs.declared.form.TheConstants.{LARGEST_UNIT};
ghost use Rattle.station_page.specs.Forms.{AreColumns, IsColumn, IsForm};
ghost use Rattle.station_page.specs.Forms as spec;

use direction_table::{AngleUnit, ColumnPair, TableForm};

/// The largest number of a unit.
pub const LARGEST_UNIT: u32 = 2;

/// The largest number of a column: no text states a larger one either.
pub const LARGEST_COLUMN: u32 = 999_999;

/// How a table is to be read: the unit of its directions, 0 for gon, 1 for degrees and 2 for
/// degrees with minutes and seconds after the point; and the columns of names and of directions,
/// two, counted from 1, or 0 and 0 where none are stated.
pub(crate) fn form_of(unit: u32, names: u32, directions: u32) -> Option<TableForm>
    ensures { SomeIff result (IsForm unit names directions)
        (spec.stated_form unit names directions) }
{
    Some(TableForm {
        unit: unit_of(unit)?,
        columns: columns_of(names, directions)?,
    })
}

/// The unit of a number.
fn unit_of(number: u32) -> Option<AngleUnit>
    ensures { SomeIff result (number ≤ LARGEST_UNIT) (spec.stated_unit number) }
{
    match number {
        0 => Some(AngleUnit::Gon),
        1 => Some(AngleUnit::Degrees),
        LARGEST_UNIT => Some(AngleUnit::PackedDegrees),
        _ => None,
    }
}

/// The columns of two numbers, which are not the same, or that none are stated.
fn columns_of(names: u32, directions: u32) -> Option<Option<ColumnPair>>
    ensures { SomeIff result (AreColumns names directions) (spec.stated_columns names directions) }
{
    if names == 0 && directions == 0 {
        return Some(None);
    }
    if names == directions {
        return None;
    }
    Some(Some(ColumnPair {
        names: column_of(names)?,
        directions: column_of(directions)?,
    }))
}

/// The column of a number, counted from 0.
fn column_of(number: u32) -> Option<u32>
    ensures { SomeIff result (IsColumn number) (number - 1) }
{
    if number > LARGEST_COLUMN {
        return None;
    }
    number.checked_sub(1)
}
