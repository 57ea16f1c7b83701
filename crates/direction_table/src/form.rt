//! How a table is to be read.

ghost use Rattle.std.specs.Prelude.{◌≡◌, ◌-◌, IfNone, IfSome, OnSome, false, true};
ghost use Rattle.std.specs.Str.Parse.{digits_value};
ghost use Rattle.direction_table.specs.StatedColumns as spec;

use crate::decimal::whole_of;
use crate::degrees::cut;
use crate::unit::AngleUnit;

/// Two columns of a table, counted from 0.
#[derive(Clone, Copy, Debug, PartialEq, Eq, Drop)]
pub struct ColumnPair {
    /// That of the names of targets.
    pub names: u32,
    /// That of their directions.
    pub directions: u32,
}

/// How a table is to be read.
#[derive(Clone, Copy, Debug, PartialEq, Eq, Drop)]
pub struct TableForm {
    /// The unit in which it states its directions.
    pub unit: AngleUnit,
    /// The columns that are stated. Where none are, the table has two; else the one pair of its
    /// columns that fits is found.
    pub columns: Option<ColumnPair>,
}

/// The most digits of a column's number.
const MOST_COLUMN_DIGITS: usize = 6;

/// The column of a number, counted from 0.
fn column_of(digits: &[u8]) -> Option<u32>
    ensures value { IfSome result (λ column. column ≡ digits_value 10 digits.now - 1) }
    ensures some { OnSome result (spec.is_column digits.now ≡ true) }
    ensures none { IfNone result (spec.is_column digits.now ≡ false) }
{
    if digits.is_empty() {
        return None;
    }
    let number = whole_of(digits, MOST_COLUMN_DIGITS)?;
    if number == 0 {
        return None;
    }
    Some((number - 1) as u32)
}

/// The columns that a text states, as `2,6`: those of names and of directions, counted from 1
/// there, which are two.
pub fn stated_columns(text: &[u8]) -> Option<ColumnPair>
    ensures { result ≡ spec.stated_columns text.now }
{
    let (names, directions) = cut(text, b',');
    two_columns(column_of(names)?, column_of(directions)?)
}

/// These columns, counted from 0, where they are two.
fn two_columns(names: u32, directions: u32) -> Option<ColumnPair>
    ensures { result ≡ spec.two_columns names directions }
{
    if names == directions {
        return None;
    }
    Some(ColumnPair { names, directions })
}
