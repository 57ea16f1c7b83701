//! The sheet of an adjustment.

ghost use Rattle.std.specs.Prelude.{◌≡◌, ◌↔◌, IsTrue, IfSome, IfNone};
ghost use Rattle.adjust_kernel.specs.Sheets.{IsSheet, IsDenominator, IsDirection, IsOrientation};
ghost use Rattle.adjust_kernel.specs.Sheets.{IsRow, AreDirections, AreOrientations, AreRows};
ghost use Rattle.adjust_kernel.specs.Sheets.{sheet_of};
ghost use Rattle.adjust_kernel.specs.Within.{IsWithin};

use crate::bounds::{
    LARGEST_ANGLE, LARGEST_DENOMINATOR, LARGEST_TURN, MOST_ROWS, MOST_SETS, MOST_TARGETS, TURN,
};
use crate::name::Name;
use crate::row::{Direction, Orientation, Row, is_set_number};
use std::marker::Model;

/// What an adjustment answered for a station: a direction for each target and an orientation for
/// each set, all over one denominator, and the observations with their full turns.
///
/// Its numbers are within the limits of a sheet, whatever is done with it. Whether it fits a
/// station, and whether it is the least-squares adjustment, is for `check` to say.
#[derive(Debug, Drop)]
pub struct Sheet {
    name: Name,
    denominator: u64,
    directions: Vec<Direction>,
    orientations: Vec<Orientation>,
    rows: Vec<Row>,
}

impl Model for Sheet {
    ghost use Rattle.adjust_kernel.specs.Sheets.{SheetValue, IsSheet, sheet_of};

    ghost Value = { SheetValue };

    ghost view = { λ s. sheet_of s.name s.denominator s.directions.items s.orientations.items
        s.rows.items };

    ghost invariant = { λ s. IsSheet
        (sheet_of s.name s.denominator s.directions.items s.orientations.items s.rows.items) };
}

impl Sheet {
    /// The sheet with these parts, if all numbers and the lengths of the lists are within a sheet's
    /// limits; otherwise the lists are dropped.
    pub fn new(
        name: Name,
        denominator: u64,
        directions: Vec<Direction>,
        orientations: Vec<Orientation>,
        rows: Vec<Row>,
    ) -> Option<Sheet>
        ensures some { IfSome result (λ sheet.
            sheet ≡ sheet_of name denominator directions.items orientations.items rows.items) }
        ensures valid { IfSome result IsSheet }
        ensures none { IfNone result
            (IsSheet (sheet_of name denominator directions.items orientations.items rows.items)
            → ⊥) }
    {
        // For the proof alone: a name keeps the rules of names.
        name.recall();
        if is_denominator(denominator)
            && are_directions(&directions)
            && are_orientations(&orientations)
            && are_rows(&rows)
        {
            return Some(Sheet::from_valid(name, denominator, directions, orientations, rows));
        }
        None
    }

    /// The sheet with these parts, which are known to be within a sheet's limits: nothing is
    /// tested.
    pub fn from_valid(
        name: Name,
        denominator: u64,
        directions: Vec<Direction>,
        orientations: Vec<Orientation>,
        rows: Vec<Row>,
    ) -> Sheet
        requires { IsSheet
            (sheet_of name denominator directions.items orientations.items rows.items) }
        ensures { result
            ≡ sheet_of name denominator directions.items orientations.items rows.items }
    {
        Sheet {
            name,
            denominator,
            directions,
            orientations,
            rows,
        }
    }

    /// The station's name, the denominator, the directions, the orientations and the rows.
    pub fn into_parts(self) -> (Name, u64, Vec<Direction>, Vec<Orientation>, Vec<Row>)
        ensures parts { sheet_of result.0 result.1 result.2.items result.3.items result.4.items
            ≡ self }
        ensures valid { IsSheet self }
    {
        let Sheet {
            name,
            denominator,
            directions,
            orientations,
            rows,
        } = self;
        (name, denominator, directions, orientations, rows)
    }

    /// The station's name.
    pub fn name(&self) -> Name
        ensures value { result ≡ self.now.name }
        ensures valid { IsSheet self.now }
    {
        self.name
    }

    /// What all directions and orientations are divided by.
    pub fn denominator(&self) -> u64
        ensures value { result ≡ self.now.denominator }
        ensures valid { IsSheet self.now }
    {
        self.denominator
    }

    /// The directions, one for each target.
    pub fn directions(&self) -> &[Direction]
        ensures value { result.now ≡ self.now.directions }
        ensures valid { IsSheet self.now }
    {
        &self.directions
    }

    /// The orientations, one for each set.
    pub fn orientations(&self) -> &[Orientation]
        ensures value { result.now ≡ self.now.orientations }
        ensures valid { IsSheet self.now }
    {
        &self.orientations
    }

    /// The observations with their full turns.
    pub fn rows(&self) -> &[Row]
        ensures value { result.now ≡ self.now.rows }
        ensures valid { IsSheet self.now }
    {
        &self.rows
    }
}

/// Whether a denominator is within its limits.
fn is_denominator(denominator: u64) -> bool
    ensures { IsTrue result ↔ IsDenominator denominator }
{
    (1..=LARGEST_DENOMINATOR).contains(&denominator)
}

/// Whether the size of a direction or orientation is within its limit.
fn is_angle(value: i128) -> bool
    ensures { IsTrue result ↔ IsWithin LARGEST_ANGLE value }
{
    (-LARGEST_ANGLE..=LARGEST_ANGLE).contains(&value)
}

/// Whether a direction is one of a sheet.
fn is_direction(direction: &Direction) -> bool
    ensures { IsTrue result ↔ IsDirection direction.now }
{
    // For the proof alone: a name keeps the rules of names.
    direction.name.recall();
    is_angle(direction.value)
}

/// Whether an orientation is one of a sheet.
fn is_orientation(orientation: &Orientation) -> bool
    ensures { IsTrue result ↔ IsOrientation orientation.now }
{
    is_set_number(&orientation.set) && is_angle(orientation.value)
}

/// Whether a row is one of a sheet.
fn is_row(row: &Row) -> bool
    ensures { IsTrue result ↔ IsRow row.now }
{
    // For the proof alone: a name keeps the rules of names.
    row.target.recall();
    is_set_number(&row.set)
        && row.value < TURN
        && (-LARGEST_TURN..=LARGEST_TURN).contains(&row.turn)
}

/// Whether these are the directions of a sheet.
fn are_directions(directions: &[Direction]) -> bool
    ensures { IsTrue result ↔ AreDirections directions.now }
{
    !directions.is_empty()
        && directions.len() <= MOST_TARGETS
        && directions.iter().all(is_direction)
}

/// Whether these are the orientations of a sheet.
fn are_orientations(orientations: &[Orientation]) -> bool
    ensures { IsTrue result ↔ AreOrientations orientations.now }
{
    !orientations.is_empty()
        && orientations.len() <= MOST_SETS
        && orientations.iter().all(is_orientation)
}

/// Whether these are the rows of a sheet.
// Apart from its caller, so that the loop's values stay in registers.
#[inline(never)]
fn are_rows(rows: &[Row]) -> bool
    ensures { IsTrue result ↔ AreRows rows.now }
{
    !rows.is_empty() && rows.len() <= MOST_ROWS && rows.iter().all(is_row)
}
