//! The two columns of a row.

ghost use Rattle.std.specs.Prelude.{◌≡◌, option_map};
ghost use Rattle.csv.specs.Records.{fields_of};
ghost use Rattle.direction_table.specs.Faults as faults;
ghost use Rattle.direction_table.specs.FieldForms.{tidy};
ghost use Rattle.direction_table.specs.Rows.{two_columns_of, two_columns_view};

use crate::direction::Direction;
use crate::field::{are_blank_from, field, has_target, named, without_blanks};
use crate::unit::AngleUnit;
use adjust_kernel::Name;
use csv::ByteRecord;

/// How many columns a row has.
pub(crate) const COLUMNS: usize = 2;

/// The fields of a row that has two, tidied.
#[derive(Clone, Copy)]
pub(crate) struct Columns<'a> {
    pub(crate) name: &'a [u8],
    pub(crate) direction: &'a [u8],
}

impl<'a> Columns<'a> {
    /// The columns of a row, if it has two, and after them none that isn't blank.
    #[tactic(auto, using(crate::proofs::TwoColumns::columns_tidy))]
    pub(crate) fn parse(targets: &[Name], row: &'a ByteRecord) -> Option<Columns<'a>>
        ensures { option_map two_columns_view result
            ≡ two_columns_of (tidy targets.now (fields_of row.now)) }
    {
        if row.len() < COLUMNS {
            return None;
        }
        if !are_blank_from(row, COLUMNS) {
            return None;
        }
        Some(Columns {
            name: named(targets, field(row, 0)),
            direction: without_blanks(field(row, 1)),
        })
    }
}

/// Whether a row is one of titles: it has two columns or more, the first of which is no target's
/// name and the second no direction.
#[tactic(auto, using(crate::proofs::TwoColumns::titles_tidy))]
pub(crate) fn are_titles(unit: AngleUnit, targets: &[Name], row: &ByteRecord) -> bool
    ensures { result ≡ faults.are_titles unit targets.now (tidy targets.now (fields_of row.now)) }
{
    if row.len() < COLUMNS {
        return false;
    }
    if has_target(targets, named(targets, field(row, 0))) {
        return false;
    }
    Direction::of(unit, without_blanks(field(row, 1))).is_none()
}

/// Whether a row of a pair of columns says nothing: it names no target, and has no direction.
pub(crate) fn says_nothing(unit: AngleUnit, targets: &[Name], row: &ByteRecord) -> bool
    ensures { result ≡ faults.says_nothing unit targets.now (tidy targets.now (fields_of row.now)) }
{
    !has_target(targets, named(targets, field(row, 0)))
        && Direction::of(unit, without_blanks(field(row, 1))).is_none()
}
