//! What a sheet says: a direction for each target, an orientation for each set, and the
//! observations with their full turns.

ghost use Rattle.std.specs.Prelude.{◌≡◌, ◌↔◌, pos, ◌+ℤ◌, ◌*ℤ◌, IsTrue};
ghost use Rattle.adjust_kernel.specs.Sheets.{IsSetNumber};

use crate::bounds::{LARGEST_SET_NUMBER, TURN};
use crate::name::Name;

/// The adjusted direction of a target.
#[derive(Clone, Copy, Debug, PartialEq, Eq, Drop)]
pub struct Direction {
    /// The target.
    pub name: Name,
    /// Half units (0.005 mgon each) times the sheet's denominator.
    pub value: i128,
}

/// The adjusted orientation of a set.
#[derive(Clone, Copy, Debug, PartialEq, Eq, Drop)]
pub struct Orientation {
    /// The number of the set.
    pub set: u16,
    /// Half units (0.005 mgon each) times the sheet's denominator.
    pub value: i128,
}

/// An observed direction as a sheet states it.
#[derive(Clone, Copy, Debug, PartialEq, Eq, Drop)]
pub struct Row {
    /// The target.
    pub target: Name,
    /// The two-face direction in half units, below a full circle.
    pub value: u32,
    /// The number of the set.
    pub set: u16,
    /// The full circles that the adjustment adds to it.
    pub turn: i8,
}

/// A direction with full turns, in half units.
pub(crate) fn unrolled(value: u32, turn: i8) -> i64
    ensures { result ≡ (pos value +ℤ pos TURN *ℤ turn) }
{
    i64::from(value) + i64::from(TURN) * i64::from(turn)
}

impl Row {
    /// The direction with its full turns, in half units.
    pub fn unrolled(&self) -> i64
        ensures { result ≡ (pos self.now.value +ℤ pos TURN *ℤ self.now.turn) }
    {
        unrolled(self.value, self.turn)
    }
}

/// Whether a number is one that a set may have.
pub(crate) fn is_set_number(number: &u16) -> bool
    ensures { IsTrue result ↔ IsSetNumber number.now }
{
    (1..=LARGEST_SET_NUMBER).contains(number)
}
