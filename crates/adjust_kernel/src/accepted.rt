//! What is said of an accepted sheet.

use crate::name::Name;

/// An accepted sheet, in numbers.
#[derive(Clone, Copy, Debug, PartialEq, Eq, Drop)]
pub struct Accepted {
    /// The station.
    pub name: Name,
    /// How many sets it has.
    pub sets: u32,
    /// How many targets it has.
    pub targets: u32,
    /// How many directions were observed.
    pub directions: u32,
    /// The greatest residual in size, in half units (0.005 mgon each) times the denominator.
    pub greatest: i128,
    /// The denominator of the sheet.
    pub denominator: u64,
}
