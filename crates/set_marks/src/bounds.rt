//! The bounds of sets.

use adjust_kernel::MOST_TARGETS;

/// The most readings of a set: each target in two faces.
pub const MOST_READINGS: usize = 2 * MOST_TARGETS;

/// The readings of a set of two targets: each in two faces.
pub(crate) const READINGS_OF_TWO: usize = 4;

/// Readings that are so few that each is compared with all: a table of their targets takes longer.
pub(crate) const FEW_READINGS: usize = 32;

/// So many leading readings may be of any kind.
pub(crate) const FEW_LEADING: usize = 3;
