//! What is told of a station.

use crate::flaw::Flaw;
use crate::remarks::Remarks;
use adjust_kernel::Name;

/// What was recognized of a station: to be compared with the field book.
#[derive(Debug, Drop)]
pub struct Recognized {
    /// Its name.
    pub name: Name,
    /// Its fault, if it has one: its sets weren't recognized.
    pub fault: Option<Flaw>,
    /// How many sets it has; 0 where it has none, or where it has a fault.
    pub sets: usize,
    /// How many targets its sets have.
    pub targets: usize,
    /// Whether its sets are read by targets.
    pub by_targets: bool,
    /// How many readings stand before its sets, outside of them: all where it has none. A station
    /// whose set-up line has no readings after it has 0.
    pub before: usize,
    /// How many readings stand after its sets, outside of them.
    pub after: usize,
    /// What is told of its sets beyond their numbers, where it has any.
    pub remarks: Option<Remarks>,
    /// How often its set-up line was written again while it was open, where it is stated that such
    /// a line begins nothing.
    pub written_again: usize,
}
