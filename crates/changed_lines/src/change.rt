//! A change of one line.

use adjust_kernel::Name;

/// What becomes of a line.
#[derive(Clone, Copy, Debug, Drop)]
pub enum Edit {
    /// It is left out, with what ends it.
    Out,
    /// Its point has this name: the content of its first word, filled with zeros from the left.
    Rename(Name),
}

/// A change of one line.
#[derive(Clone, Copy, Debug, Drop)]
pub struct Change {
    /// The number of the line, from 1, as refusals count: lines of blanks have none.
    pub line: u32,
    /// What becomes of it.
    pub edit: Edit,
}
