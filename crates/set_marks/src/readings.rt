//! What is kept of the blocks of a field file.

ghost use Rattle.std.specs.Prelude.{◌≤◌};
ghost use Rattle.gsi_file.specs.declared.bounds.TheConstants.{LONGEST_FILE};

use crate::marking::Marking;
use crate::sight::Sight;
use adjust_kernel::Name;

/// The stations of a field file, in its order: those that have ended, and the one that is open.
#[derive(Drop)]
pub(crate) struct Readings {
    /// The name of the station that is open, where one has begun.
    pub(crate) station: Option<Name>,
    /// Its readings.
    pub(crate) sights: Vec<Sight>,
    /// How often its set-up line was written again.
    pub(crate) written_again: usize,
    /// The code lines of the stations before it.
    pub(crate) marking: Marking,
    /// How many blocks came.
    pub(crate) blocks: u32,
    // no more than a file has bytes
    ghost few: { blocks ≤ LONGEST_FILE },
}
