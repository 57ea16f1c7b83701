//! Why there is no sheet of means.
ghost use Rattle.std.specs.Prelude.{◌≡◌, ◌≤◌, length};
ghost use Rattle.adjust_kernel.specs.declared.bounds.TheConstants.{LONGEST_FAULT_NAME};
ghost use Rattle.sheet_means.specs.FaultNames.{means_fault_name};
ghost use Rattle.sheet_means.specs.declared.fault.MeansFault.TheVariants.{Memory};

use std::alloc::AllocError;
use thiserror::Error;

/// Why there is no sheet of means of a station.
#[derive(Clone, Copy, Debug, PartialEq, Eq, Drop, Error)]
pub enum MeansFault {
    /// Some target was not observed in some set: observe it, or adjust the station by a program
    /// that takes incomplete sets.
    #[error("some target was not observed in some set")]
    Incomplete,
    /// There was no memory for the sheet: run it again with more.
    #[error("out of memory")]
    Memory,
}

impl MeansFault {
    /// Its name, as the line of a refusal has it.
    pub fn name(self) -> &'static str
        ensures name { result.now ≡ means_fault_name self }
        ensures short { length result.now ≤ LONGEST_FAULT_NAME }
    {
        match self {
            MeansFault::Incomplete => "Incomplete",
            MeansFault::Memory => "out of memory",
        }
    }
}

impl From<AllocError> for MeansFault {
    ghost from_gives = { λ _ fault. fault ≡ Memory };

    fn from(_: AllocError) -> MeansFault {
        MeansFault::Memory
    }
}
