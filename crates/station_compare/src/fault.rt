//! Why stated directions don't agree, or aren't compared.
ghost use Rattle.std.specs.Prelude.{◌≡◌, ◌≤◌, length};
ghost use Rattle.adjust_kernel.specs.declared.bounds.TheConstants.{LONGEST_FAULT_NAME};
ghost use Rattle.station_compare.specs.FaultNames as names;
ghost use Rattle.station_compare.specs.Faults.{of_adjust, of_file, of_input, of_table};
ghost use Rattle.station_compare.specs.declared.fault.CompareFault.TheVariants.{Memory, Write};

use crate::how_far::HowFar;
use byte_ends::{Failed, InputFault};
use direction_table::TableFault;
use exact_adjustment::{AdjustError, AdjustFault};
use station_check::Fault;
use std::alloc::AllocError;
use thiserror::Error;

/// The first fault that stands.
#[derive(Clone, Copy, Debug, PartialEq, Eq, Error)]
pub enum CompareFault {
    /// The field file has a fault, or no station of this name.
    #[error("{0}")]
    File(Fault),
    /// A read of the table failed: see whether it can be read to its end.
    #[error("a read of the table failed")]
    TableRead,
    /// The bytes are no table of the station's directions: mend them at the row that is named.
    #[error("the table has a fault: {0}")]
    Table(TableFault),
    /// The station's least-squares directions are not told.
    #[error("the station can't be adjusted: {0}")]
    Adjust(AdjustFault),
    /// The stated directions are so far apart from the least-squares ones, and further than the
    /// limit: compare them target by target, by `station_differences`.
    #[error("the directions are {apart} units of 0.000001 gon apart, limit {limit}", apart = .0.apart, limit = .0.limit)]
    Apart(HowFar),
    /// What was to be written couldn't be written whole: see whether the output is open and has
    /// room.
    #[error("a write failed")]
    Write,
    /// Memory ran out: run it again with more.
    #[error("out of memory")]
    Memory,
}

impl CompareFault {
    /// Its name, as the line of a refusal has it.
    pub fn name(self) -> &'static str
        ensures name { result.now ≡ names.compare_fault_name self }
        ensures short { length result.now ≤ LONGEST_FAULT_NAME }
    {
        match self {
            CompareFault::File(fault) => fault.name(),
            CompareFault::TableRead => "Read",
            CompareFault::Table(fault) => fault.name(),
            CompareFault::Adjust(fault) => adjust_fault_name(fault),
            CompareFault::Apart(_) => "Apart",
            CompareFault::Write => "write failed",
            CompareFault::Memory => "out of memory",
        }
    }
}

/// The name of why a station has no adjustment.
fn adjust_fault_name(fault: AdjustFault) -> &'static str
    ensures name { result.now ≡ names.adjust_fault_name fault }
    ensures short { length result.now ≤ LONGEST_FAULT_NAME }
{
    match fault {
        AdjustFault::NotConnected => "NotConnected",
        AdjustFault::Residual(_) => "Residual",
        AdjustFault::NotFound => "NotFound",
    }
}

impl From<Fault> for CompareFault {
    ghost from_gives = { λ fault given. given ≡ of_file fault };

    fn from(fault: Fault) -> CompareFault {
        match fault {
            Fault::Memory => CompareFault::Memory,
            fault => CompareFault::File(fault),
        }
    }
}

impl From<InputFault> for CompareFault {
    ghost from_gives = { λ fault given. given ≡ of_input fault };

    fn from(fault: InputFault) -> CompareFault {
        match fault {
            InputFault::Read => CompareFault::TableRead,
            InputFault::TooLong => CompareFault::Table(TableFault::TooLong),
            InputFault::Memory => CompareFault::Memory,
        }
    }
}

impl From<TableFault> for CompareFault {
    ghost from_gives = { λ fault given. given ≡ of_table fault };

    fn from(fault: TableFault) -> CompareFault {
        match fault {
            TableFault::Memory => CompareFault::Memory,
            fault => CompareFault::Table(fault),
        }
    }
}

impl From<Failed> for CompareFault {
    ghost from_gives = { λ _ fault. fault ≡ Write };

    fn from(_: Failed) -> CompareFault {
        CompareFault::Write
    }
}

impl From<AllocError> for CompareFault {
    ghost from_gives = { λ _ fault. fault ≡ Memory };

    fn from(_: AllocError) -> CompareFault {
        CompareFault::Memory
    }
}

impl From<AdjustError> for CompareFault {
    ghost from_gives = { λ error given. given ≡ of_adjust error };

    fn from(error: AdjustError) -> CompareFault {
        match error {
            AdjustError::Fault(fault) => CompareFault::Adjust(fault),
            AdjustError::Memory => CompareFault::Memory,
        }
    }
}
