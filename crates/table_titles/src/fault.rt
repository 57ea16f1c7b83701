//! Why a table has no two columns with the titles.

ghost use Rattle.std.specs.Prelude.{◌≡◌, ◌≤◌, length};
ghost use Rattle.adjust_kernel.specs.declared.bounds.TheConstants.{LONGEST_FAULT_NAME};
ghost use Rattle.table_titles.specs.Faults.{of_input, titles_fault_name};
ghost use Rattle.table_titles.specs.declared.fault.TitlesFault.TheVariants.{Memory};

use crate::titles::TitleOf;
use byte_ends::InputFault;
use direction_table::LONGEST_TABLE;
use std::alloc::AllocError;
use thiserror::Error;

/// Why a table has no two columns with the titles.
#[derive(Clone, Copy, Debug, PartialEq, Eq, Drop, Error)]
pub enum TitlesFault {
    /// A read of the table failed: see whether it can be read to its end.
    #[error("a read of the table failed")]
    Read,
    /// There are more bytes than a table may have: see whether they are a table.
    #[error("longer than {most} bytes", most = LONGEST_TABLE)]
    TooLong,
    /// No row has the title of targets, or the first that has it none of directions: write both as
    /// one row has them, or state the columns by their numbers.
    #[error("no column has the title of {0}: titles are compared as they stand, capitals too")]
    NoTitle(TitleOf),
    /// More columns have this title: state the columns by their numbers.
    #[error("more than one column has the title of {0}: state the columns by their numbers")]
    TwiceTitled(TitleOf),
    /// One column has both titles, which are the same: state that of targets and that of
    /// directions.
    #[error("the titles of targets and of directions are the same")]
    SameTitle,
    /// Memory ran out. This is no fault of the table: with more memory it may be read.
    #[error("out of memory")]
    Memory,
}

impl TitlesFault {
    /// Its name, as the line of a refusal has it.
    pub fn name(self) -> &'static str
        ensures name { result.now ≡ titles_fault_name self }
        ensures short { length result.now ≤ LONGEST_FAULT_NAME }
    {
        match self {
            TitlesFault::Read => "Read",
            TitlesFault::TooLong => "TooLong",
            TitlesFault::NoTitle(_) => "NoTitle",
            TitlesFault::TwiceTitled(_) => "TwiceTitled",
            TitlesFault::SameTitle => "SameTitle",
            TitlesFault::Memory => "out of memory",
        }
    }
}

impl From<InputFault> for TitlesFault {
    ghost from_gives = { λ fault given. given ≡ of_input fault };

    fn from(fault: InputFault) -> TitlesFault {
        match fault {
            InputFault::Read => TitlesFault::Read,
            InputFault::TooLong => TitlesFault::TooLong,
            InputFault::Memory => TitlesFault::Memory,
        }
    }
}

impl From<AllocError> for TitlesFault {
    ghost from_gives = { λ _ fault. fault ≡ Memory };

    fn from(_: AllocError) -> TitlesFault {
        TitlesFault::Memory
    }
}
