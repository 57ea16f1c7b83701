//! Why bytes are no table of directions.

ghost use Rattle.std.specs.Prelude.{◌≡◌, ◌≤◌, length};
ghost use Rattle.adjust_kernel.specs.declared.bounds.TheConstants.{LONGEST_FAULT_NAME};
ghost use Rattle.direction_table.specs.FaultNames.{table_row_kind_name, table_fault_name};
ghost use Rattle.direction_table.specs.declared.fault.TableFault.TheVariants.{Memory};

use crate::reading::LONGEST_TABLE;
use adjust_kernel::LONGEST_NAME;
use std::alloc::AllocError;
use thiserror::Error;

/// What is wrong with a row of a table, in the order in which it is looked for.
#[derive(Clone, Copy, Debug, PartialEq, Eq, Drop, Error)]
pub enum RowKind {
    /// The row has not two columns: write the name and the direction, separated as in the first
    /// row.
    #[error("not two columns")]
    Fields,
    /// Its name is not 1 to 16 bytes from the blank to the tilde: write the name of the field file.
    #[error("the name is not 1 to {most} bytes from the blank to the tilde", most = LONGEST_NAME)]
    Name,
    /// Its direction is no number of gon, or of degrees, in the form of a table: write digits, at
    /// most 3 before a decimal point or comma; of minutes and of seconds two digits.
    #[error("the direction is no number")]
    Number,
    /// Its direction is more than a full circle: write one of 400 gon, or of 360 degrees, at most.
    #[error("the direction is more than a full circle")]
    Range,
    /// The station has no target of this name: leave the row out, or write the target's name.
    #[error("the station has no target of this name")]
    Unknown,
    /// A row before has this name: leave out one of the two.
    #[error("a row before has this name")]
    Twice,
}

impl RowKind {
    /// Its name, as the line of a refusal has it.
    pub fn name(self) -> &'static str
        ensures name { result.now ≡ table_row_kind_name self }
        ensures short { length result.now ≤ LONGEST_FAULT_NAME }
    {
        match self {
            RowKind::Fields => "Fields",
            RowKind::Name => "Name",
            RowKind::Number => "Number",
            RowKind::Range => "Range",
            RowKind::Unknown => "Unknown",
            RowKind::Twice => "Twice",
        }
    }
}

/// Why bytes are no table of directions.
#[derive(Clone, Copy, Debug, PartialEq, Eq, Drop, Error)]
pub enum TableFault {
    /// There are more bytes than a table may have: see whether they are a table.
    #[error("longer than {most} bytes", most = LONGEST_TABLE)]
    TooLong,
    /// More columns fit, of which these are the first two, from 1: state those of names and of
    /// directions.
    #[error("columns {0} and {1} both fit")]
    Columns(u32, u32),
    /// The first row with a fault, from 1, and its fault: mend that row.
    #[error("row {0}: {1}")]
    Row(u32, RowKind),
    /// The first target of the station, from 1, of which there is no row: add one.
    #[error("target {0} has no row")]
    Missing(u32),
    /// Memory ran out. This is no fault of the table: with more memory it may be read.
    #[error("out of memory")]
    Memory,
}

impl TableFault {
    /// Its name, as the line of a refusal has it.
    pub fn name(self) -> &'static str
        ensures name { result.now ≡ table_fault_name self }
        ensures short { length result.now ≤ LONGEST_FAULT_NAME }
    {
        match self {
            TableFault::TooLong => "TooLong",
            TableFault::Columns(_, _) => "Columns",
            TableFault::Row(_, kind) => kind.name(),
            TableFault::Missing(_) => "Missing",
            TableFault::Memory => "out of memory",
        }
    }
}

impl From<AllocError> for TableFault {
    ghost from_gives = { λ _ fault. fault ≡ Memory };

    fn from(_: AllocError) -> TableFault {
        TableFault::Memory
    }
}
