//! Why bytes are no sheet, and why a sheet was not written.

ghost use Rattle.std.specs.Prelude.{◌≡◌, ◌≤◌, length};
ghost use Rattle.adjust_kernel.specs.declared.bounds.TheConstants.{LONGEST_FAULT_NAME};
ghost use Rattle.sheet_format.specs.FaultNames.{row_kind_name, sheet_fault_name};
ghost use Rattle.sheet_format.specs.declared.fault.WriteFault.TheVariants as write_fault;

use crate::reading::LONGEST_SHEET;
use adjust_kernel::{LONGEST_NAME, MOST_ROWS, MOST_SETS, MOST_TARGETS};
use byte_ends::Failed;
use csv::IntoInnerError;
use std::alloc::AllocError;
use thiserror::Error;

/// What is wrong with a row of a sheet, in the order in which it is looked for.
#[derive(Clone, Copy, Debug, PartialEq, Eq, Error)]
pub enum RowKind {
    /// The row has not five columns: write all five, with four commas between them.
    #[error("not five columns")]
    Fields,
    /// Its first column names no row that may stand here: bring the rows into their order.
    #[error("no such row may stand here")]
    Kind,
    /// The first row names another version than 1 or 2: write the one or the other.
    #[error("the version is not 1 or 2")]
    Version,
    /// A column that rows of its kind leave empty is not: empty it.
    #[error("a column that such rows leave empty is not")]
    NotEmpty,
    /// Its name is not 1 to 16 bytes from the blank to the tilde: write the name of the field file.
    #[error("the name is not 1 to {most} bytes from the blank to the tilde", most = LONGEST_NAME)]
    Name,
    /// One of its numbers is no decimal in its one form: write it so.
    #[error("a number is not in its one form")]
    Number,
    /// One of its numbers is outside the range of the sheet's version: correct it, or state version
    /// 2, which has wider ranges.
    #[error("a number is out of range")]
    Range,
    /// There are as many rows of its kind before it as a sheet may have: leave out what is more.
    #[error("more than {MOST_TARGETS} targets, {MOST_SETS} sets or {MOST_ROWS} observations")]
    TooMany,
    /// The sheet ends before this row, and its last row is no observation: see whether it was cut.
    #[error("the sheet ends before its observations")]
    Unfinished,
}

impl RowKind {
    /// Its name, as the line of a refusal has it.
    pub fn name(self) -> &'static str
        ensures name { result.now ≡ row_kind_name self }
        ensures short { length result.now ≤ LONGEST_FAULT_NAME }
    {
        match self {
            RowKind::Fields => "Fields",
            RowKind::Kind => "Kind",
            RowKind::Version => "Version",
            RowKind::NotEmpty => "NotEmpty",
            RowKind::Name => "Name",
            RowKind::Number => "Number",
            RowKind::Range => "Range",
            RowKind::TooMany => "TooMany",
            RowKind::Unfinished => "Unfinished",
        }
    }
}

/// Why bytes are no sheet.
#[derive(Clone, Copy, Debug, PartialEq, Eq, Error)]
pub enum SheetFault {
    /// There are more bytes than a sheet may have: see whether they are a sheet, and take out empty
    /// lines.
    #[error("longer than {most} bytes", most = LONGEST_SHEET)]
    TooLong,
    /// The first row with a fault, from 1, and its fault: mend that row. After the last row stands
    /// `Unfinished`.
    #[error("row {0}: {1}")]
    Row(u32, RowKind),
    /// Memory was refused. This is no fault of the sheet: with more memory it may be read.
    #[error("out of memory")]
    Memory,
}

impl SheetFault {
    /// Its name, as the line of a refusal has it.
    pub fn name(self) -> &'static str
        ensures name { result.now ≡ sheet_fault_name self }
        ensures short { length result.now ≤ LONGEST_FAULT_NAME }
    {
        match self {
            SheetFault::TooLong => "TooLong",
            SheetFault::Row(_, kind) => kind.name(),
            SheetFault::Memory => "out of memory",
        }
    }
}

/// Why a sheet was not written.
#[derive(Clone, Copy, Debug, PartialEq, Eq, Error)]
pub enum WriteFault {
    /// Memory for the text was refused, and nothing was written: write it again with more.
    #[error("out of memory, and nothing was written")]
    Memory,
    /// The writer failed, or its flush did, and what it took is the beginning of the text: see
    /// whether it is open and has room.
    #[error("a write failed")]
    Write,
}

impl From<AllocError> for WriteFault {
    ghost from_gives = { λ _ fault. fault ≡ write_fault.Memory };

    fn from(_: AllocError) -> WriteFault {
        WriteFault::Memory
    }
}

/// Where the text is taken out of `csv`'s writer, an error is out of memory too.
impl<W: Drop> From<IntoInnerError<W>> for WriteFault {
    ghost from_gives = { λ _ fault. fault ≡ write_fault.Memory };

    fn from(_: IntoInnerError<W>) -> WriteFault {
        WriteFault::Memory
    }
}

/// A call of the writer that failed is a failed write.
impl From<Failed> for WriteFault {
    ghost from_gives = { λ _ fault. fault ≡ write_fault.Write };

    fn from(_: Failed) -> WriteFault {
        WriteFault::Write
    }
}
