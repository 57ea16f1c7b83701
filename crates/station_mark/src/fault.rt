//! Why no copy is printed.

ghost use Rattle.std.specs.Prelude.{◌≡◌};
ghost use Rattle.set_marks.specs.declared.fault.MarkFault.TheVariants.{Memory};
ghost use Rattle.station_mark.specs.declared.fault.PrintFault.TheVariants.{Mark, Write};

use byte_ends::Failed;
use set_marks::MarkFault;
use std::alloc::AllocError;
use thiserror::Error;

/// Why no copy is printed.
#[derive(Clone, Copy, Debug, PartialEq, Eq, Error)]
pub enum PrintFault {
    /// The field file is not marked: this is its first fault, or memory ran out.
    #[error("{0}")]
    Mark(MarkFault),
    /// The copy couldn't be written whole: see whether the output is open and has room.
    #[error("a write failed")]
    Write,
}

impl From<MarkFault> for PrintFault {
    ghost from_gives = { λ fault given. given ≡ Mark fault };

    fn from(fault: MarkFault) -> PrintFault {
        PrintFault::Mark(fault)
    }
}

impl From<AllocError> for PrintFault {
    ghost from_gives = { λ _ given. given ≡ Mark Memory };

    fn from(_: AllocError) -> PrintFault {
        PrintFault::Mark(MarkFault::Memory)
    }
}

impl From<Failed> for PrintFault {
    ghost from_gives = { λ _ given. given ≡ Write };

    fn from(_: Failed) -> PrintFault {
        PrintFault::Write
    }
}
