//! Why no copy is printed.

ghost use Rattle.std.specs.Prelude.{◌≡◌};
ghost use Rattle.station_change.specs.Answers.{fault_of};
ghost use Rattle.station_change.specs.declared.fault.PrintFault.TheVariants.{Change};

use byte_ends::InputFault;
use changed_lines::ChangeFault;
use thiserror::Error;

/// Why no copy is printed.
#[derive(Clone, Copy, Debug, PartialEq, Eq, Error)]
pub enum PrintFault {
    /// This is the first change that can't be made, or memory ran out.
    #[error("{0}")]
    Change(ChangeFault),
    /// The field file couldn't be read to its end: see whether it can be.
    #[error("a read failed")]
    Read,
    /// The field file is longer than one may be: see whether the path names one.
    #[error("the file is too long")]
    TooLong,
    /// The copy couldn't be written whole: see whether the output is open and has room.
    #[error("a write failed")]
    Write,
}

impl From<ChangeFault> for PrintFault {
    ghost from_gives = { λ fault given. given ≡ Change fault };

    fn from(fault: ChangeFault) -> PrintFault {
        PrintFault::Change(fault)
    }
}

impl From<InputFault> for PrintFault {
    ghost from_gives = { λ fault given. given ≡ fault_of fault };

    fn from(fault: InputFault) -> PrintFault {
        match fault {
            InputFault::Read => PrintFault::Read,
            InputFault::TooLong => PrintFault::TooLong,
            InputFault::Memory => PrintFault::Change(ChangeFault::Memory),
        }
    }
}
