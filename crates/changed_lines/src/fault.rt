//! Why a change can't be made.

ghost use Rattle.std.specs.Prelude.{◌≡◌, ◌≤◌, length};
ghost use Rattle.adjust_kernel.specs.declared.bounds.TheConstants.{LONGEST_FAULT_NAME};
ghost use Rattle.changed_lines.specs.FaultNames.{change_fault_name};
ghost use Rattle.changed_lines.specs.declared.fault.ChangeFault.TheVariants.{Memory};

use std::alloc::AllocError;
use thiserror::Error;

/// Why no copy is made: the first change that can't be made, by the number of its line.
#[derive(Clone, Copy, Debug, PartialEq, Eq, Error)]
pub enum ChangeFault {
    /// The line isn't after that of the change before it, or its number is 0: state each line once,
    /// in the order of the file.
    #[error("line {0} isn't after the line of the change before")]
    LineOrder(u32),
    /// The file has no line of this number: count again, without lines of blanks.
    #[error("there is no line {0}")]
    NoSuchLine(u32),
    /// The name has more bytes than a word of the line has room for, 8 in GSI-8: shorten it.
    #[error("the name is too long for line {0}")]
    NameTooLong(u32),
    /// The name begins with a zero, which a word doesn't keep: leave the zero out.
    #[error("the name for line {0} begins with a zero")]
    ZeroBefore(u32),
    /// With this name the line isn't a measurement, a block that begins with a word 11: leave it
    /// out, or mend it by hand.
    #[error("line {0} is no measurement")]
    NoPoint(u32),
    /// There was no memory: run it again with more.
    #[error("out of memory")]
    Memory,
}

impl ChangeFault {
    /// Its name, as the line of a refusal has it.
    pub fn name(self) -> &'static str
        ensures name { result.now ≡ change_fault_name self }
        ensures short { length result.now ≤ LONGEST_FAULT_NAME }
    {
        match self {
            ChangeFault::LineOrder(_) => "LineOrder",
            ChangeFault::NoSuchLine(_) => "NoSuchLine",
            ChangeFault::NameTooLong(_) => "NameTooLong",
            ChangeFault::ZeroBefore(_) => "ZeroBefore",
            ChangeFault::NoPoint(_) => "NoPoint",
            ChangeFault::Memory => "out of memory",
        }
    }
}

impl From<AllocError> for ChangeFault {
    ghost from_gives = { λ _ fault. fault ≡ Memory };

    fn from(_: AllocError) -> ChangeFault {
        ChangeFault::Memory
    }
}
