//! The angle that a word holds: its faults, and the bytes that say how it is written.

ghost use Rattle.std.specs.Prelude.{◌≡◌, ◌≤◌, length};
ghost use Rattle.gsi_word.specs.FaultNames.{angle_fault_name};

use thiserror::Error;

/// Why a word holds no angle in gon: the first of these that stands, in this order.
#[derive(Clone, Copy, Debug, PartialEq, Eq, Error)]
pub enum AngleFault {
    /// The fourth byte of the information is not `2`, for gon with five decimals: set the
    /// instrument to that unit.
    #[error("the angle is not in gon with five decimals")]
    Unit,
    /// The third byte of the information is not `.`, `0`, `2` or `3`: measure the angle.
    #[error("the input mode of the angle is none of ., 0, 2 and 3")]
    InputMode,
    /// The sign is minus: set the instrument to angles from 0 to 400 gon.
    #[error("the angle is negative")]
    Sign,
    /// The content is not digits alone: transfer the file from the instrument again.
    #[error("the angle is not digits alone")]
    Digits,
    /// The number is a full turn or more: set the instrument to angles from 0 to 400 gon.
    #[error("the angle is a full turn or more")]
    Range,
}

impl AngleFault {
    /// Its name, as the line of a refusal has it.
    pub fn name(self) -> &'static str
        ensures name { result.now ≡ angle_fault_name self }
        ensures short { length result.now ≤ 16 }
    {
        match self {
            AngleFault::Unit => "Unit",
            AngleFault::InputMode => "InputMode",
            AngleFault::Sign => "Sign",
            AngleFault::Digits => "Digits",
            AngleFault::Range => "Range",
        }
    }
}

/// The byte of the information that says gon with five decimals.
pub(crate) const GON: u8 = b'2';

/// The greatest angle, in units of 0.00001 gon: one less than a full turn of 400 gon.
pub const LAST_UNIT: u32 = 39_999_999;
