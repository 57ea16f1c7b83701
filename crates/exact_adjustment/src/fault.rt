//! Why a station has no adjustment.
ghost use Rattle.std.specs.Prelude.{◌≡◌};
ghost use Rattle.exact_adjustment.specs.declared.fault.AdjustError.TheVariants.{Fault, Memory};

use std::alloc::AllocError;
use thiserror::Error;

/// Why a station has no adjustment.
#[derive(Clone, Copy, Debug, PartialEq, Eq, Drop, Error)]
pub enum AdjustFault {
    /// The observations fall into parts that have no set and no target in common, so that nothing
    /// says how the parts lie to each other: observe a target of one part in a set of another.
    #[error("the observations don't hold all sets and targets together")]
    NotConnected,
    /// Some least-squares residual is above the limit; the number, from 1, is that of the
    /// observation with the greatest, the first of them where several are: look whether it is of
    /// another target, or was read wrongly.
    #[error("observation {0} has the greatest residual, above the limit")]
    Residual(u32),
    /// No exact adjustment was found, though the observations hold all sets and targets together:
    /// no station is known of which this is answered.
    #[error("no exact adjustment was found")]
    NotFound,
}

/// Why no adjustment is answered.
#[derive(Clone, Copy, Debug, PartialEq, Eq, Drop, Error)]
pub enum AdjustError {
    /// The station has none.
    #[error("{0}")]
    Fault(AdjustFault),
    /// Memory ran out: it says nothing of the station.
    #[error("out of memory")]
    Memory,
}

impl From<AdjustFault> for AdjustError {
    ghost from_gives = { λ fault error. error ≡ Fault fault };

    fn from(fault: AdjustFault) -> AdjustError {
        AdjustError::Fault(fault)
    }
}

impl From<AllocError> for AdjustError {
    ghost from_gives = { λ _ error. error ≡ Memory };

    fn from(_: AllocError) -> AdjustError {
        AdjustError::Memory
    }
}
