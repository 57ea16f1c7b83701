//! Why a sheet is refused.

ghost use Rattle.std.specs.Prelude.{◌≡◌, ◌≤◌, length};
ghost use Rattle.adjust_kernel.specs.declared.bounds.TheConstants.{LONGEST_FAULT_NAME};
ghost use Rattle.adjust_kernel.specs.FaultNames.{kernel_fault_name, kernel_fault_number};

use thiserror::Error;

/// The first fault of a sheet against its station: the kinds are looked for from the top, and the
/// number of a fault, from 1, is the least of its kind.
#[derive(Clone, Copy, Debug, PartialEq, Eq, Drop, Error)]
pub enum KernelFault {
    /// The sheet is of another station: look for the sheet of this one.
    #[error("the sheet is of another station")]
    Name,
    /// At this place the sheet's targets are not the station's, or one of both lists has ended:
    /// name the targets as the station has them, in the order of their first reading.
    #[error("at place {0} the sheet's targets are not the station's")]
    TargetRow(u32),
    /// At this place the sheet's sets are not the station's, or one of both lists has ended: number
    /// the sets as the station does, in the order in which they were observed.
    #[error("at place {0} the sheet's sets are not the station's")]
    SetRow(u32),
    /// At this place the sheet's observations are not the station's (set, target or direction), or
    /// one of both lists has ended: state each observation as it was measured, by set and within a
    /// set by target.
    #[error("at row {0} the sheet's observations are not the station's")]
    ObsRow(u32),
    /// The direction of the first target is not 0: take it off all directions and orientations.
    #[error("the direction of the first target is not 0")]
    Datum,
    /// The residuals of this target do not add to 0, so another direction of it is better.
    #[error("the residuals of target {0} do not add to 0")]
    TargetSum(u32),
    /// The residuals of this set do not add to 0, so another orientation of it is better.
    #[error("the residuals of set {0} do not add to 0")]
    SetSum(u32),
    /// The sets and targets fall into parts with no observation between them, so that no adjustment
    /// ties them: observe targets of both parts in one set, or adjust the parts as two stations.
    #[error("no observations tie all sets and targets together")]
    NotConnected,
    /// The residual of this row is above the residual limit that was stated: look at the full turns
    /// of its target and set first, and then at the observation.
    #[error("the residual of row {0} is above the residual limit")]
    Residual(u32),
}

impl KernelFault {
    /// Its name, as the line of a refusal has it.
    pub fn name(self) -> &'static str
        ensures name { result.now ≡ kernel_fault_name self }
        ensures short { length result.now ≤ LONGEST_FAULT_NAME }
    {
        match self {
            KernelFault::Name => "Name",
            KernelFault::TargetRow(_) => "TargetRow",
            KernelFault::SetRow(_) => "SetRow",
            KernelFault::ObsRow(_) => "ObsRow",
            KernelFault::Datum => "Datum",
            KernelFault::TargetSum(_) => "TargetSum",
            KernelFault::SetSum(_) => "SetSum",
            KernelFault::NotConnected => "NotConnected",
            KernelFault::Residual(_) => "Residual",
        }
    }

    /// The number that it carries, from 1.
    pub fn number(self) -> Option<u32>
        ensures { result ≡ kernel_fault_number self }
    {
        match self {
            KernelFault::TargetRow(n)
            | KernelFault::SetRow(n)
            | KernelFault::ObsRow(n)
            | KernelFault::TargetSum(n)
            | KernelFault::SetSum(n)
            | KernelFault::Residual(n) => Some(n),
            KernelFault::Name | KernelFault::Datum | KernelFault::NotConnected => None,
        }
    }
}
