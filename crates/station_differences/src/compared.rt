//! The targets of a station, each with what is stated of it and its least-squares direction.
ghost use Rattle.std.specs.Prelude.{◌≡◌, length, IfOk};
ghost use Rattle.exact_adjustment.specs.Adjustments.{choice_by};
ghost use Rattle.station_differences.specs.ByAdjustment.{AreRowsBy};

use crate::line::compared_of;
use crate::lines::lines_by;
use crate::stated::lacking_none;
use adjust_kernel::Name;
use exact_adjustment::Adjustment;
use std::alloc::{AllocError, Global};

/// A target of a station, with what is stated of it and its least-squares direction.
#[derive(Clone, Copy, Debug, PartialEq, Eq, Drop)]
pub struct TargetDifference {
    /// The name of the target.
    pub target: Name,
    /// The stated direction, in parts, 81 of which are 0.000000001 gon: from 0 and below a full
    /// circle.
    pub stated: u64,
    /// The least-squares direction, counted from that of the first target of the station and
    /// rounded to 0.000001 gon: in units of 0.000000001 gon, a multiple of 1,000 and below a full
    /// circle.
    pub least: u64,
    /// The stated direction less the least-squares one, after the rotation that makes the largest
    /// of the differences smallest, in units of 0.001 mgon: at most 200,000,000 in size.
    pub difference: i32,
}

/// What [`lines_by`] has of directions that are stated of all targets.
///
/// The only error is that memory was refused.
pub fn differences_by(
    alloc: Global,
    targets: &[Name],
    adjustment: &Adjustment,
    stated: &[i64],
) -> Result<Vec<TargetDifference>, AllocError>
    requires each_target { length adjustment.now.directions ≡ length targets.now }
    requires each_stated { length stated.now ≡ length targets.now }
    ensures { IfOk result (λ rows. AreRowsBy (choice_by adjustment.now) targets.now stated.now
        rows.items) }
{
    // An adjustment says of what it answers that it keeps the rules.
    let _ = adjustment.denominator();
    let stated = lacking_none(alloc, stated)?;
    let lines = lines_by(alloc, targets, adjustment, &stated)?;
    compared_of(alloc, &lines)
}
