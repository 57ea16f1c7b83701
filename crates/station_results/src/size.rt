//! The size of a station's greatest residual.
ghost use Rattle.std.specs.Prelude.{IfOk};
ghost use Rattle.adjust_kernel.specs.declared.bounds.TheConstants.{LARGEST_RESIDUAL_LIMIT};
ghost use Rattle.exact_adjustment.specs.Exact.{IsExact, KeepsLimit};
ghost use Rattle.exact_adjustment.specs.LeastOf.{AreTied};
ghost use Rattle.station_results.specs.Greatest.{IsGreatestSize};

use crate::adjusted::adjusted_by;
use crate::greatest::{greatest_of, size_at};
use adjust_kernel::Station;
use exact_adjustment::Adjustment;
use std::alloc::{AllocError, Global};

/// The size of the greatest residual of a station, by an adjustment of it, in units of 0.001 mgon:
/// rounded as each residual is. Memory is linear in the observations.
pub fn greatest_size(
    alloc: Global,
    station: &Station,
    adjustment: &Adjustment,
) -> Result<u32, AllocError>
    requires exact { IsExact station.now adjustment.now }
    requires limited { KeepsLimit station.now adjustment.now LARGEST_RESIDUAL_LIMIT }
    requires tied { AreTied station.now }
    ensures { IfOk result (IsGreatestSize station.now) }
{
    let rows = adjusted_by(alloc, station, adjustment)?;
    let place = greatest_of(&rows);
    Ok(size_at(&rows, place))
}
