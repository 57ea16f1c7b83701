//! How far stated directions are apart from the least-squares ones of their station.
ghost use Rattle.std.specs.Prelude.{◌≡◌, ◌≤◌, length};
ghost use Rattle.adjust_kernel.specs.declared.bounds.TheConstants.{LARGEST_RESIDUAL_LIMIT};
ghost use Rattle.directions_apart.specs.Apart.{stated_by};
ghost use Rattle.exact_adjustment.specs.Exact.{IsExact, KeepsLimit};
ghost use Rattle.exact_adjustment.specs.LeastOf.{AreTied};
ghost use Rattle.least_directions.specs.LeastDirections.{AreApart};

use adjust_kernel::Station;
use directions_apart::{MOST_OFF, apart_of};
use exact_adjustment::Adjustment;

/// How far stated directions, one for each target of a station, are apart from its least-squares
/// directions, by an adjustment of it, in units of 0.000001 gon: one rotation brings every stated
/// direction within that of the least-squares one, with the numbers that are off from it by so many
/// parts at most, and none brings them nearer by a unit. Stated directions are in parts, 81 of which
/// are 0.000000001 gon.
pub fn apart_by(station: &Station, adjustment: &Adjustment, stated: &[i64], off: u64) -> u32
    requires exact { IsExact station.now adjustment.now }
    requires limited { KeepsLimit station.now adjustment.now LARGEST_RESIDUAL_LIMIT }
    requires tied { AreTied station.now }
    requires each { length stated.now ≡ length station.now.targets }
    requires off { off ≤ MOST_OFF }
    ensures { AreApart station.now (stated_by stated.now) off result }
{
    // A station says of what it answers that it keeps the rules.
    let _ = station.obs();
    apart_of(adjustment, stated, off)
}
