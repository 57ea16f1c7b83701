//! Angles on the circle, over a denominator.
ghost use Rattle.std.specs.Prelude.{◌≡◌, ◌+◌, ◌*◌, ◌<◌, pos};
ghost use Rattle.directions_apart.specs.Arcs.{IsWayRound};
ghost use Rattle.wide_number.specs.Limbs.{WIDE_LIMIT};

use adjust_kernel::{CIRCLE, PARTS};
use wide_number::Wide;

/// A stated direction on the circle: from 0 and below it, in parts.
pub fn on_circle(stated: i64) -> u64
    ensures { IsWayRound (PARTS * CIRCLE) (pos 0) stated result }
{
    stated.rem_euclid((PARTS * CIRCLE) as i64) as u64
}

/// How far it is from one angle onward to another, less than a circle.
pub fn way_round(circle: &Wide, from: &Wide, to: Wide) -> Wide
    requires from { from.now < circle.now }
    requires to { to < circle.now }
    requires fits { circle.now + circle.now < WIDE_LIMIT }
    ensures { IsWayRound circle.now (pos from.now) (pos to) result }
{
    let mut way = to;
    if way.is_below(from) {
        way.add_product(circle, 1);
    }
    way.subtract(from);
    way
}
