//! The narrowest arc of the circle that holds all differences.
ghost use Rattle.std.specs.Prelude.{◌≡◌, ◌<◌, length};
ghost use Rattle.directions_apart.specs.Apart.{circle_of, difference, stated_by};
ghost use Rattle.directions_apart.specs.Arcs.{IsSpread};
ghost use Rattle.directions_apart.specs.Bounded.{IsExtentBelow};
ghost use Rattle.exact_adjustment.specs.Adjustments.{choice_by};

use crate::circle::way_round;
use crate::differences::{circle, difference};
use exact_adjustment::Adjustment;
use wide_number::Wide;

/// How wide an arc is that begins at one of the differences and holds all; it is given up as soon
/// as it is no narrower than a bound.
fn extent_from(adjustment: &Adjustment, stated: &[i64], start: usize, bound: &Wide) -> Wide
    requires each { length stated.now ≡ length adjustment.now.directions }
    requires start { start < length stated.now }
    ensures { IsExtentBelow (circle_of (choice_by adjustment.now))
        (difference (choice_by adjustment.now) (stated_by stated.now)) (length stated.now)
        start bound.now result }
{
    let circle = circle(adjustment);
    let from = difference(adjustment, stated, start);
    let mut widest = Wide::zero();
    for target in 0..stated.len() {
        let way = way_round(&circle, &from, difference(adjustment, stated, target));
        if !way.is_below(bound) {
            return way;
        }
        if widest.is_below(&way) {
            widest = way;
        }
    }
    widest
}

/// The width of the narrowest arc that holds all differences, in parts times the denominator.
pub(crate) fn spread(adjustment: &Adjustment, stated: &[i64]) -> Wide
    requires { length stated.now ≡ length adjustment.now.directions }
    ensures spread { IsSpread (circle_of (choice_by adjustment.now))
        (difference (choice_by adjustment.now) (stated_by stated.now)) (length stated.now)
        result }
    ensures bound { result < circle_of (choice_by adjustment.now) }
{
    let mut narrowest = circle(adjustment);
    for start in 0..stated.len() {
        let extent = extent_from(adjustment, stated, start, &narrowest);
        if extent.is_below(&narrowest) {
            narrowest = extent;
        }
    }
    narrowest
}
