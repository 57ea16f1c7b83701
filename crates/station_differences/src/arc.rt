//! The narrowest arc of a circle that holds angles.
ghost use Rattle.std.specs.Prelude.{◌≡◌, ◌<◌, ◌≤◌, ◌+◌, All, length};
ghost use Rattle.directions_apart.specs.Bounded.{IsExtentBelow};
ghost use Rattle.station_differences.specs.Angles.{angle_of};
ghost use Rattle.station_differences.specs.BestArcs.{IsBestArc};
ghost use Rattle.wide_number.specs.Limbs.{WIDE_LIMIT};

use directions_apart::way_round;
use wide_number::Wide;

/// The narrowest arc that holds all angles.
#[derive(Drop)]
pub(crate) struct Arc {
    /// The place of the angle at which it begins: the first such place, where several arcs are as
    /// narrow.
    pub start: usize,
    /// How wide it is.
    pub spread: Wide,
}

/// How wide an arc is that begins at one of the angles and holds all; it is given up as soon as it
/// is no narrower than a bound.
fn extent_from(circle: &Wide, angles: &[Wide], start: usize, bound: &Wide) -> Wide
    requires start { start < length angles.now }
    requires angles { All (λ angle. angle < circle.now) angles.now }
    requires fits { circle.now + circle.now < WIDE_LIMIT }
    ensures { IsExtentBelow circle.now (angle_of angles.now) (length angles.now) start bound.now
        result }
{
    let mut widest = Wide::zero();
    for place in 0..angles.len() {
        let way = way_round(circle, &angles[start], angles[place].times(1));
        if !way.is_below(bound) {
            return way;
        }
        if widest.is_below(&way) {
            widest = way;
        }
    }
    widest
}

/// The narrowest arc of a circle that holds all angles; of several, the one that begins at the
/// first of them.
pub(crate) fn best_arc(circle: &Wide, angles: &[Wide]) -> Arc
    requires some { 1 ≤ length angles.now }
    requires angles { All (λ angle. angle < circle.now) angles.now }
    requires fits { circle.now + circle.now < WIDE_LIMIT }
    ensures best { IsBestArc circle.now (angle_of angles.now) (length angles.now) result.start
        result.spread }
    ensures bound { result.spread < circle.now }
{
    let mut start = 0;
    let mut spread = circle.times(1);
    for place in 0..angles.len() {
        let extent = extent_from(circle, angles, place, &spread);
        if extent.is_below(&spread) {
            start = place;
            spread = extent;
        }
    }
    Arc { start, spread }
}
