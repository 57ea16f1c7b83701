//! What the two readings of a target give.

ghost use Rattle.std.specs.Prelude.{◌≡◌, ◌<◌, ◌≤◌, pos};
ghost use Rattle.station_book.specs.declared.bounds.TheConstants.{CIRCLE};
ghost use Rattle.station_book.specs.declared.limits.TheConstants.{LARGEST_LIMIT};
ghost use Rattle.station_book.specs.Faults.{has_no_two_c, has_no_two_i};
ghost use Rattle.station_book.specs.Pairs.{half_turned, two_c, two_i, direction};
ghost use Rattle.station_book.specs.TwoFaces.{AreOnCircle};

use crate::angles::Angles;
use crate::bounds::{CIRCLE, HALF_CIRCLE};
use crate::faces::Faces;
use adjust_kernel::TURN;

/// 2c and half a circle, from 0 up to a circle.
fn half_turned(first: Angles, second: Angles) -> u32
    requires first_in { AreOnCircle first }
    requires second_in { AreOnCircle second }
    ensures value { result ≡ half_turned first second }
    ensures bound { result < CIRCLE }
{
    (second.hz + CIRCLE - first.hz) % CIRCLE
}

/// The face differences, and the zenith angle of face I.
pub(crate) fn faces_of(first: Angles, second: Angles) -> Faces
    requires first_in { AreOnCircle first }
    requires second_in { AreOnCircle second }
    ensures two_c { result.two_c ≡ two_c first second }
    ensures two_i { result.two_i ≡ two_i first second }
    ensures zenith { result.zenith ≡ pos first.zenith }
{
    let two_c = half_turned(first, second) as i32 - HALF_CIRCLE as i32;
    let two_i = (first.zenith + second.zenith) as i32 - CIRCLE as i32;
    Faces {
        two_c,
        two_i,
        zenith: first.zenith as i32,
    }
}

/// The two-face direction, in half units.
pub(crate) fn direction_of(first: Angles, second: Angles) -> u32
    requires first_in { AreOnCircle first }
    requires second_in { AreOnCircle second }
    ensures { result ≡ direction first second }
{
    (2 * first.hz + half_turned(first, second) + CIRCLE + HALF_CIRCLE) % TURN
}

/// Whether no 2c is within this limit.
#[tactic(auto, unfolding(crate::specs::Faults::has_no_two_c))]
pub(crate) fn has_no_two_c(limit: u32, first: Angles, second: Angles) -> bool
    requires limit { limit ≤ LARGEST_LIMIT }
    requires first_in { AreOnCircle first }
    requires second_in { AreOnCircle second }
    ensures { result ≡ has_no_two_c limit first second }
{
    let two_c = (second.hz + CIRCLE + HALF_CIRCLE - first.hz) % CIRCLE;
    limit < two_c && two_c < CIRCLE - limit
}

/// Whether no 2i is within this limit.
#[tactic(auto, unfolding(crate::specs::Faults::has_no_two_i))]
pub(crate) fn has_no_two_i(limit: u32, first: Angles, second: Angles) -> bool
    requires limit { limit ≤ LARGEST_LIMIT }
    requires first_in { AreOnCircle first }
    requires second_in { AreOnCircle second }
    ensures { result ≡ has_no_two_i limit first second }
{
    let sum = first.zenith + second.zenith;
    CIRCLE + limit < sum || sum + limit < CIRCLE
}
