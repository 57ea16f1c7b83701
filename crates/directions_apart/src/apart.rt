//! How far stated directions are apart from those of an adjustment.
ghost use Rattle.std.specs.Prelude.{◌≡◌, ◌≤◌, ◌<◌, ◌*◌, length};
ghost use Rattle.directions_apart.specs.Apart.{IsApart, IsHalfSpread, IsRoundedUp, stated_by};
ghost use Rattle.exact_adjustment.specs.Adjustments.{choice_by};
ghost use Rattle.wide_number.specs.Limbs.{WIDE_LIMIT};

use crate::arc::spread;
use adjust_kernel::{CIRCLE, PARTS, UNIT};
use exact_adjustment::Adjustment;
use wide_number::{Wide, quotient};

/// No directions are further apart than half a circle, in units of 0.000001 gon, and what numbers
/// are off adds a unit at most.
pub const MOST_APART: u64 = CIRCLE / (2 * UNIT) + 1;

/// No numbers are off by more than half a unit of 0.000001 gon, in parts.
pub const MOST_OFF: u64 = PARTS * UNIT / 2;

/// The least whole number that is not below a fraction of what is less than a circle.
fn rounded_up(numerator: &Wide, denominator: &Wide) -> u32
    requires below { numerator.now < denominator.now * MOST_APART }
    requires fits { denominator.now * MOST_APART < WIDE_LIMIT }
    ensures value { IsRoundedUp numerator.now denominator.now result }
    ensures bound { result ≤ MOST_APART }
{
    let whole = quotient(numerator, denominator, MOST_APART);
    if denominator.times(whole).is_below(numerator) {
        (whole + 1) as u32
    } else {
        whole as u32
    }
}

/// How far stated directions, one for each target, are apart from those of an adjustment, in units
/// of 0.000001 gon: one rotation brings each within that, with the numbers that are off from them by
/// so many parts at most, and none brings them nearer by a unit. That is half the spread of the
/// differences on the circle, and what numbers are off, rounded up. Stated directions are in parts,
/// 81 of which are 0.000000001 gon.
///
/// `laws::each_least` says what follows for every least-squares choice, and `laws::numbers` what
/// follows for the numbers.
pub fn apart_of(adjustment: &Adjustment, stated: &[i64], off: u64) -> u32
    requires each { length stated.now ≡ length adjustment.now.directions }
    requires off { off ≤ MOST_OFF }
    ensures apart { IsApart (length stated.now) (choice_by adjustment.now)
        (stated_by stated.now) off result }
    ensures half_spread { IsHalfSpread (length stated.now) (choice_by adjustment.now)
        (stated_by stated.now) off result }
    ensures bound { result ≤ MOST_APART }
{
    let denominator = adjustment.denominator();
    let mut twice = spread(adjustment, stated);
    twice.add_product(denominator, 2 * off);
    rounded_up(&twice, &denominator.times(2 * PARTS * UNIT))
}
