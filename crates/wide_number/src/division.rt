//! Division of a number by another, where the quotient is small.
ghost use Rattle.std.specs.Prelude.{◌+◌, ◌*◌, ◌≤◌, ◌<◌};
ghost use Rattle.wide_number.specs.Limbs.{WIDE_LIMIT};

use crate::limbs::{BASE, LIMBS};
use crate::wide::Wide;

/// 2^32: as much as half of a limb's bits hold is below it.
const HALF: u128 = 4_294_967_296;

/// How many times a unit goes into a number: fewer than the bound.
///
/// The highest words of both tell, and seldom a few too many; then it is found by halving.
pub fn quotient(number: &Wide, unit: &Wide, bound: u64) -> u64
    requires below { number.now < unit.now * bound }
    requires fits { unit.now * bound < WIDE_LIMIT }
    ensures low { unit.now * result ≤ number.now }
    ensures high { number.now < unit.now * (result + 1) }
    ensures bound { result < bound }
{
    let guess = guess(number.limbs(), unit.limbs());
    if guess < bound
        && !number.is_below(&unit.times(guess))
        && number.is_below(&unit.times(guess + 1))
    {
        return guess;
    }
    by_halving(number, unit, bound)
}

/// The limb at a place, and 0 past the last.
fn limb_at(limbs: &[u64; LIMBS], place: usize) -> u128
    ensures { result < BASE }
{
    u128::from(limbs.get(place).copied().unwrap_or(0))
}

/// How many times a unit goes into a number, as their highest words tell: so many times, or seldom
/// a few too many. Nothing rests on it.
fn guess(number: &[u64; LIMBS], unit: &[u64; LIMBS]) -> u64 {
    let top = unit.iter().rposition(|limb| *limb > 0).unwrap_or(0);
    let mut of = limb_at(number, top + 1) * BASE + limb_at(number, top);
    let mut by = limb_at(unit, top);
    // Where the unit's highest word holds few bits, half of the next one comes with it.
    if by < HALF && top > 0 {
        of = of.saturating_mul(HALF) | limb_at(number, top - 1) / HALF;
        by = by * HALF + limb_at(unit, top - 1) / HALF;
    }
    u64::try_from(of / by.max(1)).unwrap_or(0)
}

/// The same, by halving.
fn by_halving(number: &Wide, unit: &Wide, bound: u64) -> u64
    requires below { number.now < unit.now * bound }
    requires fits { unit.now * bound < WIDE_LIMIT }
    ensures low { unit.now * result ≤ number.now }
    ensures high { number.now < unit.now * (result + 1) }
    ensures bound { result < bound }
{
    let mut low = 0;
    let mut high = bound;
    while high - low > 1 {
        let middle = low + (high - low) / 2;
        if number.is_below(&unit.times(middle)) {
            high = middle;
        } else {
            low = middle;
        }
    }
    low
}
