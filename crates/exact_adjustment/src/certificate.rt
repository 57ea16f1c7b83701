//! Whether sums of residuals are 0, in natural numbers: what would be negative goes to the other
//! side.
ghost use Rattle.std.specs.Prelude.{◌≡◌, ◌+◌, ◌*◌, ◌<◌, ◌≤◌, ℕ, pos, ◌+ℤ◌, ◌-ℤ◌, ◌*ℤ◌, ◌↔◌, IsTrue};
ghost use Rattle.std.specs.Prelude.{length, All};
ghost use Rattle.adjust_kernel.specs.Pairs.{turned_by};
ghost use Rattle.adjust_kernel.specs.Residuals.{residual, set_sum, target_sum};
ghost use Rattle.adjust_kernel.specs.Stations.{IsObs};
ghost use Rattle.adjust_kernel.specs.Within.{IsWithin};
ghost use Rattle.adjust_kernel.specs.declared.bounds.TheConstants.{LARGEST_TURN, MOST_ROWS, TURN};
ghost use Rattle.exact_adjustment.specs.Adjustments.{AreOnCircle, choice_in};
ghost use Rattle.exact_adjustment.specs.Sides.{turned};
ghost use Rattle.wide_number.specs.Limbs.{WIDE_LIMIT};

use crate::bounds::LARGEST_FACTOR;
use adjust_kernel::{LARGEST_TURN, Obs, TURN};
use wide_number::Wide;

/// As many turns are added on both sides, so that no observation is negative.
const LIFT: u64 = LARGEST_TURN as u64 * TURN as u64;

/// An observation with its full turns, lifted.
fn lifted(value: u32, turn: i8) -> u64
    requires value { value < TURN }
    requires turn { IsWithin LARGEST_TURN turn }
    ensures value { pos result ≡ (pos value +ℤ pos TURN *ℤ turn) +ℤ pos LIFT }
    ensures bound { result ≤ 19 * TURN }
{
    let turns = (i64::from(turn) + i64::from(LARGEST_TURN)) as u64;
    u64::from(value) + u64::from(TURN) * turns
}

/// Adds a residual: what is positive to one side, what is negative to the other.
fn add_sides(
    left: &mut Wide,
    right: &mut Wide,
    denominator: &Wide,
    direction: &Wide,
    orientation: &Wide,
    lifted: u64,
)
    requires left { left.old + direction.now + denominator.now * LIFT < WIDE_LIMIT }
    requires right { right.old + orientation.now + denominator.now * lifted < WIDE_LIMIT }
    ensures left { left.new ≡ left.old + direction.now + denominator.now * LIFT }
    ensures right { right.new ≡ right.old + orientation.now + denominator.now * lifted }
{
    left.add_product(direction, 1);
    left.add_product(denominator, LIFT);
    right.add_product(orientation, 1);
    right.add_product(denominator, lifted);
}

/// Adds the residual of an observation with these full turns to the two sides. Each grows by less
/// than 20 turns.
pub(crate) fn add_residual(
    left: &mut Wide,
    right: &mut Wide,
    denominator: &Wide,
    directions: &[Wide],
    orientations: &[Wide],
    obs: &Obs,
    turn: i8,
)
    requires obs { IsObs (length orientations.now) (length directions.now) obs.now }
    requires turn { IsWithin LARGEST_TURN turn }
    requires directions { AreOnCircle denominator.now directions.now }
    requires orientations { AreOnCircle denominator.now orientations.now }
    requires left { left.old + denominator.now * (20 * TURN) < WIDE_LIMIT }
    requires right { right.old + denominator.now * (20 * TURN) < WIDE_LIMIT }
    ensures sum { (pos left.new -ℤ pos right.new) ≡ (pos left.old -ℤ pos right.old)
        +ℤ residual (choice_in denominator.now directions.now orientations.now)
        (turned_by obs.now turn) }
    ensures left { left.new ≤ left.old + denominator.now * (20 * TURN) }
    ensures right { right.new ≤ right.old + denominator.now * (20 * TURN) }
{
    add_sides(
        left,
        right,
        denominator,
        &directions[obs.target as usize],
        &orientations[obs.set as usize],
        lifted(obs.value, turn),
    );
}

/// Whether the residuals of a target add to 0.
fn is_target_even(
    denominator: &Wide,
    directions: &[Wide],
    orientations: &[Wide],
    turns: &[i8],
    obs: &[Obs],
    target: u32,
) -> bool
    requires few { length obs.now ≤ MOST_ROWS }
    requires each { length turns.now ≡ length obs.now }
    requires obs { All (IsObs (length orientations.now) (length directions.now)) obs.now }
    requires turns { All (IsWithin LARGEST_TURN) turns.now }
    requires directions { AreOnCircle denominator.now directions.now }
    requires orientations { AreOnCircle denominator.now orientations.now }
    requires fits { denominator.now * LARGEST_FACTOR < WIDE_LIMIT }
    ensures { IsTrue result
        ↔ (target_sum (choice_in denominator.now directions.now orientations.now)
        (turned obs.now turns.now) target ≡ pos 0) }
{
    let mut left = Wide::zero();
    let mut right = Wide::zero();
    for place in 0..obs.len() {
        let one = &obs[place];
        if one.target == target {
            add_residual(
                &mut left,
                &mut right,
                denominator,
                directions,
                orientations,
                one,
                turns[place],
            );
        }
    }
    left.is_same(&right)
}

/// Whether the residuals of a set add to 0.
fn is_set_even(
    denominator: &Wide,
    directions: &[Wide],
    orientations: &[Wide],
    turns: &[i8],
    obs: &[Obs],
    set: u32,
) -> bool
    requires few { length obs.now ≤ MOST_ROWS }
    requires each { length turns.now ≡ length obs.now }
    requires obs { All (IsObs (length orientations.now) (length directions.now)) obs.now }
    requires turns { All (IsWithin LARGEST_TURN) turns.now }
    requires directions { AreOnCircle denominator.now directions.now }
    requires orientations { AreOnCircle denominator.now orientations.now }
    requires fits { denominator.now * LARGEST_FACTOR < WIDE_LIMIT }
    ensures { IsTrue result
        ↔ (set_sum (choice_in denominator.now directions.now orientations.now)
        (turned obs.now turns.now) set ≡ pos 0) }
{
    let mut left = Wide::zero();
    let mut right = Wide::zero();
    for place in 0..obs.len() {
        let one = &obs[place];
        if one.set == set {
            add_residual(
                &mut left,
                &mut right,
                denominator,
                directions,
                orientations,
                one,
                turns[place],
            );
        }
    }
    left.is_same(&right)
}

/// Whether the residuals of each target add to 0.
pub(crate) fn are_targets_even(
    denominator: &Wide,
    directions: &[Wide],
    orientations: &[Wide],
    turns: &[i8],
    obs: &[Obs],
) -> bool
    requires few { length obs.now ≤ MOST_ROWS }
    requires each { length turns.now ≡ length obs.now }
    requires obs { All (IsObs (length orientations.now) (length directions.now)) obs.now }
    requires turns { All (IsWithin LARGEST_TURN) turns.now }
    requires directions { AreOnCircle denominator.now directions.now }
    requires orientations { AreOnCircle denominator.now orientations.now }
    requires fits { denominator.now * LARGEST_FACTOR < WIDE_LIMIT }
    requires count { length directions.now ≤ 100 }
    ensures { IsTrue result ↔ ((t : ℕ) → t < length directions.now
        → target_sum (choice_in denominator.now directions.now orientations.now)
        (turned obs.now turns.now) t ≡ pos 0) }
{
    for target in 0..directions.len() as u32 {
        if !is_target_even(denominator, directions, orientations, turns, obs, target) {
            return false;
        }
    }
    true
}

/// Whether the residuals of each set add to 0.
pub(crate) fn are_sets_even(
    denominator: &Wide,
    directions: &[Wide],
    orientations: &[Wide],
    turns: &[i8],
    obs: &[Obs],
) -> bool
    requires few { length obs.now ≤ MOST_ROWS }
    requires each { length turns.now ≡ length obs.now }
    requires obs { All (IsObs (length orientations.now) (length directions.now)) obs.now }
    requires turns { All (IsWithin LARGEST_TURN) turns.now }
    requires directions { AreOnCircle denominator.now directions.now }
    requires orientations { AreOnCircle denominator.now orientations.now }
    requires fits { denominator.now * LARGEST_FACTOR < WIDE_LIMIT }
    requires count { length orientations.now ≤ 100 }
    ensures { IsTrue result ↔ ((s : ℕ) → s < length orientations.now
        → set_sum (choice_in denominator.now directions.now orientations.now)
        (turned obs.now turns.now) s ≡ pos 0) }
{
    for set in 0..orientations.len() as u32 {
        if !is_set_even(denominator, directions, orientations, turns, obs, set) {
            return false;
        }
    }
    true
}
