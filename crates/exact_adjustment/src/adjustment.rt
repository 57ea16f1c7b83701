//! Directions, orientations and full turns, over one denominator of any size.
ghost use Rattle.std.specs.Prelude.{◌≡◌, ◌↔◌, ◌*◌, ◌<◌, ◌≤◌, All, IfNone, IfSome, IsTrue};
ghost use Rattle.std.specs.Prelude.{slice_index_or};
ghost use Rattle.adjust_kernel.specs.Within.{IsWithin};
ghost use Rattle.adjust_kernel.specs.declared.bounds.TheConstants.{LARGEST_TURN, TURN};
ghost use Rattle.exact_adjustment.specs.Adjustments.{AreOnCircle, IsAdjustment, adjustment_of};
ghost use Rattle.wide_number.specs.Limbs.{WIDE_LIMIT};

use crate::bounds::LARGEST_FACTOR;
use adjust_kernel::{LARGEST_TURN, MOST_SETS, MOST_TARGETS, TURN};
use std::marker::Model;
use wide_number::Wide;

/// An adjustment of a station: a direction for each target, an orientation for each set, and the
/// full turns of each observation.
///
/// Directions and orientations are in half units (0.005 mgon each) times the denominator, from 0
/// and below a full circle. It keeps these rules whatever is done with it: the first direction is
/// 0, the turns are from -9 to 9, and the denominator is not 0 and so short that no sum over a
/// station leaves the width of a [`Wide`].
#[derive(Drop)]
pub struct Adjustment {
    denominator: Wide,
    directions: Vec<Wide>,
    orientations: Vec<Wide>,
    turns: Vec<i8>,
}

impl Model for Adjustment {
    ghost use Rattle.exact_adjustment.specs.Adjustments.{AdjustmentValue, IsAdjustment};
    ghost use Rattle.exact_adjustment.specs.Adjustments.{adjustment_of};

    ghost Value = { AdjustmentValue };

    ghost view = { λ a. adjustment_of a.denominator a.directions.items a.orientations.items
        a.turns.items };

    ghost invariant = { λ a. IsAdjustment
        (adjustment_of a.denominator a.directions.items a.orientations.items a.turns.items) };
}

impl Adjustment {
    /// The adjustment with these parts, if they keep the rules of one; otherwise they are dropped.
    pub fn new(
        denominator: Wide,
        directions: Vec<Wide>,
        orientations: Vec<Wide>,
        turns: Vec<i8>,
    ) -> Option<Adjustment>
        ensures some { IfSome result (λ a.
            a ≡ adjustment_of denominator directions.items orientations.items turns.items) }
        ensures valid { IfSome result IsAdjustment }
        ensures none { IfNone result (IsAdjustment
            (adjustment_of denominator directions.items orientations.items turns.items) → ⊥) }
    {
        if are_counts(directions.len(), orientations.len())
            && is_denominator(&denominator)
            && is_first_zero(&directions)
            && are_on_circle(&denominator, &directions)
            && are_on_circle(&denominator, &orientations)
            && are_few_turns(&turns)
        {
            return Some(Adjustment {
                denominator,
                directions,
                orientations,
                turns,
            });
        }
        None
    }

    /// What all directions and orientations are divided by.
    pub fn denominator(&self) -> &Wide
        ensures value { result.now ≡ self.now.denominator }
        ensures valid { IsAdjustment self.now }
    {
        &self.denominator
    }

    /// The directions of the targets, in half units times the denominator.
    pub fn directions(&self) -> &[Wide]
        ensures value { result.now ≡ self.now.directions }
        ensures valid { IsAdjustment self.now }
    {
        &self.directions
    }

    /// The orientations of the sets, in half units times the denominator.
    pub fn orientations(&self) -> &[Wide]
        ensures value { result.now ≡ self.now.orientations }
        ensures valid { IsAdjustment self.now }
    {
        &self.orientations
    }

    /// The full turns of the observations.
    pub fn turns(&self) -> &[i8]
        ensures value { result.now ≡ self.now.turns }
        ensures valid { IsAdjustment self.now }
    {
        &self.turns
    }
}

/// Whether an adjustment may have so many targets and sets.
fn are_counts(targets: usize, sets: usize) -> bool
    ensures { IsTrue result ↔ ((1 ≤ targets) × (targets ≤ MOST_TARGETS) × (sets ≤ MOST_SETS)) }
{
    1 <= targets && targets <= MOST_TARGETS && sets <= MOST_SETS
}

/// Whether a number is not 0 and so short that no sum leaves the width.
fn is_denominator(denominator: &Wide) -> bool
    ensures { IsTrue result
        ↔ ((1 ≤ denominator.now) × (denominator.now * LARGEST_FACTOR < WIDE_LIMIT)) }
{
    match denominator.checked_mul_add(LARGEST_FACTOR, 0) {
        Some(_) => Wide::zero().is_below(denominator),
        None => false,
    }
}

/// Whether the first angle is 0, or there is none.
fn is_first_zero(angles: &[Wide]) -> bool
    ensures { IsTrue result ↔ (slice_index_or angles.now 0 0 ≡ 0) }
{
    match angles.first() {
        Some(angle) => angle.is_same(&Wide::zero()),
        None => true,
    }
}

/// Whether each angle is below a full circle, by a denominator that is short.
fn are_on_circle(denominator: &Wide, angles: &[Wide]) -> bool
    requires { denominator.now * LARGEST_FACTOR < WIDE_LIMIT }
    ensures { IsTrue result ↔ AreOnCircle denominator.now angles.now }
{
    let circle = denominator.times(u64::from(TURN));
    angles.iter().all(|angle| angle.is_below(&circle))
}

/// Whether each observation has few turns.
fn are_few_turns(turns: &[i8]) -> bool
    ensures { IsTrue result ↔ All (IsWithin LARGEST_TURN) turns.now }
{
    turns
        .iter()
        .all(|turn| -LARGEST_TURN <= *turn && *turn <= LARGEST_TURN)
}
