//! Laws of the definitions that contracts cite. The functions do nothing.

ghost use Rattle.std.specs.Prelude.{◌≡◌, ◌≤◌, ◌<◌, ◌+◌, ◌*◌, ◌%◌, ℕ, List, ℤ, pos, ◌-ℤ◌, ◌*ℤ◌};
ghost use Rattle.std.specs.Prelude.{length};
ghost use Rattle.adjust_kernel.specs.declared.bounds.TheConstants.{LARGEST_RESIDUAL_LIMIT};
ghost use Rattle.adjust_kernel.specs.Residuals.{Choice};
ghost use Rattle.adjust_kernel.specs.Stations.{StationValue, IsStation};
ghost use Rattle.exact_adjustment.specs.LeastOf.{AreTied, IsLeastOf};
ghost use Rattle.exact_adjustment.specs.Adjustments.{AdjustmentValue, choice_by};
ghost use Rattle.exact_adjustment.specs.Exact.{IsExact, KeepsLimit};
ghost use Rattle.adjust_kernel.specs.Within.{IsWithin};
ghost use Rattle.directions_apart.specs.Apart.{AreBroughtNear, AreBroughtWithin};
ghost use Rattle.directions_apart.specs.Apart.{AreNumbersWithin, IsApart};
ghost use Rattle.directions_apart.specs.Rounding.{IsRounded, from_first};
ghost use Rattle.directions_apart.specs.declared.apart.TheConstants.{MOST_OFF};
ghost use Rattle.adjust_kernel.specs.declared.units.TheConstants.{CIRCLE, HALF_UNIT, PARTS};
ghost use Rattle.adjust_kernel.specs.declared.units.TheConstants.{UNIT};

/// What is said of an exact adjustment's directions is so of every least-squares choice of the
/// station, over any denominator and with any full turns: stated directions are as far apart from
/// it, what a rotation brings near the one it brings as near to the other, and directions counted
/// from that of the first target are rounded to the same.
pub fn each_least()
    ensures apart { (station : StationValue) (a : AdjustmentValue) (stated : ℕ → ℤ)
        (off apart : ℕ) (c : Choice) (turns : List ℤ)
        → IsStation station → AreTied station → IsExact station a
        → KeepsLimit station a LARGEST_RESIDUAL_LIMIT → IsLeastOf station c turns
        → IsApart (length station.targets) (choice_by a) stated off apart
        → IsApart (length station.targets) c stated off apart }
    ensures near { (station : StationValue) (a : AdjustmentValue) (stated : ℕ → ℤ) (most : ℕ)
        (c : Choice) (turns : List ℤ)
        → IsStation station → AreTied station → IsExact station a
        → KeepsLimit station a LARGEST_RESIDUAL_LIMIT → IsLeastOf station c turns
        → AreBroughtNear (length station.targets) (choice_by a) stated most
        → AreBroughtNear (length station.targets) c stated most }
    ensures rounded { (station : StationValue) (a : AdjustmentValue) (t step rounded : ℕ)
        (c : Choice) (turns : List ℤ)
        → IsStation station → AreTied station → IsExact station a
        → KeepsLimit station a LARGEST_RESIDUAL_LIMIT → IsLeastOf station c turns
        → 1 ≤ step → t < length station.targets
        → IsRounded (choice_by a) t step rounded → IsRounded (from_first c) t step rounded }
{}

/// How far directions are apart is one number.
pub fn one_apart()
    ensures { (targets : ℕ) (c : Choice) (stated : ℕ → ℤ) (off a b : ℕ)
        → IsApart targets c stated off a → IsApart targets c stated off b → a ≡ b }
{}

/// The numbers themselves are brought as near as is said. A number is a fraction of parts, with one
/// denominator for all: it is off from the stated direction by so many parts at most. One rotation
/// and full circles bring each within so many units of 0.000001 gon of the choice's direction.
pub fn numbers()
    ensures { (targets parts off most : ℕ) (c : Choice) (stated number : ℕ → ℤ)
        → 1 ≤ parts
        → ((t : ℕ) → t < targets
        → IsWithin (pos (parts * off)) (number t -ℤ pos parts *ℤ stated t))
        → AreBroughtWithin targets c stated off most
        → AreNumbersWithin targets c parts number most }
{}

/// A rounded direction is one number: with whole steps in a circle, no other is that direction
/// rounded. That of 0 is 0.
pub fn one_rounded()
    ensures one { (c : Choice) (t step a b : ℕ)
        → 1 ≤ c.denominator → 1 ≤ step → CIRCLE % step ≡ 0
        → IsRounded c t step a → IsRounded c t step b → a ≡ b }
    ensures of_0 { (c : Choice) (t step rounded : ℕ)
        → 1 ≤ c.denominator → 1 ≤ step → CIRCLE % step ≡ 0 → c.direction t ≡ pos 0
        → IsRounded c t step rounded → rounded ≡ 0 }
{}

/// Rounded directions are within half a step of those that they were rounded from, with no
/// rotation; so they are apart by half a step at most, and what numbers are off, rounded up to whole
/// units.
pub fn rounded()
    ensures near { (targets step : ℕ) (c : Choice) (stated : ℕ → ℕ)
        → ((t : ℕ) → t < targets → IsRounded c t step (stated t))
        → AreBroughtNear targets c (λ t. pos (PARTS * stated t)) (PARTS * step) }
    ensures apart { (targets step off most apart : ℕ) (c : Choice) (stated : ℕ → ℕ)
        → PARTS * step + 2 * off ≤ 2 * (PARTS * UNIT) * most
        → ((t : ℕ) → t < targets → IsRounded c t step (stated t))
        → IsApart targets c (λ t. pos (PARTS * stated t)) off apart → apart ≤ most }
{}

/// The units in digits: a half unit, the unit of answers, and a full circle, each in units of
/// 0.000000001 gon; the parts of such a unit, and by how many numbers may be off at most.
pub fn units()
    ensures half_unit { HALF_UNIT ≡ 5_000 }
    ensures unit { UNIT ≡ 1_000 }
    ensures circle { CIRCLE ≡ 400_000_000_000 }
    ensures parts { PARTS ≡ 81 }
    ensures off { MOST_OFF ≡ 40_500 }
{}
