//! Laws of the definitions that contracts cite. The functions do nothing.

ghost use Rattle.std.specs.Prelude.{◌≡◌, ◌≤◌, ◌<◌, ◌+◌, ◌*◌, ◌%◌, ℕ, List, ℤ, length, slice_index_or};
ghost use Rattle.adjust_kernel.specs.Residuals.{Choice};
ghost use Rattle.adjust_kernel.specs.Stations.{StationValue};
ghost use Rattle.directions_apart.specs.Apart.{AreBroughtNear};
ghost use Rattle.adjust_kernel.specs.declared.units.TheConstants.{CIRCLE, PARTS, UNIT};
ghost use Rattle.exact_adjustment.specs.LeastOf.{IsLeastOf};
ghost use Rattle.least_directions.specs.LeastDirections.{AreApart, AreRounded, IsAdjustable};
ghost use Rattle.least_directions.specs.LeastDirections.{as_stated};

/// A station that is adjustable has a least-squares choice.
pub fn least()
    ensures { (station : StationValue) → IsAdjustable station
        → (c : Choice) × ((turns : List ℤ) × IsLeastOf station c turns) }
{}

/// Stated directions are so far apart, and no other number is that; rounded directions are these,
/// and no others are.
pub fn one_answer()
    ensures apart { (station : StationValue) (stated : ℕ → ℤ) (off a b : ℕ)
        → AreApart station stated off a → AreApart station stated off b → a ≡ b }
    ensures rounded { (station : StationValue) (step : ℕ) (a b : List ℕ)
        → 1 ≤ step → CIRCLE % step ≡ 0
        → AreRounded station step a → AreRounded station step b → a ≡ b }
{}

/// One rotation brings rounded directions within half a step of the least-squares ones, whichever
/// choice is least; bounds are in halves of a part, 81 of which are 0.000000001 gon. So the
/// directions are apart by half a step at most, and what numbers are off, rounded up to whole units.
pub fn rounded()
    ensures near { (station : StationValue) (step : ℕ) (directions : List ℕ) (c : Choice)
        (turns : List ℤ) → AreRounded station step directions → IsLeastOf station c turns
        → AreBroughtNear (length station.targets) c (as_stated directions) (PARTS * step) }
    ensures apart { (station : StationValue) (step off most apart : ℕ) (directions : List ℕ)
        → AreRounded station step directions → PARTS * step + 2 * off ≤ 2 * (PARTS * UNIT) * most
        → AreApart station (as_stated directions) off apart → apart ≤ most }
{}
