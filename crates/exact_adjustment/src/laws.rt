//! Laws of the definitions that contracts cite. The functions do nothing.

ghost use Rattle.std.specs.Prelude.{◌≡◌, ◌≤◌, ◌<◌, ◌*◌, ◌^◌, ◌↔◌, ℕ, List, ℤ};
ghost use Rattle.adjust_kernel.specs.declared.bounds.TheConstants.{LARGEST_RESIDUAL_LIMIT};
ghost use Rattle.adjust_kernel.specs.Residuals.{Choice};
ghost use Rattle.adjust_kernel.specs.Stations.{StationValue, IsStation};
ghost use Rattle.exact_adjustment.specs.Adjustments.{AdjustmentValue, choice_by};
ghost use Rattle.exact_adjustment.specs.declared.bounds.TheConstants.{LARGEST_FACTOR};
ghost use Rattle.wide_number.specs.Limbs.{WIDE_LIMIT};
ghost use Rattle.exact_adjustment.specs.LeastOf.{AreTied, HasResidualsWithin, IsLeastOf};
ghost use Rattle.exact_adjustment.specs.Exact.{IsExact, IsSameButTurned, KeepsLimit};
ghost use Rattle.exact_adjustment.specs.Faults.{IsAdjustFault, IsOfStation, NoneKeepsLimit};
ghost use Rattle.exact_adjustment.specs.declared.fault.AdjustFault.{AdjustFault};
ghost use Rattle.exact_adjustment.specs.Nearest.{HasNearestTurns};

/// An adjustment with all sums of residuals 0, of a station that is held together, is least over
/// all directions, orientations and full turns where it keeps the largest residual limit; so a
/// least choice is there. And every other least choice is the same but for one rotation and whole
/// turns.
pub fn least()
    ensures exists { (station : StationValue) (a : AdjustmentValue)
        → IsStation station → AreTied station → IsExact station a
        → KeepsLimit station a LARGEST_RESIDUAL_LIMIT
        → IsLeastOf station (choice_by a) a.turns }
    ensures one { (station : StationValue) (a : AdjustmentValue) (c : Choice) (turns : List ℤ)
        → IsStation station → AreTied station → IsExact station a
        → KeepsLimit station a LARGEST_RESIDUAL_LIMIT
        → IsLeastOf station c turns → IsSameButTurned station a c turns }
{}

/// The factor that a denominator has to leave room for, in digits; and a station leaves room: it has
/// at most 40 sets of 100 targets, and the determinant by which its adjustment is solved is at most the
/// number of spanning trees of their graph.
pub fn bounds()
    ensures factor { LARGEST_FACTOR ≡ 65_000_000_000_000 }
    ensures room { 40 ^ 99 * 100 ^ 39 * LARGEST_FACTOR < WIDE_LIMIT }
{}

/// An exact adjustment that keeps the largest residual limit keeps another exactly where all least
/// choices do: their residuals are the same but for the denominators. And a station all of whose
/// least choices keep a limit has no fault of its own at that limit.
pub fn held()
    ensures same { (station : StationValue) (a : AdjustmentValue) (limit : ℕ)
        → IsStation station → AreTied station → IsExact station a
        → KeepsLimit station a LARGEST_RESIDUAL_LIMIT
        → KeepsLimit station a limit ↔ HasResidualsWithin station limit }
    ensures no_fault { (station : StationValue) (a : AdjustmentValue) (limit : ℕ)
        (fault : AdjustFault)
        → IsStation station → AreTied station → IsExact station a
        → KeepsLimit station a LARGEST_RESIDUAL_LIMIT → HasResidualsWithin station limit
        → IsOfStation fault → ¬ IsAdjustFault station limit fault }
{}

/// Where an exact adjustment with nearest full turns does not keep a residual limit, no directions
/// and orientations do, with whatever full turns, whose sums of residuals are all 0.
pub fn far()
    ensures { (station : StationValue) (a : AdjustmentValue) (limit : ℕ)
        → limit ≤ LARGEST_RESIDUAL_LIMIT → IsStation station → AreTied station
        → IsExact station a → HasNearestTurns station a.turns
        → ¬ KeepsLimit station a limit → NoneKeepsLimit station limit }
{}

/// A station has one fault of its own at most: the number of `Residual` is one, and where it stands
/// the observations hold all sets and targets together.
#[tactic(auto, using(crate::proofs::LawLemmas::one_fault))]
pub fn one_fault()
    ensures { (station : StationValue) (limit : ℕ) (fault other : AdjustFault)
        → IsOfStation fault → IsOfStation other
        → IsAdjustFault station limit fault → IsAdjustFault station limit other → fault ≡ other }
{}

/// A station that has an exact adjustment within the residual limit, and is held together, has no
/// fault of its own.
#[tactic(auto, using(crate::proofs::LawLemmas::never_both))]
pub fn never_both()
    ensures { (station : StationValue) (a : AdjustmentValue) (limit : ℕ) (fault : AdjustFault)
        → AreTied station → IsExact station a → KeepsLimit station a limit
        → IsOfStation fault → ¬ IsAdjustFault station limit fault }
{}
