//! The residuals of a sheet, gone through once: their sums in a tally, and the greatest in size.
//! Then the first target and the first set whose sum isn't 0.
ghost use Rattle.std.specs.Prelude.{◌≡◌, ◌≢◌, ◌≤◌, ◌<◌, ℕ, pos, List, [], max, IfNone, IfSome};
ghost use Rattle.std.specs.Int.RustNames.{unsigned_abs};
ghost use Rattle.adjust_kernel.specs.Firsts.{IsFirstWhere};
ghost use Rattle.adjust_kernel.specs.Greatest.{IsGreatest};
ghost use Rattle.adjust_kernel.specs.Pairs.{ArePaired, choice_stated_by, turned_by_rows};
ghost use Rattle.adjust_kernel.specs.TurnedObservations.{TurnedObservation};
ghost use Rattle.adjust_kernel.specs.Residuals.{Choice, target_sum, set_sum};
ghost use Rattle.adjust_kernel.specs.Tallies.{all_added};
ghost use Rattle.adjust_kernel.specs.Within.{IsWithin};

use crate::bounds::{LARGEST_RESIDUAL, MOST_ROWS, MOST_SETS, MOST_TARGETS};
use crate::obs::Obs;
use crate::residual::row_residual;
use crate::sheet::Sheet;
use crate::tally::Tally;

/// Adds the scaled residuals of all rows to a tally to which nothing was added. The tally comes
/// back with the greatest size of a residual.
// Apart from its caller, so that the loop's values stay in registers.
#[inline(never)]
pub fn add_residuals<T: Tally>(mut tally: T, sheet: &Sheet, obs: &[Obs]) -> (T, i128)
    requires paired { ArePaired sheet.now obs.now }
    requires nothing { T.StandsFor tally [] }
    requires room { T.room tally ≡ MOST_ROWS }
    ensures sums { T.StandsFor result.0
        (all_added (choice_stated_by sheet.now) (turned_by_rows obs.now sheet.now.rows)) }
    ensures greatest { IsGreatest (choice_stated_by sheet.now)
        (turned_by_rows obs.now sheet.now.rows) result.1 }
{
    let mut greatest = 0;
    for row in 0..sheet.rows().len() {
        let residual = row_residual(sheet, obs, row);
        tally.add(obs[row].target, obs[row].set, residual);
        greatest = larger_size(greatest, residual);
    }
    (tally, greatest)
}

/// The larger of a size and the size of a residual.
fn larger_size(size: i128, residual: i128) -> i128
    requires { IsWithin LARGEST_RESIDUAL residual }
    ensures { (known : ℕ) → size ≡ pos known → result ≡ pos (max known (unsigned_abs residual)) }
{
    size.max(residual.abs())
}

/// The first target from 0 whose residuals don't add to 0.
pub fn first_uneven_target<T: Tally>(tally: &T, targets: u32) -> Option<u32>
    requires { targets ≤ MOST_TARGETS }
    ensures none { IfNone result
        ((c : Choice) (rs : List TurnedObservation) → T.StandsFor tally.now (all_added c rs)
        → (t : ℕ) → t < targets → target_sum c rs t ≡ pos 0) }
    ensures some { IfSome result (λ n.
        (c : Choice) (rs : List TurnedObservation) → T.StandsFor tally.now (all_added c rs)
        → IsFirstWhere (λ t. target_sum c rs t ≢ pos 0) targets n) }
{
    for target in 0..targets {
        if tally.target_sum(target) != 0 {
            return Some(target);
        }
    }
    None
}

/// The first set from 0 whose residuals don't add to 0.
pub fn first_uneven_set<T: Tally>(tally: &T, sets: u32) -> Option<u32>
    requires { sets ≤ MOST_SETS }
    ensures none { IfNone result
        ((c : Choice) (rs : List TurnedObservation) → T.StandsFor tally.now (all_added c rs)
        → (s : ℕ) → s < sets → set_sum c rs s ≡ pos 0) }
    ensures some { IfSome result (λ n.
        (c : Choice) (rs : List TurnedObservation) → T.StandsFor tally.now (all_added c rs)
        → IsFirstWhere (λ s. set_sum c rs s ≢ pos 0) sets n) }
{
    for set in 0..sets {
        if tally.set_sum(set) != 0 {
            return Some(set);
        }
    }
    None
}
