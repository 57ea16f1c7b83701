//! The residual limit that an office may state, and the first row whose residual is above it.

ghost use Rattle.std.specs.Prelude.{◌≡◌, ◌↔◌, ◌≤◌, ◌<◌, ◌*◌, pos, length, map, slice_index_or};
ghost use Rattle.std.specs.Prelude.{IsTrue, IfNone, IfSome};
ghost use Rattle.std.specs.Int.RustNames.{unsigned_abs};
ghost use Rattle.adjust_kernel.specs.Firsts.{IsFirstWhere};
ghost use Rattle.adjust_kernel.specs.Pairs.{ArePaired, choice_stated_by, turned_by_rows};
ghost use Rattle.adjust_kernel.specs.Residuals.{residual};
ghost use Rattle.adjust_kernel.specs.Turns.{IsAbove, IsLimited};

use crate::bounds::LARGEST_RESIDUAL_LIMIT;
use crate::obs::Obs;
use crate::residual::row_residual;
use crate::sheet::Sheet;
use std::marker::Model;

/// The largest residual that an office accepts, in half units (0.005 mgon each): 0 to 2,000.
///
/// The full turns of a sheet that is accepted under such a limit can't be foolish: no others give a
/// smaller sum of squares.
#[derive(Clone, Copy, Debug, PartialEq, Eq, Drop)]
pub struct ResidualLimit {
    half_units: u32,
}

impl Model for ResidualLimit {
    ghost use Rattle.std.specs.Prelude.{ℕ, ◌≤◌};
    ghost use Rattle.adjust_kernel.specs.declared.bounds.TheConstants.{LARGEST_RESIDUAL_LIMIT};

    ghost Value = { ℕ };

    ghost view = { λ limit. limit.half_units };

    ghost invariant = { λ limit. limit.half_units ≤ LARGEST_RESIDUAL_LIMIT };

    ghost inverse = { λ n. record { half_units = n } };
}

impl ResidualLimit {
    /// This limit in half units, if it is not above 2,000.
    pub fn new(half_units: u32) -> Option<ResidualLimit>
        ensures some { IfSome result (λ limit. limit ≡ half_units) }
        ensures valid { IfSome result (λ limit. limit ≤ LARGEST_RESIDUAL_LIMIT) }
        ensures none { IfNone result (LARGEST_RESIDUAL_LIMIT < half_units) }
    {
        if half_units <= LARGEST_RESIDUAL_LIMIT {
            return Some(ResidualLimit { half_units });
        }
        None
    }

    /// The limit in half units.
    pub fn half_units(&self) -> u32
        ensures value { result ≡ self.now }
        ensures valid { self.now ≤ LARGEST_RESIDUAL_LIMIT }
    {
        self.half_units
    }
}

/// Whether a scaled residual is in size above a limit.
fn is_above(residual: i128, limit: u32, denominator: u64) -> bool
    ensures { IsTrue result ↔ (limit * denominator < unsigned_abs residual) }
{
    residual.unsigned_abs() > u128::from(limit) * u128::from(denominator)
}

/// Whether the residual of a row is in size above a limit.
fn is_row_above(sheet: &Sheet, obs: &[Obs], limit: u32, row: usize) -> bool
    requires paired { ArePaired sheet.now obs.now }
    requires row { row < length obs.now }
    ensures { IsTrue result
        ↔ IsAbove limit (choice_stated_by sheet.now) (turned_by_rows obs.now sheet.now.rows) row }
{
    is_above(row_residual(sheet, obs, row), limit, sheet.denominator())
}

/// The first row from 0 whose scaled residual is in size above a limit in half units, times the
/// denominator.
pub fn first_above_limit(sheet: &Sheet, obs: &[Obs], limit: u32) -> Option<usize>
    requires { ArePaired sheet.now obs.now }
    ensures none { IfNone result
        (IsLimited limit (choice_stated_by sheet.now) (turned_by_rows obs.now sheet.now.rows)) }
    ensures some { IfSome result (λ n.
        IsFirstWhere
        (IsAbove limit (choice_stated_by sheet.now) (turned_by_rows obs.now sheet.now.rows))
        (length (turned_by_rows obs.now sheet.now.rows)) n) }
    ensures bound { IfSome result (λ n. n < length obs.now) }
{
    for row in 0..obs.len() {
        if is_row_above(sheet, obs, limit, row) {
            return Some(row);
        }
    }
    None
}
