//! Zenith angles of a target, taken together one after the other.
ghost use Rattle.std.specs.Prelude.{◌≡◌, ◌≤◌, ◌<◌, ◌+◌, ◌*◌, ℕ, List, [], ◌∷◌, ◌++◌};
ghost use Rattle.adjust_kernel.specs.declared.bounds.TheConstants.{MOST_ROWS, TURN};

use crate::deviation::QUARTERS;
use crate::root::half_root;
use adjust_kernel::{HALF_UNIT, UNIT};

/// Units of 0.000001 gon in a half unit (0.000005 gon).
const UNITS: u64 = HALF_UNIT / UNIT;

/// What the mean of some zenith angles and its standard deviation are made of.
#[derive(Clone, Copy, Debug, Drop)]
pub(crate) struct ZenithSums {
    /// How many there are.
    pub count: u16,
    /// Their sum, in half units.
    pub sum: u64,
    /// The sum of their squares, in squares of half units.
    pub squares: u128,
    ghost sum_in: { sum ≤ TURN * count },
    ghost squares_in: { squares ≤ TURN * TURN * count },
}

impl ZenithSums {
    ghost use Rattle.station_report.specs.ZenithSums.{AreSumsOf};
    ghost use Rattle.station_report.specs.Zeniths.{mean_of_zeniths, zenith_deviation};

    /// Those of no zenith angles.
    pub fn none() -> ZenithSums
        ensures { AreSumsOf [] result }
    {
        ZenithSums {
            count: 0,
            sum: 0,
            squares: 0,
        }
    }

    /// These and one more, in half units.
    pub fn with(self, zenith: u32) -> ZenithSums
        requires few { self.count < MOST_ROWS }
        requires bound { zenith < TURN }
        ensures count { result.count ≡ self.count + 1 }
        ensures sums { (zeniths : List ℕ) → AreSumsOf zeniths self
            → AreSumsOf (zeniths ++ zenith ∷ []) result }
    {
        ZenithSums {
            count: self.count + 1,
            sum: self.sum + u64::from(zenith),
            squares: self.squares + u128::from(zenith) * u128::from(zenith),
        }
    }

    /// Their mean, in units of 0.000001 gon, rounded, the middle of two upwards.
    pub fn mean(self) -> u64
        requires { 1 ≤ self.count }
        ensures mean { (zeniths : List ℕ) → AreSumsOf zeniths self
            → result ≡ mean_of_zeniths zeniths }
        ensures bound { result ≤ 5 * TURN }
    {
        let count = u64::from(self.count);
        (2 * (UNITS * self.sum) + count) / (2 * count)
    }

    /// The standard deviation of the mean, in units of 0.001 mgon, rounded, the middle of two
    /// upwards.
    ///
    /// The squares of all residuals, in half units times the count, add to the count times this: by
    /// how much the sum of the squares, times the count, is above the square of the sum.
    pub fn deviation(self) -> u32
        requires { 2 ≤ self.count }
        ensures { (zeniths : List ℕ) → AreSumsOf zeniths self
            → result ≡ zenith_deviation zeniths }
    {
        let count = u128::from(self.count);
        let sum = u128::from(self.sum);
        let squares = (count * self.squares).saturating_sub(sum * sum);
        let parts = count * ((count - 1) * count);
        half_root((u128::from(QUARTERS) * squares / parts) as u64) as u32
    }
}
