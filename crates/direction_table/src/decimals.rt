//! How many decimals a direction is written with.

ghost use Rattle.std.specs.Prelude.{◌≡◌, IfNone, IfSome};
ghost use Rattle.direction_table.specs.Texts as spec;

use crate::gon::MOST_DECIMALS;
use std::marker::Model;

/// The most decimals that a direction is written with.
pub const MOST_WRITTEN: u32 = 8;

/// How many decimals a direction is written with: 1 to 8.
#[derive(Clone, Copy, Debug, PartialEq, Eq, Drop)]
pub struct Decimals {
    count: u32,
}

impl Model for Decimals {
    ghost use Rattle.std.specs.Prelude.{ℕ};
    ghost use Rattle.direction_table.specs.Texts.{AreDecimals};

    ghost Value = { ℕ };

    ghost view = { λ d. d.count };

    ghost invariant = { λ d. AreDecimals d.count };

    ghost inverse = { λ count. record { count = count } };
}

impl Decimals {
    /// So many decimals, if they are 1 to 8.
    pub fn new(count: u32) -> Option<Decimals>
        ensures some { IfSome result (λ decimals. decimals ≡ count) }
        ensures valid { IfSome result spec.AreDecimals }
        ensures none { IfNone result (spec.AreDecimals count → ⊥) }
    {
        if count == 0 || count > MOST_WRITTEN {
            return None;
        }
        Some(Decimals { count })
    }

    /// How many there are.
    pub fn count(self) -> u32
        ensures value { result ≡ self }
        ensures valid { spec.AreDecimals result }
    {
        self.count
    }

    /// One unit of the last decimal, in units of the ninth decimal of a gon.
    pub fn step(self) -> u64
        ensures { result ≡ spec.step_of self }
    {
        10u64.pow(MOST_DECIMALS as u32 - self.count)
    }
}
