//! Numbers of a fixed width.
ghost use Rattle.std.specs.Prelude.{◌≡◌, ◌↔◌, ◌+◌, ◌*◌, ◌≤◌, ◌<◌, IfNone, IfSome, IsTrue};
ghost use Rattle.wide_number.specs.Limbs.{WIDE_LIMIT};

use crate::limbs::{LIMBS, add_product, is_below, subtract};
use std::marker::Model;

/// A natural number below 2^832.
#[derive(Drop)]
pub struct Wide {
    limbs: [u64; LIMBS],
}

impl Model for Wide {
    ghost use Rattle.std.specs.Prelude.{ℕ};
    ghost use Rattle.wide_number.specs.Limbs.{value_below};
    ghost use Rattle.wide_number.specs.declared.limbs.TheConstants.{LIMBS};

    ghost Value = { ℕ };

    ghost view = { λ w. value_below w.limbs LIMBS };
}

impl Wide {
    /// 0.
    #[tactic(auto, unfolding(crate::specs::Limbs::limb_weight, crate::specs::Limbs::value_below))]
    pub fn zero() -> Wide
        ensures { result ≡ 0 }
    {
        Wide { limbs: [0; LIMBS] }
    }

    /// The number that a word of 64 bits holds.
    #[tactic(auto, unfolding(crate::specs::Limbs::limb_weight, crate::specs::Limbs::value_below))]
    pub fn new(number: u64) -> Wide
        ensures { result ≡ number }
    {
        let mut limbs = [0; LIMBS];
        limbs[0] = number;
        Wide { limbs }
    }

    /// Its limbs, the lowest first.
    pub(crate) fn limbs(&self) -> &[u64; LIMBS] {
        &self.limbs
    }

    /// Adds a number times a factor, where the sum is known to fit.
    pub fn add_product(&mut self, by: &Wide, factor: u64)
        requires { self.old + by.now * factor < WIDE_LIMIT }
        ensures { self.new ≡ self.old + by.now * factor }
    {
        add_product(&mut self.limbs, &by.limbs, factor);
    }

    /// The number times a factor, where the product is known to fit.
    pub fn times(&self, factor: u64) -> Wide
        requires { self.now * factor < WIDE_LIMIT }
        ensures { result ≡ self.now * factor }
    {
        let mut product = Wide::zero();
        product.add_product(self, factor);
        product
    }

    /// The number times a factor, with another added; None where that does not fit.
    pub fn checked_mul_add(&self, factor: u64, addend: u64) -> Option<Wide>
        ensures some { IfSome result (λ sum. sum ≡ self.now * factor + addend) }
        ensures fits { IfSome result (λ sum. sum < WIDE_LIMIT) }
        ensures none { IfNone result (WIDE_LIMIT ≤ self.now * factor + addend) }
    {
        let mut sum = Wide::new(addend);
        let carry = add_product(&mut sum.limbs, &self.limbs, factor);
        if carry == 0 { Some(sum) } else { None }
    }

    /// Takes a number off that is no larger.
    pub fn subtract(&mut self, by: &Wide)
        requires { by.now ≤ self.old }
        ensures { self.new + by.now ≡ self.old }
    {
        subtract(&mut self.limbs, &by.limbs);
    }

    /// Whether it is below another.
    pub fn is_below(&self, other: &Wide) -> bool
        ensures { IsTrue result ↔ (self.now < other.now) }
    {
        is_below(&self.limbs, &other.limbs)
    }

    /// Whether it is the same number as another.
    pub fn is_same(&self, other: &Wide) -> bool
        ensures { IsTrue result ↔ (self.now ≡ other.now) }
    {
        !self.is_below(other) && !other.is_below(self)
    }
}
