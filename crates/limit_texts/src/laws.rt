//! Laws of the definitions that contracts cite. The functions do nothing.

ghost use Rattle.std.specs.Prelude.{◌≡◌, ℕ, List};
ghost use Rattle.limit_texts.specs.Limits.{StatesLimit};
ghost use Rattle.limit_texts.specs.declared.limit.LimitUnit.{LimitUnit};

/// A text states one limit at most.
pub fn one_limit()
    ensures { (unit : LimitUnit) (text : List ℕ) (a b : ℕ)
        → StatesLimit unit text a → StatesLimit unit text b → a ≡ b }
{}
