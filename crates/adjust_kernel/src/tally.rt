//! The sums of residuals, target by target and set by set: what every way of keeping them promises.
ghost use Rattle.std.specs.Prelude.{◌≡◌, ◌<◌, ◌+◌, ◌++◌, ◌∷◌, [], ℕ, List, length};
ghost use Rattle.adjust_kernel.specs.declared.bounds.TheConstants.{MOST_ROWS, MOST_TARGETS};
ghost use Rattle.adjust_kernel.specs.declared.bounds.TheConstants.{MOST_SETS, LARGEST_RESIDUAL};
ghost use Rattle.adjust_kernel.specs.Within.{IsWithin};
ghost use Rattle.adjust_kernel.specs.Tallies.{added_for_target, added_for_set};

/// A scaled residual, with the places of its target and set.
#[derive(Clone, Copy, Debug, PartialEq, Eq)]
pub struct Added {
    /// The place of the target in the station's list, from 0.
    pub target: u32,
    /// The place of the set in the station's list, from 0.
    pub set: u32,
    /// The residual, in half units (0.005 mgon each) times the denominator.
    pub residual: i128,
}

/// Takes residuals, and tells the sums of each target and set.
///
/// A tally stands for the list of what was added. It need not hold that list.
pub trait Tally: Drop {
    ghost use Rattle.adjust_kernel.specs.declared.tally.Added.{Added};

    /// The tally stands for this list of what was added, the oldest first.
    ghost StandsFor: { Self → List Added → Type 0 };

    /// How many residuals can still be added.
    ghost room: { Self → ℕ };

    /// How many residuals can still be added.
    fn room(&self) -> u32
        ensures value { result ≡ room self.now }
        ensures number { (l : List Added) → StandsFor self.now l → result + length l ≡ MOST_ROWS };

    /// Adds the residual of a row, with the places of its target and set. Takes no memory.
    fn add(&mut self, target: u32, set: u32, residual: i128)
        requires room { 0 < room self.old }
        requires target { target < MOST_TARGETS }
        requires set { set < MOST_SETS }
        requires residual { IsWithin LARGEST_RESIDUAL residual }
        ensures room { room self.new + 1 ≡ room self.old }
        ensures added { (l : List Added) → StandsFor self.old l
            → StandsFor self.new
            (l ++ record { target = target; set = set; residual = residual } ∷ []) };

    /// The sum of the residuals that were added for a target.
    fn target_sum(&self, target: u32) -> i128
        requires { target < MOST_TARGETS }
        ensures { (l : List Added) → StandsFor self.now l → result ≡ added_for_target l target };

    /// The sum of the residuals that were added for a set.
    fn set_sum(&self, set: u32) -> i128
        requires { set < MOST_SETS }
        ensures { (l : List Added) → StandsFor self.now l → result ≡ added_for_set l set };
}
