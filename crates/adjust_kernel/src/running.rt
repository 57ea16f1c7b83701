//! Running sums: one for each target and each set.
//!
//! A sum of n residuals is at most n times the largest residual in size, which the type keeps: with
//! all rows of a sheet it is far within 128 bits, so no sum is ever tested for overflow.
ghost use Rattle.std.specs.Prelude.{◌≡◌, ◌≤◌, ◌<◌, ◌-◌, ◌+◌, [], pos, List, length, All};
ghost use Rattle.std.specs.Prelude.{slice_index_or, slice_set, ◌+ℤ◌, ◌*ℤ◌};
ghost use Rattle.adjust_kernel.specs.declared.bounds.TheConstants.{MOST_ROWS, MOST_TARGETS};
ghost use Rattle.adjust_kernel.specs.declared.bounds.TheConstants.{MOST_SETS, LARGEST_RESIDUAL};
ghost use Rattle.adjust_kernel.specs.declared.tally.Added.{Added};
ghost use Rattle.adjust_kernel.specs.Within.{IsWithin};
ghost use Rattle.adjust_kernel.specs.Tallies.{AreSumsOf};

use crate::bounds::{LARGEST_RESIDUAL, MOST_ROWS, MOST_SETS, MOST_TARGETS};
use crate::tally::Tally;

/// A tally that keeps a sum for each target and each set, and takes no memory.
#[derive(Drop)]
pub struct Running {
    targets: [i128; MOST_TARGETS],
    sets: [i128; MOST_SETS],
    taken: u32,
    ghost few: { taken ≤ MOST_ROWS },
    ghost all_targets: { length targets ≡ MOST_TARGETS },
    ghost all_sets: { length sets ≡ MOST_SETS },
    ghost targets_in: { All (IsWithin (LARGEST_RESIDUAL *ℤ pos taken)) targets },
    ghost sets_in: { All (IsWithin (LARGEST_RESIDUAL *ℤ pos taken)) sets },
}

impl Running {
    /// A tally to which nothing was added.
    pub fn new() -> Running
        ensures nothing { ⟦<Running as Tally>⟧.StandsFor result [] }
        ensures room { ⟦<Running as Tally>⟧.room result ≡ MOST_ROWS }
    {
        Running {
            targets: [0; MOST_TARGETS],
            sets: [0; MOST_SETS],
            taken: 0,
        }
    }
}

impl Default for Running {
    ghost is_default = { λ running. ⟦<Running as Tally>⟧.StandsFor running []
        × (⟦<Running as Tally>⟧.room running ≡ MOST_ROWS) };

    fn default() -> Running {
        Running::new()
    }
}

impl Tally for Running {
    ghost StandsFor = { λ running l. AreSumsOf l running.targets running.sets running.taken };

    ghost room = { λ running. MOST_ROWS - running.taken };

    fn room(&self) -> u32 {
        MOST_ROWS as u32 - self.taken
    }

    fn add(&mut self, target: u32, set: u32, residual: i128) {
        add_at(&mut self.targets, target as usize, residual);
        add_at(&mut self.sets, set as usize, residual);
        self.taken += 1;
    }

    fn target_sum(&self, target: u32) -> i128 {
        self.targets[target as usize]
    }

    fn set_sum(&self, set: u32) -> i128 {
        self.sets[set as usize]
    }
}

/// Adds to the sum at a place. The sum is one of fewer than the most rows.
fn add_at(sums: &mut [i128], place: usize, residual: i128)
    requires place { place < length sums.old }
    requires sum { IsWithin (LARGEST_RESIDUAL *ℤ pos MOST_ROWS)
        (slice_index_or sums.old place (pos 0)) }
    requires residual { IsWithin LARGEST_RESIDUAL residual }
    ensures { sums.new
        ≡ slice_set sums.old place (slice_index_or sums.old place (pos 0) +ℤ residual) }
{
    sums[place] += residual;
}
