//! The plain way to keep a tally: hold what was added, and go through all of it for each sum.
ghost use Rattle.std.specs.Prelude.{◌≡◌, ◌≤◌, ◌<◌, ◌-◌, ◌+◌, [], pos, List, length, All, IfOk};
ghost use Rattle.std.specs.Vec.{vec_capacity};
ghost use Rattle.adjust_kernel.specs.declared.bounds.TheConstants.{MOST_ROWS, LARGEST_RESIDUAL};
ghost use Rattle.adjust_kernel.specs.Within.{IsWithin};
ghost use Rattle.adjust_kernel.specs.Tallies.{added_for_target, added_for_set};

use crate::bounds::{LARGEST_RESIDUAL, MOST_ROWS};
use crate::out_of_memory::OutOfMemory;
use crate::tally::{Added, Tally};
use std::alloc::Global;

/// A tally that holds what was added, in room that is taken once, and adds it up when it is asked.
#[derive(Drop)]
pub struct Scan {
    added: Vec<Added>,
    ghost few: { length added.items ≤ MOST_ROWS },
    ghost room_taken: { MOST_ROWS ≤ vec_capacity added },
    ghost all_within: { All (λ a. IsWithin LARGEST_RESIDUAL a.residual) added.items },
}

impl Scan {
    /// A tally to which nothing was added, with room for all rows of a sheet.
    pub fn new(alloc: Global) -> Result<Scan, OutOfMemory>
        ensures nothing { IfOk result (λ scan. ⟦<Scan as Tally>⟧.StandsFor scan []) }
        ensures room { IfOk result (λ scan. ⟦<Scan as Tally>⟧.room scan ≡ MOST_ROWS) }
    {
        let added = Vec::with_capacity(alloc, MOST_ROWS).map_err(|_| OutOfMemory)?;
        Ok(Scan { added })
    }
}

impl Tally for Scan {
    ghost StandsFor = { λ scan l. scan.added.items ≡ l };

    ghost room = { λ scan. MOST_ROWS - length scan.added.items };

    fn room(&self) -> u32 {
        (MOST_ROWS - self.added.len()) as u32
    }

    fn add(&mut self, target: u32, set: u32, residual: i128) {
        let added = Added {
            target,
            set,
            residual,
        };
        self.added.push(added).unwrap();
    }

    fn target_sum(&self, target: u32) -> i128 {
        target_sum_of(&self.added, target)
    }

    fn set_sum(&self, set: u32) -> i128 {
        set_sum_of(&self.added, set)
    }
}

/// Adds up what was added for a target.
fn target_sum_of(added: &[Added], target: u32) -> i128
    requires few { length added.now ≤ MOST_ROWS }
    requires within { All (λ a. IsWithin LARGEST_RESIDUAL a.residual) added.now }
    ensures { result ≡ added_for_target added.now target }
{
    let mut sum = 0;
    for one in added {
        if one.target == target {
            sum += one.residual;
        }
    }
    sum
}

/// Adds up what was added for a set.
fn set_sum_of(added: &[Added], set: u32) -> i128
    requires few { length added.now ≤ MOST_ROWS }
    requires within { All (λ a. IsWithin LARGEST_RESIDUAL a.residual) added.now }
    ensures { result ≡ added_for_set added.now set }
{
    let mut sum = 0;
    for one in added {
        if one.set == set {
            sum += one.residual;
        }
    }
    sum
}
