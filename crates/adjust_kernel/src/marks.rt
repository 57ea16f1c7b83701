//! Marks on the sets and targets of a station, kept in one list: first the sets, then the targets.
ghost use Rattle.std.specs.Prelude.{◌≡◌, ℕ, ◌≤◌, ◌<◌, true, false, length};
ghost use Rattle.std.specs.Bool.{OnTrue, OnFalse};
ghost use Rattle.adjust_kernel.specs.Marks.{mark};

use crate::bounds::{MOST_SETS, MOST_TARGETS};

/// A set at place s is node s; a target at place t is node sets + t.
pub const MOST_NODES: usize = MOST_SETS + MOST_TARGETS;

/// Whether each of the first nodes has a mark.
pub fn are_marked(marks: &[bool], nodes: usize) -> bool
    requires { nodes ≤ length marks.now }
    ensures all { OnTrue result ((n : ℕ) → n < nodes → mark marks.now n ≡ true) }
    ensures some_not { OnFalse result ((n : ℕ) × (n < nodes) × (mark marks.now n ≡ false)) }
{
    for n in 0..nodes {
        if !marks[n] {
            return false;
        }
    }
    true
}
