//! Whether the observations hold all sets and targets of a station together.
//!
//! A mark spreads from the first target: an observation carries it from its set to its target, or
//! from its target to its set. The observations are swept until all sets and targets have a mark,
//! or no sweep sets another: what has no mark then is joined by no observation to what has one.
ghost use Rattle.std.specs.Prelude.{◌≡◌, ℕ, ◌≤◌, ◌<◌, ◌+◌, true, not, List, length, All, IfNone};
ghost use Rattle.std.specs.Prelude.{IfSome, slice_set};
ghost use Rattle.std.specs.Bool.{OnTrue, OnFalse};
ghost use Rattle.std.specs.List.{count_by};
ghost use Rattle.adjust_kernel.specs.declared.row.Row.{Row};
ghost use Rattle.adjust_kernel.specs.Connected.{IsConnected, IsDivided};
ghost use Rattle.adjust_kernel.specs.Marks.{AreAlike, IsOpenEnd, MarksSpread};
ghost use Rattle.adjust_kernel.specs.Pairs.{turned_by_rows};
ghost use Rattle.adjust_kernel.specs.Stations.{IsObs};

use crate::bounds::{MOST_SETS, MOST_TARGETS};
use crate::marks::{MOST_NODES, are_marked};
use crate::obs::Obs;

/// The end of an observation that has no mark, where the other end has one.
fn open_end(marks: &[bool], sets: usize, targets: usize, obs: &Obs) -> Option<usize>
    requires nodes { (sets + targets ≤ length marks.now) × (length marks.now ≤ MOST_NODES) }
    requires obs { IsObs sets targets obs.now }
    ensures none { IfNone result (AreAlike marks.now sets obs.now) }
    ensures some { IfSome result (λ n. IsOpenEnd marks.now sets obs.now n) }
{
    let set = obs.set as usize;
    let target = sets + obs.target as usize;
    match (marks[set], marks[target]) {
        (true, false) => Some(target),
        (false, true) => Some(set),
        _ => None,
    }
}

/// Carries a mark along an observation; whether there was one to carry.
fn carry(marks: &mut [bool; MOST_NODES], sets: usize, targets: usize, obs: &Obs) -> bool
    requires sets { sets ≤ MOST_SETS }
    requires targets { targets ≤ MOST_TARGETS }
    requires obs { IsObs sets targets obs.now }
    ensures carried { OnTrue result
        ((n : ℕ) × IsOpenEnd marks.old sets obs.now n
        × (marks.new ≡ slice_set marks.old n true)) }
    ensures alike { OnFalse result ((marks.new ≡ marks.old) × AreAlike marks.old sets obs.now) }
{
    match open_end(marks, sets, targets, obs) {
        Some(node) => {
            marks[node] = true;
            true
        }
        None => false,
    }
}

/// Carries marks along all observations, once each; whether any was carried.
// Apart from its caller, so that the loop's values stay in registers.
#[inline(never)]
fn sweep(marks: &mut [bool; MOST_NODES], sets: usize, targets: usize, obs: &[Obs]) -> bool
    requires sets { sets ≤ MOST_SETS }
    requires targets { targets ≤ MOST_TARGETS }
    requires obs { All (IsObs sets targets) obs.now }
    ensures spread { MarksSpread sets targets obs.now marks.old
        → MarksSpread sets targets obs.now marks.new }
    ensures fewer { OnTrue result (count_by not marks.new < count_by not marks.old) }
    ensures alike { OnFalse result (All (AreAlike marks.new sets) obs.now) }
{
    let mut any = false;
    for each in obs {
        let carried = carry(marks, sets, targets, each);
        any = any | carried;
    }
    any
}

/// Whether the sets and targets can't be divided into two parts, neither of them empty, with no
/// observation between. Takes no memory.
pub fn is_connected(sets: usize, targets: usize, obs: &[Obs]) -> bool
    requires sets { sets ≤ MOST_SETS }
    requires targets { (0 < targets) × (targets ≤ MOST_TARGETS) }
    requires obs { All (IsObs sets targets) obs.now }
    ensures connected { OnTrue result
        ((rows : List Row) → length rows ≡ length obs.now
        → IsConnected sets targets (turned_by_rows obs.now rows)) }
    ensures divided { OnFalse result
        ((rows : List Row) → IsDivided sets targets (turned_by_rows obs.now rows)) }
{
    let mut marks = [false; MOST_NODES];
    marks[sets] = true;
    'sweeps: while sweep(&mut marks, sets, targets, obs) {
        if are_marked(&marks, sets + targets) {
            return true;
        }
    }
    are_marked(&marks, sets + targets)
}
