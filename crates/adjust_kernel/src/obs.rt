//! Observations of a station, and the rules that their list keeps.

ghost use Rattle.std.specs.Prelude.{◌↔◌, ◌≤◌, All, AllPairs, IsTrue};
ghost use Rattle.adjust_kernel.specs.Stations.{IsObs, IsBefore, AreObs, EachSetObserved};
ghost use Rattle.adjust_kernel.specs.Stations.{EachTargetObserved};

use crate::bounds::{MOST_SETS, MOST_TARGETS, TURN};
use crate::marks::{MOST_NODES, are_marked};

/// An observed direction: the two-face mean of one target in one set.
#[derive(Clone, Copy, Debug, PartialEq, Eq, Drop)]
pub struct Obs {
    /// The place of the set in the station's list, from 0.
    pub set: u32,
    /// The place of the target in the station's list, from 0.
    pub target: u32,
    /// The two-face direction in half units (0.005 mgon each), below a full circle.
    pub value: u32,
}

/// Whether an observation is of one of this many sets and targets, and on the circle.
fn is_obs(obs: &Obs, sets: usize, targets: usize) -> bool
    ensures { IsTrue result ↔ IsObs sets targets obs.now }
{
    (obs.set as usize) < sets && (obs.target as usize) < targets && obs.value < TURN
}

/// Whether these are the observations of a station of this many sets and targets.
pub(crate) fn are_obs(obs: &[Obs], sets: usize, targets: usize) -> bool
    requires sets { sets ≤ MOST_SETS }
    requires targets { targets ≤ MOST_TARGETS }
    ensures { IsTrue result ↔ AreObs sets targets obs.now }
{
    are_within(obs, sets, targets) && are_ordered(obs) && has_each(obs, sets, targets)
}

/// Whether each observation is of one of this many sets and targets, and on the circle.
fn are_within(obs: &[Obs], sets: usize, targets: usize) -> bool
    ensures { IsTrue result ↔ All (IsObs sets targets) obs.now }
{
    obs.iter().all(|each| is_obs(each, sets, targets))
}

/// Whether the first observation is of an earlier set, or of the same set and an earlier target.
fn is_before(a: &Obs, b: &Obs) -> bool
    ensures { IsTrue result ↔ IsBefore a.now b.now }
{
    a.set < b.set || (a.set == b.set && a.target < b.target)
}

/// Whether each observation comes before all later ones.
fn are_ordered(obs: &[Obs]) -> bool
    ensures { IsTrue result ↔ AllPairs IsBefore obs.now }
{
    for place in 1..obs.len() {
        if !is_before(&obs[place - 1], &obs[place]) {
            return false;
        }
    }
    true
}

/// Whether each of this many sets and targets has an observation: each observation marks its set
/// and its target.
fn has_each(obs: &[Obs], sets: usize, targets: usize) -> bool
    requires sets { sets ≤ MOST_SETS }
    requires targets { targets ≤ MOST_TARGETS }
    requires obs { All (IsObs sets targets) obs.now }
    ensures { IsTrue result ↔ (EachSetObserved sets obs.now × EachTargetObserved targets obs.now) }
{
    let mut seen = [false; MOST_NODES];
    for each in obs {
        seen[each.set as usize] = true;
        seen[sets + each.target as usize] = true;
    }
    are_marked(&seen, sets + targets)
}
