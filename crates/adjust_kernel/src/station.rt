//! The station as it was measured.

ghost use Rattle.std.specs.Prelude.{◌≡◌, ◌≢◌, ◌↔◌, ◌≤◌, All, AllPairs, Any, IsTrue, IfSome};
ghost use Rattle.std.specs.Prelude.{IfNone, length};
ghost use Rattle.std.specs.Bool.{OnTrue};
ghost use Rattle.adjust_kernel.specs.Names.{IsName};
ghost use Rattle.adjust_kernel.specs.Stations.{IsStation, AreTargets, AreSets, station_of};

use crate::bounds::{MOST_ROWS, MOST_SETS, MOST_TARGETS};
use crate::name::Name;
use crate::obs::{Obs, are_obs};
use crate::row::is_set_number;
use std::marker::Model;

/// What was observed at one station: its targets, its sets, and the two-face directions by set and
/// target.
///
/// It keeps the rules of a station whatever is done with it: targets have different names and sets
/// different numbers, the observations are in order, none stands twice, and no set and no target is
/// without one.
#[derive(Debug, Drop)]
pub struct Station {
    name: Name,
    targets: Vec<Name>,
    sets: Vec<u16>,
    obs: Vec<Obs>,
}

impl Model for Station {
    ghost use Rattle.adjust_kernel.specs.Stations.{StationValue, IsStation, station_of};

    ghost Value = { StationValue };

    ghost view = { λ s. station_of s.name s.targets.items s.sets.items s.obs.items };

    ghost invariant = { λ s. IsStation
        (station_of s.name s.targets.items s.sets.items s.obs.items) };
}

impl Station {
    /// The station with these parts, if they keep the rules of a station; otherwise the lists are
    /// dropped.
    pub fn new(name: Name, targets: Vec<Name>, sets: Vec<u16>, obs: Vec<Obs>) -> Option<Station>
        ensures some { IfSome result (λ station.
            station ≡ station_of name targets.items sets.items obs.items) }
        ensures valid { IfSome result IsStation }
        ensures none { IfNone result
            (IsStation (station_of name targets.items sets.items obs.items) → ⊥) }
    {
        // For the proof alone: a name keeps the rules of names.
        name.recall();
        if are_targets(&targets) && are_sets(&sets) && are_obs(&obs, sets.len(), targets.len()) {
            return Some(Station::from_valid(name, targets, sets, obs));
        }
        None
    }

    /// The station with these parts, which are known to keep the rules of a station: nothing is
    /// tested.
    pub fn from_valid(name: Name, targets: Vec<Name>, sets: Vec<u16>, obs: Vec<Obs>) -> Station
        requires { IsStation (station_of name targets.items sets.items obs.items) }
        ensures { result ≡ station_of name targets.items sets.items obs.items }
    {
        Station {
            name,
            targets,
            sets,
            obs,
        }
    }

    /// Its name, the names of its targets, the numbers of its sets and its observations.
    pub fn into_parts(self) -> (Name, Vec<Name>, Vec<u16>, Vec<Obs>)
        ensures parts { station_of result.0 result.1.items result.2.items result.3.items ≡ self }
        ensures valid { IsStation self }
    {
        (self.name, self.targets, self.sets, self.obs)
    }

    /// Its name.
    pub fn name(&self) -> Name
        ensures value { result ≡ self.now.name }
        ensures valid { IsStation self.now }
    {
        self.name
    }

    /// The names of its targets.
    pub fn targets(&self) -> &[Name]
        ensures value { result.now ≡ self.now.targets }
        ensures valid { IsStation self.now }
    {
        &self.targets
    }

    /// The numbers of its sets.
    pub fn sets(&self) -> &[u16]
        ensures value { result.now ≡ self.now.sets }
        ensures valid { IsStation self.now }
    {
        &self.sets
    }

    /// Its observations, by set and within a set by target: at most one of each target in each set.
    pub fn obs(&self) -> &[Obs]
        ensures value { result.now ≡ self.now.obs }
        ensures valid { IsStation self.now }
        ensures few { length self.now.obs ≤ MOST_ROWS }
    {
        &self.obs
    }
}

/// Whether these are the targets of a station.
fn are_targets(targets: &[Name]) -> bool
    ensures { IsTrue result ↔ AreTargets targets.now }
{
    !targets.is_empty() && targets.len() <= MOST_TARGETS && are_different_names(targets)
}

/// Whether no name stands twice. What always holds of each name is brought in on the way.
fn are_different_names(names: &[Name]) -> bool
    ensures value { IsTrue result ↔ AllPairs (λ a b. a ≢ b) names.now }
    ensures valid { OnTrue result (All IsName names.now) }
{
    for place in 0..names.len() {
        // For the proof alone: a name keeps the rules of names.
        names[place].recall();
        if is_among(&names[place], &names[..place]) {
            return false;
        }
    }
    true
}

/// Whether a name is one of these.
fn is_among(name: &Name, names: &[Name]) -> bool
    ensures { IsTrue result ↔ Any (λ each. each ≡ name.now) names.now }
{
    names.iter().any(|each| each.is_same(name))
}

/// Whether these are the numbers of a station's sets.
fn are_sets(sets: &[u16]) -> bool
    ensures { IsTrue result ↔ AreSets sets.now }
{
    !sets.is_empty()
        && sets.len() <= MOST_SETS
        && sets.iter().all(is_set_number)
        && are_different_numbers(sets)
}

/// Whether no number stands twice.
fn are_different_numbers(numbers: &[u16]) -> bool
    ensures { IsTrue result ↔ AllPairs (λ a b. a ≢ b) numbers.now }
{
    for place in 0..numbers.len() {
        if numbers[..place].contains(&numbers[place]) {
            return false;
        }
    }
    true
}
