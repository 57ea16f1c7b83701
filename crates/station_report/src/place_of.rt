//! The place of a station's observation of a set and a target.
//!
//! Observations stand in order, by set and within a set by target: so it is looked for by halving.
ghost use Rattle.std.specs.Prelude.{◌≡◌, ◌≤◌, length};
ghost use Rattle.adjust_kernel.specs.Stations.{IsStation};
ghost use Rattle.station_report.specs.Fronts as front;
ghost use Rattle.station_report.specs.Readings as spec;

use adjust_kernel::{Obs, Station};

/// Whether an observation stands before those of a set and a target.
fn stands_before(obs: Obs, set: usize, target: usize) -> bool
    ensures { result ≡ front.stands_before set target obs }
{
    let of_set = obs.set as usize;
    of_set < set || (of_set == set && (obs.target as usize) < target)
}

/// The first place of an observation that does not stand before those of a set and a target; past
/// all where there is none.
pub(crate) fn front_of(station: &Station, set: usize, target: usize) -> usize
    ensures front { front.IsFront station.now.obs set target result }
    ensures valid { IsStation station.now }
{
    station
        .obs()
        .partition_point(|o| stands_before(*o, set, target))
}

/// Whether an observation is of a set and a target.
fn is_of(obs: Obs, set: usize, target: usize) -> bool
    ensures { result ≡ spec.is_of set target obs }
{
    obs.set as usize == set && obs.target as usize == target
}

/// The place of the observation of a set and a target, if there is one.
pub(crate) fn place_of(station: &Station, set: usize, target: usize) -> Option<usize>
    ensures { result ≡ spec.place_of station.now set target }
{
    let obs = station.obs();
    let place = front_of(station, set, target);
    if place < obs.len() && is_of(obs[place], set, target) {
        return Some(place);
    }
    None
}
