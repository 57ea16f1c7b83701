//! Why a field file is not marked, and what is told of its stations.

ghost use Rattle.std.specs.Prelude.{◌≡◌, ◌==◌, ◌&&◌, not};
ghost use Rattle.std.specs.List.{list_any};
ghost use Rattle.set_marks.specs.declared.fault.MarkFault.TheVariants.{Memory};
ghost use Rattle.set_marks.specs.declared.refused.Refused.TheVariants.{File};
ghost use Rattle.set_marks.specs.Marking.{first_fault, have_sets, is_twice, may_stay_outside};
ghost use Rattle.set_marks.specs.Marking.{are_of_stations, has_station, no_sets_kind, refusal};
ghost use Rattle.set_marks.specs.Marking.{unfound_fault};
ghost use Rattle.job_statements.specs.Numbers.{said_in};
ghost use Rattle.set_marks.specs.Markings.{fault_in, told_in};

use crate::fault::{MarkFault, MarkKind};
use crate::flaw::Flaw;
use crate::recognized::Recognized;
use adjust_kernel::Name;
use job_statements::{NamedNumber, Stated};
use std::alloc::AllocError;

/// Why a field file is not marked.
#[derive(Debug, Drop)]
pub enum Refused {
    /// This is the first fault of its lines, or of a block by itself, or memory ran out. Nothing is
    /// told of its stations.
    File(MarkFault),
    /// This is the fault of the first station that has one, or that none has sets. Each station was
    /// judged by itself, and this is told of each, in the order of the file.
    Stations(Flaw, Vec<Recognized>),
}

impl Refused {
    /// The fault for which the file is refused.
    pub fn fault(&self) -> MarkFault
        ensures { result ≡ fault_in self.now }
    {
        match self {
            Refused::File(fault) => *fault,
            Refused::Stations(flaw, _) => MarkFault::At(flaw.block, flaw.kind),
        }
    }

    /// What is told of the stations; nothing where they weren't judged.
    pub fn stations(&self) -> &[Recognized]
        ensures { result.now ≡ told_in self.now }
    {
        match self {
            Refused::File(_) => &[],
            Refused::Stations(_, stations) => stations.as_slice(),
        }
    }
}

impl From<AllocError> for Refused {
    ghost from_gives = { λ _ refused. refused ≡ File Memory };

    fn from(_: AllocError) -> Refused {
        Refused::File(MarkFault::Memory)
    }
}

impl From<MarkFault> for Refused {
    ghost from_gives = { λ fault refused. refused ≡ File fault };

    fn from(fault: MarkFault) -> Refused {
        Refused::File(fault)
    }
}

/// The fault of the first of these stations that has one.
fn first_fault(stations: &[Recognized]) -> Option<Flaw>
    ensures { result ≡ first_fault stations.now }
{
    let mut left = stations;
    'stations: while let Some((station, rest)) = left.split_first() {
        if let Some(flaw) = station.fault {
            return Some(flaw);
        }
        left = rest;
    }
    None
}

/// Whether one of these stations has sets.
fn have_sets(stations: &[Recognized]) -> bool
    ensures { result ≡ have_sets stations.now }
{
    stations.iter().any(|station| station.sets != 0)
}

/// Whether the fault is that a station's name was had.
fn is_twice(fault: Option<Flaw>) -> bool
    ensures { result ≡ is_twice fault }
{
    match fault {
        Some(flaw) => matches!(flaw.kind, MarkKind::StationTwice),
        None => false,
    }
}

/// Whether a name comes again.
fn have_twice(stations: &[Recognized]) -> bool
    ensures { result ≡ list_any (λ r. is_twice r.fault) stations.now }
{
    stations.iter().any(|station| is_twice(station.fault))
}

/// Whether stations with a fault may stay outside.
fn may_stay_outside(stated: &Stated, stations: &[Recognized]) -> bool
    ensures { result ≡ may_stay_outside (said_in stated.now) stations.now }
{
    stated.others && have_sets(stations) && !have_twice(stations)
}

/// What is wrong where no station has sets of a file whose last block has the number before this one.
fn no_sets_kind(end: u32) -> MarkKind
    ensures { result ≡ no_sets_kind end }
{
    if end == 1 {
        MarkKind::Empty
    } else {
        MarkKind::NoSets
    }
}

/// Whether a station of this name has sets or a fault.
fn has_station(stations: &[Recognized], name: &Name) -> bool
    ensures { result ≡ has_station stations.now name.now }
{
    stations.iter().any(|station| {
        station.name.is_same(name) && (station.fault.is_some() || station.sets != 0)
    })
}

/// Whether each of these numbers is stated of such a station.
fn are_of_stations(stations: &[Recognized], numbers: &[NamedNumber]) -> bool
    ensures { result ≡ are_of_stations stations.now numbers.now }
{
    numbers
        .iter()
        .all(|named| has_station(stations, &named.name))
}

/// The fault that a number is stated of a station by itself that isn't there, or has no sets.
fn unfound_fault(stated: &Stated, end: u32, stations: &[Recognized]) -> Option<Flaw>
    ensures { result ≡ unfound_fault (said_in stated.now) end stations.now }
{
    if are_of_stations(stations, &stated.sets.of_one)
        && are_of_stations(stations, &stated.targets.of_one)
    {
        return None;
    }
    Some(Flaw {
        block: end,
        kind: MarkKind::NoSuchStation,
    })
}

/// The fault for which a file is refused of whose stations this is told. `end` is the number of its
/// last block plus 1.
pub(crate) fn refusal(stated: &Stated, end: u32, stations: &[Recognized]) -> Option<Flaw>
    ensures { result ≡ refusal (said_in stated.now) end stations.now }
{
    if !may_stay_outside(stated, stations) {
        if let Some(flaw) = first_fault(stations) {
            return Some(flaw);
        }
    }
    if !have_sets(stations) {
        return Some(Flaw {
            block: end,
            kind: no_sets_kind(end),
        });
    }
    unfound_fault(stated, end, stations)
}
