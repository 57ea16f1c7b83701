//! The stations that have sets, by name.

ghost use Rattle.std.specs.Prelude.{◌≡◌, ◌<◌, ◌+◌, ◌++◌, ◌∷◌, [], false, None, IfErr, IfOk};
ghost use Rattle.std.specs.Prelude.{OnOk, OnErr};
ghost use Rattle.adjust_kernel.specs.Sheets.{IsSetNumber};
ghost use Rattle.station_book.specs.StationStates.{none_so_far, surveys_of, with_station};
ghost use Rattle.station_book.specs.StationStates.{LastMayEnd, first_set_faults, last_of};
ghost use Rattle.station_book.specs.StationStates.{change_last, is_among, is_known, count_of};
ghost use Rattle.station_book.specs.StationStates.{more_set_faults};
ghost use Rattle.station_book.specs.Faults.{first_of};
ghost use Rattle.station_book.specs.Slots.{closing_faults};
ghost use Rattle.station_book.specs.TwoFaces.{AreOnCircle};
ghost use Rattle.station_book.specs.StationState.{MayEnd, with_set, state_faults, with_reading};
ghost use Rattle.station_book.specs.Refusals.{ExplainsRefusal};
ghost use Rattle.indexmap.specs.IndexMap.{spare};

use crate::angles::Reading;
use crate::bounds::MOST_STATIONS;
use crate::fault::{BookKind, Refusal};
use crate::limits::Limits;
use crate::station_so_far::StationSoFar;
use crate::stations::Stations;
use crate::surveyed::Surveyed;
use adjust_kernel::Name;
use indexmap::IndexMap;
use std::alloc::{AllocError, Global};
use std::marker::Model;
use std::mem;

/// The stations that have sets, in the order of their first sets. Blocks add to the last one, which
/// alone has a table of its targets; the others are kept as they are answered.
#[derive(Drop)]
pub(crate) struct StationsSoFar {
    alloc: Global,
    earlier: IndexMap<Name, Surveyed>,
    last: Option<(Name, StationSoFar)>,
}

impl Model for StationsSoFar {
    ghost use Rattle.station_book.specs.StationStates.{StationStates, states_of, IsAfter};
    ghost use Rattle.station_book.specs.StationStates.{AreByName};

    ghost Value = { StationStates };

    ghost view = { λ s. states_of s.last s.earlier.entries };

    ghost invariant = { λ s. AreByName s.earlier.entries × IsAfter s.last s.earlier.entries };
}

/// How many stations a small file has at most. There is room for so many at once, and then for as
/// many as a file may have: so few are moved as more come, and small files take little memory.
const FEW_STATIONS: usize = 16;

/// Makes room for a station more.
fn reserve_station(stations: &mut IndexMap<Name, Surveyed>) -> Result<(), AllocError>
    ensures entries { stations.new.entries ≡ stations.old.entries }
    ensures room { OnOk result (0 < spare stations.new) }
{
    let count = stations.len();
    if count < stations.capacity() {
        return Ok(());
    }
    let more = if count < FEW_STATIONS {
        FEW_STATIONS
    } else {
        MOST_STATIONS
    };
    stations.reserve(more)
}

/// Adds a station of a new name, for which there is room.
// Within its two callers: a call moves what the station gave once more.
#[inline(always)]
fn push_station(stations: &mut IndexMap<Name, Surveyed>, name: Name, station: Surveyed)
    requires new { is_among name stations.old.entries ≡ false }
    requires room { 0 < spare stations.old }
    ensures { stations.new.entries ≡ stations.old.entries ++ (name, station) ∷ [] }
{
    stations.insert(name, station).unwrap();
}

impl StationsSoFar {
    /// No station.
    pub(crate) fn new(alloc: Global) -> StationsSoFar
        ensures { result ≡ none_so_far }
    {
        StationsSoFar {
            alloc,
            earlier: IndexMap::new(alloc),
            last: None,
        }
    }

    /// How many stations there are.
    fn len(&self) -> usize
        ensures { result ≡ count_of self.now }
    {
        match self.last {
            Some(_) => self.earlier.len() + 1,
            None => 0,
        }
    }

    /// Whether a station has this name.
    fn knows(&self, name: Name) -> bool
        ensures { result ≡ is_known name self.now }
    {
        match &self.last {
            Some((last, _)) => name.is_same(last) || self.earlier.contains_key(&name),
            None => false,
        }
    }

    /// The last station.
    #[inline(always)]
    fn last(&self) -> &StationSoFar
        requires { 0 < count_of self.now }
        ensures { result.now ≡ last_of self.now }
    {
        &self.last.as_ref().unwrap().1
    }

    /// The fault of the last set, if it ends here.
    pub(crate) fn end_fault(&self) -> Option<BookKind>
        requires { 0 < count_of self.now }
        ensures { result ≡ first_of (closing_faults (last_of self.now).slots) }
    {
        self.last().end_fault()
    }

    /// A station with its first set.
    fn add_station(&mut self, name: Name, number: u16) -> Result<(), AllocError>
        requires may_end { LastMayEnd self.old }
        requires new { is_known name self.old ≡ false }
        requires number { IsSetNumber number }
        ensures ok { OnOk result (self.new ≡ with_station name number self.old) }
        ensures unchanged { OnErr result (self.new ≡ self.old) }
    {
        match &mut self.last {
            None => {
                let begun = StationSoFar::begun(self.alloc, number)?;
                self.last = Some((name, begun));
            }
            Some((last, station)) => {
                reserve_station(&mut self.earlier)?;
                let surveyed = station.become_another(*last, self.alloc, number)?;
                let before = mem::replace(last, name);
                push_station(&mut self.earlier, before, surveyed);
            }
        }
        Ok(())
    }

    /// Opens the first set of a station.
    pub(crate) fn open_first(&mut self, name: Name, number: u16) -> Result<(), Refusal>
        requires may_end { LastMayEnd self.old }
        requires number { IsSetNumber number }
        ensures clean { OnOk result (first_of (first_set_faults name self.old) ≡ None) }
        ensures ok { OnOk result (self.new ≡ with_station name number self.old) }
        ensures fault { IfErr result (ExplainsRefusal (first_of (first_set_faults name self.old))) }
        ensures unchanged { OnErr result (self.new ≡ self.old) }
    {
        if self.knows(name) {
            return Err(Refusal::Fault(BookKind::StationTwice));
        }
        if self.len() >= MOST_STATIONS {
            return Err(Refusal::Fault(BookKind::TooManyStations));
        }
        self.add_station(name, number)?;
        Ok(())
    }

    /// Opens a further set of the last station.
    pub(crate) fn open_further(&mut self, number: u16) -> Result<(), Refusal>
        requires some { 0 < count_of self.old }
        requires may_end { MayEnd (last_of self.old) }
        requires number { IsSetNumber number }
        ensures clean { OnOk result (first_of (more_set_faults (last_of self.old) number) ≡ None) }
        ensures ok { OnOk result (self.new ≡ change_last (with_set number) self.old) }
        ensures fault { IfErr result
            (ExplainsRefusal (first_of (more_set_faults (last_of self.old) number))) }
        ensures unchanged { OnErr result (self.new ≡ self.old) }
    {
        let (_, station) = self.last.as_mut().unwrap();
        if let Some(kind) = station.set_fault(number) {
            return Err(Refusal::Fault(kind));
        }
        station.add_set(number)?;
        Ok(())
    }

    /// A reading in the last set of the last station.
    #[inline(always)]
    pub(crate) fn take_reading(&mut self, limits: Limits, reading: Reading) -> Result<(), BookKind>
        requires some { 0 < count_of self.old }
        requires angle { AreOnCircle reading.angles }
        ensures clean { OnOk result
            (first_of (state_faults limits (last_of self.old) reading) ≡ None) }
        ensures ok { OnOk result (self.new ≡ change_last (with_reading reading) self.old) }
        ensures fault { IfErr result
            (λ kind. first_of (state_faults limits (last_of self.old) reading) ≡ Some kind) }
        ensures unchanged { OnErr result (self.new ≡ self.old) }
    {
        let (_, station) = self.last.as_mut().unwrap();
        station.take_reading(limits, reading)
    }

    /// The stations, with the observations of all sets.
    pub(crate) fn finish(self) -> Result<Stations, AllocError>
        requires { LastMayEnd self }
        ensures { IfOk result (λ s. s ≡ surveys_of self) }
    {
        let StationsSoFar {
            alloc,
            mut earlier,
            mut last,
        } = self;
        let Some((name, station)) = last.take() else {
            return Ok(Stations { surveyed: earlier });
        };
        earlier.reserve(1)?;
        push_station(&mut earlier, name, station.close(name, alloc)?);
        Ok(Stations { surveyed: earlier })
    }
}
