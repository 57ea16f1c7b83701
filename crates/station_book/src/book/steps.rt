//! What each block does to a book, by what the book keeps.

ghost use Rattle.std.specs.Prelude.{◌≡◌, ◌<◌, ◌+◌, None, Some, if◌then◌else◌, OnOk, OnErr, IfErr};
ghost use Rattle.std.specs.Prelude.{IfOk, IfSome};
ghost use Rattle.station_book.specs.StationStates.{none_so_far, surveys_of};
ghost use Rattle.adjust_kernel.specs.Sheets.{IsSetNumber};
ghost use Rattle.gsi_word.specs.BlockViews.{block_of};
ghost use Rattle.station_book.specs.Blocks.{role_of, named, number, opens_set};
ghost use Rattle.station_book.specs.Readings.{read};
ghost use Rattle.station_book.specs.State.{ending, opening_fault, opened, at_station};
ghost use Rattle.station_book.specs.State.{closed_stage, has_open_set, with_measured};
ghost use Rattle.station_book.specs.State.{station_fault_of, set_fault_of, measurement_fault_of};
ghost use Rattle.station_book.specs.State.{fault_of, after};
ghost use Rattle.station_book.specs.Refusals.{ExplainsRefusal, ExplainsFault, WantsOnlyAt};
ghost use Rattle.station_book.specs.declared.bounds.TheConstants.{MOST_BLOCKS};
ghost use Rattle.station_book.specs.declared.stage.Stage.TheVariants.{Outside, Station, InSet};

use super::{Book, Count};
use crate::fault::{BookFault, BookKind, Refusal};
use crate::limits::Limits;
use crate::reading::{read, set_number, station_name};
use crate::role::{Role, role_of};
use crate::stage::Stage;
use crate::stations::Stations;
use crate::stations_so_far::StationsSoFar;
use gsi_word::Block;
use std::alloc::Global;

impl Book {
    /// A book that keeps nothing.
    pub(super) fn empty(alloc: Global, limits: Limits) -> Book
        ensures { result
            ≡ record { limits = limits; taken = 0; stage = Outside; stations = none_so_far } }
    {
        Book {
            limits,
            taken: Count { blocks: 0 },
            stage: Stage::Outside,
            stations: StationsSoFar::new(alloc),
        }
    }

    /// Takes a block: `after` and `fault_of` say what becomes of the book, or why it is refused.
    #[inline(always)]
    pub(super) fn take_block(&mut self, block: &Block<'_>) -> Result<(), BookFault>
        requires { self.old.taken < MOST_BLOCKS }
        ensures clean { OnOk result (fault_of self.old (block_of block.now) ≡ None) }
        ensures ok { OnOk result (self.new ≡ after (block_of block.now) self.old) }
        ensures fault { IfErr result
            (ExplainsFault (self.old.taken + 1) (fault_of self.old (block_of block.now))) }
        ensures memory { IfErr result (WantsOnlyAt (opens_set (block_of block.now))) }
        ensures unchanged { OnErr result (self.new ≡ self.old) }
    {
        let taken = match role_of(block) {
            Role::Station => self.take_station(block).map_err(Refusal::Fault),
            Role::Set => self.take_set(block),
            Role::Close => self.take_close().map_err(Refusal::Fault),
            Role::Measurement => self.take_measurement(block).map_err(Refusal::Fault),
            Role::Other => Ok(()),
        };
        match taken {
            Ok(()) => {
                self.taken = Count {
                    blocks: self.taken.blocks + 1,
                };
                Ok(())
            }
            Err(Refusal::Fault(kind)) => Err(BookFault::At(self.taken.blocks + 1, kind)),
            Err(Refusal::Memory) => Err(BookFault::Memory),
        }
    }

    /// The fault of the end of a set, where one is open.
    fn end_fault(&self) -> Option<BookKind>
        ensures { result ≡ ending self.now.stage self.now.stations }
    {
        match self.stage {
            Stage::InSet => self.stations.end_fault(),
            _ => None,
        }
    }

    /// A block of code 10.
    fn take_station(&mut self, block: &Block<'_>) -> Result<(), BookKind>
        ensures clean { OnOk result (station_fault_of self.old (block_of block.now) ≡ None) }
        ensures ok { OnOk result
            (self.new ≡ record self.old {
              stage = at_station (named (block_of block.now)) self.old.stage;
            }) }
        ensures fault { IfErr result
            (λ kind. station_fault_of self.old (block_of block.now) ≡ Some kind) }
        ensures unchanged { OnErr result (self.new ≡ self.old) }
    {
        if let Some(kind) = self.end_fault() {
            return Err(kind);
        }
        let name = station_name(block)?;
        self.stage = Stage::Station(name);
        Ok(())
    }

    /// A block of code 30.
    fn take_close(&mut self) -> Result<(), BookKind>
        ensures clean { OnOk result (ending self.old.stage self.old.stations ≡ None) }
        ensures ok { OnOk result
            (self.new ≡ record self.old { stage = closed_stage self.old.stage }) }
        ensures fault { IfErr result
            (λ kind. ending self.old.stage self.old.stations ≡ Some kind) }
        ensures unchanged { OnErr result (self.new ≡ self.old) }
    {
        if let Some(kind) = self.end_fault() {
            return Err(kind);
        }
        if let Stage::InSet = self.stage {
            self.stage = Stage::BetweenSets;
        }
        Ok(())
    }

    /// A block of code 20.
    fn take_set(&mut self, block: &Block<'_>) -> Result<(), Refusal>
        ensures clean { OnOk result (set_fault_of self.old (block_of block.now) ≡ None) }
        ensures ok { OnOk result
            (self.new ≡ record self.old {
              stage = InSet;
              stations = opened self.old.stage (number (block_of block.now)) self.old.stations;
            }) }
        ensures fault { IfErr result
            (ExplainsRefusal (set_fault_of self.old (block_of block.now))) }
        ensures unchanged { OnErr result (self.new ≡ self.old) }
    {
        if let Some(kind) = self.end_fault() {
            return Err(Refusal::Fault(kind));
        }
        let number = set_number(block)?;
        self.open_set(number)
    }

    /// Opens a set of this number.
    fn open_set(&mut self, number: Option<u16>) -> Result<(), Refusal>
        requires may_end { ending self.old.stage self.old.stations ≡ None }
        requires number { IfSome number IsSetNumber }
        ensures clean { OnOk result (opening_fault self.old.stage self.old.stations number ≡ None) }
        ensures ok { OnOk result
            (self.new ≡ record self.old {
              stage = InSet;
              stations = opened self.old.stage number self.old.stations;
            }) }
        ensures fault { IfErr result
            (ExplainsRefusal (opening_fault self.old.stage self.old.stations number)) }
        ensures unchanged { OnErr result (self.new ≡ self.old) }
    {
        let stage = self.stage;
        match stage {
            Stage::Outside => return Err(Refusal::Fault(BookKind::SetOutside)),
            Stage::Station(name) => {
                let number = number.ok_or(BookKind::SetNumber)?;
                self.stations.open_first(name, number)?;
            }
            Stage::BetweenSets | Stage::InSet => {
                let number = number.ok_or(BookKind::SetNumber)?;
                self.stations.open_further(number)?;
            }
        }
        self.stage = Stage::InSet;
        Ok(())
    }

    /// A measurement.
    #[inline(always)]
    fn take_measurement(&mut self, block: &Block<'_>) -> Result<(), BookKind>
        ensures clean { OnOk result (measurement_fault_of self.old (block_of block.now) ≡ None) }
        ensures ok { OnOk result
            (self.new ≡ record self.old {
              stations = if has_open_set self.old.stage
                  then with_measured (read (block_of block.now)) self.old.stations
                  else self.old.stations;
            }) }
        ensures fault { IfErr result
            (λ kind. measurement_fault_of self.old (block_of block.now) ≡ Some kind) }
        ensures unchanged { OnErr result (self.new ≡ self.old) }
    {
        match self.stage {
            Stage::InSet => {}
            _ => return Ok(()),
        }
        match read(block) {
            Err(kind) => Err(kind),
            Ok(None) => Ok(()),
            Ok(Some(reading)) => self.stations.take_reading(self.limits, reading),
        }
    }

    /// Ends the file: the stations kept, or the fault of a set that may not end.
    pub(super) fn finish_stations(self) -> Result<Stations, BookFault>
        ensures clean { OnOk result (ending self.stage self.stations ≡ None) }
        ensures ok { IfOk result (λ s. s ≡ surveys_of self.stations) }
        ensures fault { IfErr result
            (ExplainsFault (self.taken + 1) (ending self.stage self.stations)) }
    {
        if let Some(kind) = self.end_fault() {
            return Err(BookFault::At(self.taken.blocks + 1, kind));
        }
        let Book { stations, .. } = self;
        stations.finish().map_err(|_| BookFault::Memory)
    }
}
