//! A station that has sets.

ghost use Rattle.std.specs.Prelude.{◌≡◌, ◌<◌, ◌∷◌, [], None, length, IfOk, IfErr, OnOk, OnErr};
ghost use Rattle.std.specs.Prelude.{false, ◌==◌};
ghost use Rattle.std.specs.List.{list_any};
ghost use Rattle.adjust_kernel.specs.Names.{IsName};
ghost use Rattle.adjust_kernel.specs.Sheets.{IsSetNumber};
ghost use Rattle.adjust_kernel.specs.declared.bounds.TheConstants.{MOST_SETS};
ghost use Rattle.station_book.specs.StationStates.{more_set_faults, survey_of};
ghost use Rattle.station_book.specs.Faults.{first_of};
ghost use Rattle.station_book.specs.Slots.{closing_faults};
ghost use Rattle.station_book.specs.TwoFaces.{AreOnCircle};
ghost use Rattle.station_book.specs.StationState.{MayEnd, begun, with_set, state_faults};
ghost use Rattle.station_book.specs.StationState.{with_reading};
ghost use Rattle.station_book.specs.declared.fault.BookKind.TheVariants as kinds;

use crate::angles::Reading;
use crate::faces::Faces;
use crate::fault::BookKind;
use crate::limits::Limits;
use crate::slot::{end_fault, make_room, push_pairs, slot_fault};
use crate::surveyed::Surveyed;
use crate::targets::{Placed, Targets};
use adjust_kernel::{MOST_SETS, Name, Obs, Station};
use std::alloc::{AllocError, Global};
use std::marker::Model;
use std::mem;

/// For how many sets there is room at first.
const ROOM_FOR_SETS: usize = 4;

/// What a book keeps of a station that has sets. The readings of its last set are kept by target;
/// those of all earlier sets have become observations.
#[derive(Drop)]
pub(crate) struct StationSoFar {
    targets: Targets,
    sets: Vec<u16>,
    obs: Vec<Obs>,
    faces: Vec<Faces>,
}

impl Model for StationSoFar {
    ghost use Rattle.station_book.specs.StationState.{StationState, IsStationState};

    ghost Value = { StationState };

    ghost view = { λ e. record {
      targets = e.targets.names;
      slots = e.targets.slots;
      sets = e.sets.items;
      obs = e.obs.items;
      faces = e.faces.items;
    } };

    ghost invariant = { λ e. IsStationState (record {
      targets = e.targets.names;
      slots = e.targets.slots;
      sets = e.sets.items;
      obs = e.obs.items;
      faces = e.faces.items;
    }) };
}

/// The first set of a station, with room for a few more.
fn first_set(alloc: Global, number: u16) -> Result<Vec<u16>, AllocError>
    ensures { IfOk result (λ sets. sets.items ≡ number ∷ []) }
{
    let mut sets = Vec::with_capacity(alloc, ROOM_FOR_SETS)?;
    sets.push_reserved(number);
    Ok(sets)
}

impl StationSoFar {
    /// The station of a first set.
    pub(crate) fn begun(alloc: Global, number: u16) -> Result<StationSoFar, AllocError>
        requires { IsSetNumber number }
        ensures { IfOk result (λ e. e ≡ begun number) }
    {
        Ok(StationSoFar {
            targets: Targets::new(alloc)?,
            sets: first_set(alloc, number)?,
            obs: Vec::new(alloc),
            faces: Vec::new(alloc),
        })
    }

    /// The fault of the last set, if it ends here.
    pub(crate) fn end_fault(&self) -> Option<BookKind>
        ensures { result ≡ first_of (closing_faults self.now.slots) }
    {
        end_fault(self.targets.slots())
    }

    /// The fault of a further set of this number, if it has one.
    pub(crate) fn set_fault(&self, number: u16) -> Option<BookKind>
        ensures { result ≡ first_of (more_set_faults self.now number) }
    {
        if self.sets.contains(&number) {
            return Some(BookKind::SetTwice);
        }
        if self.sets.len() >= MOST_SETS {
            return Some(BookKind::TooManySets);
        }
        None
    }

    /// Adds a set.
    pub(crate) fn add_set(&mut self, number: u16) -> Result<(), AllocError>
        requires room { length self.old.sets < MOST_SETS }
        requires may_end { MayEnd self.old }
        requires new { list_any (λ m. m == number) self.old.sets ≡ false }
        requires number { IsSetNumber number }
        ensures ok { OnOk result (self.new ≡ with_set number self.old) }
        ensures unchanged { OnErr result (self.new ≡ self.old) }
    {
        self.sets.reserve(1)?;
        let last = self.sets.len() - 1;
        let slots = self.targets.slots();
        make_room(last, slots.len(), &mut self.obs, &mut self.faces)?;
        push_pairs(last as u32, slots, &mut self.obs, &mut self.faces)?;
        self.sets.push_reserved(number);
        self.targets.empty_slots();
        Ok(())
    }

    /// Takes a reading of the last set.
    #[inline(always)]
    pub(crate) fn take_reading(&mut self, limits: Limits, reading: Reading) -> Result<(), BookKind>
        requires { AreOnCircle reading.angles }
        ensures clean { OnOk result (first_of (state_faults limits self.old reading) ≡ None) }
        ensures ok { OnOk result (self.new ≡ with_reading reading self.old) }
        ensures fault { IfErr result
            (λ kind. first_of (state_faults limits self.old reading) ≡ Some kind) }
        ensures unchanged { OnErr result (self.new ≡ self.old) }
    {
        let Reading {
            target,
            face,
            angles,
        } = reading;
        let place = match self.targets.find_or_add(target, face, angles)? {
            Placed::Known(place) => place,
            Placed::Added => {
                // For the proof alone: a name keeps the rules of names.
                target.recall();
                return Ok(());
            }
        };
        let slot = self.targets.slot(place);
        if let Some(kind) = slot_fault(limits, slot, reading) {
            return Err(kind);
        }
        self.targets.set(place, slot.with_reading(face, angles));
        Ok(())
    }

    /// Becomes another station, with its first set, and gives what the station of this name gave. So
    /// one table of targets serves all stations.
    pub(crate) fn become_another(
        &mut self,
        name: Name,
        alloc: Global,
        number: u16,
    ) -> Result<Surveyed, AllocError>
        requires may_end { MayEnd self.old }
        requires number { IsSetNumber number }
        ensures surveyed { IfOk result (λ s. s ≡ survey_of (name, self.old)) }
        ensures named { IfOk result (λ s. IsName s.station.name) }
        ensures begun { OnOk result (self.new ≡ begun number) }
        ensures unchanged { OnErr result (self.new ≡ self.old) }
    {
        // For the proof alone: a name keeps the rules of names.
        name.recall();
        let targets = self.targets.names(alloc)?;
        let sets = first_set(alloc, number)?;
        let last = self.sets.len() as u32 - 1;
        push_pairs(last, self.targets.slots(), &mut self.obs, &mut self.faces)?;
        self.targets.clear();
        let sets = mem::replace(&mut self.sets, sets);
        let obs = mem::replace(&mut self.obs, Vec::new(alloc));
        let faces = mem::replace(&mut self.faces, Vec::new(alloc));
        let station = Station::from_valid(name, targets, sets, obs);
        Ok(Surveyed { station, faces })
    }

    /// What the station of this name gives, where no more comes to it.
    pub(crate) fn close(self, name: Name, alloc: Global) -> Result<Surveyed, AllocError>
        requires { MayEnd self }
        ensures surveyed { IfOk result (λ s. s ≡ survey_of (name, self)) }
        ensures named { IfOk result (λ s. IsName s.station.name) }
    {
        // For the proof alone: a name keeps the rules of names.
        name.recall();
        let StationSoFar {
            targets,
            sets,
            mut obs,
            mut faces,
        } = self;
        let names = targets.names(alloc)?;
        let last = sets.len() as u32 - 1;
        push_pairs(last, targets.slots(), &mut obs, &mut faces)?;
        let station = Station::from_valid(name, names, sets, obs);
        Ok(Surveyed { station, faces })
    }
}
