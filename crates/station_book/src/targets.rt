//! The targets of a station with their readings in its last set, and the place at which one is
//! found.

ghost use Rattle.std.specs.Prelude.{◌≡◌, ◌≢◌, ◌<◌, AllPairs, None, Some, slice_get, slice_set};
ghost use Rattle.std.specs.Prelude.{length, replicate, IfErr, IfOk, IfSome, OnErr, []};
ghost use Rattle.adjust_kernel.specs.declared.bounds.TheConstants.{MOST_TARGETS};
ghost use Rattle.station_book.specs.StationState.{is_named, place_of, new_target_fault};
ghost use Rattle.station_book.specs.Slots.{slot_at, empty_slot, with_face_reading};
ghost use Rattle.station_book.specs.Targets.{IsPlaced};

use crate::angles::Angles;
use crate::face::Face;
use crate::fault::BookKind;
use crate::slot::{Slot, empty_slot};
use adjust_kernel::{MOST_TARGETS, Name};
use indexmap::IndexMap;
use indexmap::map::Entry;
use std::alloc::{AllocError, Global};
use std::marker::Model;

/// The targets of a station, in the order of their first readings, each with its readings in the
/// last set. There is always room for as many as a station may have, so that no reading needs
/// memory.
#[derive(Drop)]
pub(crate) struct Targets {
    slots: IndexMap<Name, Slot>,
    /// The place of the target that was read last: beside it the next one is looked for first.
    last: usize,
}

impl Model for Targets {
    ghost use Rattle.std.specs.Prelude.{◌+◌, ◌≤◌, length};
    ghost use Rattle.std.specs.Map.{keys_of, values_of};
    ghost use Rattle.indexmap.specs.IndexMap.{spare};
    ghost use Rattle.adjust_kernel.specs.declared.bounds.TheConstants.{MOST_TARGETS};
    ghost use Rattle.station_book.specs.Targets.{TargetsValue};

    ghost Value = { TargetsValue };

    ghost view = { λ t. record {
      names = keys_of t.slots.entries;
      slots = values_of t.slots.entries;
    } };

    ghost invariant = { λ t. MOST_TARGETS ≤ length t.slots.entries + spare t.slots };
}

/// Where the target of a reading stands.
#[derive(Clone, Copy)]
pub(crate) enum Placed {
    /// At this place: the station has it.
    Known(usize),
    /// After all others: it was added with this reading.
    Added,
}

/// Where the next reading is expected: after this place in face I, before it in face II. A guess,
/// for speed: the name is compared.
#[inline(always)]
fn beside(place: usize, face: Face) -> usize {
    match face {
        Face::One => place.wrapping_add(1),
        Face::Two => place.wrapping_sub(1),
    }
}

impl Targets {
    /// No target, with room for as many as a station may have.
    pub(crate) fn new(alloc: Global) -> Result<Targets, AllocError>
        ensures { IfOk result (λ t. t ≡ record { names = []; slots = [] }) }
    {
        let slots = IndexMap::with_capacity(alloc, MOST_TARGETS)?;
        Ok(Targets { slots, last: 0 })
    }

    /// The readings, in the order of the targets.
    pub(crate) fn slots(&self) -> &[Slot]
        ensures { result.now ≡ self.now.slots }
    {
        self.slots.values().as_slice()
    }

    /// The names alone.
    pub(crate) fn names(&self, alloc: Global) -> Result<Vec<Name>, AllocError>
        ensures { IfOk result (λ names. names.items ≡ self.now.names) }
    {
        self.slots.keys().as_slice().to_vec(alloc)
    }

    /// Whether the target at this place has this name.
    #[inline(always)]
    fn is_at(&self, name: &Name, place: usize) -> bool
        ensures { result ≡ is_named name.now (slice_get self.now.names place) }
    {
        match self.slots.get_index(place) {
            Some((target, _)) => target.is_same(name),
            None => false,
        }
    }

    /// The place of the target of this name, if it is one of those beside the target that was read
    /// last: targets are read in turn, and in face II mostly backwards.
    #[inline(always)]
    #[tactic(auto, using(crate::proofs::lists::NamePlaces::placed))]
    fn place_beside(&self, name: &Name, face: Face) -> Option<usize>
        requires { AllPairs (λ a b. a ≢ b) self.now.names }
        ensures place { IfSome result (λ i. Some i ≡ place_of name.now self.now.names) }
        ensures inside { IfSome result (λ i. i < length self.now.names) }
    {
        let next = beside(self.last, face);
        if self.is_at(name, next) {
            return Some(next);
        }
        if self.is_at(name, self.last) {
            return Some(self.last);
        }
        let other = beside(self.last, face.other());
        if self.is_at(name, other) {
            return Some(other);
        }
        None
    }

    /// The place of the target of this name, by its hash, which is computed once. Where there is
    /// none of this name and there may be one more, it is added with this first reading.
    // Apart from its caller, so that the usual way, a target beside the last one, stays small.
    #[inline(never)]
    fn search_or_add(&mut self, name: Name, first: Slot) -> Result<Placed, BookKind>
        ensures placed { IfOk result (IsPlaced name first self.old self.new) }
        ensures absent { OnErr result (place_of name self.old.names ≡ None) }
        ensures fault { IfErr result (λ kind. new_target_fault self.old.names ≡ Some kind) }
        ensures unchanged { OnErr result (self.new ≡ self.old) }
    {
        let count = self.slots.len();
        if count >= MOST_TARGETS {
            let place = self
                .slots
                .get_index_of(&name)
                .ok_or(BookKind::TooManyTargets)?;
            return Ok(Placed::Known(place));
        }
        match self.slots.entry(name).unwrap() {
            Entry::Occupied(target) => Ok(Placed::Known(target.index())),
            Entry::Vacant(target) => {
                target.insert(first);
                self.last = count;
                Ok(Placed::Added)
            }
        }
    }

    /// The place of the target of this name, of which a reading came in face I or II. Where there
    /// is none of this name and there may be one more, it is added with this first reading.
    #[inline(always)]
    pub(crate) fn find_or_add(
        &mut self,
        name: Name,
        face: Face,
        angles: Angles,
    ) -> Result<Placed, BookKind>
        requires { AllPairs (λ a b. a ≢ b) self.old.names }
        ensures placed { IfOk result
            (IsPlaced name (with_face_reading face angles empty_slot) self.old self.new) }
        ensures absent { OnErr result (place_of name self.old.names ≡ None) }
        ensures fault { IfErr result (λ kind. new_target_fault self.old.names ≡ Some kind) }
        ensures unchanged { OnErr result (self.new ≡ self.old) }
    {
        if let Some(place) = self.place_beside(&name, face) {
            return Ok(Placed::Known(place));
        }
        let first = empty_slot().with_reading(face, angles);
        self.search_or_add(name, first)
    }

    /// The readings of the target at this place.
    #[inline(always)]
    pub(crate) fn slot(&self, place: usize) -> Slot
        requires { place < length self.now.names }
        ensures { result ≡ slot_at self.now.slots place }
    {
        self.slots[place]
    }

    /// Notes the readings of the target at this place. The next target is looked for first beside
    /// it: this changes the speed alone, so that no clause says it.
    #[inline(always)]
    pub(crate) fn set(&mut self, place: usize, slot: Slot)
        requires { place < length self.old.names }
        ensures names { self.new.names ≡ self.old.names }
        ensures slots { self.new.slots ≡ slice_set self.old.slots place slot }
    {
        self.slots[place] = slot;
        self.last = place;
    }

    /// Lets all targets go, and keeps the room. Few are taken out one by one: that costs less than to
    /// clear a table for as many as a station may have.
    pub(crate) fn clear(&mut self)
        ensures { self.new ≡ record { names = []; slots = [] } }
    {
        self.slots.truncate(0);
    }

    /// Takes all readings out.
    pub(crate) fn empty_slots(&mut self)
        ensures names { self.new.names ≡ self.old.names }
        ensures slots { self.new.slots ≡ replicate (length self.old.slots) empty_slot }
    {
        'slots: for place in 0..self.slots.len() {
            self.slots[place] = empty_slot();
        }
    }
}
