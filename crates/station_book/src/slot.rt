//! The readings of a set, by target.

ghost use Rattle.std.specs.Prelude.{◌≡◌, ◌≤◌, ◌<◌, ◌+◌, ◌++◌, length, All, OnOk, OnErr, vec_len};
ghost use Rattle.std.specs.Vec.{vec_capacity};
ghost use Rattle.std.specs.List.{list_any, list_all};
ghost use Rattle.std.specs.Option.{option_to_list};
ghost use Rattle.adjust_kernel.specs.declared.bounds.TheConstants.{MOST_SETS, MOST_TARGETS};
ghost use Rattle.station_book.specs.Faults.{first_of};
ghost use Rattle.station_book.specs.Slots.{face_reading, with_face_reading, empty_slot};
ghost use Rattle.station_book.specs.Slots.{slot_faults, pair_fault, closing_faults, is_unread};
ghost use Rattle.station_book.specs.Slots.{is_single, IsKeptSlot, obs_at, obs_of, faces_at};
ghost use Rattle.station_book.specs.Slots.{faces_of};
ghost use Rattle.station_book.specs.TwoFaces.{AreOnCircle};

use crate::angles::{Angles, Reading};
use crate::face::Face;
use crate::faces::Faces;
use crate::fault::BookKind;
use crate::limits::Limits;
use crate::pair::{direction_of, faces_of, has_no_two_c, has_no_two_i};
use adjust_kernel::{MOST_SETS, Obs};
use std::alloc::AllocError;

/// The readings of one target in a set.
#[derive(Clone, Copy, Drop)]
pub(crate) struct Slot {
    /// In face I.
    pub one: Option<Angles>,
    /// In face II.
    pub two: Option<Angles>,
}

/// A target without a reading.
pub(crate) fn empty_slot() -> Slot
    ensures { result ≡ empty_slot }
{
    Slot {
        one: None,
        two: None,
    }
}

impl Slot {
    /// The reading of a face.
    fn reading(self, face: Face) -> Option<Angles>
        ensures { result ≡ face_reading face self }
    {
        match face {
            Face::One => self.one,
            Face::Two => self.two,
        }
    }

    /// The slot with a reading in this face.
    pub(crate) fn with_reading(self, face: Face, angles: Angles) -> Slot
        ensures { result ≡ with_face_reading face angles self }
    {
        match face {
            Face::One => Slot {
                one: Some(angles),
                two: self.two,
            },
            Face::Two => Slot {
                one: self.one,
                two: Some(angles),
            },
        }
    }
}

/// The fault of a reading of the slot's target, if it has one.
pub(crate) fn slot_fault(limits: Limits, slot: Slot, reading: Reading) -> Option<BookKind>
    requires slot { IsKeptSlot slot }
    requires reading { AreOnCircle reading.angles }
    ensures { result ≡ first_of (slot_faults limits slot reading) }
{
    if slot.reading(reading.face).is_some() {
        return Some(BookKind::FaceTwice);
    }
    let Some(other) = slot.reading(reading.face.other()) else {
        return None;
    };
    pair_fault(limits, reading.angles, other)
}

/// The fault of two readings of a target, one of each face, if they have one: whichever comes
/// first, they have the same.
fn pair_fault(limits: Limits, first: Angles, second: Angles) -> Option<BookKind>
    requires first_in { AreOnCircle first }
    requires second_in { AreOnCircle second }
    ensures { result ≡ pair_fault limits first second }
{
    if has_no_two_c(limits.two_c(), first, second) {
        return Some(BookKind::TwoC);
    }
    if has_no_two_i(limits.two_i(), first, second) {
        return Some(BookKind::TwoI);
    }
    None
}

/// Whether the target has no reading.
fn is_unread(slot: &Slot) -> bool
    ensures { result ≡ is_unread slot.now }
{
    slot.one.is_none() && slot.two.is_none()
}

/// Whether the target has a reading of one face alone.
fn is_single(slot: &Slot) -> bool
    ensures { result ≡ is_single slot.now }
{
    slot.one.is_some() != slot.two.is_some()
}

/// Whether no target has a reading.
fn are_unread(slots: &[Slot]) -> bool
    ensures { result ≡ list_all is_unread slots.now }
{
    slots.iter().all(|slot| is_unread(slot))
}

/// Whether some target has a reading of one face alone.
fn has_single(slots: &[Slot]) -> bool
    ensures { result ≡ list_any is_single slots.now }
{
    slots.iter().any(|slot| is_single(slot))
}

/// The fault of a set that ends with these readings, if it has one.
pub(crate) fn end_fault(slots: &[Slot]) -> Option<BookKind>
    ensures { result ≡ first_of (closing_faults slots.now) }
{
    if are_unread(slots) {
        return Some(BookKind::EmptySet);
    }
    if has_single(slots) {
        return Some(BookKind::OneFace);
    }
    None
}

/// Appends the observation of a target, where it has one.
fn push_pair(set: u32, target: u32, slot: Slot, obs: &mut Vec<Obs>, faces: &mut Vec<Faces>)
    requires angles { IsKeptSlot slot }
    requires obs_room { vec_len obs.old < vec_capacity obs.old }
    requires faces_room { vec_len faces.old < vec_capacity faces.old }
    ensures obs { obs.new.items ≡ obs.old.items ++ option_to_list (obs_at set (target, slot)) }
    ensures faces { faces.new.items ≡ faces.old.items ++ option_to_list (faces_at slot) }
    ensures obs_len { vec_len obs.new ≤ vec_len obs.old + 1 }
    ensures faces_len { vec_len faces.new ≤ vec_len faces.old + 1 }
    ensures obs_capacity { vec_capacity obs.old ≤ vec_capacity obs.new }
    ensures faces_capacity { vec_capacity faces.old ≤ vec_capacity faces.new }
{
    let (Some(first), Some(second)) = (slot.one, slot.two) else {
        return;
    };
    let one = Obs {
        set,
        target,
        value: direction_of(first, second),
    };
    obs.push_reserved(one);
    faces.push_reserved(faces_of(first, second));
}

/// How many sets a small station has at most. Its lists of observations get room for so many at
/// once, and then for more sets, and at last for all: so few observations are copied as the lists
/// grow, and many small stations take little memory.
const FEW_SETS: usize = 2;

/// For how many sets there is room next.
const SOME_SETS: usize = 4;

/// For how many sets there is room after that.
const MANY_SETS: usize = 12;

/// For how many sets the lists of a station get room that has so many sets.
fn sets_with_room(sets: usize) -> usize
    requires { sets ≤ MOST_SETS }
    ensures enough { sets ≤ result }
    ensures bound { result ≤ MOST_SETS }
{
    if sets <= FEW_SETS {
        FEW_SETS
    } else if sets <= SOME_SETS {
        SOME_SETS
    } else if sets <= MANY_SETS {
        MANY_SETS
    } else {
        MOST_SETS
    }
}

/// Makes room for the observations of a set of these targets that ends after so many earlier ones,
/// and for those of further sets, for one opens now.
pub(crate) fn make_room(
    earlier: usize,
    targets: usize,
    obs: &mut Vec<Obs>,
    faces: &mut Vec<Faces>,
) -> Result<(), AllocError>
    requires sets { earlier + 2 ≤ MOST_SETS }
    requires targets { targets ≤ MOST_TARGETS }
    ensures obs { obs.new.items ≡ obs.old.items }
    ensures faces { faces.new.items ≡ faces.old.items }
{
    let room = (sets_with_room(earlier + 2) - earlier) * targets;
    obs.reserve(room)?;
    faces.reserve(room)?;
    Ok(())
}

/// Appends the observations of a set, their face differences and zenith angles. All growths come
/// first.
pub(crate) fn push_pairs(
    set: u32,
    slots: &[Slot],
    obs: &mut Vec<Obs>,
    faces: &mut Vec<Faces>,
) -> Result<(), AllocError>
    requires few { length slots.now ≤ MOST_TARGETS }
    requires angles { All IsKeptSlot slots.now }
    ensures obs { OnOk result (obs.new.items ≡ obs.old.items ++ obs_of set slots.now) }
    ensures faces { OnOk result (faces.new.items ≡ faces.old.items ++ faces_of slots.now) }
    ensures kept_obs { OnErr result (obs.new.items ≡ obs.old.items) }
    ensures kept_faces { OnErr result (faces.new.items ≡ faces.old.items) }
{
    obs.reserve_exact(slots.len())?;
    faces.reserve_exact(slots.len())?;
    'slots: for (place, slot) in slots.iter().enumerate() {
        push_pair(set, place as u32, *slot, obs, faces);
    }
    Ok(())
}
