//! Details: the readings of targets that the station doesn't read in face II.
//!
//! They stand outside, before the sets and after them, so the sets are looked for among the others.
//! Which targets are read in face II is asked of a table of these ([`Known`]).

ghost use Rattle.std.specs.Prelude.{◌≡◌, ◌≤◌, ◌||◌, length, not, IfOk, List};
ghost use Rattle.std.specs.List.{list_all};
ghost use Rattle.set_marks.specs.declared.bounds.TheConstants.{FEW_READINGS};
ghost use Rattle.set_marks.specs.declared.sight.Sight.{Sight};
ghost use Rattle.set_marks.specs.Searching.{KnowsTargetsOf};
ghost use Rattle.set_marks.specs.Divisions.{seconds_of, known_in, place_of, unknown_in};
ghost use Rattle.set_marks.specs.Divisions.{is_of, is_sight_back, has_no_sets};

use crate::bounds::FEW_READINGS;
use crate::known::Known;
use crate::set::{are_in_face, are_of, begins_with_pair, first_target, is_of};
use crate::sight::Sight;
use adjust_kernel::Name;
use std::alloc::{AllocError, Global};

/// The readings in face II where they are few; where they are not, more of them than few.
pub(crate) fn few_seconds(alloc: Global, sights: &[Sight]) -> Result<Vec<Sight>, AllocError>
    ensures { IfOk result (λ few. length few.items ≤ FEW_READINGS
        → few.items ≡ seconds_of sights.now) }
{
    let mut few = Vec::with_capacity(alloc, sights.len().min(FEW_READINGS + 1))?;
    let mut left = sights;
    'sights: while let Some((sight, rest)) = left.split_first() {
        if sight.second {
            if few.len() > FEW_READINGS {
                return Ok(few);
            }
            few.push(*sight)?;
        }
        left = rest;
    }
    Ok(few)
}

/// The readings whose targets are known.
pub(crate) fn known_in(
    alloc: Global,
    known: &mut Known,
    sights: &[Sight],
) -> Result<Vec<Sight>, AllocError>
    ensures value { IfOk result (λ rest. (others : List Sight) → KnowsTargetsOf others known.old
        → rest.items ≡ known_in others sights.now) }
    ensures unchanged { known.new ≡ known.old }
{
    let mut found = Vec::with_capacity(alloc, sights.len())?;
    let mut left = sights;
    'sights: while let Some((sight, rest)) = left.split_first() {
        if known.has(&sight.target) {
            found.push(*sight)?;
        }
        left = rest;
    }
    Ok(found)
}

/// The place of the reading before which so many stand whose targets are known.
pub(crate) fn place_of(known: &mut Known, count: usize, sights: &[Sight]) -> usize
    ensures value { (others : List Sight) → KnowsTargetsOf others known.old
        → result ≡ place_of others count sights.now }
    ensures bound { result ≤ length sights.now }
    ensures unchanged { known.new ≡ known.old }
{
    let mut before = count;
    let mut at = 0;
    let mut left = sights;
    'sights: while let Some((sight, rest)) = left.split_first() {
        if known.has(&sight.target) {
            if before == 0 {
                return at;
            }
            before -= 1;
        }
        at += 1;
        left = rest;
    }
    at
}

/// The first of these readings whose target isn't known.
pub(crate) fn unknown_in(known: &mut Known, sights: &[Sight]) -> Option<Sight>
    ensures value { (others : List Sight) → KnowsTargetsOf others known.old
        → result ≡ unknown_in others sights.now }
    ensures unchanged { known.new ≡ known.old }
{
    let mut left = sights;
    'sights: while let Some((sight, rest)) = left.split_first() {
        if !known.has(&sight.target) {
            return Some(*sight);
        }
        left = rest;
    }
    None
}

/// Whether all readings in face II are of this target.
fn are_seconds_of(name: &Name, sights: &[Sight]) -> bool
    ensures { result ≡ list_all (λ r. not r.second || is_of name.now r) sights.now }
{
    sights
        .iter()
        .all(|sight| !sight.second || is_of(name, sight))
}

/// Whether all readings in face II are of one target, of which the first two are a pair, and
/// another target is read.
fn is_sight_back(sights: &[Sight]) -> bool
    ensures { result ≡ is_sight_back sights.now }
{
    match first_target(sights) {
        Some(first) => {
            begins_with_pair(sights) && are_seconds_of(&first, sights) && !are_of(&first, sights)
        }
        None => false,
    }
}

/// Whether the station has no sets: none of its readings is in face II, or they are a sight back
/// and detail.
pub(crate) fn has_no_sets(sights: &[Sight]) -> bool
    ensures { result ≡ has_no_sets sights.now }
{
    are_in_face(false, sights) || is_sight_back(sights)
}
