//! Whether some readings are a set, and what is wrong with them if they are not.

ghost use Rattle.std.specs.Prelude.{◌≡◌, IfSome, IfNone, IfOk, [], take, option_map, slice_get};
ghost use Rattle.std.specs.Prelude.{None, unwrap_or};
ghost use Rattle.std.specs.List.{list_all, list_any};
ghost use Rattle.std.specs.Str.{bytes_eq};
ghost use Rattle.set_marks.specs.Divisions.{is_of, is_again, is_pair, is_same_face, again_in};
ghost use Rattle.set_marks.specs.Divisions.{alone_in, are_in_face};
ghost use Rattle.set_marks.specs.Divisions.{is_by_faces, is_by_targets, are_read_alike};
ghost use Rattle.set_marks.specs.Divisions.{first_target, last_target};
ghost use Rattle.set_marks.specs.Divisions.{readings_flaw, order_flaw, set_flaw};
ghost use Rattle.set_marks.specs.Divisions.{begins_with_pair};
ghost use Rattle.set_marks.specs.Searching.{repeats, KeepsFaces};

use crate::bounds::{FEW_READINGS, MOST_READINGS};
use crate::faces::Faces;
use crate::fault::MarkKind;
use crate::flaw::{Flaw, first_flaw, flaw_at, flaw_when};
use crate::sight::Sight;
use adjust_kernel::Name;
use std::alloc::{AllocError, Global};

/// Whether a reading is of this target.
pub(crate) fn is_of(name: &Name, sight: &Sight) -> bool
    ensures { result ≡ is_of name.now sight.now }
{
    sight.target.is_same(name)
}

fn is_same_face(a: bool, b: bool) -> bool
    ensures { result ≡ is_same_face a b }
{
    if a { b } else { !b }
}

/// Whether both are of one target, in one face.
pub(crate) fn is_again(a: &Sight, b: &Sight) -> bool
    ensures { result ≡ is_again a.now b.now }
{
    is_of(&a.target, b) && is_same_face(a.second, b.second)
}

/// Whether both are of one target, one in each face.
pub(crate) fn is_pair(a: &Sight, b: &Sight) -> bool
    ensures { result ≡ is_pair a.now b.now }
{
    is_of(&a.target, b) && !is_same_face(a.second, b.second)
}

/// Whether one of these is of the same target, in the same face.
fn is_read_again(sight: &Sight, others: &[Sight]) -> bool
    ensures { result ≡ list_any (is_again sight.now) others.now }
{
    others.iter().any(|other| is_again(sight, other))
}

/// Whether one of these is of this target.
pub(crate) fn reads_target(sights: &[Sight], name: &Name) -> bool
    ensures { result ≡ list_any (is_of name.now) sights.now }
{
    sights.iter().any(|sight| is_of(name, sight))
}

/// Whether all are of this target.
pub(crate) fn are_of(name: &Name, sights: &[Sight]) -> bool
    ensures { result ≡ list_all (is_of name.now) sights.now }
{
    sights.iter().all(|sight| is_of(name, sight))
}

/// Whether a set reads the targets of another in the same faces, in the same order.
pub(crate) fn repeats(first: &[Sight], set: &[Sight]) -> bool
    ensures { result ≡ repeats first.now set.now }
{
    let mut others = first;
    let mut left = set;
    'sights: while let Some((sight, rest)) = left.split_first() {
        let Some((other, later)) = others.split_first() else {
            return false;
        };
        if !is_again(other, sight) {
            return false;
        }
        others = later;
        left = rest;
    }
    others.is_empty()
}

/// The first reading whose target was read in its face before it.
pub(crate) fn again_in(set: &[Sight]) -> Option<Sight>
    ensures { result ≡ again_in set.now }
{
    let mut at = 0;
    let mut left = set;
    'sights: while let Some((sight, rest)) = left.split_first() {
        if is_read_again(sight, &set[..at]) {
            return Some(*sight);
        }
        at += 1;
        left = rest;
    }
    None
}

pub(crate) fn has_pair(sight: &Sight, set: &[Sight]) -> bool
    ensures { result ≡ list_any (is_pair sight.now) set.now }
{
    set.iter().any(|other| is_pair(sight, other))
}

/// The first reading whose target is not read in the other face.
fn alone_in(set: &[Sight]) -> Option<Sight>
    ensures { result ≡ alone_in set.now }
{
    let mut left = set;
    'sights: while let Some((sight, rest)) = left.split_first() {
        if !has_pair(sight, set) {
            return Some(*sight);
        }
        left = rest;
    }
    None
}

/// Whether all are in this face.
pub(crate) fn are_in_face(second: bool, set: &[Sight]) -> bool
    ensures { result ≡ are_in_face second set.now }
{
    set.iter().all(|sight| is_same_face(second, sight.second))
}

/// Whether one of these readings is in face II.
pub(crate) fn has_second(sights: &[Sight]) -> bool
    ensures { result ≡ list_any (λ r. r.second) sights.now }
{
    sights.iter().any(|sight| sight.second)
}

/// Whether the first two are of one target, one in each face.
pub(crate) fn begins_with_pair(sights: &[Sight]) -> bool
    ensures { result ≡ begins_with_pair sights.now }
{
    match sights {
        [a, b, ..] => is_pair(a, b),
        [] | [_] => false,
    }
}

/// Whether the first half is in one face.
fn is_by_faces(set: &[Sight]) -> bool
    ensures { result ≡ is_by_faces set.now }
{
    match set.first() {
        None => false,
        Some(first) => are_in_face(first.second, &set[..set.len() / 2]),
    }
}

/// Whether each target is read in both faces before the next.
// It calls itself once for each two readings of a set, of which there are at most 200.
pub(crate) fn is_by_targets(set: &[Sight]) -> bool
    ensures { result ≡ is_by_targets set.now }
{
    match set {
        [] => true,
        [_] => false,
        [a, b, rest @ ..] => is_pair(a, b) && is_by_targets(rest),
    }
}

/// The target of the first reading.
pub(crate) fn first_target(set: &[Sight]) -> Option<Name>
    ensures value { IfSome result (λ name. name ≡ first_target set.now) }
    ensures name { unwrap_or result [] ≡ first_target set.now }
    ensures some { IfNone result (set.now ≡ []) }
{
    match set.first() {
        Some(sight) => Some(sight.target),
        None => None,
    }
}

/// The target of the last reading.
#[tactic(auto, using(crate::proofs::Asking::last_is))]
pub(crate) fn last_target(set: &[Sight]) -> Option<Name>
    ensures value { IfSome result (λ name. name ≡ last_target set.now) }
    ensures name { unwrap_or result [] ≡ last_target set.now }
    ensures some { IfNone result (set.now ≡ []) }
{
    match set.split_last() {
        Some((sight, _)) => Some(sight.target),
        None => None,
    }
}

/// Whether both are one target, or there is neither.
#[tactic(auto, using(crate::proofs::Few::is_not_empty))]
pub(crate) fn are_alike(a: Option<Name>, b: Option<Name>) -> bool
    ensures { result ≡ bytes_eq (unwrap_or a []) (unwrap_or b []) }
{
    match (a, b) {
        (Some(a), Some(b)) => a.is_same(&b),
        (None, None) => true,
        (Some(one), None) | (None, Some(one)) => {
            // For the proof alone: a name has a byte, so that no name is none.
            one.recall();
            false
        }
    }
}

/// Whether both end with one target.
fn ends_alike(first: &[Sight], set: &[Sight]) -> bool
    ensures { result ≡ bytes_eq (last_target first.now) (last_target set.now) }
{
    are_alike(last_target(first), last_target(set))
}

/// Whether both are read by faces, or both by targets.
fn are_read_alike(first: &[Sight], set: &[Sight]) -> bool
    ensures { result ≡ are_read_alike first.now set.now }
{
    let by_faces = is_by_faces(first) && is_by_faces(set);
    by_faces || is_by_targets(first) && is_by_targets(set)
}

/// The first reading whose target was read in its face before it. The targets of all are kept.
fn again_kept(faces: &mut Faces, set: &[Sight]) -> Result<Option<Sight>, AllocError>
    requires { KeepsFaces [] faces.old }
    ensures value { IfOk result (λ o. o ≡ again_in set.now) }
    ensures kept { IfOk result (λ o. IfNone o (KeepsFaces set.now faces.new)) }
{
    let mut left = set;
    'sights: while let Some((sight, rest)) = left.split_first() {
        let is_again = faces.add(sight.second, &sight.target)?;
        if is_again {
            return Ok(Some(*sight));
        }
        left = rest;
    }
    Ok(None)
}

/// The first of these readings whose target is not kept in the other face.
fn alone_kept(faces: &mut Faces, set: &[Sight]) -> Option<Sight>
    requires { KeepsFaces set.now faces.old }
    ensures { result ≡ alone_in set.now }
{
    let mut left = set;
    'sights: while let Some((sight, rest)) = left.split_first() {
        if !faces.has(!sight.second, &sight.target) {
            return Some(*sight);
        }
        left = rest;
    }
    None
}

/// What is wrong with the readings of a set by themselves, where each is compared with all.
fn flaw_of_few(set: &[Sight]) -> Option<Flaw>
    ensures { result ≡ readings_flaw set.now }
{
    if let Some(sight) = again_in(front(MOST_READINGS + 1, set)) {
        return Some(flaw_at(MarkKind::ReadTwice, Some(&sight)));
    }
    // From here on there are at most 200 readings, so no search takes more steps for each of them.
    if set.len() > MOST_READINGS {
        return Some(flaw_at(MarkKind::TooManyTargets, set.get(MOST_READINGS)));
    }
    match alone_in(set) {
        Some(sight) => Some(flaw_at(MarkKind::FaceMissing, Some(&sight))),
        None => None,
    }
}

/// What `flaw_of_few` answers, where the targets that were read are kept in a table.
fn flaw_of_many(alloc: Global, set: &[Sight]) -> Result<Option<Flaw>, AllocError>
    ensures { IfOk result (λ o. o ≡ readings_flaw set.now) }
{
    let mut faces = Faces::with_room(alloc, set.len().min(MOST_READINGS) / 2)?;
    if let Some(sight) = again_kept(&mut faces, front(MOST_READINGS + 1, set))? {
        return Ok(Some(flaw_at(MarkKind::ReadTwice, Some(&sight))));
    }
    if set.len() > MOST_READINGS {
        let sight = set.get(MOST_READINGS);
        return Ok(Some(flaw_at(MarkKind::TooManyTargets, sight)));
    }
    match alone_kept(&mut faces, set) {
        Some(sight) => Ok(Some(flaw_at(MarkKind::FaceMissing, Some(&sight)))),
        None => Ok(None),
    }
}

/// What is wrong with the readings of a set by themselves.
fn readings_flaw(alloc: Global, set: &[Sight]) -> Result<Option<Flaw>, AllocError>
    ensures { IfOk result (λ o. o ≡ readings_flaw set.now) }
{
    if set.len() <= FEW_READINGS {
        return Ok(flaw_of_few(set));
    }
    flaw_of_many(alloc, set)
}

/// What is wrong with a set as a whole.
fn order_flaw(first: &[Sight], set: &[Sight]) -> Option<Flaw>
    ensures { result ≡ order_flaw first.now set.now }
{
    let opening = sight_at(set, 0);
    let one = flaw_when(set.len() < 4, MarkKind::OneTarget, opening);
    let middle = sight_at(set, set.len() / 2);
    let order = flaw_when(!are_read_alike(first, set), MarkKind::Order, middle);
    let last = sight_at(set, set.len().saturating_sub(1));
    let elsewhere = flaw_when(!ends_alike(first, set), MarkKind::EndsElsewhere, last);
    first_flaw(one, order, elsewhere)
}

/// What is wrong with these readings as a set, where the first set of the station is this.
pub(crate) fn set_flaw(
    alloc: Global,
    first: &[Sight],
    set: &[Sight],
) -> Result<Option<Flaw>, AllocError>
    ensures { IfOk result (λ o. o ≡ set_flaw first.now set.now) }
{
    match readings_flaw(alloc, set)? {
        Some(flaw) => Ok(Some(flaw)),
        None => Ok(order_flaw(first, set)),
    }
}

/// What `set_flaw` answers, where the first set has no flaw. Then no other has one that repeats it.
pub(crate) fn later_flaw(
    alloc: Global,
    first: &[Sight],
    set: &[Sight],
) -> Result<Option<Flaw>, AllocError>
    requires { set_flaw first.now first.now ≡ None }
    ensures { IfOk result (λ o. o ≡ set_flaw first.now set.now) }
{
    if repeats(first, set) {
        return Ok(None);
    }
    set_flaw(alloc, first, set)
}

/// The first of these readings.
pub(crate) fn front(count: usize, sights: &[Sight]) -> &[Sight]
    ensures { result.now ≡ take count sights.now }
{
    if count < sights.len() {
        &sights[..count]
    } else {
        sights
    }
}

/// The reading at a place, if there is one.
pub(crate) fn sight_at(sights: &[Sight], place: usize) -> Option<&Sight>
    ensures { option_map (λ s. s.now) result ≡ slice_get sights.now place }
{
    sights.get(place)
}
