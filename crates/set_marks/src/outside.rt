//! The readings that may stand outside before the sets of a station and after them: sights before
//! the first set, and an ending.

ghost use Rattle.std.specs.Prelude.{◌≡◌, ◌≤◌, length};
ghost use Rattle.std.specs.List.{list_all};
ghost use Rattle.std.specs.Str.{bytes_eq};
ghost use Rattle.set_marks.specs.declared.outside.Ending.TheVariants.{CheckSights};
ghost use Rattle.set_marks.specs.Divisions.{is_of, first_target, seconds_of};
ghost use Rattle.set_marks.specs.Outside.{are_among, are_sights_to, are_plain, sighted_before};
ghost use Rattle.set_marks.specs.Outside.{may_lead, may_precede, surplus, last_of};
ghost use Rattle.set_marks.specs.Outside.{all_but, in_ending, before_ending, is_ended, may_end};
ghost use Rattle.set_marks.specs.Outside.{may_follow};
ghost use Rattle.set_marks.specs.Searching.{ends_in_one, seems_ended};

use crate::bounds::{FEW_LEADING, READINGS_OF_TWO};
use crate::division::{are_by_targets, first_cut, rest_after};
use crate::set::{
    again_in, are_alike, are_in_face, are_of, begins_with_pair, first_target, front, is_by_targets,
    reads_target,
};
use crate::sight::Sight;

/// With what the readings of a station end that are no details, after its last set.
#[derive(Clone, Copy, Debug, PartialEq, Eq, Drop)]
pub enum Ending {
    /// Nothing is read to see that the instrument stood.
    Nothing,
    /// Check sights in face I: as many as there are more readings in face I than in face II.
    CheckSights,
    /// The target that opens the sets once more, in both faces.
    CheckPair,
}

/// Whether each of these readings is of a target that the others have.
fn are_among(others: &[Sight], sights: &[Sight]) -> bool
    ensures { result ≡ are_among others.now sights.now }
{
    sights
        .iter()
        .all(|sight| reads_target(others, &sight.target))
}

/// Whether these are sights to the targets of a set: pairs, each of another.
fn are_sights_to(set: &[Sight], sights: &[Sight]) -> bool
    ensures { result ≡ are_sights_to set.now sights.now }
{
    is_by_targets(sights)
        && again_in(sights).is_none()
        && set.len() > READINGS_OF_TWO
        && !are_by_targets(set)
        && are_among(set, sights)
}

/// Whether any number of these readings may stand before sets of which this is the first.
fn are_plain(set: &[Sight], sights: &[Sight]) -> bool
    ensures { result ≡ are_plain set.now sights.now }
{
    are_in_face(false, sights) || are_sights_to(set, sights)
}

/// The readings of the targets that may be sighted before a single set.
fn sighted_before(set: &[Sight]) -> &[Sight]
    ensures { result.now ≡ sighted_before set.now }
{
    if set.len() <= READINGS_OF_TWO {
        front(1, set)
    } else {
        set
    }
}

/// Whether all are of the target of the first.
fn are_of_one(sights: &[Sight]) -> bool
    ensures { result ≡ list_all (is_of (first_target sights.now)) sights.now }
{
    match first_target(sights) {
        Some(first) => are_of(&first, sights),
        None => true,
    }
}

/// Whether these readings, which are no details, may stand before a single set at this place.
fn may_lead(set: &[Sight], leading: &[Sight], place: usize) -> bool
    ensures { result ≡ may_lead set.now leading.now place }
{
    are_among(sighted_before(set), leading)
        && (are_plain(set, leading) || are_of_one(leading))
        && place <= leading.len()
}

/// Whether these readings may stand before sets that begin at these places of the next, at this
/// place of the station.
pub(crate) fn may_precede(starts: &[usize], sets: &[Sight], leading: &[Sight], place: usize) -> bool
    ensures { result ≡ may_precede starts.now sets.now leading.now place }
{
    (leading.len() <= FEW_LEADING || are_plain(first_cut(starts, sets), leading))
        && (2 <= starts.len() || may_lead(sets, leading, place))
}

/// How many of these readings are in face II.
fn count_seconds(sights: &[Sight]) -> usize
    ensures value { result ≡ length (seconds_of sights.now) }
    ensures bound { result ≤ length sights.now }
{
    let mut count = 0;
    let mut left = sights;
    'sights: while let Some((sight, rest)) = left.split_first() {
        if sight.second {
            count += 1;
        }
        left = rest;
    }
    count
}

/// How many more of these readings are in face I than in face II.
#[tactic(auto, using(crate::proofs::Endings::counted_surplus))]
fn surplus(sights: &[Sight]) -> usize
    ensures { result ≡ surplus sights.now }
{
    let seconds = count_seconds(sights);
    (sights.len() - seconds).saturating_sub(seconds)
}

/// The last so many of these readings.
fn last_of(count: usize, sights: &[Sight]) -> &[Sight]
    ensures { result.now ≡ last_of count sights.now }
{
    rest_after(sights.len().saturating_sub(count), sights)
}

/// Those before them.
fn all_but(count: usize, sights: &[Sight]) -> &[Sight]
    ensures { result.now ≡ all_but count sights.now }
{
    front(sights.len().saturating_sub(count), sights)
}

/// The readings of an ending.
pub(crate) fn in_ending(ending: Ending, sights: &[Sight]) -> &[Sight]
    ensures { result.now ≡ in_ending ending sights.now }
{
    match ending {
        Ending::Nothing => &[],
        Ending::CheckSights => last_of(surplus(sights), sights),
        Ending::CheckPair => last_of(2, sights),
    }
}

/// Those before it.
pub(crate) fn before_ending(ending: Ending, sights: &[Sight]) -> &[Sight]
    ensures { result.now ≡ before_ending ending sights.now }
{
    match ending {
        Ending::Nothing => sights,
        Ending::CheckSights => all_but(surplus(sights), sights),
        Ending::CheckPair => all_but(2, sights),
    }
}

/// Whether the last of these readings is in face I. Without it no check sights end them.
#[tactic(auto, using(crate::proofs::Endings::last_in_one))]
pub(crate) fn ends_in_one(sights: &[Sight]) -> bool
    ensures { result ≡ ends_in_one sights.now }
{
    match sights.split_last() {
        Some((last, _)) => !last.second,
        None => false,
    }
}

/// Whether check sights end these readings.
#[tactic(auto, using(crate::proofs::Endings::no_checks))]
fn ends_with_checks(sights: &[Sight]) -> bool
    ensures { result ≡ is_ended CheckSights sights.now }
{
    if !ends_in_one(sights) {
        return false;
    }
    let more = surplus(sights);
    0 < more && more < sights.len() && are_in_face(false, last_of(more, sights))
}

/// Whether these readings end so.
pub(crate) fn is_ended(ending: Ending, sights: &[Sight]) -> bool
    ensures { result ≡ is_ended ending sights.now }
{
    match ending {
        Ending::Nothing => true,
        Ending::CheckSights => ends_with_checks(sights),
        Ending::CheckPair => 2 < sights.len() && begins_with_pair(last_of(2, sights)),
    }
}

/// Whether the last of these readings may be this ending, whatever number of them leads.
pub(crate) fn seems_ended(ending: Ending, sights: &[Sight]) -> bool
    ensures { result ≡ seems_ended ending sights.now }
{
    match ending {
        Ending::Nothing => true,
        Ending::CheckSights => ends_in_one(sights),
        Ending::CheckPair => begins_with_pair(last_of(2, sights)),
    }
}

/// Whether both begin with one target.
fn begin_alike(a: &[Sight], b: &[Sight]) -> bool
    ensures { result ≡ bytes_eq (first_target a.now) (first_target b.now) }
{
    are_alike(first_target(a), first_target(b))
}

/// Whether this ending may stand after such sets.
pub(crate) fn may_end(ending: Ending, sets: &[Sight], ended: &[Sight]) -> bool
    ensures { result ≡ may_end ending sets.now ended.now }
{
    match ending {
        Ending::Nothing | Ending::CheckSights => true,
        Ending::CheckPair => !are_by_targets(sets) && begin_alike(ended, sets),
    }
}

/// Whether it may stand at all after sets of which this is the first.
pub(crate) fn may_follow(ending: Ending, first: &[Sight], apart: bool) -> bool
    ensures { result ≡ may_follow ending first.now apart }
{
    match ending {
        Ending::Nothing => true,
        Ending::CheckSights | Ending::CheckPair => first.len() > READINGS_OF_TWO || apart,
    }
}
