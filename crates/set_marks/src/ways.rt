//! The ways to divide a station's readings into sets: which readings lead, and which end them.
//!
//! `sights` are all readings of the station, `rest` those that are no details; the targets that are
//! known are those that it reads in face II.

ghost use Rattle.std.specs.Prelude.{◌≡◌, ◌<◌, ◌+◌, ◌∷◌, [], IfOk, length};
ghost use Rattle.std.specs.Bool.{OnFalse};
ghost use Rattle.set_marks.specs.declared.outside.Ending.TheVariants.{Nothing};
ghost use Rattle.job_statements.specs.declared.stated.Numbers.{Numbers};
ghost use Rattle.set_marks.specs.Searching.{KnowsTargetsOf, IsClosed, IsFound, may_divide};
ghost use Rattle.set_marks.specs.Searching.{may_be_plain, may_open, turns_next};
ghost use Rattle.set_marks.specs.Divisions.{starts_of, seconds_of, rest_of, later, begins_in_two};
ghost use Rattle.set_marks.specs.Ways.{detail_between, cut_flaw, is_no_end, flaw_after, flaw_of};
ghost use Rattle.set_marks.specs.Ways.{is_division, latest_flaw, leading_of, is_given_up, kept};
ghost use Rattle.set_marks.specs.Ways.{given_up, no_way_flaw, divided_by, ways_of};

use crate::bounds::{FEW_LEADING, MOST_READINGS};
use crate::details::{place_of, unknown_in};
use crate::division::{
    Divided, cut_end, divide_after, divided_unless, few_starts, first_cut, rest_after, sets_flaw,
};
use crate::fault::MarkKind;
use crate::flaw::{Flaw, first_flaw, flaw_at, flaw_found, flaw_when};
use crate::known::Known;
use crate::outside::{
    Ending, before_ending, ends_in_one, in_ending, is_ended, may_end, may_follow, may_precede,
    seems_ended,
};
use crate::set::{are_in_face, front, is_by_targets, is_of, is_pair, sight_at};
use crate::sight::Sight;
use crate::span::Span;
use crate::starts::starts_of;
use job_statements::Numbers;
use std::alloc::{AllocError, Global};

/// The first detail among so many of a station's readings from this place on.
#[tactic(auto, using(crate::proofs::SameSets::detail_among))]
fn detail_in(known: &mut Known, sights: &[Sight], place: usize, count: usize) -> Option<Sight>
    requires known { KnowsTargetsOf (seconds_of sights.now) known.old }
    ensures value { result ≡ detail_between sights.now place (place + count) }
    ensures unchanged { known.new ≡ known.old }
{
    unknown_in(known, front(count, rest_after(place, sights)))
}

/// What is wrong first with the sets of these readings that are no details.
///
/// They begin at this place of all readings of the station, after these leading ones that are no
/// details either.
fn cut_flaw(
    alloc: Global,
    known: &mut Known,
    sights: &[Sight],
    leading: &[Sight],
    place: usize,
    sets: &[Sight],
) -> Result<Option<Flaw>, AllocError>
    requires known { KnowsTargetsOf (seconds_of sights.now) known.old }
    ensures value { IfOk result (λ o. o
        ≡ cut_flaw sights.now leading.now place (starts_of sets.now) sets.now) }
    ensures unchanged { known.new ≡ known.old }
{
    let starts = few_starts(alloc, sets)?;
    if let Some(flaw) = sets_flaw(alloc, &starts, sets)? {
        return Ok(Some(flaw));
    }
    let end = cut_end(alloc, &starts, sets)?;
    let detail = detail_in(known, sights, place, end);
    let among = flaw_found(MarkKind::FaceMissing, detail.as_ref());
    let stands = may_precede(&starts, sets, leading, place);
    let before = flaw_when(!stands, MarkKind::OneSet, sight_at(sets, 0));
    Ok(first_flaw(None, among, before))
}

/// Whether the ending may not stand after these sets, which begin at this place of all readings.
fn is_no_end(
    alloc: Global,
    known: &mut Known,
    sights: &[Sight],
    place: usize,
    ending: Ending,
    sets: &[Sight],
    ended: &[Sight],
) -> Result<bool, AllocError>
    requires known { KnowsTargetsOf (seconds_of sights.now) known.old }
    ensures value { IfOk result
        (λ b. b ≡ is_no_end sights.now place ending sets.now ended.now) }
    ensures unchanged { known.new ≡ known.old }
{
    if let Ending::Nothing = ending {
        return Ok(false);
    }
    if !may_end(ending, sets, ended) {
        return Ok(true);
    }
    let starts = starts_of(alloc, sets)?;
    // The first reading of the ending stands right after the sets unless a detail does.
    let apart = detail_in(known, sights, place, sets.len() + 1).is_some();
    Ok(!may_follow(ending, first_cut(&starts, sets), apart))
}

/// What is wrong first where these readings lead, and the others, which begin at this place of all,
/// are sets and this ending.
fn flaw_after(
    alloc: Global,
    ending: Ending,
    known: &mut Known,
    sights: &[Sight],
    leading: &[Sight],
    place: usize,
    after: &[Sight],
) -> Result<Option<Flaw>, AllocError>
    requires known { KnowsTargetsOf (seconds_of sights.now) known.old }
    ensures value { IfOk result
        (λ o. o ≡ flaw_after ending sights.now leading.now place after.now) }
    ensures unchanged { known.new ≡ known.old }
{
    if !is_ended(ending, after) {
        return Ok(Some(flaw_at(MarkKind::OneTarget, None)));
    }
    let sets = before_ending(ending, after);
    if let Some(flaw) = cut_flaw(alloc, known, sights, leading, place, sets)? {
        return Ok(Some(flaw));
    }
    let ended = in_ending(ending, after);
    let is_none = is_no_end(alloc, known, sights, place, ending, sets, ended)?;
    Ok(flaw_when(is_none, MarkKind::OneTarget, sight_at(ended, 0)))
}

/// What is wrong first where so many readings lead, and nothing ends the sets.
fn flaw_of(
    alloc: Global,
    known: &mut Known,
    sights: &[Sight],
    rest: &[Sight],
    leading: usize,
) -> Result<Option<Flaw>, AllocError>
    requires known { KnowsTargetsOf (seconds_of sights.now) known.old }
    requires rest { rest.now ≡ rest_of sights.now }
    ensures value { IfOk result (λ o. o ≡ flaw_of Nothing sights.now leading) }
    ensures unchanged { known.new ≡ known.old }
{
    if rest.len() <= leading {
        return Ok(Some(flaw_at(MarkKind::OneSet, None)));
    }
    let place = place_of(known, leading, sights);
    let before = front(leading, rest);
    let after = rest_after(leading, rest);
    flaw_after(alloc, Ending::Nothing, known, sights, before, place, after)
}

/// Whether these leading readings are few, or all in face I, or pairs.
fn may_be_plain(leading: &[Sight]) -> bool
    ensures { result ≡ may_be_plain leading.now }
{
    leading.len() <= FEW_LEADING || are_in_face(false, leading) || is_by_targets(leading)
}

/// Whether the next reading of the same target is in the other face.
fn turns_next(sight: &Sight, later: &[Sight]) -> bool
    ensures { result ≡ turns_next sight.now later.now }
{
    let mut left = later;
    'sights: while let Some((other, rest)) = left.split_first() {
        if is_of(&sight.target, other) {
            return is_pair(sight, other);
        }
        left = rest;
    }
    false
}

/// Whether a set may open with the first of these readings: so none is looked for where single
/// sights lead to targets that are sighted again.
fn may_open(after: &[Sight]) -> bool
    ensures { result ≡ may_open after.now }
{
    match front(MOST_READINGS, after).split_first() {
        Some((opening, later)) => turns_next(opening, later),
        None => false,
    }
}

/// Whether there may be sets after these leading readings, with this ending: they are looked for
/// only then. What is seen in the fewest steps is asked first.
fn may_divide(ending: Ending, leading: &[Sight], after: &[Sight]) -> bool
    ensures { result ≡ may_divide ending leading.now after.now }
{
    match ending {
        Ending::Nothing => may_be_plain(leading) && may_open(after),
        Ending::CheckSights => {
            ends_in_one(after)
                && may_be_plain(leading)
                && may_open(after)
                && is_ended(ending, after)
        }
        Ending::CheckPair => {
            let sets = before_ending(ending, after);
            is_ended(ending, after)
                && may_end(ending, sets, in_ending(ending, after))
                && may_be_plain(leading)
                && may_open(after)
        }
    }
}

/// Whether there may be sets with this ending after any number of leading readings.
pub(crate) fn is_open_somewhere(ending: Ending, rest: &[Sight]) -> bool
    ensures { OnFalse result (IsClosed ending rest.now) }
{
    if !seems_ended(ending, rest) {
        return false;
    }
    let mut leading = 0;
    'tries: while leading < rest.len() && leading <= MOST_READINGS {
        if may_divide(ending, front(leading, rest), rest_after(leading, rest)) {
            return true;
        }
        leading += 1;
    }
    false
}

/// Whether there are sets with this ending after so many leading readings.
#[tactic(auto, using(crate::proofs::Tries::closed_at, crate::proofs::Tries::open_at))]
fn is_division(
    alloc: Global,
    ending: Ending,
    known: &mut Known,
    sights: &[Sight],
    rest: &[Sight],
    leading: usize,
) -> Result<bool, AllocError>
    requires known { KnowsTargetsOf (seconds_of sights.now) known.old }
    requires rest { rest.now ≡ rest_of sights.now }
    requires few { leading < length rest.now }
    ensures value { IfOk result (λ b. b ≡ is_division ending sights.now leading) }
    ensures unchanged { known.new ≡ known.old }
{
    let before = front(leading, rest);
    let after = rest_after(leading, rest);
    if !may_divide(ending, before, after) {
        return Ok(false);
    }
    let place = place_of(known, leading, sights);
    let flaw = flaw_after(alloc, ending, known, sights, before, place, after)?;
    Ok(flaw.is_none())
}

/// The fewest leading readings with which this ending gives sets.
#[tactic(auto, using(crate::proofs::Tries::found_leading, crate::proofs::Tries::found_none))]
fn leading_of(
    alloc: Global,
    ending: Ending,
    known: &mut Known,
    sights: &[Sight],
    rest: &[Sight],
) -> Result<Option<usize>, AllocError>
    requires known { KnowsTargetsOf (seconds_of sights.now) known.old }
    requires rest { rest.now ≡ rest_of sights.now }
    ensures value { IfOk result (λ o. o ≡ leading_of ending sights.now) }
    ensures unchanged { known.new ≡ known.old }
{
    if !seems_ended(ending, rest) {
        return Ok(None);
    }
    let mut leading = 0;
    'tries: while leading < rest.len() && leading <= MOST_READINGS {
        if is_division(alloc, ending, known, sights, rest, leading)? {
            return Ok(Some(leading));
        }
        leading += 1;
    }
    Ok(None)
}

/// Of two, what is wrong later in the file.
fn later(a: Option<Flaw>, b: Option<Flaw>) -> Option<Flaw>
    ensures { result ≡ later a b }
{
    match (a, b) {
        (Some(a), Some(b)) => Some(if a.block < b.block { b } else { a }),
        (Some(a), None) => Some(a),
        (None, b) => b,
    }
}

/// What comes latest with nothing at the end and up to three leading readings.
fn latest_flaw(
    alloc: Global,
    known: &mut Known,
    sights: &[Sight],
    rest: &[Sight],
) -> Result<Option<Flaw>, AllocError>
    requires known { KnowsTargetsOf (seconds_of sights.now) known.old }
    requires rest { rest.now ≡ rest_of sights.now }
    ensures { IfOk result (λ o. o ≡ latest_flaw sights.now) }
{
    let none = flaw_of(alloc, known, sights, rest, 0)?;
    let one = flaw_of(alloc, known, sights, rest, 1)?;
    let two = flaw_of(alloc, known, sights, rest, 2)?;
    let three = flaw_of(alloc, known, sights, rest, 3)?;
    Ok(later(later(later(none, one), two), three))
}

/// Whether the first reading is in face II.
fn begins_in_two(sights: &[Sight]) -> bool
    ensures { result ≡ begins_in_two sights.now }
{
    match sights.first() {
        Some(sight) => sight.second,
        None => false,
    }
}

/// Whether an ending is given up that gives sets after so many leading readings.
fn is_given_up(rest: &[Sight], leading: usize) -> bool
    ensures { result ≡ is_given_up rest.now leading }
{
    0 < leading && begins_in_two(rest_after(leading, rest))
}

/// So many leading readings, unless the ending is given up with them.
fn kept(rest: &[Sight], leading: Option<usize>) -> Option<usize>
    ensures { result ≡ kept rest.now leading }
{
    match leading {
        Some(leading) => {
            if is_given_up(rest, leading) {
                None
            } else {
                Some(leading)
            }
        }
        None => None,
    }
}

/// What is wrong where it is given up.
fn given_up(rest: &[Sight], leading: Option<usize>) -> Option<Flaw>
    ensures { result ≡ given_up rest.now leading }
{
    match leading {
        Some(leading) => flaw_when(
            is_given_up(rest, leading),
            MarkKind::FirstFace,
            sight_at(rest, leading),
        ),
        None => None,
    }
}

/// The fewest leading readings with which each ending gives sets.
#[derive(Clone, Copy, Drop)]
struct Found {
    nothing: Option<usize>,
    checks: Option<usize>,
    pair: Option<usize>,
}

/// They are looked for.
fn find(
    alloc: Global,
    known: &mut Known,
    sights: &[Sight],
    rest: &[Sight],
) -> Result<Found, AllocError>
    requires known { KnowsTargetsOf (seconds_of sights.now) known.old }
    requires rest { rest.now ≡ rest_of sights.now }
    ensures value { IfOk result (IsFound sights.now) }
    ensures unchanged { known.new ≡ known.old }
{
    Ok(Found {
        nothing: leading_of(alloc, Ending::Nothing, known, sights, rest)?,
        checks: leading_of(alloc, Ending::CheckSights, known, sights, rest)?,
        pair: leading_of(alloc, Ending::CheckPair, known, sights, rest)?,
    })
}

/// What is wrong where no ending gives sets.
fn no_way_flaw(
    alloc: Global,
    known: &mut Known,
    sights: &[Sight],
    rest: &[Sight],
    found: Found,
) -> Result<Option<Flaw>, AllocError>
    requires known { KnowsTargetsOf (seconds_of sights.now) known.old }
    requires rest { rest.now ≡ rest_of sights.now }
    requires found { IsFound sights.now found }
    ensures { IfOk result (λ o. o ≡ no_way_flaw sights.now) }
{
    let pair = given_up(rest, found.pair);
    let checks = given_up(rest, found.checks);
    let nothing = given_up(rest, found.nothing);
    if let Some(flaw) = first_flaw(pair, checks, nothing) {
        return Ok(Some(flaw));
    }
    latest_flaw(alloc, known, sights, rest)
}

/// The sets of one way, unless there is a doubt about them.
fn divide_by(
    alloc: Global,
    stated: Numbers,
    known: &mut Known,
    sights: &[Sight],
    rest: &[Sight],
    ending: Ending,
    leading: usize,
) -> Result<Divided, AllocError>
    requires known { KnowsTargetsOf (seconds_of sights.now) known.old }
    requires rest { rest.now ≡ rest_of sights.now }
    ensures { IfOk result (λ d. d ≡ divided_by stated sights.now
        (record { ending = ending; leading = leading } ∷ [])) }
{
    let from = place_of(known, leading, sights);
    let after = rest_after(leading, rest);
    let sets = before_ending(ending, after);
    divide_after(alloc, stated, front(leading, rest), from, sets, after)
}

/// What a station's readings are that has sets, or should have.
pub(crate) fn divide_rest(
    alloc: Global,
    stated: Numbers,
    known: &mut Known,
    sights: &[Sight],
    rest: &[Sight],
) -> Result<Divided, AllocError>
    requires known { KnowsTargetsOf (seconds_of sights.now) known.old }
    requires rest { rest.now ≡ rest_of sights.now }
    ensures { IfOk result (λ d. d ≡ divided_by stated sights.now (ways_of sights.now)) }
{
    let found = find(alloc, known, sights, rest)?;
    let nothing = kept(rest, found.nothing);
    let checks = kept(rest, found.checks);
    let pair = kept(rest, found.pair);
    match (nothing, checks, pair) {
        (Some(leading), None, None) => {
            divide_by(alloc, stated, known, sights, rest, Ending::Nothing, leading)
        }
        (None, Some(leading), None) => {
            divide_by(
                alloc,
                stated,
                known,
                sights,
                rest,
                Ending::CheckSights,
                leading,
            )
        }
        (None, None, Some(leading)) => {
            divide_by(
                alloc,
                stated,
                known,
                sights,
                rest,
                Ending::CheckPair,
                leading,
            )
        }
        (None, None, None) => {
            let flaw = no_way_flaw(alloc, known, sights, rest, found)?;
            Ok(divided_unless(flaw, Span { from: 0, to: 0 }))
        }
        (Some(leading), _, _) | (None, Some(leading), Some(_)) => {
            Ok(Divided::Flawed(flaw_at(MarkKind::MayBeShifted, sight_at(rest, leading))))
        }
    }
}
