//! The division of a station's readings into sets.

ghost use Rattle.std.specs.Prelude.{◌≡◌, ◌≤◌, ◌<◌, ◌+◌, ◌^◌, [], IfOk, IfSome, List, None, length};
ghost use Rattle.std.specs.Prelude.{not, true, ◌&&◌, ◌==◌, drop, is_none, take};
ghost use Rattle.std.specs.Bool.{OnFalse, OnTrue};
ghost use Rattle.std.specs.List.{list_any};
ghost use Rattle.adjust_kernel.specs.declared.bounds.TheConstants.{MOST_SETS};
ghost use Rattle.set_marks.specs.declared.fault.MarkKind.TheVariants.{OtherTargets};
ghost use Rattle.set_marks.specs.declared.sight.Sight.{Sight};
ghost use Rattle.job_statements.specs.declared.stated.Numbers.{Numbers};
ghost use Rattle.set_marks.specs.Searching.{KnowsTargetsOf, NoneOpen};
ghost use Rattle.set_marks.specs.Divisions.{part, next_of, end_of, cut_end, starts_of};
ghost use Rattle.set_marks.specs.Divisions.{first_cut, first_part, sets_flaw, parts_at, flaw_found};
ghost use Rattle.set_marks.specs.Divisions.{targets_of, are_by_targets, known_in};
ghost use Rattle.set_marks.specs.Divisions.{is_mostly_known, divided_unless, seconds_of, span_from};
ghost use Rattle.set_marks.specs.Doubts.{may_be_shifted, reads_end, leads_to_end, leads_within, may_go_on};
ghost use Rattle.set_marks.specs.Doubts.{has_lone_second, may_have_gone_on, stranger_among};
ghost use Rattle.set_marks.specs.Doubts.{numbers_flaw, doubt_after};
ghost use Rattle.set_marks.specs.Ways.{divided, divided_by, ways_of};
ghost use Rattle.job_statements.specs.Numbers.{is_another};

use crate::bounds::{MOST_READINGS, READINGS_OF_TWO};
use crate::details::{few_seconds, has_no_sets, known_in, unknown_in};
use crate::fault::MarkKind;
use crate::flaw::{Flaw, flaw_at, flaw_found};
use crate::known::{Known, count_targets};
use crate::outside::Ending;
use crate::set::{
    begins_with_pair, first_target, front, has_pair, has_second, is_by_targets, is_of, last_target,
    later_flaw, reads_target, repeats, set_flaw, sight_at,
};
use crate::sight::Sight;
use crate::span::Span;
use crate::starts::{starts, starts_of};
use crate::ways::{divide_rest, is_open_somewhere};
use adjust_kernel::MOST_SETS;
use job_statements::{Numbers, is_another, is_asked};
use std::alloc::{AllocError, Global};

/// What a station's readings are.
#[derive(Clone, Copy, Debug, PartialEq, Eq, Drop)]
pub enum Divided {
    /// None in face II, or a sight back in both faces and detail: there are no sets.
    NoSets,
    /// Sets, and where they stand.
    Sets(Span),
    /// Something is wrong.
    Flawed(Flaw),
}

/// The readings after the first so many.
pub(crate) fn rest_after(count: usize, sights: &[Sight]) -> &[Sight]
    ensures { result.now ≡ drop count sights.now }
{
    if count < sights.len() {
        &sights[count..]
    } else {
        &[]
    }
}

/// The readings from one place up to another.
pub(crate) fn part(from: usize, to: usize, sights: &[Sight]) -> &[Sight]
    ensures { result.now ≡ part from to sights.now }
{
    front(to.saturating_sub(from), rest_after(from, sights))
}

/// After the last of these readings whose target is known: it is looked for from the end.
fn end_of(known: &mut Known, sights: &[Sight]) -> usize
    ensures value { (sets : List Sight) → KnowsTargetsOf sets known.old
        → result ≡ end_of sets sights.now }
    ensures bound { result ≤ length sights.now }
{
    let mut left = sights;
    'sights: while let Some((sight, before)) = left.split_last() {
        if known.has(&sight.target) {
            return left.len();
        }
        left = before;
    }
    0
}

/// Whether the last of these readings is of a target that the first set has. Then the last set ends
/// with it, and no table of the targets is needed.
fn ends_known(sets: &[Sight], sights: &[Sight]) -> bool
    ensures { OnTrue result (end_of sets.now sights.now ≡ length sights.now) }
{
    match sights.split_last() {
        Some((last, _)) => reads_target(front(MOST_READINGS, sets), &last.target),
        None => false,
    }
}

/// The last of some places.
// It calls itself once for each set, of which there are at most 40.
fn last_place(places: &[usize]) -> usize
    ensures { result ≡ Rattle.set_marks.specs.Divisions.last_place places.now }
{
    match places {
        [] => 0,
        [at] => *at,
        [_, rest @ ..] => last_place(rest),
    }
}

/// After the last reading of a target that the others have.
fn end_after(alloc: Global, others: &[Sight], sights: &[Sight]) -> Result<usize, AllocError>
    ensures value { IfOk result (λ end. end ≡ end_of others.now sights.now) }
    ensures bound { IfOk result (λ end. end ≤ length sights.now) }
{
    if ends_known(others, sights) {
        return Ok(sights.len());
    }
    let mut known = Known::of(alloc, others)?;
    Ok(end_of(&mut known, sights))
}

/// Where the last set ends of readings that are no details.
pub(crate) fn cut_end(
    alloc: Global,
    starts: &[usize],
    sights: &[Sight],
) -> Result<usize, AllocError>
    ensures value { IfOk result (λ end. end ≡ cut_end starts.now sights.now) }
    ensures bound { IfOk result (λ end. end ≤ length sights.now) }
{
    match starts {
        [] | [_] => Ok(sights.len()),
        [_, rest @ ..] => end_after(alloc, front(last_place(rest), sights), sights),
    }
}

/// The readings of the first set that begins at these places.
pub(crate) fn first_cut<'a>(starts: &[usize], sights: &'a [Sight]) -> &'a [Sight]
    ensures cut { result.now ≡ first_cut starts.now sights.now }
    ensures whole { result.now ≡ first_part (length sights.now) starts.now sights.now }
{
    match starts {
        [] => &[],
        [from] => part(*from, sights.len(), sights),
        [from, to, ..] => part(*from, *to, sights),
    }
}

/// Where a set ends: where the next begins, or, of the last, where that one ends.
fn end_of_set(
    alloc: Global,
    later: &[usize],
    starts: &[usize],
    sights: &[Sight],
) -> Result<usize, AllocError>
    ensures { IfOk result (λ to. to ≡ next_of (cut_end starts.now sights.now) later.now) }
{
    match later {
        [] => cut_end(alloc, starts, sights),
        [to, ..] => Ok(*to),
    }
}

/// What is wrong first in the sets that begin at these places.
///
/// Where the last of them ends is asked only once the sets before it are known to be sets, for it
/// takes a step for each of their targets and each reading after them.
#[tactic(auto, using(crate::proofs::Few::next_flaw))]
pub(crate) fn sets_flaw(
    alloc: Global,
    starts: &[usize],
    sights: &[Sight],
) -> Result<Option<Flaw>, AllocError>
    ensures { IfOk result (λ o. o ≡ sets_flaw (first_cut starts.now sights.now) 0
        (cut_end starts.now sights.now) starts.now sights.now) }
{
    if starts.is_empty() {
        return Ok(None);
    }
    let first = first_cut(starts, sights);
    if let Some(flaw) = set_flaw(alloc, first, first)? {
        return Ok(Some(flaw));
    }
    let mut count = 0;
    let mut left = starts;
    'sets: while let Some((from, rest)) = left.split_first() {
        if count >= MOST_SETS {
            let opening = sight_at(sights, *from);
            return Ok(Some(flaw_at(MarkKind::TooManySets, opening)));
        }
        let to = end_of_set(alloc, rest, starts, sights)?;
        if let Some(flaw) = later_flaw(alloc, first, part(*from, to, sights))? {
            return Ok(Some(flaw));
        }
        count += 1;
        left = rest;
    }
    Ok(None)
}

/// Where the first sets of readings that are no details begin: one more than a station may have
/// tells that it has too many.
pub(crate) fn few_starts(alloc: Global, sights: &[Sight]) -> Result<Vec<usize>, AllocError>
    ensures { IfOk result
        (λ starts. starts.items ≡ take (MOST_SETS + 1) (starts_of sights.now)) }
{
    match sights.first() {
        Some(opening) => {
            let few = starts(alloc, &opening.target, sights, MOST_SETS + 1)?;
            Ok(few)
        }
        None => Ok(Vec::new(alloc)),
    }
}

/// Whether one of these few readings is in face II, and none of them is its pair.
fn has_lone_second(sights: &[Sight]) -> bool
    ensures { result ≡ has_lone_second sights.now }
{
    sights.iter().any(|r| r.second && !has_pair(r, sights))
}

/// Whether one of the leading readings is of the target that ends the set and doesn't begin it.
fn reads_end(leading: &[Sight], set: &[Sight]) -> bool
    ensures { result ≡ reads_end leading.now set.now }
{
    match (last_target(set), first_target(set)) {
        (Some(last), Some(first)) => !last.is_same(&first) && reads_target(leading, &last),
        _ => false,
    }
}

/// Whether a set that is read by targets may be shifted by the leading readings.
fn leads_to_end(leading: &[Sight], set: &[Sight]) -> bool
    ensures { result ≡ leads_to_end leading.now set.now }
{
    reads_end(leading, set)
        && is_by_targets(set)
        && (set.len() <= READINGS_OF_TWO || has_second(leading))
}

/// Whether one of the leading readings is in face II, and of a target of the sets that doesn't begin
/// them.
#[tactic(auto, using(crate::proofs::Within::none_within))]
fn leads_within(leading: &[Sight], in_sets: &[Sight]) -> bool
    ensures { result ≡ leads_within leading.now in_sets.now }
{
    match first_target(in_sets) {
        Some(opening) => leading.iter().any(|sight| {
            sight.second && !is_of(&opening, sight) && reads_target(in_sets, &sight.target)
        }),
        None => false,
    }
}

/// Whether the sets, of which this is the first, may be shifted by the leading readings.
fn may_be_shifted(leading: &[Sight], set: &[Sight], in_sets: &[Sight]) -> bool
    ensures { result ≡ may_be_shifted leading.now set.now in_sets.now }
{
    has_lone_second(leading)
        || leads_to_end(leading, set)
        || is_by_targets(set) && leads_within(leading, in_sets)
}

/// Whether the sets that these readings are were read by targets.
pub(crate) fn are_by_targets(sights: &[Sight]) -> bool
    ensures { result ≡ are_by_targets sights.now }
{
    begins_with_pair(sights)
}

/// Whether sets that were read by targets, of which the last ends at this place, are followed by a
/// target in both faces.
fn may_go_on(end: usize, sets: &[Sight], sights: &[Sight]) -> bool
    requires { end ≡ cut_end (starts_of sets.now) sets.now }
    ensures { result ≡ may_go_on sets.now sights.now }
{
    are_by_targets(sets) && begins_with_pair(rest_after(end, sights))
}

/// Whether sets that were read by targets, of which the last ends at this place, are followed by a
/// reading in face II.
fn may_have_gone_on(end: usize, sets: &[Sight], sights: &[Sight]) -> bool
    requires { end ≡ cut_end (starts_of sets.now) sets.now }
    ensures { result ≡ may_have_gone_on sets.now sights.now }
{
    are_by_targets(sets) && has_second(rest_after(end, sights))
}

/// How many of these readings are of targets that are known.
fn count_known(known: &mut Known, set: &[Sight]) -> usize
    ensures known { (first : List Sight) → KnowsTargetsOf first known.old
        → result ≡ length (known_in first set.now) }
    ensures bound { result ≤ length set.now }
    ensures unchanged { known.new ≡ known.old }
{
    let mut count = 0;
    let mut left = set;
    'sights: while let Some((sight, rest)) = left.split_first() {
        if known.has(&sight.target) {
            count += 1;
        }
        left = rest;
    }
    count
}

/// Whether a set repeats the first. Then all its targets are targets of the first.
fn repeats_first(first: &[Sight], set: &[Sight]) -> bool
    ensures { OnTrue result (is_mostly_known first.now set.now ≡ true) }
{
    !set.is_empty() && repeats(first, set)
}

/// Whether most targets of a set are targets of the first, which are known.
fn is_mostly_known(first: &[Sight], known: &mut Known, set: &[Sight]) -> bool
    requires known { KnowsTargetsOf first.now known.old }
    ensures value { result ≡ is_mostly_known first.now set.now }
    ensures unchanged { known.new ≡ known.old }
{
    if repeats_first(first, set) {
        return true;
    }
    set.len() < 2 * count_known(known, set)
}

/// Whether all sets that begin at these places repeat the first. Then none has other targets.
fn all_repeat(
    alloc: Global,
    first: &[Sight],
    starts: &[usize],
    sights: &[Sight],
) -> Result<bool, AllocError>
    ensures { IfOk result (λ b. OnTrue b (stranger_among first.now
        (parts_at (cut_end starts.now sights.now) starts.now sights.now) ≡ None)) }
{
    let mut left = starts;
    'sets: while let Some((from, rest)) = left.split_first() {
        let to = end_of_set(alloc, rest, starts, sights)?;
        if !repeats_first(first, part(*from, to, sights)) {
            return Ok(false);
        }
        left = rest;
    }
    Ok(true)
}

/// The first set that has other targets than the first, by its first reading.
fn strangers_flaw(
    alloc: Global,
    starts: &[usize],
    sights: &[Sight],
) -> Result<Option<Flaw>, AllocError>
    ensures { IfOk result (λ o. o ≡ flaw_found OtherTargets
        (stranger_among (first_cut starts.now sights.now)
        (parts_at (cut_end starts.now sights.now) starts.now sights.now))) }
{
    let first = first_cut(starts, sights);
    // Mostly no table of its targets is needed.
    if all_repeat(alloc, first, starts, sights)? {
        return Ok(None);
    }
    let mut known = Known::of(alloc, first)?;
    let mut left = starts;
    'sets: while let Some((from, rest)) = left.split_first() {
        let to = end_of_set(alloc, rest, starts, sights)?;
        let set = part(*from, to, sights);
        if !is_mostly_known(first, &mut known, set) {
            return Ok(flaw_found(MarkKind::OtherTargets, sight_at(set, 0)));
        }
        left = rest;
    }
    Ok(None)
}

/// Whether there is a single set, and it is read by targets.
fn is_one_by_targets(starts: &[usize], sights: &[Sight]) -> bool
    requires { starts.now ≡ starts_of sights.now }
    ensures { result ≡ (are_by_targets sights.now && (length (starts_of sights.now) == 1)) }
{
    are_by_targets(sights) && starts.len() == 1
}

/// Whether another number of targets is stated than these readings have.
fn has_other_targets(
    alloc: Global,
    stated: Option<u32>,
    sights: &[Sight],
) -> Result<bool, AllocError>
    ensures { IfOk result (λ b. b ≡ is_another stated (length (targets_of sights.now))) }
{
    if stated.is_none() {
        return Ok(false);
    }
    Ok(is_another(stated, count_targets(alloc, sights)?))
}

/// What keeps sets that begin at these places, of which the last ends at this one, from being those
/// that are stated.
fn numbers_flaw(
    alloc: Global,
    stated: Numbers,
    starts: &[usize],
    end: usize,
    sights: &[Sight],
) -> Result<Option<Flaw>, AllocError>
    requires starts { starts.now ≡ starts_of sights.now }
    requires end { end ≡ cut_end (starts_of sights.now) sights.now }
    ensures { IfOk result (λ o. o ≡ numbers_flaw stated sights.now) }
{
    let first = sight_at(sights, 0);
    if is_another(stated.sets, starts.len()) {
        return Ok(Some(flaw_at(MarkKind::SetCount, first)));
    }
    if is_asked(is_one_by_targets(starts, sights), stated.targets) {
        return Ok(Some(flaw_at(MarkKind::ByTargets, first)));
    }
    if has_other_targets(alloc, stated.targets, part(0, end, sights))? {
        return Ok(Some(flaw_at(MarkKind::TargetCount, first)));
    }
    Ok(None)
}

/// The doubt about sets after these leading readings, and of which this is stated. They begin at
/// these places, and the last ends at this one; `sights` are they and all readings after them.
fn doubt_after(
    alloc: Global,
    stated: Numbers,
    leading: &[Sight],
    starts: &[usize],
    end: usize,
    sets: &[Sight],
    sights: &[Sight],
) -> Result<Option<Flaw>, AllocError>
    requires starts { starts.now ≡ starts_of sets.now }
    requires end { end ≡ cut_end (starts_of sets.now) sets.now }
    ensures { IfOk result (λ o. o ≡ doubt_after stated leading.now sets.now sights.now) }
{
    let first = sight_at(sets, 0);
    if may_be_shifted(leading, first_cut(starts, sets), part(0, end, sets)) {
        return Ok(Some(flaw_at(MarkKind::MayBeShifted, first)));
    }
    if is_asked(are_by_targets(sets), stated.sets) {
        return Ok(Some(flaw_at(MarkKind::ByTargets, first)));
    }
    if may_go_on(end, sets, sights) {
        return Ok(Some(flaw_at(MarkKind::PairAfter, sight_at(sights, end))));
    }
    if may_have_gone_on(end, sets, sights) {
        return Ok(Some(flaw_at(MarkKind::MayBeShifted, first)));
    }
    if let Some(flaw) = numbers_flaw(alloc, stated, starts, end, sets)? {
        return Ok(Some(flaw));
    }
    strangers_flaw(alloc, starts, sets)
}

/// The sets that stand here, unless they are refused.
pub(crate) fn divided_unless(flaw: Option<Flaw>, span: Span) -> Divided
    ensures { result ≡ divided_unless flaw span }
{
    match flaw {
        Some(flaw) => Divided::Flawed(flaw),
        None => Divided::Sets(span),
    }
}

/// Sets of readings that are no details, from this place of the station on and after these leading
/// ones, unless there is a doubt about them. They begin at these places, and the last ends at this
/// one; `sights` are they and all readings after them.
fn divide_at(
    alloc: Global,
    stated: Numbers,
    leading: &[Sight],
    from: usize,
    starts: &[usize],
    end: usize,
    sets: &[Sight],
    sights: &[Sight],
) -> Result<Divided, AllocError>
    requires fits { from + end < 2 ^ 64 }
    requires starts { starts.now ≡ starts_of sets.now }
    requires end { end ≡ cut_end (starts_of sets.now) sets.now }
    ensures { IfOk result (λ d. d ≡ divided_unless
        (doubt_after stated leading.now sets.now sights.now) (span_from from sets.now)) }
{
    let doubt = doubt_after(alloc, stated, leading, starts, end, sets, sights)?;
    let to = from + end;
    Ok(divided_unless(doubt, Span { from, to }))
}

/// The same, where it is to be found where they begin and end.
pub(crate) fn divide_after(
    alloc: Global,
    stated: Numbers,
    leading: &[Sight],
    from: usize,
    sets: &[Sight],
    sights: &[Sight],
) -> Result<Divided, AllocError>
    requires fits { from + length sets.now < 2 ^ 64 }
    ensures { IfOk result (λ d. d ≡ divided_unless
        (doubt_after stated leading.now sets.now sights.now) (span_from from sets.now)) }
{
    let starts = starts_of(alloc, sets)?;
    let end = cut_end(alloc, &starts, sets)?;
    divide_at(alloc, stated, leading, from, &starts, end, sets, sights)
}

/// Whether nothing is wrong with the sets that begin at these places.
fn are_sets(alloc: Global, starts: &[usize], sights: &[Sight]) -> Result<bool, AllocError>
    ensures { IfOk result (λ b. b ≡ is_none (sets_flaw (first_cut starts.now sights.now) 0
        (cut_end starts.now sights.now) starts.now sights.now)) }
{
    Ok(sets_flaw(alloc, starts, sights)?.is_none())
}

/// Where the sets of a station begin that take all its readings, if they do. Then none is a detail,
/// and none stands before them.
///
/// It is asked only where the last reading is of a target of the first half: else some readings
/// stand outside, or there is one set; and of a single set where the opening target is read in both
/// faces: else it leads.
fn starts_of_all(alloc: Global, sights: &[Sight]) -> Result<Option<Vec<usize>>, AllocError>
    ensures starts { IfOk result (λ o. IfSome o (λ starts. starts.items ≡ starts_of sights.now)) }
    ensures end { IfOk result
        (λ o. IfSome o (λ _. cut_end (starts_of sights.now) sights.now ≡ length sights.now)) }
    ensures whole { IfOk result (λ o. IfSome o (λ _. NoneOpen sights.now → (stated : Numbers)
        → divided_by stated sights.now (ways_of sights.now)
        ≡ divided_unless (doubt_after stated [] sights.now sights.now)
        (span_from 0 sights.now))) }
{
    let Some((last, _)) = sights.split_last() else {
        return Ok(None);
    };
    if !reads_target(front(sights.len() / 2, sights), &last.target) {
        return Ok(None);
    }
    let starts = few_starts(alloc, sights)?;
    if starts.len() == 1 && !has_pair(&sights[0], sights) {
        return Ok(None);
    }
    if !are_sets(alloc, &starts, sights)? {
        return Ok(None);
    }
    let end = cut_end(alloc, &starts, sights)?;
    if end != sights.len() {
        return Ok(None);
    }
    Ok(Some(starts))
}

/// Whether another ending than none may give sets too.
fn may_be_ended(sights: &[Sight]) -> bool
    ensures { OnFalse result (NoneOpen sights.now) }
{
    is_open_somewhere(Ending::CheckSights, sights) || is_open_somewhere(Ending::CheckPair, sights)
}

/// What a station's readings are whose sets take all of them, if they do.
fn divide_all(
    alloc: Global,
    stated: Numbers,
    sights: &[Sight],
) -> Result<Option<Divided>, AllocError>
    ensures { IfOk result (λ o. IfSome o
        (λ d. d ≡ divided_by stated sights.now (ways_of sights.now))) }
{
    let Some(starts) = starts_of_all(alloc, sights)? else {
        return Ok(None);
    };
    if may_be_ended(sights) {
        return Ok(None);
    }
    let end = sights.len();
    let divided = divide_at(alloc, stated, &[], 0, &starts, end, sights, sights)?;
    Ok(Some(divided))
}

/// What a station's readings are that has sets, or should have, where the targets are known that it
/// reads in face II.
#[tactic(auto, using(crate::proofs::AmongDetails::none_left_out))]
fn divide_known(
    alloc: Global,
    stated: Numbers,
    known: &mut Known,
    sights: &[Sight],
) -> Result<Divided, AllocError>
    requires known { KnowsTargetsOf (seconds_of sights.now) known.old }
    ensures { IfOk result (λ d. d ≡ divided_by stated sights.now (ways_of sights.now)) }
{
    // A copy of few readings takes less than to see whether one of them is a detail.
    if sights.len() > MOST_READINGS && unknown_in(known, sights).is_none() {
        return divide_rest(alloc, stated, known, sights, sights);
    }
    let rest = known_in(alloc, known, sights)?;
    divide_rest(alloc, stated, known, sights, &rest)
}

/// What a station's readings are, of whose sets this is stated.
pub fn divide(alloc: Global, stated: Numbers, sights: &[Sight]) -> Result<Divided, AllocError>
    ensures { IfOk result (λ d. d ≡ divided stated sights.now) }
{
    if has_no_sets(sights) {
        return Ok(Divided::NoSets);
    }
    if let Some(divided) = divide_all(alloc, stated, sights)? {
        return Ok(divided);
    }
    let few = few_seconds(alloc, sights)?;
    let mut known = Known::of_seconds(alloc, &few, sights)?;
    divide_known(alloc, stated, &mut known, sights)
}
