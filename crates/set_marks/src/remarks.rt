//! What is told of a station's sets beyond their numbers.

ghost use Rattle.std.specs.Prelude.{◌≡◌, ◌≤◌, ◌*◌, List, IfOk, length, option_map};
ghost use Rattle.adjust_kernel.specs.declared.bounds.TheConstants.{MOST_SETS, MOST_TARGETS};
ghost use Rattle.set_marks.specs.declared.sight.Sight.{Sight};
ghost use Rattle.set_marks.specs.Divisions.{starts_of, targets_of};
ghost use Rattle.set_marks.specs.Remarks.{length_to_turn, turning_of, full_count, missing_count};
ghost use Rattle.set_marks.specs.Remarks.{seems_of_another, others_after, remarks_by, remarks_of};
ghost use Rattle.set_marks.specs.Remarks.{is_opened_again};
ghost use Rattle.set_marks.specs.Searching.{KnowsTargetsOf, KeepsFaces};
ghost use Rattle.set_marks.specs.Zeniths.{ranges_of};

use crate::bounds::MOST_READINGS;
use crate::division::{are_by_targets, first_cut};
use crate::equal_sets::{SetPairs, equal_sets};
use crate::faces::Faces;
use crate::known::Known;
use crate::names::Names;
use crate::set::{first_target, has_second, is_by_targets, reads_target, sight_at};
use crate::sight::Sight;
use crate::zeniths::{ZenithRange, ZenithRanges, spread_ranges};
use adjust_kernel::Name;
use std::alloc::{AllocError, Global};

/// What is told of a station's sets beyond their numbers: to be compared with the field book.
#[derive(Debug, Drop)]
pub struct Remarks {
    /// The target that opens the sets.
    pub opening: Name,
    /// The target at which the first set turns: the last one before the other face where it is read
    /// by faces, and the last one of all where it is read by targets.
    pub turning: Name,
    /// How many directions the sets have, if each of them has all targets.
    pub directions: usize,
    /// How many of these are missing.
    pub missing: usize,
    /// How many targets that no set has are read in both faces after the sets, as those of another
    /// station are.
    pub others: usize,
    /// Whether the sets are read by targets, and a reading of the target that opens them stands after
    /// them.
    pub opened_again: bool,
    /// The sets that are equal to the last digit.
    pub equal_sets: SetPairs,
    /// The targets whose zenith angles differ within the sets.
    pub zeniths: ZenithRanges,
}

/// How many readings of a set come before it turns.
fn length_to_turn(set: &[Sight]) -> usize
    ensures { result ≡ length_to_turn set.now }
{
    if is_by_targets(set) {
        set.len()
    } else {
        set.len() / 2
    }
}

/// The last reading of a set before it turns.
fn turning_of(set: &[Sight]) -> Option<&Sight>
    ensures { option_map (λ s. s.now) result ≡ turning_of set.now }
{
    sight_at(set, length_to_turn(set).saturating_sub(1))
}

/// The targets of some readings, by the faces in which they are read.
fn faces_of(alloc: Global, sights: &[Sight]) -> Result<Faces, AllocError>
    ensures { IfOk result (KeepsFaces sights.now) }
{
    let mut faces = Faces::with_room(alloc, sights.len().min(MOST_READINGS) / 2)?;
    let mut left = sights;
    'sights: while let Some((sight, rest)) = left.split_first() {
        faces.add(sight.second, &sight.target)?;
        left = rest;
    }
    Ok(faces)
}

/// Whether a reading after the sets seems to be of another station, by the targets of the sets and
/// the faces of the readings after them.
fn seems_of_another(known: &mut Known, faces: &mut Faces, sight: &Sight) -> bool
    ensures value { (in_sets after : List Sight) → KnowsTargetsOf in_sets known.old
        → KeepsFaces after faces.old → result ≡ seems_of_another in_sets after sight.now }
    ensures known { known.new ≡ known.old }
    ensures faces { faces.new ≡ faces.old }
{
    if !sight.second {
        return false;
    }
    let is_known = known.has(&sight.target);
    let is_paired = faces.has(false, &sight.target);
    !is_known && is_paired
}

/// How many targets that no set has are read in both faces after the sets.
fn count_others(alloc: Global, in_sets: &[Sight], after: &[Sight]) -> Result<usize, AllocError>
    ensures { IfOk result (λ n. n ≡ length (others_after in_sets.now after.now)) }
{
    // Detail points are read in face I alone, and there may be many.
    if !has_second(after) {
        return Ok(0);
    }
    let mut known = Known::of(alloc, in_sets)?;
    let mut faces = faces_of(alloc, after)?;
    let mut others = Names::new(alloc);
    let mut left = after;
    'sights: while let Some((sight, rest)) = left.split_first() {
        if seems_of_another(&mut known, &mut faces, sight) {
            others.add(&sight.target)?;
        }
        left = rest;
    }
    Ok(others.len())
}

/// Whether sets that are read by targets are followed by a reading of the target that opens them.
fn is_opened_again(in_sets: &[Sight], after: &[Sight]) -> bool
    ensures { result ≡ is_opened_again in_sets.now after.now }
{
    match first_target(in_sets) {
        Some(opening) => are_by_targets(in_sets) && reads_target(after, &opening),
        None => false,
    }
}

/// What is told of sets that begin with the one reading, and turn at the other.
fn remarks_by(
    opening: Option<&Sight>,
    turning: Option<&Sight>,
    directions: usize,
    missing: usize,
    others: usize,
    opened_again: bool,
    equal_sets: SetPairs,
    zeniths: ZenithRanges,
) -> Option<Remarks>
    ensures { result ≡ remarks_by (option_map (λ s. s.now) opening.entry)
        (option_map (λ s. s.now) turning.entry) directions missing others
        opened_again equal_sets zeniths }
{
    match (opening, turning) {
        (Some(opening), Some(turning)) => Some(Remarks {
            opening: opening.target,
            turning: turning.target,
            directions,
            missing,
            others,
            opened_again,
            equal_sets,
            zeniths,
        }),
        _ => None,
    }
}

/// What is told of the sets that begin at these places of readings that are all in sets, and have so
/// many targets with these ranges, before these readings after them.
pub(crate) fn remarks_of(
    alloc: Global,
    starts: &[usize],
    in_sets: &[Sight],
    targets: usize,
    ranges: &[ZenithRange],
    after: &[Sight],
) -> Result<Option<Remarks>, AllocError>
    requires few_sets { length starts.now ≤ MOST_SETS }
    requires few_targets { targets ≤ MOST_TARGETS }
    requires starts { starts.now ≡ starts_of in_sets.now }
    requires targets { targets ≡ length (targets_of in_sets.now) }
    requires ranges { ranges.now ≡ ranges_of in_sets.now }
    ensures { IfOk result (λ r. r ≡ remarks_of in_sets.now after.now) }
{
    let others = count_others(alloc, in_sets, after)?;
    let directions = starts.len() * targets;
    let missing = directions.saturating_sub(in_sets.len() / 2);
    let opening = sight_at(in_sets, 0);
    let turning = turning_of(first_cut(starts, in_sets));
    let again = is_opened_again(in_sets, after);
    let equal = equal_sets(alloc, starts, in_sets)?;
    let zeniths = spread_ranges(alloc, ranges)?;
    Ok(remarks_by(
        opening, turning, directions, missing, others, again, equal, zeniths,
    ))
}
