//! How far apart the zenith angles of each target are.

ghost use Rattle.std.specs.Prelude.{◌≡◌, ◌++◌, ◌∷◌, [], true, IfOk, IfSome, OnOk, filter, length};
ghost use Rattle.std.specs.Prelude.{option_map, slice_get};
ghost use Rattle.std.specs.Bool.{OnTrue};
ghost use Rattle.station_book.specs.Places.{with_new};
ghost use Rattle.set_marks.specs.Divisions.{targets_of};
ghost use Rattle.set_marks.specs.Ranging.{IsUnique, has_range, place_in, targets_in};
ghost use Rattle.set_marks.specs.Zeniths.{zenith_in_one, range_of, with_angle, with_reading};
ghost use Rattle.set_marks.specs.Zeniths.{ranges_of, spread, is_spread};

use crate::bounds::{FEW_READINGS, MOST_READINGS};
use crate::names::Names;
use crate::sight::Sight;
use adjust_kernel::Name;
use station_book::CIRCLE;
use std::alloc::{AllocError, Global};
use std::marker::Model;

/// The most by which the zenith angles of a target differ that isn't told, in units of 0.00001 gon:
/// 20 mgon.
pub const LARGEST_SPREAD: u32 = 2_000;

/// The least and the greatest zenith angle of a target, as they are in face I, in units of 0.00001
/// gon.
#[derive(Clone, Copy, Debug, PartialEq, Eq, Drop)]
pub struct ZenithRange {
    /// The least.
    pub least: u32,
    /// The greatest.
    pub greatest: u32,
    /// The target.
    pub target: Name,
}

/// Targets of a station, each with its range.
#[derive(Debug, Drop)]
pub struct ZenithRanges {
    ranges: Vec<ZenithRange>,
}

impl Model for ZenithRanges {
    ghost use Rattle.std.specs.Prelude.{List};
    ghost use Rattle.set_marks.specs.declared.zeniths.ZenithRange.{ZenithRange};

    ghost Value = { List ZenithRange };

    ghost view = { λ z. z.ranges.items };
}

impl ZenithRange {
    /// The greatest zenith angle, less the least.
    pub fn spread(&self) -> u32
        ensures { result ≡ spread self.now }
    {
        self.greatest.saturating_sub(self.least)
    }
}

impl ZenithRanges {
    /// No target.
    pub fn new(alloc: Global) -> ZenithRanges
        ensures { result ≡ [] }
    {
        ZenithRanges {
            ranges: Vec::new(alloc),
        }
    }

    /// Adds a target with its range.
    pub fn add(&mut self, range: ZenithRange) -> Result<(), AllocError>
        ensures { OnOk result (self.new ≡ self.old ++ range ∷ []) }
    {
        self.ranges.push(range)?;
        Ok(())
    }

    /// The targets with their ranges, one after another.
    pub fn ranges(&self) -> &[ZenithRange]
        ensures { result.now ≡ self.now }
    {
        &self.ranges
    }
}

/// The zenith angle of a reading, as it is in face I.
fn zenith_in_one(sight: &Sight) -> u32
    ensures { result ≡ zenith_in_one sight.now }
{
    if sight.second {
        CIRCLE.saturating_sub(sight.angles.zenith)
    } else {
        sight.angles.zenith
    }
}

/// The range of a reading alone.
fn range_of(sight: &Sight) -> ZenithRange
    ensures { result ≡ range_of sight.now }
{
    let angle = zenith_in_one(sight);
    ZenithRange {
        least: angle,
        greatest: angle,
        target: sight.target,
    }
}

/// A range, and a zenith angle more.
fn with_angle(range: &ZenithRange, angle: u32) -> ZenithRange
    ensures { result ≡ with_angle range.now angle }
{
    ZenithRange {
        least: range.least.min(angle),
        greatest: range.greatest.max(angle),
        target: range.target,
    }
}

/// The range at a place, if there is one.
fn range_at(ranges: &[ZenithRange], place: usize) -> Option<&ZenithRange>
    ensures { option_map (λ z. z.now) result ≡ slice_get ranges.now place }
{
    ranges.get(place)
}

/// The place of the range of a target, or how many ranges there are where it has none.
fn place_in(name: &Name, ranges: &[ZenithRange]) -> usize
    ensures { result ≡ place_in name.now ranges.now }
{
    let mut at = 0;
    let mut left = ranges;
    'places: while let Some((range, rest)) = left.split_first() {
        if range.target.is_same(name) {
            return at;
        }
        at += 1;
        left = rest;
    }
    at
}

/// Whether the range of a target stands at this place.
#[inline(always)]
fn is_at(name: &Name, place: usize, ranges: &[ZenithRange]) -> bool
    requires { IsUnique ranges.now }
    ensures place { OnTrue result (place_in name.now ranges.now ≡ place) }
    ensures known { OnTrue result (has_range name.now ranges.now ≡ true) }
{
    match range_at(ranges, place) {
        Some(range) => range.target.is_same(name),
        None => false,
    }
}

/// Where the range of the next reading's target is expected: after this place in face I, before it
/// in face II, since targets are read in turn, and then mostly backwards. A guess, for speed: the
/// target is compared.
#[inline(always)]
fn beside(place: usize, second: bool) -> usize {
    if second {
        place.wrapping_sub(1)
    } else {
        place.wrapping_add(1)
    }
}

/// The place of the range of a reading's target, if it is one of those beside the range that was
/// asked for last.
#[inline(always)]
fn place_beside(sight: &Sight, last: usize, ranges: &[ZenithRange]) -> Option<usize>
    requires { IsUnique ranges.now }
    ensures place { IfSome result (λ place. place ≡ place_in sight.now.target ranges.now) }
    ensures known { IfSome result (λ _. has_range sight.now.target ranges.now ≡ true) }
{
    let next = beside(last, sight.second);
    if is_at(&sight.target, next, ranges) {
        return Some(next);
    }
    if is_at(&sight.target, last, ranges) {
        return Some(last);
    }
    let other = beside(last, !sight.second);
    if is_at(&sight.target, other, ranges) {
        return Some(other);
    }
    None
}

/// The place of the range of a reading's target, or how many ranges there are where it has none.
/// Beside the range that was asked for last it is looked for first.
fn place_of(sight: &Sight, last: usize, ranges: &[ZenithRange]) -> usize
    requires { IsUnique ranges.now }
    ensures { result ≡ place_in sight.now.target ranges.now }
{
    match place_beside(sight, last, ranges) {
        Some(place) => place,
        None => place_in(&sight.target, ranges),
    }
}

/// What `place_of` answers, by the hash of the target. The names are those of the ranges, and the
/// target's is among them then.
#[inline(always)]
fn place_by(
    names: &mut Names,
    sight: &Sight,
    last: usize,
    ranges: &[ZenithRange],
) -> Result<usize, AllocError>
    requires unique { IsUnique ranges.now }
    requires names { names.old ≡ targets_in ranges.now }
    ensures place { IfOk result (λ place. place ≡ place_in sight.now.target ranges.now) }
    ensures names { OnOk result
        (names.new ≡ with_new (targets_in ranges.now) sight.now.target) }
{
    match place_beside(sight, last, ranges) {
        Some(place) => Ok(place),
        None => names.insert(sight.target),
    }
}

/// Adds a reading to the ranges at the place that its target has among them.
fn add_at(ranges: &mut Vec<ZenithRange>, place: usize, sight: &Sight) -> Result<(), AllocError>
    requires { place ≡ place_in sight.now.target ranges.old.items }
    ensures { OnOk result (ranges.new.items ≡ with_reading ranges.old.items sight.now) }
{
    match range_at(ranges, place) {
        Some(range) => {
            let wider = with_angle(range, zenith_in_one(sight));
            ranges[place] = wider;
        }
        None => ranges.push(range_of(sight))?,
    }
    Ok(())
}

/// What `ranges_of` answers, of few readings.
fn ranges_of_few(alloc: Global, sights: &[Sight]) -> Result<Vec<ZenithRange>, AllocError>
    ensures { IfOk result (λ ranges. ranges.items ≡ ranges_of sights.now) }
{
    let mut ranges = Vec::new(alloc);
    let mut last = 0;
    let mut left = sights;
    'sights: while let Some((sight, rest)) = left.split_first() {
        let place = place_of(sight, last, &ranges);
        add_at(&mut ranges, place, sight)?;
        last = place;
        left = rest;
    }
    Ok(ranges)
}

/// The same, by a table of the targets.
fn ranges_of_many(alloc: Global, sights: &[Sight]) -> Result<Vec<ZenithRange>, AllocError>
    ensures { IfOk result (λ ranges. ranges.items ≡ ranges_of sights.now) }
{
    let mut ranges = Vec::new(alloc);
    // Mostly the sets of a station have the same targets.
    let mut names = Names::with_room(alloc, sights.len().min(MOST_READINGS) / 2)?;
    let mut last = 0;
    let mut left = sights;
    'sights: while let Some((sight, rest)) = left.split_first() {
        let place = place_by(&mut names, sight, last, &ranges)?;
        add_at(&mut ranges, place, sight)?;
        last = place;
        left = rest;
    }
    Ok(ranges)
}

/// The least and the greatest zenith angle of each target.
#[tactic(auto, using(crate::proofs::RangePlaces::as_many))]
pub(crate) fn ranges_of(alloc: Global, sights: &[Sight]) -> Result<Vec<ZenithRange>, AllocError>
    ensures ranges { IfOk result (λ ranges. ranges.items ≡ ranges_of sights.now) }
    ensures count { IfOk result
        (λ ranges. length ranges.items ≡ length (targets_of sights.now)) }
{
    let ranges = if sights.len() <= FEW_READINGS {
        ranges_of_few(alloc, sights)?
    } else {
        ranges_of_many(alloc, sights)?
    };
    Ok(ranges)
}

/// Whether the zenith angles of a target differ: by more than 20 mgon.
fn is_spread(range: &ZenithRange) -> bool
    ensures { result ≡ is_spread range.now }
{
    range.spread() > LARGEST_SPREAD
}

/// The targets of these ranges whose zenith angles differ.
pub(crate) fn spread_ranges(
    alloc: Global,
    ranges: &[ZenithRange],
) -> Result<ZenithRanges, AllocError>
    ensures { IfOk result (λ found. found ≡ filter is_spread ranges.now) }
{
    let mut found = ZenithRanges::new(alloc);
    let mut left = ranges;
    'targets: while let Some((range, rest)) = left.split_first() {
        if is_spread(range) {
            found.add(*range)?;
        }
        left = rest;
    }
    Ok(found)
}
