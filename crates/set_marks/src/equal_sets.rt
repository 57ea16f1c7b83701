//! Sets that are equal to the last digit.

ghost use Rattle.std.specs.Prelude.{◌≡◌, ◌++◌, ◌∷◌, [], IfOk, OnOk};
ghost use Rattle.std.specs.List.{list_any};
ghost use Rattle.set_marks.specs.Divisions.{next_of, part};
ghost use Rattle.set_marks.specs.EqualSets.{is_equal, have_equals, are_equal, pairs_with};
ghost use Rattle.set_marks.specs.EqualSets.{equal_sets};
ghost use Rattle.set_marks.specs.Sections.{AreLeast, least_direction, section, sections};

use crate::division::part;
use crate::set::is_again;
use crate::sight::Sight;
use std::alloc::{AllocError, Global};
use std::marker::Model;

/// Two sets of a station that are equal, by their numbers, from 1.
#[derive(Clone, Copy, Debug, PartialEq, Eq, Drop)]
pub struct SetPair {
    /// The number of the set that was read earlier.
    pub earlier: usize,
    /// The number of the other.
    pub later: usize,
}

/// The pairs of equal sets of a station.
#[derive(Debug, Drop)]
pub struct SetPairs {
    pairs: Vec<SetPair>,
}

impl Model for SetPairs {
    ghost use Rattle.std.specs.Prelude.{List};
    ghost use Rattle.set_marks.specs.declared.equal_sets.SetPair.{SetPair};

    ghost Value = { List SetPair };

    ghost view = { λ p. p.pairs.items };
}

impl SetPairs {
    /// No pair.
    pub fn new(alloc: Global) -> SetPairs
        ensures { result ≡ [] }
    {
        SetPairs {
            pairs: Vec::new(alloc),
        }
    }

    /// Adds a pair.
    pub fn add(&mut self, pair: SetPair) -> Result<(), AllocError>
        ensures { OnOk result (self.new ≡ self.old ++ pair ∷ []) }
    {
        self.pairs.push(pair)?;
        Ok(())
    }

    /// The pairs, one after another.
    pub fn pairs(&self) -> &[SetPair]
        ensures { result.now ≡ self.now }
    {
        &self.pairs
    }
}

/// Whether both are of one target, in one face, with the same angles.
fn is_equal(a: &Sight, b: &Sight) -> bool
    ensures { result ≡ is_equal a.now b.now }
{
    // Directions differ nearly always, so they are compared first.
    a.angles.hz == b.angles.hz && a.angles.zenith == b.angles.zenith && is_again(a, b)
}

/// Whether one of these readings is equal to this one.
fn has_equal(sight: &Sight, others: &[Sight]) -> bool
    ensures { result ≡ list_any (is_equal sight.now) others.now }
{
    others.iter().any(|other| is_equal(sight, other))
}

/// Whether each of these readings has its equal among the others.
fn have_equals(others: &[Sight], sights: &[Sight]) -> bool
    ensures { result ≡ have_equals others.now sights.now }
{
    sights.iter().all(|sight| has_equal(sight, others))
}

/// Whether two sets are equal.
fn are_equal(a: &[Sight], b: &[Sight]) -> bool
    ensures { result ≡ are_equal a.now b.now }
{
    have_equals(b, a) && have_equals(a, b)
}

/// The least direction of some readings.
fn least_direction(sights: &[Sight]) -> u32
    ensures { result ≡ least_direction sights.now }
{
    let mut least = u32::MAX;
    let mut left = sights;
    'sights: while let Some((sight, rest)) = left.split_first() {
        least = least.min(sight.angles.hz);
        left = rest;
    }
    least
}

/// A set: where it begins and ends among the readings, and its least direction. Equal sets have the
/// same least direction, and others mostly not.
#[derive(Clone, Copy, Drop)]
pub(crate) struct Section {
    from: usize,
    to: usize,
    least: u32,
}

/// Whether two sets of these readings are equal.
#[tactic(auto, using(crate::proofs::EqualLeast::unequal))]
fn are_equal_sections(a: &Section, b: &Section, sights: &[Sight]) -> bool
    requires first { a.now.least ≡ least_direction (section sights.now a.now) }
    requires second { b.now.least ≡ least_direction (section sights.now b.now) }
    ensures { result ≡ are_equal (section sights.now a.now) (section sights.now b.now) }
{
    if a.least != b.least {
        return false;
    }
    are_equal(part(a.from, a.to, sights), part(b.from, b.to, sights))
}

/// The place at which the next set begins, or this end where there is none.
fn next_of(end: usize, starts: &[usize]) -> usize
    ensures { result ≡ next_of end starts.now }
{
    match starts {
        [] => end,
        [to, ..] => *to,
    }
}

/// Adds the pairs that a set of this number makes with those before it.
fn add_pairs(
    pairs: &mut SetPairs,
    later: usize,
    set: &Section,
    before: &[Section],
    sights: &[Sight],
) -> Result<(), AllocError>
    requires set { set.now.least ≡ least_direction (section sights.now set.now) }
    requires before { AreLeast sights.now before.now }
    ensures { OnOk result (pairs.new ≡ pairs.old
        ++ pairs_with later (section sights.now set.now) 1 (sections sights.now before.now)) }
{
    let mut number = 1;
    let mut left = before;
    'sets: while let Some((other, rest)) = left.split_first() {
        if are_equal_sections(other, set, sights) {
            pairs.add(SetPair {
                earlier: number,
                later,
            })?;
        }
        number += 1;
        left = rest;
    }
    Ok(())
}

/// The set of these readings from one place up to another.
fn section_of(from: usize, to: usize, sights: &[Sight]) -> Section
    ensures set { section sights.now result ≡ part from to sights.now }
    ensures least { result.least ≡ least_direction (section sights.now result) }
{
    Section {
        from,
        to,
        least: least_direction(part(from, to, sights)),
    }
}

/// The pairs of equal sets that begin at these places of readings that are all in sets.
pub(crate) fn equal_sets(
    alloc: Global,
    starts: &[usize],
    in_sets: &[Sight],
) -> Result<SetPairs, AllocError>
    ensures { IfOk result (λ pairs. pairs ≡ equal_sets starts.now in_sets.now) }
{
    let mut pairs = SetPairs::new(alloc);
    let mut before = Vec::new(alloc);
    let mut left = starts;
    'sets: while let Some((from, rest)) = left.split_first() {
        let set = section_of(*from, next_of(in_sets.len(), rest), in_sets);
        add_pairs(&mut pairs, before.len() + 1, &set, &before, in_sets)?;
        before.push(set)?;
        left = rest;
    }
    Ok(pairs)
}
