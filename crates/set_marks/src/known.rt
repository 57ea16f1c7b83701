//! The targets of some readings, to be asked for.

ghost use Rattle.std.specs.Prelude.{◌≡◌, ◌≤◌, [], IfOk, length, option_map};
ghost use Rattle.set_marks.specs.declared.bounds.TheConstants.{FEW_READINGS};
ghost use Rattle.set_marks.specs.Divisions.{one_too_many, seconds_of, targets_of};
ghost use Rattle.set_marks.specs.Searching.{knows, KnowsTargetsOf};

use crate::bounds::{FEW_READINGS, MOST_READINGS};
use crate::names::Names;
use crate::set::reads_target;
use crate::sight::Sight;
use adjust_kernel::{MOST_TARGETS, Name};
use std::alloc::{AllocError, Global};

/// The targets of some readings. Few are looked through, which takes less than a table of them.
#[derive(Drop)]
pub(crate) enum Known<'a> {
    /// Those of these few readings.
    Few(&'a [Sight]),
    /// These.
    Many(Names),
}

/// The targets of these readings, each once.
pub(crate) fn targets_of(alloc: Global, sights: &[Sight]) -> Result<Names, AllocError>
    ensures { IfOk result (λ names. names ≡ targets_of sights.now) }
{
    // Mostly the sets of a station have the same targets.
    let mut names = Names::with_room(alloc, sights.len().min(MOST_READINGS) / 2)?;
    let mut left = sights;
    'sights: while let Some((sight, rest)) = left.split_first() {
        names.add(&sight.target)?;
        left = rest;
    }
    Ok(names)
}

/// The targets that these readings have in face II, each once.
fn targets_in_two(alloc: Global, sights: &[Sight]) -> Result<Names, AllocError>
    ensures { IfOk result (λ names. names ≡ targets_of (seconds_of sights.now)) }
{
    let mut names = Names::with_room(alloc, sights.len().min(MOST_READINGS) / 2)?;
    let mut left = sights;
    'sights: while let Some((sight, rest)) = left.split_first() {
        if sight.second {
            names.add(&sight.target)?;
        }
        left = rest;
    }
    Ok(names)
}

/// How many targets these few readings have: those whose target is read before are left out.
fn count_of_few(sights: &[Sight]) -> usize
    ensures { result ≡ length (targets_of sights.now) }
{
    let mut count = 0;
    let mut at = 0;
    let mut left = sights;
    'sights: while let Some((sight, rest)) = left.split_first() {
        if !reads_target(&sights[..at], &sight.target) {
            count += 1;
        }
        at += 1;
        left = rest;
    }
    count
}

/// How many targets these readings have.
pub(crate) fn count_targets(alloc: Global, sights: &[Sight]) -> Result<usize, AllocError>
    ensures { IfOk result (λ n. n ≡ length (targets_of sights.now)) }
{
    if sights.len() <= FEW_READINGS {
        return Ok(count_of_few(sights));
    }
    Ok(targets_of(alloc, sights)?.len())
}

/// The first of these readings of another target than 100 before it.
pub(crate) fn one_too_many(alloc: Global, sights: &[Sight]) -> Result<Option<Sight>, AllocError>
    ensures { IfOk result (λ o. o ≡ one_too_many [] sights.now) }
{
    let mut names = Names::with_room(alloc, MOST_TARGETS)?;
    let mut left = sights;
    'sights: while let Some((sight, rest)) = left.split_first() {
        let is_new = !names.has(&sight.target);
        if is_new && names.len() >= MOST_TARGETS {
            return Ok(Some(*sight));
        }
        names.add(&sight.target)?;
        left = rest;
    }
    Ok(None)
}

impl<'a> Known<'a> {
    /// The targets of these readings.
    pub(crate) fn of(alloc: Global, sights: &'a [Sight]) -> Result<Known<'a>, AllocError>
        ensures { IfOk result (KnowsTargetsOf sights.now) }
    {
        if sights.len() <= FEW_READINGS {
            return Ok(Known::Few(sights));
        }
        Ok(Known::Many(targets_of(alloc, sights)?))
    }

    /// The targets that these readings have in face II, which are these where they are few.
    pub(crate) fn of_seconds(
        alloc: Global,
        few: &'a [Sight],
        sights: &[Sight],
    ) -> Result<Known<'a>, AllocError>
        requires { length few.now ≤ FEW_READINGS → few.now ≡ seconds_of sights.now }
        ensures { IfOk result (KnowsTargetsOf (seconds_of sights.now)) }
    {
        if few.len() <= FEW_READINGS {
            return Ok(Known::Few(few));
        }
        Ok(Known::Many(targets_in_two(alloc, sights)?))
    }

    /// Whether a target is one of them.
    #[inline(always)]
    pub(crate) fn has(&mut self, name: &Name) -> bool
        ensures value { result ≡ knows self.old name.now }
        ensures unchanged { self.new ≡ self.old }
    {
        match self {
            Known::Few(sights) => reads_target(sights, name),
            Known::Many(names) => names.has(name),
        }
    }
}
