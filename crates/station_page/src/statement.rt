//! What is stated of a field file: how its stations begin, and the numbers of its sets and targets.

ghost use Rattle.std.specs.Prelude.{◌≡◌, IfErr, IfNone, IfOk, IfSome};
ghost use Rattle.job_statements.specs.declared.stated.Stated.{Stated};
ghost use Rattle.station_page.specs.Statements.{StatesBeginnings, StatesCode, StatesFile};
ghost use Rattle.station_page.specs.Statements.{StatesName, StatesNoBeginnings, StatesNoCode};
ghost use Rattle.station_page.specs.Statements.{StatesNoName, StatesNoNumbers, StatesNumbers};
ghost use Rattle.station_page.specs.declared.statement.Untaken.TheVariants.{Memory};

use adjust_kernel::{MOST_SETS, MOST_TARGETS, Name};
use job_statements::{Beginnings, Stated, StatedNumber, Unstated, numbers_of, station_code};
use std::alloc::{AllocError, Global};

/// Why numbers are not taken from what is stated.
#[derive(Clone, Copy, Drop)]
pub(crate) enum Untaken {
    /// Memory ran out, for them or for what is made by them.
    Memory,
    /// None are stated that can be.
    Wrong,
}

impl From<AllocError> for Untaken {
    ghost from_gives = { λ _ why. why ≡ Memory };

    fn from(_: AllocError) -> Untaken {
        Untaken::Memory
    }
}

/// How the stations of a file begin, unless a name or a code is stated that can't be one.
pub(crate) fn beginnings_in(name: &[u8], code: &[u8], same_set_up: bool) -> Option<Beginnings>
    ensures stated { IfSome result (StatesBeginnings name.now code.now same_set_up) }
    ensures none { IfNone result (StatesNoBeginnings name.now code.now) }
{
    Some(Beginnings {
        station: station_in(name)?,
        same_set_up,
        code: code_in(code)?,
    })
}

/// The name that is stated of the file's one station, or that there is none, unless no station can
/// have it.
fn station_in(name: &[u8]) -> Option<Option<Name>>
    ensures stated { IfSome result (StatesName name.now) }
    ensures none { IfNone result (StatesNoName name.now) }
{
    if name.is_empty() {
        return Some(None);
    }
    Some(Some(Name::new(name)?))
}

/// The code whose blocks begin a station each, or that none is stated, unless it can't be one.
fn code_in(code: &[u8]) -> Option<Option<Name>>
    ensures stated { IfSome result (StatesCode code.now) }
    ensures none { IfNone result (StatesNoCode code.now) }
{
    if code.is_empty() {
        return Some(None);
    }
    Some(Some(station_code(code)?))
}

/// What is stated of a file, its numbers by lines.
///
/// # Errors
///
/// A line can't stand where it does, or memory ran out.
pub(crate) fn stated_in(
    alloc: Global,
    sets: &[u8],
    targets: &[u8],
    again: bool,
    others: bool,
) -> Result<Stated, Untaken>
    ensures stated { IfOk result (StatesFile sets.now targets.now again others) }
    ensures wrong { IfErr result (λ why. why ≡ Untaken.Wrong → (stated : Stated)
        → ¬ (StatesFile sets.now targets.now again others stated)) }
{
    let sets = numbers_in(alloc, sets, MOST_SETS as u32)?;
    let targets = numbers_in(alloc, targets, MOST_TARGETS as u32)?;
    Ok(Stated {
        sets,
        targets,
        again,
        others,
    })
}

/// The numbers that lines state, each from 1 up to a largest.
fn numbers_in(alloc: Global, text: &[u8], largest: u32) -> Result<StatedNumber, Untaken>
    ensures stated { IfOk result (StatesNumbers largest text.now) }
    ensures wrong { IfErr result (λ why. why ≡ Untaken.Wrong
        → StatesNoNumbers largest text.now) }
{
    let Ok(text) = str::from_utf8(text) else {
        return Err(Untaken::Wrong);
    };
    let lines = text.lines().collect::<Vec<&str>>(alloc)?;
    match numbers_of(alloc, &lines, largest) {
        Ok(stated) => Ok(stated),
        Err(Unstated::Memory) => Err(Untaken::Memory),
        Err(Unstated::Wrong(_, _)) => Err(Untaken::Wrong),
    }
}
