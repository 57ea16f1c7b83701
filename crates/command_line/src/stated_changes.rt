//! The options that state changes of lines.

ghost use Rattle.std.specs.Prelude.{◌≡◌, List, ℕ, IfErr, IfNone, IfOk, IfSome};
ghost use Rattle.clap.specs.Words.{found_of};
ghost use Rattle.changed_lines.specs.Stated.{AreUnsaid, IsFirstUnsaid, SayEach};
ghost use Rattle.changed_lines.specs.declared.change.Change.{Change};
ghost use Rattle.command_line.specs.StatedChanges.{StatesChanges, StatesNoChanges};
ghost use Rattle.command_line.specs.StatedChanges.{change_form, change_name, change_why};
ghost use Rattle.command_line.specs.StatedNumbers.{texts_of};

use crate::arguments::{LEAVE_OUT, RENAME};
use crate::help;
use changed_lines::{Change, EditKind, Unstated, changes_of, in_order};
use clap::ArgMatches;
use std::alloc::{AllocError, Global};

/// The name of the option that states changes of this kind, after its two hyphens.
fn name_of(kind: EditKind) -> &'static str
    ensures { result.now ≡ change_name kind }
{
    match kind {
        EditKind::Out => LEAVE_OUT,
        EditKind::Rename => RENAME,
    }
}

/// The option as a mistake names it.
pub(crate) fn form_of_changes(kind: EditKind) -> &'static str
    ensures { result.now ≡ change_form kind }
{
    match kind {
        EditKind::Out => "leave-out <N>",
        EditKind::Rename => "rename <N=NAME>",
    }
}

/// What may be stated there.
pub(crate) fn stated_as_changes(kind: EditKind) -> &'static str
    ensures { result.now ≡ change_why kind }
{
    match kind {
        EditKind::Out => help::LEFT_OUT_LINES,
        EditKind::Rename => help::RENAMED_LINES,
    }
}

/// The changes that an option states, or why it states none.
fn said_by<'a>(
    alloc: Global,
    found: &ArgMatches<'a>,
    kind: EditKind,
) -> Result<Vec<Change>, Unstated<'a>>
    ensures stated { IfOk result (λ changes.
        SayEach kind (texts_of (found_of found.now) (change_name kind)) changes.items) }
    ensures why { IfErr result
        (AreUnsaid kind (texts_of (found_of found.now) (change_name kind))) }
{
    match found.get_strs(name_of(kind)) {
        Some(texts) => changes_of(alloc, texts, kind),
        None => changes_of(alloc, &[], kind),
    }
}

/// The changes that an option states, unless one of its texts states none.
fn changes_by(
    alloc: Global,
    found: &ArgMatches<'_>,
    kind: EditKind,
) -> Result<Option<Vec<Change>>, AllocError>
    ensures stated { IfOk result (λ said. IfSome said (λ changes.
        SayEach kind (texts_of (found_of found.now) (change_name kind)) changes.items)) }
    ensures none { IfOk result (λ said. IfNone said ((changes : List Change)
        → ¬ SayEach kind (texts_of (found_of found.now) (change_name kind)) changes)) }
{
    match said_by(alloc, found, kind) {
        Ok(changes) => Ok(Some(changes)),
        Err(Unstated::Memory) => Err(AllocError),
        Err(Unstated::Wrong(_)) => Ok(None),
    }
}

/// The changes of lines that are stated, in the order of the lines, unless a text states none.
pub(crate) fn changes_stated(
    alloc: Global,
    found: &ArgMatches<'_>,
) -> Result<Option<Vec<Change>>, AllocError>
    ensures stated { IfOk result (λ said. IfSome said
        (λ changes. StatesChanges (found_of found.now) changes.items)) }
    ensures none { IfOk result (λ said. IfNone said (StatesNoChanges (found_of found.now))) }
{
    let Some(outs) = changes_by(alloc, found, EditKind::Out)? else {
        return Ok(None);
    };
    let Some(names) = changes_by(alloc, found, EditKind::Rename)? else {
        return Ok(None);
    };
    Ok(Some(in_order(alloc, &outs, &names)?))
}

/// The first text of an option that states no change.
pub(crate) fn wrong_change<'a>(
    alloc: Global,
    found: &ArgMatches<'a>,
    kind: EditKind,
) -> Result<Option<&'a str>, AllocError>
    ensures wrong { IfOk result (λ first. IfSome first (λ text.
        IsFirstUnsaid kind (texts_of (found_of found.now) (change_name kind)) text.now)) }
    ensures none { IfOk result (λ first. IfNone first ((text : List ℕ)
        → ¬ IsFirstUnsaid kind (texts_of (found_of found.now) (change_name kind)) text)) }
{
    match said_by(alloc, found, kind) {
        Ok(_) => Ok(None),
        Err(Unstated::Memory) => Err(AllocError),
        Err(Unstated::Wrong(text)) => Ok(Some(text)),
    }
}
