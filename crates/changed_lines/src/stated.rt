//! Changes that texts state, as those of an option of a command line.

ghost use Rattle.std.specs.Prelude.{◌≡◌, IfErr, IfOk, IfNone, IfSome, map};
ghost use Rattle.std.specs.Bool.{OnTrue, OnFalse};
ghost use Rattle.changed_lines.specs.declared.change.Change.{Change};
ghost use Rattle.changed_lines.specs.declared.stated.Unstated.TheVariants.{Memory};
ghost use Rattle.changed_lines.specs.Stated.{AddsOfKind, AreUnsaid, IsOfKind, IsUnsaid};
ghost use Rattle.changed_lines.specs.Stated.{SayEach, SaysOfKind};

use crate::change::{Change, Edit};
use crate::saying::{change_in, push};
use std::alloc::{AllocError, Global};

/// What texts may say of lines.
#[derive(Clone, Copy, Debug, PartialEq, Eq)]
pub enum EditKind {
    /// That they are left out: `N`.
    Out,
    /// That their points have other names: `N=NAME`.
    Rename,
}

/// Why texts state no changes.
#[derive(Clone, Copy, Debug)]
pub enum Unstated<'a> {
    /// This is the first that says no change of its kind.
    Wrong(&'a str),
    /// There was no memory.
    Memory,
}

impl<'a> From<AllocError> for Unstated<'a> {
    ghost from_gives = { λ _ why. why ≡ Memory };

    fn from(_: AllocError) -> Unstated<'a> {
        Unstated::Memory
    }
}

/// Whether a change is of this kind.
fn is_of_kind(change: &Change, kind: EditKind) -> bool
    ensures yes { OnTrue result (IsOfKind kind change.now.edit) }
    ensures no { OnFalse result (¬ IsOfKind kind change.now.edit) }
{
    match (kind, &change.edit) {
        (EditKind::Out, Edit::Out) => true,
        (EditKind::Rename, Edit::Rename(_)) => true,
        _ => false,
    }
}

/// The change of this kind that a text says.
fn change_of(text: &str, kind: EditKind) -> Option<Change>
    ensures some { IfSome result (SaysOfKind kind text.now) }
    ensures none { IfNone result ((change : Change) → ¬ SaysOfKind kind text.now change) }
{
    let change = change_in(text.as_bytes())?;
    if is_of_kind(&change, kind) {
        Some(change)
    } else {
        None
    }
}

/// Adds the change of this kind that a text says.
fn add<'a>(changes: &mut Vec<Change>, text: &'a str, kind: EditKind) -> Result<(), Unstated<'a>>
    ensures added { IfOk result
        (λ _. AddsOfKind kind changes.old.items text.now changes.new.items) }
    ensures why { IfErr result (IsUnsaid kind text.now) }
{
    match change_of(text, kind) {
        Some(change) => {
            push(changes, change.line, change.edit)?;
            Ok(())
        }
        None => Err(Unstated::Wrong(text)),
    }
}

/// The changes that texts say, all of this kind, in the order in which they stand.
///
/// # Errors
///
/// The first text that says no change of this kind; or that memory ran out.
pub fn changes_of<'a>(
    alloc: Global,
    texts: &[&'a str],
    kind: EditKind,
) -> Result<Vec<Change>, Unstated<'a>>
    ensures stated { IfOk result
        (λ changes. SayEach kind (map (λ text. text.now) texts.now) changes.items) }
    ensures why { IfErr result (AreUnsaid kind (map (λ text. text.now) texts.now)) }
{
    let mut changes = Vec::new(alloc);
    for &text in texts {
        add(&mut changes, text, kind)?;
    }
    Ok(changes)
}
