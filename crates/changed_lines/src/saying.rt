//! Changes that a text says.

ghost use Rattle.std.specs.Prelude.{◌≡◌, ◌==◌, ℕ, ◌++◌, ◌∷◌, [], Err, IfOk, OnOk, IfSome};
ghost use Rattle.std.specs.Prelude.{IfNone, List};
ghost use Rattle.std.specs.List.{position};
ghost use Rattle.changed_lines.specs.declared.change.Change.{Change};
ghost use Rattle.changed_lines.specs.declared.change.Edit.{Edit};
ghost use Rattle.changed_lines.specs.declared.saying.Unsaid.TheVariants.{Memory, Wrong};
ghost use Rattle.changed_lines.specs.Sayings.{SaysLine, SaysChange, SayChanges, AddsChange};

use crate::change::{Change, Edit};
use adjust_kernel::Name;
use gsi_word::decimal_number;
use std::alloc::{AllocError, Global};

/// The most digits of the number of a line.
const MOST_DIGITS: usize = 10;

/// Why a text says no changes.
#[derive(Clone, Copy, Debug, PartialEq, Eq)]
pub enum Unsaid {
    /// A piece of it says none.
    Wrong,
    /// There was no memory.
    Memory,
}

impl From<AllocError> for Unsaid {
    ghost from_gives = { λ _ given. given ≡ Memory };

    fn from(_: AllocError) -> Unsaid {
        Unsaid::Memory
    }
}

/// The place of the first of these bytes.
fn first_of(byte: u8, text: &[u8]) -> Option<usize>
    ensures { result ≡ position (λ b. b == byte) text.now }
{
    text.iter().position(|b| *b == byte)
}

/// The number of a line that digits say.
fn line_in(digits: &[u8]) -> Option<u32>
    ensures some { IfSome result (SaysLine digits.now) }
    ensures none { IfNone result ((line : ℕ) → ¬ SaysLine digits.now line) }
{
    if digits.is_empty() || digits.len() > MOST_DIGITS {
        return None;
    }
    let number = decimal_number(digits)?;
    if number > u64::from(u32::MAX) {
        return None;
    }
    Some(number as u32)
}

/// The change that a text says: `N`, that line N is left out, or `N=NAME`, that its point has this
/// name.
pub fn change_in(text: &[u8]) -> Option<Change>
    ensures some { IfSome result (SaysChange text.now) }
    ensures none { IfNone result ((change : Change) → ¬ SaysChange text.now change) }
{
    match first_of(b'=', text) {
        None => Some(Change {
            line: line_in(text)?,
            edit: Edit::Out,
        }),
        Some(at) => Some(Change {
            line: line_in(&text[..at])?,
            edit: Edit::Rename(Name::new(&text[at + 1..])?),
        }),
    }
}

/// Adds a change of this line.
pub(crate) fn push(changes: &mut Vec<Change>, line: u32, edit: Edit) -> Result<(), AllocError>
    ensures { OnOk result (changes.new.items
        ≡ changes.old.items ++ (record { line = line; edit = edit }) ∷ []) }
{
    changes.push(Change { line, edit })?;
    Ok(())
}

/// Adds the change that a text says.
fn add(changes: &mut Vec<Change>, text: &[u8]) -> Result<(), Unsaid>
    ensures added { IfOk result (λ _. AddsChange changes.old.items text.now changes.new.items) }
    ensures wrong { result ≡ Err Wrong → (change : Change) → ¬ SaysChange text.now change }
{
    match change_in(text) {
        Some(change) => {
            push(changes, change.line, change.edit)?;
            Ok(())
        }
        None => Err(Unsaid::Wrong),
    }
}

/// The changes that a text says, with a line feed between each two.
///
/// # Errors
///
/// `Wrong` where a piece between line feeds says none, or `Memory`.
pub fn changes_in(alloc: Global, text: &[u8]) -> Result<Vec<Change>, Unsaid>
    ensures say { IfOk result (λ changes. SayChanges text.now changes.items) }
    ensures wrong { result ≡ Err Wrong → (changes : List Change) → ¬ SayChanges text.now changes }
{
    let mut changes = Vec::new(alloc);
    if text.is_empty() {
        return Ok(changes);
    }
    let mut rest = text;
    'pieces: while let Some(at) = first_of(b'\n', rest) {
        add(&mut changes, &rest[..at])?;
        rest = &rest[at + 1..];
    }
    add(&mut changes, rest)?;
    Ok(changes)
}
