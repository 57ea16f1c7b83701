//! What is told of the changes of a copy.

ghost use Rattle.std.specs.Prelude.{◌≡◌, ◌++◌, IfOk, OnOk, decimal};
ghost use Rattle.station_change.specs.Notes.{edit_text, note_line, notes_text};

use changed_lines::{Change, Edit};
use itoa::Buffer;
use std::alloc::{AllocError, Global};

/// What is told of the changes of a copy: a line of each.
pub fn notes_text(alloc: Global, changes: &[Change]) -> Result<Vec<u8>, AllocError>
    ensures { IfOk result (λ text. text.items ≡ notes_text changes.now) }
{
    let mut text = Vec::new(alloc);
    let mut left = changes;
    'changes: while let Some((change, later)) = left.split_first() {
        add_note(&mut text, change)?;
        left = later;
    }
    Ok(text)
}

/// Adds the line of a change.
fn add_note(text: &mut Vec<u8>, change: &Change) -> Result<(), AllocError>
    ensures { OnOk result (text.new.items ≡ text.old.items ++ note_line change.now) }
{
    let mut digits = Buffer::new();
    text.extend_from_slice(b"note: line ")?;
    text.extend_from_slice(digits.format(change.line).as_bytes())?;
    add_edit(text, &change.edit)?;
    text.extend_from_slice(b"\n")?;
    Ok(())
}

/// Adds what became of a line.
fn add_edit(text: &mut Vec<u8>, edit: &Edit) -> Result<(), AllocError>
    ensures { OnOk result (text.new.items ≡ text.old.items ++ edit_text edit.now) }
{
    match edit {
        Edit::Out => text.extend_from_slice(b" left out"),
        Edit::Rename(name) => {
            text.extend_from_slice(b" has the name ")?;
            text.extend_from_slice(name.bytes())
        }
    }
}
