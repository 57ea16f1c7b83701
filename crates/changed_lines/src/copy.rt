//! The copy of a file with changed lines.

ghost use Rattle.std.specs.Prelude.{◌≡◌, ◌<◌, ◌-◌, ◌++◌, ◌∷◌, Some, IfOk, IfErr, IfSome};
ghost use Rattle.std.specs.Prelude.{IfNone};
ghost use Rattle.changed_lines.specs.Answers.{MayBe, IsChanged, IsFault};
ghost use Rattle.changed_lines.specs.ChangedFile.{text_of, end_of, edited, edit_of};
ghost use Rattle.changed_lines.specs.Steps.{RefusesLine, RefusesChange, Waits, LeavesChanges};
ghost use Rattle.changed_lines.specs.Steps.{Ascends, IsOutOfOrder};

use crate::change::{Change, Edit};
use crate::fault::ChangeFault;
use crate::first_line::{FirstLine, first_line};
use crate::renaming::rename;
use gsi_file::is_blank;
use std::alloc::Global;

/// The copy of a file in which just these lines are changed, whatever its lines are. Each is stated
/// once, in the order of the file.
///
/// # Errors
///
/// The fault of the first change that can't be made, in the order in which they are stated; or
/// `Memory`.
pub fn changed_copy(alloc: Global, bytes: &[u8], changes: &[Change]) -> Result<Vec<u8>, ChangeFault>
    ensures copy { IfOk result (λ copy. IsChanged bytes.now changes.now copy.items) }
    ensures fault { IfErr result (IsFault bytes.now changes.now) }
{
    let mut copy = Vec::with_capacity(alloc, bytes.len())?;
    let mut left = in_order(0, changes)?;
    let mut rest = bytes;
    let mut count = 0;
    'lines: while !rest.is_empty() {
        let line = first_line(rest);
        rest = line.after;
        if is_blank(line.text) {
            copy.extend_from_slice(line.whole)?;
        } else {
            count += 1;
            left = put_line(&mut copy, &line, count, left)?;
        }
    }
    match left.first() {
        Some(change) => Err(ChangeFault::NoSuchLine(change.line)),
        None => Ok(copy),
    }
}

/// These changes, if the first is of a line after this one.
fn in_order(line: u32, changes: &[Change]) -> Result<&[Change], ChangeFault>
    ensures waits { IfOk result (λ left. (left.now ≡ changes.now) × Waits line left.now) }
    ensures fault { IfErr result (IsOutOfOrder line changes.now) }
{
    match changes.first() {
        Some(change) if change.line <= line => Err(ChangeFault::LineOrder(change.line)),
        _ => Ok(changes),
    }
}

/// Adds to a copy what stands in it for a line that these changes name.
fn put_edited(copy: &mut Vec<u8>, line: &FirstLine<'_>, change: &Change) -> Result<(), ChangeFault>
    requires text { line.now.text.now ≡ text_of line.now.whole.now }
    requires end { line.now.end.now ≡ end_of line.now.whole.now }
    ensures made { IfOk result (λ _. MayBe change.now.edit line.now.text.now) }
    ensures copy { IfOk result (λ _. copy.new.items
        ≡ copy.old.items ++ edited (Some change.now.edit) line.now.whole.now) }
    ensures fault { IfErr result
        (RefusesLine change.now.line change.now.edit line.now.text.now) }
{
    match &change.edit {
        Edit::Out => Ok(()),
        Edit::Rename(name) => {
            rename(copy, change.line, line.text, name)?;
            copy.extend_from_slice(line.end)?;
            Ok(())
        }
    }
}

/// The first of these changes, and those after it, if it is of the line of this number.
fn due(left: &[Change], number: usize) -> Option<(&Change, &[Change])>
    requires some { 0 < number }
    requires waits { Waits (number - 1) left.now }
    ensures due { IfSome result
        (λ r. (left.now ≡ r.0.now ∷ r.1.now) × (r.0.now.line ≡ number)) }
    ensures waits { IfNone result (Waits number left.now) }
{
    let (change, later) = left.split_first()?;
    if change.line as usize == number {
        Some((change, later))
    } else {
        None
    }
}

/// Adds to a copy what stands in it for the line of this number, where these changes are left, and
/// answers those that are left then.
fn put_line<'a>(
    copy: &mut Vec<u8>,
    line: &FirstLine<'_>,
    number: usize,
    left: &'a [Change],
) -> Result<&'a [Change], ChangeFault>
    requires text { line.now.text.now ≡ text_of line.now.whole.now }
    requires end { line.now.end.now ≡ end_of line.now.whole.now }
    requires some { 0 < number }
    requires waits { Waits (number - 1) left.now }
    ensures left { IfOk result
        (λ later. LeavesChanges (number - 1) line.now.text.now left.now later.now) }
    ensures copy { Ascends (number - 1) left.now → IfOk result (λ _. copy.new.items
        ≡ copy.old.items ++ edited (edit_of number left.now) line.now.whole.now) }
    ensures fault { IfErr result (RefusesChange (number - 1) line.now.text.now left.now) }
{
    match due(left, number) {
        Some((change, later)) => {
            put_edited(copy, line, change)?;
            in_order(change.line, later)
        }
        None => {
            copy.extend_from_slice(line.whole)?;
            Ok(left)
        }
    }
}
