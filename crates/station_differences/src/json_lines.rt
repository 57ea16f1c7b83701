//! The differences as JSON lines, made in memory.
ghost use Rattle.std.specs.Prelude.{◌≡◌, ◌++◌, IfOk, OnOk};
ghost use Rattle.station_differences.specs.JsonLines as spec;

use crate::line::{TargetLine, compared_of};
use crate::median::median_of;
use crate::text::{are_short, push_from_median, push_stated};
use angle_texts::{push_gon, push_mgon};
use std::alloc::{AllocError, Global};

/// The text of the targets of a station as JSON lines: an object for each, in their order.
///
/// The only error is that memory was refused.
pub(crate) fn json_lines_of(alloc: Global, lines: &[TargetLine]) -> Result<Vec<u8>, AllocError>
    ensures { IfOk result (λ text. text.items ≡ spec.json_lines lines.now) }
{
    let compared = compared_of(alloc, lines)?;
    let short = are_short(&compared);
    let median = median_of(&compared);
    let mut text = Vec::new(alloc);
    for line in lines {
        push_line(&mut text, short, median, line)?;
    }
    Ok(text)
}

/// Adds the object of a target, on its line.
#[tactic(auto, unfolding(crate::specs::JsonLines::json_line))]
fn push_line(
    text: &mut Vec<u8>,
    short: bool,
    median: i32,
    line: &TargetLine,
) -> Result<(), AllocError>
    ensures { OnOk result
        (text.new.items ≡ text.old.items ++ spec.json_line short median line.now) }
{
    text.push(b'{')?;
    push_name(text, line.target().bytes())?;
    push_directions(text, short, line)?;
    push_differences(text, median, line)?;
    text.extend_from_slice(b"}\n")
}

/// Adds the name of a target.
#[tactic(auto, unfolding(crate::specs::JsonLines::json_name))]
fn push_name(text: &mut Vec<u8>, name: &[u8]) -> Result<(), AllocError>
    ensures { OnOk result (text.new.items ≡ text.old.items ++ spec.json_name name.now) }
{
    text.extend_from_slice(b"\"target\":\"")?;
    for &byte in name {
        push_escaped(text, byte)?;
    }
    text.push(b'"')?;
    Ok(())
}

/// Adds a byte of a name, with a backslash before it where it needs one.
fn push_escaped(text: &mut Vec<u8>, byte: u8) -> Result<(), AllocError>
    ensures { OnOk result (text.new.items ≡ text.old.items ++ spec.escaped byte) }
{
    if byte == b'"' || byte == b'\\' {
        text.push(b'\\')?;
    }
    text.push(byte)?;
    Ok(())
}

/// Adds the directions of a target.
#[tactic(auto, unfolding(crate::specs::JsonLines::json_directions))]
fn push_directions(text: &mut Vec<u8>, short: bool, line: &TargetLine) -> Result<(), AllocError>
    ensures { OnOk result
        (text.new.items ≡ text.old.items ++ spec.json_directions short line.now) }
{
    text.extend_from_slice(b",\"stated\":")?;
    push_stated_or_null(text, short, line)?;
    text.extend_from_slice(b",\"least_squares\":")?;
    push_gon(text, line.least())?;
    Ok(())
}

/// Adds what is stated of a target.
#[tactic(auto, unfolding(crate::specs::JsonLines::json_stated))]
fn push_stated_or_null(text: &mut Vec<u8>, short: bool, line: &TargetLine) -> Result<(), AllocError>
    ensures { OnOk result (text.new.items ≡ text.old.items ++ spec.json_stated short line.now) }
{
    match line {
        TargetLine::Compared(row) => push_stated(text, short, row.stated),
        TargetLine::Lacking(_) => text.extend_from_slice(b"null"),
    }
}

/// Adds the differences of a target.
#[tactic(auto, unfolding(crate::specs::JsonLines::json_differences))]
fn push_differences(text: &mut Vec<u8>, median: i32, line: &TargetLine) -> Result<(), AllocError>
    ensures { OnOk result
        (text.new.items ≡ text.old.items ++ spec.json_differences median line.now) }
{
    match line {
        TargetLine::Compared(row) => push_both(text, row.difference, median),
        TargetLine::Lacking(_) => {
            text.extend_from_slice(b",\"difference\":null,\"from_median\":null")
        }
    }
}

/// Adds a difference, as it is and less the median.
fn push_both(text: &mut Vec<u8>, difference: i32, median: i32) -> Result<(), AllocError>
    ensures { OnOk result
        (text.new.items ≡ text.old.items ++ spec.json_both median difference) }
{
    text.extend_from_slice(b",\"difference\":")?;
    push_mgon(text, difference)?;
    text.extend_from_slice(b",\"from_median\":")?;
    push_from_median(text, difference, median)?;
    Ok(())
}
