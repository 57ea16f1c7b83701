//! The part of a station in a table of all.

ghost use Rattle.std.specs.Prelude.{◌≡◌, ◌<◌, ◌^◌, IfOk, length};
ghost use Rattle.station_tables.specs.Lines.{of_lines};
ghost use Rattle.station_tables.specs.Parts as spec;

use crate::line::has_text;
use crate::said::said_of;
use adjust_kernel::Name;
use std::alloc::{AllocError, Global};

/// The part of the station of this name: what each line of it says, with a line feed.
///
/// The only error is that memory was refused.
pub fn part_of(alloc: Global, lines: &[&[u8]], name: Name) -> Result<Vec<u8>, AllocError>
    ensures { IfOk result (λ part. part.items ≡ spec.part_of name (of_lines lines.now)) }
{
    let mut part = Vec::new(alloc);
    'lines: for place in 0..lines.len() {
        if let Some(said) = said_of(name, lines[place]) {
            part.extend_from_slice(said)?;
            part.push(b'\n')?;
        }
    }
    Ok(part)
}

/// The line, from 1, in which the row of this number, from 1, of a station's part stands; 0 where
/// the part has fewer.
pub fn line_of_row(lines: &[&[u8]], name: Name, row: u32) -> u32
    requires { length lines.now < 2 ^ 32 }
    ensures { result ≡ spec.line_of_row name (of_lines lines.now) row }
{
    let mut before = row.saturating_sub(1);
    'lines: for place in 0..lines.len() {
        if has_row(name, lines[place]) {
            if before == 0 {
                return place as u32 + 1;
            }
            before -= 1;
        }
    }
    0
}

/// Whether a line is a row of the station of this name.
fn has_row(name: Name, line: &[u8]) -> bool
    ensures { result ≡ spec.has_row name line.now }
{
    match said_of(name, line) {
        Some(said) => has_text(said),
        None => false,
    }
}
