//! What is told of a table that is read by a pair of its columns.

ghost use Rattle.std.specs.Prelude.{◌≡◌, ◌++◌, ◌≤◌, IfOk, OnOk, filter, length, map, not};
ghost use Rattle.direction_table.specs.Cells.{names_in};
ghost use Rattle.std.specs.List.{prefix_len};
ghost use Rattle.csv.specs.Records.{fields_of};
ghost use Rattle.direction_table.specs.TableNotes as spec;

use crate::cell::{GON_WORD, cell, names_in, without_unit};
use crate::form::ColumnPair;
use crate::picked::end_of_named;
use crate::reading::{ByColumns, LONGEST_TABLE};
use crate::unit::AngleUnit;
use adjust_kernel::Name;
use csv::ByteRecord;
use itoa::Buffer;
use std::alloc::{AllocError, Global};

/// What was passed over of a table.
#[derive(Clone, Copy, Debug, PartialEq, Eq, Drop)]
pub struct Passed {
    /// The rows before the first that names a target.
    pub before: u32,
    /// Those that name none, between those that do.
    pub among: u32,
    /// Those after the last that names one.
    pub after: u32,
    /// The units behind the directions.
    pub units: u32,
}

/// Whether a unit stands behind a direction, in its field or in the next.
fn has_unit(unit: AngleUnit, row: &ByteRecord, column: u32) -> bool
    ensures { result ≡ spec.has_unit unit column (fields_of row.now) }
{
    let stated = cell(row, column as usize);
    cell(row, column as usize + 1) == GON_WORD || without_unit(unit, stated) != stated
}

/// How many rows stand before the first that names a target in a column.
fn rows_before(targets: &[Name], names: usize, rows: &[ByteRecord]) -> usize
    ensures value { result
        ≡ prefix_len (λ row. not (names_in targets.now names row)) (map fields_of rows.now) }
    ensures bound { result ≤ length rows.now }
{
    for place in 0..rows.len() {
        if names_in(targets, &rows[place], names) {
            return place;
        }
    }
    rows.len()
}

/// What is passed over of rows that are read by a pair of their columns.
pub(crate) fn passed_by(
    unit: AngleUnit,
    targets: &[Name],
    pair: ColumnPair,
    rows: &[ByteRecord],
) -> Passed
    requires { length rows.now ≤ LONGEST_TABLE }
    ensures { result ≡ spec.passed_by unit targets.now pair (map fields_of rows.now) }
{
    let names = pair.names as usize;
    let before = rows_before(targets, names, rows);
    let after = rows.len() - end_of_named(targets, names, rows);
    Passed {
        before: before as u32,
        among: count_others(targets, names, rows).saturating_sub(before + after) as u32,
        after: after as u32,
        units: count_units(unit, targets, pair, rows) as u32,
    }
}

/// How many rows name no target in a column.
fn count_others(targets: &[Name], names: usize, rows: &[ByteRecord]) -> usize
    ensures count { result ≡ length
        (filter (λ row. not (names_in targets.now names row)) (map fields_of rows.now)) }
    ensures bound { result ≤ length rows.now }
{
    let mut count = 0;
    for row in rows {
        if !names_in(targets, row, names) {
            count += 1;
        }
    }
    count
}

/// How many of the rows that name a target have a unit behind their direction.
fn count_units(unit: AngleUnit, targets: &[Name], pair: ColumnPair, rows: &[ByteRecord]) -> usize
    ensures count { result ≡ spec.units_passed unit targets.now pair (map fields_of rows.now) }
    ensures bound { result ≤ length rows.now }
{
    let mut count = 0;
    for row in rows {
        if names_in(targets, row, pair.names as usize) && has_unit(unit, row, pair.directions) {
            count += 1;
        }
    }
    count
}

/// Adds a text and a number after it.
#[tactic(auto, unfolding(crate::specs::TableNotes::numbered))]
fn push_numbered(text: &mut Vec<u8>, bytes: &[u8], number: u64) -> Result<(), AllocError>
    ensures { OnOk result (text.new.items ≡ text.old.items ++ spec.numbered bytes.now number) }
{
    let mut digits = Buffer::new();
    text.extend_from_slice(bytes)?;
    text.extend_from_slice(digits.format(number).as_bytes())?;
    Ok(())
}

/// Adds the line of a note: the columns that were read, and what was passed over.
fn push_note(text: &mut Vec<u8>, by: ByColumns) -> Result<(), AllocError>
    ensures { OnOk result (text.new.items ≡ text.old.items ++ spec.note_line by) }
{
    let ByColumns { pair, passed } = by;
    let names = u64::from(pair.names) + 1;
    let directions = u64::from(pair.directions) + 1;
    push_numbered(text, b"note: table: targets in column ", names)?;
    push_numbered(text, b", directions in column ", directions)?;
    push_numbered(text, b"; rows passed over: ", u64::from(passed.before))?;
    push_numbered(text, b" before, ", u64::from(passed.among))?;
    push_numbered(text, b" among, ", u64::from(passed.after))?;
    push_numbered(
        text,
        b" after them; units passed over: ",
        u64::from(passed.units),
    )?;
    text.push(b'\n')?;
    Ok(())
}

/// The note of a table that was read by a pair of its columns: one line. No byte of any other.
///
/// The only error is that memory was refused.
pub fn told_note(alloc: Global, by_columns: Option<ByColumns>) -> Result<Vec<u8>, AllocError>
    ensures { IfOk result (λ note. note.items ≡ spec.told_note by_columns) }
{
    let mut note = Vec::new(alloc);
    if let Some(by) = by_columns {
        push_note(&mut note, by)?;
    }
    Ok(note)
}
