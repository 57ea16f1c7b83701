//! The columns of a table, by what its rows have in them.

ghost use Rattle.std.specs.Prelude.{◌≡◌, ◌≤◌, IfOk, length, map};
ghost use Rattle.std.specs.List.{list_all, list_any};
ghost use Rattle.csv.specs.Records.{fields_of};
ghost use Rattle.direction_table.specs.NumberColumns as spec;
ghost use Rattle.direction_table.specs.Cells as cells;
ghost use Rattle.direction_table.specs.FoundColumns as found;
ghost use Rattle.direction_table.specs.NamingRows.{all_rows, naming_rows, numeric_of};
ghost use Rattle.direction_table.specs.Separators.{first_of};
ghost use Rattle.direction_table.specs.TakenCells as cut;

use crate::cell::{
    begins_what_goes_on, cell, goes_on, is_stated_in, may_be_number, may_follow, names_any,
    names_in, takes_three,
};
use crate::field::{field, named};
use crate::taken::Taken;
use crate::unit::AngleUnit;
use adjust_kernel::Name;
use csv::ByteRecord;
use itoa::Buffer;
use std::alloc::{AllocError, Global};

/// No table of more columns is looked at for those that fit.
pub const MOST_COLUMNS: u16 = 1_000;

/// How many columns the widest of some rows has.
fn width_of(rows: &[ByteRecord]) -> usize
    ensures { result ≡ spec.width_of (map fields_of rows.now) }
{
    let mut width = 0;
    for row in rows {
        width = width.max(row.len());
    }
    width
}

/// How many columns of some rows are looked at: all, but where they are too many none.
fn looked_at(rows: &[ByteRecord]) -> u16
    ensures { spec.columns_below result ≡ spec.looked_at (map fields_of rows.now) }
{
    let width = width_of(rows);
    if width > MOST_COLUMNS as usize {
        0
    } else {
        width as u16
    }
}

/// How many rows have a target's name in a column.
fn times_named(targets: &[Name], rows: &[ByteRecord], column: u16, target: &Name) -> usize
    ensures value { result
        ≡ spec.times_named targets.now column (map fields_of rows.now) target.now }
    ensures bound { result ≤ length rows.now }
{
    let mut times = 0;
    for row in rows {
        if named(targets, field(row, column as usize)) == target.bytes() {
            times += 1;
        }
    }
    times
}

/// Whether a column names the targets, each in one row.
fn is_naming(targets: &[Name], rows: &[ByteRecord], column: u16) -> bool
    ensures { result ≡ spec.is_naming targets.now (map fields_of rows.now) column }
{
    targets
        .iter()
        .all(|target| times_named(targets, rows, column, target) == 1)
}

/// The columns that name the targets.
pub(crate) fn naming_columns(
    alloc: Global,
    targets: &[Name],
    rows: &[ByteRecord],
) -> Result<Vec<u16>, AllocError>
    ensures { IfOk result
        (λ columns. columns.items ≡ spec.naming_columns targets.now (map fields_of rows.now)) }
{
    let mut columns = Vec::new(alloc);
    for column in 0..looked_at(rows) {
        if is_naming(targets, rows, column) {
            columns.push(column)?;
        }
    }
    Ok(columns)
}

/// The rows of a table that name targets in a column.
#[derive(Clone, Copy)]
pub(crate) struct Naming<'a> {
    pub(crate) targets: &'a [Name],
    pub(crate) rows: &'a [ByteRecord],
    /// The column of names.
    pub(crate) names: u32,
}

impl<'a> Naming<'a> {
    /// Whether a row is one of them.
    fn has(&self, row: &ByteRecord) -> bool
        ensures { result ≡ cells.names_in self.now.targets.now self.now.names (fields_of row.now) }
    {
        names_in(self.targets, row, self.names as usize)
    }

    /// Whether a column counts them from a number on.
    fn counts_from(&self, first: u64, column: u16) -> bool
        requires { first ≤ 1 }
        ensures { result ≡ spec.counts_from first column (naming_rows self.now) }
    {
        let mut number = first;
        let mut digits = Buffer::new();
        for row in self.rows {
            if !self.has(row) {
                continue;
            }
            if cell(row, column as usize) != digits.format(number).as_bytes() {
                return false;
            }
            number += 1;
        }
        true
    }

    /// The field of the first of them in a column, without the white space around it.
    fn first_cell(&self, column: u16) -> &[u8]
        ensures { result.now ≡ cells.cell column (first_of (naming_rows self.now)) }
    {
        for row in self.rows {
            if self.has(row) {
                return cell(row, column as usize);
            }
        }
        &[]
    }

    /// Whether a column has the same field in all of them.
    fn is_constant(&self, column: u16) -> bool
        ensures { result ≡ spec.is_constant column (naming_rows self.now) }
    {
        self.has_in_all(column, self.first_cell(column))
    }

    /// Whether a column has this field in all of them.
    fn has_in_all(&self, column: u16, field: &[u8]) -> bool
        ensures { result ≡ spec.has_in_all column field.now (naming_rows self.now) }
    {
        for row in self.rows {
            if self.has(row) && cell(row, column as usize) != field {
                return false;
            }
        }
        true
    }

    /// Whether a column before the names counts the rows, or is the same in all.
    fn is_beside(&self, column: u16) -> bool
        ensures { result ≡ spec.is_beside self.now.names (naming_rows self.now) column }
    {
        (column as u32) < self.names
            && (self.counts_from(0, column)
                || self.counts_from(1, column)
                || self.is_constant(column))
    }

    /// Whether a field of some of them may be a number.
    fn has_number(&self, column: u16) -> bool
        ensures { result
            ≡ list_any (λ row. cells.may_be_number (cells.cell column row)) (naming_rows self.now) }
    {
        for row in self.rows {
            if self.has(row) && may_be_number(cell(row, column as usize)) {
                return true;
            }
        }
        false
    }

    /// Whether a column may hold numbers.
    fn is_numeric(&self, column: u16) -> bool
        ensures { result ≡ spec.is_numeric self.now.names (naming_rows self.now) column }
    {
        column as u32 != self.names && !self.is_beside(column) && self.has_number(column)
    }

    /// The columns that may hold numbers.
    pub(crate) fn numeric_columns(&self, alloc: Global) -> Result<Vec<u16>, AllocError>
        ensures { IfOk result (λ columns. columns.items ≡ numeric_of self.now) }
    {
        let mut columns = Vec::new(alloc);
        for column in 0..looked_at(self.rows) {
            if self.is_numeric(column) {
                columns.push(column)?;
            }
        }
        Ok(columns)
    }

    /// Whether in each of them a field after its direction is a unit or says nothing.
    pub(crate) fn are_followed(&self, unit: AngleUnit, after: usize) -> bool
        ensures { result ≡ found.are_followed unit after (naming_rows self.now) }
    {
        for row in self.rows {
            if self.has(row) && !may_follow(unit, cell(row, after)) {
                return false;
            }
        }
        true
    }

    /// Whether no other row names a target.
    pub(crate) fn names_no_other(&self) -> bool
        ensures { result
            ≡ found.names_no_other self.now.targets.now self.now.names (all_rows self.now) }
    {
        for row in self.rows {
            if !self.has(row) && names_any(self.targets, row) {
                return false;
            }
        }
        true
    }

    /// Whether a column has a direction, which takes so many cells, in each of them.
    fn have_directions(
        &self,
        alloc: Global,
        taken: Taken,
        unit: AngleUnit,
        column: u32,
    ) -> Result<bool, AllocError>
        ensures { IfOk result
            (λ have. have ≡ spec.have_directions taken unit (naming_rows self.now) column) }
    {
        let mut text = Vec::new(alloc);
        for row in self.rows {
            if self.has(row) && !is_stated_in(&mut text, taken, unit, row, column)? {
                return Ok(false);
            }
        }
        Ok(true)
    }

    /// Whether a column has a direction in each of them.
    fn has_directions(
        &self,
        alloc: Global,
        unit: AngleUnit,
        column: u32,
    ) -> Result<bool, AllocError>
        ensures { IfOk result
            (λ has. has ≡ spec.has_directions unit (naming_rows self.now) column) }
    {
        let taken = self.cells_of_each(alloc, unit, column)?;
        self.have_directions(alloc, taken, unit, column)
    }

    /// Those of some columns that have a direction in each of them.
    pub(crate) fn fitting_columns(
        &self,
        alloc: Global,
        unit: AngleUnit,
        numeric: &[u16],
    ) -> Result<Vec<u16>, AllocError>
        ensures { IfOk result (λ columns. columns.items
            ≡ spec.fitting_columns unit (naming_rows self.now) numeric.now) }
    {
        let mut columns = Vec::new(alloc);
        for column in numeric {
            if self.has_directions(alloc, unit, *column as u32)? {
                columns.push(*column)?;
            }
        }
        Ok(columns)
    }

    /// How many cells a direction takes in a column: three, where it has degrees, minutes and
    /// seconds in each of them.
    pub(crate) fn cells_of_each(
        &self,
        alloc: Global,
        unit: AngleUnit,
        column: u32,
    ) -> Result<Taken, AllocError>
        ensures { IfOk result
            (λ taken. taken ≡ cut.cells_of_each unit column (naming_rows self.now)) }
    {
        let mut text = Vec::new(alloc);
        for row in self.rows {
            if self.has(row) && !takes_three(&mut text, unit, row, column)? {
                return Ok(Taken::One);
            }
        }
        Ok(Taken::Three)
    }

    /// Whether a cell after a column may go on with a direction of the column.
    fn any_goes_on(&self, unit: AngleUnit, column: u32) -> bool
        ensures { result ≡ list_any (cut.goes_on unit column) (naming_rows self.now) }
    {
        for row in self.rows {
            if self.has(row) && goes_on(unit, row, column) {
                return true;
            }
        }
        false
    }

    /// Whether only beginnings of directions have a number after them.
    fn only_beginnings_go_on(&self, unit: AngleUnit, column: u32) -> bool
        ensures { result ≡ list_all (cut.begins_what_goes_on unit column) (naming_rows self.now) }
    {
        for row in self.rows {
            if self.has(row) && !begins_what_goes_on(unit, row, column) {
                return false;
            }
        }
        true
    }

    /// How many cells the directions of a column take: three also where they are cut.
    pub(crate) fn cells_taken(
        &self,
        alloc: Global,
        unit: AngleUnit,
        column: u32,
    ) -> Result<Taken, AllocError>
        ensures { IfOk result
            (λ taken. taken ≡ cut.cells_taken unit column (naming_rows self.now)) }
    {
        if self.any_goes_on(unit, column) && self.only_beginnings_go_on(unit, column) {
            return Ok(Taken::Three);
        }
        self.cells_of_each(alloc, unit, column)
    }
}
