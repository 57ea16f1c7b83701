//! The one pair of columns of a table that fits, where its rows are not of two columns.
//!
//! All rows are held at once: each column is looked at in all of them.

ghost use Rattle.std.specs.Prelude.{◌≡◌, ◌==◌, ◌+◌, ◌&&◌, ◌≤◌, IfOk, IfSome, find, length, map};
ghost use Rattle.std.specs.Prelude.{nat_lt};
ghost use Rattle.std.specs.List.{list_any};
ghost use Rattle.std.specs.Option.{is_some};
ghost use Rattle.std.specs.Str.{bytes_eq};
ghost use Rattle.adjust_kernel.specs.Stations.{AreTargets};
ghost use Rattle.csv.specs.Records.{fields_of};
ghost use Rattle.direction_table.specs.Cells as cells;
ghost use Rattle.direction_table.specs.FoundColumns as spec;
ghost use Rattle.direction_table.specs.NamingRows.{all_rows, naming_rows, numeric_of};
ghost use Rattle.direction_table.specs.NumberColumns.{fitting_columns};
ghost use Rattle.direction_table.specs.Separators.{rows_by};
ghost use Rattle.direction_table.specs.TakenCells as cut;

use crate::cell::names_in;
use crate::form::ColumnPair;
use crate::number_columns::{Naming, naming_columns};
use crate::picked::are_table;
use crate::reading::LONGEST_TABLE;
use crate::records::Records;
use crate::separator::{Separator, kept_record};
use crate::taken::Taken;
use crate::unit::AngleUnit;
use crate::way::Way;
use adjust_kernel::Name;
use csv::ByteRecord;
use std::alloc::{AllocError, Global};

/// All rows of a text by a separator.
pub(crate) fn rows_with(
    alloc: Global,
    separator: Separator,
    bytes: &[u8],
) -> Result<Vec<ByteRecord>, AllocError>
    ensures rows { IfOk result (λ rows. map fields_of rows.items ≡ rows_by separator bytes.now) }
    ensures few { IfOk result (λ rows. length rows.items ≤ length bytes.now) }
{
    let mut records = Records::of(alloc, separator, bytes);
    let mut rows = Vec::new(alloc);
    'rows: loop {
        let mut record = ByteRecord::new(alloc);
        if !records.next(&mut record)? {
            return Ok(rows);
        }
        rows.push(kept_record(alloc, separator, record)?)?;
    }
}

/// Whether columns are those of a direction, from the first on.
fn are_span(columns: &[u16], first: u16, taken: Taken) -> bool
    ensures { result ≡ bytes_eq columns.now (spec.span first (cut.count_of taken)) }
{
    match (taken, columns) {
        (Taken::One, [one]) => *one == first,
        (Taken::Three, [one, two, three]) => *one == first && follow(first, *two, *three),
        _ => false,
    }
}

/// Whether two columns are those after one.
fn follow(first: u16, second: u16, third: u16) -> bool
    ensures { result ≡ ((second == first + 1) && (third == first + 2)) }
{
    second as u32 == first as u32 + 1 && third as u32 == first as u32 + 2
}

/// Whether a pair of columns, whose direction takes so many fields, is alone, and its rows are a
/// table; `numeric` are the columns that may hold numbers.
fn is_alone(
    alloc: Global,
    unit: AngleUnit,
    of: &Naming<'_>,
    numeric: &[u16],
    directions: u16,
    taken: Taken,
) -> Result<bool, AllocError>
    requires targets { AreTargets of.now.targets.now }
    requires short { length of.now.rows.now ≤ LONGEST_TABLE }
    requires numeric { numeric.now ≡ numeric_of of.now }
    ensures { IfOk result (λ alone. alone ≡ spec.is_alone unit of.now.targets.now
        (all_rows of.now) (naming_rows of.now)
        (record { names = of.now.names; directions = directions }) (cut.count_of taken)) }
{
    if !are_span(numeric, directions, taken) {
        return Ok(false);
    }
    if !of.are_followed(unit, directions as usize + taken.count() as usize)
        || !of.names_no_other()
    {
        return Ok(false);
    }
    are_table(
        alloc,
        unit,
        of.targets,
        pair_of(of.names, directions),
        of.rows,
    )
}

/// Two columns as a pair.
fn pair_of(names: u32, directions: u16) -> ColumnPair
    ensures { result ≡ record { names = names; directions = directions } }
{
    ColumnPair {
        names,
        directions: u32::from(directions),
    }
}

/// How rows are read whose column of names is this one.
fn way_by_names(
    alloc: Global,
    unit: AngleUnit,
    separator: Separator,
    of: &Naming<'_>,
) -> Result<Way, AllocError>
    requires targets { AreTargets of.now.targets.now }
    requires short { length of.now.rows.now ≤ LONGEST_TABLE }
    ensures { IfOk result (λ way. way ≡ spec.way_by unit of.now.targets.now separator
        (all_rows of.now) (naming_rows of.now) of.now.names
        (fitting_columns unit (naming_rows of.now) (numeric_of of.now))) }
{
    let numeric = of.numeric_columns(alloc)?;
    let fitting = of.fitting_columns(alloc, unit, &numeric)?;
    let first = first_after(of.names, &fitting);
    way_with_first(alloc, unit, separator, of, &numeric, &fitting, first)
}

/// The first of some columns after that of names.
fn first_after(names: u32, fitting: &[u16]) -> Option<u16>
    ensures { result ≡ find (nat_lt names) fitting.now }
{
    fitting
        .iter()
        .copied()
        .find(|column| *column as u32 > names)
}

/// The same, where this is the first column after the names that fits.
fn way_with_first(
    alloc: Global,
    unit: AngleUnit,
    separator: Separator,
    of: &Naming<'_>,
    numeric: &[u16],
    fitting: &[u16],
    first: Option<u16>,
) -> Result<Way, AllocError>
    requires targets { AreTargets of.now.targets.now }
    requires short { length of.now.rows.now ≤ LONGEST_TABLE }
    requires numeric { numeric.now ≡ numeric_of of.now }
    ensures { IfOk result (λ way. way ≡ spec.way_with_first unit of.now.targets.now separator
        (all_rows of.now) (naming_rows of.now) of.now.names fitting.now first) }
{
    let Some(first) = first else {
        return Ok(Way::TwoColumns);
    };
    let taken = of.cells_of_each(alloc, unit, first as u32)?;
    if is_alone(alloc, unit, of, numeric, first, taken)? {
        return Ok(Way::ByColumns(separator, pair_of(of.names, first)));
    }
    Ok(second_fit(first, other_fit(first, taken.count(), fitting)))
}

/// The first of some columns that is none of a direction's, which takes so many.
fn other_fit(first: u16, taken: u16, fitting: &[u16]) -> Option<u16>
    ensures { result ≡ find (spec.is_outside first taken) fitting.now }
{
    fitting
        .iter()
        .copied()
        .find(|other| is_outside(first, taken, *other))
}

/// Whether a column is none of a direction's, which takes so many from the first on.
fn is_outside(first: u16, taken: u16, other: u16) -> bool
    ensures { result ≡ spec.is_outside first taken other }
{
    other < first || first as u32 + taken as u32 <= other as u32
}

/// What is answered where a column fits and is not alone: another that fits beside it, if there is
/// one.
fn second_fit(first: u16, other: Option<u16>) -> Way
    ensures { result ≡ spec.second_fit first other }
{
    match other {
        None => Way::TwoColumns,
        Some(other) if other < first => Way::MoreFit(other, first),
        Some(other) => Way::MoreFit(first, other),
    }
}

/// How bytes are read by a separator; none, where no column names the targets.
fn way_with(
    alloc: Global,
    unit: AngleUnit,
    targets: &[Name],
    bytes: &[u8],
    separator: Separator,
) -> Result<Option<Way>, AllocError>
    requires targets { AreTargets targets.now }
    requires short { length bytes.now ≤ LONGEST_TABLE }
    ensures named { IfOk result
        (λ way. is_some way ≡ spec.is_named_by targets.now bytes.now separator) }
    ensures way { IfOk result (λ found. IfSome found
        (λ way. way ≡ spec.way_with unit targets.now bytes.now separator)) }
{
    let rows = rows_with(alloc, separator, bytes)?;
    let columns = naming_columns(alloc, targets, &rows)?;
    match columns.as_slice() {
        [] => Ok(None),
        [names] => {
            let of = Naming {
                targets,
                rows: &rows,
                names: *names as u32,
            };
            Ok(Some(way_by_names(alloc, unit, separator, &of)?))
        }
        [first, second, ..] => Ok(Some(Way::MoreFit(*first, *second))),
    }
}

/// How bytes are read that are no table of two columns: by the first of comma, semicolon, tab and
/// blanks by which a column names the targets.
#[tactic(auto, unfolding(crate::specs::FoundColumns::found_way))]
pub(crate) fn found_way(
    alloc: Global,
    unit: AngleUnit,
    targets: &[Name],
    bytes: &[u8],
) -> Result<Way, AllocError>
    requires targets { AreTargets targets.now }
    requires short { length bytes.now ≤ LONGEST_TABLE }
    ensures { IfOk result (λ way. way ≡ spec.found_way unit targets.now bytes.now) }
{
    if let Some(way) = way_with(alloc, unit, targets, bytes, Separator::Comma)? {
        return Ok(way);
    }
    if let Some(way) = way_with(alloc, unit, targets, bytes, Separator::Semicolon)? {
        return Ok(way);
    }
    if let Some(way) = way_with(alloc, unit, targets, bytes, Separator::Tab)? {
        return Ok(way);
    }
    if let Some(way) = way_with(alloc, unit, targets, bytes, Separator::Blanks)? {
        return Ok(way);
    }
    Ok(Way::TwoColumns)
}

/// Whether a row names a target in a column, by a separator.
fn has_names(
    alloc: Global,
    targets: &[Name],
    names: usize,
    bytes: &[u8],
    separator: Separator,
) -> Result<bool, AllocError>
    ensures { IfOk result (λ has. has
        ≡ list_any (cells.names_in targets.now names) (rows_by separator bytes.now)) }
{
    let rows = rows_with(alloc, separator, bytes)?;
    Ok(any_names(targets, names, &rows))
}

/// Whether some row names a target in a column.
fn any_names(targets: &[Name], names: usize, rows: &[ByteRecord]) -> bool
    ensures { result ≡ list_any (cells.names_in targets.now names) (map fields_of rows.now) }
{
    for row in rows {
        if names_in(targets, row, names) {
            return true;
        }
    }
    false
}

/// The separator of a table whose column of names is stated.
#[tactic(auto, unfolding(crate::specs::FoundColumns::separator_by))]
pub(crate) fn separator_by(
    alloc: Global,
    targets: &[Name],
    names: usize,
    bytes: &[u8],
) -> Result<Separator, AllocError>
    ensures { IfOk result
        (λ separator. separator ≡ spec.separator_by targets.now names bytes.now) }
{
    if has_names(alloc, targets, names, bytes, Separator::Comma)? {
        return Ok(Separator::Comma);
    }
    if has_names(alloc, targets, names, bytes, Separator::Semicolon)? {
        return Ok(Separator::Semicolon);
    }
    if has_names(alloc, targets, names, bytes, Separator::Tab)? {
        return Ok(Separator::Tab);
    }
    Ok(Separator::Blanks)
}
