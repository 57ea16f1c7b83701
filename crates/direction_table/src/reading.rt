//! Bytes as a table of directions.
//!
//! They are read as a table of two columns first: its rows one by one into one record, which is
//! used again, up to the first with a fault; then a target without a row is looked for. Only where
//! that is no table of the station, or columns are stated, all rows are held at once and other
//! columns are looked at.

ghost use Rattle.std.specs.Prelude.{◌≡◌, ◌==◌, ◌&&◌, ◌≤◌, ◌<◌, ◌⊎◌, List, ℤ, Some, length, map};
ghost use Rattle.std.specs.Prelude.{Err, IfErr, IfOk, MatchResult, None};
ghost use Rattle.std.specs.List.{list_all};
ghost use Rattle.std.specs.Option.{is_some};
ghost use Rattle.adjust_kernel.specs.Stations.{AreTargets};
ghost use Rattle.csv.specs.Records.{fields_of};
ghost use Rattle.direction_table.specs.Faults as faults;
ghost use Rattle.direction_table.specs.Faults.{HasNoFault};
ghost use Rattle.direction_table.specs.FaultsOfRows.{IsRowFaultOrMemory};
ghost use Rattle.direction_table.specs.FieldForms.{tidy};
ghost use Rattle.direction_table.specs.Separators.{rows_of};
ghost use Rattle.direction_table.specs.FoundColumns.{found_way, separator_by};
ghost use Rattle.direction_table.specs.TableNotes.{columns_read};
ghost use Rattle.direction_table.specs.TableRows.{table_rows, unstated_way, way_of};
ghost use Rattle.direction_table.specs.WaysRead.{IsReadIn, IsWayFaultOrMemory};
ghost use Rattle.direction_table.specs.declared.way.Way.TheVariants as way;
ghost use Rattle.direction_table.specs.Tables.{IsMissingOrMemory, IsPartFaultOrMemory, IsPartText};
ghost use Rattle.direction_table.specs.Tables.{IsTableFault, IsTableFaultOrMemory, IsTableText};
ghost use Rattle.direction_table.specs.Tables.{stated_by};
ghost use Rattle.direction_table.specs.UsualLimits as spec;
ghost use Rattle.direction_table.specs.declared.fault.TableFault.{TableFault};
ghost use Rattle.direction_table.specs.declared.fault.TableFault.TheVariants.{Memory, TooLong};

use crate::columns::are_titles;
use crate::direction::{COARSEST_STEP, DEGREE_PARTS};
use crate::draft::take_row;
use crate::fault::TableFault;
use crate::form::{ColumnPair, TableForm};
use crate::found::{found_way, rows_with, separator_by};
use crate::limit::{finer, most_off, usual_within};
use crate::note::{Passed, passed_by};
use crate::picked::{none_or_memory, read_by_pair};
use crate::records::Records;
use crate::separator::{Separator, kept_row, separator_of};
use crate::unit::AngleUnit;
use crate::way::Way;
use adjust_kernel::{MOST_TARGETS, Name};
use csv::ByteRecord;
use std::alloc::{AllocError, Global};

/// The most bytes of a table.
pub const LONGEST_TABLE: usize = 1_048_576;

/// The directions of a station's targets, in their order, that these bytes are a table of; or the
/// first fault of the bytes. The table states them in a unit, and in columns that may be stated;
/// they are given in parts, 81 of which are 0.000000001 gon.
///
/// Memory that is refused is answered as such, in place of either; but of too many bytes none is
/// asked for.
pub fn read_table(
    alloc: Global,
    form: TableForm,
    targets: &[Name],
    bytes: &[u8],
) -> Result<Vec<i64>, TableFault>
    requires { AreTargets targets.now }
    ensures table { IfOk result (λ directions.
        IsTableText form targets.now bytes.now directions.items) }
    ensures fault { IfErr result (IsTableFaultOrMemory form targets.now bytes.now) }

    // Bytes that are a table, and bytes with a fault, get no other answer, unless memory ran out.
    ensures stands { (directions : List ℤ) → IsTableText form targets.now bytes.now directions
        → MatchResult result (λ read. read.items ≡ directions) (λ fault. fault ≡ Memory) }
    ensures refused { (fault : TableFault) → IsTableFault form targets.now bytes.now fault
        → (result ≡ Err fault) ⊎ (result ≡ Err Memory) }

    // That bytes are too many is seen before any memory is taken.
    ensures too_long { LONGEST_TABLE < length bytes.now → result ≡ Err TooLong }
{
    let table = read_stated_table(alloc, form, targets, bytes)?;
    Ok(table.directions)
}

/// What a table states.
#[derive(Debug, Drop)]
pub struct StatedTable {
    /// The directions of the targets, in their order, in parts, 81 of which are 0.000000001 gon.
    pub directions: Vec<i64>,
    /// The limit of a comparison that is usual for the finest step to which a row rounds its
    /// direction, in units of 0.000001 gon: half of it, rounded up, and 5, but 10 at least. Gon and
    /// degrees without decimals tell no step, nor does 0-00-00.
    pub usual_within: u32,
    /// By how many parts the numbers that the rows write may be off from these directions: 0 where
    /// each is read whole, and 90 where one has more decimals than count.
    pub most_off: u64,
    /// How the table was read, where that is by a pair of its columns.
    pub by_columns: Option<ByColumns>,
}

/// A pair of columns by which a table was read, and what was passed over of it.
#[derive(Clone, Copy, Debug, PartialEq, Eq, Drop)]
pub struct ByColumns {
    /// The columns.
    pub pair: ColumnPair,
    /// What was passed over.
    pub passed: Passed,
}

/// The same as [`read_table`] gives, and the limit that is usual for the rows.
pub fn read_stated_table(
    alloc: Global,
    form: TableForm,
    targets: &[Name],
    bytes: &[u8],
) -> Result<StatedTable, TableFault>
    requires { AreTargets targets.now }
    ensures table { IfOk result (λ stated.
        IsTableText form targets.now bytes.now stated.directions.items) }
    ensures usual_within { IfOk result (λ stated.
        stated.usual_within
        ≡ spec.usual_within form.unit (table_rows form targets.now bytes.now)) }
    ensures most_off { IfOk result (λ stated.
        stated.most_off ≡ spec.most_off form.unit (table_rows form targets.now bytes.now)) }
    ensures columns { IfOk result (λ stated.
        stated.by_columns ≡ columns_read form targets.now bytes.now) }
    ensures small_off { IfOk result (λ stated. stated.most_off ≤ DEGREE_PARTS) }
    ensures fault { IfErr result (IsTableFaultOrMemory form targets.now bytes.now) }
    ensures too_long { LONGEST_TABLE < length bytes.now → result ≡ Err TooLong }
{
    read_part_table(alloc, form, targets, bytes)?.whole(alloc)
}

/// What a table states of a part of the targets, or of all.
#[derive(Debug, Drop)]
pub struct PartTable {
    /// The direction of each target, in their order, in parts, 81 of which are 0.000000001 gon; none
    /// where no row states it.
    pub directions: Vec<Option<i64>>,
    /// The usual limit of a comparison, as [`StatedTable`] has it.
    pub usual_within: u32,
    /// By how many parts the numbers that the rows write may be off, as there.
    pub most_off: u64,
    /// How the table was read, where that is by a pair of its columns.
    pub by_columns: Option<ByColumns>,
}

impl PartTable {
    /// The same as a table of all targets, or the first of which no row states a direction.
    pub fn whole(&self, alloc: Global) -> Result<StatedTable, TableFault>
        requires { length self.now.directions.items ≤ MOST_TARGETS }
        ensures directions { IfOk result (λ whole.
            self.now.directions.items ≡ map Some whole.directions.items) }
        ensures usual_within { IfOk result (λ whole.
            whole.usual_within ≡ self.now.usual_within) }
        ensures most_off { IfOk result (λ whole. whole.most_off ≡ self.now.most_off) }
        ensures by_columns { IfOk result (λ whole. whole.by_columns ≡ self.now.by_columns) }
        ensures missing { IfErr result (IsMissingOrMemory self.now.directions.items) }
    {
        Ok(StatedTable {
            directions: all_stated(alloc, &self.directions)?,
            usual_within: self.usual_within,
            most_off: self.most_off,
            by_columns: self.by_columns,
        })
    }
}

/// The same as [`read_stated_table`] gives, where rows may lack: no target is missed.
pub fn read_part_table(
    alloc: Global,
    form: TableForm,
    targets: &[Name],
    bytes: &[u8],
) -> Result<PartTable, TableFault>
    requires { AreTargets targets.now }
    ensures table { IfOk result (λ part.
        IsPartText form targets.now bytes.now part.directions.items) }
    ensures usual_within { IfOk result (λ part.
        part.usual_within ≡ spec.usual_within form.unit (table_rows form targets.now bytes.now)) }
    ensures most_off { IfOk result (λ part.
        part.most_off ≡ spec.most_off form.unit (table_rows form targets.now bytes.now)) }
    ensures columns { IfOk result (λ part.
        part.by_columns ≡ columns_read form targets.now bytes.now) }
    ensures small_off { IfOk result (λ part. part.most_off ≤ DEGREE_PARTS) }
    ensures fault { IfErr result (IsPartFaultOrMemory form targets.now bytes.now) }
    ensures too_long { LONGEST_TABLE < length bytes.now → result ≡ Err TooLong }
{
    if bytes.len() > LONGEST_TABLE {
        return Err(TableFault::TooLong);
    }
    let ReadTable { stated, by_columns } = read_as(alloc, form, targets, bytes)?;
    Ok(PartTable {
        usual_within: usual_within(stated.finest_step),
        most_off: most_off(stated.finest_step),
        directions: stated.directions,
        by_columns,
    })
}

/// What the rows of a table state, and by which of its columns they were read.
#[derive(Drop)]
struct ReadTable {
    stated: StatedRows,
    by_columns: Option<ByColumns>,
}

/// What the rows of bytes that are not too many state of each target, or their first fault.
fn read_as(
    alloc: Global,
    form: TableForm,
    targets: &[Name],
    bytes: &[u8],
) -> Result<ReadTable, TableFault>
    requires targets { AreTargets targets.now }
    requires short { length bytes.now ≤ LONGEST_TABLE }
    ensures read { IfOk result (IsReadIn form.unit targets.now bytes.now
        (way_of form targets.now bytes.now)) }
    ensures fault { IfErr result (IsPartFaultOrMemory form targets.now bytes.now) }
{
    match form.columns {
        Some(pair) => read_stated_columns(alloc, form.unit, targets, pair, bytes),
        None => read_unstated(alloc, form.unit, targets, bytes),
    }
}

/// The same, where these columns are stated.
fn read_stated_columns(
    alloc: Global,
    unit: AngleUnit,
    targets: &[Name],
    pair: ColumnPair,
    bytes: &[u8],
) -> Result<ReadTable, TableFault>
    requires targets { AreTargets targets.now }
    requires short { length bytes.now ≤ LONGEST_TABLE }
    ensures read { IfOk result (IsReadIn unit targets.now bytes.now
        (way.ByColumns (separator_by targets.now pair.names bytes.now) pair)) }
    ensures fault { IfErr result (IsWayFaultOrMemory unit targets.now bytes.now
        (way.ByColumns (separator_by targets.now pair.names bytes.now) pair)) }
{
    let separator = separator_by(alloc, targets, pair.names as usize, bytes)?;
    read_columns(alloc, unit, targets, separator, pair, bytes)
}

/// The same, where no columns are stated: as two columns, if they are a table so; else by the one
/// pair of columns that fits; else as two columns, to name what is wrong with them.
fn read_unstated(
    alloc: Global,
    unit: AngleUnit,
    targets: &[Name],
    bytes: &[u8],
) -> Result<ReadTable, TableFault>
    requires targets { AreTargets targets.now }
    requires short { length bytes.now ≤ LONGEST_TABLE }
    ensures read { IfOk result (IsReadIn unit targets.now bytes.now
        (unstated_way unit targets.now bytes.now)) }
    ensures fault { IfErr result (IsWayFaultOrMemory unit targets.now bytes.now
        (unstated_way unit targets.now bytes.now)) }
{
    match read_rows(alloc, unit, targets, bytes) {
        Ok(stated) => read_beside(alloc, unit, targets, bytes, stated),
        Err(fault) => read_in_place(alloc, unit, targets, bytes, fault),
    }
}

/// The same, where the rows of two columns have no fault and state this.
fn read_beside(
    alloc: Global,
    unit: AngleUnit,
    targets: &[Name],
    bytes: &[u8],
    stated: StatedRows,
) -> Result<ReadTable, TableFault>
    requires targets { AreTargets targets.now }
    requires short { length bytes.now ≤ LONGEST_TABLE }
    requires own { IsReadIn unit targets.now bytes.now way.TwoColumns
        (record { stated = stated; by_columns = None }) }
    ensures read { IfOk result (IsReadIn unit targets.now bytes.now
        (unstated_way unit targets.now bytes.now)) }
    ensures fault { IfErr result (IsWayFaultOrMemory unit targets.now bytes.now
        (unstated_way unit targets.now bytes.now)) }
{
    if are_all_stated(&stated.directions) {
        return Ok(ReadTable {
            stated,
            by_columns: None,
        });
    }
    read_found(alloc, unit, targets, bytes, Ok(stated))
}

/// The same, where the rows of two columns have this fault, or memory ran out.
fn read_in_place(
    alloc: Global,
    unit: AngleUnit,
    targets: &[Name],
    bytes: &[u8],
    fault: TableFault,
) -> Result<ReadTable, TableFault>
    requires targets { AreTargets targets.now }
    requires short { length bytes.now ≤ LONGEST_TABLE }
    requires own { IsWayFaultOrMemory unit targets.now bytes.now way.TwoColumns fault }
    ensures read { IfOk result (IsReadIn unit targets.now bytes.now
        (unstated_way unit targets.now bytes.now)) }
    ensures fault { IfErr result (IsWayFaultOrMemory unit targets.now bytes.now
        (unstated_way unit targets.now bytes.now)) }
{
    none_or_memory(fault)?;
    read_found(alloc, unit, targets, bytes, Err(fault))
}

/// What the rows of bytes state in the one pair of columns that fits, or their first fault; where
/// none fits, what was read of their own two columns.
fn read_found(
    alloc: Global,
    unit: AngleUnit,
    targets: &[Name],
    bytes: &[u8],
    own: Result<StatedRows, TableFault>,
) -> Result<ReadTable, TableFault>
    requires targets { AreTargets targets.now }
    requires short { length bytes.now ≤ LONGEST_TABLE }
    requires stated { IfOk own (λ stated. IsReadIn unit targets.now bytes.now way.TwoColumns
        (record { stated = stated; by_columns = None })) }
    requires refused { IfErr own
        (IsWayFaultOrMemory unit targets.now bytes.now way.TwoColumns) }
    ensures read { IfOk result (IsReadIn unit targets.now bytes.now
        (found_way unit targets.now bytes.now)) }
    ensures fault { IfErr result (IsWayFaultOrMemory unit targets.now bytes.now
        (found_way unit targets.now bytes.now)) }
{
    match found_way(alloc, unit, targets, bytes)? {
        Way::TwoColumns => match own {
            Ok(stated) => Ok(ReadTable {
                stated,
                by_columns: None,
            }),
            Err(fault) => Err(fault),
        },
        Way::ByColumns(separator, pair) => {
            read_columns(alloc, unit, targets, separator, pair, bytes)
        }
        Way::MoreFit(first, second) => {
            Err(TableFault::Columns(first as u32 + 1, second as u32 + 1))
        }
    }
}

/// What the rows of bytes state in a pair of the columns that a separator separates, or their first
/// fault.
fn read_columns(
    alloc: Global,
    unit: AngleUnit,
    targets: &[Name],
    separator: Separator,
    pair: ColumnPair,
    bytes: &[u8],
) -> Result<ReadTable, TableFault>
    requires targets { AreTargets targets.now }
    requires short { length bytes.now ≤ LONGEST_TABLE }
    ensures read { IfOk result
        (IsReadIn unit targets.now bytes.now (way.ByColumns separator pair)) }
    ensures fault { IfErr result
        (IsWayFaultOrMemory unit targets.now bytes.now (way.ByColumns separator pair)) }
{
    let rows = rows_with(alloc, separator, bytes)?;
    let stated = read_by_pair(alloc, unit, targets, pair, &rows)?;
    let passed = passed_by(unit, targets, pair, &rows);
    Ok(ReadTable {
        stated,
        by_columns: Some(ByColumns { pair, passed }),
    })
}

/// What the rows of a table state.
#[derive(Drop)]
pub(crate) struct StatedRows {
    /// Of each target its direction, as far as a row states it.
    pub(crate) directions: Vec<Option<i64>>,
    /// The finest step that a row tells, in parts; 0 where none tells one.
    pub(crate) finest_step: u64,
}

/// What the rows of bytes that are not too many state of each target as a table of two columns, or
/// their first fault.
fn read_rows(
    alloc: Global,
    unit: AngleUnit,
    targets: &[Name],
    bytes: &[u8],
) -> Result<StatedRows, TableFault>
    requires targets { AreTargets targets.now }
    requires short { length bytes.now ≤ LONGEST_TABLE }
    ensures faultless { IfOk result (λ stated. HasNoFault unit targets.now
        (rows_of targets.now bytes.now)) }
    ensures stated { IfOk result (λ stated. stated.directions.items
        ≡ stated_by unit (rows_of targets.now bytes.now) targets.now) }
    ensures finest { IfOk result (λ stated. stated.finest_step
        ≡ spec.finest_step unit (rows_of targets.now bytes.now)) }
    ensures small_step { IfOk result (λ stated. stated.finest_step ≤ COARSEST_STEP) }
    ensures fault { IfErr result (IsRowFaultOrMemory
        (faults.table_rules unit targets.now) (rows_of targets.now bytes.now)) }
{
    let separator = separator_of(alloc, targets, bytes)?;
    let mut records = Records::of(alloc, separator, bytes);
    let mut directions = vec![in alloc; None; targets.len()]?;
    let mut finest_step = 0;
    let mut record = ByteRecord::new(alloc);
    let mut kept = ByteRecord::new(alloc);
    let mut number: u32 = 0;
    'rows: loop {
        let found = records.next(&mut record)?;
        if !found {
            return Ok(StatedRows {
                directions,
                finest_step,
            });
        }
        let row = kept_row(separator, &record, &mut kept)?;
        number += 1;
        if begins_with_titles(number, unit, targets, row) {
            continue;
        }
        match take_row(unit, &mut directions, targets, row) {
            Ok(step) => finest_step = finer(finest_step, step),
            Err(kind) => return Err(TableFault::Row(number, kind)),
        }
    }
}

/// Whether the row of this number is the first, and one of titles.
fn begins_with_titles(number: u32, unit: AngleUnit, targets: &[Name], row: &ByteRecord) -> bool
    ensures { result ≡ ((number == 1)
        && faults.are_titles unit targets.now (tidy targets.now (fields_of row.now))) }
{
    number == 1 && are_titles(unit, targets, row)
}

/// The directions of all targets, or the first that has none.
#[tactic(auto, using(crate::proofs::StatedDirections::as_far))]
fn all_stated(alloc: Global, stated: &[Option<i64>]) -> Result<Vec<i64>, TableFault>
    requires { length stated.now ≤ MOST_TARGETS }
    ensures all { IfOk result (λ directions. stated.now ≡ map Some directions.items) }
    ensures missing { IfErr result (IsMissingOrMemory stated.now) }
{
    let mut directions = Vec::with_capacity(alloc, stated.len())?;
    for (place, direction) in stated.iter().enumerate() {
        let Some(direction) = direction else {
            return Err(TableFault::Missing(place as u32 + 1));
        };
        directions.push(*direction).map_err(AllocError::from)?;
    }
    Ok(directions)
}

/// Whether all targets have a direction.
pub(crate) fn are_all_stated(stated: &[Option<i64>]) -> bool
    ensures { result ≡ list_all is_some stated.now }
{
    stated.iter().all(|direction| direction.is_some())
}
