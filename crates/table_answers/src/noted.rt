//! What is told of a table beside the answer.
ghost use Rattle.std.specs.Prelude.{◌≡◌, ◌≤◌, ◌↔◌, IfOk, IsTrue, length};
ghost use Rattle.adjust_kernel.specs.declared.bounds.TheConstants.{LARGEST_RESIDUAL_LIMIT};
ghost use Rattle.direction_table.specs.TableNotes.{columns_read};
ghost use Rattle.exact_adjustment.specs.Exact.{IsExact, KeepsLimit};
ghost use Rattle.exact_adjustment.specs.LeastOf.{AreTied};
ghost use Rattle.table_answers.specs.NearTables.{IsReadAs};
ghost use Rattle.table_answers.specs.Noting.{IsNote};
ghost use Rattle.table_answers.specs.OtherUnits.{Agrees};

use crate::other_unit::{is_near, other_unit, unit_note};
use adjust_kernel::Station;
use direction_table::{ByColumns, DEGREE_PARTS, StatedTable, TableForm, told_note};
use exact_adjustment::Adjustment;
use std::alloc::{AllocError, Global};

/// An answer, and what is told of the table.
#[derive(Drop)]
pub struct Noted<T> {
    /// The answer.
    pub answer: T,
    /// A line of a table that was read by a pair of its columns; and one that names the unit in
    /// which it agrees, where it is apart as it was read; else no byte.
    pub note: Vec<u8>,
}

/// How a table was read.
#[derive(Clone, Copy, Drop)]
pub(crate) struct AsRead {
    /// By which pair of its columns, where that is by one.
    pub(crate) by_columns: Option<ByColumns>,
    /// Whether it agrees so, by its usual limit.
    pub(crate) agrees: bool,
}

/// The note of a table that states this: by which pair of its columns it was read, and in which
/// unit it agrees, where it is apart as it is read.
///
/// The only error is that memory was refused.
pub(crate) fn note_of(
    alloc: Global,
    form: TableForm,
    station: &Station,
    adjustment: &Adjustment,
    stated: &StatedTable,
    bytes: &[u8],
) -> Result<Vec<u8>, AllocError>
    requires exact { IsExact station.now adjustment.now }
    requires limited { KeepsLimit station.now adjustment.now LARGEST_RESIDUAL_LIMIT }
    requires tied { AreTied station.now }
    requires each { length stated.now.directions.items ≡ length station.now.targets }
    requires off { stated.now.most_off ≤ DEGREE_PARTS }
    requires read { IsReadAs form station.now bytes.now stated.now.directions.items
        stated.now.most_off stated.now.usual_within }
    requires columns { stated.now.by_columns
        ≡ columns_read form station.now.targets bytes.now }
    ensures { IfOk result (λ note. IsNote form station.now bytes.now note.items) }
{
    let read = AsRead {
        by_columns: stated.by_columns,
        agrees: is_near(station, adjustment, stated),
    };
    note_by(alloc, form, station, adjustment, read, bytes)
}

/// The same of a table that was read in this way.
pub(crate) fn note_by(
    alloc: Global,
    form: TableForm,
    station: &Station,
    adjustment: &Adjustment,
    read: AsRead,
    bytes: &[u8],
) -> Result<Vec<u8>, AllocError>
    requires exact { IsExact station.now adjustment.now }
    requires limited { KeepsLimit station.now adjustment.now LARGEST_RESIDUAL_LIMIT }
    requires tied { AreTied station.now }
    requires agrees { IsTrue read.agrees ↔ Agrees form station.now bytes.now }
    requires columns { read.by_columns
        ≡ columns_read form station.now.targets bytes.now }
    ensures { IfOk result (λ note. IsNote form station.now bytes.now note.items) }
{
    let other = other_unit(alloc, form, station, adjustment, read.agrees, bytes)?;
    let mut note = told_note(alloc, read.by_columns)?;
    note.extend_from_slice(unit_note(other))?;
    Ok(note)
}
