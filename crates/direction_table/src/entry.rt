//! What a row states: its columns are tested in a fixed order.

ghost use Rattle.std.specs.Prelude.{◌≡◌, ◌<◌, ◌≤◌, [], length, pos, slice_index_or, true, false};
ghost use Rattle.std.specs.Prelude.{None, Some, IfErr, IfNone, IfOk, IfSome, OnOk, OnSome};
ghost use Rattle.std.specs.List.{position};
ghost use Rattle.std.specs.Str.{bytes_eq};
ghost use Rattle.adjust_kernel.specs.Within.{IsWithin};
ghost use Rattle.sheet_format.specs.Faults.{is_name};
ghost use Rattle.direction_table.specs.Faults as faults;
ghost use Rattle.direction_table.specs.Directions as spec;
ghost use Rattle.direction_table.specs.FieldForms.{has_name};
ghost use Rattle.direction_table.specs.Rows.{two_columns_view};

use crate::columns::Columns;
use crate::direction::{CIRCLE_PARTS, COARSEST_STEP, Direction};
use crate::fault::RowKind;
use crate::unit::AngleUnit;
use adjust_kernel::Name;

/// The direction that a row states, and the place of its target.
#[derive(Clone, Copy)]
pub(crate) struct Entry {
    pub(crate) place: usize,
    pub(crate) stated: Stated,
}

/// A direction as a row states it.
#[derive(Clone, Copy)]
pub(crate) struct Stated {
    /// In parts.
    pub(crate) direction: i64,
    /// The step to which it is rounded as it is written, in parts; 0 where it tells none.
    pub(crate) step: u64,
}

/// The name of a field.
fn name_of(field: &[u8]) -> Option<Name>
    ensures value { IfSome result (λ name. name ≡ field.now) }
    ensures some { OnSome result (is_name field.now ≡ true) }
    ensures none { IfNone result (is_name field.now ≡ false) }
{
    Name::new(field)
}

/// The direction of a field, or what is wrong with it.
fn direction_of(unit: AngleUnit, field: &[u8]) -> Result<Stated, RowKind>
    ensures form { OnOk result (spec.is_direction unit field.now ≡ true) }
    ensures value { IfOk result (λ stated. stated.direction ≡ spec.direction_value unit field.now) }
    ensures step { IfOk result (λ stated. stated.step ≡ spec.step_in unit field.now) }
    ensures bound { IfOk result (λ stated. IsWithin (pos CIRCLE_PARTS) stated.direction) }
    ensures small_step { IfOk result (λ stated. stated.step ≤ COARSEST_STEP) }
    ensures faultless { OnOk result (faults.direction_fault unit field.now ≡ None) }
    ensures fault { IfErr result (λ kind. faults.direction_fault unit field.now ≡ Some kind) }
{
    let read = Direction::of(unit, field).ok_or(RowKind::Number)?;
    let direction = read.on_circle().ok_or(RowKind::Range)?;
    Ok(Stated {
        direction,
        step: read.step(),
    })
}

/// The place of the first target of this name.
fn first_named(targets: &[Name], name: &Name) -> Option<usize>
    ensures { result ≡ position (λ target. bytes_eq target name.now) targets.now }
{
    targets.iter().position(|target| target.is_same(name))
}

/// The place of the target of this name.
#[tactic(auto, using(crate::proofs::NamedTargets::as_named))]
fn place_of(targets: &[Name], name: &Name) -> Option<usize>
    ensures inside { IfSome result (λ place. place < length targets.now) }
    ensures name { IfSome result (λ place. slice_index_or targets.now place [] ≡ name.now) }
    ensures some { OnSome result (has_name targets.now name.now ≡ true) }
    ensures none { IfNone result (has_name targets.now name.now ≡ false) }
{
    first_named(targets, name)
}

/// What the columns of a row state, or their first fault.
pub(crate) fn entry_of(
    unit: AngleUnit,
    columns: &Columns<'_>,
    targets: &[Name],
) -> Result<Entry, RowKind>
    ensures faultless { OnOk result
        (faults.entry_fault unit targets.now (two_columns_view columns.now) ≡ None) }
    ensures inside { IfOk result (λ entry. entry.place < length targets.now) }
    ensures name { IfOk result
        (λ entry. slice_index_or targets.now entry.place [] ≡ (two_columns_view columns.now).name) }
    ensures form { OnOk result
        (spec.is_direction unit (two_columns_view columns.now).direction ≡ true) }
    ensures direction { IfOk result (λ entry. entry.stated.direction
        ≡ spec.direction_value unit (two_columns_view columns.now).direction) }
    ensures step { IfOk result (λ entry. entry.stated.step
        ≡ spec.step_in unit (two_columns_view columns.now).direction) }
    ensures bound { IfOk result (λ entry. IsWithin (pos CIRCLE_PARTS) entry.stated.direction) }
    ensures small_step { IfOk result (λ entry. entry.stated.step ≤ COARSEST_STEP) }
    ensures fault { IfErr result
        (λ kind. faults.entry_fault unit targets.now (two_columns_view columns.now) ≡ Some kind) }
{
    let name = name_of(columns.name).ok_or(RowKind::Name)?;
    let stated = direction_of(unit, columns.direction)?;
    let place = place_of(targets, &name).ok_or(RowKind::Unknown)?;
    Ok(Entry { place, stated })
}
