//! The directions of the targets as far as the rows of a table were read.

ghost use Rattle.std.specs.Prelude.{◌≡◌, ◌≤◌, ◌++◌, ◌∷◌, [], map, length, None, Some};
ghost use Rattle.std.specs.Prelude.{IfErr, IfOk, OnOk};
ghost use Rattle.csv.specs.Records.{fields_of};
ghost use Rattle.adjust_kernel.specs.Stations.{AreTargets};
ghost use Rattle.direction_table.specs.Drafts.{OfRowsBefore};
ghost use Rattle.direction_table.specs.Faults as faults;
ghost use Rattle.direction_table.specs.FieldForms.{tidy};
ghost use Rattle.direction_table.specs.Rows.{direction_in};
ghost use Rattle.direction_table.specs.UsualLimits.{row_step};

use crate::columns::Columns;
use crate::direction::COARSEST_STEP;
use crate::entry::entry_of;
use crate::fault::RowKind;
use crate::unit::AngleUnit;
use adjust_kernel::Name;
use csv::ByteRecord;

/// Takes the next row: its direction becomes that of its target. Gives the step that the row tells.
#[tactic(auto, unfolding(crate::specs::Faults::stating_fault))]
pub(crate) fn take_row(
    unit: AngleUnit,
    directions: &mut [Option<i64>],
    targets: &[Name],
    row: &ByteRecord,
) -> Result<u64, RowKind>
    requires different { AreTargets targets.now }
    requires long { length directions.old ≡ length targets.now }
    ensures faultless { OnOk result (OfRowsBefore unit targets.now directions.old (λ before.
        faults.stating_fault unit targets.now before (tidy targets.now (fields_of row.now))
        ≡ None)) }
    ensures taken { OnOk result (OfRowsBefore unit targets.now directions.old (λ before.
        directions.new ≡ map (direction_in unit
        (before ++ (tidy targets.now (fields_of row.now) ∷ []))) targets.now)) }
    ensures step { IfOk result
        (λ step. step ≡ row_step unit (tidy targets.now (fields_of row.now))) }
    ensures small_step { IfOk result (λ step. step ≤ COARSEST_STEP) }
    ensures fault { IfErr result (λ kind. OfRowsBefore unit targets.now directions.old (λ before.
        faults.stating_fault unit targets.now before (tidy targets.now (fields_of row.now))
        ≡ Some kind)) }
{
    let columns = Columns::parse(targets, row).ok_or(RowKind::Fields)?;
    let entry = entry_of(unit, &columns, targets)?;
    if directions[entry.place].is_some() {
        return Err(RowKind::Twice);
    }
    directions[entry.place] = Some(entry.stated.direction);
    Ok(entry.stated.step)
}
