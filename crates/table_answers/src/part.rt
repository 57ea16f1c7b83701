//! A table that may lack targets of its station: what it states of them, and how it was read.
ghost use Rattle.std.specs.Prelude.{◌≡◌, ◌≤◌, ◌↔◌, List, ℕ, length};
ghost use Rattle.std.specs.Prelude.{IfErr, IfOk, IfSome, IsTrue, MatchResult, OnOk};
ghost use Rattle.adjust_kernel.specs.declared.bounds.TheConstants.{LARGEST_RESIDUAL_LIMIT};
ghost use Rattle.direction_table.specs.declared.form.TableForm.{TableForm as Form};
ghost use Rattle.exact_adjustment.specs.Exact.{IsExact, KeepsLimit};
ghost use Rattle.exact_adjustment.specs.LeastOf.{AreTied, HasResidualsWithin};
ghost use Rattle.table_answers.specs.Noting.{Noting};
ghost use Rattle.table_answers.specs.OtherUnits.{Agrees};
ghost use Rattle.table_answers.specs.PartTables.{AreLinesOf, IsTooFewOrMemory, IsWholeOf, ReadsAs};
ghost use Rattle.table_answers.specs.Refusing.{RefusesDifferences};

use crate::noted::{AsRead, Noted, note_by};
use crate::other_unit::is_near;
use adjust_kernel::{MOST_TARGETS, Station};
use direction_table::{
    DEGREE_PARTS, PartTable, StatedTable, TableFault, TableForm, read_part_table,
};
use exact_adjustment::{Adjustment, adjust};
use station_book::{ResultLimits, Surveyed};
use station_compare::CompareFault;
use station_differences::{TargetLine, is_enough, lines_by};
use std::alloc::{AllocError, Global};

/// A line for each target of a station beside a table that may lack some, and the note of the table.
///
/// # Errors
///
/// Those of the table, of which `Missing` comes only where it states too few directions; then those
/// of the adjustment; `Memory`.
pub(crate) fn lines_of_table(
    alloc: Global,
    form: TableForm,
    limits: ResultLimits,
    surveyed: &Surveyed,
    bytes: &[u8],
) -> Result<Noted<Vec<TargetLine>>, CompareFault>
    ensures tells { MatchResult result
        (λ noted. Noting (AreLinesOf form) form surveyed.now bytes.now
        (noted.answer.items, noted.note.items))
        (RefusesDifferences form limits surveyed.now bytes.now) }
    ensures held { OnOk result (HasResidualsWithin surveyed.now.station limits.residual) }
{
    let station = surveyed.station();
    let part = read_part_table(alloc, form, station.targets(), bytes)?;
    let whole = whole_of(alloc, &part)?;
    let adjustment = adjust(alloc, station, limits.residual)?;
    let read = AsRead {
        by_columns: part.by_columns,
        agrees: agrees(station, &adjustment, &whole),
    };
    let note = note_by(alloc, form, station, &adjustment, read, bytes)?;
    let answer = lines_by(alloc, station.targets(), &adjustment, &part.directions)?;
    Ok(Noted { answer, note })
}

/// The same table where it lacks no target; none, where it lacks some and states enough.
///
/// # Errors
///
/// The first target that is missing, where it states too few; `Memory`.
#[tactic(auto, using(crate::proofs::PartTables::lacks_some))]
fn whole_of(alloc: Global, part: &PartTable) -> Result<Option<StatedTable>, TableFault>
    requires { length part.now.directions.items ≤ MOST_TARGETS }
    ensures whole { IfOk result (IsWholeOf part.now) }
    ensures few { IfErr result (IsTooFewOrMemory part.now.directions.items) }
{
    match part.whole(alloc) {
        Ok(whole) => Ok(Some(whole)),
        Err(TableFault::Missing(_)) if is_enough(&part.directions) => Ok(None),
        Err(fault) => Err(fault),
    }
}

/// Whether a table agrees as it is read: one that lacks targets doesn't.
#[tactic(auto, using(crate::proofs::OtherUnits::near_agrees))]
fn agrees(station: &Station, adjustment: &Adjustment, whole: &Option<StatedTable>) -> bool
    requires exact { IsExact station.now adjustment.now }
    requires limited { KeepsLimit station.now adjustment.now LARGEST_RESIDUAL_LIMIT }
    requires tied { AreTied station.now }
    requires each { IfSome whole.now (λ stated.
        length stated.directions.items ≡ length station.now.targets) }
    requires off { IfSome whole.now (λ stated. stated.most_off ≤ DEGREE_PARTS) }
    ensures { (form : Form) (bytes : List ℕ) → ReadsAs form station.now bytes whole.now
        → IsTrue result ↔ Agrees form station.now bytes }
{
    match whole {
        Some(stated) => is_near(station, adjustment, stated),
        None => false,
    }
}
