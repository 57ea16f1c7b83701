//! The comparison of a table with its station, as an answer, and by its own calls.
ghost use Rattle.std.specs.Prelude.{◌≡◌, IfOk, ⊤};
ghost use Rattle.adjust_kernel.specs.declared.bounds.TheConstants.{LARGEST_RESIDUAL_LIMIT};
ghost use Rattle.byte_ends.specs.Writers.{writer_change};
ghost use Rattle.byte_ends.specs.Source.{reader_change, UntilDropped};
ghost use Rattle.exact_adjustment.specs.Exact.{IsExact, KeepsLimit};
ghost use Rattle.exact_adjustment.specs.LeastOf.{AreTied};
ghost use Rattle.table_answers.specs.Comparisons.{IsCompareRun, IsComparison, PrintsComparison};
ghost use Rattle.table_answers.specs.Comparisons.{SaysComparison};
ghost use Rattle.table_answers.specs.Comparisons as spec;
ghost use Rattle.table_answers.specs.Telling.{RunTold};
ghost use Rattle.table_answers.specs.OneCompared.{comparable, one_compared};
ghost use Rattle.table_answers.specs.OneFault.{never_refused, one_refused, refused_of_bytes};
ghost use Rattle.table_answers.specs.Refusing.{RefusesComparison};
ghost use Rattle.table_answers.specs.Wholes.{beyond_in};
ghost use Rattle.table_report.specs.Stating.{beyond_of};

use crate::answer::TableAnswer;
use crate::answering::{run_table_answer, table_answer_of};
use crate::compared::Compared;
use crate::noted::{Noted, note_of};
use adjust_kernel::Station;
use byte_ends::{Sink, Source};
use direction_table::{TableForm, read_stated_table};
use exact_adjustment::{Adjustment, adjust};
use least_directions::apart_by;
use station_book::{ResultLimits, Surveyed};
use station_check::write_whole;
use station_compare::{Agreement, CompareFault, HowFar, Refusal, agreement_line};
use station_results::greatest_size;
use std::alloc::{AllocError, Global};

/// How far a table is apart from a station, and whether it agrees: within so many units of 0.000001
/// gon; where no number is stated, within what is usual for the steps to which the table's rows
/// round their directions.
///
/// One rotation brings every stated direction so near to the least-squares one, least over all
/// directions, orientations and full turns, and none brings them nearer by a unit. What a number has
/// past the decimals that count is within that too.
#[derive(Clone, Copy, Debug, PartialEq, Eq, Drop)]
pub struct Comparison {
    /// How the table is to be read.
    pub form: TableForm,
    /// The limit that is stated.
    pub within: Option<u32>,
}

impl TableAnswer for Comparison {
    ghost use Rattle.table_answers.specs.declared.compared.Compared.{Compared};

    type Answer = Compared;

    ghost Value = { Compared };

    ghost value = { λ compared. compared };

    ghost form_of = { λ asked. asked.form };

    ghost says = { λ asked. SaysComparison asked.form asked.within };

    ghost refuses = { λ asked. RefusesComparison asked.form };

    ghost prints = { PrintsComparison };

    fn of_table(
        &self,
        alloc: Global,
        limits: ResultLimits,
        surveyed: &Surveyed,
        bytes: &[u8],
    ) -> Result<Noted<Compared>, CompareFault> {
        let station = surveyed.station();
        let stated = read_stated_table(alloc, self.form, station.targets(), bytes)?;
        let adjustment = adjust(alloc, station, limits.residual)?;
        let apart = apart_by(station, &adjustment, &stated.directions, stated.most_off);
        let limit = self.within.unwrap_or(stated.usual_within);
        let how_far = HowFar { apart, limit };
        let note = note_of(alloc, self.form, station, &adjustment, &stated, bytes)?;
        let answer = compared_by(alloc, station, &adjustment, how_far)?;
        Ok(Noted { answer, note })
    }

    fn print<W: Sink>(answer: Compared, out: &mut W) -> Result<(), CompareFault>
        ensures { PrintsComparison answer result (writer_change W.Sink out.old out.new) }
    {
        let agreement = answer.verdict()?;
        write_whole(out, agreement_line(agreement).as_slice())?;
        Ok(())
    }

    ghost one = { λ asked limits its bytes a b p q.
        one_compared asked.form its.station limits.residual bytes asked.within a b p q };

    ghost one_fault = { λ asked. one_refused asked.form };

    ghost never_both = { λ asked limits its bytes a fault held set p.
        never_refused asked.form limits its bytes fault held (comparable asked.form its.station
        limits.residual bytes asked.within a p) set };

    ghost memory = { λ asked limits its bytes. λ within. tt };

    ghost of_bytes = { λ asked. refused_of_bytes asked.form };
}

/// Whether a table agrees that is so far apart from a station, by an adjustment of it.
pub(crate) fn compared_by(
    alloc: Global,
    station: &Station,
    adjustment: &Adjustment,
    how_far: HowFar,
) -> Result<Compared, AllocError>
    requires exact { IsExact station.now adjustment.now }
    requires limited { KeepsLimit station.now adjustment.now LARGEST_RESIDUAL_LIMIT }
    requires tied { AreTied station.now }
    ensures compared { IfOk result (spec.IsComparedBy station.now how_far) }
    ensures beyond { IfOk result (λ compared. beyond_in compared ≡ beyond_of how_far) }
{
    if how_far.apart > how_far.limit {
        return Ok(Compared::Apart(how_far));
    }
    let greatest = greatest_size(alloc, station, adjustment)?;
    Ok(Compared::Agrees(Agreement {
        name: station.name(),
        sets: station.sets().len() as u32,
        targets: station.targets().len() as u32,
        how_far,
        greatest,
    }))
}

/// Whether the directions that a table states agree with the least-squares directions of the
/// station of this name, as a [`Comparison`] of this form and limit says it.
///
/// The field file is read to its end first, and the table's reader is not asked before.
///
/// # Errors
///
/// The first fault of the file; then `NoStation`; then that of the table; then that of the
/// adjustment; then `Apart`. `Memory` may stand in the place of any answer.
pub fn compare_bytes<R: Source, Q: Source>(
    alloc: Global,
    gsi: R,
    table: &mut Q,
    form: TableForm,
    name: &[u8],
    limits: ResultLimits,
    within: Option<u32>,
) -> Result<Agreement, CompareFault>
    // All of it is said of the very bytes that the two readers gave, whatever they are.
    ensures { UntilDropped R.told R.failed R.gave gsi (λ gsi. IsComparison form limits within gsi
        (reader_change Q.told Q.failed Q.gave table.old table.new) name.now result) }
{
    let asked = Comparison { form, within };
    let (answer, _gsi) = table_answer_of(alloc, gsi, table, name, limits, &asked);
    verdict_of(answer)
}

/// The verdict of an answer.
fn verdict_of(noted: Result<Noted<Compared>, Refusal>) -> Result<Agreement, CompareFault>
    ensures { result ≡ spec.verdict_of noted }
{
    noted?.answer.verdict()
}

/// Compares the directions that a table states with those of the station of this name, and answers
/// the exit status: 0 where they agree, and their line was written to `out`; else 1. `err` gets the
/// note of the table, and then the line of a refusal and its hint; where it fails, they are lost and
/// the status stays.
pub fn run_compare<R: Source, Q: Source, W: Sink, E: Sink>(
    alloc: Global,
    gsi: R,
    table: &mut Q,
    form: TableForm,
    name: &[u8],
    limits: ResultLimits,
    within: Option<u32>,
    out: &mut W,
    err: &mut E,
) -> u8
    ensures { UntilDropped R.told R.failed R.gave gsi (λ gsi. RunTold {A = ⊤}
        (IsCompareRun form limits within gsi
        (reader_change Q.told Q.failed Q.gave table.old table.new) name.now)
        result (writer_change W.Sink out.old out.new)
        (writer_change E.Sink err.old err.new)) }
{
    let asked = Comparison { form, within };
    run_table_answer(alloc, gsi, table, name, limits, &asked, out, err)
}
