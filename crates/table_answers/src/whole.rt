//! All that is answered of a table beside its station, as one answer.
ghost use Rattle.std.specs.Prelude.{◌≡◌, ◌≤◌, ◌++◌, Err, IfOk, OnOk, codes, decimal, length, map};
ghost use Rattle.adjust_kernel.specs.declared.bounds.TheConstants.{LARGEST_RESIDUAL_LIMIT};
ghost use Rattle.byte_ends.specs.Writers.{writer_change};
ghost use Rattle.exact_adjustment.specs.Exact.{IsExact, KeepsLimit};
ghost use Rattle.exact_adjustment.specs.LeastOf.{AreTied};
ghost use Rattle.row_forms.specs.declared.form.RowForm.TheVariants.{Commas};
ghost use Rattle.station_differences.specs.DifferenceTexts.{differences_text};
ghost use Rattle.station_differences.specs.declared.line.TargetLine.TheVariants.{Compared as InLine};
ghost use Rattle.table_answers.specs.ColumnRows.{columns_rows as rows_of};
ghost use Rattle.table_answers.specs.Comparisons.{IsComparedBy};
ghost use Rattle.table_answers.specs.OneFault.{never_refused, one_refused, refused_of_bytes};
ghost use Rattle.table_answers.specs.OneCompared.{comparable};
ghost use Rattle.table_answers.specs.OneWhole.{one_whole};
ghost use Rattle.table_answers.specs.Printing.{PrintsVerdict};
ghost use Rattle.table_answers.specs.Refusing.{RefusesComparison};
ghost use Rattle.table_answers.specs.declared.whole.TheConstants.{LONGEST_TITLE};
ghost use Rattle.table_answers.specs.Wholes.{IsWhole, WholeValue, beyond_in};
ghost use Rattle.table_answers.specs.Wholes as spec;
ghost use Rattle.table_report.specs.Stating.{beyond_of};
ghost use Rattle.table_report.specs.Values.{asked_of};

use crate::answer::TableAnswer;
use crate::columns_row::columns_rows;
use crate::compared::Compared;
use crate::comparison::compared_by;
use crate::noted::{Noted, note_of};
use crate::report::verdict;
use crate::verdict_row::{verdict_line, verdict_rows};
use adjust_kernel::Station;
use arrayvec::ArrayVec;
use byte_ends::Sink;
use direction_table::{ByColumns, read_stated_table};
use exact_adjustment::{Adjustment, adjust};
use row_forms::RowForm;
use station_answers::push_part;
use station_book::{ResultLimits, Surveyed};
use station_check::{LONGEST_VERDICT_LINE, VerdictLine, add, add_numbered, write_whole};
use station_compare::{Agreement, CompareFault};
use station_differences::{LineForm, lines_of, text_of};
use std::alloc::{AllocError, Global};
use table_report::{Asked, Beside, StatedDirections, beside_by};

/// All of a table beside its station, of one adjustment: the line of the verdict, the verdict as a
/// row, the columns by which the table was read, the differences, and the report with the table,
/// each after a line of its title and of how many bytes it has.
///
/// The verdict, the differences and the report are those of [`crate::Comparison`],
/// [`crate::Differences`] and [`Asked`], to the byte.
#[derive(Clone, Copy, Debug, Drop)]
pub struct Whole<'a, 'n> {
    /// How the report is asked for.
    pub asked: Asked<'a, 'n>,
}

/// A table that was compared.
#[derive(Drop)]
pub struct WholeTable {
    /// Whether it agrees.
    pub compared: Compared,
    /// The text of all parts.
    pub text: Vec<u8>,
}

impl<'a, 'n> TableAnswer for Whole<'a, 'n> {
    type Answer = WholeTable;

    ghost Value = { WholeValue };

    ghost value = { λ whole. spec.whole_value whole };

    ghost form_of = { λ whole. whole.asked.form };

    ghost says = { λ whole. IsWhole (asked_of whole.asked) };

    ghost refuses = { λ whole. RefusesComparison whole.asked.form };

    ghost prints = { spec.PrintsWhole };

    fn of_table(
        &self,
        alloc: Global,
        limits: ResultLimits,
        surveyed: &Surveyed,
        bytes: &[u8],
    ) -> Result<Noted<WholeTable>, CompareFault> {
        let (asked, station) = (&self.asked, surveyed.station());
        let table = read_stated_table(alloc, asked.form, station.targets(), bytes)?;
        let limit = asked.within.unwrap_or(table.usual_within);
        let adjustment = adjust(alloc, station, limits.residual)?;
        let note = note_of(alloc, asked.form, station, &adjustment, &table, bytes)?;
        let stated = StatedDirections {
            directions: &table.directions,
            off: table.most_off,
            limit,
        };
        let beside = beside_by(alloc, asked, limits, surveyed, &adjustment, &stated)?;
        let answer = whole_by(alloc, station, &adjustment, table.by_columns, &beside)?;
        Ok(Noted { answer, note })
    }

    fn print<W: Sink>(answer: WholeTable, out: &mut W) -> Result<(), CompareFault>
        ensures { spec.PrintsWhole (spec.whole_value answer) result (writer_change W.Sink out.old
            out.new) }
    {
        write_whole(out, &answer.text)?;
        verdict(answer.compared.beyond())
    }

    ghost one = { λ whole limits its bytes a b p q.
        one_whole (asked_of whole.asked) limits its bytes a b p q };

    ghost one_fault = { λ whole. one_refused whole.asked.form };

    ghost never_both = { λ whole limits its bytes a fault held set p.
        never_refused whole.asked.form limits its bytes fault held (comparable whole.asked.form
        its.station limits.residual bytes whole.asked.within a.compared p.compares) set };

    ghost memory = { λ whole limits its bytes. λ within. tt };

    ghost of_bytes = { λ whole. refused_of_bytes whole.asked.form };
}

/// All of a table beside its station, of how it was read, its rows, how far it is apart, and its
/// report.
///
/// The only error is that memory was refused.
fn whole_by(
    alloc: Global,
    station: &Station,
    adjustment: &Adjustment,
    by_columns: Option<ByColumns>,
    beside: &Beside,
) -> Result<WholeTable, AllocError>
    requires exact { IsExact station.now adjustment.now }
    requires limited { KeepsLimit station.now adjustment.now LARGEST_RESIDUAL_LIMIT }
    requires tied { AreTied station.now }
    ensures compared { IfOk result (λ whole.
        IsComparedBy station.now beside.now.how_far whole.compared) }
    ensures beyond { IfOk result (λ whole.
        beyond_in whole.compared ≡ beyond_of beside.now.how_far) }
    ensures text { IfOk result (λ whole. whole.text.items ≡ spec.whole_text whole.compared
        (rows_of by_columns)
        (differences_text Commas (map InLine beside.now.rows.items)) beside.now.report.items) }
{
    let compared = compared_by(alloc, station, adjustment, beside.how_far)?;
    let lines = lines_of(alloc, &beside.rows)?;
    let differences = text_of(alloc, &lines, LineForm::Rows(RowForm::Commas))?;
    let text = whole_text(alloc, &compared, by_columns, &differences, &beside.report)?;
    Ok(WholeTable { compared, text })
}

/// Adds the parts of a verdict to a text.
fn push_verdict(
    text: &mut Vec<u8>,
    verdict: &Result<Agreement, CompareFault>,
) -> Result<(), AllocError>
    ensures { OnOk result
        (text.new.items ≡ text.old.items ++ spec.verdict_parts verdict.now) }
{
    push_part(text, b"line", verdict_line(verdict).as_slice())?;
    push_part(text, b"verdict", verdict_rows(verdict).as_slice())
}

/// The parts in one text.
fn whole_text(
    alloc: Global,
    compared: &Compared,
    by_columns: Option<ByColumns>,
    differences: &[u8],
    report: &[u8],
) -> Result<Vec<u8>, AllocError>
    ensures { IfOk result (λ text. text.items ≡ spec.whole_text compared.now
        (rows_of by_columns) differences.now report.now) }
{
    let columns = columns_rows(by_columns);
    let mut text = Vec::new(alloc);
    push_verdict(&mut text, &compared.verdict())?;
    push_part(&mut text, b"columns", columns.as_slice())?;
    push_part(&mut text, b"differences", differences)?;
    push_part(&mut text, b"report", report)?;
    Ok(text)
}

/// Bytes of the parts of a refusal, at most: a line of the title of each, and the part.
pub const LONGEST_REFUSAL_PARTS: usize = 4 * LONGEST_VERDICT_LINE;

/// The parts of a refusal, in no memory but their own.
pub type RefusalParts = ArrayVec<u8, LONGEST_REFUSAL_PARTS>;

/// The parts of a refusal: its line, and its row, each after a line of its title and of how many
/// bytes it has.
pub fn refusal_parts(fault: CompareFault) -> RefusalParts
    ensures { result.items ≡ spec.verdict_parts (Err fault) }
{
    let verdict = Err(fault);
    let line = verdict_line(&verdict);
    let rows = verdict_rows(&verdict);
    let mut parts = RefusalParts::new();
    parts
        .try_extend_from_slice(title_line(b"line", &line).as_slice())
        .unwrap();
    parts.try_extend_from_slice(line.as_slice()).unwrap();
    parts
        .try_extend_from_slice(title_line(b"verdict", &rows).as_slice())
        .unwrap();
    parts.try_extend_from_slice(rows.as_slice()).unwrap();
    parts
}

/// Bytes of the title of a part of a refusal, at most.
const LONGEST_TITLE: usize = 7;

/// The line before a part: its title, and how many bytes it has.
fn title_line(title: &[u8], part: &VerdictLine) -> VerdictLine
    requires { length title.now ≤ LONGEST_TITLE }
    ensures { result.items ≡ title.now ++ (codes " " ++ (decimal (length part.now.items)
        ++ codes "\n")) }
{
    let mut line = VerdictLine::new();
    add(&mut line, title);
    add_numbered(&mut line, b" ", part.len() as u32);
    add(&mut line, b"\n");
    line
}
