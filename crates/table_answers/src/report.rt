//! The report of a station with a table, as an answer.
ghost use Rattle.byte_ends.specs.Writers.{writer_change};
ghost use Rattle.table_answers.specs.OneFault.{never_refused, one_refused, refused_of_bytes};
ghost use Rattle.table_answers.specs.Printing.{IsVerdict, PrintsReport};
ghost use Rattle.table_answers.specs.Refusing.{RefusesComparison};
ghost use Rattle.table_answers.specs.Saying.{SaysTableReport};
ghost use Rattle.table_report.proofs.OneReport.{one_of_table};
ghost use Rattle.table_report.specs.Stating.{ReportValue};
ghost use Rattle.table_report.specs.Values.{asked_of, value_of};

use crate::answer::TableAnswer;
use crate::noted::{Noted, note_of};
use byte_ends::Sink;
use direction_table::read_stated_table;
use exact_adjustment::adjust;
use station_book::{ResultLimits, Surveyed};
use station_check::write_whole;
use station_compare::{CompareFault, HowFar};
use std::alloc::Global;
use table_report::{Asked, StatedDirections, TableReport, beside_by, beyond};

impl<'a, 'n> TableAnswer for Asked<'a, 'n> {
    type Answer = TableReport;

    ghost Value = { ReportValue };

    ghost value = { λ report. value_of report };

    ghost form_of = { λ asked. asked.form };

    ghost says = { λ asked. SaysTableReport (asked_of asked) };

    ghost refuses = { λ asked. RefusesComparison asked.form };

    ghost prints = { PrintsReport };

    fn of_table(
        &self,
        alloc: Global,
        limits: ResultLimits,
        surveyed: &Surveyed,
        bytes: &[u8],
    ) -> Result<Noted<TableReport>, CompareFault> {
        let station = surveyed.station();
        let table = read_stated_table(alloc, self.form, station.targets(), bytes)?;
        let adjustment = adjust(alloc, station, limits.residual)?;
        let note = note_of(alloc, self.form, station, &adjustment, &table, bytes)?;
        let limit = self.within.unwrap_or(table.usual_within);
        let stated = StatedDirections {
            directions: &table.directions,
            off: table.most_off,
            limit,
        };
        let beside = beside_by(alloc, self, limits, surveyed, &adjustment, &stated)?;
        let answer = TableReport {
            beyond: beyond(beside.how_far),
            text: beside.report,
        };
        Ok(Noted { answer, note })
    }

    fn print<W: Sink>(answer: TableReport, out: &mut W) -> Result<(), CompareFault>
        ensures { PrintsReport (value_of answer) result (writer_change W.Sink out.old out.new) }
    {
        write_whole(out, &answer.text)?;
        verdict(answer.beyond)
    }

    ghost one = { λ asked limits its bytes a b p q.
        one_of_table (asked_of asked) limits its bytes a b p q };

    ghost one_fault = { λ asked. one_refused asked.form };

    ghost never_both = { λ asked limits its bytes report fault held set p.
        never_refused asked.form limits its bytes fault held (record {
          directions = p.directions;
          states = p.states;
          adjustable = p.beside.is_section.compared.rounded.adjustable;
        }) set };

    ghost memory = { λ asked limits its bytes. λ within. tt };

    ghost of_bytes = { λ asked. refused_of_bytes asked.form };
}

/// What is answered of a report that was written whole.
pub fn verdict(beyond: Option<HowFar>) -> Result<(), CompareFault>
    ensures { IsVerdict beyond result }
{
    match beyond {
        None => Ok(()),
        Some(how_far) => Err(CompareFault::Apart(how_far)),
    }
}
