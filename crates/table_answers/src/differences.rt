//! The differences of a table from its station, as an answer.
ghost use Rattle.std.specs.Prelude.{ℕ, List};
ghost use Rattle.byte_ends.specs.Writers.{writer_change};
ghost use Rattle.station_differences.proofs.TextLaws.{one_text};
ghost use Rattle.station_differences.specs.Stating.{written_text};
ghost use Rattle.table_answers.specs.OneDifferences.{differs_of_bytes, never_differs, one_differs};
ghost use Rattle.table_answers.specs.Printing.{PrintsText};
ghost use Rattle.table_answers.specs.Refusing.{RefusesDifferences};
ghost use Rattle.table_answers.specs.Saying.{SaysDifferences};

use crate::answer::TableAnswer;
use crate::noted::Noted;
use crate::part::lines_of_table;
use byte_ends::Sink;
use direction_table::TableForm;
use station_book::{ResultLimits, Surveyed};
use station_check::write_whole;
use station_compare::CompareFault;
use station_differences::{LineForm, text_of};
use std::alloc::Global;

/// The differences of a table from a station: a line for each of its targets, with the stated
/// direction and the least-squares direction in gon, and the difference of the two in mgon. The
/// table may lack targets if it states two or more: their lines have the least-squares direction
/// alone.
///
/// The least-squares directions are least over all directions, orientations and full turns. One
/// rotation is taken off the differences: the one that makes the largest of them smallest.
#[derive(Clone, Copy, Debug, PartialEq, Eq, Drop)]
pub struct Differences {
    /// How the table is to be read; what it states in degrees is rounded to 0.000000001 gon.
    pub form: TableForm,
    /// How the lines are written.
    pub written: LineForm,
}

impl TableAnswer for Differences {
    type Answer = Vec<u8>;

    ghost Value = { List ℕ };

    ghost value = { λ text. text.items };

    ghost form_of = { λ asked. asked.form };

    ghost says = { λ asked _. SaysDifferences asked.form asked.written };

    ghost refuses = { λ asked. RefusesDifferences asked.form };

    ghost prints = { PrintsText };

    fn of_table(
        &self,
        alloc: Global,
        limits: ResultLimits,
        surveyed: &Surveyed,
        bytes: &[u8],
    ) -> Result<Noted<Vec<u8>>, CompareFault> {
        let lines = lines_of_table(alloc, self.form, limits, surveyed, bytes)?;
        let answer = text_of(alloc, &lines.answer, self.written)?;
        Ok(Noted {
            answer,
            note: lines.note,
        })
    }

    fn print<W: Sink>(answer: Vec<u8>, out: &mut W) -> Result<(), CompareFault>
        ensures { PrintsText answer.items result (writer_change W.Sink out.old out.new) }
    {
        write_whole(out, &answer)?;
        Ok(())
    }

    ghost one = { λ asked _ its bytes a b p q. one_text (written_text asked.written) asked.form
        its.station bytes a b p q };

    ghost one_fault = { λ asked. one_differs asked.form };

    ghost never_both = { λ asked limits its bytes text fault held set p.
        never_differs asked.form limits its bytes (written_text asked.written) text fault held set
        p };

    ghost memory = { λ asked limits its bytes. tt };

    ghost of_bytes = { λ asked. differs_of_bytes asked.form };
}
