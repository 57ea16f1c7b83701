//! The station of a name in a field file, a table, and what is answered of both: answered, written,
//! and run as a command.
ghost use Rattle.std.specs.Prelude.{⊤, MatchResult, OnOk};
ghost use Rattle.byte_ends.specs.Came.{BytesCame, Leaves};
ghost use Rattle.byte_ends.specs.Input.{input_within};
ghost use Rattle.byte_ends.specs.Writers.{writer_change};
ghost use Rattle.byte_ends.specs.Source.{reader_change, UntilDropped};
ghost use Rattle.direction_table.specs.declared.reading.TheConstants.{LONGEST_TABLE};
ghost use Rattle.exact_adjustment.specs.LeastOf.{HasResidualsWithin};
ghost use Rattle.station_compare.specs.Answers.{table_left};
ghost use Rattle.station_compare.specs.Hints.{IsHinted};
ghost use Rattle.station_compare.specs.Refusals.{by_fault};
ghost use Rattle.table_answers.specs.Answers.{ReadsBoth, StatesBeside};
ghost use Rattle.table_answers.specs.Noting.{Noting};
ghost use Rattle.table_answers.specs.OfInput.{SaysOfInput};
ghost use Rattle.table_answers.specs.Refusing.{HasNoAnswer, RefusesInput};
ghost use Rattle.table_answers.specs.Runs.{IsOfPrinting, IsTableRun};
ghost use Rattle.table_answers.specs.Telling.{RunTold};

use crate::answer::TableAnswer;
use crate::noted::Noted;
use crate::telling::tell;
use byte_ends::{Sink, Source, read_whole};
use direction_table::LONGEST_TABLE;
use station_book::{ResultLimits, Surveyed};
use station_check::{Fault, noted_stations_of_file};
use station_compare::{CompareFault, Refusal, hinted, stations_hint};
use std::alloc::Global;

/// The answer for the station of this name and a table, and the field file's reader, which is given
/// back.
///
/// The field file is read to its end first, and the table's reader is not asked before.
///
/// # Errors
///
/// Those of `station_compare::compare_bytes`, in their order: the first fault of the file; then
/// `NoStation`; then that of the table; then that of the adjustment. `Apart` is none of them.
/// `Memory` may stand in the place of any answer. The hint of a fault takes no memory, so that none
/// is lost.
pub fn table_answer_of<R: Source, Q: Source, A: TableAnswer>(
    alloc: Global,
    gsi: R,
    table: &mut Q,
    name: &[u8],
    limits: ResultLimits,
    asked: &A,
) -> (Result<Noted<A::Answer>, Refusal>, R)
    // All of it is said of the very bytes that the two readers gave, whatever they are.
    ensures { ReadsBoth (reader_change R.told R.failed R.gave gsi result.1)
        (reader_change Q.told Q.failed Q.gave table.old table.new) (by_fault result.0)
        (λ file stated. MatchResult (by_fault result.0)
        (λ noted. StatesBeside (Noting (A.says asked.now limits) (A.form_of asked.now)) limits file
        stated name.now (A.value noted.answer, noted.note.items))
        (HasNoAnswer (A.refuses asked.now limits) limits file stated name.now)
        × IsHinted limits file name.now result.0) }
{
    // For the proof alone: limits keep their bounds.
    limits.faces.recall();
    let (noted, gsi) = noted_stations_of_file(alloc, gsi, limits.faces);
    let (stations, unchecked) = match noted {
        Ok(found) => found,
        Err(fault) => return (Err(Refusal::from(CompareFault::from(fault))), gsi),
    };
    let Some(surveyed) = stations.get(name) else {
        let fault = CompareFault::File(Fault::NoStation);
        let hint = stations_hint(&stations, unchecked);
        return (Err(Refusal { fault, hint }), gsi);
    };
    let answer = answer_of_input(alloc, limits, surveyed, table, asked);
    (hinted(answer, surveyed.station(), limits.residual), gsi)
}

/// The answer for a station and what comes of the table's reader.
fn answer_of_input<Q: Source, A: TableAnswer>(
    alloc: Global,
    limits: ResultLimits,
    surveyed: &Surveyed,
    table: &mut Q,
    asked: &A,
) -> Result<Noted<A::Answer>, CompareFault>
    ensures tells { BytesCame (reader_change Q.told Q.failed Q.gave table.old table.new)
        (λ stated. MatchResult result
        (λ noted. SaysOfInput (Noting (A.says asked.now limits) (A.form_of asked.now) surveyed.now)
        (input_within LONGEST_TABLE stated) (A.value noted.answer, noted.note.items))
        (RefusesInput (A.refuses asked.now limits surveyed.now)
        (input_within LONGEST_TABLE stated))) }
    ensures held { OnOk result (HasResidualsWithin surveyed.now.station limits.residual) }
    ensures reader { Leaves table_left result
        (reader_change Q.told Q.failed Q.gave table.old table.new) }
{
    let bytes = read_whole(alloc, table, LONGEST_TABLE)?;
    asked.of_table(alloc, limits, surveyed, &bytes)
}

/// Prints that answer, and flushes once; answers the note of the table too.
///
/// # Errors
///
/// Those of the answer, at which nothing was asked of the writer; and those of printing it: `Write`
/// where a call of the writer failed.
pub fn write_table_answer<R: Source, Q: Source, A: TableAnswer, W: Sink>(
    alloc: Global,
    gsi: R,
    table: &mut Q,
    name: &[u8],
    limits: ResultLimits,
    asked: &A,
    writer: &mut W,
) -> (Result<(), Refusal>, Vec<u8>)
    ensures { UntilDropped R.told R.failed R.gave gsi (λ gsi. IsTableRun (A.says asked.now limits)
        (A.refuses asked.now limits) A.prints (A.form_of asked.now) limits gsi
        (reader_change Q.told Q.failed Q.gave table.old table.new) name.now result.0 result.1.items
        (writer_change W.Sink writer.old writer.new)) }
{
    let (answered, _gsi) = table_answer_of(alloc, gsi, table, name, limits, asked);
    match answered {
        Ok(noted) => (unhinted(A::print(noted.answer, writer)), noted.note),
        Err(refusal) => (Err(refusal), Vec::new(alloc)),
    }
}

/// An answer that was printed: a refusal that comes of printing has no hint.
fn unhinted(printed: Result<(), CompareFault>) -> Result<(), Refusal>
    ensures { IsOfPrinting printed result }
{
    printed?;
    Ok(())
}

/// Prints the answer to `out`, and answers the exit status: 0 where all was written and nothing
/// refused, else 1. `err` gets the note of the table, and then the line of a refusal and its hint;
/// where it fails, they are lost and the status stays.
pub fn run_table_answer<R: Source, Q: Source, A: TableAnswer, W: Sink, E: Sink>(
    alloc: Global,
    gsi: R,
    table: &mut Q,
    name: &[u8],
    limits: ResultLimits,
    asked: &A,
    out: &mut W,
    err: &mut E,
) -> u8
    ensures { UntilDropped R.told R.failed R.gave gsi (λ gsi. RunTold {A = ⊤}
        (IsTableRun (A.says asked.now limits) (A.refuses asked.now limits) A.prints
        (A.form_of asked.now) limits gsi
        (reader_change Q.told Q.failed Q.gave table.old table.new) name.now)
        result (writer_change W.Sink out.old out.new)
        (writer_change E.Sink err.old err.new)) }
{
    let (printed, note) = write_table_answer(alloc, gsi, table, name, limits, asked, out);
    tell(printed, &note, err)
}
