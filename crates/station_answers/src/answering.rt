//! The station of a name in a field file, and its text: answered, written, and run as a command.
ghost use Rattle.std.specs.Prelude.{⊤, MatchResult};
ghost use Rattle.byte_ends.specs.Writers.{writer_change};
ghost use Rattle.byte_ends.specs.Source.{reader_change, UntilDropped};
ghost use Rattle.station_answers.specs.Answers.{HasNone, StatesOf};
ghost use Rattle.station_answers.specs.Runs.{IsAnswerRun};
ghost use Rattle.station_check.specs.RunEndings.{Run};
ghost use Rattle.station_compare.specs.Hints.{IsHinted};
ghost use Rattle.station_compare.specs.Refusals.{by_fault, refusal_text};
ghost use Rattle.station_compare.specs.Runs.{ReadsFieldFile};

use crate::answer::StationAnswer;
use byte_ends::{Sink, Source};
use station_book::ResultLimits;
use station_check::{ACCEPTED, Fault, noted_stations_of_file, write_whole};
use station_compare::{CompareFault, Refusal, hinted, refuse, stations_hint};
use std::alloc::Global;

/// The text of the station of this name, and the field file's reader, which is given back.
///
/// # Errors
///
/// The first fault of the file; then `NoStation`; then that of the adjustment. `Memory` may stand
/// in the place of any answer. The hint of a fault takes no memory, so that none is lost.
pub fn answer_of<R: Source, A: StationAnswer>(
    alloc: Global,
    gsi: R,
    name: &[u8],
    limits: ResultLimits,
    asked: &A,
) -> (Result<Vec<u8>, Refusal>, R)
    ensures { ReadsFieldFile (reader_change R.told R.failed R.gave gsi result.1)
        (by_fault result.0)
        (λ file. MatchResult (by_fault result.0)
        (λ text. StatesOf (A.says asked.now limits) limits file name.now text.items)
        (HasNone limits file name.now)
        × IsHinted limits file name.now result.0) }
{
    // For the proof alone: limits keep their bounds.
    limits.faces.recall();
    let (noted, gsi) = noted_stations_of_file(alloc, gsi, limits.faces);
    let (stations, unchecked) = match noted {
        Ok(found) => found,
        Err(fault) => return (Err(Refusal::from(CompareFault::from(fault))), gsi),
    };
    let Some(surveyed) = stations.get(name) else {
        let fault = CompareFault::File(Fault::NoStation);
        let hint = stations_hint(&stations, unchecked);
        return (Err(Refusal { fault, hint }), gsi);
    };
    let answer = asked.text_of(alloc, limits, surveyed);
    (hinted(answer, surveyed.station(), limits.residual), gsi)
}

/// Writes that text, and flushes once.
///
/// # Errors
///
/// Those of the text; `Write` where a call of the writer failed. At any other nothing was asked of
/// the writer.
pub fn write_answer<R: Source, A: StationAnswer, W: Sink>(
    alloc: Global,
    gsi: R,
    name: &[u8],
    limits: ResultLimits,
    asked: &A,
    writer: &mut W,
) -> Result<(), Refusal>
    ensures { UntilDropped R.told R.failed R.gave gsi (λ gsi. IsAnswerRun
        (A.says asked.now limits) limits gsi name.now result
        (writer_change W.Sink writer.old writer.new)) }
{
    let (answer, _gsi) = answer_of(alloc, gsi, name, limits, asked);
    let text = answer?;
    write_whole(writer, &text)?;
    Ok(())
}

/// Writes the text to `out`, and answers the exit status: 0 where all was written, else 1, with the
/// line of a refusal and its hint on `err`. Where `err` fails, they are lost and the status stays.
pub fn run_answer<R: Source, A: StationAnswer, W: Sink, E: Sink>(
    alloc: Global,
    gsi: R,
    name: &[u8],
    limits: ResultLimits,
    asked: &A,
    out: &mut W,
    err: &mut E,
) -> u8
    ensures { UntilDropped R.told R.failed R.gave gsi (λ gsi. Run {A = ⊤} refusal_text
        (IsAnswerRun (A.says asked.now limits) limits gsi name.now)
        result (writer_change W.Sink out.old out.new)
        (writer_change E.Sink err.old err.new)) }
{
    match write_answer(alloc, gsi, name, limits, asked, out) {
        Ok(()) => ACCEPTED,
        Err(refusal) => refuse(&refusal, err),
    }
}
