//! The one text of all stations of a field file: answered, written, and run as a command.
ghost use Rattle.std.specs.Prelude.{◌≡◌, ⊤, IfOk, MatchResult, OnOk};
ghost use Rattle.book_answers.specs.Answers.{IsRefusedOfAll, StatesAll};
ghost use Rattle.book_answers.specs.Notes.{AreNotes};
ghost use Rattle.book_answers.specs.OfStations.{IsOneText, IsRefusedAt, IsRefusedOfOne};
ghost use Rattle.book_answers.specs.OfStations.{IsWhyNoText};
ghost use Rattle.book_answers.specs.Refusals as spec;
ghost use Rattle.book_answers.specs.Refusals.{fault_of, named_refusal_text};
ghost use Rattle.book_answers.specs.Runs.{IsRunOfAll};
ghost use Rattle.byte_ends.specs.Writers.{writer_change};
ghost use Rattle.byte_ends.specs.Source.{reader_change, UntilDropped};
ghost use Rattle.exact_adjustment.specs.LeastOf.{HasResidualsWithin};
ghost use Rattle.station_check.specs.RunEndings.{Run};
ghost use Rattle.station_compare.specs.Runs.{ReadsFieldFile};

use crate::arrangement::Arrangement;
use crate::each::{Alone, EachAnswer, OwnText};
use crate::refusal::{StationRefusal, refusal_text};
use byte_ends::{Sink, Source};
use station_answers::StationAnswer;
use station_book::{ResultLimits, Stations, Surveyed};
use station_check::{ACCEPTED, Fault, noted_stations_of_file, refuse_by, write_whole};
use station_compare::{CompareFault, Refusal, stations_hint};
use std::alloc::Global;

/// The one text of all stations of a field file, and its reader, which is given back. The file is
/// read once, and each station is adjusted once.
///
/// # Errors
///
/// The first fault of the file; then `NoStation`, where it has none; then that of the first station
/// whose own answer is refused, with its name. `Memory` may stand in the place of any answer.
pub fn answer_of_all<R: Source, A: StationAnswer>(
    alloc: Global,
    gsi: R,
    limits: ResultLimits,
    asked: &A,
    arrangement: Arrangement,
) -> (Result<Vec<u8>, StationRefusal>, R)
    ensures { ReadsFieldFile (reader_change R.told R.failed R.gave gsi result.1)
        (fault_of result.0)
        (λ file. MatchResult result.0
        (λ text. StatesAll (A.says asked.now limits) limits arrangement file text.items)
        (IsRefusedOfAll (A.says asked.now limits) limits file)) }
{
    // For the proof alone: limits keep their bounds.
    limits.faces.recall();
    let (noted, gsi) = noted_stations_of_file(alloc, gsi, limits.faces);
    let (stations, unchecked) = match noted {
        Ok(found) => found,
        Err(fault) => return (Err(StationRefusal::from(CompareFault::from(fault))), gsi),
    };
    if stations.len() == 0 {
        return (Err(no_station(&stations, unchecked)), gsi);
    }
    let answer = text_of_each_alone(alloc, &stations, limits, asked, arrangement);
    (answer, gsi)
}

/// The one text of stations, of which nothing is told beside it.
fn text_of_each_alone<A: StationAnswer>(
    alloc: Global,
    stations: &Stations,
    limits: ResultLimits,
    asked: &A,
    arrangement: Arrangement,
) -> Result<Vec<u8>, StationRefusal>
    ensures { MatchResult result
        (λ text. IsOneText (A.says asked.now limits) limits.residual arrangement stations.now
        text.items)
        (IsWhyNoText (A.says asked.now limits) (IsRefusedOfOne limits.residual) limits.residual
        stations.now) }
{
    let each = Alone { asked };
    match text_of_stations(alloc, stations, limits, &each, arrangement) {
        Ok(told) => Ok(told.text),
        Err(refused) => Err(refused),
    }
}

/// The refusal of a file without stations: that of each name.
pub(crate) fn no_station(stations: &Stations, unchecked: u32) -> StationRefusal
    ensures { result ≡ spec.no_station stations.now unchecked }
{
    StationRefusal {
        refusal: Refusal {
            fault: CompareFault::File(Fault::NoStation),
            hint: stations_hint(stations, unchecked),
        },
        station: None,
    }
}

/// The one text of stations, and what is told beside it.
#[derive(Drop)]
pub struct NotedText {
    /// The text.
    pub text: Vec<u8>,
    /// The notes of the stations, in their order; no byte, where nothing is told.
    pub notes: Vec<u8>,
}

/// The one text of stations, and their notes.
pub(crate) fn text_of_stations<E: EachAnswer>(
    alloc: Global,
    stations: &Stations,
    limits: ResultLimits,
    asked: &E,
    arrangement: Arrangement,
) -> Result<NotedText, StationRefusal>
    ensures text { MatchResult result
        (λ told. IsOneText (E.says asked.now limits) limits.residual arrangement stations.now
        told.text.items)
        (IsWhyNoText (E.says asked.now limits) (E.refuses asked.now limits) limits.residual
        stations.now) }
    ensures noted { IfOk result (λ told.
        AreNotes (E.notes asked.now) stations.now told.notes.items) }
{
    let mut text = Vec::new(alloc);
    let mut notes = Vec::new(alloc);
    arrangement.push_head(&mut text)?;
    let ResultLimits { faces, residual } = limits;
    'stations: for place in 0..stations.len() {
        if let Some(surveyed) = stations.at(place) {
            let limits = ResultLimits { faces, residual };
            let own = own_text(alloc, limits, asked, surveyed)?;
            let name = surveyed.station().name();
            arrangement.push_piece(alloc, &mut text, place == 0, name, &own.text)?;
            notes.extend_from_slice(&own.note)?;
        }
    }
    Ok(NotedText { text, notes })
}

/// The text of a station, or why it has none, with its name.
fn own_text<E: EachAnswer>(
    alloc: Global,
    limits: ResultLimits,
    asked: &E,
    surveyed: &Surveyed,
) -> Result<OwnText, StationRefusal>
    ensures text { MatchResult result (λ own. E.says asked.now limits surveyed.now own.text.items)
        (IsRefusedAt (E.refuses asked.now limits) surveyed.now) }
    ensures noted { IfOk result (λ own. E.notes asked.now surveyed.now own.note.items) }
    ensures held { OnOk result (HasResidualsWithin surveyed.now.station limits.residual) }
{
    match asked.own_of(alloc, limits, surveyed) {
        Ok(own) => Ok(own),
        Err(refusal) => Err(StationRefusal {
            refusal,
            station: Some(surveyed.station().name()),
        }),
    }
}

/// Writes that text, and flushes once.
fn write_answer_of_all<R: Source, A: StationAnswer, W: Sink>(
    alloc: Global,
    gsi: R,
    limits: ResultLimits,
    asked: &A,
    arrangement: Arrangement,
    writer: &mut W,
) -> Result<(), StationRefusal>
    ensures { UntilDropped R.told R.failed R.gave gsi (λ gsi. IsRunOfAll
        (A.says asked.now limits) limits arrangement gsi result
        (writer_change W.Sink writer.old writer.new)) }
{
    let (answer, _gsi) = answer_of_all(alloc, gsi, limits, asked, arrangement);
    let text = answer?;
    write_whole(writer, &text)?;
    Ok(())
}

/// Writes the text to `out`, and answers the exit status: 0 where all was written, else 1, with the
/// line of a refusal, its hint and the name of its station on `err`. Where `err` fails, they are
/// lost and the status stays.
pub fn run_answer_of_all<R: Source, A: StationAnswer, W: Sink, E: Sink>(
    alloc: Global,
    gsi: R,
    limits: ResultLimits,
    asked: &A,
    arrangement: Arrangement,
    out: &mut W,
    err: &mut E,
) -> u8
    ensures { UntilDropped R.told R.failed R.gave gsi (λ gsi. Run {A = ⊤} named_refusal_text
        (IsRunOfAll (A.says asked.now limits) limits arrangement gsi)
        result (writer_change W.Sink out.old out.new)
        (writer_change E.Sink err.old err.new)) }
{
    match write_answer_of_all(alloc, gsi, limits, asked, arrangement, out) {
        Ok(()) => ACCEPTED,
        Err(refused) => refuse_by(refusal_text(&refused).as_slice(), err),
    }
}
