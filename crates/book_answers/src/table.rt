//! The one text of all stations of a field file and of a table of their directions: answered,
//! written, and run as a command.
ghost use Rattle.std.specs.Prelude.{◌≡◌, ◌≤◌, IfOk, Ok, length};
ghost use Rattle.book_answers.specs.Refusals.{fault_of, named_refusal_text, of_no_one};
ghost use Rattle.book_answers.specs.Tables as tables;
ghost use Rattle.book_answers.specs.Tables.{IsRunOfTable, TellsTexts, notes_of};
ghost use Rattle.book_answers.specs.TableTexts.{IsOfBytes, IsOfInput, stray_refusal};
ghost use Rattle.byte_ends.specs.Came.{BytesCame, Leaves};
ghost use Rattle.byte_ends.specs.Input.{input_within};
ghost use Rattle.byte_ends.specs.Source.{reader_change, UntilDropped};
ghost use Rattle.byte_ends.specs.Writers.{writer_change};
ghost use Rattle.station_check.specs.RunEndings.{PrintsAnswer, RunWithNotes, Tells};
ghost use Rattle.station_compare.specs.Answers.{table_left};
ghost use Rattle.station_compare.specs.declared.fault.CompareFault.TheVariants.{Write};
ghost use Rattle.station_tables.specs.declared.line.TheConstants.{LONGEST_TABLES};
ghost use Rattle.table_answers.specs.Answers.{ReadsBoth};

use crate::answering::{NotedText, no_station, text_of_stations};
use crate::arrangement::Arrangement;
use crate::part::{PartAsked, PartText, Parts};
use crate::refusal::{StationRefusal, refusal_text};
use byte_ends::{Sink, Source, read_whole};
use direction_table::{RowKind, TableFault};
use station_book::{ResultLimits, Stations};
use station_check::{ACCEPTED, noted_stations_of_file, refuse_by, write_whole};
use station_compare::{CompareFault, Refusal, stations_hint};
use station_tables::{LONGEST_TABLES, first_stray, lines_of};
use std::alloc::Global;

/// The one text of all stations of a field file and of a table of their directions, and the field
/// file's reader, which is given back. Both are read once, the field file first, and each station
/// is adjusted once.
///
/// # Errors
///
/// The first fault of the file; then `NoStation`, where it has none; then that of the table's
/// reader; then that its first line, but one of titles, in which something stands and that is of no
/// one station is `Unknown`; then that of the first station whose own answer is refused, with its
/// name, where rows and columns are counted by those of the whole table. `Memory` may stand in the
/// place of any answer.
pub fn table_answer_of_all<R: Source, Q: Source>(
    alloc: Global,
    gsi: R,
    table: &mut Q,
    limits: ResultLimits,
    asked: PartAsked,
) -> (Result<NotedText, StationRefusal>, R)
    ensures { ReadsBoth (reader_change R.told R.failed R.gave gsi result.1)
        (reader_change Q.told Q.failed Q.gave table.old table.new) (fault_of result.0)
        (λ file stated. TellsTexts asked limits file stated result.0) }
{
    // For the proof alone: limits keep their bounds.
    limits.faces.recall();
    let (noted, gsi) = noted_stations_of_file(alloc, gsi, limits.faces);
    let (stations, unchecked) = match noted {
        Ok(found) => found,
        Err(fault) => return (Err(StationRefusal::from(CompareFault::from(fault))), gsi),
    };
    if stations.len() == 0 {
        return (Err(no_station(&stations, unchecked)), gsi);
    }
    let answer = text_of_input(alloc, &stations, unchecked, limits, asked, table);
    (answer, gsi)
}

/// The one text of stations and of what comes of the table's reader.
fn text_of_input<Q: Source>(
    alloc: Global,
    stations: &Stations,
    unchecked: u32,
    limits: ResultLimits,
    asked: PartAsked,
    table: &mut Q,
) -> Result<NotedText, StationRefusal>
    ensures tells { BytesCame (reader_change Q.told Q.failed Q.gave table.old table.new)
        (λ stated. IsOfInput asked limits stations.now unchecked
        (input_within LONGEST_TABLES stated) result) }
    ensures reader { Leaves table_left (fault_of result)
        (reader_change Q.told Q.failed Q.gave table.old table.new) }
{
    match read_whole(alloc, table, LONGEST_TABLES) {
        Ok(bytes) => text_of_bytes(alloc, stations, unchecked, limits, asked, &bytes),
        Err(fault) => Err(StationRefusal::from(CompareFault::from(fault))),
    }
}

/// The one text of stations and of the bytes of a table.
fn text_of_bytes(
    alloc: Global,
    stations: &Stations,
    unchecked: u32,
    limits: ResultLimits,
    asked: PartAsked,
    bytes: &[u8],
) -> Result<NotedText, StationRefusal>
    requires { length bytes.now ≤ LONGEST_TABLES }
    ensures { IsOfBytes asked limits stations.now unchecked bytes.now result }
{
    let lines = lines_of(alloc, bytes)?;
    if let Some(number) = first_stray(stations, &lines) {
        return Err(stray(stations, unchecked, number));
    }
    let parts = Parts {
        asked,
        lines: &lines,
    };
    text_of_stations(alloc, stations, limits, &parts, arrangement_of(asked.text))
}

/// The refusal of a table whose line of this number is of no one station.
fn stray(stations: &Stations, unchecked: u32, number: u32) -> StationRefusal
    ensures { result ≡ stray_refusal stations.now unchecked number }
{
    StationRefusal {
        refusal: Refusal {
            fault: CompareFault::Table(TableFault::Row(number, RowKind::Unknown)),
            hint: stations_hint(stations, unchecked),
        },
        station: None,
    }
}

/// How the texts of stations make one.
fn arrangement_of(text: PartText) -> Arrangement
    ensures { result ≡ tables.arrangement_of text }
{
    match text {
        PartText::Comparison { .. } => Arrangement::Lines,
        PartText::Differences { rows } => Arrangement::NamedDifferences(rows),
    }
}

/// Prints the text of an answer, flushes once, and passes on the answer; or its refusal.
fn print_told<W: Sink>(
    answer: Result<NotedText, StationRefusal>,
    out: &mut W,
) -> Result<NotedText, StationRefusal>
    ensures printed { PrintsAnswer (λ told. told.text.items) (of_no_one Write) answer result
        (writer_change W.Sink out.old out.new) }
    ensures given { IfOk result (λ told. answer ≡ Ok told) }
{
    let told = answer?;
    write_whole(out, &told.text)?;
    Ok(told)
}

/// Writes the text to `out`, and answers the exit status: 0 where all was written, and then the notes
/// on `err`; else 1, with the line of a refusal, its hint and the name of its station on `err`.
/// Where `err` fails, they are lost and the status stays.
pub fn run_table_answer_of_all<R: Source, Q: Source, W: Sink, E: Sink>(
    alloc: Global,
    gsi: R,
    table: &mut Q,
    limits: ResultLimits,
    asked: PartAsked,
    out: &mut W,
    err: &mut E,
) -> u8
    ensures { UntilDropped R.told R.failed R.gave gsi (λ gsi. RunWithNotes notes_of
        named_refusal_text (IsRunOfTable asked limits gsi
        (reader_change Q.told Q.failed Q.gave table.old table.new))
        result (writer_change W.Sink out.old out.new)
        (writer_change E.Sink err.old err.new)) }
{
    let (answer, _gsi) = table_answer_of_all(alloc, gsi, table, limits, asked);
    match print_told(answer, out) {
        Ok(told) => tell(&told.notes, err),
        Err(refused) => refuse_by(refusal_text(&refused).as_slice(), err),
    }
}

/// Writes notes, where there are some, and answers the status.
fn tell<E: Sink>(notes: &[u8], err: &mut E) -> u8
    ensures status { result ≡ 0 }
    ensures notes { Tells notes.now (writer_change E.Sink err.old err.new) }
{
    if !notes.is_empty() {
        // Where `err` fails, they are lost.
        let _ = err.write_all(notes);
    }
    ACCEPTED
}
