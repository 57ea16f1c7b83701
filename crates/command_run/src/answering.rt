//! How a request is answered: its files are opened, and its run is made over them.

ghost use Rattle.std.specs.Prelude.{◌≡◌, ◌≤◌, IfOk, IfErr, None, Ok, OnErr, OnOk, option_map};
ghost use Rattle.std.specs.Prelude.{true};
ghost use Rattle.byte_ends.specs.Writers.{writer_change};
ghost use Rattle.command_run.specs.Answering.{Hinders, HindersBeside, HindersOpening};
ghost use Rattle.command_run.specs.Answering.{HindersStation, HindersTable, HindersTableOfAll};
ghost use Rattle.command_run.specs.Answering.{AreColumns, HindersTitles, IsFormOf, IsNamed};
ghost use Rattle.command_run.specs.Answering.{IsNoneThere, IsThereAlready, LooksForTitles};
ghost use Rattle.command_run.specs.Answering.{IsAnswered, IsOpened, IsOpenedCheck, IsUnopened};
ghost use Rattle.command_run.specs.Answering.{IsUnopenedOfTwo};
ghost use Rattle.command_run.specs.Answering.{IsOpenedBeside, IsOpenedStation, IsOpenedStations};
ghost use Rattle.command_run.specs.Answering.{IsOpenedTableOfAll, IsRun, PrintsTableOfAll};
ghost use Rattle.command_line.specs.declared.request.Request.TheVariants as request;
ghost use Rattle.command_run.specs.Answering.{ChangesFile, ChecksSheet, IsNewFile};
ghost use Rattle.command_run.specs.Answering.{PrintsBeside, PrintsStation, PrintsStations};
ghost use Rattle.command_run.specs.Answering as spec;
ghost use Rattle.command_run.specs.Hosts.{IsUnread, files_of, known_of};
ghost use Rattle.station_report.specs.NoteTexts.{head_of};

use crate::explaining::run_explain;
use crate::hindrance::Hindrance;
use crate::host::Host;
use crate::new_file::NewFile;
use crate::station_name::StationName;
use crate::unopened::Unopened;
use book_answers::{Arrangement, PartAsked, PartText, run_answer_of_all, run_table_answer_of_all};
use byte_ends::{Failed, Sink, Source};
use changed_lines::Change;
use command_line::{
    AllTableText, Asked, ColumnsStated, Digests, FieldStation, FieldStations, FormStated, ListForm,
    Request, SheetCheck, StationText, StationsBeside, StationsText, TableBeside, TableText,
};
use direction_table::{ColumnPair, TableForm};
use instrument_reports::{run_report, run_reports, run_rows, run_rows_of_all, run_table_report};
use list_rows::run_list_rows;
use only_station::only_station;
use report_notes::Notes;
use station_answers::{Directions, run_answer};
use station_book::Limits;
use station_change::run_change;
use station_check::{run_check, run_list, run_means, run_words};
use station_differences::LineForm;
use station_explain::Explanation;
use station_mark::run_mark;
use station_record::{
    HeadedReader, NamedReader, run_check_recorded, run_compare_recorded, run_report_recorded,
    run_rows_recorded, run_table_report_recorded,
};
use station_report::Head;
use std::alloc::Global;
use table_answers::{Differences, run_compare, run_table_answer};
use table_report::Asked as ReportAsked;
use table_titles::{Titles, TitlesFault, titled_columns};

/// The exit status of a request. All its files are opened before its run reads any, the field file
/// first. Where the name of its station is left out, or columns are stated by titles, a file is
/// opened a first time and read for them: so a pipe does for no such file. A new file is made at
/// the first byte that is written to it, or where it is flushed, where none is there.
pub(crate) fn answer<'a, H: Host, W: Sink, E: Sink>(
    alloc: Global,
    host: &'a H,
    input: H::Input,
    faults: &[&'static [Explanation]],
    request: Asked<'a>,
    out: &mut W,
    err: &mut E,
) -> Result<u8, Hindrance<'a>>
    ensures status { IfOk result (λ status. status ≤ 1) }
    ensures run { IfOk result (IsAnswered (known_of H.File.Source ⟦<NewFile<'a, H, H::New> as Sink>⟧
        H.Input.Source H.Host host.now input) faults.now (writer_change W.Sink out.old out.new)
        (writer_change E.Sink err.old err.new) request.entry) }
    ensures hindered { IfErr result (Hinders (known_of H.File.Source
        ⟦<NewFile<'a, H, H::New> as Sink>⟧ H.Input.Source H.Host host.now input) request.entry) }
    ensures unchanged { OnErr result ((out.new ≡ out.old) × (err.new ≡ err.old)) }
{
    find_none_there(host, &request)?;
    let opened = open_files(alloc, host, request)?;
    Ok(run_request(alloc, input, faults, opened, out, err))
}

/// That no file is there of the path that a new one is to have.
fn find_none_there<'a, H: Host>(host: &H, request: &Asked<'a>) -> Result<(), Hindrance<'a>>
    ensures none { OnOk result (IsNoneThere (files_of H.File.Source H.Host host.now) request.now) }
    ensures there { IfErr result (IsThereAlready (files_of H.File.Source H.Host host.now)
        request.now) }
{
    match new_path(request) {
        None => Ok(()),
        Some(path) => match open(host, path) {
            Ok(_there) => Err(Hindrance::IsThere(path)),
            Err(_) => Ok(()),
        },
    }
}

/// The path of the new file that a request asks for.
fn new_path<'a>(request: &Asked<'a>) -> Option<&'a str>
    ensures { option_map (λ path. path.now) result ≡ spec.new_path request.now }
{
    match *request {
        Request::Mark { copy, .. } => copy,
        Request::Change { copy, .. } => copy,
        _ => None,
    }
}

/// The request with its files open, and all of whose names and columns are known.
fn open_files<'a, H: Host>(
    alloc: Global,
    host: &'a H,
    request: Asked<'a>,
) -> Result<
    Request<'a, NamedReader<'a, H::File>, NewFile<'a, H, H::New>, StationName<'a>, TableForm>,
    Hindrance<'a>,
>
    ensures opened { IfOk result (IsOpened (files_of H.File.Source H.Host host.now)
        ⟦<NewFile<'a, H, H::New> as Sink>⟧ (H.known_new host.now) request.entry) }
    ensures hindered { IfErr result (HindersOpening (files_of H.File.Source H.Host host.now)
        request.entry) }
{
    Ok(match request {
        Request::Check(asked) => Request::Check(open_check(host, &asked)?),
        Request::Means {
            gsi,
            station,
            limits,
        } => {
            let (gsi, station) = open_named(alloc, host, gsi, station, limits)?;
            Request::Means {
                gsi,
                station,
                limits,
            }
        }
        Request::Station { station, text } => Request::Station {
            station: open_station(alloc, host, &station)?,
            text,
        },
        Request::Stations { stations, text } => Request::Stations {
            stations: open_stations(host, &stations)?,
            text,
        },
        Request::Table { beside, text } => Request::Table {
            beside: open_beside(alloc, host, &beside)?,
            text,
        },
        Request::StationsTable { beside, text } => Request::StationsTable {
            beside: open_table_of_all(alloc, host, &beside)?,
            text,
        },
        Request::Mark {
            gsi,
            copy,
            beginnings,
            stated,
        } => Request::Mark {
            gsi: open(host, gsi)?,
            copy: new_file(host, copy),
            beginnings,
            stated,
        },
        Request::Change { gsi, copy, changes } => open_change(host, gsi, copy, changes)?,
        Request::List { gsi, limits, form } => Request::List {
            gsi: open(host, gsi)?,
            limits,
            form,
        },
        Request::Words { gsi } => Request::Words {
            gsi: open(host, gsi)?,
        },
        Request::WordsOfInput => {
            host.note_input();
            Request::WordsOfInput
        }
        Request::Explain { fault } => Request::Explain { fault },
    })
}

/// The check of a sheet with its files open, the field file first.
fn open_check<'a, H: Host>(
    host: &H,
    asked: &SheetCheck<&'a str>,
) -> Result<SheetCheck<NamedReader<'a, H::File>>, Hindrance<'a>>
    ensures opened { IfOk result (IsOpenedCheck (files_of H.File.Source H.Host host.now) asked.now) }
    ensures hindered { IfErr result (IsUnopenedOfTwo (files_of H.File.Source H.Host host.now)
        asked.now.gsi.now asked.now.sheet.now) }
{
    let (gsi, sheet) = open_two(host, asked.gsi, asked.sheet)?;
    Ok(SheetCheck {
        gsi,
        sheet,
        limits: asked.limits,
        residual: asked.residual,
        digests: asked.digests,
    })
}

/// The field file of a path with it open, and the name of a station of it: the one that is stated,
/// or that of its only station.
fn open_named<'a, H: Host>(
    alloc: Global,
    host: &H,
    gsi: &'a str,
    stated: Option<&'a str>,
    limits: Limits,
) -> Result<(NamedReader<'a, H::File>, StationName<'a>), Hindrance<'a>>
    ensures opened { IfOk result (λ its. IsUnread (files_of H.File.Source H.Host host.now) gsi.now
        its.0) }
    ensures named { IfOk result (λ its. IsNamed (files_of H.File.Source H.Host host.now) limits
        gsi.now stated.entry its.1) }
    ensures hindered { IfErr result (HindersStation (files_of H.File.Source H.Host host.now) limits
        gsi.now stated.entry) }
{
    let name = match stated {
        Some(name) => StationName::Stated(name),
        None => only_name(alloc, host, gsi, limits)?,
    };
    let file = open(host, gsi)?;
    Ok((file, name))
}

/// The name of the only station of the field file of a path, which is opened and read for it.
fn only_name<'a, H: Host>(
    alloc: Global,
    host: &H,
    gsi: &'a str,
    limits: Limits,
) -> Result<StationName<'a>, Hindrance<'a>>
    ensures named { IfOk result (IsNamed (files_of H.File.Source H.Host host.now) limits gsi.now
        None) }
    ensures hindered { IfErr result (HindersStation (files_of H.File.Source H.Host host.now) limits
        gsi.now None) }
{
    let file = open(host, gsi)?;
    match only_station(alloc, file.reader, limits) {
        Ok(name) => Ok(StationName::Only(name)),
        Err(refusal) => Err(Hindrance::Station(refusal)),
    }
}

/// A station with its field file open.
fn open_station<'a, H: Host>(
    alloc: Global,
    host: &H,
    asked: &FieldStation<&'a str, Option<&'a str>>,
) -> Result<FieldStation<NamedReader<'a, H::File>, StationName<'a>>, Hindrance<'a>>
    ensures opened { IfOk result (IsOpenedStation (files_of H.File.Source H.Host host.now)
        asked.now) }
    ensures hindered { IfErr result (HindersStation (files_of H.File.Source H.Host host.now)
        asked.now.limits.faces asked.now.gsi.now asked.now.name) }
{
    let limits = asked.limits;
    let (gsi, name) = open_named(alloc, host, asked.gsi, asked.name, limits.faces)?;
    Ok(FieldStation { gsi, name, limits })
}

/// All stations with their field file open.
fn open_stations<'a, H: Host>(
    host: &H,
    asked: &FieldStations<&'a str>,
) -> Result<FieldStations<NamedReader<'a, H::File>>, Hindrance<'a>>
    ensures opened { IfOk result (IsOpenedStations (files_of H.File.Source H.Host host.now)
        asked.now) }
    ensures hindered { IfErr result (IsUnopened (files_of H.File.Source H.Host host.now)
        asked.now.gsi.now) }
{
    Ok(FieldStations {
        gsi: open(host, asked.gsi)?,
        limits: asked.limits,
    })
}

/// The table of a path with its file open, and how it is read.
fn open_table<'a, H: Host>(
    alloc: Global,
    host: &H,
    path: &'a str,
    stated: FormStated<'a>,
) -> Result<(NamedReader<'a, H::File>, TableForm), Hindrance<'a>>
    ensures opened { IfOk result (λ table. IsUnread (files_of H.File.Source H.Host host.now)
        path.now table.0) }
    ensures form { IfOk result (λ table. IsFormOf (files_of H.File.Source H.Host host.now) path.now
        stated.entry table.1) }
    ensures hindered { IfErr result (HindersTable (files_of H.File.Source H.Host host.now) path.now
        stated.entry.columns) }
{
    let unit = stated.unit;
    let columns = columns_of(alloc, host, path, stated.columns)?;
    let file = open(host, path)?;
    Ok((file, TableForm { unit, columns }))
}

/// The columns of the table of a path: those that are stated by numbers, or none; or those that
/// have the stated titles.
fn columns_of<'a, H: Host>(
    alloc: Global,
    host: &H,
    path: &'a str,
    stated: Option<ColumnsStated<'a>>,
) -> Result<Option<ColumnPair>, Hindrance<'a>>
    ensures columns { IfOk result (AreColumns (files_of H.File.Source H.Host host.now) path.now
        stated.entry) }
    ensures hindered { IfErr result (HindersTable (files_of H.File.Source H.Host host.now) path.now
        stated.entry) }
{
    match stated {
        None => Ok(None),
        Some(ColumnsStated::Numbers(pair)) => Ok(Some(pair)),
        Some(
            ColumnsStated::Titles {
                targets,
                directions,
            },
        ) => {
            let pair = columns_titled(alloc, host, path, targets, directions)?;
            Ok(Some(pair))
        }
    }
}

/// The columns of the table of a path that have these titles. Its file is opened and read for them.
fn columns_titled<'a, H: Host>(
    alloc: Global,
    host: &H,
    path: &'a str,
    targets: &str,
    directions: &str,
) -> Result<ColumnPair, Hindrance<'a>>
    ensures titled { IfOk result (λ pair. LooksForTitles (files_of H.File.Source H.Host host.now)
        path.now targets.now directions.now (Ok pair)) }
    ensures hindered { IfErr result (HindersTitles (files_of H.File.Source H.Host host.now) path.now
        targets.now directions.now) }
{
    let mut file = open(host, path)?;
    let titles = Titles {
        targets: targets.as_bytes(),
        directions: directions.as_bytes(),
    };
    match titled_columns(alloc, &mut file.reader, titles) {
        Ok(pair) => Ok(pair),
        Err(fault) => Err(Hindrance::Columns(fault)),
    }
}

/// A table and its station with their files open, the field file first.
fn open_beside<'a, H: Host>(
    alloc: Global,
    host: &H,
    asked: &TableBeside<&'a str, Option<&'a str>, FormStated<'a>>,
) -> Result<TableBeside<NamedReader<'a, H::File>, StationName<'a>, TableForm>, Hindrance<'a>>
    ensures opened { IfOk result (IsOpenedBeside (files_of H.File.Source H.Host host.now) asked.now) }
    ensures hindered { IfErr result (HindersBeside (files_of H.File.Source H.Host host.now)
        asked.now) }
{
    let station = open_station(alloc, host, &asked.station)?;
    let (file, form) = open_table(alloc, host, asked.file, asked.form)?;
    Ok(TableBeside {
        station,
        file,
        form,
    })
}

/// One table of all stations and the stations with their files open, the field file first.
fn open_table_of_all<'a, H: Host>(
    alloc: Global,
    host: &H,
    asked: &StationsBeside<&'a str, FormStated<'a>>,
) -> Result<StationsBeside<NamedReader<'a, H::File>, TableForm>, Hindrance<'a>>
    ensures opened { IfOk result (IsOpenedTableOfAll (files_of H.File.Source H.Host host.now)
        asked.now) }
    ensures hindered { IfErr result (HindersTableOfAll (files_of H.File.Source H.Host host.now)
        asked.now) }
{
    let stations = open_stations(host, &asked.stations)?;
    let (file, form) = open_table(alloc, host, asked.file, asked.form)?;
    Ok(StationsBeside {
        stations,
        file,
        form,
    })
}

/// The changes of lines of a field file with it open, and the new file of their copy.
fn open_change<'a, H: Host>(
    host: &'a H,
    gsi: &'a str,
    copy: Option<&'a str>,
    changes: Vec<Change>,
) -> Result<
    Request<'a, NamedReader<'a, H::File>, NewFile<'a, H, H::New>, StationName<'a>, TableForm>,
    Hindrance<'a>,
>
    ensures opened { IfOk result (IsOpened (files_of H.File.Source H.Host host.now)
        ⟦<NewFile<'a, H, H::New> as Sink>⟧ (H.known_new host.now) (request.Change gsi.entry
        copy.entry changes)) }
    ensures hindered { IfErr result (IsUnopened (files_of H.File.Source H.Host host.now) gsi.now) }
{
    Ok(Request::Change {
        gsi: open(host, gsi)?,
        copy: new_file(host, copy),
        changes,
    })
}

/// The new file of a path, where one is stated.
fn new_file<'a, H: Host>(host: &'a H, path: Option<&'a str>) -> Option<NewFile<'a, H, H::New>>
    ensures { IsNewFile ⟦<NewFile<'a, H, H::New> as Sink>⟧ (H.known_new host.now) path.entry result }
{
    Some(NewFile::new(host, path?))
}

/// The files of two paths, of which the first is opened first.
fn open_two<'a, H: Host>(
    host: &H,
    first: &'a str,
    second: &'a str,
) -> Result<(NamedReader<'a, H::File>, NamedReader<'a, H::File>), Hindrance<'a>>
    ensures first { IfOk result (λ files. IsUnread (files_of H.File.Source H.Host host.now)
        first.now files.0) }
    ensures second { IfOk result (λ files. IsUnread (files_of H.File.Source H.Host host.now)
        second.now files.1) }
    ensures hindered { IfErr result (IsUnopenedOfTwo (files_of H.File.Source H.Host host.now)
        first.now second.now) }
{
    let first = open(host, first)?;
    Ok((first, open(host, second)?))
}

/// The file of a path, which has the path for its name.
fn open<'a, H: Host>(host: &H, path: &'a str) -> Result<NamedReader<'a, H::File>, Hindrance<'a>>
    ensures opened { IfOk result (IsUnread (files_of H.File.Source H.Host host.now) path.now) }
    ensures hindered { IfErr result (IsUnopened (files_of H.File.Source H.Host host.now) path.now) }
{
    match host.open(path) {
        Ok(reader) => Ok(NamedReader {
            name: path.as_bytes(),
            reader,
        }),
        Err(Failed) => Err(Hindrance::Unopened(Unopened { path })),
    }
}

/// Makes the run of a request whose files are open, and answers its exit status. Standard input is
/// read where the request names no file of words.
fn run_request<'a, H: Host, W: Sink, E: Sink>(
    alloc: Global,
    input: H::Input,
    faults: &[&'static [Explanation]],
    request: Request<
        'a,
        NamedReader<'a, H::File>,
        NewFile<'a, H, H::New>,
        StationName<'a>,
        TableForm,
    >,
    out: &mut W,
    err: &mut E,
) -> u8
    ensures status { result ≤ 1 }
    ensures run { IsRun H.File.Source
        ⟦<NewFile<'a, H, H::New> as Sink>⟧ H.Input.Source
        input faults.now
        (writer_change W.Sink out.old out.new)
        (writer_change E.Sink err.old err.new) request.entry result }
{
    match request {
        Request::Check(asked) => check_sheet(alloc, asked, out, err),
        Request::Means {
            gsi,
            station,
            limits,
        } => run_means(alloc, gsi.reader, station.as_bytes(), limits, out, err),
        Request::Station { station, text } => print_station(alloc, station, text, out, err),
        Request::Stations { stations, text } => print_stations(alloc, stations, text, out, err),
        Request::Table { beside, text } => print_beside(alloc, beside, text, out, err),
        Request::StationsTable { beside, text } => {
            print_table_of_all(alloc, beside, text, out, err)
        }
        Request::Mark {
            gsi,
            copy,
            beginnings,
            stated,
        } => match copy {
            None => run_mark(alloc, gsi.reader, beginnings, stated, out, err),
            Some(mut copy) => run_mark(alloc, gsi.reader, beginnings, stated, &mut copy, err),
        },
        Request::Change { gsi, copy, changes } => {
            change_lines(alloc, gsi, copy, &changes, out, err)
        }
        Request::List { gsi, limits, form } => match form {
            ListForm::Lines => run_list(alloc, gsi.reader, limits, out, err),
            ListForm::Rows(rows) => run_list_rows(alloc, gsi.reader, limits, rows, out, err),
        },
        Request::Words { gsi } => run_words(alloc, gsi.reader, out, err),
        Request::WordsOfInput => run_words(alloc, input, out, err),
        Request::Explain { fault } => run_explain(alloc, faults, fault, out, err),
    }
}

/// Prints a copy of a field file with changed lines, or writes it to a new file, and answers the
/// exit status.
fn change_lines<F: Source, N: Sink + Drop, W: Sink, E: Sink>(
    alloc: Global,
    gsi: NamedReader<'_, F>,
    copy: Option<N>,
    changes: &[Change],
    out: &mut W,
    err: &mut E,
) -> u8
    ensures status { result ≤ 1 }
    ensures run { ChangesFile F.Source N.Sink
        (writer_change W.Sink out.old out.new)
        (writer_change E.Sink err.old err.new) gsi.entry copy changes.now result }
{
    match copy {
        None => run_change(alloc, gsi.reader, changes, out, err),
        Some(mut copy) => run_change(alloc, gsi.reader, changes, &mut copy, err),
    }
}

/// Checks a sheet against a field file, and answers the exit status. The run is recorded where
/// digests are asked for.
fn check_sheet<F: Source, W: Sink, E: Sink>(
    alloc: Global,
    asked: SheetCheck<NamedReader<'_, F>>,
    out: &mut W,
    err: &mut E,
) -> u8
    ensures status { result ≤ 1 }
    ensures run { ChecksSheet F.Source
        (writer_change W.Sink out.old out.new)
        (writer_change E.Sink err.old err.new) asked.entry asked.entry.digests result }
{
    let SheetCheck {
        gsi,
        mut sheet,
        limits,
        residual,
        digests,
    } = asked;
    match digests {
        Digests::Omitted => run_check(
            alloc,
            gsi.reader,
            &mut sheet.reader,
            limits,
            residual,
            out,
            err,
        ),
        Digests::Printed => run_check_recorded(alloc, gsi, sheet, limits, residual, out, err),
    }
}

/// What stands in the head of a report of the file of this path, with these notes.
fn head_with<'a, 'n>(path: &'a [u8], notes: &'a Notes<'n>) -> Head<'a, 'n>
    ensures { head_of result ≡ spec.head_with path.now notes.now }
{
    let notes = Some(notes);
    Head { path, notes }
}

/// Prints a text of a station of a field file, and answers the exit status. The run is recorded
/// where digests are asked for.
fn print_station<F: Source, W: Sink, E: Sink>(
    alloc: Global,
    station: FieldStation<NamedReader<'_, F>, StationName<'_>>,
    text: StationText<'_>,
    out: &mut W,
    err: &mut E,
) -> u8
    ensures status { result ≤ 1 }
    ensures run { PrintsStation F.Source
        (writer_change W.Sink out.old out.new)
        (writer_change E.Sink err.old err.new) station.entry text.entry result }
{
    let FieldStation { gsi, name, limits } = station;
    let name = name.as_bytes();
    match text {
        StationText::Directions { decimals, form } => {
            let asked = Directions { decimals, form };
            run_answer(alloc, gsi.reader, name, limits, &asked, out, err)
        }
        StationText::Report { digests, notes } => {
            let head = head_with(gsi.name, &notes);
            match digests {
                Digests::Omitted => { run_report(alloc, gsi.reader, name, limits, head, out, err) }
                Digests::Printed => {
                    let gsi = HeadedReader {
                        head,
                        reader: gsi.reader,
                    };
                    run_report_recorded(alloc, gsi, name, limits, out, err)
                }
            }
        }
        StationText::ReportRows { digests, form } => match digests {
            Digests::Omitted => run_rows(alloc, gsi.reader, name, limits, form, out, err),
            Digests::Printed => run_rows_recorded(alloc, gsi, name, limits, form, out, err),
        },
    }
}

/// Prints a text of all stations of a field file, and answers the exit status.
fn print_stations<F: Source, W: Sink, E: Sink>(
    alloc: Global,
    stations: FieldStations<NamedReader<'_, F>>,
    text: StationsText<'_>,
    out: &mut W,
    err: &mut E,
) -> u8
    ensures status { result ≤ 1 }
    ensures run { PrintsStations F.Source
        (writer_change W.Sink out.old out.new)
        (writer_change E.Sink err.old err.new) stations.entry text.entry result }
{
    let FieldStations { gsi, limits } = stations;
    match text {
        StationsText::Directions { decimals, form } => {
            let asked = Directions { decimals, form };
            let arrangement = Arrangement::NamedDirections(form);
            run_answer_of_all(alloc, gsi.reader, limits, &asked, arrangement, out, err)
        }
        StationsText::Reports { notes } => {
            let head = head_with(gsi.name, &notes);
            run_reports(alloc, gsi.reader, limits, head, out, err)
        }
        StationsText::ReportRows { form } => {
            run_rows_of_all(alloc, gsi.reader, limits, form, out, err)
        }
    }
}

/// What is asked of each station and of its part of one table of all.
fn part_text(text: AllTableText) -> PartText
    ensures { result ≡ spec.part_text text }
{
    match text {
        AllTableText::Comparison { within } => PartText::Comparison { within },
        AllTableText::Differences { form } => PartText::Differences { rows: form },
    }
}

/// Prints a text of all stations of a field file and of one table of them, and answers the exit
/// status.
fn print_table_of_all<F: Source, W: Sink, E: Sink>(
    alloc: Global,
    beside: StationsBeside<NamedReader<'_, F>, TableForm>,
    text: AllTableText,
    out: &mut W,
    err: &mut E,
) -> u8
    ensures status { result ≤ 1 }
    ensures run { PrintsTableOfAll F.Source
        (writer_change W.Sink out.old out.new)
        (writer_change E.Sink err.old err.new) beside.entry text result }
{
    let StationsBeside {
        stations,
        file: mut table,
        form,
    } = beside;
    let FieldStations { gsi, limits } = stations;
    let text = part_text(text);
    let asked = PartAsked { form, text };
    run_table_answer_of_all(
        alloc,
        gsi.reader,
        &mut table.reader,
        limits,
        asked,
        out,
        err,
    )
}

/// Prints a text of a station of a field file and of a table, and answers the exit status. The run
/// is recorded where digests are asked for.
fn print_beside<F: Source, W: Sink, E: Sink>(
    alloc: Global,
    beside: TableBeside<NamedReader<'_, F>, StationName<'_>, TableForm>,
    text: TableText<'_>,
    out: &mut W,
    err: &mut E,
) -> u8
    ensures status { result ≤ 1 }
    ensures run { PrintsBeside F.Source
        (writer_change W.Sink out.old out.new)
        (writer_change E.Sink err.old err.new) beside.entry text.entry result }
{
    let TableBeside {
        station,
        file: mut table,
        form,
    } = beside;
    let FieldStation { gsi, name, limits } = station;
    let name = name.as_bytes();
    match text {
        TableText::Comparison {
            within,
            digests: Digests::Omitted,
        } => run_compare(
            alloc,
            gsi.reader,
            &mut table.reader,
            form,
            name,
            limits,
            within,
            out,
            err,
        ),
        TableText::Comparison {
            within,
            digests: Digests::Printed,
        } => run_compare_recorded(alloc, gsi, table, form, name, limits, within, out, err),
        TableText::Differences { form: rows } => {
            let written = LineForm::Rows(rows);
            let asked = Differences { form, written };
            run_table_answer(
                alloc,
                gsi.reader,
                &mut table.reader,
                name,
                limits,
                &asked,
                out,
                err,
            )
        }
        TableText::JsonLines => {
            let written = LineForm::JsonLines;
            let asked = Differences { form, written };
            run_table_answer(
                alloc,
                gsi.reader,
                &mut table.reader,
                name,
                limits,
                &asked,
                out,
                err,
            )
        }
        TableText::Report {
            within,
            digests,
            notes,
        } => {
            let head = head_with(gsi.name, &notes);
            let asked = ReportAsked {
                head,
                table_path: table.name,
                form,
                within,
            };
            match digests {
                Digests::Omitted => run_table_report(
                    alloc,
                    gsi.reader,
                    &mut table.reader,
                    name,
                    limits,
                    &asked,
                    out,
                    err,
                ),
                Digests::Printed => run_table_report_recorded(
                    alloc,
                    gsi.reader,
                    table.reader,
                    name,
                    limits,
                    &asked,
                    out,
                    err,
                ),
            }
        }
    }
}
