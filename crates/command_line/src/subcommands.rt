//! What each subcommand asks for.

ghost use Rattle.std.specs.Prelude.{◌≡◌, ◌↔◌, ◌⊎◌, IfOk, IfSome, IfNone, IsTrue, codes, true};
ghost use Rattle.clap.specs.Words.{found_of};
ghost use Rattle.command_line.specs.CommandLine.{AsksFor, AsksForAll, AsksForResult};
ghost use Rattle.command_line.specs.CommandLine.{AsksOfStation, Lacks, LacksAll, LacksLimits};
ghost use Rattle.command_line.specs.CommandLine.{AsksForTableOfAll, HoldsResult, NamesTable};
ghost use Rattle.command_line.specs.CommandLine.{LacksForDifferences, LacksResult, LacksTable};
ghost use Rattle.command_line.specs.CommandLine.{LacksForDirections, LacksForList, LacksStation};
ghost use Rattle.command_line.specs.CommandLine.{LacksToCheck, LacksToCompare, LacksToMark};
ghost use Rattle.command_line.specs.CommandLine.{LacksToChange, LacksToReport};
ghost use Rattle.command_line.specs.Stated.{IsGiven, IsMissing, IsStatedForm, StatesFlag};
ghost use Rattle.command_line.specs.Stated.{StatesNoColumns, StatesTableForm};
ghost use Rattle.command_line.specs.StatedNotes.{StatesNotes};
ghost use Rattle.command_line.specs.StatedNumbers.{StatesNumbers};

use crate::arguments::{AGAIN, ALL, COPY, GSI, JSON, OTHERS, SHEET, STATED_TABLE, STATION, TABLE};
use crate::count_option::CountOption;
use crate::found::{
    beginnings_of, count_of, decimals_of, digests_of, form_of, has_flag, limits_of, residual_of,
    row_form_of, table_form_of, within_of,
};
use crate::mistakes::{has_more_than_all, has_more_than_table};
use crate::request::{
    AllTableText, Asked, FieldStation, FieldStations, FormStated, ListForm, Request, SheetCheck,
    StationText, StationsBeside, StationsText, TableBeside, TableText,
};
use crate::stated_changes::changes_stated;
use crate::stated_notes::{has_notes, notes_stated};
use clap::ArgMatches;
use direction_table::AngleUnit;
use job_statements::{Stated, StatedNumber};
use report_notes::Notes;
use row_forms::RowForm;
use station_book::{Limits, ResultLimits};
use std::alloc::{AllocError, Global};

/// What a subcommand of this name asks for, by what is found of the words after it; none where an
/// argument that it needs is missing, or is no limit, number or name that it takes. An error is
/// that memory ran out for the numbers.
pub(crate) fn request_after<'a>(
    alloc: Global,
    name: &str,
    found: &ArgMatches<'a>,
) -> Result<Option<Asked<'a>>, AllocError>
    ensures asked { IfOk result (λ request. IfSome request
        (AsksFor name.now (found_of found.now))) }
    ensures none { IfOk result (λ request. IfNone request (Lacks name.now (found_of found.now))) }
{
    match name {
        "compare" => Ok(compare_request(found)),
        "differences" => Ok(differences_request(found)),
        "directions" => Ok(directions_request(found)),
        "report" => report_request(alloc, found),
        "check" => Ok(check_request(found)),
        "means" => Ok(means_request(found)),
        "mark" => mark_request(alloc, found),
        "change" => change_request(alloc, found),
        "list" => Ok(list_request(found)),
        "words" => Ok(words_request(found)),
        _ => Ok(None),
    }
}

/// The station that is asked for: the path of its field file, its name where it is stated, and the
/// limits of face differences.
fn station_of<'a>(found: &ArgMatches<'a>) -> Option<(&'a str, Option<&'a str>, Limits)>
    ensures asked { IfSome result (λ asked.
        AsksOfStation (found_of found.now) asked.0.now asked.1 asked.2) }
    ensures none { IfNone result (LacksStation (found_of found.now)) }
{
    let gsi = found.get_str(GSI)?;
    Some((gsi, found.get_str(STATION), limits_of(found)?))
}

/// The limits of a result. That of residuals is the largest where none is stated.
fn result_limits_of(found: &ArgMatches<'_>) -> Option<ResultLimits>
    ensures held { IfSome result (HoldsResult (found_of found.now)) }
    ensures none { IfNone result (LacksLimits (found_of found.now)) }
{
    let usual = ResultLimits::of_faces(limits_of(found)?);
    match residual_of(found)? {
        Some(residual) => Some(ResultLimits { residual, ..usual }),
        None => Some(usual),
    }
}

/// The station of this name, whose adjustment is asked for.
fn result_of<'a>(
    found: &ArgMatches<'a>,
    name: Option<&'a str>,
) -> Option<FieldStation<&'a str, Option<&'a str>>>
    ensures asked { IfSome result (AsksForResult (found_of found.now)) }
    ensures named { IfSome result (λ asked. asked.name ≡ name.entry) }
    ensures none { IfNone result (LacksResult (found_of found.now)) }
{
    Some(FieldStation {
        gsi: found.get_str(GSI)?,
        name,
        limits: result_limits_of(found)?,
    })
}

/// All stations, whose adjustments are asked for.
fn all_of<'a>(found: &ArgMatches<'a>) -> Option<FieldStations<&'a str>>
    ensures asked { IfSome result (AsksForAll (found_of found.now)) }
    ensures none { IfNone result (LacksAll (found_of found.now)) }
{
    if has_more_than_all(found) {
        return None;
    }
    Some(FieldStations {
        gsi: found.get_str(GSI)?,
        limits: result_limits_of(found)?,
    })
}

/// All stations and the one table of them that are asked for.
fn table_of_all<'a>(found: &ArgMatches<'a>) -> Option<StationsBeside<&'a str, FormStated<'a>>>
    requires { StatesFlag (found_of found.now) (codes "all") true }
    ensures asked { IfSome result (AsksForTableOfAll (found_of found.now)) }
    ensures none { IfNone result (LacksResult (found_of found.now)
        ⊎ LacksTable (found_of found.now) ⊎ StatesNoColumns (found_of found.now)) }
{
    if has_more_than_table(found) {
        return None;
    }
    Some(StationsBeside {
        stations: FieldStations {
            gsi: found.get_str(GSI)?,
            limits: result_limits_of(found)?,
        },
        file: found.get_str(STATION)?,
        form: table_form_of(found)?,
    })
}

/// The words after the field file, as the name of a station where two are there, and the path of
/// its table.
fn table_named<'a>(found: &ArgMatches<'a>) -> Option<(Option<&'a str>, &'a str)>
    ensures named { IfSome result (λ words. NamesTable (found_of found.now) words.0 words.1.now) }
    ensures none { IfNone result (IsMissing (found_of found.now) (codes "STATION")) }
{
    let first = found.get_str(STATION)?;
    match found.get_str(TABLE) {
        Some(second) => Some((Some(first), second)),
        None => Some((None, first)),
    }
}

/// The station and its table that are asked for.
fn table_of_one<'a>(
    found: &ArgMatches<'a>,
) -> Option<TableBeside<&'a str, Option<&'a str>, FormStated<'a>>>
    ensures station { IfSome result (λ beside. AsksForResult (found_of found.now) beside.station) }
    ensures table { IfSome result (λ beside.
        NamesTable (found_of found.now) beside.station.name beside.file.now) }
    ensures form { IfSome result (λ beside. StatesTableForm (found_of found.now) beside.form) }
    ensures none { IfNone result (LacksResult (found_of found.now)
        ⊎ LacksTable (found_of found.now) ⊎ StatesNoColumns (found_of found.now)) }
{
    let (name, file) = table_named(found)?;
    let Some(station) = result_of(found, name) else {
        return None;
    };
    Some(TableBeside {
        station,
        file,
        form: table_form_of(found)?,
    })
}

fn compare_request<'a>(found: &ArgMatches<'a>) -> Option<Asked<'a>>
    ensures asked { IfSome result (AsksFor (codes "compare") (found_of found.now)) }
    ensures none { IfNone result (LacksToCompare (found_of found.now)) }
{
    let within = within_of(found)?;
    if has_flag(found, ALL) {
        let Some(beside) = table_of_all(found) else {
            return None;
        };
        let text = AllTableText::Comparison { within };
        return Some(Request::StationsTable { beside, text });
    }
    let Some(beside) = table_of_one(found) else {
        return None;
    };
    let digests = digests_of(found);
    let text = TableText::Comparison { within, digests };
    Some(Request::Table { beside, text })
}

fn differences_request<'a>(found: &ArgMatches<'a>) -> Option<Asked<'a>>
    ensures asked { IfSome result (AsksFor (codes "differences") (found_of found.now)) }
    ensures none { IfNone result (LacksForDifferences (found_of found.now)) }
{
    let form = row_form_of(found);
    if has_flag(found, ALL) {
        let Some(beside) = table_of_all(found) else {
            return None;
        };
        let text = AllTableText::Differences { form };
        return Some(Request::StationsTable { beside, text });
    }
    let Some(beside) = table_of_one(found) else {
        return None;
    };
    match (has_flag(found, JSON), form) {
        (false, form) => {
            let text = TableText::Differences { form };
            Some(Request::Table { beside, text })
        }
        (true, RowForm::Commas) => {
            let text = TableText::JsonLines;
            Some(Request::Table { beside, text })
        }
        // Decimal commas, which JSON does not have.
        (true, RowForm::Semicolons) => None,
    }
}

fn directions_request<'a>(found: &ArgMatches<'a>) -> Option<Asked<'a>>
    ensures asked { IfSome result (AsksFor (codes "directions") (found_of found.now)) }
    ensures none { IfNone result (LacksForDirections (found_of found.now)) }
{
    let decimals = decimals_of(found)?;
    let form = row_form_of(found);
    if has_flag(found, ALL) {
        let Some(stations) = all_of(found) else {
            return None;
        };
        let text = StationsText::Directions { decimals, form };
        return Some(Request::Stations { stations, text });
    }
    let Some(station) = result_of(found, found.get_str(STATION)) else {
        return None;
    };
    let text = StationText::Directions { decimals, form };
    Some(Request::Station { station, text })
}

/// What `report` asks for where it is of all stations and these notes are stated.
fn report_of_all<'a>(found: &ArgMatches<'a>, notes: Notes<'a>) -> Option<Asked<'a>>
    requires all { StatesFlag (found_of found.now) (codes "all") true }
    requires noted { StatesNotes (found_of found.now) notes }
    ensures asked { IfSome result (AsksFor (codes "report") (found_of found.now)) }
    ensures none { IfNone result (LacksToReport (found_of found.now)) }
{
    let Some(stations) = all_of(found) else {
        return None;
    };
    let listed = form_of(found)?;
    let text = match (listed, has_notes(found)) {
        (ListForm::Lines, _) => StationsText::Reports { notes },
        (ListForm::Rows(form), false) => StationsText::ReportRows { form },
        // Rows beside something else.
        (ListForm::Rows(_), true) => return None,
    };
    Some(Request::Stations { stations, text })
}

fn report_request<'a>(
    alloc: Global,
    found: &ArgMatches<'a>,
) -> Result<Option<Asked<'a>>, AllocError>
    ensures asked { IfOk result (λ request. IfSome request
        (AsksFor (codes "report") (found_of found.now))) }
    ensures none { IfOk result (λ request. IfNone request (LacksToReport (found_of found.now))) }
{
    let Some(notes) = notes_stated(alloc, found)? else {
        return Ok(None);
    };
    Ok(reporting_request(found, notes))
}

/// What `report` asks for where these notes are stated.
fn reporting_request<'a>(found: &ArgMatches<'a>, notes: Notes<'a>) -> Option<Asked<'a>>
    requires { StatesNotes (found_of found.now) notes }
    ensures asked { IfSome result (AsksFor (codes "report") (found_of found.now)) }
    ensures none { IfNone result (LacksToReport (found_of found.now)) }
{
    if has_flag(found, ALL) {
        return report_of_all(found, notes);
    }
    let Some(station) = result_of(found, found.get_str(STATION)) else {
        return None;
    };
    let within = within_of(found)?;
    let file = found.get_str(STATED_TABLE);
    let form = table_form_of(found)?;
    let form_stated = is_stated(form);
    let listed = form_of(found)?;
    let digests = digests_of(found);
    let noted = has_notes(found);
    match (listed, file, within, form_stated, digests, noted) {
        (ListForm::Lines, Some(file), within, _, digests, _) => Some(Request::Table {
            beside: TableBeside {
                station,
                file,
                form,
            },
            text: TableText::Report {
                within,
                digests,
                notes,
            },
        }),
        (ListForm::Lines, None, None, false, digests, _) => Some(Request::Station {
            station,
            text: StationText::Report { digests, notes },
        }),
        (ListForm::Rows(form), None, None, false, digests, false) => Some(Request::Station {
            station,
            text: StationText::ReportRows { digests, form },
        }),
        // A limit of no table, or how it is read.
        (ListForm::Lines, None, Some(_), _, _, _) => None,
        (ListForm::Lines, None, None, true, _, _) => None,
        // Rows beside something else.
        (ListForm::Rows(_), Some(_), _, _, _, _) => None,
        (ListForm::Rows(_), None, Some(_), _, _, _) => None,
        (ListForm::Rows(_), None, None, true, _, _) => None,
        (ListForm::Rows(_), None, None, false, _, true) => None,
    }
}

/// Whether it is not how a table is read of which nothing is stated.
fn is_stated(form: FormStated<'_>) -> bool
    ensures { IsTrue result ↔ IsStatedForm form.entry }
{
    form.unit != AngleUnit::Gon || form.columns.is_some()
}

fn check_request<'a>(found: &ArgMatches<'a>) -> Option<Asked<'a>>
    ensures asked { IfSome result (AsksFor (codes "check") (found_of found.now)) }
    ensures none { IfNone result (LacksToCheck (found_of found.now)) }
{
    Some(Request::Check(SheetCheck {
        gsi: found.get_str(GSI)?,
        sheet: found.get_str(SHEET)?,
        limits: limits_of(found)?,
        residual: residual_of(found)?,
        digests: digests_of(found),
    }))
}

fn means_request<'a>(found: &ArgMatches<'a>) -> Option<Asked<'a>>
    ensures asked { IfSome result (AsksFor (codes "means") (found_of found.now)) }
    ensures none { IfNone result (LacksStation (found_of found.now)) }
{
    let Some((gsi, station, limits)) = station_of(found) else {
        return None;
    };
    Some(Request::Means {
        gsi,
        station,
        limits,
    })
}

fn mark_request<'a>(alloc: Global, found: &ArgMatches<'a>) -> Result<Option<Asked<'a>>, AllocError>
    ensures asked { IfOk result (λ request. IfSome request
        (AsksFor (codes "mark") (found_of found.now))) }
    ensures none { IfOk result (λ request. IfNone request (LacksToMark (found_of found.now))) }
{
    let Some(sets) = count_of(alloc, found, CountOption::Sets)? else {
        return Ok(None);
    };
    let Some(targets) = count_of(alloc, found, CountOption::Targets)? else {
        return Ok(None);
    };
    Ok(marking_request(found, sets, targets))
}

/// What `mark` asks for where these numbers are stated.
fn marking_request<'a>(
    found: &ArgMatches<'a>,
    sets: StatedNumber,
    targets: StatedNumber,
) -> Option<Asked<'a>>
    requires sets { StatesNumbers (found_of found.now) (codes "sets") 40 sets }
    requires targets { StatesNumbers (found_of found.now) (codes "targets") 100 targets }
    ensures asked { IfSome result (AsksFor (codes "mark") (found_of found.now)) }
    ensures none { IfNone result (LacksToMark (found_of found.now)) }
{
    Some(Request::Mark {
        gsi: found.get_str(GSI)?,
        copy: found.get_str(COPY),
        beginnings: beginnings_of(found)?,
        stated: Stated {
            sets,
            targets,
            again: has_flag(found, AGAIN),
            others: has_flag(found, OTHERS),
        },
    })
}

fn change_request<'a>(
    alloc: Global,
    found: &ArgMatches<'a>,
) -> Result<Option<Asked<'a>>, AllocError>
    ensures asked { IfOk result (λ request. IfSome request
        (AsksFor (codes "change") (found_of found.now))) }
    ensures none { IfOk result (λ request. IfNone request (LacksToChange (found_of found.now))) }
{
    let Some(gsi) = found.get_str(GSI) else {
        return Ok(None);
    };
    let Some(changes) = changes_stated(alloc, found)? else {
        return Ok(None);
    };
    let copy = found.get_str(COPY);
    Ok(Some(Request::Change { gsi, copy, changes }))
}

fn list_request<'a>(found: &ArgMatches<'a>) -> Option<Asked<'a>>
    ensures asked { IfSome result (AsksFor (codes "list") (found_of found.now)) }
    ensures none { IfNone result (LacksForList (found_of found.now)) }
{
    Some(Request::List {
        gsi: found.get_str(GSI)?,
        limits: limits_of(found)?,
        form: form_of(found)?,
    })
}

fn words_request<'a>(found: &ArgMatches<'a>) -> Option<Asked<'a>>
    ensures asked { IfSome result (AsksFor (codes "words") (found_of found.now)) }
    ensures none { IfNone result (IsMissing (found_of found.now) (codes "GSI")) }
{
    Some(Request::Words {
        gsi: found.get_str(GSI)?,
    })
}
