//! The mistakes of a command line that the grammar takes.

ghost use Rattle.std.specs.Prelude.{◌≡◌, ◌<◌, ◌↔◌, ◌++◌, IfErr, IfNone, IfOk, IfSome, IsTrue};
ghost use Rattle.std.specs.Prelude.{string_bytes};
ghost use Rattle.clap.specs.Words.{found_of, kind_of};
ghost use Rattle.command_line.specs.Mistakes.{AreRightLimits, HasRightCounts, IsMistakeAmong};
ghost use Rattle.command_line.specs.Mistakes.{IsMistakeFrom, IsNoLimit, IsRightLimit, IsWrongCode};
ghost use Rattle.command_line.specs.Mistakes.{HasForm, IsOfTable, IsWrongColumns, IsWrongCount};
ghost use Rattle.command_line.specs.Mistakes.{IsThere, NoneIsBefore, NoneIsBetween};
ghost use Rattle.command_line.specs.Mistakes.{IsMistakeAfter, IsMistakeBesideTable, rank};
ghost use Rattle.command_line.specs.Mistakes.{StandsBesideAll, StandsBesideRows};
ghost use Rattle.command_line.specs.Mistakes.{StandsBesideTable};
ghost use Rattle.command_line.specs.Mistakes.{count_why, mistake_text};
ghost use Rattle.command_line.specs.declared.mistakes.Mistake.TheVariants as mistake;
ghost use Rattle.command_line.specs.Stated.{IsCommaAlone, IsCommaInJson, StatesNoCode};
ghost use Rattle.command_line.specs.Stated.{StatesNoColumns};

use crate::arguments::{
    ALL, COLUMNS, CSV, DECIMAL_COMMA, JSON, STATED_NAME, STATED_TABLE, STATION, STATION_CODE,
    TABLE, WITHIN,
};
use crate::commands::command_named;
use crate::count_option::CountOption;
use crate::found::{columns_of, counted, digests_of, has_flag, limit_of, stated_code_of, unit_of};
use crate::help;
use crate::limit_option::{LIMIT_OPTIONS, LimitOption};
use crate::request::Digests;
use crate::stated_changes::{form_of_changes, stated_as_changes, wrong_change};
use crate::stated_notes::{has_notes, wrong_language, wrong_note};
use changed_lines::EditKind;
use clap::error::ErrorKind;
use clap::{ArgMatches, Error};
use direction_table::AngleUnit;
use job_statements::{CountFault, Unstated};
use station_explain::{Explanation, list_of_near_names};
use std::alloc::{AllocError, Global};

/// A mistake in the words after a subcommand's name, with the usage of that in a program that was
/// called so.
fn mistake_of(
    alloc: Global,
    called: &str,
    name: &str,
    kind: ErrorKind,
    message: &str,
) -> Result<Error, Error>
    ensures kind { IfOk result (λ error. kind_of error ≡ kind) }
    ensures memory { IfErr result (λ error. kind_of error ≡ ErrorKind.OutOfMemory) }
{
    let both = format!(in alloc; "{called} {name}")?;
    let mut command = command_named(alloc, name)?.bin_name(both.as_str())?;
    Ok(command.error(kind, message)?)
}

/// What is mistaken in words that lack what their subcommand needs. The parse has tested all else.
#[derive(Clone, Copy)]
pub(crate) enum Mistake<'a> {
    /// The text of an option is no limit that may be stated.
    Limit(LimitOption, &'a str),

    /// Rows are asked for, and something beside them.
    Rows,

    /// The limit of a comparison is stated without a table.
    Within,

    /// How a table is read is stated without a table.
    Form,

    /// The text of the columns of a table states none.
    Columns(&'a str),

    /// JSON lines are asked for, and decimal commas.
    Json,

    /// A decimal comma is stated, and no rows.
    DecimalComma,

    /// This text of an option that states numbers can't stand where it does.
    Count(CountOption, &'a str, CountFault<'a>),

    /// The code of the stations is none, or one that is put in.
    Code(&'a str),

    /// This text of an option that states changes of lines says none.
    Change(EditKind, &'a str),

    /// The text of the language of a report is no code of one.
    Language(&'a str),

    /// This text of the option that states notes says none.
    Note(&'a str),

    /// All stations are asked for, and something that is of one.
    All,

    /// No station can have the name.
    Name,

    /// An argument is missing. The grammar has refused such words before.
    Missing,

    /// One table of all stations is asked for, and something that is of one station.
    TableOfAll,
}

/// The mistake of words that lack what their subcommand needs.
pub(crate) fn mistake_in(
    alloc: Global,
    called: &str,
    name: &str,
    found: &ArgMatches<'_>,
) -> Result<Error, Error>
    ensures kind { IfOk result (λ error. kind_of error ≡ ErrorKind.ValueValidation) }
    ensures memory { IfErr result (λ error. kind_of error ≡ ErrorKind.OutOfMemory) }
{
    let message = message_of(alloc, mistake_after(alloc, name, found)?)?;
    let kind = ErrorKind::ValueValidation;
    mistake_of(alloc, called, name, kind, message.as_str())
}

/// The text of a mistake.
fn message_of(alloc: Global, mistake: Mistake<'_>) -> Result<String, AllocError>
    ensures { IfOk result (λ said. string_bytes said ≡ mistake_text mistake.entry) }
{
    match mistake {
        Mistake::Limit(option, text) => format!(in alloc;
            "invalid value '{text}' for '--{} <LIMIT>': {}",
            option.name(),
            option.stated_as()
        ),
        Mistake::Rows => help::ROWS_ALONE.to_string(alloc),
        Mistake::Within => help::WITHIN_ALONE.to_string(alloc),
        Mistake::Form => help::FORM_ALONE.to_string(alloc),
        Mistake::Columns(text) => format!(in alloc;
            "invalid value '{text}' for '--columns <TARGET,DIRECTION>': {}",
            help::NO_COLUMNS
        ),
        Mistake::Json => help::JSON_WITH_POINTS.to_string(alloc),
        Mistake::DecimalComma => help::COMMA_ALONE.to_string(alloc),
        Mistake::Count(option, text, fault) => {
            let (number, why) = told_of(option, fault);
            format!(in alloc;
                "invalid value '{text}' for '--{} <N>': {number}{why}",
                option.name()
            )
        }
        Mistake::Code(text) => format!(in alloc;
            "invalid value '{text}' for '--station-code <N>': {}",
            help::NO_CODE
        ),
        Mistake::Change(kind, text) => format!(in alloc;
            "invalid value '{text}' for '--{}': {}",
            form_of_changes(kind),
            stated_as_changes(kind)
        ),
        Mistake::Language(text) => format!(in alloc;
            "invalid value '{text}' for '--language <CODE>': {}",
            help::LANGUAGES
        ),
        Mistake::Note(text) => format!(in alloc;
            "invalid value '{text}' for '--note <KEY=TEXT>': {}",
            help::NOTES
        ),
        Mistake::All => help::ALL_ALONE.to_string(alloc),
        Mistake::Name => help::NO_NAME.to_string(alloc),
        Mistake::Missing => help::MISSING.to_string(alloc),
        Mistake::TableOfAll => help::TABLE_OF_ALL_ALONE.to_string(alloc),
    }
}

/// What is told of the fault of a text: the number that it is of, if it is of one, and why it is
/// one.
fn told_of<'a>(option: CountOption, fault: CountFault<'a>) -> (&'a str, &'static str)
    ensures { result.0.now ++ result.1.now ≡ count_why option fault.entry }
{
    match fault {
        CountFault::Name => ("", help::NO_NAME),
        CountFault::Digits => ("", option.stated_as()),
        CountFault::Range(number) => (number, option.missed()),
        CountFault::EachTwice => ("", help::EACH_TWICE),
        CountFault::OneTwice => ("", help::ONE_TWICE),
    }
}

/// The mistake that is told of what is found after the name of a subcommand.
fn mistake_after<'a>(
    alloc: Global,
    name: &str,
    found: &ArgMatches<'a>,
) -> Result<Mistake<'a>, AllocError>
    ensures { IfOk result (IsMistakeAfter name.now (found_of found.now)) }
{
    match name {
        "compare" => Ok(mistake_beside_table(found)),
        "differences" => Ok(mistake_beside_table(found)),
        _ => mistake_among(alloc, found),
    }
}

/// The mistake that is told of what is found after the name of a command that reads a table. That
/// an argument is missing is what is left, since all else has been tested.
fn mistake_beside_table<'a>(found: &ArgMatches<'a>) -> Mistake<'a>
    ensures { IsMistakeBesideTable (found_of found.now) result }
{
    if let Some(mistake) = mistake_of_values(found) {
        return mistake;
    }
    match has_flag(found, ALL) && has_more_than_table(found) {
        true => Mistake::TableOfAll,
        false => Mistake::Missing,
    }
}

/// Whether something is stated that may not stand beside one table of all stations.
pub(crate) fn has_more_than_table(found: &ArgMatches<'_>) -> bool
    ensures { IsTrue result ↔ StandsBesideTable (found_of found.now) }
{
    found.contains_id(TABLE)
        || has_flag(found, JSON)
        || matches!(digests_of(found), Digests::Printed)
}

/// The mistake that is told of what is found: the first that is there.
fn mistake_among<'a>(alloc: Global, found: &ArgMatches<'a>) -> Result<Mistake<'a>, AllocError>
    ensures { IfOk result (IsMistakeAmong (found_of found.now)) }
{
    if let Some(mistake) = mistake_beside_copies(found) {
        return Ok(mistake);
    }
    match mistake_in_marking(alloc, found)? {
        Some(mistake) => Ok(mistake),
        None => mistake_in_changing(alloc, found),
    }
}

/// The mistake in what other commands than `mark` and `change` are told: the first that is there.
fn mistake_beside_copies<'a>(found: &ArgMatches<'a>) -> Option<Mistake<'a>>
    ensures first { IfSome result (IsMistakeAmong (found_of found.now)) }
    ensures none { IfNone result (NoneIsBefore 8 (found_of found.now)) }
{
    if let Some(mistake) = mistake_of_values(found) {
        return Some(mistake);
    }
    if has_within_alone(found) {
        return Some(Mistake::Within);
    }
    if has_form_alone(found) {
        return Some(Mistake::Form);
    }
    None
}

/// The mistake in limits, columns, JSON lines and rows: the first that is there.
fn mistake_of_values<'a>(found: &ArgMatches<'a>) -> Option<Mistake<'a>>
    ensures first { IfSome result (IsMistakeAmong (found_of found.now)) }
    ensures early { IfSome result (λ told. rank told < 6) }
    ensures none { IfNone result (NoneIsBefore 6 (found_of found.now)) }
{
    if let Some(mistake) = wrong_limit(found) {
        return Some(mistake);
    }
    if let Some(text) = wrong_columns(found) {
        return Some(Mistake::Columns(text));
    }
    if has_comma_in_json(found) {
        return Some(Mistake::Json);
    }
    if has_rows_and_more(found) {
        return Some(Mistake::Rows);
    }
    None
}

/// Whether JSON lines are asked for, and decimal commas.
fn has_comma_in_json(found: &ArgMatches<'_>) -> bool
    ensures { IsTrue result ↔ IsCommaInJson (found_of found.now) }
{
    has_flag(found, JSON) && has_flag(found, DECIMAL_COMMA)
}

/// Whether rows are asked for, and something beside them.
fn has_rows_and_more(found: &ArgMatches<'_>) -> bool
    ensures { IsTrue result ↔ IsThere (found_of found.now) mistake.Rows }
{
    has_flag(found, CSV) && has_more_than_rows(found)
}

/// Whether the limit of a comparison is stated, and no table.
fn has_within_alone(found: &ArgMatches<'_>) -> bool
    ensures { IsTrue result ↔ IsThere (found_of found.now) mistake.Within }
{
    !found.contains_id(STATED_TABLE) && found.contains_id(WITHIN)
}

/// Whether it is stated how a table is read, and no table.
fn has_form_alone(found: &ArgMatches<'_>) -> bool
    ensures { IsTrue result ↔ IsThere (found_of found.now) mistake.Form }
{
    !found.contains_id(STATED_TABLE) && has_form(found)
}

/// Whether a decimal comma is stated, and no rows.
fn is_comma_alone(found: &ArgMatches<'_>) -> bool
    ensures { IsTrue result ↔ IsCommaAlone (found_of found.now) }
{
    has_flag(found, DECIMAL_COMMA) && !has_flag(found, CSV)
}

/// Whether it is stated how a table is read.
#[tactic(auto, unfolding(crate::specs::Mistakes::HasForm))]
fn has_form(found: &ArgMatches<'_>) -> bool
    ensures { IsTrue result ↔ HasForm (found_of found.now) }
{
    unit_of(found) != AngleUnit::Gon || found.contains_id(COLUMNS)
}

/// What is stated as the columns of a table, where it states none.
fn wrong_columns<'a>(found: &ArgMatches<'a>) -> Option<&'a str>
    ensures wrong { IfSome result (λ text. IsWrongColumns (found_of found.now) text.now) }
    ensures none { IfNone result (¬ (StatesNoColumns (found_of found.now))) }
{
    match columns_of(found) {
        Some(_) => None,
        None => found.get_str(COLUMNS),
    }
}

/// A decimal comma without rows, or the mistake in the numbers and the code that `mark` alone is
/// told: the first that is there.
fn mistake_in_marking<'a>(
    alloc: Global,
    found: &ArgMatches<'a>,
) -> Result<Option<Mistake<'a>>, AllocError>
    ensures first { IfOk result (λ told. IfSome told (IsMistakeFrom 8 (found_of found.now))) }
    ensures none { IfOk result (λ told. IfNone told (NoneIsBetween 8 12 (found_of found.now))) }
{
    if is_comma_alone(found) {
        return Ok(Some(Mistake::DecimalComma));
    }
    if let Some((text, fault)) = wrong_count(alloc, found, CountOption::Sets)? {
        return Ok(Some(Mistake::Count(CountOption::Sets, text, fault)));
    }
    if let Some((text, fault)) = wrong_count(alloc, found, CountOption::Targets)? {
        return Ok(Some(Mistake::Count(CountOption::Targets, text, fault)));
    }
    match wrong_code(found) {
        Some(text) => Ok(Some(Mistake::Code(text))),
        None => Ok(None),
    }
}

/// The mistake in the changes that `change` alone is told, in what `report` notes, or in what is
/// said of stations: the first that is there.
fn mistake_in_changing<'a>(alloc: Global, found: &ArgMatches<'a>) -> Result<Mistake<'a>, AllocError>
    ensures { IfOk result (IsMistakeFrom 12 (found_of found.now)) }
{
    if let Some(text) = wrong_change(alloc, found, EditKind::Out)? {
        return Ok(Mistake::Change(EditKind::Out, text));
    }
    if let Some(text) = wrong_change(alloc, found, EditKind::Rename)? {
        return Ok(Mistake::Change(EditKind::Rename, text));
    }
    mistake_in_reporting(alloc, found)
}

/// The mistake in what `report` notes, or in what is said of stations: the first that is there.
fn mistake_in_reporting<'a>(
    alloc: Global,
    found: &ArgMatches<'a>,
) -> Result<Mistake<'a>, AllocError>
    ensures { IfOk result (IsMistakeFrom 14 (found_of found.now)) }
{
    if let Some(text) = wrong_language(found) {
        return Ok(Mistake::Language(text));
    }
    match wrong_note(alloc, found)? {
        Some(text) => Ok(Mistake::Note(text)),
        None => Ok(mistake_of_stations(found)),
    }
}

/// The mistake in what is said of stations: the first that is there. That an argument is missing is
/// what is left, since all else has been tested.
fn mistake_of_stations<'a>(found: &ArgMatches<'a>) -> Mistake<'a>
    ensures { IsMistakeFrom 16 (found_of found.now) result }
{
    if has_flag(found, ALL) && has_more_than_all(found) {
        return Mistake::All;
    }
    if found.contains_id(STATED_NAME) {
        return Mistake::Name;
    }
    Mistake::Missing
}

/// Whether something is stated that is of one station.
pub(crate) fn has_more_than_all(found: &ArgMatches<'_>) -> bool
    ensures { IsTrue result ↔ StandsBesideAll (found_of found.now) }
{
    found.contains_id(STATION)
        || is_of_table(found)
        || matches!(digests_of(found), Digests::Printed)
}

/// The first text of an option that can't stand where it does, and why.
fn wrong_count<'a>(
    alloc: Global,
    found: &ArgMatches<'a>,
    option: CountOption,
) -> Result<Option<(&'a str, CountFault<'a>)>, AllocError>
    ensures wrong { IfOk result (λ first. IfSome first (λ wrong.
        IsWrongCount (found_of found.now) option wrong.0.now wrong.1)) }
    ensures none { IfOk result (λ first. IfNone first
        (HasRightCounts (found_of found.now) option)) }
{
    match counted(alloc, found, option) {
        Ok(_) => Ok(None),
        Err(Unstated::Memory) => Err(AllocError),
        Err(Unstated::Wrong(text, fault)) => Ok(Some((text, fault))),
    }
}

/// What is stated as the code of the stations, where it can't be that.
fn wrong_code<'a>(found: &ArgMatches<'a>) -> Option<&'a str>
    ensures wrong { IfSome result (λ text. IsWrongCode (found_of found.now) text.now) }
    ensures none { IfNone result (¬ (StatesNoCode (found_of found.now))) }
{
    match stated_code_of(found) {
        Some(_) => None,
        None => found.get_str(STATION_CODE),
    }
}

/// The mistake of the first option after which no limit stands that may be stated.
#[tactic(auto, using(crate::proofs::MistakeLaws::place_early))]
fn wrong_limit<'a>(found: &ArgMatches<'a>) -> Option<Mistake<'a>>
    ensures first { IfSome result (IsMistakeAmong (found_of found.now)) }
    ensures early { IfSome result (λ told. rank told < 6) }
    ensures none { IfNone result (AreRightLimits (found_of found.now)) }
{
    for option in LIMIT_OPTIONS {
        if let Some(text) = text_of_no_limit(found, option) {
            return Some(Mistake::Limit(option, text));
        }
    }
    None
}

/// What stands after an option where it is no limit that may be stated.
fn text_of_no_limit<'a>(found: &ArgMatches<'a>, option: LimitOption) -> Option<&'a str>
    ensures mistake { IfSome result (λ text. IsNoLimit (found_of found.now) option text.now) }
    ensures none { IfNone result (IsRightLimit (found_of found.now) option) }
{
    let text = found.get_str(option.name())?;
    match limit_of(found, option.name(), option.unit()) {
        Some(limit) if limit <= option.largest() => None,
        Some(_) => Some(text),
        None => Some(text),
    }
}

/// Whether something is stated that may not stand beside rows.
fn has_more_than_rows(found: &ArgMatches<'_>) -> bool
    ensures { IsTrue result ↔ StandsBesideRows (found_of found.now) }
{
    is_of_table(found) || has_notes(found)
}

/// Whether something is stated that is of a table beside a report.
fn is_of_table(found: &ArgMatches<'_>) -> bool
    ensures { IsTrue result ↔ IsOfTable (found_of found.now) }
{
    found.contains_id(STATED_TABLE) || found.contains_id(WITHIN) || has_form(found)
}

/// The mistake of a line with a name that no fault of the table has: names near it are in its text.
pub(crate) fn no_such_fault(
    alloc: Global,
    table: &[&'static [Explanation]],
    called: &str,
    line: &str,
    name: &str,
) -> Result<Error, Error>
    ensures kind { IfOk result (λ error. kind_of error ≡ ErrorKind.InvalidValue) }
    ensures memory { IfErr result (λ error. kind_of error ≡ ErrorKind.OutOfMemory) }
{
    let near = list_of_near_names(alloc, table, name)?;
    let near = near.as_str().trim_end();
    let message = if near.is_empty() {
        format!(in alloc;
            "no fault has the name '{line}'; 'station_check explain' lists all names"
        )?
    } else {
        format!(in alloc; "no fault has the name '{line}'; these are near:\n\n{near}")?
    };
    let kind = ErrorKind::InvalidValue;
    mistake_of(alloc, called, "explain", kind, message.as_str())
}
