//! What is read of the words after a subcommand's name.

ghost use Rattle.std.specs.Prelude.{◌≤◌, ◌<◌, ◌^◌, ℕ, IfErr, IfOk, IfSome, IfNone, codes};
ghost use Rattle.clap.specs.Words.{found_of};
ghost use Rattle.command_line.specs.CountOptions.{count_largest, count_name};
ghost use Rattle.command_line.specs.Stated.{LimitIsStated, StatesBeginnings, StatesCode};
ghost use Rattle.command_line.specs.Stated.{StatesColumns, StatesNoColumns, StatesTableForm};
ghost use Rattle.command_line.specs.Stated.{StatesDigests, StatesFlag, StatesForm, StatesLimits};
ghost use Rattle.command_line.specs.Stated.{StatesName, StatesNoBeginnings, StatesNoCode};
ghost use Rattle.command_line.specs.Stated.{StatesNoLimits, StatesNoName, StatesNoNumber};
ghost use Rattle.command_line.specs.Stated.{StatesNoResidual, StatesNoWithin, StatesNumber};
ghost use Rattle.command_line.specs.Stated.{StatesResidual, StatesUnit, StatesWithin};
ghost use Rattle.command_line.specs.Stated.{IsCommaAlone, StatesRowForm};
ghost use Rattle.command_line.specs.StatedNumbers.{StatesNoNumbers, StatesNumbers, texts_of};
ghost use Rattle.job_statements.specs.StatedNumbers.{IsStatedBy};
ghost use Rattle.job_statements.specs.WrongTexts.{IsUnstated};

use crate::arguments::{
    COLUMNS, CSV, DECIMAL_COMMA, DECIMALS, DEGREES, DMMSS, RESIDUAL, SAME_SET_UP, SHA256,
    STATED_NAME, STATION_CODE, TWO_C, TWO_I, WITHIN,
};
use crate::count_option::CountOption;
use crate::request::{ColumnsStated, Digests, FormStated, ListForm};
use crate::stated_columns::columns_in;
use adjust_kernel::{Name, ResidualLimit};
use clap::ArgMatches;
use direction_table::{AngleUnit, Decimals, LARGEST_WITHIN, MOST_WRITTEN};
use job_statements::{Beginnings, StatedNumber, Unstated, numbers_of, station_code};
use limit_texts::{LimitUnit, limit_stated};
use row_forms::RowForm;
use station_book::Limits;
use std::alloc::{AllocError, Global};

/// How the stations of a field file begin, unless a name or a code is stated that may not be.
pub(crate) fn beginnings_of(found: &ArgMatches<'_>) -> Option<Beginnings>
    ensures stated { IfSome result (StatesBeginnings (found_of found.now)) }
    ensures none { IfNone result (StatesNoBeginnings (found_of found.now)) }
{
    Some(Beginnings {
        station: stated_name_of(found)?,
        same_set_up: has_flag(found, SAME_SET_UP),
        code: stated_code_of(found)?,
    })
}

/// The name that is stated of the file's one station, or that there is none, unless no station can
/// have it.
pub(crate) fn stated_name_of(found: &ArgMatches<'_>) -> Option<Option<Name>>
    ensures stated { IfSome result (StatesName (found_of found.now)) }
    ensures none { IfNone result (StatesNoName (found_of found.now)) }
{
    let Some(name) = found.get_str(STATED_NAME) else {
        return Some(None);
    };
    Some(Some(Name::new(name.as_bytes())?))
}

/// The code that is stated as one whose blocks begin a station, or that none is, unless it is none
/// that may be.
pub(crate) fn stated_code_of(found: &ArgMatches<'_>) -> Option<Option<Name>>
    ensures stated { IfSome result (StatesCode (found_of found.now)) }
    ensures none { IfNone result (StatesNoCode (found_of found.now)) }
{
    let Some(text) = found.get_str(STATION_CODE) else {
        return Some(None);
    };
    Some(Some(station_code(text.as_bytes())?))
}

/// What an option states of how many sets or targets there are, unless its texts state none.
pub(crate) fn count_of(
    alloc: Global,
    found: &ArgMatches<'_>,
    option: CountOption,
) -> Result<Option<StatedNumber>, AllocError>
    ensures stated { IfOk result (λ counted. IfSome counted
        (StatesNumbers (found_of found.now) (count_name option) (count_largest option))) }
    ensures none { IfOk result (λ counted. IfNone counted
        (StatesNoNumbers (found_of found.now) (count_name option) (count_largest option))) }
{
    match counted(alloc, found, option) {
        Ok(stated) => Ok(Some(stated)),
        Err(Unstated::Memory) => Err(AllocError),
        Err(Unstated::Wrong(_, _)) => Ok(None),
    }
}

/// What an option states of how many sets or targets there are, or why it states none.
pub(crate) fn counted<'a>(
    alloc: Global,
    found: &ArgMatches<'a>,
    option: CountOption,
) -> Result<StatedNumber, Unstated<'a>>
    ensures stated { IfOk result (IsStatedBy (count_largest option)
        (texts_of (found_of found.now) (count_name option))) }
    ensures why { IfErr result (IsUnstated (count_largest option)
        (texts_of (found_of found.now) (count_name option))) }
{
    match found.get_strs(option.name()) {
        Some(texts) => numbers_of(alloc, texts, option.largest()),
        None => numbers_of(alloc, &[], option.largest()),
    }
}

/// The limits of face differences, unless one is missing or out of its range.
pub(crate) fn limits_of(found: &ArgMatches<'_>) -> Option<Limits>
    ensures stated { IfSome result (StatesLimits (found_of found.now)) }
    ensures none { IfNone result (StatesNoLimits (found_of found.now)) }
{
    let two_c = limit_of(found, TWO_C, LimitUnit::Hundredth)?;
    let two_i = limit_of(found, TWO_I, LimitUnit::Hundredth)?;
    Limits::new(two_c, two_i)
}

/// The limit that an option states, counted in this unit.
pub(crate) fn limit_of(found: &ArgMatches<'_>, option: &str, unit: LimitUnit) -> Option<u32>
    ensures stated { IfSome result (LimitIsStated (found_of found.now) option.now unit) }
    ensures none { IfNone result ((limit : ℕ)
        → LimitIsStated (found_of found.now) option.now unit limit → 2 ^ 32 ≤ limit) }
{
    limit_stated(found.get_str(option)?, unit)
}

/// The residual limit or that there is none, unless it is out of its range.
pub(crate) fn residual_of(found: &ArgMatches<'_>) -> Option<Option<ResidualLimit>>
    ensures stated { IfSome result (StatesResidual (found_of found.now)) }
    ensures none { IfNone result (StatesNoResidual (found_of found.now)) }
{
    if !found.contains_id(RESIDUAL) {
        return Some(None);
    }
    let limit = limit_of(found, RESIDUAL, LimitUnit::HalfUnit)?;
    Some(Some(ResidualLimit::new(limit)?))
}

/// How many decimals a direction is written with, unless it is missing or out of its range.
pub(crate) fn decimals_of(found: &ArgMatches<'_>) -> Option<Decimals>
    ensures stated { IfSome result (StatesNumber (found_of found.now) (codes "decimals")) }
    ensures none { IfNone result (StatesNoNumber (found_of found.now) (codes "decimals")
        1 MOST_WRITTEN) }
{
    Decimals::new(found.get_one(DECIMALS)?)
}

/// Within how many units of 0.000001 gon a table agrees, or that no number is stated, unless it is
/// out of its range.
pub(crate) fn within_of(found: &ArgMatches<'_>) -> Option<Option<u32>>
    ensures stated { IfSome result (StatesWithin (found_of found.now)) }
    ensures none { IfNone result (StatesNoWithin (found_of found.now)) }
{
    if !found.contains_id(WITHIN) {
        return Some(None);
    }
    let within = limit_of(found, WITHIN, LimitUnit::Thousandth)?;
    if within > LARGEST_WITHIN {
        return None;
    }
    Some(Some(within))
}

/// The unit of the directions of a table.
pub(crate) fn unit_of(found: &ArgMatches<'_>) -> AngleUnit
    ensures { StatesUnit (found_of found.now) result }
{
    match (has_flag(found, DMMSS), has_flag(found, DEGREES)) {
        (true, _) => AngleUnit::PackedDegrees,
        (false, true) => AngleUnit::Degrees,
        (false, false) => AngleUnit::Gon,
    }
}

/// The columns of a table that are stated, or that none are, unless the text states none.
pub(crate) fn columns_of<'a>(found: &ArgMatches<'a>) -> Option<Option<ColumnsStated<'a>>>
    ensures stated { IfSome result (StatesColumns (found_of found.now)) }
    ensures none { IfNone result (StatesNoColumns (found_of found.now)) }
{
    let Some(text) = found.get_str(COLUMNS) else {
        return Some(None);
    };
    Some(Some(columns_in(text)?))
}

/// How a table is to be read, unless the text of its columns states none.
pub(crate) fn table_form_of<'a>(found: &ArgMatches<'a>) -> Option<FormStated<'a>>
    ensures stated { IfSome result (StatesTableForm (found_of found.now)) }
    ensures none { IfNone result (StatesNoColumns (found_of found.now)) }
{
    Some(FormStated {
        unit: unit_of(found),
        columns: columns_of(found)?,
    })
}

/// The form of rows.
pub(crate) fn row_form_of(found: &ArgMatches<'_>) -> RowForm
    ensures { StatesRowForm (found_of found.now) result }
{
    match has_flag(found, DECIMAL_COMMA) {
        true => RowForm::Semicolons,
        false => RowForm::Commas,
    }
}

/// The form in which a result is printed, unless a decimal comma is stated without rows.
pub(crate) fn form_of(found: &ArgMatches<'_>) -> Option<ListForm>
    ensures stated { IfSome result (StatesForm (found_of found.now)) }
    ensures none { IfNone result (IsCommaAlone (found_of found.now)) }
{
    match (has_flag(found, CSV), row_form_of(found)) {
        (true, rows) => Some(ListForm::Rows(rows)),
        (false, RowForm::Commas) => Some(ListForm::Lines),
        (false, RowForm::Semicolons) => None,
    }
}

/// Whether a flag of this name stands.
pub(crate) fn has_flag(found: &ArgMatches<'_>, flag: &str) -> bool
    ensures { StatesFlag (found_of found.now) flag.now result }
{
    match found.get_one(flag) {
        Some(true) => true,
        _ => false,
    }
}

/// Whether digests are printed.
pub(crate) fn digests_of(found: &ArgMatches<'_>) -> Digests
    ensures { StatesDigests (found_of found.now) result }
{
    match found.get_one(SHA256) {
        Some(true) => Digests::Printed,
        _ => Digests::Omitted,
    }
}
