//! The end of a report: what the sets of a station say of each other.
ghost use Rattle.std.specs.Prelude.{◌≡◌, ◌<◌, ◌^◌, ◌++◌, OnOk, length};
ghost use Rattle.std.specs.Option.{ForSome};
ghost use Rattle.report_phrases.specs.Phrases.{said};
ghost use Rattle.station_report.specs.ReportTexts as spec;
ghost use Rattle.station_report.specs.Small.{AreSmall};

use crate::accuracy::Accuracy;
use crate::columns::push_count;
use crate::deviation::degrees_of;
use crate::head::{push_counted, push_entry};
use crate::labels::push_phrase;
use crate::places::{name_of, number_of, observation_at, residual_at};
use crate::residual_columns::push_residuals;
use adjust_kernel::{Station, UNIT};
use angle_texts::{push_gon, push_mgon};
use report_phrases::{Language, Phrase};
use station_results::AdjustedObs;
use std::alloc::{AllocError, Global};

/// Adds the set and the target of an observation.
fn push_place(
    text: &mut Vec<u8>,
    language: Language,
    station: &Station,
    place: usize,
) -> Result<(), AllocError>
    requires { place < length station.now.obs }
    ensures { OnOk result
        (text.new.items ≡ text.old.items ++ spec.place_text language station.now place) }
{
    let obs = observation_at(station, place);
    push_count(text, usize::from(number_of(station, obs.set as usize)))?;
    push_phrase(text, language, Phrase::AndTarget)?;
    text.extend_from_slice(name_of(station, obs.target as usize).bytes())?;
    Ok(())
}

/// Adds a residual, its set and its target.
fn push_greatest(
    text: &mut Vec<u8>,
    language: Language,
    station: &Station,
    rows: &[AdjustedObs],
    place: usize,
) -> Result<(), AllocError>
    requires each { length rows.now ≡ length station.now.obs }
    requires inside { place < length station.now.obs }
    ensures { OnOk result (text.new.items ≡ text.old.items
        ++ spec.greatest_text language station.now rows.now place) }
{
    push_mgon(text, residual_at(rows, place))?;
    push_phrase(text, language, Phrase::AndSet)?;
    push_place(text, language, station, place)?;
    Ok(())
}

/// Adds a sum of squares, in squares of 0.001 mgon.
fn push_squares(text: &mut Vec<u8>, squares: u64) -> Result<(), AllocError>
    requires { squares < 2 ^ 40 }
    ensures { OnOk result (text.new.items ≡ text.old.items ++ spec.squares_text squares) }
{
    // A square of 0.001 mgon is 0.000001 mgon^2. `push_gon` takes units of 0.000000001, UNIT of
    // which make up one of these, and has six decimals.
    push_gon(text, UNIT * squares)?;
    text.extend_from_slice(b" mgon^2")?;
    Ok(())
}

/// Adds a standard deviation, in units of 0.001 mgon, and of what it is.
fn push_deviation(
    text: &mut Vec<u8>,
    language: Language,
    units: u32,
    of_what: Phrase,
) -> Result<(), AllocError>
    requires { units < 2 ^ 31 }
    ensures { OnOk result (text.new.items
        ≡ text.old.items ++ spec.deviation_text units (said language of_what)) }
{
    push_mgon(text, units as i32)?;
    push_phrase(text, language, of_what)?;
    Ok(())
}

/// Adds the standard deviation of each adjusted direction, if it is stated.
fn push_of_adjusted(
    text: &mut Vec<u8>,
    language: Language,
    deviation: Option<u32>,
) -> Result<(), AllocError>
    requires { ForSome deviation (λ units. units < 2 ^ 31) }
    ensures { OnOk result
        (text.new.items ≡ text.old.items ++ spec.of_adjusted_text language deviation) }
{
    match deviation {
        Some(units) => push_deviation(text, language, units, Phrase::OfEachAdjusted),
        None => push_phrase(text, language, Phrase::NotOfAdjusted),
    }
}

/// Adds how accurate directions are.
fn push_accuracy(
    alloc: Global,
    text: &mut Vec<u8>,
    language: Language,
    accuracy: Accuracy,
) -> Result<(), AllocError>
    requires { AreSmall accuracy }
    ensures { OnOk result
        (text.new.items ≡ text.old.items ++ spec.accuracy_text language accuracy) }
{
    let mut entry = Vec::new(alloc);
    push_squares(&mut entry, accuracy.squares)?;
    push_entry(text, language, Phrase::SumOfSquares, &entry)?;
    entry.clear();
    push_deviation(
        &mut entry,
        language,
        accuracy.of_one,
        Phrase::OfOneDirection,
    )?;
    push_entry(text, language, Phrase::StandardDeviation, &entry)?;
    entry.clear();
    push_of_adjusted(&mut entry, language, accuracy.of_adjusted)?;
    push_entry(text, language, Phrase::StandardDeviation, &entry)?;
    Ok(())
}

/// Adds the end of a report.
fn push_end(
    alloc: Global,
    text: &mut Vec<u8>,
    language: Language,
    station: &Station,
    rows: &[AdjustedObs],
    greatest: usize,
    accuracy: Accuracy,
) -> Result<(), AllocError>
    requires each { length rows.now ≡ length station.now.obs }
    requires inside { greatest < length station.now.obs }
    requires small { AreSmall accuracy }
    ensures { OnOk result (text.new.items ≡ text.old.items
        ++ spec.end_text language station.now rows.now greatest accuracy) }
{
    let mut entry = Vec::new(alloc);
    text.push(b'\n')?;
    push_greatest(&mut entry, language, station, rows, greatest)?;
    push_entry(text, language, Phrase::GreatestResidual, &entry)?;
    push_counted(
        text,
        language,
        Phrase::DegreesOfFreedom,
        degrees_of(station) as usize,
    )?;
    push_accuracy(alloc, text, language, accuracy)?;
    Ok(())
}

/// Adds that there is nothing to compare.
fn push_nothing(text: &mut Vec<u8>, language: Language) -> Result<(), AllocError>
    ensures { OnOk result (text.new.items ≡ text.old.items ++ spec.nothing_text language) }
{
    text.push(b'\n')?;
    push_entry(
        text,
        language,
        Phrase::DegreesOfFreedom,
        Phrase::NothingToCompare.said(language),
    )?;
    Ok(())
}

/// Adds what the sets say of each other.
pub(crate) fn push_agreement(
    alloc: Global,
    text: &mut Vec<u8>,
    language: Language,
    station: &Station,
    rows: &[AdjustedObs],
    greatest: usize,
    accuracy: Option<Accuracy>,
) -> Result<(), AllocError>
    requires each { length rows.now ≡ length station.now.obs }
    requires inside { greatest < length station.now.obs }
    requires small { ForSome accuracy AreSmall }
    ensures { OnOk result (text.new.items ≡ text.old.items
        ++ spec.agreement_text language station.now rows.now greatest accuracy) }
{
    match accuracy {
        Some(accuracy) => {
            push_residuals(alloc, text, language, station, rows)?;
            push_end(alloc, text, language, station, rows, greatest, accuracy)?;
            Ok(())
        }
        None => push_nothing(text, language),
    }
}
