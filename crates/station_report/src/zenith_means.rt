//! The means of a station's zenith angles by target.
ghost use Rattle.std.specs.Prelude.{◌≡◌, ◌≤◌, ◌<◌, ◌+◌, ◌++◌, OnOk, length, ℕ, List};
ghost use Rattle.adjust_kernel.specs.declared.bounds.TheConstants.{MOST_ROWS};
ghost use Rattle.station_report.specs.Columns.{each_place, right_text};
ghost use Rattle.station_report.specs.ReportTexts as spec;
ghost use Rattle.station_report.specs.ZenithSums.{AreSumsOf};
ghost use Rattle.station_report.specs.Zeniths.{zenith_of, zeniths_of};

use crate::columns::{GON, push_left, push_right, push_right_number};
use crate::labels::push_phrase;
use crate::lines::{Lines, push_lines};
use crate::places::{faces_at, name_of, observation_at};
use crate::readings::zenith_mean;
use crate::zenith_sums::ZenithSums;
use adjust_kernel::{LONGEST_NAME, UNIT};
use angle_texts::{push_gon, push_thousandths};
use report_phrases::{Language, Phrase};
use station_book::Surveyed;
use std::alloc::AllocError;

/// The sums with the zenith angle of an observation, if it is of a target.
fn with_place(sums: ZenithSums, surveyed: &Surveyed, target: usize, place: usize) -> ZenithSums
    requires inside { place < length surveyed.now.station.obs }
    requires few { sums.count < MOST_ROWS }
    requires sums { AreSumsOf (each_place place (zenith_of surveyed.now target)) sums }
    ensures few { result.count ≤ sums.count + 1 }
    ensures sums { AreSumsOf (each_place (place + 1) (zenith_of surveyed.now target)) result }
{
    if observation_at(surveyed.station(), place).target as usize == target {
        let faces = faces_at(surveyed, place);
        return sums.with(zenith_mean(faces.zenith, faces.two_i));
    }
    sums
}

/// The sums of a target's zenith angles.
fn sums_of(surveyed: &Surveyed, target: usize) -> ZenithSums
    requires { target < length surveyed.now.station.targets }
    ensures sums { AreSumsOf (zeniths_of surveyed.now target) result }
    ensures some { 1 ≤ result.count }
{
    let mut sums = ZenithSums::none();
    let station = surveyed.station();
    for place in 0..station.obs().len() {
        sums = with_place(sums, surveyed, target, place);
    }
    sums
}

/// The width of the column of how many sets have a target.
const SETS: usize = 6;

/// The width of the column of the standard deviation of a mean.
const DEVIATION: usize = 20;

/// Adds a field of the mean of zenith angles.
fn push_mean(text: &mut Vec<u8>, field: &mut Vec<u8>, sums: ZenithSums) -> Result<(), AllocError>
    requires { 1 ≤ sums.count }
    ensures { (zeniths : List ℕ) → AreSumsOf zeniths sums → OnOk result
        (text.new.items ≡ text.old.items ++ right_text 13 (spec.zenith_mean_text zeniths)) }
{
    field.clear();
    push_gon(field, UNIT * sums.mean())?;
    push_right(text, GON, field)?;
    Ok(())
}

/// Adds the standard deviation of the mean of zenith angles, or a dash.
fn push_units(field: &mut Vec<u8>, sums: ZenithSums) -> Result<(), AllocError>
    ensures { (zeniths : List ℕ) → AreSumsOf zeniths sums → OnOk result
        (field.new.items ≡ field.old.items ++ spec.zenith_deviation_text zeniths) }
{
    if sums.count < 2 {
        field.push(b'-')?;
        return Ok(());
    }
    push_thousandths(field, sums.deviation())
}

/// Adds a field of the standard deviation of the mean of zenith angles.
fn push_deviation(
    text: &mut Vec<u8>,
    field: &mut Vec<u8>,
    sums: ZenithSums,
) -> Result<(), AllocError>
    ensures { (zeniths : List ℕ) → AreSumsOf zeniths sums → OnOk result
        (text.new.items ≡ text.old.items ++ right_text 20 (spec.zenith_deviation_text zeniths)) }
{
    field.clear();
    push_units(field, sums)?;
    push_right(text, DEVIATION, field)?;
    Ok(())
}

/// Adds how many zenith angles there are, their mean and its standard deviation; ends the line.
fn push_numbers(text: &mut Vec<u8>, field: &mut Vec<u8>, sums: ZenithSums) -> Result<(), AllocError>
    requires { 1 ≤ sums.count }
    ensures { (zeniths : List ℕ) → AreSumsOf zeniths sums → OnOk result
        (text.new.items ≡ text.old.items ++ spec.zenith_numbers_text zeniths) }
{
    push_right_number(text, SETS, sums.count)?;
    push_mean(text, field, sums)?;
    push_deviation(text, field, sums)?;
    text.push(b'\n')?;
    Ok(())
}

/// The means of the zenith angles of a station's targets.
#[derive(Drop)]
struct Means<'a> {
    surveyed: &'a Surveyed,
}

impl<'a> Lines for Means<'a> {
    ghost places = { λ its. length its.surveyed.now.station.targets };

    ghost line = { λ its. spec.zenith_mean_line its.surveyed.now };

    fn count(&self) -> usize {
        self.surveyed.station().targets().len()
    }

    fn add(&self, text: &mut Vec<u8>, field: &mut Vec<u8>, place: usize) -> Result<(), AllocError> {
        let target = name_of(self.surveyed.station(), place);
        text.extend_from_slice(b"  ")?;
        push_left(text, LONGEST_NAME, target.bytes())?;
        push_numbers(text, field, sums_of(self.surveyed, place))?;
        Ok(())
    }
}

/// Adds the means of zenith angles, target by target.
pub(crate) fn push_means(
    text: &mut Vec<u8>,
    field: &mut Vec<u8>,
    language: Language,
    surveyed: &Surveyed,
) -> Result<(), AllocError>
    ensures { OnOk result
        (text.new.items ≡ text.old.items ++ spec.zenith_means_text language surveyed.now) }
{
    push_phrase(text, language, Phrase::ZenithMeans)?;
    push_phrase(text, language, Phrase::ZenithMeanColumns)?;
    push_lines(text, field, &Means { surveyed })?;
    Ok(())
}
