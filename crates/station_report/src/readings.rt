//! The readings of a report.
ghost use Rattle.std.specs.Prelude.{◌≡◌, ◌<◌, ◌++◌, OnOk, length};
ghost use Rattle.adjust_kernel.specs.declared.bounds.TheConstants.{TURN};
ghost use Rattle.station_book.specs.declared.bounds.TheConstants.{CIRCLE};
ghost use Rattle.station_report.specs.Columns.{right_text};
ghost use Rattle.station_report.specs.Readings as reading;
ghost use Rattle.station_report.specs.ReportTexts as spec;
ghost use Rattle.angle_texts.specs.MgonTexts.{short_mgon_text};

use crate::by_set::push_sets;
use crate::columns::{GON, READ, push_left, push_right, push_right_number};
use crate::face_means::{DIFFERENCES, push_foot};
use crate::labels::push_phrase;
use crate::lines::Lines;
use crate::place_of::front_of;
use crate::places::{faces_at, name_of, number_of, observation_at};
use adjust_kernel::{HALF_UNIT, LONGEST_NAME, Station, TURN};
use angle_texts::{push_gon, push_short_gon, push_short_mgon};
use report_phrases::{Language, Phrase};
use station_book::{CIRCLE, HALF_CIRCLE, Surveyed};
use std::alloc::{AllocError, Global};

/// Units of 0.000000001 gon in 0.00001 gon, in which is read.
pub const READ_UNIT: u64 = 10_000;

/// The direction that was read in face I, in units of 0.00001 gon.
pub fn reading_one(value: u32, two_c: i32) -> u32
    ensures value { result ≡ reading.reading_one value two_c }
    ensures bound { result < CIRCLE }
{
    let twice = (i64::from(value) - i64::from(two_c)).rem_euclid(i64::from(TURN));
    (twice / 2) as u32
}

/// The direction that was read in face II, in units of 0.00001 gon.
pub fn reading_two(value: u32, two_c: i32) -> u32
    ensures value { result ≡ reading.reading_two value two_c }
    ensures bound { result < CIRCLE }
{
    let opposite = i64::from(reading_one(value, two_c) + HALF_CIRCLE);
    (opposite + i64::from(two_c)).rem_euclid(i64::from(CIRCLE)) as u32
}

/// The zenith angle that was read in face I, in units of 0.00001 gon.
pub fn zenith_one(zenith: i32) -> u32
    ensures value { result ≡ reading.zenith_one zenith }
    ensures bound { result < CIRCLE }
{
    i64::from(zenith).rem_euclid(i64::from(CIRCLE)) as u32
}

/// The zenith angle that was read in face II, in units of 0.00001 gon.
pub fn zenith_two(zenith: i32, two_i: i32) -> u32
    ensures value { result ≡ reading.zenith_two zenith two_i }
    ensures bound { result < CIRCLE }
{
    (i64::from(two_i) - i64::from(zenith)).rem_euclid(i64::from(CIRCLE)) as u32
}

/// The zenith angle of both faces, in half units (0.000005 gon each).
pub fn zenith_mean(zenith: i32, two_i: i32) -> u32
    ensures value { result ≡ reading.zenith_mean zenith two_i }
    ensures bound { result < TURN }
{
    zenith_one(zenith) + (CIRCLE - zenith_two(zenith, two_i))
}

/// The two-face direction of the first observation of the set of an observation.
fn first_value(station: &Station, place: usize) -> u32
    requires { place < length station.now.obs }
    ensures value { result ≡ reading.first_value station.now place }
    ensures bound { result < TURN }
{
    let set = observation_at(station, place).set as usize;
    observation_at(station, front_of(station, set, 0)).value
}

/// The width of the column of a set's number.
const SET: usize = 5;

/// Adds a field that was read, in units of 0.00001 gon.
pub(crate) fn push_read(
    text: &mut Vec<u8>,
    field: &mut Vec<u8>,
    units: u32,
) -> Result<(), AllocError>
    ensures { OnOk result
        (text.new.items ≡ text.old.items ++ right_text 11 (spec.read_text units)) }
{
    field.clear();
    push_short_gon(field, READ_UNIT * u64::from(units))?;
    push_right(text, READ, field)?;
    Ok(())
}

/// Adds a field of a mean, in half units.
pub(crate) fn push_mean(
    text: &mut Vec<u8>,
    field: &mut Vec<u8>,
    half_units: u32,
) -> Result<(), AllocError>
    ensures { OnOk result
        (text.new.items ≡ text.old.items ++ right_text 13 (spec.mean_text half_units)) }
{
    field.clear();
    push_gon(field, HALF_UNIT * u64::from(half_units))?;
    push_right(text, GON, field)?;
    Ok(())
}

/// Adds a field of a face difference, in units of 0.01 mgon.
fn push_difference(text: &mut Vec<u8>, field: &mut Vec<u8>, units: i32) -> Result<(), AllocError>
    ensures { OnOk result
        (text.new.items ≡ text.old.items ++ right_text 10 (short_mgon_text units)) }
{
    field.clear();
    push_short_mgon(field, units)?;
    push_right(text, DIFFERENCES, field)?;
    Ok(())
}

/// Adds the number of the set of an observation, and the name of its target.
pub(crate) fn push_label(
    text: &mut Vec<u8>,
    station: &Station,
    place: usize,
) -> Result<(), AllocError>
    requires { place < length station.now.obs }
    ensures { OnOk result (text.new.items ≡ text.old.items ++ spec.label_text station.now place) }
{
    let obs = observation_at(station, place);
    push_right_number(text, SET, number_of(station, obs.set as usize))?;
    text.extend_from_slice(b"  ")?;
    push_left(
        text,
        LONGEST_NAME,
        name_of(station, obs.target as usize).bytes(),
    )?;
    Ok(())
}

/// Adds what was read by a two-face direction and its 2c, and the mean, which is counted from the
/// two-face direction of the first observation of the set.
fn push_angles(
    text: &mut Vec<u8>,
    field: &mut Vec<u8>,
    value: u32,
    two_c: i32,
    first: u32,
) -> Result<(), AllocError>
    requires value { value < TURN }
    requires first { first < TURN }
    ensures { OnOk result
        (text.new.items ≡ text.old.items ++ spec.angles_text value two_c first) }
{
    push_read(text, field, reading_one(value, two_c))?;
    push_read(text, field, reading_two(value, two_c))?;
    push_mean(text, field, (value + (TURN - first)) % TURN)?;
    Ok(())
}

/// Adds the face differences, and ends the line.
fn push_differences(
    text: &mut Vec<u8>,
    field: &mut Vec<u8>,
    two_c: i32,
    two_i: i32,
) -> Result<(), AllocError>
    ensures { OnOk result
        (text.new.items ≡ text.old.items ++ spec.differences_text two_c two_i) }
{
    push_difference(text, field, two_c)?;
    push_difference(text, field, two_i)?;
    text.push(b'\n')?;
    Ok(())
}

/// The readings of a station.
#[derive(Drop)]
struct Readings<'a> {
    surveyed: &'a Surveyed,
}

impl<'a> Lines for Readings<'a> {
    ghost places = { λ its. length its.surveyed.now.station.obs };

    ghost line = { λ its. spec.reading_line its.surveyed.now };

    fn count(&self) -> usize {
        self.surveyed.station().obs().len()
    }

    fn add(&self, text: &mut Vec<u8>, field: &mut Vec<u8>, place: usize) -> Result<(), AllocError> {
        let station = self.surveyed.station();
        let value = observation_at(station, place).value;
        let faces = faces_at(self.surveyed, place);
        push_label(text, station, place)?;
        push_angles(text, field, value, faces.two_c, first_value(station, place))?;
        push_differences(text, field, faces.two_c, faces.two_i)?;
        Ok(())
    }
}

/// Adds the readings, set by set, and what their face differences have together.
pub(crate) fn push_readings(
    alloc: Global,
    text: &mut Vec<u8>,
    language: Language,
    surveyed: &Surveyed,
) -> Result<(), AllocError>
    requires { 0 < length surveyed.now.station.obs }
    ensures { OnOk result
        (text.new.items ≡ text.old.items ++ spec.readings_text language surveyed.now) }
{
    let mut field = Vec::new(alloc);
    push_phrase(text, language, Phrase::Readings)?;
    push_phrase(text, language, Phrase::ReadingColumns)?;
    push_sets(text, &mut field, surveyed.station(), &Readings { surveyed })?;
    push_foot(text, &mut field, language, surveyed)?;
    Ok(())
}
