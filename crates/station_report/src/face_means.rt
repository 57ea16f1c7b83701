//! What the face differences of a station have together: the foot of their columns.
ghost use Rattle.std.specs.Prelude.{◌≡◌, ◌<◌, ◌++◌, OnOk, length};
ghost use Rattle.angle_texts.specs.MgonTexts.{hundredths_text, short_mgon_text, sign_text};
ghost use Rattle.report_phrases.specs.Phrases.{said};
ghost use Rattle.station_report.specs.Columns.{right_text};
ghost use Rattle.station_report.specs.FaceMeans.{IsFaceMean};
ghost use Rattle.station_report.specs.Readings.{two_c_at, two_i_at};
ghost use Rattle.station_report.specs.ReportTexts as spec;
ghost use Rattle.station_report.specs.Together.{AreTogether};

use crate::columns::{push_left, push_right};
use crate::places::faces_at;
use crate::together::Together;
use angle_texts::digit;
use itoa::Buffer;
use report_phrases::{Language, Phrase};
use station_book::Surveyed;
use std::alloc::{AllocError, Global};

/// The width of words below the columns before those of 2c and 2i.
const WORDS: usize = 56;

/// The width of the columns of 2c and 2i.
pub(crate) const DIFFERENCES: usize = 10;

/// All 2c and all 2i of a station, each together.
fn faces_together(surveyed: &Surveyed) -> (Together, Together)
    requires { 0 < length surveyed.now.station.obs }
    ensures two_c { AreTogether (length surveyed.now.station.obs) (two_c_at surveyed.now)
        result.0 }
    ensures two_i { AreTogether (length surveyed.now.station.obs) (two_i_at surveyed.now)
        result.1 }
{
    let first = faces_at(surveyed, 0);
    let mut two_c = Together::before(first.two_c);
    let mut two_i = Together::before(first.two_i);
    let station = surveyed.station();
    for place in 0..station.obs().len() {
        let faces = faces_at(surveyed, place);
        two_c = two_c.with(faces.two_c);
        two_i = two_i.with(faces.two_i);
    }
    (two_c, two_i)
}

/// What all 2c of a station, or all 2i, say together, in units of 0.01 mgon.
#[derive(Clone, Copy, Debug, Drop)]
pub struct FaceMean {
    /// Their mean, rounded, the middle of two upwards.
    pub mean: i64,
    /// Half of their mean, rounded once, likewise: of 2c the collimation error, of 2i the index
    /// error.
    pub half: i64,
    /// The greatest of them less the least.
    pub spread: i64,
}

/// What all 2c of a station say together, and all 2i.
pub fn means_of_faces(surveyed: &Surveyed) -> (FaceMean, FaceMean)
    requires { 0 < length surveyed.now.station.obs }
    ensures two_c { IsFaceMean (length surveyed.now.station.obs) (two_c_at surveyed.now) result.0 }
    ensures two_i { IsFaceMean (length surveyed.now.station.obs) (two_i_at surveyed.now) result.1 }
{
    let count = surveyed.station().obs().len() as u32;
    let (two_c, two_i) = faces_together(surveyed);
    let of_two_c = FaceMean {
        mean: two_c.over(count),
        half: two_c.over(2 * count),
        spread: two_c.spread(),
    };
    let of_two_i = FaceMean {
        mean: two_i.over(count),
        half: two_i.over(2 * count),
        spread: two_i.spread(),
    };
    (of_two_c, of_two_i)
}

/// Adds what stands before a number.
fn push_sign(text: &mut Vec<u8>, number: i64) -> Result<(), AllocError>
    ensures { OnOk result (text.new.items ≡ text.old.items ++ sign_text number) }
{
    if number < 0 {
        text.push(b'-')?;
    }
    Ok(())
}

/// Adds a number of hundredths.
fn push_hundredths(text: &mut Vec<u8>, number: u64) -> Result<(), AllocError>
    ensures { OnOk result (text.new.items ≡ text.old.items ++ hundredths_text number) }
{
    let mut whole = Buffer::new();
    text.extend_from_slice(whole.format(number / 100).as_bytes())?;
    text.extend_from_slice(&[b'.', digit(number / 10), digit(number)])?;
    Ok(())
}

/// Adds an angle in mgon to a text, which is in units of 0.01 mgon, of any size: a spread may be
/// larger than `angle_texts::push_short_mgon` takes.
///
/// The only error is that memory was refused; then some of it may have been added.
pub fn push_wide_mgon(text: &mut Vec<u8>, units: i64) -> Result<(), AllocError>
    ensures { OnOk result (text.new.items ≡ text.old.items ++ short_mgon_text units) }
{
    push_sign(text, units)?;
    push_hundredths(text, units.unsigned_abs())
}

/// Adds a field of a number of 0.01 mgon.
fn push_number(text: &mut Vec<u8>, field: &mut Vec<u8>, units: i64) -> Result<(), AllocError>
    ensures { OnOk result
        (text.new.items ≡ text.old.items ++ right_text 10 (short_mgon_text units)) }
{
    field.clear();
    push_wide_mgon(field, units)?;
    push_right(text, DIFFERENCES, field)?;
    Ok(())
}

/// Adds a line below the columns of 2c and 2i.
fn push_line(
    text: &mut Vec<u8>,
    field: &mut Vec<u8>,
    language: Language,
    words: Phrase,
    two_c: i64,
    two_i: i64,
) -> Result<(), AllocError>
    ensures { OnOk result
        (text.new.items ≡ text.old.items ++ spec.foot_line (said language words) two_c two_i) }
{
    text.extend_from_slice(b"  ")?;
    push_left(text, WORDS, words.said(language))?;
    push_number(text, field, two_c)?;
    push_number(text, field, two_i)?;
    text.push(b'\n')?;
    Ok(())
}

/// Adds the means of 2c and of 2i, half of them, and of each the greatest less the least.
pub(crate) fn push_foot(
    text: &mut Vec<u8>,
    field: &mut Vec<u8>,
    language: Language,
    surveyed: &Surveyed,
) -> Result<(), AllocError>
    requires { 0 < length surveyed.now.station.obs }
    ensures { OnOk result
        (text.new.items ≡ text.old.items ++ spec.foot_text language surveyed.now) }
{
    let (two_c, two_i) = means_of_faces(surveyed);
    text.push(b'\n')?;
    push_line(text, field, language, Phrase::Mean, two_c.mean, two_i.mean)?;
    push_line(
        text,
        field,
        language,
        Phrase::HalfOfMean,
        two_c.half,
        two_i.half,
    )?;
    push_line(
        text,
        field,
        language,
        Phrase::Spread,
        two_c.spread,
        two_i.spread,
    )?;
    Ok(())
}
