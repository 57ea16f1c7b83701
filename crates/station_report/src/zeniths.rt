//! The zenith angles of a report.
ghost use Rattle.std.specs.Prelude.{◌≡◌, ◌++◌, OnOk, length};
ghost use Rattle.station_report.specs.ReportTexts as spec;

use crate::by_set::push_sets;
use crate::labels::push_phrase;
use crate::lines::Lines;
use crate::places::faces_at;
use crate::readings::{push_label, push_mean, push_read, zenith_mean, zenith_one, zenith_two};
use crate::zenith_means::push_means;
use report_phrases::{Language, Phrase};
use station_book::Surveyed;
use std::alloc::{AllocError, Global};

/// Adds the zenith angles of an observation by that of face I and 2i, and ends the line.
fn push_zeniths(
    text: &mut Vec<u8>,
    field: &mut Vec<u8>,
    zenith: i32,
    two_i: i32,
) -> Result<(), AllocError>
    ensures { OnOk result (text.new.items ≡ text.old.items ++ spec.zeniths_text zenith two_i) }
{
    push_read(text, field, zenith_one(zenith))?;
    push_read(text, field, zenith_two(zenith, two_i))?;
    push_mean(text, field, zenith_mean(zenith, two_i))?;
    text.push(b'\n')?;
    Ok(())
}

/// The zenith angles of a station.
#[derive(Drop)]
struct Zeniths<'a> {
    surveyed: &'a Surveyed,
}

impl<'a> Lines for Zeniths<'a> {
    ghost places = { λ its. length its.surveyed.now.station.obs };

    ghost line = { λ its. spec.zenith_line its.surveyed.now };

    fn count(&self) -> usize {
        self.surveyed.station().obs().len()
    }

    fn add(&self, text: &mut Vec<u8>, field: &mut Vec<u8>, place: usize) -> Result<(), AllocError> {
        let faces = faces_at(self.surveyed, place);
        push_label(text, self.surveyed.station(), place)?;
        push_zeniths(text, field, faces.zenith, faces.two_i)?;
        Ok(())
    }
}

/// Adds the zenith angles, set by set, and their means by target.
pub(crate) fn push_zenith_angles(
    alloc: Global,
    text: &mut Vec<u8>,
    language: Language,
    surveyed: &Surveyed,
) -> Result<(), AllocError>
    ensures { OnOk result
        (text.new.items ≡ text.old.items ++ spec.zenith_angles_text language surveyed.now) }
{
    let mut field = Vec::new(alloc);
    push_phrase(text, language, Phrase::ZenithAngles)?;
    push_phrase(text, language, Phrase::ZenithColumns)?;
    push_sets(text, &mut field, surveyed.station(), &Zeniths { surveyed })?;
    push_means(text, &mut field, language, surveyed)?;
    Ok(())
}
