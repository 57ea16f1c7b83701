//! The adjusted directions of a report.
ghost use Rattle.std.specs.Prelude.{◌≡◌, ◌++◌, OnOk, length};
ghost use Rattle.station_report.specs.ReportTexts as spec;

use crate::columns::{GON, push_left, push_right};
use crate::labels::push_phrase;
use crate::lines::{Lines, push_lines};
use crate::places::name_of;
use adjust_kernel::{LONGEST_NAME, Station};
use angle_texts::push_gon;
use report_phrases::{Language, Phrase};
use std::alloc::{AllocError, Global};

/// The adjusted directions of a station's targets.
#[derive(Drop)]
struct Directions<'a> {
    station: &'a Station,
    directions: &'a [u64],
    ghost each: { length directions.now ≡ length station.now.targets },
}

impl<'a> Lines for Directions<'a> {
    ghost places = { λ its. length its.station.now.targets };

    ghost line = { λ its. spec.direction_line its.station.now its.directions.now };

    fn count(&self) -> usize {
        self.station.targets().len()
    }

    fn add(&self, text: &mut Vec<u8>, field: &mut Vec<u8>, place: usize) -> Result<(), AllocError> {
        text.extend_from_slice(b"  ")?;
        push_left(text, LONGEST_NAME, name_of(self.station, place).bytes())?;
        field.clear();
        push_gon(field, self.directions[place])?;
        push_right(text, GON, field)?;
        text.push(b'\n')?;
        Ok(())
    }
}

/// Adds the adjusted directions, target by target.
pub(crate) fn push_directions(
    alloc: Global,
    text: &mut Vec<u8>,
    language: Language,
    station: &Station,
    directions: &[u64],
) -> Result<(), AllocError>
    requires { length directions.now ≡ length station.now.targets }
    ensures { OnOk result (text.new.items ≡ text.old.items
        ++ spec.directions_text language station.now directions.now) }
{
    let mut field = Vec::new(alloc);
    push_phrase(text, language, Phrase::Directions)?;
    push_phrase(text, language, Phrase::DirectionColumns)?;
    let lines = Directions {
        station,
        directions,
    };
    push_lines(text, &mut field, &lines)?;
    Ok(())
}
