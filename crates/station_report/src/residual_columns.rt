//! The residuals of a report: targets as rows and sets as columns.
ghost use Rattle.std.specs.Prelude.{◌≡◌, ◌++◌, OnOk, length, decimal};
ghost use Rattle.station_report.specs.Readings as reading;
ghost use Rattle.station_report.specs.ReportTexts as spec;

use crate::columns::{push_left, push_right, push_right_number};
use crate::labels::push_phrase;
use crate::lines::{Lines, push_lines};
use crate::place_of::place_of;
use crate::places::{name_of, number_of, residual_at};
use adjust_kernel::{LONGEST_NAME, Station};
use angle_texts::push_mgon;
use report_phrases::{Language, Phrase};
use station_results::AdjustedObs;
use std::alloc::{AllocError, Global};

/// So many sets stand beside each other.
const GROUP: usize = 7;

/// The width of a set's column.
const WIDTH: usize = 8;

/// Adds the residual of a set and a target; a dash where there is none.
fn push_residual(
    text: &mut Vec<u8>,
    station: &Station,
    rows: &[AdjustedObs],
    target: usize,
    set: usize,
) -> Result<(), AllocError>
    requires { length rows.now ≡ length station.now.obs }
    ensures { OnOk result (text.new.items ≡ text.old.items
        ++ spec.cell_text station.now rows.now target set) }
{
    match place_of(station, set, target) {
        Some(place) => push_mgon(text, residual_at(rows, place)),
        None => {
            text.push(b'-')?;
            Ok(())
        }
    }
}

/// The numbers of seven sets from one on, in their columns.
#[derive(Drop)]
struct Numbers<'a> {
    station: &'a Station,
    start: usize,
}

impl<'a> Lines for Numbers<'a> {
    ghost places = { λ its. length its.station.now.sets };

    ghost line = { λ its set. spec.column_text its.start set
        (decimal (reading.number_of its.station.now set)) };

    fn count(&self) -> usize {
        self.station.sets().len()
    }

    fn add(&self, text: &mut Vec<u8>, field: &mut Vec<u8>, place: usize) -> Result<(), AllocError> {
        if self.start <= place && place - self.start < GROUP {
            return push_right_number(text, WIDTH, number_of(self.station, place));
        }
        Ok(())
    }
}

/// Adds the line of the numbers of seven sets from one on.
fn push_numbers(
    text: &mut Vec<u8>,
    field: &mut Vec<u8>,
    language: Language,
    station: &Station,
    start: usize,
) -> Result<(), AllocError>
    ensures { OnOk result
        (text.new.items ≡ text.old.items ++ spec.numbers_line language station.now start) }
{
    push_phrase(text, language, Phrase::ResidualColumns)?;
    push_lines(text, field, &Numbers { station, start })?;
    text.extend_from_slice(b"\n\n")?;
    Ok(())
}

/// The residuals of a station.
#[derive(Clone, Copy, Drop)]
struct Residuals<'a> {
    station: &'a Station,
    rows: &'a [AdjustedObs],
    ghost each: { length rows.now ≡ length station.now.obs },
}

/// The residuals of a target in seven sets from one on, in their columns.
#[derive(Drop)]
struct Cells<'a> {
    of: Residuals<'a>,
    start: usize,
    target: usize,
}

impl<'a> Lines for Cells<'a> {
    ghost places = { λ its. length its.of.station.now.sets };

    ghost line = { λ its set. spec.column_text its.start set
        (spec.cell_text its.of.station.now its.of.rows.now its.target set) };

    fn count(&self) -> usize {
        self.of.station.sets().len()
    }

    fn add(&self, text: &mut Vec<u8>, field: &mut Vec<u8>, place: usize) -> Result<(), AllocError> {
        if self.start <= place && place - self.start < GROUP {
            field.clear();
            push_residual(field, self.of.station, self.of.rows, self.target, place)?;
            return push_right(text, WIDTH, field);
        }
        Ok(())
    }
}

/// The residuals of all targets in seven sets from one on.
#[derive(Drop)]
struct Group<'a> {
    of: Residuals<'a>,
    start: usize,
}

impl<'a> Lines for Group<'a> {
    ghost places = { λ its. length its.of.station.now.targets };

    ghost line = { λ its. spec.residuals_line its.of.station.now its.of.rows.now its.start };

    fn count(&self) -> usize {
        self.of.station.targets().len()
    }

    fn add(&self, text: &mut Vec<u8>, field: &mut Vec<u8>, place: usize) -> Result<(), AllocError> {
        let cells = Cells {
            of: self.of,
            start: self.start,
            target: place,
        };
        text.extend_from_slice(b"  ")?;
        push_left(text, LONGEST_NAME, name_of(self.of.station, place).bytes())?;
        push_lines(text, field, &cells)?;
        text.push(b'\n')?;
        Ok(())
    }
}

/// Adds the residuals of seven sets from one on.
fn push_group(
    text: &mut Vec<u8>,
    field: &mut Vec<u8>,
    language: Language,
    of: Residuals<'_>,
    start: usize,
) -> Result<(), AllocError>
    ensures { OnOk result (text.new.items
        ≡ text.old.items
        ++ spec.group_text language of.entry.station.now of.entry.rows.now start) }
{
    push_numbers(text, field, language, of.station, start)?;
    push_lines(text, field, &Group { of, start })?;
    Ok(())
}

/// The residuals of all sets, seven after the other.
#[derive(Drop)]
struct Groups<'a> {
    language: Language,
    of: Residuals<'a>,
}

impl<'a> Lines for Groups<'a> {
    ghost places = { λ its. length its.of.station.now.sets };

    ghost line = { λ its. spec.group_at its.language its.of.station.now its.of.rows.now };

    fn count(&self) -> usize {
        self.of.station.sets().len()
    }

    fn add(&self, text: &mut Vec<u8>, field: &mut Vec<u8>, place: usize) -> Result<(), AllocError> {
        if place % GROUP == 0 {
            return push_group(text, field, self.language, self.of, place);
        }
        Ok(())
    }
}

/// Adds the residuals.
pub(crate) fn push_residuals(
    alloc: Global,
    text: &mut Vec<u8>,
    language: Language,
    station: &Station,
    rows: &[AdjustedObs],
) -> Result<(), AllocError>
    requires { length rows.now ≡ length station.now.obs }
    ensures { OnOk result
        (text.new.items ≡ text.old.items ++ spec.residuals_text language station.now rows.now) }
{
    let mut field = Vec::new(alloc);
    push_phrase(text, language, Phrase::Residuals)?;
    let groups = Groups {
        language,
        of: Residuals { station, rows },
    };
    push_lines(text, &mut field, &groups)?;
    Ok(())
}
