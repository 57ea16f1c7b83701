//! The directions that a station lacks: how many, and of which target in which set.
ghost use Rattle.std.specs.Prelude.{◌≡◌, ◌<◌, ◌++◌, OnOk, length};
ghost use Rattle.station_report.specs.GapTexts as spec;
ghost use Rattle.station_report.specs.ReportTexts.{gaps_text};

use crate::columns::{push_count, push_left};
use crate::head::push_counted;
use crate::labels::{ENTRY_NAMES, push_phrase};
use crate::lines::{Lines, push_lines};
use crate::place_of::place_of;
use crate::places::{name_of, number_of};
use adjust_kernel::Station;
use report_phrases::{Language, Phrase};
use std::alloc::{AllocError, Global};

/// What stands before the name of a target.
const INDENT: &[u8] = b"  ";

/// How many directions a station lacks.
fn gaps_of(station: &Station) -> usize
    ensures { result ≡ spec.gaps_of station.now }
{
    let most = station.sets().len() * station.targets().len();
    most.saturating_sub(station.obs().len())
}

/// Adds the number of a set, after a blank, where it lacks a target.
fn push_lacking(
    text: &mut Vec<u8>,
    station: &Station,
    target: usize,
    set: usize,
) -> Result<(), AllocError>
    requires { set < length station.now.sets }
    ensures { OnOk result
        (text.new.items ≡ text.old.items ++ spec.lacking_number station.now target set) }
{
    match place_of(station, set, target) {
        Some(_) => Ok(()),
        None => {
            text.push(b' ')?;
            push_count(text, usize::from(number_of(station, set)))?;
            Ok(())
        }
    }
}

/// Adds the numbers of all sets that lack a target.
fn push_lacking_sets(text: &mut Vec<u8>, station: &Station, target: usize) -> Result<(), AllocError>
    ensures { OnOk result
        (text.new.items ≡ text.old.items ++ spec.lacking_sets station.now target) }
{
    for set in 0..station.sets().len() {
        push_lacking(text, station, target, set)?;
    }
    Ok(())
}

/// Adds the line of a target and of the sets that lack it, where some do.
fn push_gap_line(
    text: &mut Vec<u8>,
    language: Language,
    name: &[u8],
    sets: &[u8],
) -> Result<(), AllocError>
    ensures { OnOk result
        (text.new.items ≡ text.old.items ++ spec.gap_line language name.now sets.now) }
{
    if sets.is_empty() {
        return Ok(());
    }
    text.extend_from_slice(INDENT)?;
    push_left(text, ENTRY_NAMES - INDENT.len(), name)?;
    push_phrase(text, language, Phrase::InSet)?;
    text.extend_from_slice(sets)?;
    text.push(b'\n')?;
    Ok(())
}

/// The targets of a station that some of its sets lack, and these sets.
#[derive(Drop)]
struct Gaps<'a> {
    language: Language,
    station: &'a Station,
}

impl<'a> Lines for Gaps<'a> {
    ghost places = { λ its. length its.station.now.targets };

    ghost line = { λ its. spec.gaps_at its.language its.station.now };

    fn count(&self) -> usize {
        self.station.targets().len()
    }

    fn add(&self, text: &mut Vec<u8>, field: &mut Vec<u8>, place: usize) -> Result<(), AllocError> {
        field.clear();
        push_lacking_sets(field, self.station, place)?;
        let name = name_of(self.station, place);
        push_gap_line(text, self.language, name.bytes(), field)
    }
}

/// Adds how many directions a station lacks, and of which target in which set.
pub(crate) fn push_gaps(
    alloc: Global,
    text: &mut Vec<u8>,
    language: Language,
    station: &Station,
) -> Result<(), AllocError>
    ensures { OnOk result (text.new.items ≡ text.old.items ++ gaps_text language station.now) }
{
    let mut field = Vec::new(alloc);
    push_counted(text, language, Phrase::MissingDirections, gaps_of(station))?;
    push_lines(text, &mut field, &Gaps { language, station })?;
    Ok(())
}
