//! What is told of the stations of a field file.

ghost use Rattle.std.specs.Prelude.{◌≡◌, ◌++◌, [], IfOk, OnOk, codes, decimal, drop, option_map};
ghost use Rattle.station_mark.specs.Notes.{again_line, are_missing, counted, ends_text, fault_text};
ghost use Rattle.station_mark.specs.Notes.{faultless_text, flaw_text, has_readings, is_named_again};
ghost use Rattle.station_mark.specs.Notes.{left_outside_text, line_head, line_of_some, missing_text};
ghost use Rattle.station_mark.specs.Notes.{names_after, next_lines, opened_again_line};
ghost use Rattle.station_mark.specs.Notes.{opened_again_text, others_text, outside_text, pair_lines};
ghost use Rattle.station_mark.specs.Notes.{pair_text, read_lines, recognized_text, remarks_lines};
ghost use Rattle.station_mark.specs.Notes.{sets_text, station_lines, stations_text};
ghost use Rattle.station_mark.specs.Notes.{unrecognized_text, whole_mgon, with_sets_text};
ghost use Rattle.station_mark.specs.Notes.{without_sets_text, written_again_text, zenith_lines};
ghost use Rattle.station_mark.specs.Notes.{zeniths_text};
ghost use Rattle.station_mark.specs.Notes as spec;

use crate::leading::leads_on;
use adjust_kernel::Name;
use itoa::Buffer;
use set_marks::{Flaw, Names, Recognized, Remarks, SetPair, ZenithRange};
use std::alloc::{AllocError, Global};

/// The last line of the notes.
const LAST_LINE: &[u8] = b"note: compare this with the field book\n";

/// Bytes of the line of a station, about: room for so many is made for each, so that the text is
/// seldom moved.
const USUAL_LINE: usize = 112;

/// Units of 0.00001 gon in a mgon.
const UNITS_IN_MGON: usize = 100;

/// The notes of a marked file: lines for each station, and that they are to be compared with the
/// field book.
pub fn notes_text(alloc: Global, stations: &[Recognized]) -> Result<Vec<u8>, AllocError>
    ensures { IfOk result (λ text. text.items ≡ spec.notes_text stations.now) }
{
    let room = stations.len().saturating_mul(USUAL_LINE);
    let mut text = Vec::with_capacity(alloc, room)?;
    add_stations(alloc, &mut text, stations)?;
    text.extend_from_slice(LAST_LINE)?;
    Ok(text)
}

/// Adds the lines of stations.
pub(crate) fn add_stations(
    alloc: Global,
    text: &mut Vec<u8>,
    stations: &[Recognized],
) -> Result<(), AllocError>
    ensures { OnOk result
        (text.new.items ≡ text.old.items ++ stations_text [] stations.now) }
{
    let mut names = Names::with_room(alloc, stations.len())?;
    let mut left = stations;
    'stations: while let Some((station, later)) = left.split_first() {
        let again = told_again(&mut names, station, later)?;
        add_next(text, again, station)?;
        left = later;
    }
    Ok(())
}

/// How a station before these others is told, after stations with readings that have these names:
/// whether it is set up again; a set-up line without readings not at all, where the next one has the
/// same name. The name of a station with readings is then among them.
pub(crate) fn told_again(
    names: &mut Names,
    station: &Recognized,
    later: &[Recognized],
) -> Result<Option<bool>, AllocError>
    ensures again { IfOk result
        (λ again. again ≡ spec.told_again names.old station.now later.now) }
    ensures names { OnOk result (names.new ≡ names_after names.old station.now) }
{
    if has_readings(station) {
        let again = names.add(&station.name)?;
        return Ok(Some(again));
    }
    if is_named_again(&station.name, later) {
        return Ok(None);
    }
    Ok(Some(false))
}

/// Adds the lines of a station that is told so.
fn add_next(text: &mut Vec<u8>, again: Option<bool>, station: &Recognized) -> Result<(), AllocError>
    ensures { OnOk result (text.new.items ≡ text.old.items ++ next_lines again station.now) }
{
    add_read(text, again, station)?;
    add_written_again(text, &station.name, station.written_again)?;
    Ok(())
}

/// Adds what a station is told by its readings.
fn add_read(text: &mut Vec<u8>, again: Option<bool>, station: &Recognized) -> Result<(), AllocError>
    ensures { OnOk result (text.new.items ≡ text.old.items ++ read_lines again station.now) }
{
    match again {
        Some(again) if has_readings(station) => add_station(text, again, station),
        Some(_) => add_line(text, &station.name, b"no readings"),
        None => Ok(()),
    }
}

/// Adds the line of a station whose set-up line was written again so often, where it was.
fn add_written_again(text: &mut Vec<u8>, name: &Name, count: usize) -> Result<(), AllocError>
    ensures { OnOk result (text.new.items
        ≡ text.old.items ++ line_of_some count name.now (written_again_text count)) }
{
    if count == 0 {
        return Ok(());
    }
    add_head(text, name)?;
    add_times(text, count)?;
    text.extend_from_slice(b"\n")?;
    Ok(())
}

/// Adds how often a set-up line was written again.
fn add_times(text: &mut Vec<u8>, count: usize) -> Result<(), AllocError>
    ensures { OnOk result (text.new.items ≡ text.old.items ++ written_again_text count) }
{
    text.extend_from_slice(b"set-up line written again ")?;
    add_counted(text, count, b" time", b" times")?;
    text.extend_from_slice(b", taken as the same set-up")?;
    Ok(())
}

/// Whether readings follow the set-up line of a station.
fn has_readings(station: &Recognized) -> bool
    ensures { result ≡ has_readings station.now }
{
    !(station.sets == 0 && station.before == 0)
}

/// Adds the lines of a station with readings.
fn add_station(text: &mut Vec<u8>, again: bool, station: &Recognized) -> Result<(), AllocError>
    ensures { OnOk result
        (text.new.items ≡ text.old.items ++ station_lines again station.now) }
{
    add_again(text, again, &station.name)?;
    add_recognized(text, station)?;
    add_remarks(text, &station.name, station.remarks.as_ref())?;
    Ok(())
}

/// Adds the line of a station that is set up again, where it is.
fn add_again(text: &mut Vec<u8>, again: bool, name: &Name) -> Result<(), AllocError>
    ensures { OnOk result (text.new.items ≡ text.old.items ++ again_line again name.now) }
{
    if again {
        add_line(text, name, b"set up again")?;
    }
    Ok(())
}

/// Whether the next set-up line has the same name.
fn is_named_again(name: &Name, later: &[Recognized]) -> bool
    ensures { result ≡ is_named_again name.now later.now }
{
    match later.first() {
        Some(next) => next.name.is_same(name),
        None => false,
    }
}

/// Adds the line that tells this of a station.
fn add_line(text: &mut Vec<u8>, name: &Name, told: &[u8]) -> Result<(), AllocError>
    ensures { OnOk result (text.new.items ≡ text.old.items ++ spec.note_line name.now told.now) }
{
    add_head(text, name)?;
    text.extend_from_slice(told)?;
    text.extend_from_slice(b"\n")?;
    Ok(())
}

/// Adds what the line of a station begins with.
fn add_head(text: &mut Vec<u8>, name: &Name) -> Result<(), AllocError>
    ensures { OnOk result (text.new.items ≡ text.old.items ++ line_head name.now) }
{
    text.extend_from_slice(b"note: station ")?;
    text.extend_from_slice(name.bytes())?;
    text.extend_from_slice(b": ")?;
    Ok(())
}

/// Adds the line of what is recognized of a station with readings.
fn add_recognized(text: &mut Vec<u8>, station: &Recognized) -> Result<(), AllocError>
    ensures { OnOk result (text.new.items
        ≡ text.old.items ++ spec.note_line station.now.name (recognized_text station.now)) }
{
    add_head(text, &station.name)?;
    add_told(text, station)?;
    text.extend_from_slice(b"\n")?;
    Ok(())
}

/// Adds what is told of a station with readings, which may have a fault.
fn add_told(text: &mut Vec<u8>, station: &Recognized) -> Result<(), AllocError>
    ensures { OnOk result (text.new.items ≡ text.old.items ++ recognized_text station.now) }
{
    match station.fault {
        Some(flaw) => add_fault(text, flaw, station.before),
        None => add_faultless(text, station),
    }
}

/// Adds what is told of a station with a fault, and so many readings.
fn add_fault(text: &mut Vec<u8>, flaw: Flaw, readings: usize) -> Result<(), AllocError>
    ensures { OnOk result (text.new.items ≡ text.old.items ++ fault_text flaw readings) }
{
    add_unrecognized(text, flaw, readings)?;
    text.extend_from_slice(b": ")?;
    text.extend_from_slice(leads_on(flaw.kind).as_bytes())?;
    Ok(())
}

/// Adds a fault of a station, and how many readings the station has.
fn add_unrecognized(text: &mut Vec<u8>, flaw: Flaw, readings: usize) -> Result<(), AllocError>
    ensures { OnOk result (text.new.items ≡ text.old.items ++ unrecognized_text flaw readings) }
{
    text.extend_from_slice(b"not recognized, ")?;
    add_flaw(text, flaw)?;
    text.extend_from_slice(b"; ")?;
    add_left_outside(text, readings)?;
    Ok(())
}

/// Adds a fault, and where it stands.
#[tactic(auto, unfolding(crate::specs::Notes::flaw_text))]
fn add_flaw(text: &mut Vec<u8>, flaw: Flaw) -> Result<(), AllocError>
    ensures { OnOk result (text.new.items ≡ text.old.items ++ flaw_text flaw) }
{
    text.extend_from_slice(b"block ")?;
    add_count(text, flaw.block as usize)?;
    text.extend_from_slice(b": ")?;
    text.extend_from_slice(flaw.kind.name().as_bytes())?;
    Ok(())
}

/// Adds what is told of a station with readings, and without a fault.
fn add_faultless(text: &mut Vec<u8>, station: &Recognized) -> Result<(), AllocError>
    ensures { OnOk result (text.new.items ≡ text.old.items ++ faultless_text station.now) }
{
    if station.sets == 0 {
        add_without_sets(text, station.before)
    } else {
        add_with_sets(text, station)
    }
}

/// Adds what is told of a station without sets.
fn add_without_sets(text: &mut Vec<u8>, readings: usize) -> Result<(), AllocError>
    ensures { OnOk result (text.new.items ≡ text.old.items ++ without_sets_text readings) }
{
    text.extend_from_slice(b"no sets; ")?;
    add_left_outside(text, readings)?;
    Ok(())
}

/// Adds that so many readings are in no set of the copy.
fn add_left_outside(text: &mut Vec<u8>, readings: usize) -> Result<(), AllocError>
    ensures { OnOk result (text.new.items ≡ text.old.items ++ left_outside_text readings) }
{
    add_counted(text, readings, b" reading", b" readings")?;
    text.extend_from_slice(if readings == 1 {
        b" stays outside"
    } else {
        b" stay outside"
    })?;
    Ok(())
}

/// Adds what is told of a station with sets.
fn add_with_sets(text: &mut Vec<u8>, station: &Recognized) -> Result<(), AllocError>
    ensures { OnOk result (text.new.items ≡ text.old.items ++ with_sets_text station.now) }
{
    add_sets(text, station)?;
    add_ends(text, station.remarks.as_ref())?;
    add_outside(text, station)?;
    Ok(())
}

/// Adds how many sets there are, and of how many targets.
fn add_sets(text: &mut Vec<u8>, station: &Recognized) -> Result<(), AllocError>
    ensures { OnOk result (text.new.items ≡ text.old.items ++ sets_text station.now) }
{
    add_counted(text, station.sets, b" set", b" sets")?;
    text.extend_from_slice(b", ")?;
    add_counted(text, station.targets, b" target", b" targets")?;
    Ok(())
}

/// Adds the readings in none of the sets.
fn add_outside(text: &mut Vec<u8>, station: &Recognized) -> Result<(), AllocError>
    ensures { OnOk result (text.new.items ≡ text.old.items ++ outside_text station.now) }
{
    text.extend_from_slice(b"; ")?;
    add_counted(text, station.before, b" reading", b" readings")?;
    text.extend_from_slice(b" before them and ")?;
    add_count(text, station.after)?;
    text.extend_from_slice(b" after stay outside")?;
    Ok(())
}

/// Adds the target that opens the sets, and the one at which the first set turns.
fn add_ends(text: &mut Vec<u8>, remarks: Option<&Remarks>) -> Result<(), AllocError>
    ensures { OnOk result (text.new.items
        ≡ text.old.items ++ ends_text (option_map (λ m. m.now) remarks.entry)) }
{
    if let Some(remarks) = remarks {
        text.extend_from_slice(b", from ")?;
        text.extend_from_slice(remarks.opening.bytes())?;
        text.extend_from_slice(b" to ")?;
        text.extend_from_slice(remarks.turning.bytes())?;
    }
    Ok(())
}

/// Adds the lines of what is told of a station's sets beyond their numbers.
fn add_remarks(text: &mut Vec<u8>, name: &Name, remarks: Option<&Remarks>) -> Result<(), AllocError>
    ensures { OnOk result (text.new.items
        ≡ text.old.items ++ remarks_lines name.now (option_map (λ m. m.now) remarks.entry)) }
{
    if let Some(remarks) = remarks {
        add_missing(text, name, remarks)?;
        add_others(text, name, remarks)?;
        add_opened_again(text, name, remarks)?;
        add_pairs(text, name, remarks.equal_sets.pairs())?;
        add_zeniths(text, name, remarks.zeniths.ranges())?;
    }
    Ok(())
}

/// Adds the line of the directions that are missing, where any are.
fn add_missing(text: &mut Vec<u8>, name: &Name, remarks: &Remarks) -> Result<(), AllocError>
    ensures { OnOk result (text.new.items ≡ text.old.items
        ++ line_of_some remarks.now.missing name.now (missing_text remarks.now)) }
{
    if remarks.missing == 0 {
        return Ok(());
    }
    add_head(text, name)?;
    add_missing_count(text, remarks)?;
    text.extend_from_slice(b"\n")?;
    Ok(())
}

/// Adds how many directions are missing, of how many.
fn add_missing_count(text: &mut Vec<u8>, remarks: &Remarks) -> Result<(), AllocError>
    ensures { OnOk result (text.new.items ≡ text.old.items ++ missing_text remarks.now) }
{
    add_count(text, remarks.missing)?;
    text.extend_from_slice(b" of ")?;
    add_counted(text, remarks.directions, b" direction", b" directions")?;
    add_are_missing(text, remarks.missing)?;
    Ok(())
}

/// Adds that so many are missing.
fn add_are_missing(text: &mut Vec<u8>, count: usize) -> Result<(), AllocError>
    ensures { OnOk result (text.new.items ≡ text.old.items ++ are_missing count) }
{
    if count == 1 {
        text.extend_from_slice(b" is missing")?;
    } else {
        text.extend_from_slice(b" are missing")?;
    }
    Ok(())
}

/// Adds the line of the targets after the sets in both faces, where there are any.
fn add_others(text: &mut Vec<u8>, name: &Name, remarks: &Remarks) -> Result<(), AllocError>
    ensures { OnOk result (text.new.items ≡ text.old.items
        ++ line_of_some remarks.now.others name.now (others_text remarks.now)) }
{
    if remarks.others == 0 {
        return Ok(());
    }
    add_head(text, name)?;
    add_counted(text, remarks.others, b" target", b" targets")?;
    text.extend_from_slice(b" after the sets in both faces: of another station?\n")?;
    Ok(())
}

/// Adds the line of a reading of the opening target after sets that are read by targets, where there
/// is one.
fn add_opened_again(text: &mut Vec<u8>, name: &Name, remarks: &Remarks) -> Result<(), AllocError>
    ensures { OnOk result (text.new.items
        ≡ text.old.items ++ opened_again_line name.now remarks.now) }
{
    if !remarks.opened_again {
        return Ok(());
    }
    add_head(text, name)?;
    add_opening(text, &remarks.opening)?;
    text.extend_from_slice(b"\n")?;
    Ok(())
}

/// Adds that the target that opens the sets is read after them.
fn add_opening(text: &mut Vec<u8>, opening: &Name) -> Result<(), AllocError>
    ensures { OnOk result (text.new.items ≡ text.old.items ++ opened_again_text opening.now) }
{
    text.extend_from_slice(opening.bytes())?;
    text.extend_from_slice(b" is read again after the sets: is a reading of theirs missing?")?;
    Ok(())
}

/// Adds the lines of sets that are equal.
fn add_pairs(text: &mut Vec<u8>, name: &Name, pairs: &[SetPair]) -> Result<(), AllocError>
    ensures { OnOk result (text.new.items ≡ text.old.items ++ pair_lines name.now pairs.now) }
{
    for pair in pairs {
        add_pair_line(text, name, pair)?;
    }
    Ok(())
}

/// Adds the line of two sets that are equal.
fn add_pair_line(text: &mut Vec<u8>, name: &Name, pair: &SetPair) -> Result<(), AllocError>
    ensures { OnOk result
        (text.new.items ≡ text.old.items ++ spec.note_line name.now (pair_text pair.now)) }
{
    add_head(text, name)?;
    add_pair(text, pair)?;
    text.extend_from_slice(b"\n")?;
    Ok(())
}

/// Adds that two sets are equal.
fn add_pair(text: &mut Vec<u8>, pair: &SetPair) -> Result<(), AllocError>
    ensures { OnOk result (text.new.items ≡ text.old.items ++ pair_text pair.now) }
{
    text.extend_from_slice(b"sets ")?;
    add_count(text, pair.earlier)?;
    text.extend_from_slice(b" and ")?;
    add_count(text, pair.later)?;
    text.extend_from_slice(b" are the same to the last digit")?;
    Ok(())
}

/// Adds the lines of targets whose zenith angles differ.
fn add_zeniths(text: &mut Vec<u8>, name: &Name, ranges: &[ZenithRange]) -> Result<(), AllocError>
    ensures { OnOk result (text.new.items ≡ text.old.items ++ zenith_lines name.now ranges.now) }
{
    let mut left = ranges;
    'targets: while let Some((range, rest)) = left.split_first() {
        add_head(text, name)?;
        add_spread(text, range)?;
        text.extend_from_slice(b"\n")?;
        left = rest;
    }
    Ok(())
}

/// Adds how far apart the zenith angles of a target are.
fn add_spread(text: &mut Vec<u8>, range: &ZenithRange) -> Result<(), AllocError>
    ensures { OnOk result (text.new.items ≡ text.old.items ++ zeniths_text range.now) }
{
    text.extend_from_slice(b"the zenith angles of ")?;
    text.extend_from_slice(range.target.bytes())?;
    text.extend_from_slice(b" differ by ")?;
    add_count(text, whole_mgon(range.spread()))?;
    text.extend_from_slice(b" mgon")?;
    Ok(())
}

/// Units of 0.00001 gon in whole mgon: the nearest number, and of two as near the greater one.
pub(crate) fn whole_mgon(units: u32) -> usize
    ensures { result ≡ whole_mgon units }
{
    (units as usize + UNITS_IN_MGON / 2) / UNITS_IN_MGON
}

/// Adds so many of a thing: after a blank, what one of it is called, or more of it.
fn add_counted(text: &mut Vec<u8>, count: usize, one: &[u8], more: &[u8]) -> Result<(), AllocError>
    requires blank { one.now ≡ codes " " ++ drop 1 one.now }
    requires plural { more.now ≡ one.now ++ codes "s" }
    ensures { OnOk result
        (text.new.items ≡ text.old.items ++ counted count (drop 1 one.now)) }
{
    add_count(text, count)?;
    text.extend_from_slice(if count == 1 { one } else { more })?;
    Ok(())
}

/// Adds a number.
fn add_count(text: &mut Vec<u8>, count: usize) -> Result<(), AllocError>
    ensures { OnOk result (text.new.items ≡ text.old.items ++ decimal count) }
{
    let mut digits = Buffer::new();
    text.extend_from_slice(digits.format(count).as_bytes())?;
    Ok(())
}
