//! What is told of a name that no station of a field file has.

ghost use Rattle.std.specs.Prelude.{◌≡◌, ◌≤◌, ◌+◌, ◌++◌, [], length, slice_get};
ghost use Rattle.arrayvec.specs.ArrayVec.{array_vec_len};
ghost use Rattle.station_compare.specs.HintTexts as spec;
ghost use Rattle.station_compare.specs.NameLists.{name_after, separator};

use crate::hint::Hint;
use itoa::Buffer;
use station_book::Stations;
use station_check::{LONGEST_U64, LONGEST_VERDICT_LINE, VerdictLine, add, unchecked_line};

/// How many stations are named at most, so that a line of them stays short.
pub(crate) const MOST_NAMED: usize = 8;

/// Bytes of the name of a station and of what stands before it, at most.
const LONGEST_NAMED: usize = 2 + 16;

/// Bytes of the names of stations, at most.
const LONGEST_NAMES: usize = MOST_NAMED * LONGEST_NAMED;

/// Bytes of how many other stations there are, at most.
const LONGEST_OTHERS: usize = 5 + LONGEST_U64 + 7;

/// What is told of a name that none of these stations has: their names; of no stations the note of
/// so many unchecked readings.
pub fn stations_hint(stations: &Stations, unchecked: u32) -> Hint
    ensures { result ≡ spec.stations_hint stations.now unchecked }
{
    if stations.len() == 0 {
        return unchecked_hint(unchecked);
    }
    let mut line = VerdictLine::new();
    add(&mut line, b"the file has ");
    add_names(&mut line, stations);
    add_others(&mut line, stations.len().saturating_sub(MOST_NAMED));
    add(&mut line, b"\n");
    Hint::of_line(line)
}

/// The note that a list without stations has of so many unchecked readings, where there are some.
fn unchecked_hint(unchecked: u32) -> Hint
    ensures { result ≡ spec.stations_hint [] unchecked }
{
    if unchecked == 0 {
        return Hint::none();
    }
    Hint::of_line(unchecked_line(unchecked))
}

/// Adds the names of the first stations.
fn add_names(line: &mut VerdictLine, stations: &Stations)
    requires { array_vec_len line.old + LONGEST_NAMES ≤ LONGEST_VERDICT_LINE }
    ensures items { line.new.items ≡ line.old.items ++ spec.names_before MOST_NAMED stations.now }
    ensures len { array_vec_len line.new ≤ array_vec_len line.old + LONGEST_NAMES }
{
    'stations: for place in 0..MOST_NAMED {
        add_name(line, stations, place);
    }
}

/// Adds the name of the station at a place, where there is one, after what parts it from the name
/// before.
fn add_name(line: &mut VerdictLine, stations: &Stations, place: usize)
    requires { array_vec_len line.old + LONGEST_NAMED ≤ LONGEST_VERDICT_LINE }
    ensures items { line.new.items ≡ line.old.items
        ++ name_after place (slice_get stations.now place) }
    ensures len { array_vec_len line.new ≤ array_vec_len line.old + LONGEST_NAMED }
{
    if let Some(surveyed) = stations.at(place) {
        add(line, separator(place));
        add(line, surveyed.station().name().bytes());
    }
}

/// What parts the name at a place from the one before.
fn separator(place: usize) -> &'static [u8]
    ensures text { result.now ≡ separator place }
    ensures short { length result.now ≤ 2 }
{
    if place == 0 { b"" } else { b", " }
}

/// Adds how many other stations there are.
fn add_others(line: &mut VerdictLine, count: usize)
    requires { array_vec_len line.old + LONGEST_OTHERS ≤ LONGEST_VERDICT_LINE }
    ensures items { line.new.items ≡ line.old.items ++ spec.others_text count }
    ensures len { array_vec_len line.new ≤ array_vec_len line.old + LONGEST_OTHERS }
{
    if count == 0 {
        return;
    }
    let mut digits = Buffer::new();
    add(line, b" and ");
    add(line, digits.format(count).as_bytes());
    add(line, if count == 1 { b" other" } else { b" others" });
}
