//! Lines that are of no one station.

ghost use Rattle.std.specs.Prelude.{◌≡◌, ◌≤◌, ◌<◌, ◌^◌, length};
ghost use Rattle.station_tables.specs.Lines.{of_lines};
ghost use Rattle.station_tables.specs.Strays as spec;

use crate::line::has_text;
use crate::said::said_of;
use station_book::Stations;

/// Of how many of these stations a line is: a line that begins with the name of one may begin with
/// that of another, as `S` and `S,T`.
fn of_how_many(stations: &Stations, line: &[u8]) -> usize
    ensures { result ≡ spec.of_how_many stations.now line.now }
{
    let mut count = 0;
    'stations: for place in 0..stations.len() {
        if let Some(surveyed) = stations.at(place) {
            if said_of(surveyed.station().name(), line).is_some() {
                count += 1;
            }
        }
    }
    count
}

/// Whether something stands in a line, and it is of none of these stations, or of more than one.
fn is_stray(stations: &Stations, line: &[u8]) -> bool
    ensures { result ≡ spec.is_stray stations.now line.now }
{
    has_text(line) && of_how_many(stations, line) != 1
}

/// Whether a digit stands in a line.
fn has_digit(line: &[u8]) -> bool
    ensures { result ≡ spec.has_digit line.now }
{
    line.iter().any(|byte| byte.is_ascii_digit())
}

/// How many lines of titles a table begins with: none or one.
fn title_lines(lines: &[&[u8]]) -> usize
    ensures count { result ≡ spec.title_lines (of_lines lines.now) }
    ensures short { result ≤ length lines.now }
{
    match lines {
        [] => 0,
        [line, ..] => { if has_digit(line) { 0 } else { 1 } }
    }
}

/// The number, from 1, of the first line but one of titles that is a stray: something stands in it,
/// and it is of none of these stations, or of more than one.
pub fn first_stray(stations: &Stations, lines: &[&[u8]]) -> Option<u32>
    requires { length lines.now < 2 ^ 32 }
    ensures { result ≡ spec.first_stray stations.now (of_lines lines.now) }
{
    'lines: for place in title_lines(lines)..lines.len() {
        if is_stray(stations, lines[place]) {
            return Some(place as u32 + 1);
        }
    }
    None
}
