//! The lines of a list, put into a page's room.

ghost use Rattle.std.specs.Prelude.{◌≡◌, ◌<◌, ◌≤◌, ◌+◌, ◌++◌, ◌∷◌, [], length, take, decimal};
ghost use Rattle.std.specs.Prelude.{codes};
ghost use Rattle.std.specs.Fmt.{signed_decimal};
ghost use Rattle.adjust_kernel.specs.Matching.{key_of_obs};
ghost use Rattle.adjust_kernel.specs.declared.bounds.TheConstants.{LONGEST_NAME};
ghost use Rattle.station_check.specs.ListTexts.{station_line, key_text, faces_text};
ghost use Rattle.station_check.specs.ListTexts.{observation_line};

use crate::page::PAGE;
use crate::put::{Room, put, put_digits, put_number, put_signed, put_start};
use crate::verdict_line::{LONGEST_U32, LONGEST_U64};
use adjust_kernel::{LONGEST_NAME, Name, Obs, Station};
use station_book::Faces;

/// Bytes of three counts, with the words around them.
const COUNTS: usize = 31 + 3 * LONGEST_U64;

/// Bytes of what was observed: a set, a target and a direction, with the words around them.
const KEY: usize = 17 + LONGEST_NAME + 2 * LONGEST_U32;

/// Bytes of two face differences, each with its sign, and of the words around them.
const FACES: usize = 11 + 2 * (1 + LONGEST_U32);

/// Bytes that no line of a list passes. The longest is that of a station: a word and a blank, its
/// name, and its counts.
pub const LONGEST_LIST_LINE: usize = 8 + LONGEST_NAME + COUNTS;

/// Puts the line of a station: its name, and how many sets, targets and directions it has.
#[tactic(auto, unfolding(crate::specs::ListTexts::station_line))]
pub(crate) fn put_station(room: &mut Room, at: usize, station: &Station) -> usize
    requires { at + LONGEST_LIST_LINE ≤ PAGE }
    ensures bound { result ≤ PAGE }
    ensures whole { length room.new ≡ PAGE }
    ensures text { take result room.new ≡ take at room.old ++ station_line station.now }
{
    let name_at = put(room, at, b"station ");
    let counts_at = put_name(room, name_at, &station.name());
    put_counts(room, counts_at, station)
}

/// Puts a name.
#[inline(always)]
fn put_name(room: &mut Room, at: usize, name: &Name) -> usize
    requires { at + LONGEST_NAME ≤ PAGE }
    ensures next { result ≤ at + LONGEST_NAME }
    ensures text { take result room.new ≡ take at room.old ++ name.now }
{
    let (bytes, len) = name.padded();
    put_start(room, at, bytes, len)
}

/// Puts how many sets, targets and directions a station has, and ends the line.
fn put_counts(room: &mut Room, at: usize, station: &Station) -> usize
    requires { at + COUNTS ≤ PAGE }
    ensures bound { result ≤ PAGE }
    ensures text { take result room.new ≡ take at room.old
        ++ (codes ": " ++ decimal (length station.now.sets)
        ++ codes " sets, " ++ decimal (length station.now.targets)
        ++ codes " targets, " ++ decimal (length station.now.obs) ++ codes " directions\n") }
{
    let sets_at = put(room, at, b": ");
    let sets_end = put_number(room, sets_at, station.sets().len());
    let targets_at = put(room, sets_end, b" sets, ");
    let targets_end = put_number(room, targets_at, station.targets().len());
    let obs_at = put(room, targets_end, b" targets, ");
    let obs_end = put_number(room, obs_at, station.obs().len());
    put(room, obs_end, b" directions\n")
}

/// Puts the line of an observation.
#[inline(always)]
#[tactic(auto, unfolding(crate::specs::ListTexts::observation_line))]
pub(crate) fn put_observation(
    room: &mut Room,
    at: usize,
    station: &Station,
    obs: Obs,
    faces: Faces,
) -> usize
    requires room { at + LONGEST_LIST_LINE ≤ PAGE }
    requires set_in { obs.set < length station.now.sets }
    requires target_in { obs.target < length station.now.targets }
    ensures bound { result ≤ PAGE }
    ensures whole { length room.new ≡ PAGE }
    ensures text { take result room.new ≡ take at room.old
        ++ observation_line (key_of_obs station.now.sets station.now.targets obs) faces }
{
    let faces_at = put_key(room, at, station, obs);
    put_faces(room, faces_at, faces)
}

/// Puts what was observed: the set, the target and the direction.
fn put_key(room: &mut Room, at: usize, station: &Station, obs: Obs) -> usize
    requires room { at + KEY ≤ PAGE }
    requires set_in { obs.set < length station.now.sets }
    requires target_in { obs.target < length station.now.targets }
    ensures next { result ≤ at + KEY }
    ensures text { take result room.new ≡ take at room.old
        ++ key_text (key_of_obs station.now.sets station.now.targets obs) }
{
    let set_at = put(room, at, b"set ");
    let set_end = put_digits(room, set_at, u32::from(station.sets()[obs.set as usize]));
    let target_at = put(room, set_end, b", target ");
    let target_end = put_name(room, target_at, &station.targets()[obs.target as usize]);
    let value_at = put(room, target_end, b": p ");
    put_digits(room, value_at, obs.value)
}

/// Puts face differences, and ends the line.
fn put_faces(room: &mut Room, at: usize, faces: Faces) -> usize
    requires { at + FACES ≤ PAGE }
    ensures bound { result ≤ PAGE }
    ensures text { take result room.new ≡ take at room.old ++ faces_text faces }
{
    let two_c_at = put(room, at, b", 2c ");
    let two_c_end = put_signed(room, two_c_at, faces.two_c);
    let two_i_at = put(room, two_c_end, b", 2i ");
    let two_i_end = put_signed(room, two_i_at, faces.two_i);
    put(room, two_i_end, b"\n")
}
