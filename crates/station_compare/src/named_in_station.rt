//! What a fault of a table or of an adjustment names of its station.

ghost use Rattle.std.specs.Prelude.{◌≡◌, ◌≤◌, ◌+◌, ◌-◌, ◌++◌, [], length, slice_get};
ghost use Rattle.std.specs.Prelude.{Some, slice_index_or};
ghost use Rattle.adjust_kernel.specs.declared.bounds.TheConstants.{LONGEST_NAME};
ghost use Rattle.arrayvec.specs.ArrayVec.{array_vec_len};
ghost use Rattle.station_compare.specs.HintTexts as spec;

use crate::fault::CompareFault;
use crate::hint::Hint;
use crate::how_far::add_thousandths;
use adjust_kernel::{Obs, ResidualLimit, Station};
use direction_table::TableFault;
use exact_adjustment::AdjustFault;
use station_check::{LONGEST_U32, LONGEST_VERDICT_LINE, VerdictLine, add, add_numbered};

/// Units of 0.001 mgon in a half unit.
const THOUSANDTHS: u32 = 5;

/// Bytes of an observation, at most: the words, a number and a name.
const LONGEST_OBSERVED: usize = 4 + LONGEST_U32 + 2 + 16;

/// What is told of a fault of a table or of the adjustment of a station whose residuals are held to
/// this limit.
pub fn station_hint(station: &Station, residual: ResidualLimit, fault: CompareFault) -> Hint
    ensures { result ≡ spec.station_hint station.now residual fault }
{
    match fault {
        CompareFault::Table(TableFault::Missing(number)) => missing_hint(station, number),
        CompareFault::Adjust(AdjustFault::NotConnected) => not_connected_hint(),
        CompareFault::Adjust(AdjustFault::Residual(number)) => {
            residual_hint(station, residual, number)
        }
        _ => Hint::none(),
    }
}

/// That the table lacks the target of this number, from 1.
fn missing_hint(station: &Station, number: u32) -> Hint
    ensures { result ≡ spec.missing_hint station.now number }
{
    let mut line = VerdictLine::new();
    add(&mut line, b"the table lacks ");
    add(&mut line, target_bytes(station, place_of(number)));
    add(&mut line, b"\n");
    Hint::of_line(line)
}

/// That the observations don't hold all sets and targets together, and what does.
fn not_connected_hint() -> Hint
    ensures { result ≡ spec.not_connected_hint }
{
    let mut line = VerdictLine::new();
    add(
        &mut line,
        b"the sets fall into parts without a common target: ",
    );
    add(
        &mut line,
        b"read a target of one part in a set of another\n",
    );
    Hint::of_line(line)
}

/// That the residual of the observation of this number, from 1, is above this limit.
fn residual_hint(station: &Station, residual: ResidualLimit, number: u32) -> Hint
    ensures { result ≡ spec.residual_hint station.now residual number }
{
    let mut line = VerdictLine::new();
    add_observed(&mut line, station, place_of(number));
    add_thousandths(
        &mut line,
        b": the greatest residual, above the limit of ",
        THOUSANDTHS * residual.half_units(),
    );
    add(&mut line, b" mgon\n");
    Hint::of_line(line)
}

/// Adds the set and the target of the observation at a place, where there is one.
fn add_observed(line: &mut VerdictLine, station: &Station, place: usize)
    requires { array_vec_len line.old + LONGEST_OBSERVED ≤ LONGEST_VERDICT_LINE }
    ensures items { line.new.items ≡ line.old.items
        ++ spec.observed_text station.now (slice_get station.now.obs place) }
    ensures len { array_vec_len line.new ≤ array_vec_len line.old + LONGEST_OBSERVED }
{
    if let Some(observed) = station.obs().get(place) {
        add_set_and_target(line, station, *observed);
    }
}

/// Adds the set and the target of an observation.
fn add_set_and_target(line: &mut VerdictLine, station: &Station, observed: Obs)
    requires { array_vec_len line.old + LONGEST_OBSERVED ≤ LONGEST_VERDICT_LINE }
    ensures items { line.new.items ≡ line.old.items
        ++ spec.observed_text station.now (Some observed) }
    ensures len { array_vec_len line.new ≤ array_vec_len line.old + LONGEST_OBSERVED }
{
    add_numbered(line, b"set ", set_number(station, observed.set as usize));
    add(line, b", ");
    add(line, target_bytes(station, observed.target as usize));
}

/// The number of the set at a place.
fn set_number(station: &Station, place: usize) -> u32
    ensures { result ≡ slice_index_or station.now.sets place 0 }
{
    match station.sets().get(place) {
        Some(number) => u32::from(*number),
        None => 0,
    }
}

/// The bytes of the name of the target at a place.
fn target_bytes(station: &Station, place: usize) -> &[u8]
    ensures value { result.now ≡ slice_index_or station.now.targets place [] }
    ensures short { length result.now ≤ LONGEST_NAME }
{
    match station.targets().get(place) {
        Some(name) => name.bytes(),
        None => &[],
    }
}

/// The place, from 0, of what has this number, from 1.
fn place_of(number: u32) -> usize
    ensures { result ≡ number - 1 }
{
    number.saturating_sub(1) as usize
}
