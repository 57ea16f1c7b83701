//! What is told of the stations of a field file, as rows: the notes as data.
//!
//! Each row goes through `csv`'s writer, which puts quotes where a name asks for them.

ghost use Rattle.std.specs.Prelude.{◌≡◌, ◌++◌, ◌∷◌, [], IfOk, OnOk, option_map};
ghost use Rattle.std.specs.List.{flat_map};
ghost use Rattle.csv.specs.Writing.{row_text};
ghost use Rattle.row_forms.specs.Forms.{writer_of};
ghost use Rattle.station_mark.specs.ToldRows.{fault_rows, next_rows, numbers_row, one_if, pair_row};
ghost use Rattle.station_mark.specs.ToldRows.{remarks_rows, station_rows, told_row, zenith_row};
ghost use Rattle.station_mark.specs.ToldRows as spec;

use crate::notes::{told_again, whole_mgon};
use adjust_kernel::Name;
use itoa::Buffer;
use row_forms::{RowForm, rows_in, write_row};
use set_marks::{Flaw, Names, Recognized, Remarks, SetPair, ZenithRange};
use std::alloc::{AllocError, Global};

/// The titles of the columns.
const TITLES: &[u8] = b"station,told,first,second,name,other\n";

/// What is told of stations, as rows below their titles: of each first the row of its set-up.
///
/// The only error is that memory was refused.
pub fn told_rows(alloc: Global, stations: &[Recognized]) -> Result<Vec<u8>, AllocError>
    ensures { IfOk result (λ text. text.items ≡ spec.told_rows stations.now) }
{
    let mut text = Vec::new(alloc);
    text.extend_from_slice(TITLES)?;
    let mut names = Names::new(alloc);
    let mut left = stations;
    'stations: while let Some((station, later)) = left.split_first() {
        let again = told_again(&mut names, station, later)?;
        add_next(&mut text, again, station)?;
        left = later;
    }
    Ok(text)
}

/// Adds the rows of a station that is told so.
fn add_next(text: &mut Vec<u8>, again: Option<bool>, station: &Recognized) -> Result<(), AllocError>
    ensures { OnOk result (text.new.items ≡ text.old.items ++ next_rows again station.now) }
{
    if let Some(again) = again {
        add_station(text, again, station)?;
    }
    Ok(())
}

/// Adds the rows of a station, which is set up again or not.
fn add_station(text: &mut Vec<u8>, again: bool, station: &Recognized) -> Result<(), AllocError>
    ensures { OnOk result (text.new.items ≡ text.old.items ++ station_rows again station.now) }
{
    let (name, again) = (&station.name, one_if(again));
    add_numbers(text, name, b"set-up", station.written_again, again)?;
    add_fault(text, name, station.fault)?;
    add_numbers(text, name, b"sets", station.sets, station.targets)?;
    add_numbers(text, name, b"outside", station.before, station.after)?;
    add_remarks(text, name, station.remarks.as_ref())?;
    Ok(())
}

/// 1 where it is so, and else 0.
fn one_if(is_so: bool) -> usize
    ensures { result ≡ one_if is_so }
{
    if is_so { 1 } else { 0 }
}

/// Adds a station's fault, where it has one.
fn add_fault(text: &mut Vec<u8>, station: &Name, fault: Option<Flaw>) -> Result<(), AllocError>
    ensures { OnOk result (text.new.items ≡ text.old.items ++ fault_rows station.now fault) }
{
    if let Some(flaw) = fault {
        let (block, name) = (flaw.block as usize, flaw.kind.name().as_bytes());
        add_row(text, station, b"fault", block, 0, name, b"")?;
    }
    Ok(())
}

/// Adds what is told of a station's sets beyond their numbers.
fn add_remarks(
    text: &mut Vec<u8>,
    station: &Name,
    remarks: Option<&Remarks>,
) -> Result<(), AllocError>
    ensures { OnOk result (text.new.items ≡ text.old.items
        ++ remarks_rows station.now (option_map (λ m. m.now) remarks.entry)) }
{
    if let Some(m) = remarks {
        let (opening, turning) = (m.opening.bytes(), m.turning.bytes());
        add_row(text, station, b"ends", 0, 0, opening, turning)?;
        add_numbers(text, station, b"missing", m.missing, m.directions)?;
        let again = one_if(m.opened_again);
        add_numbers(text, station, b"after", m.others, again)?;
        add_pairs(text, station, m.equal_sets.pairs())?;
        add_zeniths(text, station, m.zeniths.ranges())?;
    }
    Ok(())
}

/// Adds the sets that are equal.
fn add_pairs(text: &mut Vec<u8>, station: &Name, pairs: &[SetPair]) -> Result<(), AllocError>
    ensures { OnOk result
        (text.new.items ≡ text.old.items ++ flat_map (pair_row station.now) pairs.now) }
{
    for pair in pairs {
        add_numbers(text, station, b"equal", pair.earlier, pair.later)?;
    }
    Ok(())
}

/// Adds by how many mgon the zenith angles of these targets differ.
fn add_zeniths(text: &mut Vec<u8>, station: &Name, ranges: &[ZenithRange]) -> Result<(), AllocError>
    ensures { OnOk result
        (text.new.items ≡ text.old.items ++ flat_map (zenith_row station.now) ranges.now) }
{
    for range in ranges {
        let (mgon, target) = (whole_mgon(range.spread()), range.target.bytes());
        add_row(text, station, b"zeniths", mgon, 0, target, b"")?;
    }
    Ok(())
}

/// Adds a row of numbers alone.
fn add_numbers(
    text: &mut Vec<u8>,
    station: &Name,
    told: &[u8],
    first: usize,
    second: usize,
) -> Result<(), AllocError>
    ensures { OnOk result (text.new.items
        ≡ text.old.items ++ numbers_row station.now told.now first second) }
{
    add_row(text, station, told, first, second, b"", b"")
}

/// Adds a row: what is told of a station, and of that two numbers and two names.
fn add_row(
    text: &mut Vec<u8>,
    station: &Name,
    told: &[u8],
    first: usize,
    second: usize,
    name: &[u8],
    other: &[u8],
) -> Result<(), AllocError>
    ensures { OnOk result (text.new.items ≡ text.old.items
        ++ told_row station.now told.now first second name.now other.now) }
{
    let (mut one, mut two) = (Buffer::new(), Buffer::new());
    let (first, second) = (one.format(first).as_bytes(), two.format(second).as_bytes());
    let (alloc, form, station) = (*text.allocator(), RowForm::Commas, station.bytes());
    let row = row_of(alloc, form, station, told, first, second, name, other)?;
    text.extend_from_slice(&row)?;
    Ok(())
}

/// The row of these fields.
fn row_of<'a>(
    alloc: Global,
    form: RowForm,
    station: &'a [u8],
    told: &'a [u8],
    first: &'a [u8],
    second: &'a [u8],
    name: &'a [u8],
    other: &'a [u8],
) -> Result<Vec<u8>, AllocError>
    ensures { IfOk result (λ row. row.items ≡ row_text (writer_of form)
        (station.now ∷ told.now ∷ first.now ∷ second.now ∷ name.now ∷ other.now ∷ [])) }
{
    let mut writer = rows_in(form, Vec::new(alloc));
    write_row(&mut writer, &[station, told, first, second, name, other])?;
    writer.into_inner().map_err(|_| AllocError)
}
