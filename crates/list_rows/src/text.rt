//! The text of the rows, made in memory.
//!
//! What the rows of a station share is made once for all of them: what those of a set begin with,
//! and the cell of a target.
ghost use Rattle.std.specs.Prelude.{◌≡◌, ◌<◌, ◌++◌, length, map, IfOk, OnOk};
ghost use Rattle.std.specs.List.{flat_map};
ghost use Rattle.adjust_kernel.specs.Matching.{key_of_obs};
ghost use Rattle.adjust_kernel.specs.Stations.{IsStation};
ghost use Rattle.csv.specs.Writing.{row_text};
ghost use Rattle.list_rows.specs.RowPieces.{cell_text, start_text};
ghost use Rattle.list_rows.specs.RowTexts as spec;
ghost use Rattle.row_forms.specs.Forms.{rows_text, writer_of};

use crate::cell::{Cell, cells_of, starts_of};
use crate::row::{LONGEST_ROW, Room, put_row};
use adjust_kernel::{Obs, Station};
use row_forms::RowForm;
use station_book::{Faces, Stations, Surveyed};
use station_check::{differences_at, observation_at};
use std::alloc::{AllocError, Global};

/// The text of stations in a form: a row of titles, and a row for each of their observations, in
/// their order.
///
/// The only error is that memory was refused.
pub fn text_of(alloc: Global, stations: &Stations, form: RowForm) -> Result<Vec<u8>, AllocError>
    ensures { IfOk result (λ text. text.items ≡ spec.stations_text form stations.now) }
{
    let mut text = Vec::new(alloc);
    push_titles(&mut text, form)?;
    push_stations(alloc, &mut text, stations, form)?;
    Ok(text)
}

/// The row of titles.
fn titles_in(form: RowForm) -> &'static [u8]
    ensures { result.now ≡ row_text (writer_of form) spec.titles }
{
    match form {
        RowForm::Commas => b"station,set,target,direction,2c,2i\n",
        RowForm::Semicolons => b"station;set;target;direction;2c;2i\n",
    }
}

/// Adds the titles.
fn push_titles(text: &mut Vec<u8>, form: RowForm) -> Result<(), AllocError>
    ensures { OnOk result
        (text.new.items ≡ text.old.items ++ row_text (writer_of form) spec.titles) }
{
    text.extend_from_slice(titles_in(form))?;
    Ok(())
}

/// Adds the rows of the stations.
fn push_stations(
    alloc: Global,
    text: &mut Vec<u8>,
    stations: &Stations,
    form: RowForm,
) -> Result<(), AllocError>
    ensures { OnOk result (text.new.items
        ≡ text.old.items ++ rows_text form (flat_map (spec.rows_of form) stations.now)) }
{
    let mut room = [0; LONGEST_ROW];
    'stations: for place in 0..stations.len() {
        if let Some(surveyed) = stations.at(place) {
            push_surveyed(alloc, text, &mut room, surveyed, form)?;
        }
    }
    Ok(())
}

/// Adds the rows of a station, each made in the same room.
fn push_surveyed(
    alloc: Global,
    text: &mut Vec<u8>,
    room: &mut Room,
    surveyed: &Surveyed,
    form: RowForm,
) -> Result<(), AllocError>
    ensures { OnOk result
        (text.new.items ≡ text.old.items ++ rows_text form (spec.rows_of form surveyed.now)) }
{
    let station = surveyed.station();
    let faces = surveyed.faces();
    let starts = starts_of(alloc, station, form)?;
    let targets = cells_of(alloc, station.targets(), form)?;
    let shared = Shared {
        form,
        starts: &starts,
        targets: &targets,
    };
    'observations: for place in 0..station.obs().len() {
        let observation = observation_at(station, place);
        let differences = differences_at(faces, place);
        push_observation(text, room, station, &shared, observation, differences)?;
    }
    Ok(())
}

/// What the rows of a station share.
#[derive(Drop)]
struct Shared<'a> {
    /// Their form.
    form: RowForm,

    /// What the rows of each of its sets begin with.
    starts: &'a [Cell],

    /// The cells of its targets.
    targets: &'a [Cell],
}

/// Adds the row of an observation of a station.
fn push_observation(
    text: &mut Vec<u8>,
    room: &mut Room,
    station: &Station,
    shared: &Shared<'_>,
    observation: Obs,
    differences: Faces,
) -> Result<(), AllocError>
    requires valid { IsStation station.now }
    requires set_in { observation.set < length station.now.sets }
    requires target_in { observation.target < length station.now.targets }
    requires starts { shared.now.starts.now
        ≡ map (start_text shared.now.form station.now.name) station.now.sets }
    requires targets { shared.now.targets.now
        ≡ map (cell_text shared.now.form) station.now.targets }
    ensures { OnOk result (text.new.items ≡ text.old.items
        ++ row_text (writer_of shared.now.form) (spec.row_of shared.now.form station.now.name
        (key_of_obs station.now.sets station.now.targets observation, differences))) }
{
    let start = &shared.starts[observation.set as usize];
    let target = &shared.targets[observation.target as usize];
    let end = put_row(
        room,
        start,
        target,
        observation.value,
        differences,
        shared.form,
    );
    text.extend_from_slice(&room[..end])?;
    Ok(())
}
