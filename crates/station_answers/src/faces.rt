//! What the face differences of a station say together, as rows for other programs.
ghost use Rattle.std.specs.Prelude.{◌≡◌, ◌<◌, ◌++◌, IfOk, OnOk, length};
ghost use Rattle.station_answers.specs.Faces.{face_row, faces_text, mgon_cell};

use station_book::Surveyed;
use station_report::{FaceMean, means_of_faces, push_wide_mgon};
use std::alloc::{AllocError, Global};

/// The text of what all 2c and all 2i of a station say together: titles, and a row of each with its
/// mean, half of that, which of 2c is the collimation error and of 2i the index error, and the
/// greatest less the least, in mgon.
///
/// The only error is that memory was refused.
pub(crate) fn faces_by(alloc: Global, surveyed: &Surveyed) -> Result<Vec<u8>, AllocError>
    requires { 0 < length surveyed.now.station.obs }
    ensures { IfOk result (λ text. text.items ≡ faces_text surveyed.now) }
{
    let (two_c, two_i) = means_of_faces(surveyed);
    let mut text = Vec::new(alloc);
    text.extend_from_slice(b"difference,mean,half of mean,spread\n")?;
    push_row(&mut text, b"2c", two_c)?;
    push_row(&mut text, b"2i", two_i)?;
    Ok(text)
}

/// Adds a row of these numbers.
fn push_row(text: &mut Vec<u8>, what: &[u8], mean: FaceMean) -> Result<(), AllocError>
    ensures { OnOk result (text.new.items
        ≡ text.old.items ++ face_row what.now mean.mean mean.half mean.spread) }
{
    text.extend_from_slice(what)?;
    push_cell(text, mean.mean)?;
    push_cell(text, mean.half)?;
    push_cell(text, mean.spread)?;
    text.push(b'\n')?;
    Ok(())
}

/// Adds a cell of a number of 0.01 mgon, after another.
fn push_cell(text: &mut Vec<u8>, units: i64) -> Result<(), AllocError>
    ensures { OnOk result (text.new.items ≡ text.old.items ++ mgon_cell units) }
{
    text.push(b',')?;
    push_wide_mgon(text, units)
}
