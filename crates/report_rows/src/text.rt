//! The text of the rows, made in memory.
//!
//! The rows go through `csv`'s writer, which puts quotes where a name asks for them.
ghost use Rattle.std.specs.Prelude.{◌≡◌, ◌<◌, ◌*◌, length, slice_get, IfOk, OnOk, Some};
ghost use Rattle.adjust_kernel.specs.declared.units.TheConstants.{HALF_UNIT};
ghost use Rattle.angle_texts.specs.MgonTexts.{mgon_text, short_mgon_text};
ghost use Rattle.csv.specs.Writing.{row_text};
ghost use Rattle.direction_table.specs.Texts.{direction_text};
ghost use Rattle.report_rows.specs.RowTexts as spec;
ghost use Rattle.row_forms.specs.Forms.{number_in, rows_text, writer_of};
ghost use Rattle.row_forms.specs.Writing.{Writes};
ghost use Rattle.row_forms.specs.declared.form.RowForm.{RowForm as Form};
ghost use Rattle.station_report.specs.Readings as reading;

use adjust_kernel::{HALF_UNIT, Name};
use angle_texts::{push_gon, push_mgon, push_short_mgon};
use csv::Writer;
use itoa::Buffer;
use row_forms::{RowForm, rows_in, set_point, write_row};
use station_book::{Faces, Surveyed};
use station_report::{READ_UNIT, reading_one, reading_two, zenith_mean, zenith_one, zenith_two};
use station_results::AdjustedObs;
use std::alloc::{AllocError, Global};
use std::io::Write;

/// The text of the observations of a station, adjusted, in a form: a row of titles, and a row for
/// each in their order.
///
/// The only error is that memory was refused.
pub fn text_of(
    alloc: Global,
    surveyed: &Surveyed,
    rows: &[AdjustedObs],
    form: RowForm,
) -> Result<Vec<u8>, AllocError>
    requires { length rows.now ≡ length surveyed.now.station.obs }
    ensures { IfOk result (λ text. text.items
        ≡ spec.report_rows_text form surveyed.now rows.now) }
{
    let mut writer = rows_in(form, Vec::new(alloc));
    push_all(alloc, &mut writer, surveyed, rows, form)?;
    writer.into_inner().map_err(|_| AllocError)
}

/// Writes the titles and the rows.
fn push_all<W: Write + Drop>(
    alloc: Global,
    writer: &mut Writer<W>,
    surveyed: &Surveyed,
    rows: &[AdjustedObs],
    form: RowForm,
) -> Result<(), AllocError>
    requires { length rows.now ≡ length surveyed.now.station.obs }
    ensures { OnOk result (Writes form W.contents writer.old writer.new
        (spec.report_rows_text form surveyed.now rows.now)) }
{
    push_titles(writer)?;
    push_rows(alloc, writer, surveyed, rows, form)
}

/// Writes the titles.
fn push_titles<W: Write + Drop>(writer: &mut Writer<W>) -> Result<(), AllocError>
    ensures { (form : Form) → OnOk result (Writes form W.contents writer.old writer.new
        (row_text (writer_of form) spec.titles)) }
{
    write_row(
        writer,
        &[
            b"station".as_slice(),
            b"set".as_slice(),
            b"target".as_slice(),
            b"face one".as_slice(),
            b"face two".as_slice(),
            b"direction".as_slice(),
            b"2c".as_slice(),
            b"2i".as_slice(),
            b"adjusted".as_slice(),
            b"residual".as_slice(),
            b"zenith one".as_slice(),
            b"zenith two".as_slice(),
            b"zenith mean".as_slice(),
        ],
    )
}

/// Writes the rows of the observations.
fn push_rows<W: Write + Drop>(
    alloc: Global,
    writer: &mut Writer<W>,
    surveyed: &Surveyed,
    rows: &[AdjustedObs],
    form: RowForm,
) -> Result<(), AllocError>
    requires { length rows.now ≡ length surveyed.now.station.obs }
    ensures { OnOk result (Writes form W.contents writer.old writer.new
        (rows_text form (spec.rows_of form surveyed.now rows.now))) }
{
    let name = surveyed.station().name();
    let mut numbers = Numbers::new(alloc);
    'observations: for place in 0..rows.len() {
        let row = row_at(rows, place);
        let differences = differences_at(surveyed, place);
        push_observation(writer, &mut numbers, name, row, differences, form)?;
    }
    Ok(())
}

/// The adjusted observation at a place.
fn row_at(rows: &[AdjustedObs], place: usize) -> AdjustedObs
    requires { place < length rows.now }
    ensures { slice_get rows.now place ≡ Some result }
{
    rows[place]
}

/// The face differences at a place.
fn differences_at(surveyed: &Surveyed, place: usize) -> Faces
    requires { place < length surveyed.now.station.obs }
    ensures { slice_get surveyed.now.faces place ≡ Some result }
{
    surveyed.faces()[place]
}

/// The numbers of a row as text, which are made in the same places row after row.
#[derive(Drop)]
struct Numbers {
    set: Buffer,
    face_one: Vec<u8>,
    face_two: Vec<u8>,
    direction: Vec<u8>,
    two_c: Vec<u8>,
    two_i: Vec<u8>,
    adjusted: Vec<u8>,
    residual: Vec<u8>,
    zenith_one: Vec<u8>,
    zenith_two: Vec<u8>,
    zenith_mean: Vec<u8>,
}

impl Numbers {
    fn new(alloc: Global) -> Numbers {
        Numbers {
            set: Buffer::new(),
            face_one: Vec::new(alloc),
            face_two: Vec::new(alloc),
            direction: Vec::new(alloc),
            two_c: Vec::new(alloc),
            two_i: Vec::new(alloc),
            adjusted: Vec::new(alloc),
            residual: Vec::new(alloc),
            zenith_one: Vec::new(alloc),
            zenith_two: Vec::new(alloc),
            zenith_mean: Vec::new(alloc),
        }
    }
}

/// Makes a text that of a direction in gon, in units of 0.000000001 gon.
fn set_gon(text: &mut Vec<u8>, direction: u64, form: RowForm) -> Result<(), AllocError>
    ensures { OnOk result (text.new.items ≡ number_in form (direction_text 6 direction)) }
{
    text.clear();
    push_gon(text, direction)?;
    set_point(text, form);
    Ok(())
}

/// Makes a text that of a face difference in mgon, in units of 0.01 mgon.
fn set_short_mgon(text: &mut Vec<u8>, units: i32, form: RowForm) -> Result<(), AllocError>
    ensures { OnOk result (text.new.items ≡ number_in form (short_mgon_text units)) }
{
    text.clear();
    push_short_mgon(text, units)?;
    set_point(text, form);
    Ok(())
}

/// Makes a text that of a residual in mgon, in units of 0.001 mgon.
fn set_mgon(text: &mut Vec<u8>, units: i32, form: RowForm) -> Result<(), AllocError>
    ensures { OnOk result (text.new.items ≡ number_in form (mgon_text units)) }
{
    text.clear();
    push_mgon(text, units)?;
    set_point(text, form);
    Ok(())
}

/// Makes texts of what was read in face I and in face II, by a two-face direction and 2c.
fn set_readings(
    face_one: &mut Vec<u8>,
    face_two: &mut Vec<u8>,
    value: u32,
    two_c: i32,
    form: RowForm,
) -> Result<(), AllocError>
    ensures face_one { OnOk result (face_one.new.items
        ≡ number_in form (spec.read_text (reading.reading_one value two_c))) }
    ensures face_two { OnOk result (face_two.new.items
        ≡ number_in form (spec.read_text (reading.reading_two value two_c))) }
{
    set_gon(
        face_one,
        READ_UNIT * u64::from(reading_one(value, two_c)),
        form,
    )?;
    set_gon(
        face_two,
        READ_UNIT * u64::from(reading_two(value, two_c)),
        form,
    )
}

/// Makes texts of the zenith angles of face I and of face II, by that of face I and 2i.
fn set_zeniths(
    face_one: &mut Vec<u8>,
    face_two: &mut Vec<u8>,
    zenith: i32,
    two_i: i32,
    form: RowForm,
) -> Result<(), AllocError>
    ensures face_one { OnOk result (face_one.new.items
        ≡ number_in form (spec.read_text (reading.zenith_one zenith))) }
    ensures face_two { OnOk result (face_two.new.items
        ≡ number_in form (spec.read_text (reading.zenith_two zenith two_i))) }
{
    set_gon(face_one, READ_UNIT * u64::from(zenith_one(zenith)), form)?;
    set_gon(
        face_two,
        READ_UNIT * u64::from(zenith_two(zenith, two_i)),
        form,
    )
}

/// Makes texts of the means of both faces: of the two-face direction and of the zenith angle.
fn set_means(
    direction: &mut Vec<u8>,
    zenith: &mut Vec<u8>,
    value: u32,
    differences: Faces,
    form: RowForm,
) -> Result<(), AllocError>
    ensures direction { OnOk result (direction.new.items
        ≡ number_in form (direction_text 6 (HALF_UNIT * value))) }
    ensures zenith { OnOk result (zenith.new.items ≡ number_in form (direction_text 6
        (HALF_UNIT * reading.zenith_mean differences.zenith differences.two_i))) }
{
    set_gon(direction, HALF_UNIT * u64::from(value), form)?;
    set_gon(
        zenith,
        HALF_UNIT * u64::from(zenith_mean(differences.zenith, differences.two_i)),
        form,
    )
}

/// Makes texts of the face differences.
fn set_differences(
    two_c: &mut Vec<u8>,
    two_i: &mut Vec<u8>,
    differences: Faces,
    form: RowForm,
) -> Result<(), AllocError>
    ensures two_c { OnOk result (two_c.new.items
        ≡ number_in form (short_mgon_text differences.two_c)) }
    ensures two_i { OnOk result (two_i.new.items
        ≡ number_in form (short_mgon_text differences.two_i)) }
{
    set_short_mgon(two_c, differences.two_c, form)?;
    set_short_mgon(two_i, differences.two_i, form)
}

/// Makes texts of the adjusted direction and of the residual.
fn set_adjusted(
    adjusted: &mut Vec<u8>,
    residual: &mut Vec<u8>,
    row: AdjustedObs,
    form: RowForm,
) -> Result<(), AllocError>
    ensures adjusted { OnOk result (adjusted.new.items
        ≡ number_in form (direction_text 6 row.adjusted)) }
    ensures residual { OnOk result (residual.new.items
        ≡ number_in form (mgon_text row.residual)) }
{
    set_gon(adjusted, row.adjusted, form)?;
    set_mgon(residual, row.residual, form)
}

/// Writes the row of an observation of a station of this name.
fn push_observation<W: Write + Drop>(
    writer: &mut Writer<W>,
    numbers: &mut Numbers,
    name: Name,
    row: AdjustedObs,
    differences: Faces,
    form: RowForm,
) -> Result<(), AllocError>
    ensures { OnOk result (Writes form W.contents writer.old writer.new
        (row_text (writer_of form) (spec.row_of form name (row, differences)))) }
{
    set_readings(
        &mut numbers.face_one,
        &mut numbers.face_two,
        row.value,
        differences.two_c,
        form,
    )?;
    set_zeniths(
        &mut numbers.zenith_one,
        &mut numbers.zenith_two,
        differences.zenith,
        differences.two_i,
        form,
    )?;
    set_means(
        &mut numbers.direction,
        &mut numbers.zenith_mean,
        row.value,
        differences,
        form,
    )?;
    set_differences(&mut numbers.two_c, &mut numbers.two_i, differences, form)?;
    set_adjusted(&mut numbers.adjusted, &mut numbers.residual, row, form)?;
    write_row(
        writer,
        &[
            name.bytes(),
            numbers.set.format(row.set).as_bytes(),
            row.target.bytes(),
            numbers.face_one.as_slice(),
            numbers.face_two.as_slice(),
            numbers.direction.as_slice(),
            numbers.two_c.as_slice(),
            numbers.two_i.as_slice(),
            numbers.adjusted.as_slice(),
            numbers.residual.as_slice(),
            numbers.zenith_one.as_slice(),
            numbers.zenith_two.as_slice(),
            numbers.zenith_mean.as_slice(),
        ],
    )
}
