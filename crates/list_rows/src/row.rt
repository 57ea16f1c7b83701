//! A row of the list, made of its pieces.
//!
//! No number calls for quotes. So a row is put together in a room of its own, where each piece has
//! its place as soon as the one before it is known.
ghost use Rattle.std.specs.Prelude.{◌≡◌, ◌≤◌, ◌+◌, ◌*◌, ◌++◌, length, take};
ghost use Rattle.angle_texts.specs.MgonTexts.{sign_text};
ghost use Rattle.list_rows.specs.RowPieces as spec;

use crate::cell::{Cell, LONGEST_CELL};
use crate::put::{put, put_number, put_start};
use adjust_kernel::HALF_UNIT;
use angle_texts::digit;
use direction_table::GON;
use row_forms::RowForm;
use station_book::Faces;
use station_check::LONGEST_U32;

/// Bytes of a direction: the gon, a point and six decimals.
const LONGEST_GON: usize = LONGEST_U32 + 7;

/// Bytes of a face difference: a sign, the mgon, a point and two decimals.
const LONGEST_MGON: usize = 1 + LONGEST_U32 + 3;

/// Bytes of the numbers of a row, each with what follows it.
const LONGEST_NUMBERS: usize = LONGEST_GON + 1 + LONGEST_MGON + 1 + LONGEST_MGON + 1;

/// Bytes that no row passes.
pub(crate) const LONGEST_ROW: usize = 2 * LONGEST_CELL + LONGEST_NUMBERS;

/// The room of a row: the row up to a place stands, and what is after it may be written over.
pub(crate) type Room = [u8; LONGEST_ROW];

/// Puts a cell.
#[inline(always)]
fn put_cell(room: &mut Room, at: usize, cell: &Cell) -> usize
    requires { at + LONGEST_CELL ≤ LONGEST_ROW }
    ensures next { result ≤ at + LONGEST_CELL }
    ensures text { take result room.new ≡ take at room.old ++ cell.now }
{
    let (bytes, len) = cell.padded();
    put_start(room, at, bytes, len)
}

/// Puts a two-face direction, in gon with six decimals.
#[inline(always)]
fn put_gon(room: &mut Room, at: usize, value: u32, form: RowForm) -> usize
    requires { at + LONGEST_GON ≤ LONGEST_ROW }
    ensures next { result ≤ at + LONGEST_GON }
    ensures text { take result room.new
        ≡ take at room.old ++ spec.gon_text form (HALF_UNIT * value) }
{
    let direction = HALF_UNIT * u64::from(value);
    let point = put_number(room, at, (direction / GON) as u32);
    put(
        room,
        point,
        &[
            form.point(),
            digit(direction / 100_000_000),
            digit(direction / 10_000_000),
            digit(direction / 1_000_000),
            digit(direction / 100_000),
            digit(direction / 10_000),
            digit(direction / 1_000),
        ],
    )
}

/// Puts what stands before a number.
#[inline(always)]
fn put_sign(room: &mut Room, at: usize, number: i32) -> usize
    requires { at + 1 ≤ LONGEST_ROW }
    ensures next { result ≤ at + 1 }
    ensures text { take result room.new ≡ take at room.old ++ sign_text number }
{
    if number < 0 {
        return put(room, at, b"-");
    }
    at
}

/// Puts a face difference of so many units of 0.01 mgon, in mgon with two decimals.
#[inline(always)]
fn put_mgon(room: &mut Room, at: usize, units: i32, form: RowForm) -> usize
    requires { at + LONGEST_MGON ≤ LONGEST_ROW }
    ensures next { result ≤ at + LONGEST_MGON }
    ensures text { take result room.new ≡ take at room.old ++ spec.mgon_text form units }
{
    let number = units.unsigned_abs();
    let whole = put_sign(room, at, units);
    let point = put_number(room, whole, number / 100);
    let tenths = digit(u64::from(number) / 10);
    let hundredths = digit(u64::from(number));
    put(room, point, &[form.point(), tenths, hundredths])
}

/// Puts the numbers of a row, and ends the line.
fn put_numbers(room: &mut Room, at: usize, value: u32, faces: Faces, form: RowForm) -> usize
    requires { at + LONGEST_NUMBERS ≤ LONGEST_ROW }
    ensures next { result ≤ at + LONGEST_NUMBERS }
    ensures text { take result room.new
        ≡ take at room.old ++ spec.numbers_text form value faces }
{
    let separator = [form.separator()];
    let gon_end = put_gon(room, at, value, form);
    let two_c_at = put(room, gon_end, &separator);
    let two_c_end = put_mgon(room, two_c_at, faces.two_c, form);
    let two_i_at = put(room, two_c_end, &separator);
    let two_i_end = put_mgon(room, two_i_at, faces.two_i, form);
    put(room, two_i_end, b"\n")
}

/// Puts a row: what the rows of its set begin with, the cell of its target, and its numbers.
pub(crate) fn put_row(
    room: &mut Room,
    start: &Cell,
    target: &Cell,
    value: u32,
    faces: Faces,
    form: RowForm,
) -> usize
    ensures bound { result ≤ LONGEST_ROW }
    ensures text { take result room.new
        ≡ start.now ++ (target.now ++ spec.numbers_text form value faces) }
{
    let target_at = put_cell(room, 0, start);
    let numbers_at = put_cell(room, target_at, target);
    put_numbers(room, numbers_at, value, faces, form)
}
