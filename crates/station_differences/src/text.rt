//! The differences as rows, made in memory.
//!
//! The rows go through `csv`'s writer, which puts quotes where a name asks for them.
ghost use Rattle.std.specs.Prelude.{◌≡◌, ◌++◌, ◌∷◌, [], ◌-ℤ◌, IfOk, OnOk, OnErr};
ghost use Rattle.angle_texts.specs.MgonTexts.{sign_text};
ghost use Rattle.direction_table.specs.Beginnings.{IsBegun};
ghost use Rattle.row_forms.specs.Forms.{rows_text};
ghost use Rattle.row_forms.specs.Writing.{Writes};
ghost use Rattle.station_differences.specs.DifferenceTexts as spec;
ghost use Rattle.station_differences.specs.Lines.{target_on};

use crate::compared::TargetDifference;
use crate::line::{TargetLine, compared_of};
use crate::median::median_of;
use adjust_kernel::{CIRCLE, PARTS, UNIT};
use angle_texts::{digit, push_gon, push_mgon, push_thousandths};
use csv::Writer;
use row_forms::{RowForm, rows_below, set_point, write_row, written_text};
use std::alloc::{AllocError, Global};
use std::io::Write;

/// The titles.
const TITLES: [&[u8]; 5] = [
    b"target",
    b"stated",
    b"least squares",
    b"difference",
    b"from the median",
];

/// The text of the targets of a station, in a form: a row of titles, and a row for each in their
/// order.
///
/// The only error is that memory was refused.
pub(crate) fn rows_text_of(
    alloc: Global,
    lines: &[TargetLine],
    form: RowForm,
) -> Result<Vec<u8>, AllocError>
    ensures { IfOk result (λ text. text.items ≡ spec.differences_text form lines.now) }
{
    let mut writer = rows_below(alloc, &TITLES, form)?;
    push_rows(alloc, &mut writer, lines, form)?;
    written_text(writer)
}

/// Writes the rows of the targets.
fn push_rows<W: Write + Drop>(
    alloc: Global,
    writer: &mut Writer<W>,
    lines: &[TargetLine],
    form: RowForm,
) -> Result<(), AllocError>
    ensures { OnOk result (Writes form W.contents writer.old writer.new
        (rows_text form (spec.rows_of form lines.now))) }
{
    let compared = compared_of(alloc, lines)?;
    let short = are_short(&compared);
    let median = median_of(&compared);
    for line in lines {
        let numbers = numbers_of(alloc, form, short, median, line)?;
        write_row(
            writer,
            &[
                line.target().bytes(),
                numbers.stated.as_slice(),
                numbers.least.as_slice(),
                numbers.difference.as_slice(),
                numbers.from_median.as_slice(),
            ],
        )?;
    }
    Ok(())
}

/// The numbers of a row, as text in its form, in the order of its columns. Of a target that the
/// table lacks all but the least-squares direction are empty.
#[derive(Drop)]
struct Numbers {
    stated: Vec<u8>,
    least: Vec<u8>,
    difference: Vec<u8>,
    from_median: Vec<u8>,
}

/// The numbers of a row.
fn numbers_of(
    alloc: Global,
    form: RowForm,
    short: bool,
    median: i32,
    line: &TargetLine,
) -> Result<Numbers, AllocError>
    ensures { IfOk result (λ numbers. spec.row_of form short median line.now
        ≡ target_on line.now ∷ numbers.stated.items ∷ numbers.least.items
        ∷ numbers.difference.items ∷ numbers.from_median.items ∷ []) }
{
    let mut numbers = Numbers {
        stated: Vec::new(alloc),
        least: Vec::new(alloc),
        difference: Vec::new(alloc),
        from_median: Vec::new(alloc),
    };
    push_gon(&mut numbers.least, line.least())?;
    set_point(&mut numbers.least, form);
    if let TargetLine::Compared(row) = line {
        push_stated(&mut numbers.stated, short, row.stated)?;
        set_point(&mut numbers.stated, form);
        push_mgon(&mut numbers.difference, row.difference)?;
        set_point(&mut numbers.difference, form);
        push_from_median(&mut numbers.from_median, row.difference, median)?;
        set_point(&mut numbers.from_median, form);
    }
    Ok(numbers)
}

/// Adds a difference less the median of all, in mgon: a minus where it is negative, the whole, a
/// point and three decimals. Both are in units of 0.001 mgon.
///
/// The only error is that memory was refused; then a beginning of it may have been added.
pub fn push_from_median(text: &mut Vec<u8>, difference: i32, median: i32) -> Result<(), AllocError>
    ensures added { OnOk result
        (text.new.items ≡ text.old.items ++ spec.from_median_text median difference) }
    ensures begun { OnErr result
        (IsBegun (spec.from_median_text median difference) text.old.items text.new.items) }
{
    push_sign(text, difference, median)?;
    push_thousandths(text, difference.abs_diff(median))
}

/// Adds what stands before a difference less the median.
fn push_sign(text: &mut Vec<u8>, difference: i32, median: i32) -> Result<(), AllocError>
    ensures added { OnOk result
        (text.new.items ≡ text.old.items ++ sign_text (difference -ℤ median)) }
    ensures begun { OnErr result
        (IsBegun (sign_text (difference -ℤ median)) text.old.items text.new.items) }
{
    if difference < median {
        text.push(b'-')?;
    }
    Ok(())
}

/// Whether six decimals of a gon write each stated direction exactly.
pub fn are_short(rows: &[TargetDifference]) -> bool
    ensures { result ≡ spec.are_short rows.now }
{
    rows.iter().all(|row| row.stated % (PARTS * UNIT) == 0)
}

/// A stated direction, in parts, rounded to 0.000000001 gon: on the circle, in that unit.
fn rounded(direction: u64) -> u64
    ensures { result ≡ spec.rounded direction }
{
    let below = direction / PARTS;
    let nearest = if direction % PARTS > PARTS / 2 {
        below + 1
    } else {
        below
    };
    nearest % CIRCLE
}

/// Adds a stated direction, in parts, to a text: in gon with six decimals, or with nine where these
/// are not enough, rounded to the ninth.
///
/// The only error is that memory was refused; then a beginning of it may have been added.
pub fn push_stated(text: &mut Vec<u8>, short: bool, direction: u64) -> Result<(), AllocError>
    ensures added { OnOk result
        (text.new.items ≡ text.old.items ++ spec.stated_text short direction) }
    ensures begun { OnErr result
        (IsBegun (spec.stated_text short direction) text.old.items text.new.items) }
{
    push_in_gon(text, short, rounded(direction))
}

/// Adds a direction in gon: with six decimals, or with nine where these are not enough.
#[tactic(auto, using(crate::proofs::StatedTexts::of_six, crate::proofs::StatedTexts::six))]
fn push_in_gon(text: &mut Vec<u8>, short: bool, direction: u64) -> Result<(), AllocError>
    ensures added { OnOk result (text.new.items ≡ text.old.items ++ spec.gon_text short direction) }
    ensures begun { OnErr result
        (IsBegun (spec.gon_text short direction) text.old.items text.new.items) }
{
    push_gon(text, direction)?;
    if !short {
        text.extend_from_slice(&[
            digit(direction / 100),
            digit(direction / 10),
            digit(direction),
        ])?;
    }
    Ok(())
}
