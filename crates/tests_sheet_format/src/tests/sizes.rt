//! Sheets of all sizes, with ample memory: none is refused for want of it.

use super::{SHEET, answer_of, expect_answer, expect_same, written};
use adjust_kernel::{
    Direction, LARGEST_SET_NUMBER, LARGEST_TURN, LONGEST_NAME, MOST_ROWS, MOST_SETS, MOST_TARGETS,
    Name, Orientation, Row, Sheet, TURN,
};
use sheet_format::{LONGEST_SHEET, read_sheet};
use std::alloc::{AllocError, Global};
use std::process::Abort;
use std::test::Fail;

/// A number below 2^40 that seems to come by chance, the same in each run.
fn chance(seed: u64) -> u64 {
    seed.wrapping_add(1).wrapping_mul(0x9E37_79B9_7F4A_7C15) >> 24
}

/// A name of any bytes that a name may hold. From 16 seeds in a row come names of each length.
fn name(rt: &impl Abort, seed: u64) -> Name {
    let mut bytes = [b' '; LONGEST_NAME];
    let mut mixed = chance(seed);
    for byte in &mut bytes {
        *byte = b' ' + (mixed % 95) as u8;
        mixed = chance(mixed);
    }
    let length = seed as usize % LONGEST_NAME + 1;
    Name::new(&bytes[..length]).expect(rt, "a name")
}

/// A direction or orientation with any number of digits.
fn angle(seed: u64) -> i128 {
    let size = (i128::from(chance(seed)) * 900_000_000) >> (seed % 70) as u32;
    if chance(seed) % 2 == 0 { size } else { -size }
}

fn directions(
    rt: &impl Abort,
    alloc: Global,
    count: usize,
    seed: u64,
) -> Result<Vec<Direction>, AllocError> {
    let mut directions = Vec::new(alloc);
    for place in 0..count as u64 {
        let seed = seed.wrapping_add(place);
        directions.push(Direction {
            name: name(rt, seed),
            value: angle(seed),
        })?;
    }
    Ok(directions)
}

/// The orientations of sets with numbers in a row; after the largest number comes the smallest.
fn orientations(alloc: Global, count: usize, seed: u64) -> Result<Vec<Orientation>, AllocError> {
    let mut orientations = Vec::new(alloc);
    for place in 0..count as u64 {
        let seed = seed.wrapping_add(place);
        orientations.push(Orientation {
            set: (seed % u64::from(LARGEST_SET_NUMBER)) as u16 + 1,
            value: angle(seed),
        })?;
    }
    Ok(orientations)
}

fn rows(rt: &impl Abort, alloc: Global, count: usize, seed: u64) -> Result<Vec<Row>, AllocError> {
    let mut rows = Vec::new(alloc);
    for place in 0..count as u64 {
        let seed = seed.wrapping_add(place);
        rows.push(Row {
            set: (chance(seed) % u64::from(LARGEST_SET_NUMBER)) as u16 + 1,
            target: name(rt, seed),
            value: (chance(seed) % u64::from(TURN)) as u32,
            turn: (seed % 19) as i8 - LARGEST_TURN,
        })?;
    }
    Ok(rows)
}

/// Makes a sheet of a seed, writes it, and reads what is written.
fn expect_written_and_read(
    rt: &impl Abort,
    alloc: Global,
    targets: usize,
    sets: usize,
    observations: usize,
    seed: u64,
) -> Result<(), Fail> {
    let sheet = Sheet::new(
        name(rt, seed),
        chance(seed) % 1_000_000_000 + 1,
        directions(rt, alloc, targets, seed)?,
        orientations(alloc, sets, seed)?,
        rows(rt, alloc, observations, seed)?,
    );
    let text = written(alloc, &sheet.expect(rt, "a sheet"))?;
    read_sheet(alloc, text.bytes())?;
    Ok(())
}

#[test]
fn each_number_of_targets_and_of_sets_is_written_and_read(rt: HostRuntime) -> Result<(), Fail> {
    for targets in 1..=MOST_TARGETS {
        for sets in 1..=MOST_SETS {
            let seed = (targets * MOST_SETS + sets) as u64;
            expect_written_and_read(&rt, rt.alloc(), targets, sets, 1, seed)?;
        }
    }
    Ok(())
}

#[test]
fn each_number_of_observations_is_written_and_read(rt: HostRuntime) -> Result<(), Fail> {
    for observations in 1..=MOST_ROWS {
        expect_written_and_read(&rt, rt.alloc(), 3, 2, observations, observations as u64)?;
    }
    Ok(())
}

#[test]
fn each_number_of_a_set_is_written_and_read(rt: HostRuntime) -> Result<(), Fail> {
    for sheet in 0..250 {
        expect_written_and_read(&rt, rt.alloc(), 1, MOST_SETS, 1, 40 * sheet)?;
    }
    Ok(())
}

/// A sheet of so many bytes that ends with empty lines is read as without them.
fn expect_read_with_empty_lines(rt: &impl Abort, alloc: Global, length: usize) -> Result<(), Fail> {
    let mut text = Vec::new(alloc);
    text.extend_from_slice(SHEET.as_bytes())?;
    text.resize(length, b'\n')?;
    let found = answer_of(alloc, read_sheet(alloc, text.as_slice()))?;
    expect_same(rt, found.as_str(), SHEET, "a sheet with empty lines");
    Ok(())
}

#[test]
fn a_text_of_any_length_is_read(rt: HostRuntime) -> Result<(), Fail> {
    for length in SHEET.len()..5_000 {
        expect_read_with_empty_lines(&rt, rt.alloc(), length)?;
    }
    for seed in 0..500 {
        let length = SHEET.len() + chance(seed) as usize % (LONGEST_SHEET - SHEET.len());
        expect_read_with_empty_lines(&rt, rt.alloc(), length)?;
    }
    expect_read_with_empty_lines(&rt, rt.alloc(), LONGEST_SHEET)
}

#[test]
fn blanks_are_a_row_of_one_field_up_to_the_longest_sheet(rt: HostRuntime) -> Result<(), Fail> {
    let mut blanks = String::new(rt.alloc());
    for _ in 0..LONGEST_SHEET {
        blanks.push_str(" ")?;
    }
    expect_answer(&rt, rt.alloc(), blanks.as_str(), "Row(1, Fields)")?;
    blanks.push_str(" ")?;
    expect_answer(&rt, rt.alloc(), blanks.as_str(), "TooLong")
}
