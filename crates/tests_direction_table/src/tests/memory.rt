//! Refused memory: a call then answers so, or what it answers with ample memory.
//!
//! All memory is held but for a spare one, and a plug takes all of that but some bytes. From run
//! to run the plug is smaller by less than any growth takes, so that each growth in turn is the
//! first that is refused, until none is.
//!
//! `rt test` runs it. `rt try --test` watches over memory itself, and ends the test in place of
//! refusing.

use super::{are_read, in_unit, stated_of, station_of};
use adjust_kernel::Station;
use direction_table::{
    AngleUnit, Decimals, RowKind, TableFault, TargetDirection, read_table, table_text,
};
use row_forms::RowForm;
use std::alloc::{AllocError, Global};
use std::process::Abort;
use std::test::Fail;
use test_support::hoard_of_all_but;

/// The bytes of the spare memory, and those by which more of it is left from run to run.
const SPARE: usize = 16_000;

const STEP: usize = 16;

/// Reads a table with more and more memory. Gives how often it was refused, and the first other
/// answer.
fn read_with_more(
    alloc: Global,
    station: &Station,
    bytes: &[u8],
) -> (u32, Result<Vec<i64>, TableFault>) {
    let mut refused = 0u32;
    for run in 0..SPARE / STEP {
        let plug = Vec::<u8>::with_capacity(alloc, SPARE.saturating_sub(STEP * run));
        let answer = read_table(alloc, in_unit(AngleUnit::Gon), station.targets(), bytes);
        drop(plug);
        match answer {
            Err(TableFault::Memory) => refused = refused.saturating_add(1),
            answer => return (refused, answer),
        }
    }
    (refused, Err(TableFault::Memory))
}

/// Makes the text of a table with more and more memory. Gives how often it was refused, and the
/// first text.
fn write_with_more(
    alloc: Global,
    stated: &[TargetDirection],
    decimals: Decimals,
) -> (u32, Result<Vec<u8>, AllocError>) {
    let mut refused = 0u32;
    for run in 0..SPARE / STEP {
        let plug = Vec::<u8>::with_capacity(alloc, SPARE.saturating_sub(STEP * run));
        let answer = table_text(alloc, stated, decimals, RowForm::Commas);
        drop(plug);
        match answer {
            Err(AllocError) => refused = refused.saturating_add(1),
            answer => return (refused, answer),
        }
    }
    (refused, Err(AllocError))
}

/// Tables of 3 to 5 targets with 6 decimals.
const TABLES: [(&[&[u8]], &[u8]); 3] = [
    (
        &[b"A", b"B", b"C"],
        b"A,0.000000\nB,50.000030\nC,399.999999\n",
    ),
    (
        &[b"CHURCH", b"MAST", b"TOWER", b"P4"],
        b"CHURCH,0.000000\nMAST,50.000030\nTOWER,399.999999\nP4,7.000000\n",
    ),
    (
        &[
            b"CHURCH,NORTH",
            b"\"MAST\"",
            b"0123456789abcdef",
            b" ",
            b"E",
        ],
        b"\"CHURCH,NORTH\",0.000000\n\"\"\"MAST\"\"\",50.000030\n0123456789abcdef,399.999999\n\
        \x20,7.000000\nE,100.500000\n",
    ),
];

/// Their directions.
const DIRECTIONS: [u64; 5] = [
    0,
    50_000_030_000,
    399_999_999_000,
    7_000_000_000,
    100_500_000_000,
];

/// With little memory a read is refused; with more and more it gives these directions in the end.
fn expect_read(rt: &impl Abort, alloc: Global, names: &[&[u8]], text: &[u8]) -> Result<(), Fail> {
    let station = station_of(rt, alloc, names)?;
    let stated = stated_of(rt, alloc, names, &DIRECTIONS)?;
    let spare = Vec::<u8>::with_capacity(alloc, SPARE)?;
    let hoard = hoard_of_all_but(alloc, spare);
    let (refused, answer) = read_with_more(alloc, &station, text);
    drop(hoard);
    assert!(rt; refused > 0);
    assert!(rt; are_read(&answer.expect(rt, "a table"), &stated));
    Ok(())
}

/// The same of the text that is made.
fn expect_text(rt: &impl Abort, alloc: Global, names: &[&[u8]], text: &[u8]) -> Result<(), Fail> {
    let decimals = Decimals::new(6).expect(rt, "6 decimals");
    let stated = stated_of(rt, alloc, names, &DIRECTIONS)?;
    let spare = Vec::<u8>::with_capacity(alloc, SPARE)?;
    let hoard = hoard_of_all_but(alloc, spare);
    let (refused, answer) = write_with_more(alloc, &stated, decimals);
    drop(hoard);
    assert!(rt; refused > 0);
    assert_eq!(rt; answer?.as_slice(), text);
    Ok(())
}

#[test]
fn each_growth_of_a_read_is_refused_in_turn(rt: HostRuntime) -> Result<(), Fail> {
    for (names, text) in TABLES {
        expect_read(&rt, rt.alloc(), names, text)?;
    }
    Ok(())
}

#[test]
fn each_growth_of_a_text_is_refused_in_turn(rt: HostRuntime) -> Result<(), Fail> {
    for (names, text) in TABLES {
        expect_text(&rt, rt.alloc(), names, text)?;
    }
    Ok(())
}

#[test]
fn a_fault_is_answered_once_there_is_memory(rt: HostRuntime) -> Result<(), Fail> {
    let (names, _) = TABLES[0];
    let station = station_of(&rt, rt.alloc(), names)?;
    let cases = [
        ("A,0\nB,1\nC,401\n", TableFault::Row(3, RowKind::Range)),
        ("A,0\nC,1\n", TableFault::Missing(2)),
    ];
    for (text, fault) in cases {
        let spare = Vec::<u8>::with_capacity(rt.alloc(), SPARE)?;
        let hoard = hoard_of_all_but(rt.alloc(), spare);
        let (refused, answer) = read_with_more(rt.alloc(), &station, text.as_bytes());
        drop(hoard);
        assert!(rt; refused > 0);
        assert_eq!(rt; answer.err(), Some(fault));
    }
    Ok(())
}
