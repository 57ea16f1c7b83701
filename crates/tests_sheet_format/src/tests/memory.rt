//! Refused memory: a call then answers so, or what it answers with ample memory.
//!
//! All memory is held but for a spare one, and a plug takes all of that but some bytes. From run
//! to run the plug is smaller by less than any growth takes, so that each growth in turn is the
//! first that is refused, until none is. The sheets are small: what larger ones give back lies in
//! pieces, which a larger growth can't take.
//!
//! `rt test` runs it. `rt try --test` watches over memory itself, and ends the test in place of
//! refusing.

use super::worked::changed;
use super::{SHEET, answer_of, expect_same};
use adjust_kernel::Sheet;
use byte_ends::Held;
use sheet_format::{SheetFault, WriteFault, read_sheet, write_sheet};
use std::alloc::Global;
use std::process::Abort;
use std::test::Fail;
use test_support::hoard_of_all_but;

/// The bytes of the spare memory, and those by which more of it is left from run to run.
const SPARE: usize = 16_000;

const STEP: usize = 16;

/// Reads a text with more and more memory. Gives how often it was refused, and the first other
/// answer.
fn read_with_more(alloc: Global, bytes: &[u8]) -> (u32, Result<Sheet, SheetFault>) {
    let mut refused = 0u32;
    for run in 0..SPARE / STEP {
        let plug = Vec::<u8>::with_capacity(alloc, SPARE.saturating_sub(STEP * run));
        let answer = read_sheet(alloc, bytes);
        drop(plug);
        match answer {
            Err(SheetFault::Memory) => refused = refused.saturating_add(1),
            answer => return (refused, answer),
        }
    }
    (refused, Err(SheetFault::Memory))
}

/// With little memory a read is refused; with more and more its answer is this one in the end.
fn expect_read(rt: &impl Abort, alloc: Global, text: &str, expected: &str) -> Result<(), Fail> {
    let spare = Vec::<u8>::with_capacity(alloc, SPARE)?;
    let hoard = hoard_of_all_but(alloc, spare);
    let (refused, answer) = read_with_more(alloc, text.as_bytes());
    drop(hoard);
    assert!(rt; refused > 0);
    let found = answer_of(alloc, answer)?;
    expect_same(rt, found.as_str(), expected, text);
    Ok(())
}

#[test]
fn each_growth_of_a_read_is_refused_in_turn(rt: HostRuntime) -> Result<(), Fail> {
    expect_read(&rt, rt.alloc(), SHEET, SHEET)?;
    let faulty = changed(rt.alloc(), 9, "obs,2,B,80000000,0")?;
    expect_read(&rt, rt.alloc(), faulty.as_str(), "Row(9, Range)")
}

/// Writes a sheet with more and more memory. Gives how often it was refused, with nothing written,
/// before it was not.
fn write_with_more(alloc: Global, sheet: &Sheet, held: &mut Held) -> u32 {
    let mut refused = 0u32;
    for run in 0..SPARE / STEP {
        let plug = Vec::<u8>::with_capacity(alloc, SPARE.saturating_sub(STEP * run));
        let answer = write_sheet(alloc, sheet, held);
        drop(plug);
        if answer != Err(WriteFault::Memory) || !held.bytes().is_empty() {
            return refused;
        }
        refused = refused.saturating_add(1);
    }
    refused
}

#[test]
fn each_growth_of_a_write_is_refused_in_turn(rt: HostRuntime) -> Result<(), Fail> {
    let alloc = rt.alloc();
    let sheet = read_sheet(alloc, SHEET.as_bytes())?;
    let mut held = Held::new(alloc, 1_000, 1_000, false)?;
    let spare = Vec::<u8>::with_capacity(alloc, SPARE)?;
    let hoard = hoard_of_all_but(alloc, spare);
    let refused = write_with_more(alloc, &sheet, &mut held);
    drop(hoard);
    assert!(rt; refused > 0);
    assert!(rt; held.bytes() == SHEET.as_bytes());
    Ok(())
}
