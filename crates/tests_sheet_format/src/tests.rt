//! What no clause says: that the definitions are those of the worked sheets, that calls succeed,
//! and what the bytes are.

mod faults;
mod memory;
mod sizes;
mod worked;

use adjust_kernel::Sheet;
use byte_ends::{Failed, Held, Sink};
use sheet_format::{LONGEST_SHEET, SheetFault, WriteFault, read_sheet, write_sheet};
use std::alloc::{AllocError, Global};
use std::process::Abort;
use std::test::Fail;

/// A sheet of two targets and two sets.
const SHEET: &str = "\
sheet,1,S1,4,
target,,A,0,
target,,B,40000024,
set,1,,-20,
set,2,,-80000020,
obs,1,A,6,0
obs,1,B,10000010,0
obs,2,A,20000004,0
obs,2,B,30000012,0
";

/// No row of a sheet is written with more bytes.
const LONGEST_ROW: usize = 100;

/// What is written of a sheet.
fn written(alloc: Global, sheet: &Sheet) -> Result<Held, Fail> {
    let rows = 1 + sheet.directions().len() + sheet.orientations().len() + sheet.rows().len();
    let mut held = Held::new(alloc, rows * LONGEST_ROW, LONGEST_SHEET, false)?;
    write_sheet(alloc, sheet, &mut held)?;
    Ok(held)
}

/// An answer of `read_sheet` as text: the sheet, as it is written, or the fault.
fn answer_of(alloc: Global, answer: Result<Sheet, SheetFault>) -> Result<String, Fail> {
    match answer {
        Ok(sheet) => {
            let held = written(alloc, &sheet)?;
            Ok(str::from_utf8(held.bytes())?.to_string(alloc)?)
        }
        Err(fault) => Ok(format!(in alloc; "{fault:?}")?),
    }
}

/// Adds a line to a text.
fn push_line(text: &mut String, line: &str) -> Result<(), AllocError> {
    text.push_str(line)?;
    text.push_str("\n")
}

/// Fails where two texts differ, and says of what.
fn expect_same(rt: &impl Abort, found: &str, expected: &str, of: &str) {
    assert_eq!(rt; found, expected, "of {of}");
}

fn expect_answer(rt: &impl Abort, alloc: Global, text: &str, expected: &str) -> Result<(), Fail> {
    let found = answer_of(alloc, read_sheet(alloc, text.as_bytes()))?;
    expect_same(rt, found.as_str(), expected, text);
    Ok(())
}

/// Whether a writer with this room, which takes so many bytes at a time, gets the beginning of the
/// sheet above that it has room for, and the call succeeds exactly where that is all.
fn is_begun(alloc: Global, sheet: &Sheet, room: usize, step: usize) -> Result<bool, Fail> {
    let mut held = Held::new(alloc, room, step.max(1), false)?;
    let is_written = write_sheet(alloc, sheet, &mut held).is_ok();
    let taken = room.min(SHEET.len());
    Ok(is_written == (taken == SHEET.len()) && held.bytes() == &SHEET.as_bytes()[..taken])
}

#[test]
fn a_failing_writer_holds_the_beginning_of_the_text(rt: HostRuntime) -> Result<(), Fail> {
    let sheet = read_sheet(rt.alloc(), SHEET.as_bytes())?;
    for room in 0..=SHEET.len() {
        for step in [1, 7, 1_000] {
            assert!(rt;
                is_begun(rt.alloc(), &sheet, room, step)?,
                "with room for {room}"
            );
        }
    }
    Ok(())
}

#[test]
fn a_failing_flush_is_a_failed_write(rt: HostRuntime) -> Result<(), Fail> {
    let sheet = read_sheet(rt.alloc(), SHEET.as_bytes())?;
    let mut held = Held::new(rt.alloc(), 1_000, 1, true)?;
    let answer = write_sheet(rt.alloc(), &sheet, &mut held);
    assert!(rt; answer == Err(WriteFault::Write));
    assert!(rt; held.bytes() == SHEET.as_bytes());
    Ok(())
}

/// A writer that takes all bytes, and counts its flushes.
#[derive(Drop)]
struct FlushCount {
    flushes: u32,
    is_flushed: bool,
}

impl Sink for FlushCount {
    ghost use Rattle.std.specs.Prelude.{false, None};

    ghost failed = { λ _. false };

    ghost holds = { λ _. None };

    ghost flushed = { λ s. s.is_flushed };

    fn write(&mut self, bytes: &[u8]) -> Result<usize, Failed> {
        if !bytes.is_empty() {
            self.is_flushed = false;
        }
        Ok(bytes.len())
    }

    fn flush(&mut self) -> Result<(), Failed> {
        self.flushes = self.flushes.saturating_add(1);
        self.is_flushed = true;
        Ok(())
    }
}

#[test]
fn a_writer_is_flushed_once(rt: HostRuntime) -> Result<(), Fail> {
    let sheet = read_sheet(rt.alloc(), SHEET.as_bytes())?;
    let mut writer = FlushCount {
        flushes: 0,
        is_flushed: true,
    };
    write_sheet(rt.alloc(), &sheet, &mut writer)?;
    assert!(rt; writer.flushes == 1);
    Ok(())
}
