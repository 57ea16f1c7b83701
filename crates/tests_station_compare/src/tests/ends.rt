//! Readers that fail or end once and writers that fail once, and go on after, at both commands.

use super::{S1, in_unit, limits};
use byte_ends::{Held, OfRead, OfWrite, Script, Sink, Source};
use direction_table::{AngleUnit, Decimals};
use row_forms::RowForm;
use station_answers::{Directions, run_answer};
use std::alloc::Global;
use std::process::Abort;
use std::test::Fail;
use table_answers::run_compare;
use test_support::{Recovers, Resumes};

/// Bytes that a sink has room for where no test wants less.
const AMPLE: usize = 20_000;

/// How many bytes the writers that fail take at a time.
const STEP: usize = 7;

/// A table that agrees with S1.
const TABLE: &[u8] = b"A,0\nB,50.00003\n";

/// The line of its agreement.
const AGREES: &[u8] =
    b"agrees S1: 2 sets, 2 targets, within 0.000 mgon, limit 0.010 mgon, greatest residual 0.005 mgon\n";

/// The least-squares directions of S1.
const DIRECTIONS: &[u8] = b"A,0.000000\nB,50.000030\n";

/// A command over S1: directions within the usual limit, or written with 6 decimals.
#[derive(Clone, Copy, Debug)]
enum Command {
    Compare,
    Directions,
}

impl Command {
    /// The status of a run of the command over these ends.
    fn run<R: Source, Q: Source, W: Sink, E: Sink>(
        self,
        rt: &impl Abort,
        alloc: Global,
        gsi: R,
        table: &mut Q,
        out: &mut W,
        err: &mut E,
    ) -> u8 {
        let limits = limits(rt);
        match self {
            Command::Compare => run_compare(
                alloc,
                gsi,
                table,
                in_unit(AngleUnit::Gon),
                b"S1",
                limits,
                None,
                out,
                err,
            ),
            Command::Directions => {
                let asked = Directions {
                    decimals: Decimals::new(6).expect(rt, "decimals"),
                    form: RowForm::Commas,
                };
                run_answer(alloc, gsi, b"S1", limits, &asked, out, err)
            }
        }
    }

    /// What a run over S1 and the table prints.
    fn text(self) -> &'static [u8] {
        match self {
            Command::Compare => AGREES,
            Command::Directions => DIRECTIONS,
        }
    }
}

/// A run printed its text alone, or else this refusal alone, and its status says which.
fn expect_answer(
    rt: &impl Abort,
    command: Command,
    status: u8,
    out: &Held,
    err: &Held,
    refused: &[u8],
) {
    let is_refused = !refused.is_empty();
    let printed: &[u8] = if is_refused { b"" } else { command.text() };
    assert_eq!(rt; out.bytes(), printed, "{command:?}");
    assert_eq!(rt; err.bytes(), refused, "{command:?}");
    assert_eq!(rt; status, u8::from(is_refused), "{command:?}");
}

/// A run over this field file and the table answers so, and does not read on after the file.
fn expect_of_field_file(
    rt: &impl Abort,
    alloc: Global,
    command: Command,
    text: &[u8],
    fails: bool,
) -> Result<(), Fail> {
    let mut reader = Recovers::new(text, fails);
    let mut table = Script::new(TABLE, AMPLE, false);
    let mut out = Held::new(alloc, AMPLE, AMPLE, false)?;
    let mut err = Held::new(alloc, AMPLE, AMPLE, false)?;
    let gsi = OfRead::new(&mut reader);
    let status = command.run(rt, alloc, gsi, &mut table, &mut out, &mut err);
    let refused: &[u8] = if fails {
        b"refused: block 13: Read\n"
    } else {
        b""
    };
    expect_answer(rt, command, status, &out, &err, refused);
    assert_eq!(rt; reader.asked_on, 0, "{command:?}");
    Ok(())
}

/// A run over S1 and this table answers so, and does not read on after the table.
fn expect_of_table(
    rt: &impl Abort,
    alloc: Global,
    command: Command,
    text: &[u8],
    fails: bool,
) -> Result<(), Fail> {
    let mut reader = Recovers::new(text, fails);
    let mut table = OfRead::new(&mut reader);
    let mut out = Held::new(alloc, AMPLE, AMPLE, false)?;
    let mut err = Held::new(alloc, AMPLE, AMPLE, false)?;
    let gsi = Script::new(S1, AMPLE, false);
    let status = command.run(rt, alloc, gsi, &mut table, &mut out, &mut err);
    drop(table);
    let refused: &[u8] = if fails && matches!(command, Command::Compare) {
        b"refused: table: Read\n"
    } else {
        b""
    };
    expect_answer(rt, command, status, &out, &err, refused);
    assert_eq!(rt; reader.asked_on, 0, "{command:?}");
    Ok(())
}

#[test]
fn a_run_over_a_reader_that_broke_off_or_ended_does_not_read_on(
    rt: HostRuntime,
) -> Result<(), Fail> {
    let alloc = rt.alloc();
    let blank_lines = "\n".repeat(alloc, 9_000)?;
    for blank in [b"".as_slice(), blank_lines.as_bytes()] {
        let file = [S1, blank].concat(alloc)?;
        let table = [TABLE, blank].concat(alloc)?;
        for command in [Command::Compare, Command::Directions] {
            for fails in [false, true] {
                expect_of_field_file(&rt, alloc, command, &file, fails)?;
                expect_of_table(&rt, alloc, command, &table, fails)?;
            }
        }
    }
    Ok(())
}

#[test]
fn a_writer_that_failed_once_is_not_written_on(rt: HostRuntime) -> Result<(), Fail> {
    let alloc = rt.alloc();
    let failed: &[u8] = b"refused: write failed\n";
    let word: &[u8] = b"refused: block 1: Word 1\n";
    for command in [Command::Compare, Command::Directions] {
        // The last call is the flush.
        for calls in 0..=command.text().len().div_ceil(STEP) {
            let mut writer = Resumes::new(calls, STEP);
            let mut out = OfWrite::new(&mut writer);
            let mut err = Held::new(alloc, AMPLE, AMPLE, false).map_err(|_| "no memory")?;
            let gsi = Script::new(S1, AMPLE, false);
            let mut table = Script::new(TABLE, AMPLE, false);
            let status = command.run(&rt, alloc, gsi, &mut table, &mut out, &mut err);
            drop(out);
            assert_eq!(rt; status, 1, "{command:?}");
            assert_eq!(rt; err.bytes(), failed, "{command:?}");
            let bytes = command.text().len().min(calls.saturating_mul(STEP));
            assert_eq!(rt; (writer.bytes, writer.asked_on), (bytes, 0), "{command:?}");
        }
        // The line of a refusal is lost from there on.
        for calls in 0..word.len().div_ceil(STEP) {
            let mut writer = Resumes::new(calls, STEP);
            let mut err = OfWrite::new(&mut writer);
            let mut out = Held::new(alloc, AMPLE, AMPLE, false).map_err(|_| "no memory")?;
            let gsi = Script::new(b"5", AMPLE, false);
            let mut table = Script::new(TABLE, AMPLE, false);
            let status = command.run(&rt, alloc, gsi, &mut table, &mut out, &mut err);
            drop(err);
            assert_eq!(rt; (status, out.bytes().len()), (1, 0), "{command:?}");
            let bytes = calls.saturating_mul(STEP);
            assert_eq!(rt; (writer.bytes, writer.asked_on), (bytes, 0), "{command:?}");
        }
    }
    Ok(())
}
