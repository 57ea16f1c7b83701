//! Readers that fail or never end, and writers that fail, at the check, the list and the means.

use super::answers::{AMPLE, Command, usual_limits};
use super::files::{
    ACCEPTED, Endless, LIST, Noted, SHEET, STATION, THREE_LINES, THREE_LINES_WORDS,
    with_blank_lines,
};
use byte_ends::{Held, OfRead, OfWrite, Script};
use gsi_file::{FileFault, FileKind};
use sheet_format::{LONGEST_SHEET, RowKind, SheetFault};
use station_check::{
    Fault, check_bytes, run_check, run_list, write_list, write_means, write_words,
};
use std::alloc::Global;
use std::process::Abort;
use std::test::Fail;
use test_support::{Broken, Recovers, Resumes, Stuck};

/// A field file that is read in pieces.
fn in_pieces(gsi: &[u8]) -> Script<'_> {
    Script::new(gsi, 100, false)
}

/// A field file whose read fails after these bytes.
fn broken_off(gsi: &[u8]) -> Script<'_> {
    Script::new(gsi, 10, true)
}

#[test]
fn a_field_file_that_breaks_off_is_refused_and_nothing_is_written(
    rt: HostRuntime,
) -> Result<(), Fail> {
    let limits = usual_limits()?;
    let mut out = Held::new(rt.alloc(), AMPLE, AMPLE, false)?;
    let mut number: u32 = 1;
    for given in 0..=STATION.len() {
        if given > 0 && STATION[given - 1] == b'\r' {
            number = number.saturating_add(1);
        }
        let fault = Fault::Gsi(FileFault::At(number, FileKind::Read));
        let begin = &STATION[..given];
        let mut sheet = Script::new(SHEET, 10, false);
        let verdict = check_bytes(rt.alloc(), broken_off(begin), &mut sheet, limits, None);
        assert_eq!(rt; verdict, Err(fault), "check after {given} bytes");
        let listed = write_list(rt.alloc(), broken_off(begin), limits, &mut out);
        assert_eq!(rt; listed, Err(fault), "list after {given} bytes");
        let written = write_means(rt.alloc(), broken_off(begin), b"S1", limits, &mut out);
        assert_eq!(rt; written, Err(fault), "means after {given} bytes");
    }
    assert!(rt; out.bytes().is_empty());
    Ok(())
}

#[test]
fn a_sheet_that_breaks_off_is_refused(rt: HostRuntime) -> Result<(), Fail> {
    for given in 0..=SHEET.len() {
        let gsi = Script::new(STATION, AMPLE, false);
        let mut sheet = Script::new(&SHEET[..given], 10, true);
        let verdict = check_bytes(rt.alloc(), gsi, &mut sheet, usual_limits()?, None);
        assert_eq!(rt; verdict, Err(Fault::SheetRead), "after {given} bytes");
    }
    Ok(())
}

/// Checks the station with such a sheet, whose reader is not asked after an end or a failure.
fn checks_no_further(
    rt: &impl Abort,
    alloc: Global,
    text: &[u8],
    fails: bool,
    fault: Option<Fault>,
) -> Result<(), Fail> {
    let mut reader = Recovers::new(text, fails);
    let mut sheet = OfRead::new(&mut reader);
    let gsi = Script::new(STATION, AMPLE, false);
    let verdict = check_bytes(alloc, gsi, &mut sheet, usual_limits()?, None);
    drop(sheet);
    assert_eq!(rt; verdict.err(), fault, "{} bytes", text.len());
    assert_eq!(rt; reader.asked_on, 0, "{} bytes", text.len());
    Ok(())
}

/// The same of the command, which prints this or refuses with this line.
fn runs_no_further(
    rt: &impl Abort,
    alloc: Global,
    text: &[u8],
    fails: bool,
    printed: &[u8],
    refused: &[u8],
) -> Result<(), Fail> {
    let mut reader = Recovers::new(text, fails);
    let mut sheet = OfRead::new(&mut reader);
    let gsi = Script::new(STATION, AMPLE, false);
    let mut out = Held::new(alloc, AMPLE, AMPLE, false)?;
    let mut err = Held::new(alloc, AMPLE, AMPLE, false)?;
    let status = Command::Check.run(alloc, gsi, &mut sheet, &mut out, &mut err)?;
    drop(sheet);
    assert_eq!(rt; out.bytes(), printed, "run over {} bytes", text.len());
    assert_eq!(rt; err.bytes(), refused, "run over {} bytes", text.len());
    assert_eq!(rt; status, u8::from(printed.is_empty()));
    assert_eq!(rt; reader.asked_on, 0, "run over {} bytes", text.len());
    Ok(())
}

#[test]
fn a_sheet_that_broke_off_or_ended_is_not_read_on(rt: HostRuntime) -> Result<(), Fail> {
    let alloc = rt.alloc();
    let fields = Fault::Sheet(SheetFault::Row(1, RowKind::Fields));
    let long = with_blank_lines(alloc, SHEET)?;
    let rows: [(&[u8], Option<Fault>, &[u8], &[u8]); 3] = [
        (b"5", Some(fields), b"", b"refused: sheet row 1: Fields\n"),
        (SHEET, None, ACCEPTED, b""),
        (long.as_slice(), None, ACCEPTED, b""),
    ];
    for (text, fault, printed, refused) in rows {
        checks_no_further(&rt, alloc, text, false, fault)?;
        runs_no_further(&rt, alloc, text, false, printed, refused)?;
        checks_no_further(&rt, alloc, text, true, Some(Fault::SheetRead))?;
        runs_no_further(&rt, alloc, text, true, b"", b"refused: sheet: Read\n")?;
    }
    Ok(())
}

#[test]
fn a_field_file_that_broke_off_or_ended_is_not_read_on(rt: HostRuntime) -> Result<(), Fail> {
    let alloc = rt.alloc();
    let limits = usual_limits()?;
    let no_word = Fault::Gsi(FileFault::At(1, FileKind::Word(1)));
    let long = with_blank_lines(alloc, STATION)?;
    let rows: [(&[u8], u32, Option<Fault>); 3] = [
        (b"5", 1, Some(no_word)),
        (STATION, 13, None),
        (long.as_slice(), 13, None),
    ];
    for (text, next, of_text) in rows {
        for fails in [false, true] {
            let broken_off = Fault::Gsi(FileFault::At(next, FileKind::Read));
            let fault = if fails { Some(broken_off) } else { of_text };
            let mut out = Held::new(alloc, AMPLE, AMPLE, false)?;

            let mut reader = Recovers::new(text, fails);
            let mut sheet = Script::new(SHEET, AMPLE, false);
            let verdict = check_bytes(alloc, OfRead::new(&mut reader), &mut sheet, limits, None);
            assert_eq!(rt; verdict.err(), fault, "check of {} bytes", text.len());
            assert_eq!(rt; reader.asked_on, 0, "check of {} bytes", text.len());

            let mut reader = Recovers::new(text, fails);
            let listed = write_list(alloc, OfRead::new(&mut reader), limits, &mut out);
            assert_eq!(rt; listed.err(), fault, "list of {} bytes", text.len());
            assert_eq!(rt; reader.asked_on, 0, "list of {} bytes", text.len());

            let mut reader = Recovers::new(text, fails);
            let meant = write_means(alloc, OfRead::new(&mut reader), b"S1", limits, &mut out);
            assert_eq!(rt; meant.err(), fault, "means of {} bytes", text.len());
            assert_eq!(rt; reader.asked_on, 0, "means of {} bytes", text.len());

            let mut reader = Recovers::new(text, fails);
            let words = write_words(alloc, OfRead::new(&mut reader), &mut out);
            assert_eq!(rt; words.err(), fault, "words of {} bytes", text.len());
            assert_eq!(rt; reader.asked_on, 0, "words of {} bytes", text.len());
        }
    }
    Ok(())
}

/// How many bytes the writers that fail once take at a time.
const STEP: usize = 7;

/// A command over a field file, what it writes where the file ends, and what it has written and the
/// line of its refusal where the read after the last byte fails.
#[derive(Clone, Copy)]
struct Run {
    command: Command,
    gsi: &'static [u8],
    text: &'static [u8],
    written: &'static [u8],
    refused: &'static [u8],
}

/// A command that writes nothing before it has read the whole field file.
fn run_of_all(command: Command, text: &'static [u8]) -> Run {
    Run {
        command,
        gsi: STATION,
        text,
        written: b"",
        refused: b"refused: block 13: Read\n",
    }
}

fn runs() -> [Run; 4] {
    [
        run_of_all(Command::Check, ACCEPTED),
        run_of_all(Command::Means, SHEET),
        run_of_all(Command::List, LIST),
        Run {
            command: Command::Words,
            gsi: &STATION[..THREE_LINES],
            text: THREE_LINES_WORDS,
            written: THREE_LINES_WORDS,
            refused: b"refused: block 4: Read\n",
        },
    ]
}

#[test]
fn a_run_over_a_field_file_that_broke_off_or_ended_does_not_read_on(
    rt: HostRuntime,
) -> Result<(), Fail> {
    let alloc = rt.alloc();
    for run in runs() {
        let long = with_blank_lines(alloc, run.gsi)?;
        for gsi in [run.gsi, long.as_slice()] {
            for fails in [false, true] {
                let mut reader = Recovers::new(gsi, fails);
                let mut sheet = Script::new(SHEET, AMPLE, false);
                let mut out = Held::new(alloc, AMPLE, AMPLE, false)?;
                let mut err = Held::new(alloc, AMPLE, AMPLE, false)?;
                let read = OfRead::new(&mut reader);
                let status = run
                    .command
                    .run(alloc, read, &mut sheet, &mut out, &mut err)?;
                let printed = if fails { run.written } else { run.text };
                let refused = if fails { run.refused } else { b"" };
                assert_eq!(rt; status, u8::from(fails), "{:?}", run.command);
                assert_eq!(rt; out.bytes(), printed, "{:?}", run.command);
                assert_eq!(rt; err.bytes(), refused, "{:?}", run.command);
                assert_eq!(rt; reader.asked_on, 0, "{:?}", run.command);
            }
        }
    }
    Ok(())
}

#[test]
fn a_writer_that_failed_once_is_not_written_on(rt: HostRuntime) -> Result<(), Fail> {
    let alloc = rt.alloc();
    // The words of 3,000 lines are three pages; each goes out by a call of its own.
    let many = "110001+0000000A\n".repeat(alloc, 3_000)?;
    for run in runs() {
        // The last call is the flush.
        for calls in 0..=run.text.len().div_ceil(STEP) {
            let mut writer = Resumes::new(calls, STEP);
            stops(&rt, alloc, run.command, run.gsi, &mut writer)?;
            assert_eq!(rt;
                writer.bytes,
                run.text.len().min(calls.saturating_mul(STEP))
            );
        }
    }
    for calls in 0..=3 {
        stops(
            &rt,
            alloc,
            Command::Words,
            many.as_bytes(),
            &mut Resumes::new(calls, AMPLE),
        )?;
    }
    // The line of a refusal is lost from there on.
    let line = b"refused: block 1: Word 1\n";
    for run in runs() {
        for calls in 0..line.len().div_ceil(STEP) {
            let mut writer = Resumes::new(calls, STEP);
            let mut err = OfWrite::new(&mut writer);
            let mut out = Held::new(alloc, AMPLE, AMPLE, false)?;
            let mut sheet = Script::new(SHEET, AMPLE, false);
            let gsi = Script::new(b"5", AMPLE, false);
            let status = run.command.run(alloc, gsi, &mut sheet, &mut out, &mut err)?;
            drop(err);
            assert_eq!(rt; (status, out.bytes().len()), (1, 0), "{:?}", run.command);
            assert_eq!(rt;
                (writer.bytes, writer.asked_on),
                (calls.saturating_mul(STEP), 0)
            );
        }
    }
    Ok(())
}

/// Runs a command whose writer fails once: it is refused for that, and the writer not asked again.
fn stops(
    rt: &impl Abort,
    alloc: Global,
    command: Command,
    gsi: &[u8],
    writer: &mut Resumes,
) -> Result<(), Fail> {
    let mut sheet = Script::new(SHEET, AMPLE, false);
    let mut out = OfWrite::new(&mut *writer);
    let mut err = Held::new(alloc, AMPLE, AMPLE, false)?;
    let status = command.run(alloc, in_pieces(gsi), &mut sheet, &mut out, &mut err)?;
    drop(out);
    assert_eq!(rt; status, 1, "{command:?}");
    assert_eq!(rt;
        err.bytes(),
        b"refused: write failed\n".as_slice(),
        "{command:?}"
    );
    assert_eq!(rt; writer.asked_on, 0, "{command:?}");
    Ok(())
}

#[test]
fn a_sheet_has_so_many_bytes(rt: HostRuntime) -> Result<(), Fail> {
    let rows: [(usize, bool, Fault); 4] = [
        (LONGEST_SHEET, true, Fault::SheetRead),
        (
            LONGEST_SHEET,
            false,
            Fault::Sheet(SheetFault::Row(1, RowKind::Fields)),
        ),
        (LONGEST_SHEET + 1, true, Fault::Sheet(SheetFault::TooLong)),
        (LONGEST_SHEET + 1, false, Fault::Sheet(SheetFault::TooLong)),
    ];
    for (bytes, fails, fault) in rows {
        let blanks = " ".repeat(rt.alloc(), bytes)?;
        let gsi = Script::new(STATION, AMPLE, false);
        let mut sheet = Script::new(blanks.as_bytes(), 5_000, fails);
        let verdict = check_bytes(rt.alloc(), gsi, &mut sheet, usual_limits()?, None);
        assert_eq!(rt; verdict, Err(fault), "{bytes} bytes");
    }
    let gsi = Script::new(STATION, AMPLE, false);
    let mut endless = OfRead::new(Endless::new(b" ", 1));
    let verdict = check_bytes(rt.alloc(), gsi, &mut endless, usual_limits()?, None);
    assert_eq!(rt; verdict, Err(Fault::Sheet(SheetFault::TooLong)));
    assert!(rt; endless.into_inner().asked <= 1_048_577);
    Ok(())
}

#[test]
fn a_writer_that_fails_has_got_the_first_bytes(rt: HostRuntime) -> Result<(), Fail> {
    let limits = usual_limits()?;
    for room in 0..LIST.len() {
        for step in [1, AMPLE] {
            let mut out = Held::new(rt.alloc(), room, step, false)?;
            let answer = write_list(rt.alloc(), in_pieces(STATION), limits, &mut out);
            assert_eq!(rt; answer, Err(Fault::Write), "room for {room} bytes");
            assert_eq!(rt; out.bytes(), &LIST[..room]);
        }
    }
    for room in 0..SHEET.len() {
        let mut out = Held::new(rt.alloc(), room, 7, false)?;
        let answer = write_means(rt.alloc(), in_pieces(STATION), b"S1", limits, &mut out);
        assert_eq!(rt; answer, Err(Fault::Write), "room for {room} bytes");
        assert_eq!(rt; out.bytes(), &SHEET[..room]);
    }
    for room in 0..ACCEPTED.len() {
        let mut out = Held::new(rt.alloc(), room, 7, false)?;
        let mut err = Held::new(rt.alloc(), AMPLE, 1, false)?;
        let mut sheet = Script::new(SHEET, 1, false);
        let status = run_check(
            rt.alloc(),
            in_pieces(STATION),
            &mut sheet,
            limits,
            None,
            &mut out,
            &mut err,
        );
        assert_eq!(rt; status, 1, "room for {room} bytes");
        assert_eq!(rt; out.bytes(), &ACCEPTED[..room]);
        assert_eq!(rt; err.bytes(), b"refused: write failed\n".as_slice());
    }
    Ok(())
}

#[test]
fn a_flush_that_fails_is_a_write_fault_with_the_whole_text_gone_out(
    rt: HostRuntime,
) -> Result<(), Fail> {
    let limits = usual_limits()?;
    let mut out = Held::new(rt.alloc(), AMPLE, AMPLE, true)?;
    assert_eq!(rt;
        write_list(rt.alloc(), in_pieces(STATION), limits, &mut out),
        Err(Fault::Write)
    );
    assert_eq!(rt; out.bytes(), LIST);
    let mut out = Held::new(rt.alloc(), AMPLE, AMPLE, true)?;
    assert_eq!(rt;
        write_means(rt.alloc(), in_pieces(STATION), b"S1", limits, &mut out),
        Err(Fault::Write)
    );
    assert_eq!(rt; out.bytes(), SHEET);
    let mut out = Held::new(rt.alloc(), AMPLE, AMPLE, true)?;
    let mut err = Held::new(rt.alloc(), AMPLE, AMPLE, false)?;
    let mut sheet = Script::new(SHEET, 100, false);
    let status = run_check(
        rt.alloc(),
        in_pieces(STATION),
        &mut sheet,
        limits,
        None,
        &mut out,
        &mut err,
    );
    assert_eq!(rt; (status, out.bytes()), (1, ACCEPTED));
    assert_eq!(rt; err.bytes(), b"refused: write failed\n".as_slice());
    Ok(())
}

#[test]
fn the_list_is_flushed_once_after_its_last_byte(rt: HostRuntime) -> Result<(), Fail> {
    let rows: [(&[u8], usize, usize); 3] = [(STATION, LIST.len(), 1), (b"", 0, 1), (b"5", 0, 0)];
    for (gsi, bytes, flushes) in rows {
        let mut noted = Noted::new();
        let gsi = Script::new(gsi, 100, false);
        let _ = write_list(
            rt.alloc(),
            gsi,
            usual_limits()?,
            &mut OfWrite::new(&mut noted),
        );
        assert_eq!(rt; noted.bytes, bytes);
        assert_eq!(rt; noted.flushes, flushes);
        assert_eq!(rt; noted.is_flushed, flushes == 1);
    }
    Ok(())
}

#[test]
fn the_sheet_of_means_is_flushed_once_after_its_last_byte(rt: HostRuntime) -> Result<(), Fail> {
    let rows: [(&[u8], usize, usize); 3] = [(STATION, SHEET.len(), 1), (b"", 0, 0), (b"5", 0, 0)];
    for (gsi, bytes, flushes) in rows {
        let mut noted = Noted::new();
        let gsi = Script::new(gsi, 100, false);
        let _ = write_means(
            rt.alloc(),
            gsi,
            b"S1",
            usual_limits()?,
            &mut OfWrite::new(&mut noted),
        );
        assert_eq!(rt; noted.bytes, bytes);
        assert_eq!(rt; noted.flushes, flushes);
        assert_eq!(rt; noted.is_flushed, flushes == 1);
    }
    Ok(())
}

#[test]
fn the_line_of_an_acceptance_is_flushed_once(rt: HostRuntime) -> Result<(), Fail> {
    let rows: [(&[u8], usize, usize); 2] = [(STATION, ACCEPTED.len(), 1), (b"", 0, 0)];
    for (gsi, bytes, flushes) in rows {
        let mut noted = Noted::new();
        let mut err = Held::new(rt.alloc(), AMPLE, AMPLE, false)?;
        let gsi = Script::new(gsi, 100, false);
        let mut sheet = Script::new(SHEET, 100, false);
        let _ = run_check(
            rt.alloc(),
            gsi,
            &mut sheet,
            usual_limits()?,
            None,
            &mut OfWrite::new(&mut noted),
            &mut err,
        );
        assert_eq!(rt; noted.bytes, bytes);
        assert_eq!(rt; noted.flushes, flushes);
        assert_eq!(rt; noted.is_flushed, flushes == 1);
    }
    Ok(())
}

#[test]
fn writers_of_std_that_fail_are_named(rt: HostRuntime) -> Result<(), Fail> {
    let mut err = Held::new(rt.alloc(), AMPLE, AMPLE, false)?;
    let gsi = Script::new(STATION, 100, false);
    let mut broken = OfWrite::new(Broken);
    let status = run_list(rt.alloc(), gsi, usual_limits()?, &mut broken, &mut err);
    assert_eq!(rt; status, 1);
    assert_eq!(rt; err.bytes(), b"refused: write failed\n".as_slice());
    let gsi = Script::new(STATION, 100, false);
    let mut stuck = OfWrite::new(Stuck);
    let answer = write_means(rt.alloc(), gsi, b"S1", usual_limits()?, &mut stuck);
    assert_eq!(rt; answer, Err(Fault::Write));
    Ok(())
}

#[test]
fn a_reader_of_a_sheet_that_fails_is_named_after_the_field_file(
    rt: HostRuntime,
) -> Result<(), Fail> {
    let rows: [(&[u8], &[u8]); 2] = [
        (STATION, b"refused: sheet: Read\n"),
        (b"110001+0000000A\n5", b"refused: block 2: Word 1\n"),
    ];
    for (gsi, line) in rows {
        let mut out = Held::new(rt.alloc(), AMPLE, AMPLE, false)?;
        let mut err = Held::new(rt.alloc(), AMPLE, AMPLE, false)?;
        let gsi = Script::new(gsi, 100, false);
        let mut sheet = OfRead::new(Broken);
        let limits = usual_limits()?;
        let status = run_check(
            rt.alloc(),
            gsi,
            &mut sheet,
            limits,
            None,
            &mut out,
            &mut err,
        );
        assert_eq!(rt; status, 1);
        assert_eq!(rt; err.bytes(), line);
        assert!(rt; out.bytes().is_empty());
    }
    Ok(())
}

#[test]
fn a_failing_err_changes_no_status(rt: HostRuntime) -> Result<(), Fail> {
    let mut out = Held::new(rt.alloc(), AMPLE, AMPLE, false)?;
    let mut err = OfWrite::new(Broken);
    let gsi = Script::new(STATION, 100, false);
    let mut sheet = Script::new(b"", 100, false);
    let limits = usual_limits()?;
    let status = run_check(
        rt.alloc(),
        gsi,
        &mut sheet,
        limits,
        None,
        &mut out,
        &mut err,
    );
    assert_eq!(rt; status, 1);
    assert!(rt; out.bytes().is_empty());
    Ok(())
}
