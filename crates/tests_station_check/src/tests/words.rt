//! The words of field files, by `run_words` and `write_words`.

ghost use Rattle.std.specs.Prelude.{◌<◌};

use super::files::{Endless, Noted, STATION, THREE_LINES, THREE_LINES_WORDS};
use byte_ends::{Held, OfRead, OfWrite, Script};
use gsi_file::{FileFault, FileKind};
use station_check::{Fault, run_words, write_words};
use std::alloc::Global;
use std::test::Fail;
use test_support::{Broken, Stuck};

/// Bytes that a sink has room for where no test wants less.
const AMPLE: usize = 4_000;

/// The status of a run over these bytes, what went out, and what was refused.
fn run(alloc: Global, gsi: &[u8], step: usize) -> Result<(u8, Held, Held), Fail>
    requires { 0 < step }
{
    let mut out = Held::new(alloc, AMPLE, step, false)?;
    let mut err = Held::new(alloc, AMPLE, step, false)?;
    let status = run_words(alloc, Script::new(gsi, step, false), &mut out, &mut err);
    Ok((status, out, err))
}

#[test]
fn the_first_lines_give_their_words_however_bytes_are_cut(rt: HostRuntime) -> Result<(), Fail> {
    for step in [1, 2, 3, 7, AMPLE] {
        let (status, out, err) = run(rt.alloc(), &STATION[..THREE_LINES], step)?;
        assert_eq!(rt; status, 0, "{step} bytes a call");
        assert_eq!(rt; out.bytes(), THREE_LINES_WORDS, "{step} bytes a call");
        assert!(rt; err.bytes().is_empty(), "{step} bytes a call");
    }
    Ok(())
}

#[test]
fn a_refusal_names_the_first_fault_after_the_words_before_it(rt: HostRuntime) -> Result<(), Fail> {
    let rows: [(&[u8], &[u8], &[u8]); 9] = [
        (b"", b"", b""),
        (b"\r\n   \r\n", b"", b""),
        (
            b"410001+00000010 42....+000000S1\r\n510002+00000000\r\n\
              110003+0000000A 21.102+00000000 22.102+10000000\r\n",
            b"1 1 41 0001 +00000010\n1 2 42 .... +000000S1\n",
            b"refused: block 2: FirstWord\n",
        ),
        (
            b"\r\n410001+00000010 42....+000000S1\r\n510002+00000000\r\n\
              110003+0000000A 21.102+00000000 22.102+10000000\r\n",
            b"1 1 41 0001 +00000010\n1 2 42 .... +000000S1\n",
            b"refused: block 2: FirstWord\n",
        ),
        (
            b"410001+00000010\n110002+0000000A 21.102+20000006 22.102+2999",
            b"1 1 41 0001 +00000010\n",
            b"refused: block 2: Word 3\n",
        ),
        (
            b"110001+0000000A\t21.102+00000000",
            b"",
            b"refused: block 1: Byte 16\n",
        ),
        (b"510001+00000000", b"", b"refused: block 1: FirstWord\n"),
        (
            b"*410001+0000000000000010 42....+00000000000000S1",
            b"1 1 41 0001 +0000000000000010\n1 2 42 .... +00000000000000S1\n",
            b"",
        ),
        (
            b"410001+00000010 42....+000000S1\r*410002+0000000000000020 42....+0000000000000001",
            b"1 1 41 0001 +00000010\n1 2 42 .... +000000S1\n\
              2 1 41 0002 +0000000000000020\n2 2 42 .... +0000000000000001\n",
            b"",
        ),
    ];
    for (gsi, words, refusal) in rows {
        let (status, out, err) = run(rt.alloc(), gsi, 5)?;
        assert_eq!(rt; out.bytes(), words);
        assert_eq!(rt; err.bytes(), refusal);
        assert_eq!(rt; status, if refusal.is_empty() { 0 } else { 1 });
    }
    Ok(())
}

#[test]
fn a_reader_that_fails_is_refused_at_the_first_line_that_had_not_ended(
    rt: HostRuntime,
) -> Result<(), Fail> {
    let mut number: u32 = 1;
    for given in 0..=STATION.len() {
        if given > 0 && STATION[given - 1] == b'\r' {
            number = number.saturating_add(1);
        }
        let mut out = Held::new(rt.alloc(), AMPLE, AMPLE, false)?;
        let gsi = Script::new(&STATION[..given], 10, true);
        let answer = write_words(rt.alloc(), gsi, &mut out);
        let fault = FileFault::At(number, FileKind::Read);
        assert_eq!(rt; answer, Err(Fault::Gsi(fault)), "after {given} bytes");
    }
    assert_eq!(rt; number, 13);
    Ok(())
}

#[test]
fn a_writer_that_fails_has_got_the_first_bytes(rt: HostRuntime) -> Result<(), Fail> {
    let gsi = &STATION[..THREE_LINES];
    for room in 0..THREE_LINES_WORDS.len() {
        for step in [1, 7, AMPLE] {
            let mut out = Held::new(rt.alloc(), room, step, false)?;
            let answer = write_words(rt.alloc(), Script::new(gsi, 100, false), &mut out);
            assert_eq!(rt; answer, Err(Fault::Write), "room for {room} bytes");
            assert_eq!(rt; out.bytes(), &THREE_LINES_WORDS[..room]);
        }
    }
    Ok(())
}

#[test]
fn a_flush_that_fails_is_a_write_fault_with_the_whole_text_gone_out(
    rt: HostRuntime,
) -> Result<(), Fail> {
    let whole = &STATION[..THREE_LINES];
    for (gsi, words) in [
        (whole, THREE_LINES_WORDS),
        (b"".as_slice(), b"".as_slice()),
        (b"5", b""),
    ] {
        let mut out = Held::new(rt.alloc(), AMPLE, AMPLE, true)?;
        let answer = write_words(rt.alloc(), Script::new(gsi, 100, false), &mut out);
        assert_eq!(rt; answer, Err(Fault::Write));
        assert_eq!(rt; out.bytes(), words);
    }
    Ok(())
}

#[test]
fn the_writer_is_flushed_once_after_the_last_byte(rt: HostRuntime) -> Result<(), Fail> {
    // The words of 3,000 lines, more than two pages: 21 bytes beside the number of the line, whose
    // digits are 10,893.
    let many = "110001+0000000A\n".repeat(rt.alloc(), 3_000)?;
    let rows: [(&[u8], usize); 4] = [
        (&STATION[..THREE_LINES], THREE_LINES_WORDS.len()),
        (b"", 0),
        (b"410001+00000010\n5", 22),
        (many.as_bytes(), 73_893),
    ];
    for (gsi, bytes) in rows {
        let mut noted = Noted::new();
        let _ = write_words(rt.alloc(), OfRead::new(gsi), &mut OfWrite::new(&mut noted));
        assert_eq!(rt; noted.bytes, bytes);
        assert_eq!(rt; noted.flushes, 1);
        assert!(rt; noted.is_flushed);
    }
    Ok(())
}

#[test]
fn ends_of_std_that_fail_are_named_and_a_failing_err_changes_no_status(
    rt: HostRuntime,
) -> Result<(), Fail> {
    let gsi = &STATION[..THREE_LINES];
    let mut out = Held::new(rt.alloc(), AMPLE, AMPLE, false)?;
    let mut err = Held::new(rt.alloc(), AMPLE, AMPLE, false)?;
    let status = run_words(rt.alloc(), OfRead::new(Broken), &mut out, &mut err);
    assert_eq!(rt; status, 1);
    assert_eq!(rt; err.bytes(), b"refused: block 1: Read\n".as_slice());
    assert!(rt; out.bytes().is_empty());
    assert_eq!(rt;
        write_words(rt.alloc(), OfRead::new(gsi), &mut OfWrite::new(Broken)),
        Err(Fault::Write)
    );
    assert_eq!(rt;
        write_words(rt.alloc(), OfRead::new(gsi), &mut OfWrite::new(Stuck)),
        Err(Fault::Write)
    );
    let status = run_words(
        rt.alloc(),
        OfRead::new(Broken),
        &mut out,
        &mut OfWrite::new(Broken),
    );
    assert_eq!(rt; status, 1);
    Ok(())
}

/// Files of 16 MB, for which the watched build of `rt try --test` needs longer than it is given. No
/// reader is asked more often than for each byte of the largest file, and one.
#[test]
fn a_reader_without_an_end_is_refused(rt: HostRuntime) -> Result<(), Fail> {
    let rows: [(&'static [u8], usize, u32, FileKind); 3] = [
        (b"A", 100, 1, FileKind::LineTooLong),
        (b"\n", 1, 1, FileKind::FileTooLong),
        (
            b"110001+0000000A\n",
            5_000,
            1_048_577,
            FileKind::FileTooLong,
        ),
    ];
    for (text, most, number, kind) in rows {
        let mut gsi = OfRead::new(Endless::new(text, most));
        let answer = write_words(rt.alloc(), &mut gsi, &mut OfWrite::new(std::io::sink()));
        assert_eq!(rt; answer, Err(Fault::Gsi(FileFault::At(number, kind))));
        assert!(rt; gsi.into_inner().asked <= 16_777_217);
    }
    Ok(())
}
