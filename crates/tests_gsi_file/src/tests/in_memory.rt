//! Lines in memory beside a plain program over the same bytes, with their places; and how the lines
//! beside a place end.

use super::{TEXTS, WORKED, is_same, judged};
use gsi_file::{FileFault, FileKind, LONGEST_FILE, LONGEST_LINE, LineEnd, MemoryLines, end_beside};
use gsi_word::read_block;
use std::alloc::Global;
use std::process::Abort;
use std::test::Fail;

/// Asks twice for the end.
fn expect_end(rt: &impl Abort, lines: &mut MemoryLines<'_>) {
    for _ in 0..2 {
        assert!(rt; matches!(lines.next(), Ok(None)));
    }
}

/// Asks twice for this fault.
fn expect_fault(rt: &impl Abort, lines: &mut MemoryLines<'_>, number: u32, kind: FileKind) {
    for _ in 0..2 {
        match lines.next() {
            Err(fault) => assert_eq!(rt; fault, FileFault::At(number, kind)),
            Ok(_) => panic!(rt; "no fault at line {number}"),
        }
    }
}

/// Compares the answer after so many lines with that of a part that isn't blank and begins at this
/// place: whether it is a line.
fn compare_line(
    rt: &impl Abort,
    lines: &mut MemoryLines<'_>,
    part: &[u8],
    place: usize,
    number: u32,
) -> bool {
    match (read_block(part), lines.next()) {
        (Ok(want), Ok(Some(line))) => {
            assert_eq!(rt;
                (line.number, line.place),
                (number.saturating_add(1), place)
            );
            assert_eq!(rt; line.bytes, part);
            assert_eq!(rt;
                (line.block.width(), line.block.len()),
                (want.width(), want.len())
            );
            true
        }
        (Err(fault), Err(FileFault::At(_, kind))) => {
            assert!(rt; is_same(kind, fault));
            expect_fault(rt, lines, number.saturating_add(1), kind);
            false
        }
        _ => panic!(rt; "the answers differ after line {number}"),
    }
}

/// Compares the lines of a file with those of a plain program that sees the whole list of bytes.
fn compare(rt: &impl Abort, bytes: &[u8], fails: bool) {
    let (whole, last) = judged(bytes, fails);
    let is_end = |b: &u8| *b == b'\r' || *b == b'\n';
    let ended = whole.iter().filter(|b| is_end(*b)).count();
    let mut lines = MemoryLines::new(bytes, fails);
    let mut number = 0u32;
    let mut next = 0usize;
    for (nth, part) in whole.split(is_end).enumerate() {
        let place = next;
        next = place.saturating_add(part.len()).saturating_add(1);
        if nth == ended && last.is_some() || part.iter().all(|b| *b == b' ') {
            continue;
        }
        if !compare_line(rt, &mut lines, part, place, number) {
            return;
        }
        number = number.saturating_add(1);
    }
    match last {
        Some(kind) => expect_fault(rt, &mut lines, number.saturating_add(1), kind),
        None => expect_end(rt, &mut lines),
    }
}

#[test]
fn lines_in_memory_are_those_of_a_plain_program(rt: HostRuntime) -> Result<(), Fail> {
    let mut long = vec![in rt.alloc(); b' '; 1025]?;
    long.extend_from_slice(b"\n110001+0000000A")?;
    for fails in [false, true] {
        for cut in 0..=WORKED.len() {
            let (front, rest) = WORKED.split_at(cut);
            compare(&rt, front, fails);
            compare(&rt, rest, fails);
        }
        for (text, _, _) in TEXTS {
            compare(&rt, text, fails);
        }
        for cut in 0..30usize {
            compare(&rt, &long[cut.min(long.len())..], fails);
        }
    }
    Ok(())
}

/// Pieces of which files are drawn: readings of both widths, other lines, blanks, ends, and bytes
/// that no line may have.
const PIECES: [&[u8]; 16] = [
    b"\r",
    b"\n",
    b"\r\n",
    b"\n\n",
    b" ",
    b"   \n",
    b"410001+00000010 42....+000000S1\r\n",
    b"110003+0000000A 21.102+00000000 22.102+10000000",
    b"110003+0000000A 21.102+00000000 22.102+10000000\n",
    b"110003+0000000A 21.102+00000000 22.102+10000000 \r\n",
    b"110003+0000000A 21.102+00000000 22.102+10000000 31..00+00001000 \n",
    b"*110003+000000000000000A 21.102+0000000000000000 22.102+0000000010000000\r\n",
    b"*110003+000000000000000A 21.102+0000000000000000 22.102+0000000010000000 \r",
    b"110003+0000000A 21.102+0000000\t 22.102+10000000\n",
    b"\t",
    b"A",
];

/// A file of up to seven pieces, drawn by this number.
fn drawn(alloc: Global, seed: u64) -> Result<Vec<u8>, Fail> {
    let mut state = seed.wrapping_add(1).wrapping_mul(0x9E37_79B9_7F4A_7C15) >> 16;
    let mut file = Vec::new(alloc);
    for _ in 0..state % 8 {
        state = state
            .wrapping_mul(0x5851_F42D_4C95_7F2D)
            .wrapping_add(0x1405_7B7E)
            >> 8;
        let nth = (state % 16) as usize;
        file.extend_from_slice(PIECES.get(nth).copied().unwrap_or(b""))?;
    }
    Ok(file)
}

#[test]
fn lines_of_drawn_files_are_those_of_a_plain_program(rt: HostRuntime) -> Result<(), Fail> {
    for seed in 0..20_000 {
        let file = drawn(rt.alloc(), seed)?;
        compare(&rt, &file, seed % 3 == 0);
    }
    Ok(())
}

#[test]
fn the_readings_of_the_worked_file_are_found_as_such(rt: HostRuntime) -> Result<(), Fail> {
    let mut lines = MemoryLines::new(WORKED, false);
    for is_reading in [
        false, false, true, true, true, true, false, true, true, true, true, false,
    ] {
        match lines.next() {
            Ok(Some(line)) => assert_eq!(rt; line.plain, is_reading, "line {}", line.number),
            _ => panic!(rt; "a line is missing"),
        }
    }
    expect_end(&rt, &mut lines);
    Ok(())
}

/// So many bytes of one kind.
fn of_one(alloc: Global, byte: u8, count: usize) -> Result<Vec<u8>, Fail> {
    Ok(vec![in alloc; byte; count]?)
}

#[test]
fn a_line_in_memory_has_1024_bytes_at_most(rt: HostRuntime) -> Result<(), Fail> {
    let longest = of_one(rt.alloc(), b' ', LONGEST_LINE)?;
    expect_end(&rt, &mut MemoryLines::new(&longest, false));
    for byte in [b' ', b'\t', b'A'] {
        let mut longer = of_one(rt.alloc(), byte, LONGEST_LINE + 1)?;
        expect_fault(
            &rt,
            &mut MemoryLines::new(&longer, false),
            1,
            FileKind::LineTooLong,
        );
        longer.push(b'\n')?;
        expect_fault(
            &rt,
            &mut MemoryLines::new(&longer, true),
            1,
            FileKind::LineTooLong,
        );
    }
    Ok(())
}

#[test]
fn a_file_in_memory_has_16_777_216_bytes_at_most(rt: HostRuntime) -> Result<(), Fail> {
    let mut file = of_one(rt.alloc(), b'\n', LONGEST_FILE)?;
    expect_end(&rt, &mut MemoryLines::new(&file, false));
    file.push(b'\n')?;
    expect_fault(
        &rt,
        &mut MemoryLines::new(&file, false),
        1,
        FileKind::FileTooLong,
    );
    // a line feed right after the last carriage return is one byte too many, too
    if let Some(byte) = file.get_mut(LONGEST_FILE - 1) {
        *byte = b'\r';
    }
    expect_fault(
        &rt,
        &mut MemoryLines::new(&file, false),
        1,
        FileKind::FileTooLong,
    );
    Ok(())
}

#[test]
fn a_line_in_memory_that_ends_one_byte_past_the_file_is_not_answered(
    rt: HostRuntime,
) -> Result<(), Fail> {
    let mut file = of_one(rt.alloc(), b'\n', 0)?;
    for _ in 0..1_048_576 {
        file.extend_from_slice(b"\n110001+0000000A")?;
    }
    for (more, kind) in [(b"".as_slice(), None), (b"\n", Some(FileKind::FileTooLong))] {
        file.extend_from_slice(more)?;
        let mut lines = MemoryLines::new(&file, false);
        let mut number = 0;
        for _ in 0..1_048_575 {
            match lines.next() {
                Ok(Some(line)) => number = line.number,
                _ => panic!(rt; "no line after line {number}"),
            }
        }
        match kind {
            None => {
                assert!(rt; matches!(lines.next(), Ok(Some(line)) if line.number == 1_048_576));
                expect_end(&rt, &mut lines);
            }
            Some(kind) => expect_fault(&rt, &mut lines, 1_048_576, kind),
        }
    }
    Ok(())
}

#[test]
fn lines_beside_a_place_end_as_the_one_before_it_or_the_first(rt: HostRuntime) {
    let rows: [(&[u8], usize, LineEnd); 10] = [
        (b"", 0, LineEnd::LineFeed),
        (b"A", 0, LineEnd::LineFeed),
        (b"A\nB\r\n", 0, LineEnd::LineFeed),
        (b"A\rB\n", 0, LineEnd::CarriageReturn),
        (b"A\r\nB", 0, LineEnd::Both),
        (b"A\r", 0, LineEnd::CarriageReturn),
        (b"A\nB", 2, LineEnd::LineFeed),
        (b"A\rB", 2, LineEnd::CarriageReturn),
        (b"A\r\nB", 3, LineEnd::Both),
        (b"A\n\rB", 3, LineEnd::CarriageReturn),
    ];
    for (bytes, at, end) in rows {
        assert_eq!(rt; end_beside(bytes, at), end, "{bytes:?} at {at}");
    }
    assert_eq!(rt; LineEnd::Both.bytes(), b"\r\n".as_slice());
    assert_eq!(rt; LineEnd::CarriageReturn.bytes(), b"\r".as_slice());
    assert_eq!(rt; LineEnd::LineFeed.bytes(), b"\n".as_slice());
}
