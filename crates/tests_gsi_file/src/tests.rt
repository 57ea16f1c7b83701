//! What no clause says: the worked file by readers of all kinds, the limits at their edges, and
//! that the reader is not asked again; and the lines beside a plain program over the whole list of
//! bytes.

mod in_memory;

ghost use Rattle.std.specs.Prelude.{◌<◌};

use byte_ends::{OfRead, Script, Source};
use gsi_file::{FileFault, FileKind, LONGEST_FILE, LONGEST_LINE, Lines, OutOfMemory, laws};
use gsi_word::{LineFault, read_block};
use std::alloc::Global;
use std::io::{self, Error, ErrorKind, Read};
use std::process::Abort;
use std::test::Fail;
use test_support::hoard;

/// Two sets of two targets at one station, as an instrument writes them.
const WORKED: &[u8] = b"410001+00000010 42....+000000S1\r\n\
410002+00000020 42....+00000001\r\n\
110003+0000000A 21.102+00000000 22.102+10000000\r\n\
110004+0000000B 21.102+05000000 22.102+10000000\r\n\
110005+0000000B 21.102+25000010 22.102+30000000\r\n\
110006+0000000A 21.102+20000006 22.102+29999998\r\n\
410007+00000020 42....+00000002\r\n\
110008+0000000A 21.102+10000000 22.102+10000000\r\n\
110009+0000000B 21.102+15000004 22.102+10000000\r\n\
110010+0000000B 21.102+35000008 22.102+30000000\r\n\
110011+0000000A 21.102+30000004 22.102+30000000\r\n\
410012+00000030\r\n";

/// How many words each of its blocks has.
const WORKED_WORDS: [usize; 12] = [2, 2, 3, 3, 3, 3, 2, 3, 3, 3, 3, 1];

/// The lines of bytes that come so many at a time, and of a source that then fails or ends.
fn lines_cut(
    alloc: Global,
    bytes: &[u8],
    step: usize,
    fails: bool,
) -> Result<Lines<Script<'_>>, Fail>
    requires { 0 < step }
{
    Ok(Lines::new(alloc, Script::new(bytes, step, fails)).map_err(|_| "no memory")?)
}

/// Takes lines that must be blocks of so many words, and compares their numbers.
fn take_blocks<R: Source>(rt: &impl Abort, lines: &mut Lines<R>, words: &[usize]) {
    for i in 0..words.len() {
        match lines.next() {
            Ok(Some(line)) => {
                assert_eq!(rt; line.number as usize, i + 1);
                assert_eq!(rt; line.block.len(), words[i], "line {}", line.number);
            }
            _ => panic!(rt; "no line after line {i}"),
        }
    }
}

/// Asks twice for the end.
fn expect_end<R: Source>(rt: &impl Abort, lines: &mut Lines<R>) {
    for _ in 0..2 {
        assert!(rt; matches!(lines.next(), Ok(None)));
    }
}

/// Asks twice for this fault.
fn expect_fault<R: Source>(rt: &impl Abort, lines: &mut Lines<R>, number: u32, kind: FileKind) {
    for _ in 0..2 {
        match lines.next() {
            Err(fault) => assert_eq!(rt; fault, FileFault::At(number, kind)),
            Ok(_) => panic!(rt; "no fault at line {number}"),
        }
    }
}

#[test]
fn the_worked_file_has_twelve_blocks_however_it_is_cut(rt: HostRuntime) -> Result<(), Fail> {
    for step in [1, 2, 3, 7, 1000] {
        let mut lines = lines_cut(rt.alloc(), WORKED, step, false)?;
        take_blocks(&rt, &mut lines, &WORKED_WORDS);
        expect_end(&rt, &mut lines);
    }
    Ok(())
}

#[test]
fn a_read_that_fails_after_some_bytes_stands_at_the_line_that_had_not_ended(
    rt: HostRuntime,
) -> Result<(), Fail> {
    for cut in 0..=WORKED.len() {
        let ends = WORKED[..cut].iter().filter(|b| **b == b'\r').count();
        let ended = WORKED_WORDS.len().min(ends);
        let mut lines = lines_cut(rt.alloc(), &WORKED[..cut], 7, true)?;
        take_blocks(&rt, &mut lines, &WORKED_WORDS[..ended]);
        expect_fault(&rt, &mut lines, ended as u32 + 1, FileKind::Read);
    }
    Ok(())
}

/// Texts, the words of the blocks that they begin with, and the fault that follows, or the end.
const TEXTS: [(&[u8], &[usize], Option<FileKind>); 16] = [
    (b"", &[], None),
    (b"\r\n  \n\r   ", &[], None),
    (b"110001+0000000A", &[1], None),
    (
        b"110001+0000000A   \r\r\n \n410002+00000020\n\n",
        &[1, 1],
        None,
    ),
    (
        b"*110001+000000000000000A 21.102+0000000000000000\r",
        &[2],
        None,
    ),
    (
        b"*110001+000000000000000A\r110002+0000000B\r",
        &[1, 1],
        None,
    ),
    (
        b"110001+0000000A\n\t\n110003+0000000C\n",
        &[1],
        Some(FileKind::Byte(1)),
    ),
    (b"110001+0000000A\t", &[], Some(FileKind::Byte(16))),
    (
        b"110001+0000000A 21.102+0000000\x7f",
        &[],
        Some(FileKind::Byte(31)),
    ),
    (
        b"110001+0000000A\n21.102+00000000\n",
        &[1],
        Some(FileKind::FirstWord),
    ),
    (b"510002+00000000", &[], Some(FileKind::FirstWord)),
    (
        b"110001+0000000A 21.102+000\n",
        &[],
        Some(FileKind::Word(2)),
    ),
    (b"110001+0000000A\n*\n", &[1], Some(FileKind::Word(1))),
    (
        b"110001+0000000A  21.102+00000000",
        &[],
        Some(FileKind::Word(2)),
    ),
    (b"110001+0000000\rA\n", &[], Some(FileKind::Word(1))),
    (b"\x1a", &[], Some(FileKind::Byte(1))),
];

#[test]
fn lines_end_by_both_bytes_blanks_are_passed_over_and_the_first_fault_stays(
    rt: HostRuntime,
) -> Result<(), Fail> {
    for (text, words, fault) in TEXTS {
        for step in 1..50usize {
            let mut lines = lines_cut(rt.alloc(), text, step, false)?;
            take_blocks(&rt, &mut lines, words);
            match fault {
                Some(kind) => expect_fault(&rt, &mut lines, words.len() as u32 + 1, kind),
                None => expect_end(&rt, &mut lines),
            }
        }
    }
    Ok(())
}

/// A reader that gives these bytes again and again, so many in all and so many at a time, and then
/// ends.
#[derive(Drop)]
struct Repeated<'a> {
    text: &'a [u8],
    place: usize,
    left: usize,
    step: usize,
}

impl Read for Repeated<'_> {
    fn read(&mut self, buf: &mut [u8]) -> io::Result<usize> {
        let given = buf.len().min(self.step).min(self.left);
        for byte in buf[..given].iter_mut() {
            if self.place >= self.text.len() {
                self.place = 0;
            }
            *byte = self.text.get(self.place).copied().unwrap_or(b'A');
            self.place = self.place.saturating_add(1);
        }
        self.left = self.left.saturating_sub(given);
        Ok(given)
    }
}

/// The lines of a text that is given again and again.
fn lines_of<'a>(
    rt: &HostRuntime,
    text: &'a [u8],
    left: usize,
    step: usize,
) -> Result<Lines<OfRead<Repeated<'a>>>, Fail> {
    let reader = Repeated {
        text,
        place: 0,
        left,
        step,
    };
    Ok(Lines::new(rt.alloc(), OfRead::new(reader)).map_err(|_| "no memory")?)
}

#[test]
fn a_line_has_1024_bytes_at_most(rt: HostRuntime) -> Result<(), Fail> {
    for step in [1, 1000, 1023, 1024, 1025, 5000] {
        let mut lines = lines_of(&rt, b" ", LONGEST_LINE, step)?;
        expect_end(&rt, &mut lines);
        let mut lines = lines_of(&rt, b" ", LONGEST_LINE + 1, step)?;
        expect_fault(&rt, &mut lines, 1, FileKind::LineTooLong);
        let mut lines = lines_of(&rt, b"\t", LONGEST_LINE + 1, step)?;
        expect_fault(&rt, &mut lines, 1, FileKind::LineTooLong);
        let mut lines = lines_of(&rt, b"A", usize::MAX, step)?;
        expect_fault(&rt, &mut lines, 1, FileKind::LineTooLong);
    }
    Ok(())
}

#[test]
fn a_file_has_16_777_216_bytes_at_most(rt: HostRuntime) -> Result<(), Fail> {
    let mut lines = lines_of(&rt, b"\n", LONGEST_FILE, 5000)?;
    expect_end(&rt, &mut lines);
    let mut lines = lines_of(&rt, b"\n", LONGEST_FILE + 1, 5000)?;
    expect_fault(&rt, &mut lines, 1, FileKind::FileTooLong);
    let mut lines = lines_of(&rt, b"\n", usize::MAX, 1)?;
    expect_fault(&rt, &mut lines, 1, FileKind::FileTooLong);
    Ok(())
}

#[test]
fn an_endless_file_of_lines_ends_at_the_line_after_the_last_whole_one(
    rt: HostRuntime,
) -> Result<(), Fail> {
    let mut lines = lines_of(&rt, b"110001+0000000A\n", usize::MAX, 1000)?;
    let mut number = 0;
    for _ in 0..1_048_576 {
        match lines.next() {
            Ok(Some(line)) => number = line.number,
            _ => panic!(rt; "no line after line {number}"),
        }
    }
    assert_eq!(rt; number, 1_048_576);
    expect_fault(&rt, &mut lines, 1_048_577, FileKind::FileTooLong);
    Ok(())
}

#[test]
fn a_whole_line_that_ends_one_byte_past_the_file_is_not_answered(
    rt: HostRuntime,
) -> Result<(), Fail> {
    // lines of 15 bytes and their end, after as many line feeds as let the last line's end be one
    // byte too many
    let text = b"\n110001+0000000A";
    let mut lines = lines_of(&rt, text, LONGEST_FILE + 1, 4096)?;
    let mut number = 0;
    for _ in 0..1_048_575 {
        match lines.next() {
            Ok(Some(line)) => number = line.number,
            _ => panic!(rt; "no line after line {number}"),
        }
    }
    expect_fault(&rt, &mut lines, 1_048_576, FileKind::FileTooLong);
    Ok(())
}

#[test]
fn a_block_of_1024_bytes_is_read_across_two_fills_of_the_buffer(
    rt: HostRuntime,
) -> Result<(), Fail> {
    let mut text = Vec::new(rt.alloc());
    for _ in 0..5 {
        for _ in 0..64 {
            text.extend_from_slice(b"110001+0000000A ")?;
        }
        text.extend_from_slice(b"\n")?;
    }
    for step in [1, 100, 1024, 4095, 4096, 10_000] {
        let mut lines = lines_cut(rt.alloc(), &text, step, false)?;
        take_blocks(&rt, &mut lines, &[64; 5]);
        expect_end(&rt, &mut lines);
    }
    Ok(())
}

/// The place of the first byte that breaks a limit, by a plain count of the bytes of each line.
fn first_break(bytes: &[u8]) -> Option<usize> {
    let mut length = 0usize;
    for (place, byte) in bytes.iter().enumerate() {
        length = length.saturating_add(1);
        if place == LONGEST_FILE {
            return Some(place);
        }
        if *byte == b'\r' || *byte == b'\n' {
            length = 0;
        } else if length > LONGEST_LINE {
            return Some(place);
        }
    }
    None
}

/// Whether a file's fault is this fault of a line.
fn is_same(kind: FileKind, fault: LineFault) -> bool {
    match fault {
        LineFault::Byte(at) => kind == FileKind::Byte(at),
        LineFault::Word(nth) => kind == FileKind::Word(nth),
        LineFault::FirstWord => kind == FileKind::FirstWord,
    }
}

/// The bytes before the first that breaks a limit, and the fault that comes after their lines.
fn judged(bytes: &[u8], fails: bool) -> (&[u8], Option<FileKind>) {
    match first_break(bytes) {
        Some(place) if place < bytes.len() => {
            if place == LONGEST_FILE {
                (&bytes[..place], Some(FileKind::FileTooLong))
            } else {
                (&bytes[..place], Some(FileKind::LineTooLong))
            }
        }
        _ if fails => (bytes, Some(FileKind::Read)),
        _ => (bytes, None),
    }
}

/// Compares the answer after a line with that of a part that isn't blank: the number of the line
/// that is answered, if both are not the same fault.
fn compare_line(
    rt: &impl Abort,
    lines: &mut Lines<Script<'_>>,
    part: &[u8],
    number: u32,
) -> Option<u32> {
    match (read_block(part), lines.next()) {
        (Ok(want), Ok(Some(line))) => {
            assert_eq!(rt; line.block.width(), want.width());
            assert_eq!(rt; line.block.len(), want.len());
            Some(line.number)
        }
        (Err(fault), Err(FileFault::At(_, kind))) => {
            assert!(rt; is_same(kind, fault));
            None
        }
        _ => panic!(rt; "the answers differ after line {number}"),
    }
}

/// Compares lines with those of a plain program that sees the whole list of bytes.
fn compare(rt: &impl Abort, mut lines: Lines<Script<'_>>, bytes: &[u8], fails: bool) {
    let (whole, last) = judged(bytes, fails);
    let is_end = |b: &u8| *b == b'\r' || *b == b'\n';
    let ended = whole.iter().filter(|b| is_end(*b)).count();
    let mut number = 0u32;
    for (place, part) in whole.split(is_end).enumerate() {
        if place == ended && last.is_some() || part.iter().all(|b| *b == b' ') {
            continue;
        }
        match compare_line(rt, &mut lines, part, number) {
            Some(next) => number = next,
            None => return,
        }
    }
    match last {
        Some(kind) => expect_fault(rt, &mut lines, number.saturating_add(1), kind),
        None => expect_end(rt, &mut lines),
    }
}

#[test]
fn the_lines_are_those_of_a_plain_program(rt: HostRuntime) -> Result<(), Fail> {
    let mut long = vec![in rt.alloc(); b' '; 1025]?;
    long.extend_from_slice(b"\n110001+0000000A")?;
    for fails in [false, true] {
        for cut in 0..=WORKED.len() {
            let (front, rest) = WORKED.split_at(cut);
            compare(&rt, lines_cut(rt.alloc(), front, 5, fails)?, front, fails);
            compare(&rt, lines_cut(rt.alloc(), rest, 4096, fails)?, rest, fails);
        }
        for (text, _, _) in TEXTS {
            for step in 1..50usize {
                compare(&rt, lines_cut(rt.alloc(), text, step, fails)?, text, fails);
            }
        }
        for cut in 0..30usize {
            let text = &long[cut.min(long.len())..];
            compare(&rt, lines_cut(rt.alloc(), text, 7, fails)?, text, fails);
        }
    }
    Ok(())
}

/// A reader that gives some bytes, then fails or ends, and then would give more.
#[derive(Drop)]
struct Recovers<'a> {
    first: &'a [u8],
    asked: usize,
    fails: bool,
}

impl Read for Recovers<'_> {
    fn read(&mut self, buf: &mut [u8]) -> io::Result<usize> {
        self.asked = self.asked.saturating_add(1);
        if self.asked == 2 {
            if self.fails {
                return Err(Error::from(ErrorKind::Interrupted));
            }
            return Ok(0);
        }
        let given = self.first.len().min(buf.len());
        buf[..given].copy_from_slice(&self.first[..given]);
        Ok(given)
    }
}

#[test]
fn a_reader_that_failed_or_ended_is_not_asked_again(rt: HostRuntime) -> Result<(), Fail> {
    for (text, fails) in [(b"110001+0000000A\n", true), (b"110001+0000000A ", false)] {
        let mut reader = Recovers {
            first: text,
            asked: 0,
            fails,
        };
        let mut lines = Lines::new(rt.alloc(), OfRead::new(&mut reader)).map_err(|_| "no memory")?;
        take_blocks(&rt, &mut lines, &[1]);
        if fails {
            expect_fault(&rt, &mut lines, 2, FileKind::Read);
        } else {
            expect_end(&rt, &mut lines);
        }
        drop(lines);
        assert_eq!(rt; reader.asked, 2);
    }
    Ok(())
}

#[test]
fn lines_of_both_widths_may_stand_in_one_file(rt: HostRuntime) -> Result<(), Fail> {
    let text = b"410001+00000010 42....+000000S1\r\n\
*410002+0000000000000020 42....+0000000000000001\r\n";
    let mut lines = lines_cut(rt.alloc(), text, 7, false)?;
    for (number, width) in [(1, 8), (2, 16)] {
        match lines.next() {
            Ok(Some(line)) => assert_eq!(rt; (line.number, line.block.width()), (number, width)),
            _ => panic!(rt; "no line {number}"),
        }
    }
    expect_end(&rt, &mut lines);
    Ok(())
}

#[test]
fn a_fault_is_told_in_words(rt: HostRuntime) -> Result<(), Fail> {
    let rows = [
        (FileKind::Read, "a read of the field file failed"),
        (
            FileKind::FileTooLong,
            "the file has more than 16777216 bytes",
        ),
        (FileKind::LineTooLong, "the line has more than 1024 bytes"),
        (
            FileKind::Byte(16),
            "byte 16 is no blank and no visible character of ASCII",
        ),
        (
            FileKind::Word(2),
            "word 2 is missing, cut short or not written as GSI",
        ),
        (
            FileKind::FirstWord,
            "the first word is neither a point number nor a code number",
        ),
    ];
    for (place, (kind, text)) in rows.iter().enumerate() {
        assert_eq!(rt; format!(in rt.alloc(); "{kind}")?.as_str(), *text);
        let fault = format!(in rt.alloc(); "{}", FileFault::At(1_048_577, *kind))?;
        assert_eq!(rt; fault.as_str().strip_prefix("block 1048577: "), Some(*text));
        for (other_place, (other, _)) in rows.iter().enumerate() {
            assert_eq!(rt; kind == other, place == other_place);
            let same = FileFault::At(7, *kind) == FileFault::At(7, *other);
            assert_eq!(rt; same, place == other_place);
        }
        assert!(rt; FileFault::At(7, *kind) != FileFault::At(8, *kind));
        assert!(rt; FileFault::At(7, *kind) != FileFault::Memory);
    }
    assert!(rt; FileKind::Byte(16) != FileKind::Byte(17));
    assert!(rt; FileKind::Word(2) != FileKind::Word(3));
    let memory = "out of memory";
    let fault = FileFault::Memory;
    assert_eq!(rt; format!(in rt.alloc(); "{fault}")?.as_str(), memory);
    assert_eq!(rt; format!(in rt.alloc(); "{OutOfMemory}")?.as_str(), memory);
    Ok(())
}

/// A reader of nothing that notes the largest room that it was offered.
#[derive(Drop)]
struct Notes {
    largest: usize,
}

impl Read for Notes {
    fn read(&mut self, buf: &mut [u8]) -> io::Result<usize> {
        self.largest = self.largest.max(buf.len());
        Ok(0)
    }
}

#[test]
fn a_file_is_read_through_4096_bytes(rt: HostRuntime) -> Result<(), Fail> {
    let mut reader = Notes { largest: 0 };
    let mut lines = Lines::new(rt.alloc(), OfRead::new(&mut reader)).map_err(|_| "no memory")?;
    expect_end(&rt, &mut lines);
    drop(lines);
    assert_eq!(rt; reader.largest, 4_096);
    Ok(())
}

/// How many bytes are left free, in one piece: more than the lines could take unseen.
const ROOM: usize = 65_536;

/// `rt test` runs it. `rt try --test` watches over memory itself, and small blocks are not refused
/// there.
#[test]
fn lines_take_no_memory_after_the_buffer(rt: HostRuntime) -> Result<(), Fail> {
    let mut lines = lines_cut(rt.alloc(), WORKED, 7, false)?;
    let room = Vec::<u8>::with_capacity(rt.alloc(), ROOM)?;
    let held = hoard(rt.alloc());
    drop(room);
    take_blocks(&rt, &mut lines, &WORKED_WORDS);
    expect_end(&rt, &mut lines);
    let again = Vec::<u8>::with_capacity(rt.alloc(), ROOM);
    drop(held);
    assert!(rt; again.is_ok());
    Ok(())
}

#[test]
fn the_laws_are_calls(_rt: HostRuntime) {
    laws::answers_before_a_broken_limit();
    laws::answers_within_the_limits();
    laws::failed_read_needs_a_failing_source();
    laws::one_fault();
    laws::no_fault_in_a_block();
    laws::block_or_fault();
    laws::bounds();
}
