//! Worked lines, words, names and angles.

use gsi_word::steps::{LANES, is_plain_reading, printable_run, reading_angles, reading_block};
use gsi_word::{
    AngleFault, CODE_INFORMATION, CODE_NUMBER, Found, HORIZONTAL_DIRECTION, LineFault,
    POINT_NUMBER, VERTICAL_ANGLE, Word, decimal_number, laws, read_block,
};
use std::process::Abort;
use std::test::Fail;

/// The word at a place of a line that is a block.
fn word_at<'a>(rt: &impl Abort, line: &'a [u8], place: usize) -> Word<'a> {
    read_block(line)
        .expect(rt, "a block")
        .word(place)
        .expect(rt, "a word")
}

#[test]
fn a_line_is_a_block_of_its_words(rt: HostRuntime) {
    // The line, the width and the number of words.
    const ROWS: [(&[u8], u8, usize); 10] = [
        (b"410001+00000010 42....+000000S1", 8, 2),
        (b"110003+0000000A 21.102+00000000 22.102+10000000", 8, 3),
        (b"110003+0000000A 21.102+00000000 22.102+10000000 ", 8, 3),
        (
            b"110003+0000000A 21.102+00000000 22.102+10000000       ",
            8,
            3,
        ),
        (b"410012+00000030", 8, 1),
        (b"410099+?......1", 8, 1),
        (b"110003-        ", 8, 1),
        (b"*410001+0000000000000010 42....+00000000000000S1", 16, 2),
        (
            b"*110003+000000000000000A 21.102+0000000000000000 22.102+0000000010000000  ",
            16,
            3,
        ),
        // Blanks are content: these 16 bytes of content end with the line.
        (b"*110001+0000000A 21.102+", 16, 1),
    ];
    for (row, (line, width, count)) in ROWS.iter().enumerate() {
        let found = read_block(line).map(|block| (block.width(), block.len()));
        assert_eq!(rt; found, Ok((*width, *count)), "row {row}");
    }
}

#[test]
fn a_line_that_is_no_block_has_a_first_fault(rt: HostRuntime) {
    const ROWS: [(&[u8], LineFault); 33] = [
        // No word at all.
        (b"", LineFault::Word(1)),
        (b"   ", LineFault::Word(1)),
        (b"*", LineFault::Word(1)),
        (b"* ", LineFault::Word(1)),
        (b" 110001+0000000A", LineFault::Word(1)),
        (b"**110001+000000000000000A", LineFault::Word(1)),
        // A byte that may not stand in a line.
        (b"110001+0000000A\t21.102+00000000", LineFault::Byte(16)),
        (b"110001+0000000\x7f", LineFault::Byte(15)),
        (b"\x1f10001+0000000A", LineFault::Byte(1)),
        (b"*110001+000000000000000\x80", LineFault::Byte(24)),
        (b"\xff\x00", LineFault::Byte(1)),
        // A word that is cut short.
        (
            b"110006+0000000A 21.102+20000006 22.102+2999",
            LineFault::Word(3),
        ),
        (b"110006+0000000", LineFault::Word(1)),
        (b"110006+0000000A 2", LineFault::Word(2)),
        (b"*110001+00000000000000A", LineFault::Word(1)),
        // A word without its digits, information or sign.
        (b"1a0001+0000000A", LineFault::Word(1)),
        (b"a10001+0000000A", LineFault::Word(1)),
        (b"11 001+0000000A", LineFault::Word(1)),
        (b"1100 1+0000000A", LineFault::Word(1)),
        (b"11000 +0000000A", LineFault::Word(1)),
        (b"110001 0000000A", LineFault::Word(1)),
        (b"110001*0000000A", LineFault::Word(1)),
        // No blank, or a second one, after a word.
        (b"110001+0000000AB", LineFault::Word(1)),
        (b"110001+0000000A  21.102+00000000", LineFault::Word(2)),
        (b"110001+000000000000000A", LineFault::Word(1)),
        // Another first word.
        (b"510001+00000000", LineFault::FirstWord),
        (b"510002+00000000", LineFault::FirstWord),
        (b"21.102+00000000 110001+0000000A", LineFault::FirstWord),
        (b"*120001+000000000000000A", LineFault::FirstWord),
        // Bytes before words, words before the first index.
        (b"510001+0000000 21.102+0000000\t", LineFault::Byte(30)),
        (b"510001+00000000 21.102+0000000\t", LineFault::Byte(31)),
        (b"510001+00000000 21.102+000000", LineFault::Word(2)),
        (b"510001+00000000 11", LineFault::Word(2)),
    ];
    for (row, (line, fault)) in ROWS.iter().enumerate() {
        assert_eq!(rt; read_block(line).err(), Some(*fault), "row {row}");
    }
}

#[test]
fn a_line_is_a_reading_as_most_are_written(rt: HostRuntime) {
    const ROWS: [(&[u8], bool); 42] = [
        (b"110003+0000000A 21.102+00000000 22.102+10000000", true),
        (b"110003+0000000A 21.102+00000000 22.102+10000000 ", true),
        (b"11~!!~+ pillar7 21~!32+39999999 22...2+00000000", true),
        (b"11....+         21.322+20000000 22.022+20000000 ", true),
        (b"110003+0000000A 21.102+00000000 22./02+10000000", true),
        // Another length, a byte out of its place.
        (b"110003+0000000A 21.102+00000000 22.102+10000000  ", false),
        (b"110003+0000000A 21.102+00000000 22.102+1000000", false),
        (b"110003+0000000A 21.102+00000000", false),
        (b"110003+0000000A21.102+00000000 22.102+10000000  ", false),
        (b"11 003+0000000A 21.102+00000000 22.102+10000000", false),
        // Other words.
        (b"410003+0000000A 21.102+00000000 22.102+10000000", false),
        (b"110003+0000000A 22.102+00000000 21.102+10000000", false),
        (b"110003+0000000A 21.102+00000000 31..00+10000000", false),
        // A minus sign, another unit, another input mode, no digit, a full turn.
        (b"110003-0000000A 21.102+00000000 22.102+10000000", false),
        (b"110003+0000000A 21.102+00000000 22.102-10000000", false),
        (b"110003+0000000A 21.104+00000000 22.104+10000000", false),
        (b"110003+0000000A 21.112+00000000 22.102+10000000", false),
        (b"110003+0000000A 21.102+00000000 22.1/2+10000000", false),
        (b"110003+0000000A 21.102+0000000A 22.102+10000000", false),
        (b"110003+0000000A 21.102+40000000 22.102+10000000", false),
        // Further words.
        (
            b"110003+0000000A 21.102+00000000 22.102+10000000 31..00+00045678",
            true,
        ),
        (
            b"110003+0000000A 21.102+00000000 22.102+10000000 31..00+00045678 ",
            true,
        ),
        (
            b"110003+0000000A 21.102+00000000 22.102+10000000 51....+0010+000 87..10+00001500",
            true,
        ),
        (
            b"110003+0000000A 21.102+00000000 22.102+10000000 31..00+00045678  ",
            false,
        ),
        (
            b"110003+0000000A 21.102+00000000 22.102+10000000 31..00+0004567",
            false,
        ),
        (
            b"110003+0000000A 21.102+00000000 22.102+10000000 31..00-00045678",
            false,
        ),
        (
            b"110003+0000000A 21.102+00000000 22.102+10000000 21.102+00000000",
            false,
        ),
        (
            b"110003+0000000A 21.102+00000000 22.102+10000000 22.102+10000000",
            false,
        ),
        (
            b"110003+0000000A 21.102+00000000 22.102+10000000 110003+0000000A",
            false,
        ),
        (
            b"110003+0000000A 21.102+00000000 22.102+10000000 410003+0000000A",
            false,
        ),
        (
            b"110003+0000000A 21.102+00000000 22.102+10000000 31..00+00045678 410003+0000000A",
            false,
        ),
        // GSI-16.
        (
            b"*110003+000000000000000A 21.102+0000000000000000 22.102+0000000010000000",
            true,
        ),
        (
            b"*110003+000000000000000A 21.102+0000000039999999 22.102+0000000010000000 ",
            true,
        ),
        (
            b"*11~!!~+a pillar of iron 21~!32+0000000039999999 22...2+0000000000000000",
            true,
        ),
        (
            b"*110003+000000000000000A 21.102+0000000000000000 22.102+0000000010000000  ",
            false,
        ),
        (
            b"*110003+000000000000000A 21.102+0000000000000000 22.102+000000001000000",
            false,
        ),
        (
            b"*110003+000000000000000A 21.102+0000000000000000 31..00+0000000010000000",
            false,
        ),
        (
            b"*110003+000000000000000A 21.102+0000000040000000 22.102+0000000010000000",
            false,
        ),
        (
            b"*110003+000000000000000A 21.102+0000000100000000 22.102+0000000010000000",
            false,
        ),
        (
            b"*110003+000000000000000A 21.102+0000000000000000 22.102+0000000100000000",
            false,
        ),
        (
            b"*110003+000000000000000A 21.1/2+0000000000000000 22.102+0000000010000000",
            false,
        ),
        (
            b"110003+000000000000000A 21.102+0000000000000000 22.102+0000000010000000 ",
            false,
        ),
    ];
    for (row, (line, reading)) in ROWS.iter().enumerate() {
        assert_eq!(rt; is_plain_reading(line), *reading, "row {row}");
    }
}

#[test]
fn such_a_reading_is_read_as_its_block(rt: HostRuntime) {
    const ROWS: [&[u8]; 5] = [
        b"110003+0000000A 21.102+01234567 22.102+39999999",
        b"110003+0000000A 21.102+39999999 22.102+07654321 ",
        b"110003+0000000A 21.102+01234567 22.102+39999999 31..00+00045678",
        b"110003+0000000A 21.102+01234567 22.102+39999999 31..00+00045678 87..10+00001500 ",
        b"*110003+000000000000000A 21.102+0000000001234567 22.102+0000000039999999",
    ];
    for (row, line) in ROWS.iter().enumerate() {
        assert!(rt; is_plain_reading(line), "row {row}");
        let block = read_block(line).expect(&rt, "it is a block");
        let found = reading_block(line);
        assert_eq!(rt; found.len(), block.len(), "row {row}");
        assert_eq!(rt; found.width(), block.width(), "row {row}");
        assert_eq!(rt; found.first().name(), block.first().name(), "row {row}");
        let (hz, zenith) = reading_angles(line);
        let (direction, vertical) = block.find_two(HORIZONTAL_DIRECTION, VERTICAL_ANGLE);
        assert_eq!(rt; angle_in(direction), Some(hz), "row {row}");
        assert_eq!(rt; angle_in(vertical), Some(zenith), "row {row}");
    }
}

/// The angle of a word that was found.
fn angle_in(found: Found<'_>) -> Option<u32> {
    match found {
        Found::One(word) => word.angle().ok(),
        _ => None,
    }
}

#[test]
fn a_cut_line_is_whole_only_where_a_word_ends(rt: HostRuntime) {
    let line = b"110006+0000000A 21.102+20000006 22.102+29999998";
    for length in 0..line.len() + 1 {
        let want = match length {
            0..15 => Err(LineFault::Word(1)),
            15..17 => Ok(1),
            17..31 => Err(LineFault::Word(2)),
            31..33 => Ok(2),
            33..47 => Err(LineFault::Word(3)),
            _ => Ok(3),
        };
        let found = read_block(&line[..length]).map(|block| block.len());
        assert_eq!(rt; found, want, "at {length} bytes");
    }
}

#[test]
fn the_parts_of_a_word_are_parts_of_the_line(rt: HostRuntime) {
    // The line, the place of a word in it, and the word's index, information, sign and content.
    const ROWS: [(&[u8], usize, u8, &[u8], bool, &[u8]); 7] = [
        (
            b"410001+00000010 42....+000000S1",
            0,
            41,
            b"0001",
            false,
            b"00000010",
        ),
        (
            b"410001+00000010 42....+000000S1",
            1,
            42,
            b"....",
            false,
            b"000000S1",
        ),
        (
            b"110003+0000000A 21.102+05000000 22.102+10000000",
            2,
            22,
            b".102",
            false,
            b"10000000",
        ),
        (
            b"410099+?......1 05....-      -1  ",
            0,
            41,
            b"0099",
            false,
            b"?......1",
        ),
        (
            b"410099+?......1 05....-      -1  ",
            1,
            5,
            b"....",
            true,
            b"      -1",
        ),
        (
            b"*410001+0000000000000010 42....+00000000000000S1",
            0,
            41,
            b"0001",
            false,
            b"0000000000000010",
        ),
        (
            b"*410001+0000000000000010 42....+00000000000000S1",
            1,
            42,
            b"....",
            false,
            b"00000000000000S1",
        ),
    ];
    for (row, (line, place, index, info, negative, content)) in ROWS.iter().enumerate() {
        let word = word_at(&rt, line, *place);
        assert_eq!(rt; word.index(), *index, "row {row}");
        assert_eq!(rt; word.info(), *info, "row {row}");
        assert_eq!(rt; word.negative(), *negative, "row {row}");
        assert_eq!(rt; word.content(), *content, "row {row}");
    }
}

#[test]
fn a_name_is_a_content_without_its_leading_zeros(rt: HostRuntime) {
    const ROWS: [(&[u8], &[u8]); 12] = [
        (b"110003+0000000A", b"A"),
        (b"110003+000000S1", b"S1"),
        (b"110003+00000000", b"0"),
        (b"110003+00000100", b"100"),
        (b"110003+12345678", b"12345678"),
        (b"110003+0000A,\"1", b"A,\"1"),
        (b"110003+        ", b"        "),
        (b"110003+0000   1", b"   1"),
        (b"110003-0000-001", b"-001"),
        (b"*110003+0000000000000000", b"0"),
        (b"*110003+00000000000000S1", b"S1"),
        (b"*110003+ABCDEFGHIJKLMNOP", b"ABCDEFGHIJKLMNOP"),
    ];
    for (row, (line, name)) in ROWS.iter().enumerate() {
        let word = word_at(&rt, line, 0);
        assert_eq!(rt; word.name(), *name, "row {row}");
    }
}

#[test]
fn an_angle_is_a_number_of_units_or_its_first_fault(rt: HostRuntime) {
    const ROWS: [(&[u8], Result<u32, AngleFault>); 22] = [
        (b"110003+0000000A 21.102+00000000", Ok(0)),
        (b"110003+0000000A 21.102+25000010", Ok(25_000_010)),
        (b"110003+0000000A 22.102+39999999", Ok(39_999_999)),
        (b"110003+0000000A 210022+00000001", Ok(1)),
        (b"110003+0000000A 21..22+00000002", Ok(2)),
        (b"110003+0000000A 21..32+00000003", Ok(3)),
        (
            b"*110003+000000000000000A 21.102+0000000010000000",
            Ok(10_000_000),
        ),
        (b"110003+0000000A 21.104+00000000", Err(AngleFault::Unit)),
        (b"110003+0000000A 21.10.+00000000", Err(AngleFault::Unit)),
        (
            b"110003+0000000A 21.112+00000000",
            Err(AngleFault::InputMode),
        ),
        (
            b"110003+0000000A 21.142+00000000",
            Err(AngleFault::InputMode),
        ),
        (b"110003+0000000A 21.102-00000000", Err(AngleFault::Sign)),
        (b"110003+0000000A 21.102+0000000A", Err(AngleFault::Digits)),
        (b"110003+0000000A 22.102+        ", Err(AngleFault::Digits)),
        (b"110003+0000000A 21.102+       1", Err(AngleFault::Digits)),
        (b"110003+0000000A 21.102+40000000", Err(AngleFault::Range)),
        (b"110003+0000000A 21.102+99999999", Err(AngleFault::Range)),
        (
            b"*110003+000000000000000A 21.102+9999999999999999",
            Err(AngleFault::Range),
        ),
        // Each of these has all later faults too.
        (b"110003+0000000A 21.114-9999999A", Err(AngleFault::Unit)),
        (
            b"110003+0000000A 21.112-9999999A",
            Err(AngleFault::InputMode),
        ),
        (b"110003+0000000A 21.102-9999999A", Err(AngleFault::Sign)),
        (b"110003+0000000A 21.102+9999999A", Err(AngleFault::Digits)),
    ];
    for (row, (line, want)) in ROWS.iter().enumerate() {
        let word = word_at(&rt, line, 1);
        assert_eq!(rt; word.angle(), *want, "row {row}");
    }
}

#[test]
fn a_search_finds_the_only_word_of_an_index(rt: HostRuntime) {
    let line = b"110003+0000000A 21.102+00000005 22.102+10000000 21.102+00000007 05....+00000001";
    let block = read_block(line).expect(&rt, "a block");
    let rows = [
        (11, Some(0), false),
        (22, Some(10_000_000), false),
        (5, Some(1), false),
        (21, None, true),
        (42, None, false),
        (0, None, false),
        (255, None, false),
    ];
    for (index, number, twice) in rows {
        match block.find(index) {
            Found::Absent => assert!(rt; number.is_none() && !twice, "index {index}"),
            Found::One(word) => assert!(rt;
                word.index() == index
                    && number == Some(decimal_number(word.content()).unwrap_or(0)),
                "index {index}"
            ),
            Found::Twice => assert!(rt; twice, "index {index}"),
        }
    }
    assert!(rt; block.word(5).is_none());
}

#[test]
fn two_indices_are_searched_for_at_once(rt: HostRuntime) {
    let line = b"110003+0000000A 21.102+00000005 22.102+10000000 21.102+00000007";
    let block = read_block(line).expect(&rt, "a block");
    let (point, direction) = block.find_two(POINT_NUMBER, HORIZONTAL_DIRECTION);
    assert!(rt; matches!(point, Found::One(word) if word.name() == b"A".as_slice()));
    assert!(rt; matches!(direction, Found::Twice));
    let (code, angle) = block.find_two(CODE_INFORMATION, VERTICAL_ANGLE);
    assert!(rt; matches!(code, Found::Absent));
    assert!(rt; matches!(angle, Found::One(word) if word.angle() == Ok(10_000_000)));
}

#[test]
fn the_words_come_in_order(rt: HostRuntime) {
    let line = b"*410001+0000000000000020 42....+0000000000000001 43....+0000000000000002";
    let block = read_block(line).expect(&rt, "a block");
    assert_eq!(rt; block.first().index(), CODE_NUMBER);
    let mut words = block.words();
    for index in [41, 42, 43] {
        assert_eq!(rt; words.next().map(|word| word.index()), Some(index));
    }
    assert!(rt; words.next().is_none());
    assert!(rt; words.next().is_none());
}

#[test]
fn a_load_begins_with_a_run_of_printable_bytes(rt: HostRuntime) {
    // The bytes, a place and the run.
    const ROWS: [(&[u8], usize, usize); 8] = [
        (b"0123456789ABCDEF", 0, 16),
        (b" ~ ~ ~ ~ ~ ~ ~ ~", 0, 16),
        (b"\r123456789ABCDEF", 0, 0),
        (b"0123456789ABCDE\x7f", 0, 15),
        (b"01234567\n9ABC\nEF", 0, 8),
        (b"\n\n0123456789ABCDEF\n", 2, 16),
        (b"\n0123456789ABCDEF\n", 2, 15),
        (b"0\xff23456789\x1fBCDEFGHI", 3, 7),
    ];
    for (row, (bytes, at, run)) in ROWS.iter().enumerate() {
        if bytes.len() >= LANES && *at <= bytes.len() - LANES {
            assert_eq!(rt; printable_run(bytes, *at), *run, "row {row}");
        } else {
            assert!(rt; false, "row {row}");
        }
    }
}

#[test]
fn digits_alone_are_a_number(rt: HostRuntime) {
    const ROWS: [(&[u8], Option<u64>); 9] = [
        (b"0", Some(0)),
        (b"0012", Some(12)),
        (b"12345678", Some(12_345_678)),
        (b"1234567:", None),
        (b"/2345678", None),
        (b"9999999999999999", Some(9_999_999_999_999_999)),
        (b"", Some(0)),
        (b"1 ", None),
        (b":", None),
    ];
    for (bytes, number) in &ROWS {
        assert_eq!(rt; decimal_number(bytes), *number);
    }
}

#[test]
fn a_fault_of_a_line_is_told_in_words(rt: HostRuntime) -> Result<(), Fail> {
    let rows = [
        (
            LineFault::Byte(16),
            "byte 16 is no blank and no visible character of ASCII",
        ),
        (
            LineFault::Word(2),
            "word 2 is missing, cut short or not written as GSI",
        ),
        (
            LineFault::FirstWord,
            "the first word is neither a point number nor a code number",
        ),
    ];
    for (fault, text) in rows {
        assert_eq!(rt; format!(in rt.alloc(); "{fault}")?.as_str(), text);
    }
    Ok(())
}

#[test]
fn a_fault_of_an_angle_is_told_in_words(rt: HostRuntime) -> Result<(), Fail> {
    let rows = [
        (
            AngleFault::Unit,
            "the angle is not in gon with five decimals",
        ),
        (
            AngleFault::InputMode,
            "the input mode of the angle is none of ., 0, 2 and 3",
        ),
        (AngleFault::Sign, "the angle is negative"),
        (AngleFault::Digits, "the angle is not digits alone"),
        (AngleFault::Range, "the angle is a full turn or more"),
    ];
    for (fault, text) in rows {
        assert_eq!(rt; format!(in rt.alloc(); "{fault}")?.as_str(), text);
    }
    Ok(())
}

#[test]
fn the_laws_are_calls(_rt: HostRuntime) {
    laws::one_block();
    laws::one_fault();
    laws::no_fault_in_a_block();
    laws::block_or_fault();
    laws::one_name();
    laws::one_angle();
    laws::indices();
}
