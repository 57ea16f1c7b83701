//! Field files and sheets worked out by hand, and the answer of each call: a row of a table each.

use super::answers::{AMPLE, Ran, answers_as_ever, checked, listed, means_of, usual_limits};
use super::files::{Edits, FIVE_LINES, SHEET, STATION, THREE_LINES, TWO_LINES, edited};
use super::readings::{APART, APART_SHEET, ROUND, ROUND_SHEET, Reading, field_file, large_file};
use byte_ends::{Held, Script};
use gsi_file::{FileFault, FileKind, Lines};
use station_book::Limits;
use station_check::run_list;
use std::alloc::Global;
use std::test::Fail;

/// `STATION` with some parts in the place of others, or so many of its bytes and more.
#[derive(Drop)]
enum Field<'a> {
    Edited(Edits<'a>),
    Begun(usize, &'a str),
}

/// The text of a field file.
fn field_text(alloc: Global, field: &Field<'_>) -> Result<String, Fail> {
    match *field {
        Field::Edited(edits) => edited(alloc, STATION, edits),
        Field::Begun(count, rest) => {
            let begin = str::from_utf8(STATION.get(..count).ok_or("a longer file")?)?;
            Ok(format!(in alloc; "{begin}{rest}")?)
        }
    }
}

/// Faults of the file and of the book.
const REFUSED: &[(&str, Field<'static>, &str)] = &[
    (
        "a word is cut",
        Field::Begun(FIVE_LINES, "110006+0000000A 21.102+20000006 22.102+2999"),
        "block 6: Word 3",
    ),
    (
        "a file is cut after its word 21",
        Field::Begun(FIVE_LINES, "110006+0000000A 21.102+20000006"),
        "block 6: NoZenith",
    ),
    (
        "a file is cut between the faces",
        Field::Begun(FIVE_LINES, ""),
        "block 6: OneFace",
    ),
    (
        "an angle has another unit",
        Field::Edited(&[("110003+0000000A 21.102", "110003+0000000A 21.104")]),
        "block 3: Hz Unit",
    ),
    (
        "an angle is put in by another mode",
        Field::Edited(&[("110003+0000000A 21.102", "110003+0000000A 21.112")]),
        "block 3: Hz InputMode",
    ),
    (
        "a face is read twice",
        Field::Begun(
            THREE_LINES,
            "110004+0000000A 21.102+00000001 22.102+10000000",
        ),
        "block 4: FaceTwice",
    ),
    (
        "a set is closed after one face",
        Field::Begun(THREE_LINES, "410004+00000030"),
        "block 4: OneFace",
    ),
    (
        "a set is closed without a reading",
        Field::Begun(TWO_LINES, "410003+00000030"),
        "block 3: EmptySet",
    ),
    (
        "a set is opened without a station",
        Field::Begun(0, "410001+00000020 42....+00000001"),
        "block 1: SetOutside",
    ),
    (
        "a station has no name",
        Field::Begun(0, "410001+00000010"),
        "block 1: StationName",
    ),
    (
        "a station has two names",
        Field::Begun(0, "410001+00000010 42....+000000S1 42....+000000S2"),
        "block 1: WordTwice 42",
    ),
    (
        "a set has the number 0",
        Field::Edited(&[(
            "410002+00000020 42....+00000001",
            "410002+00000020 42....+00000000",
        )]),
        "block 2: SetNumber",
    ),
    (
        "a set has the number 10000",
        Field::Edited(&[(
            "410002+00000020 42....+00000001",
            "410002+00000020 42....+00010000",
        )]),
        "block 2: SetNumber",
    ),
    (
        "a set is opened again",
        Field::Begun(STATION.len(), "410013+00000020 42....+00000002"),
        "block 13: SetTwice",
    ),
    (
        "a station is occupied again",
        Field::Begun(
            STATION.len(),
            "410013+00000010 42....+000000S1\r\n410014+00000020 42....+00000003",
        ),
        "block 14: StationTwice",
    ),
    (
        "a line has a tab",
        Field::Begun(0, "110001+0000000A\t21.102+00000000"),
        "block 1: Byte 16",
    ),
    (
        "a line begins with another word",
        Field::Begun(0, "510001+00000000"),
        "block 1: FirstWord",
    ),
];

#[test]
fn every_call_names_the_fault_of_a_field_file(rt: HostRuntime) -> Result<(), Fail> {
    for (row, field, fault) in REFUSED {
        let gsi = field_text(rt.alloc(), field)?;
        let gsi = gsi.as_bytes();
        let line = format!(in rt.alloc(); "refused: {fault}\n")?;
        let verdict = checked(rt.alloc(), gsi, SHEET, AMPLE)?;
        assert_eq!(rt; verdict.text(), line.as_bytes(), "{row}");
        let list = listed(rt.alloc(), gsi, usual_limits()?, AMPLE)?;
        assert_eq!(rt; list.text(), line.as_bytes(), "{row}");
        let means = means_of(rt.alloc(), gsi, AMPLE)?;
        assert_eq!(rt; means.text(), line.as_bytes(), "{row}");
    }
    Ok(())
}

/// Blocks and words that are passed over.
const PASSED_OVER: &[(&str, Edits<'static>)] = &[
    (
        "a reading in another unit, before the station",
        &[("410001+", "110001+0000000A 21.104+00000000\r\n410001+")],
    ),
    (
        "words of other indices, another code, and a reading after the last set",
        &[
            (
                "22.102+10000000",
                "22.102+10000000 31..00+00012345 51....+0000+000 87..10+00001500",
            ),
            (
                "22.102+30000000",
                "22.102+30000000 31..00+00012345 51....+0000+000 87..10+00001500",
            ),
            (
                "22.102+29999998",
                "22.102+29999998 31..00+00012345 51....+0000+000 87..10+00001500",
            ),
            ("110004+", "410099+?......1\r\n110004+"),
            (
                "410012+00000030\r\n",
                "410012+00000030\r\n110013+00000099 21.102+11111111 22.102+10000000\r\n",
            ),
        ],
    ),
];

#[test]
fn what_is_passed_over_changes_no_answer(rt: HostRuntime) -> Result<(), Fail> {
    for (row, edits) in PASSED_OVER {
        let gsi = edited(rt.alloc(), STATION, edits)?;
        assert!(rt;
            answers_as_ever(rt.alloc(), gsi.as_bytes(), AMPLE)?,
            "{row}"
        );
    }
    Ok(())
}

/// Sheets of `STATION`, and the verdict.
const SHEETS: &[(&str, Edits<'static>, &str)] = &[
    (
        "a direction is 1 more",
        &[("40000024", "40000025")],
        "refused: kernel: TargetSum 2\n",
    ),
    (
        "the orientations are against each other",
        &[("set,1,,-20", "set,1,,-19"), ("-80000020", "-80000021")],
        "refused: kernel: SetSum 1\n",
    ),
    (
        "all directions and orientations are turned",
        &[
            ("target,,A,0", "target,,A,4"),
            ("40000024", "40000028"),
            ("set,1,,-20", "set,1,,-16"),
            ("-80000020", "-80000016"),
        ],
        "refused: kernel: Datum\n",
    ),
    (
        "foolish full turns have a least sum too",
        &[
            ("30000012,0", "30000012,9"),
            ("40000024", "1480000024"),
            ("set,1,,-20", "set,1,,719999980"),
            ("-80000020", "-800000020"),
        ],
        "accepted S1: 2 sets, 2 targets, 4 directions, greatest residual 720000004/4\n",
    ),
    (
        "a number is -0",
        &[("40000024", "-0")],
        "refused: sheet row 3: Number\n",
    ),
    (
        "a number begins with 0",
        &[("40000024", "007")],
        "refused: sheet row 3: Number\n",
    ),
    (
        "a name is empty",
        &[("target,,B,", "target,,,")],
        "refused: sheet row 3: Name\n",
    ),
    (
        "a row has six fields",
        &[("40000024,", "40000024,,")],
        "refused: sheet row 3: Fields\n",
    ),
    (
        "the denominator is 0",
        &[("S1,4,", "S1,0,")],
        "refused: sheet row 1: Range\n",
    ),
    (
        "the denominator is above its range",
        &[("S1,4,", "S1,1000000001,")],
        "refused: sheet row 1: Range\n",
    ),
    (
        "no such version",
        &[("sheet,1,", "sheet,3,")],
        "refused: sheet row 1: Version\n",
    ),
    (
        "the targets are exchanged",
        &[(
            "target,,A,0,\ntarget,,B,40000024,\n",
            "target,,B,40000024,\ntarget,,A,0,\n",
        )],
        "refused: kernel: TargetRow 1\n",
    ),
    (
        "the sets are exchanged",
        &[(
            "set,1,,-20,\nset,2,,-80000020,\n",
            "set,2,,-80000020,\nset,1,,-20,\n",
        )],
        "refused: kernel: SetRow 1\n",
    ),
    (
        "an observation is 1 more",
        &[("obs,1,A,6,0", "obs,1,A,7,0")],
        "refused: kernel: ObsRow 1\n",
    ),
    (
        "the last observation is missing",
        &[("obs,2,B,30000012,0\n", "")],
        "refused: kernel: ObsRow 4\n",
    ),
    (
        "all over twice the denominator",
        &[
            ("S1,4,", "S1,8,"),
            ("40000024", "80000048"),
            ("set,1,,-20", "set,1,,-40"),
            ("-80000020", "-160000040"),
        ],
        "accepted S1: 2 sets, 2 targets, 4 directions, greatest residual 8/8\n",
    ),
    (
        "a full turn more in the second set and its orientation",
        &[
            ("20000004,0", "20000004,1"),
            ("30000012,0", "30000012,1"),
            ("-80000020", "-400000020"),
        ],
        "accepted S1: 2 sets, 2 targets, 4 directions, greatest residual 4/4\n",
    ),
    (
        "the largest numbers",
        &[
            ("S1,4,", "S1,1000000000,"),
            ("40000024", "1000000000000000000"),
            ("set,1,,-20", "set,1,,-1000000000000000000"),
            ("-80000020", "-1000000000000000000"),
        ],
        "refused: kernel: TargetSum 1\n",
    ),
    (
        "1 above the largest numbers",
        &[
            ("S1,4,", "S1,1000000000,"),
            ("40000024", "1000000000000000001"),
            ("set,1,,-20", "set,1,,-1000000000000000000"),
            ("-80000020", "-1000000000000000000"),
        ],
        "refused: sheet row 3: Range\n",
    ),
];

#[test]
fn the_first_fault_of_a_sheet_is_named(rt: HostRuntime) -> Result<(), Fail> {
    for (row, edits, line) in SHEETS {
        let sheet = edited(rt.alloc(), SHEET, edits)?;
        let verdict = checked(rt.alloc(), STATION, sheet.as_bytes(), AMPLE)?;
        assert_eq!(rt; verdict.text(), line.as_bytes(), "{row}");
    }
    let verdict = checked(rt.alloc(), b"", SHEET, AMPLE)?;
    assert_eq!(rt; verdict.text(), b"refused: no station\n".as_slice());
    let verdict = checked(rt.alloc(), STATION, b"", AMPLE)?;
    assert_eq!(rt;
        verdict.text(),
        b"refused: sheet row 1: Unfinished\n".as_slice()
    );
    Ok(())
}

/// What is asked of a field file: its list with a limit of 2c, the sheet of means, or the verdict
/// on a sheet.
#[derive(Drop)]
enum Asked<'a> {
    List(u32),
    Means,
    Verdict(&'a str),
}

/// What the call answers.
fn answer(alloc: Global, gsi: &[u8], asked: &Asked<'_>) -> Result<Ran, Fail> {
    match *asked {
        Asked::List(two_c) => {
            let limits = Limits::new(two_c, 2_000).ok_or("no limits")?;
            listed(alloc, gsi, limits, AMPLE)
        }
        Asked::Means => means_of(alloc, gsi, AMPLE),
        Asked::Verdict(sheet) => checked(alloc, gsi, sheet.as_bytes(), AMPLE),
    }
}

/// One target.
const ONE: &[Reading<'static>] = &[(1, "A", 0, 20_000_000)];

/// A target whose direction is near the end of the circle.
const AT_END: &[Reading<'static>] = &[(1, "A", 39_999_999, 20_000_001)];

/// Directions about the zero of the circle.
const ABOUT_ZERO: &[Reading<'static>] = &[
    (1, "A", 0, 20_000_000),
    (1, "B", 39_999_995, 19_999_995),
    (2, "A", 10, 20_000_010),
    (2, "B", 2, 20_000_002),
];

/// The means of `ABOUT_ZERO`.
const ABOUT_ZERO_MEANS: &str = "\
sheet,1,S1,4,
target,,A,0,
target,,B,319999948,
set,1,,-6,
set,2,,-74,
obs,1,A,0,0
obs,1,B,79999990,0
obs,2,A,20,0
obs,2,B,4,1
";

/// The readings of `STATION`, and a target in its first set alone.
const THREE_TARGETS: &[Reading<'static>] = &[
    (1, "A", 0, 20_000_006),
    (1, "B", 5_000_000, 25_000_010),
    (1, "C", 10_000_001, 30_000_001),
    (2, "A", 10_000_000, 30_000_004),
    (2, "B", 15_000_004, 35_000_008),
];

/// The sheet of `THREE_TARGETS`.
const THREE_TARGETS_SHEET: &str = "\
sheet,1,S1,4,
target,,A,0,
target,,B,40000024,
target,,C,79999988,
set,1,,-20,
set,2,,-80000020,
obs,1,A,6,0
obs,1,B,10000010,0
obs,1,C,20000002,0
obs,2,A,20000004,0
obs,2,B,30000012,0
";

/// Four directions of which one is 1 more.
const UNEVEN: &[Reading<'static>] = &[
    (1, "A", 0, 20_000_000),
    (1, "B", 0, 20_000_000),
    (2, "A", 0, 20_000_000),
    (2, "B", 0, 20_000_001),
];

/// The best sheet of `UNEVEN` in whole half units: over a larger denominator there is a better one.
const UNEVEN_SHEET: &str = "\
sheet,1,S1,1,
target,,A,0,
target,,B,0,
set,1,,0,
set,2,,0,
obs,1,A,0,0
obs,1,B,0,0
obs,2,A,0,0
obs,2,B,1,0
";

/// A target with a comma and a quote in its name.
const QUOTED: &[Reading<'static>] = &[(1, "A,\"1", 0, 20_000_006)];

/// The means of `QUOTED`.
const QUOTED_MEANS: &str = "\
sheet,1,S1,1,
target,,\"A,\"\"1\",0,
set,1,,-6,
obs,1,\"A,\"\"1\",6,0
";

/// Readings, what stands in the place of some of their words, what is asked and what is answered.
const READ: &[(&[Reading<'static>], Edits<'static>, Asked<'static>, &str)] = &[
    (
        AT_END,
        &[],
        Asked::List(2_000),
        "station S1: 1 sets, 1 targets, 1 directions\nset 1, target A: p 0, 2c 2, 2i 0\n",
    ),
    (
        AT_END,
        &[],
        Asked::Means,
        "sheet,1,S1,1,\ntarget,,A,0,\nset,1,,0,\nobs,1,A,0,0\n",
    ),
    (ABOUT_ZERO, &[], Asked::Means, ABOUT_ZERO_MEANS),
    (
        ABOUT_ZERO,
        &[],
        Asked::Verdict(ABOUT_ZERO_MEANS),
        "accepted S1: 2 sets, 2 targets, 4 directions, greatest residual 6/4\n",
    ),
    (
        THREE_TARGETS,
        &[],
        Asked::Verdict(THREE_TARGETS_SHEET),
        "accepted S1: 2 sets, 3 targets, 5 directions, greatest residual 4/4\n",
    ),
    (
        THREE_TARGETS,
        &[],
        Asked::Means,
        "refused: means: Incomplete\n",
    ),
    (
        ROUND,
        &[],
        Asked::Verdict(ROUND_SHEET),
        "accepted S1: 3 sets, 3 targets, 6 directions, greatest residual 1/1\n",
    ),
    (
        APART,
        &[],
        Asked::Verdict(APART_SHEET),
        "refused: kernel: NotConnected\n",
    ),
    (
        ONE,
        &[("20000000", "20002000")],
        Asked::List(2_000),
        "station S1: 1 sets, 1 targets, 1 directions\nset 1, target A: p 2000, 2c 2000, 2i 0\n",
    ),
    (
        ONE,
        &[("20000000", "19998000")],
        Asked::List(2_000),
        "station S1: 1 sets, 1 targets, 1 directions\n\
         set 1, target A: p 79998000, 2c -2000, 2i 0\n",
    ),
    (
        ONE,
        &[("20000000", "20002001")],
        Asked::List(2_000),
        "refused: block 4: TwoC\n",
    ),
    (
        ONE,
        &[("20000000", "20002001")],
        Asked::List(2_001),
        "station S1: 1 sets, 1 targets, 1 directions\nset 1, target A: p 2001, 2c 2001, 2i 0\n",
    ),
    (
        ONE,
        &[("30000000", "30002001")],
        Asked::List(2_000),
        "refused: block 4: TwoI\n",
    ),
    (
        ONE,
        &[("22.102+10000000", "22.102+20000000")],
        Asked::List(2_000),
        "refused: block 3: FaceUnclear\n",
    ),
    (
        ONE,
        &[("22.102+10000000", "22.102+00000000")],
        Asked::List(2_000),
        "refused: block 3: FaceUnclear\n",
    ),
    (
        ONE,
        &[
            ("22.102+10000000", "22.102+19999999"),
            ("22.102+30000000", "22.102+20000001"),
        ],
        Asked::List(2_000),
        "station S1: 1 sets, 1 targets, 1 directions\nset 1, target A: p 0, 2c 0, 2i 0\n",
    ),
    (
        UNEVEN,
        &[],
        Asked::Verdict(UNEVEN_SHEET),
        "refused: kernel: TargetSum 2\n",
    ),
    (QUOTED, &[], Asked::Means, QUOTED_MEANS),
    (
        QUOTED,
        &[],
        Asked::Verdict(QUOTED_MEANS),
        "accepted S1: 1 sets, 1 targets, 1 directions, greatest residual 0/1\n",
    ),
];

#[test]
fn readings_have_these_answers(rt: HostRuntime) -> Result<(), Fail> {
    for (readings, edits, asked, text) in READ {
        let gsi = field_file(rt.alloc(), readings)?;
        let gsi = edited(rt.alloc(), gsi.as_bytes(), edits)?;
        let ran = answer(rt.alloc(), gsi.as_bytes(), asked)?;
        assert_eq!(rt; ran.text(), text.as_bytes(), "{gsi}");
    }
    Ok(())
}

/// The means of the largest station: directions 8000000 apart, and residuals of 0.
fn large_means(alloc: Global) -> Result<String, Fail> {
    let mut text = String::from_str(alloc, "sheet,1,S1,4000,\n")?;
    for target in 1..=100_u32 {
        let direction = target.saturating_sub(1).saturating_mul(8_000_000);
        text.push_str(&format!(in alloc; "target,,{target},{direction},\n")?)?;
    }
    for set in 1..=40_u32 {
        text.push_str(&format!(in alloc; "set,{set},,-8000000,\n")?)?;
    }
    for set in 1..=40_u32 {
        for target in 1..=100_u32 {
            let direction = target.saturating_mul(2_000);
            text.push_str(&format!(in alloc; "obs,{set},{target},{direction},0\n")?)?;
        }
    }
    Ok(text)
}

#[test]
fn a_station_has_so_many_sets_and_targets(rt: HostRuntime) -> Result<(), Fail> {
    let sheet = large_means(rt.alloc())?;
    let gsi = large_file(rt.alloc(), 40, 100)?;
    let means = means_of(rt.alloc(), gsi.as_bytes(), AMPLE)?;
    assert_eq!(rt; means.text(), sheet.as_bytes());
    let rows: [(u32, u32, &[u8]); 3] = [
        (
            40,
            100,
            b"accepted S1: 40 sets, 100 targets, 4000 directions, greatest residual 0/4000\n",
        ),
        (40, 101, b"refused: block 103: TooManyTargets\n"),
        (41, 100, b"refused: block 8042: TooManySets\n"),
    ];
    for (sets, targets, line) in rows {
        let gsi = large_file(rt.alloc(), sets, targets)?;
        let verdict = checked(rt.alloc(), gsi.as_bytes(), sheet.as_bytes(), AMPLE)?;
        assert_eq!(rt; verdict.text(), line);
    }
    Ok(())
}

/// Files of 16 MB, for which the watched build of `rt try --test` needs longer than it is given.
#[test]
fn a_line_and_a_file_have_so_many_bytes(rt: HostRuntime) -> Result<(), Fail> {
    let rows = [
        (" ", 1_024, "\n", ""),
        (" ", 1_025, "", "refused: block 1: LineTooLong\n"),
        ("\n", 16_777_216, "", ""),
        ("\n", 16_777_216, "\n", "refused: block 1: FileTooLong\n"),
    ];
    for (text, times, end, line) in rows {
        let mut gsi = text.repeat(rt.alloc(), times)?;
        gsi.push_str(end)?;
        let list = listed(rt.alloc(), gsi.as_bytes(), usual_limits()?, AMPLE)?;
        assert_eq!(rt; list.text(), line.as_bytes());
    }
    Ok(())
}

#[test]
fn a_read_that_fails_is_answered_again(rt: HostRuntime) -> Result<(), Fail> {
    let gsi = STATION.get(..THREE_LINES + 5).ok_or("a longer file")?;
    let mut out = Held::new(rt.alloc(), AMPLE, AMPLE, false)?;
    let mut err = Held::new(rt.alloc(), AMPLE, AMPLE, false)?;
    let reader = Script::new(gsi, AMPLE, true);
    let status = run_list(rt.alloc(), reader, usual_limits()?, &mut out, &mut err);
    assert_eq!(rt; status, 1);
    assert_eq!(rt; err.bytes(), b"refused: block 4: Read\n".as_slice());
    let mut lines = Lines::new(rt.alloc(), Script::new(gsi, AMPLE, true))?;
    for _ in 0..3 {
        lines.next()?;
    }
    for _ in 0..2 {
        let fault = lines.next().err();
        assert_eq!(rt; fault, Some(FileFault::At(4, FileKind::Read)));
    }
    Ok(())
}
