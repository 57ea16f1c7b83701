//! Stations worked in exact fractions, beside what is stated of their targets; and tables beside
//! the worked station S1, through the whole.

use adjust_kernel::{LARGEST_RESIDUAL_LIMIT, PARTS, ResidualLimit, Station};
use byte_ends::{Held, Script};
use direction_table::{AngleUnit, RowKind, TableFault, TableForm};
use exact_adjustment::{AdjustError, AdjustFault, adjust};
use row_forms::RowForm;
use station_book::{Limits, ResultLimits};
use station_check::Fault;
use station_compare::{CompareFault, Refusal};
use station_differences::{LineForm, TargetLine, is_enough, lines_by, text_of};
use std::alloc::Global;
use std::process::Abort;
use std::test::Fail;
use table_answers::{Differences, run_table_answer, table_answer_of, write_table_answer};
use test_support::{Observed, S1, TIE, TWO_PARTS, station_of};

/// A table of S1, its rows in another order than the station's targets, turned by 100 gon.
const STATED: &[u8] = b"B;150,0001\nA;100,0001\n";

/// What is asked of a table in gon.
const IN_GON: Differences = Differences {
    form: TableForm {
        unit: AngleUnit::Gon,
        columns: None,
    },
    written: LineForm::Rows(RowForm::Commas),
};

/// What is printed of it.
const DIFFERENCES: &[u8] = b"target,stated,least squares,difference,from the median\n\
A,100.000100,0.000000,0.015,0.030\n\
B,150.000100,50.000030,-0.015,0.000\n";

/// The same for a spreadsheet that wants decimal commas.
const WITH_COMMAS: &[u8] = b"target;stated;least squares;difference;from the median\n\
A;100,000100;0,000000;0,015;0,030\n\
B;150,000100;50,000030;-0,015;0,000\n";

fn limits(rt: &impl Abort) -> ResultLimits {
    ResultLimits::of_faces(Limits::new(100, 100).expect(rt, "limits"))
}

/// A limit of residuals, in half units.
fn residual(rt: &impl Abort, half_units: u32) -> ResidualLimit {
    ResidualLimit::new(half_units).expect(rt, "a limit")
}

/// The lines of what is stated, in units of 0.000000001 gon, beside a station.
fn lines(
    rt: &impl Abort,
    alloc: Global,
    station: &Station,
    stated: &[Option<i64>],
) -> Result<Vec<TargetLine>, Fail> {
    let mut parts = Vec::new(alloc);
    for direction in stated {
        parts.push(match direction {
            Some(direction) => Some(direction.saturating_mul(PARTS as i64)),
            None => None,
        })?;
    }
    assert_eq!(rt; parts.len(), station.targets().len());
    assert!(rt; is_enough(&parts));
    let largest = residual(rt, LARGEST_RESIDUAL_LIMIT);
    let adjustment = adjust(alloc, station, largest).map_err(|_| "no adjustment")?;
    Ok(lines_by(alloc, station.targets(), &adjustment, &parts)?)
}

/// The text of directions that are stated of all targets, in units of 0.000000001 gon, beside a
/// station.
fn text(
    rt: &impl Abort,
    alloc: Global,
    station: &Station,
    stated: &[i64],
) -> Result<Vec<u8>, Fail> {
    let mut all = Vec::new(alloc);
    for direction in stated {
        all.push(Some(*direction))?;
    }
    let lines = lines(rt, alloc, station, &all)?;
    Ok(text_of(alloc, &lines, LineForm::Rows(RowForm::Commas))?)
}

/// Two targets in two sets, whose angles differ by 2 half units: that of the adjustment is
/// 50.000025 gon.
const TWO: [Observed; 4] = [
    (0, 0, 6),
    (0, 1, 10_000_010),
    (1, 0, 20_000_004),
    (1, 1, 30_000_010),
];

/// The second set is without A and the third without B: the directions of B and C are 10000009 1/3
/// and 30000009 13/15 half units.
const GAPS: [Observed; 7] = [
    (0, 0, 0),
    (0, 1, 10_000_000),
    (0, 2, 30_000_007),
    (1, 1, 50_000_010),
    (1, 2, 70_000_000),
    (2, 0, 20_000_002),
    (2, 2, 50_000_020),
];

/// One set of four targets, at 0, 100, 200 and 300 gon.
const QUARTERS: [Observed; 4] = [
    (0, 0, 0),
    (0, 1, 20_000_000),
    (0, 2, 40_000_000),
    (0, 3, 60_000_000),
];

/// A full gon, in units of 0.000000001 gon.
const GON: i64 = 1_000_000_000;

#[test]
fn two_targets_lie_on_both_sides_of_their_middle(rt: HostRuntime) -> Result<(), Fail> {
    let cases: [([i64; 2], &[u8]); 6] = [
        // Exactly the least-squares angle, in whichever rotation, and with more than six decimals.
        (
            [123_456_789_012, 173_456_814_012],
            b"target,stated,least squares,difference,from the median\n\
            A,123.456789012,0.000000,0.000,0.000\n\
            B,173.456814012,50.000025,0.000,0.000\n",
        ),
        // Half a unit and one and a half: the middle of two goes up, on both sides of 0.
        (
            [0, 50_000_026_000],
            b"target,stated,least squares,difference,from the median\n\
            A,0.000000,0.000000,0.000,0.000\n\
            B,50.000026,50.000025,0.001,0.001\n",
        ),
        (
            [0, 50_000_028_000],
            b"target,stated,least squares,difference,from the median\n\
            A,0.000000,0.000000,-0.001,0.000\n\
            B,50.000028,50.000025,0.002,0.003\n",
        ),
        (
            [0, 50_000_024_000],
            b"target,stated,least squares,difference,from the median\n\
            A,0.000000,0.000000,0.001,0.001\n\
            B,50.000024,50.000025,0.000,0.000\n",
        ),
        // What is stated below 0 is printed on the circle.
        (
            [-1_000, 50_000_024_000],
            b"target,stated,least squares,difference,from the median\n\
            A,399.999999,0.000000,0.000,0.000\n\
            B,50.000024,50.000025,0.000,0.000\n",
        ),
        // Half a circle apart: of the two arcs the one that begins at the first target.
        (
            [200 * GON, 50_000_025_000],
            b"target,stated,least squares,difference,from the median\n\
            A,200.000000,0.000000,-100000.000,0.000\n\
            B,50.000025,50.000025,100000.000,200000.000\n",
        ),
    ];
    let station = station_of(rt.alloc(), 2, b"AB", &TWO)?;
    for (stated, want) in cases {
        assert_eq!(rt; text(&rt, rt.alloc(), &station, &stated)?.as_slice(), want);
    }
    Ok(())
}

#[test]
fn an_incomplete_station_has_differences_of_fractions(rt: HostRuntime) -> Result<(), Fail> {
    let cases: [([i64; 3], &[u8]); 2] = [
        (
            [0, 50_000_026_000, 150_000_029_000],
            b"target,stated,least squares,difference,from the median\n\
            A,0.000000,0.000000,0.010,0.020\n\
            B,50.000026,50.000047,-0.010,0.000\n\
            C,150.000029,150.000049,-0.010,0.000\n",
        ),
        // One direction has a decimal more than six, so all have nine.
        (
            [1_000_000, 50_000_026_400, 150_000_029_000],
            b"target,stated,least squares,difference,from the median\n\
            A,0.001000000,0.000000,0.510,1.020\n\
            B,50.000026400,50.000047,-0.510,0.000\n\
            C,150.000029000,150.000049,-0.510,0.000\n",
        ),
    ];
    let station = station_of(rt.alloc(), 3, b"ABC", &GAPS)?;
    for (stated, want) in cases {
        assert_eq!(rt; text(&rt, rt.alloc(), &station, &stated)?.as_slice(), want);
    }
    Ok(())
}

#[test]
fn a_target_that_is_not_stated_has_its_least_squares_direction(
    rt: HostRuntime,
) -> Result<(), Fail> {
    let cases: [([Option<i64>; 3], &[u8], &[u8]); 2] = [
        // The rotation and the median are those of A and C.
        (
            [Some(0), None, Some(150_000_029_000)],
            b"target,stated,least squares,difference,from the median\n\
            A,0.000000,0.000000,0.010,0.020\n\
            B,,50.000047,,\n\
            C,150.000029,150.000049,-0.010,0.000\n",
            b"{\"target\":\"A\",\"stated\":0.000000,\"least_squares\":0.000000,\
            \"difference\":0.010,\"from_median\":0.020}\n\
            {\"target\":\"B\",\"stated\":null,\"least_squares\":50.000047,\
            \"difference\":null,\"from_median\":null}\n\
            {\"target\":\"C\",\"stated\":150.000029,\"least_squares\":150.000049,\
            \"difference\":-0.010,\"from_median\":0.000}\n",
        ),
        // The least-squares directions are counted from A all the same.
        (
            [None, Some(50_000_056_400), Some(150_000_029_000)],
            b"target,stated,least squares,difference,from the median\n\
            A,,0.000000,,\n\
            B,50.000056400,50.000047,0.015,0.030\n\
            C,150.000029000,150.000049,-0.015,0.000\n",
            b"{\"target\":\"A\",\"stated\":null,\"least_squares\":0.000000,\
            \"difference\":null,\"from_median\":null}\n\
            {\"target\":\"B\",\"stated\":50.000056400,\"least_squares\":50.000047,\
            \"difference\":0.015,\"from_median\":0.030}\n\
            {\"target\":\"C\",\"stated\":150.000029000,\"least_squares\":150.000049,\
            \"difference\":-0.015,\"from_median\":0.000}\n",
        ),
    ];
    let station = station_of(rt.alloc(), 3, b"ABC", &GAPS)?;
    for (stated, rows, objects) in cases {
        let lines = lines(&rt, rt.alloc(), &station, &stated)?;
        let text = text_of(rt.alloc(), &lines, LineForm::Rows(RowForm::Commas))?;
        assert_eq!(rt; text.as_slice(), rows);
        let text = text_of(rt.alloc(), &lines, LineForm::JsonLines)?;
        assert_eq!(rt; text.as_slice(), objects);
    }
    Ok(())
}

#[test]
fn one_stated_target_of_several_is_not_enough(rt: HostRuntime) -> Result<(), Fail> {
    let cases: [(&[Option<i64>], bool); 6] = [
        (&[Some(5)], true),
        (&[None], false),
        (&[None, Some(5)], false),
        (&[None, None, None], false),
        (&[None, Some(5), Some(5)], true),
        (&[Some(5), None, None, Some(6)], true),
    ];
    for (stated, want) in cases {
        assert_eq!(rt; is_enough(stated), want);
    }
    Ok(())
}

#[test]
fn four_targets_have_one_rotation(rt: HostRuntime) -> Result<(), Fail> {
    let cases: [([i64; 4], &[u8]); 4] = [
        // One target is off by 1 mgon, and half of that shows at each.
        (
            [0, 100 * GON, 200_001_000_000, 300 * GON],
            b"target,stated,least squares,difference,from the median\n\
            A,0.000000,0.000000,-0.500,0.000\n\
            B,100.000000,100.000000,-0.500,0.000\n\
            C,200.001000,200.000000,0.500,1.000\n\
            D,300.000000,300.000000,-0.500,0.000\n",
        ),
        // Differences of -1, 1, -2 and 0 units, across 0.
        (
            [399_999_999_000, 100_000_001_000, 199_999_998_000, 300 * GON],
            b"target,stated,least squares,difference,from the median\n\
            A,399.999999,0.000000,0.000,0.000\n\
            B,100.000001,100.000000,0.002,0.002\n\
            C,199.999998,200.000000,-0.001,-0.001\n\
            D,300.000000,300.000000,0.001,0.001\n",
        ),
        // Differences of 0, 100, 200 and 300 gon: an arc from each is as wide, and A is the first.
        (
            [0, 200 * GON, 400 * GON, 200 * GON],
            b"target,stated,least squares,difference,from the median\n\
            A,0.000000,0.000000,-150000.000,-100000.000\n\
            B,200.000000,100.000000,-50000.000,0.000\n\
            C,0.000000,200.000000,50000.000,100000.000\n\
            D,200.000000,300.000000,150000.000,200000.000\n",
        ),
        // Differences of 0, 350, 200 and 150 gon: arcs from B and from D are as wide, and B is
        // first.
        (
            [0, 50 * GON, 400 * GON, 50 * GON],
            b"target,stated,least squares,difference,from the median\n\
            A,0.000000,0.000000,-75000.000,0.000\n\
            B,50.000000,100.000000,-125000.000,-50000.000\n\
            C,0.000000,200.000000,125000.000,200000.000\n\
            D,50.000000,300.000000,75000.000,150000.000\n",
        ),
    ];
    let station = station_of(rt.alloc(), 1, b"ABCD", &QUARTERS)?;
    for (stated, want) in cases {
        assert_eq!(rt; text(&rt, rt.alloc(), &station, &stated)?.as_slice(), want);
    }
    Ok(())
}

#[test]
fn one_target_has_no_difference(rt: HostRuntime) -> Result<(), Fail> {
    let station = station_of(rt.alloc(), 1, b",", &[(0, 0, 7)])?;
    let want: &[u8] = b"target,stated,least squares,difference,from the median\n\
        \",\",399.000000,0.000000,0.000,0.000\n";
    assert_eq!(rt;
        text(&rt, rt.alloc(), &station, &[399 * GON])?.as_slice(),
        want
    );
    Ok(())
}

/// Three sets of two targets: the last angle is 6,001 half units off, so that its residuals are a
/// third of that in size, 2,000 1/3 half units, and the others a sixth.
const FAR: [Observed; 6] = [
    (0, 0, 0),
    (0, 1, 0),
    (1, 0, 0),
    (1, 1, 0),
    (2, 0, 0),
    (2, 1, 6_001),
];

/// The same, 6,000 half units off: its largest residuals are 2,000 half units.
const LESS_FAR: [Observed; 6] = [
    (0, 0, 0),
    (0, 1, 0),
    (1, 0, 0),
    (1, 1, 0),
    (2, 0, 0),
    (2, 1, 6_000),
];

#[test]
fn a_residual_above_the_limit_is_refused(rt: HostRuntime) -> Result<(), Fail> {
    for (observed, limit, fault) in [
        (FAR, LARGEST_RESIDUAL_LIMIT, Some(AdjustFault::Residual(5))),
        (LESS_FAR, LARGEST_RESIDUAL_LIMIT, None),
        (LESS_FAR, 1_999, Some(AdjustFault::Residual(5))),
        (LESS_FAR, 0, Some(AdjustFault::Residual(5))),
    ] {
        let station = station_of(rt.alloc(), 3, b"AB", &observed)?;
        assert_eq!(rt; station.targets().len(), 2);
        let limit = residual(&rt, limit);
        match adjust(rt.alloc(), &station, limit) {
            Ok(_) => assert_eq!(rt; fault, None),
            Err(AdjustError::Fault(found)) => assert_eq!(rt; Some(found), fault),
            Err(AdjustError::Memory) => assert!(rt; false),
        }
    }
    Ok(())
}

/// The refusal of S1 where no residual may be above 0.
const ABOVE_THE_LIMIT: &[u8] = b"refused: adjust: Residual 1\n\
    set 1, A: the greatest residual, above the limit of 0.000 mgon\n";

/// The refusal of a table that has no row of B.
const WITHOUT_B: &[u8] = b"refused: table: Missing 2\nthe table lacks B\n";

/// The table is read before: its fault comes first.
#[test]
fn a_table_beside_a_residual_above_the_limit_has_no_differences(
    rt: HostRuntime,
) -> Result<(), Fail> {
    // Each residual of S1 is 1 half unit in size: of two that are as great the first is named.
    let cases: [(u32, &[u8], u8, &[u8], &[u8]); 4] = [
        (1, STATED, 0, DIFFERENCES, b""),
        (0, STATED, 1, b"", ABOVE_THE_LIMIT),
        (0, b"A,0\n", 1, b"", WITHOUT_B),
        (0, b"A,0\nB,50\n", 1, b"", ABOVE_THE_LIMIT),
    ];
    for (half_units, table, status, printed, refused) in cases {
        let gsi = Script::new(S1, usize::MAX, false);
        let mut table = Script::new(table, usize::MAX, false);
        let mut out = Held::new(rt.alloc(), 400, 400, false).map_err(|_| "no memory")?;
        let mut err = Held::new(rt.alloc(), 100, 100, false).map_err(|_| "no memory")?;
        let limits = ResultLimits {
            residual: residual(&rt, half_units),
            ..limits(&rt)
        };
        let answer = run_table_answer(
            rt.alloc(),
            gsi,
            &mut table,
            b"S1",
            limits,
            &IN_GON,
            &mut out,
            &mut err,
        );
        assert_eq!(rt; answer, status);
        assert_eq!(rt; out.bytes(), printed);
        assert_eq!(rt; err.bytes(), refused);
    }
    Ok(())
}

#[test]
fn differences_are_printed_in_each_form(rt: HostRuntime) -> Result<(), Fail> {
    for (rows, want) in [
        (RowForm::Commas, DIFFERENCES),
        (RowForm::Semicolons, WITH_COMMAS),
    ] {
        let gsi = Script::new(S1, usize::MAX, false);
        let mut table = Script::new(STATED, usize::MAX, false);
        let written = LineForm::Rows(rows);
        let asked = Differences { written, ..IN_GON };
        let (answer, _gsi) = table_answer_of(
            rt.alloc(),
            gsi,
            &mut table,
            b"S1",
            limits(&rt),
            &asked,
        );
        match answer {
            Ok(noted) => assert_eq!(rt; noted.answer.as_slice(), want),
            Err(Refusal { fault, .. }) => assert!(rt; false, "{fault:?}"),
        }
    }
    Ok(())
}

#[test]
fn a_table_has_differences_or_the_first_fault(rt: HostRuntime) -> Result<(), Fail> {
    let cases: [(&[u8], &[u8], &[u8], Result<&[u8], CompareFault>); 6] = [
        (S1, b"S1", STATED, Ok(DIFFERENCES)),
        (S1, b"S2", b"", Err(CompareFault::File(Fault::NoStation))),
        (
            S1,
            b"S1",
            b"A,0\nC,1\n",
            Err(CompareFault::Table(TableFault::Row(2, RowKind::Unknown))),
        ),
        (
            S1,
            b"S1",
            b"B,50\n",
            Err(CompareFault::Table(TableFault::Missing(1))),
        ),
        (
            TWO_PARTS,
            b"S2",
            b"A,0\nB,0\n",
            Err(CompareFault::Adjust(AdjustFault::NotConnected)),
        ),
        (
            TIE,
            b"S3",
            b"A,0\nB,0\n",
            Err(CompareFault::Adjust(AdjustFault::Residual(1))),
        ),
    ];
    for (gsi, name, table, want) in cases {
        let gsi = Script::new(gsi, usize::MAX, false);
        let mut table = Script::new(table, usize::MAX, false);
        let (answer, _gsi) = table_answer_of(
            rt.alloc(),
            gsi,
            &mut table,
            name,
            limits(&rt),
            &IN_GON,
        );
        match (answer, want) {
            (Ok(noted), Ok(want)) => assert_eq!(rt; noted.answer.as_slice(), want),
            (Err(refusal), Err(want)) => assert_eq!(rt; refusal.fault, want),
            _ => assert!(rt; false),
        }
    }
    Ok(())
}

#[test]
fn what_is_stated_in_degrees_is_printed_in_gon(rt: HostRuntime) -> Result<(), Fail> {
    let cases: [(&[u8], &[u8]); 3] = [
        // 45 degrees and 0.0972 seconds are 50.00003 gon.
        (
            b"A,0-00-00.0000\nB,45-00-00.0972\n",
            b"target,stated,least squares,difference,from the median\n\
A,0.000000,0.000000,0.000,0.000\n\
B,50.000030,50.000030,0.000,0.000\n",
        ),
        // 0.2 seconds are 0.00006172839.. gon.
        (
            b"B,45-00-00.20\nA,360-00-00.00\n",
            b"target,stated,least squares,difference,from the median\n\
A,0.000000000,0.000000,-0.016,0.000\n\
B,50.000061728,50.000030,0.016,0.032\n",
        ),
        // 0.000001 seconds before 0 are 0.3 of the last decimal, up to a full circle.
        (
            b"A,-0-00-00.000001\nB,45.000027\n",
            b"target,stated,least squares,difference,from the median\n\
A,0.000000000,0.000000,0.000,0.000\n\
B,50.000030000,50.000030,0.000,0.000\n",
        ),
    ];
    for (table, want) in cases {
        let gsi = Script::new(S1, usize::MAX, false);
        let mut table = Script::new(table, usize::MAX, false);
        let asked = Differences {
            form: TableForm {
                unit: AngleUnit::Degrees,
                columns: None,
            },
            written: LineForm::Rows(RowForm::Commas),
        };
        let (answer, _gsi) = table_answer_of(
            rt.alloc(),
            gsi,
            &mut table,
            b"S1",
            limits(&rt),
            &asked,
        );
        match answer {
            Ok(noted) => assert_eq!(rt; noted.answer.as_slice(), want),
            Err(Refusal { fault, .. }) => assert!(rt; false, "{fault:?}"),
        }
    }
    Ok(())
}

#[test]
fn a_run_prints_its_text_and_answers_its_status(rt: HostRuntime) -> Result<(), Fail> {
    let cases: [(&[u8], bool, bool, u8, &[u8], &[u8]); 4] = [
        (b"S1", false, false, 0, DIFFERENCES, b""),
        (
            b"S2",
            false,
            true,
            1,
            b"",
            b"refused: no station\nthe file has S1\n",
        ),
        (b"S1", false, true, 1, b"", b"refused: table: Read\n"),
        (b"S1", true, true, 1, b"", b"refused: block 13: Read\n"),
    ];
    for (name, gsi_fails, table_fails, status, printed, refused) in cases {
        let gsi = Script::new(S1, 7, gsi_fails);
        let mut table = Script::new(STATED, 1, table_fails);
        let mut out = Held::new(rt.alloc(), 400, 400, false).map_err(|_| "no memory")?;
        let mut err = Held::new(rt.alloc(), 100, 100, false).map_err(|_| "no memory")?;
        let limits = limits(&rt);
        let answer = run_table_answer(
            rt.alloc(),
            gsi,
            &mut table,
            name,
            limits,
            &IN_GON,
            &mut out,
            &mut err,
        );
        assert_eq!(rt; answer, status);
        assert_eq!(rt; out.bytes(), printed);
        assert_eq!(rt; err.bytes(), refused);
    }
    Ok(())
}

#[test]
fn a_writer_without_room_or_whose_flush_fails_is_told(rt: HostRuntime) -> Result<(), Fail> {
    for (room, flush_fails) in [(0, false), (50, false), (400, true)] {
        let gsi = Script::new(S1, usize::MAX, false);
        let mut table = Script::new(STATED, usize::MAX, false);
        let mut out = Held::new(rt.alloc(), room, 7, flush_fails).map_err(|_| "no memory")?;
        let (answer, _note) = write_table_answer(
            rt.alloc(),
            gsi,
            &mut table,
            b"S1",
            limits(&rt),
            &IN_GON,
            &mut out,
        );
        assert_eq!(rt;
            answer.map_err(|refusal| refusal.fault),
            Err(CompareFault::Write)
        );
        let written = room.min(DIFFERENCES.len());
        assert_eq!(rt; out.bytes(), &DIFFERENCES[..written]);
    }
    Ok(())
}
