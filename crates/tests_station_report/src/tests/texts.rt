//! Stations worked in exact fractions: what a report computes of them, and its text.

use super::worked::{
    AMPLE, FROM_ZENITHS, HEAD, NOTHING_TO_COMPARE, ONE_SET, STEPS, ZENITHS, given, held, limits,
    limits_with, refused, report_of, room_for, s1, s4, with_line,
};
use adjust_kernel::ResidualLimit;
use exact_adjustment::{AdjustError, AdjustFault};
use station_answers::{Report, answer_of, run_answer, write_answer};
use station_check::Fault;
use station_compare::{CompareFault, Refusal};
use station_report::{Accuracy, Head, computed_of, degrees_of};
use std::alloc::Global;
use std::process::Abort;
use std::test::Fail;
use test_support::{Observed, TIE, TWO_PARTS, station_of};

/// The report of a file of this path.
const REPORT: Report<'static, 'static> = Report { head: HEAD };

/// The last reading is 30 mgon off: two residuals are 10 mgon, no more than there may be.
const LARGEST: [Observed; 6] = [
    (0, 0, 0),
    (0, 1, 0),
    (1, 0, 0),
    (1, 1, 0),
    (2, 0, 0),
    (2, 1, 6_000),
];

/// The second set is without A and the third without B.
const GAPS: [Observed; 7] = [
    (0, 0, 0),
    (0, 1, 10_000_000),
    (0, 2, 30_000_007),
    (1, 1, 50_000_010),
    (1, 2, 70_000_000),
    (2, 0, 20_000_002),
    (2, 2, 50_000_020),
];

/// One set, which nothing stands against.
const ALONE: [Observed; 3] = [(0, 0, 0), (0, 1, 10_000_000), (0, 2, 79_999_999)];

/// The angles differ by a half unit: residuals are quarters of it, and the root of the sum of their
/// squares is half of it, which is 2.5 units.
const MIDDLE: [Observed; 4] = [(0, 0, 0), (0, 1, 0), (1, 0, 0), (1, 1, 1)];

/// The accuracy of these numbers.
fn accuracy(squares: u64, of_one: u32, of_adjusted: Option<u32>) -> Option<Accuracy> {
    Some(Accuracy {
        squares,
        of_one,
        of_adjusted,
    })
}

/// Sums of squares are 25 / 4, 300,000,000 and 10,070 / 3, in squares of 0.001 mgon; variances these
/// over the degrees of freedom, and of adjusted directions over the sets too.
#[test]
fn sums_and_standard_deviations_are_rounded_once(rt: HostRuntime) -> Result<(), Fail> {
    let cases: [(u16, &[u8], &[Observed], u64, Option<Accuracy>, usize); 5] = [
        (2, b"AB", &MIDDLE, 1, accuracy(6, 3, Some(2)), 0),
        (
            3,
            b"AB",
            &LARGEST,
            2,
            accuracy(300_000_000, 12_247, Some(7_071)),
            4,
        ),
        (3, b"ABC", &GAPS, 2, accuracy(3_357, 41, None), 1),
        (1, b"ABC", &ALONE, 0, None, 0),
        (2, b"A", &[(0, 0, 7), (1, 0, 79_999_999)], 0, None, 0),
    ];
    for (sets, letters, observed, degrees, accuracy, greatest) in cases {
        let station = station_of(rt.alloc(), sets, letters, observed)?;
        let limit = ResidualLimit::new(2_000).expect(&rt, "a limit");
        let computed = computed_of(rt.alloc(), &station, limit).map_err(|_| "no adjustment")?;
        assert_eq!(rt; degrees_of(&station), degrees);
        assert_eq!(rt; computed.accuracy, accuracy);
        assert_eq!(rt; computed.greatest, greatest);
    }
    Ok(())
}

/// 40 sets of 2 targets, of which the second goes through the squares modulo 7: the sum of squares is
/// 15,795 / 16.
#[test]
fn the_most_sets_have_a_standard_deviation(rt: HostRuntime) -> Result<(), Fail> {
    let mut observed = Vec::new(rt.alloc());
    for set in 0..40u32 {
        observed.push((set, 0, set * 1_000))?;
        observed.push((set, 1, set * 1_000 + 5_000_000 + set * set % 7))?;
    }
    let station = station_of(rt.alloc(), 40, b"AB", &observed)?;
    let limit = ResidualLimit::new(2).expect(&rt, "a limit");
    let computed = computed_of(rt.alloc(), &station, limit).map_err(|_| "no adjustment")?;
    assert_eq!(rt; degrees_of(&station), 39);
    assert_eq!(rt; computed.accuracy, accuracy(987, 5, Some(1)));
    Ok(())
}

#[test]
fn a_residual_above_its_limit_is_refused(rt: HostRuntime) -> Result<(), Fail> {
    let mut above = LARGEST;
    above[5].2 += 1;
    for (observed, half_units) in [(above, 2_000), (LARGEST, 1_999)] {
        let station = station_of(rt.alloc(), 3, b"AB", &observed)?;
        let limit = ResidualLimit::new(half_units).expect(&rt, "a limit");
        let answer = computed_of(rt.alloc(), &station, limit);
        assert!(rt; matches!(answer, Err(AdjustError::Fault(AdjustFault::Residual(5)))));
    }
    Ok(())
}

#[test]
fn a_report_says_the_limit_that_its_residuals_keep(rt: HostRuntime) -> Result<(), Fail> {
    for (worked, half_units, want) in held() {
        let limits = limits_with(&rt, half_units);
        let gsi = given(worked.gsi, usize::MAX, false);
        let mut out = room_for(rt.alloc(), AMPLE, false)?;
        let mut err = room_for(rt.alloc(), AMPLE, false)?;
        let name = worked.name;
        let status = run_answer(rt.alloc(), gsi, name, limits, &REPORT, &mut out, &mut err);
        match want {
            Ok(line) => {
                let report = report_of(rt.alloc(), worked)?;
                let report = with_line(rt.alloc(), &report, b"Limit of residuals", line)?;
                assert_eq!(rt; out.bytes(), report.as_slice());
                assert_eq!(rt; (err.bytes(), status), (b"".as_slice(), 0));
            }
            Err(line) => assert_eq!(rt;
                (out.bytes(), err.bytes(), status),
                (b"".as_slice(), line, 1)
            ),
        }
    }
    Ok(())
}

/// Codes of control bytes, escapes as `sha256sum` prints them, and a backslash before a path with
/// either.
#[test]
fn a_path_with_control_bytes_is_shown_by_codes(rt: HostRuntime) -> Result<(), Fail> {
    let paths: [(&[u8], &[u8]); 4] = [
        (
            b"\x1b[2Jfield.gsi",
            b"Field file            \\\\x1b[2Jfield.gsi\n",
        ),
        (
            b"\x00\x1f \x7f",
            b"Field file            \\\\x00\\x1f \\x7f\n",
        ),
        (
            b"a\\\n\r\tb",
            b"Field file            \\a\\\\\\n\\r\\x09b\n",
        ),
        (b"\xc3\xa4~", b"Field file            \xc3\xa4~\n"),
    ];
    let report = report_of(rt.alloc(), s1())?;
    for (path, line) in paths {
        let gsi = given(s1().gsi, usize::MAX, false);
        let head = Head { path, notes: None };
        let asked = Report { head };
        let (answer, _gsi) = answer_of(rt.alloc(), gsi, s1().name, limits(&rt), &asked);
        match answer {
            Ok(text) => {
                let want = with_line(rt.alloc(), &report, b"Field file", line)?;
                assert_eq!(rt; text.as_slice(), want.as_slice());
            }
            Err(Refusal { fault, .. }) => assert!(rt; false, "{fault:?}"),
        }
    }
    Ok(())
}

#[test]
fn a_report_is_printed_of_a_file_in_pieces(rt: HostRuntime) -> Result<(), Fail> {
    for worked in [s1(), s4()] {
        let report = report_of(rt.alloc(), worked)?;
        for step in STEPS {
            let gsi = given(worked.gsi, step, false);
            let mut out = room_for(rt.alloc(), AMPLE, false)?;
            let mut err = room_for(rt.alloc(), AMPLE, false)?;
            let limits = limits(&rt);
            let name = worked.name;
            let status = run_answer(rt.alloc(), gsi, name, limits, &REPORT, &mut out, &mut err);
            assert_eq!(rt; err.bytes(), b"".as_slice());
            assert_eq!(rt; out.bytes(), report.as_slice());
            assert_eq!(rt; status, 0);
        }
    }
    Ok(())
}

/// Fails where the report of a station S1 doesn't end so.
fn check_end(rt: &impl Abort, alloc: Global, gsi: &[u8], ends: &[u8]) {
    let gsi = given(gsi, usize::MAX, false);
    let (answer, _gsi) = answer_of(alloc, gsi, b"S1", limits(rt), &REPORT);
    match answer {
        Ok(text) => {
            let end = text.len().saturating_sub(ends.len());
            assert_eq!(rt; &text.as_slice()[end..], ends);
        }
        Err(Refusal { fault, .. }) => assert!(rt; false, "{fault:?}"),
    }
}

#[test]
fn where_no_angle_was_measured_twice_there_is_nothing_to_compare(
    rt: HostRuntime,
) -> Result<(), Fail> {
    check_end(&rt, rt.alloc(), ONE_SET, NOTHING_TO_COMPARE);
    Ok(())
}

#[test]
fn the_mean_of_zenith_angles_has_its_deviation_where_two_sets_have_the_target(
    rt: HostRuntime,
) -> Result<(), Fail> {
    check_end(&rt, rt.alloc(), ZENITHS, FROM_ZENITHS);
    Ok(())
}

#[test]
fn a_field_file_without_a_report_has_its_first_fault(rt: HostRuntime) -> Result<(), Fail> {
    let faults: [(&[u8], &[u8], CompareFault); 3] = [
        (s1().gsi, b"S2", CompareFault::File(Fault::NoStation)),
        (
            TWO_PARTS,
            b"S2",
            CompareFault::Adjust(AdjustFault::NotConnected),
        ),
        (TIE, b"S3", CompareFault::Adjust(AdjustFault::Residual(1))),
    ];
    for (gsi, name, fault) in faults {
        let gsi = given(gsi, usize::MAX, false);
        let (answer, _gsi) = answer_of(rt.alloc(), gsi, name, limits(&rt), &REPORT);
        assert_eq!(rt; answer.err().map(|refusal| refusal.fault), Some(fault));
    }
    for (gsi, fails, name, line) in refused() {
        let gsi = given(gsi, 7, fails);
        let mut out = room_for(rt.alloc(), AMPLE, false)?;
        let mut err = room_for(rt.alloc(), AMPLE, false)?;
        let limits = limits(&rt);
        let status = run_answer(rt.alloc(), gsi, name, limits, &REPORT, &mut out, &mut err);
        assert_eq!(rt; err.bytes(), line);
        assert_eq!(rt; out.bytes(), b"".as_slice());
        assert_eq!(rt; status, 1);
    }
    Ok(())
}

#[test]
fn a_writer_without_room_or_whose_flush_fails_is_told(rt: HostRuntime) -> Result<(), Fail> {
    let worked = s1();
    let report = report_of(rt.alloc(), worked)?;
    for room in 0..=report.len() {
        let gsi = given(worked.gsi, usize::MAX, false);
        let mut out = room_for(rt.alloc(), room, room == report.len())?;
        let (name, limits) = (worked.name, limits(&rt));
        let answer = write_answer(rt.alloc(), gsi, name, limits, &REPORT, &mut out);
        assert_eq!(rt;
            answer.map_err(|refusal| refusal.fault),
            Err(CompareFault::Write)
        );
        assert_eq!(rt; out.bytes(), &report[..room]);
    }
    Ok(())
}
