//! Stations worked in exact fractions: their observations, adjusted, and the text of these.

use adjust_kernel::{ResidualLimit, Station};
use byte_ends::{Held, Script};
use exact_adjustment::{AdjustError, AdjustFault};
use station_answers::{Residuals, answer_of, run_answer, write_answer};
use station_book::{Limits, ResultLimits};
use station_check::Fault;
use station_compare::CompareFault;
use station_residuals::text_of;
use station_results::adjusted_observations;
use std::alloc::Global;
use std::process::Abort;
use std::test::Fail;
use test_support::{Observed, S1, TIE, TWO_PARTS, station_of};

/// What is printed of S1.
const RESIDUALS: &[u8] = b"set,target,direction,adjusted,residual\n\
1,A,0.000030,0.000025,-0.005\n\
1,B,50.000050,50.000055,0.005\n\
2,A,100.000020,100.000025,0.005\n\
2,B,150.000060,150.000055,-0.005\n";

fn limits(rt: &impl Abort) -> ResultLimits {
    ResultLimits::of_faces(Limits::new(100, 100).expect(rt, "limits"))
}

/// A limit of residuals, in half units.
fn limit(rt: &impl Abort, half_units: u32) -> ResidualLimit {
    ResidualLimit::new(half_units).expect(rt, "a limit")
}

/// The text of a station's residuals.
fn text(alloc: Global, station: &Station, limit: ResidualLimit) -> Result<Vec<u8>, Fail> {
    let rows = adjusted_observations(alloc, station, limit).map_err(|_| "no adjustment")?;
    Ok(text_of(alloc, &rows)?)
}

/// Two targets in two sets, whose angles differ by 2 half units: each residual is half of one,
/// which is 2.5 units.
const HALVES: [Observed; 4] = [
    (0, 0, 6),
    (0, 1, 10_000_010),
    (1, 0, 20_000_004),
    (1, 1, 30_000_010),
];

/// A is read before 0 and adjusted at it, and the other way round.
const ACROSS_0: [Observed; 4] = [
    (0, 0, 0),
    (0, 1, 10_000_000),
    (1, 0, 79_999_999),
    (1, 1, 10_000_003),
];

/// The last reading is 30 mgon off: two residuals are 10 mgon, no more than there may be.
const LARGEST: [Observed; 6] = [
    (0, 0, 0),
    (0, 1, 0),
    (1, 0, 0),
    (1, 1, 0),
    (2, 0, 0),
    (2, 1, 6_000),
];

/// The second set is without A and the third without B: residuals are fifteenths of half units.
const GAPS: [Observed; 7] = [
    (0, 0, 0),
    (0, 1, 10_000_000),
    (0, 2, 30_000_007),
    (1, 1, 50_000_010),
    (1, 2, 70_000_000),
    (2, 0, 20_000_002),
    (2, 2, 50_000_020),
];

#[test]
fn observations_are_adjusted_and_rounded_once(rt: HostRuntime) -> Result<(), Fail> {
    let cases: [(u16, &[u8], &[Observed], &[u8]); 5] = [
        (
            2,
            b"AB",
            &HALVES,
            b"set,target,direction,adjusted,residual\n\
            1,A,0.000030,0.000028,-0.002\n\
            1,B,50.000050,50.000053,0.003\n\
            2,A,100.000020,100.000023,0.003\n\
            2,B,150.000050,150.000048,-0.002\n",
        ),
        (
            2,
            b"AB",
            &ACROSS_0,
            b"set,target,direction,adjusted,residual\n\
            1,A,0.000000,399.999995,-0.005\n\
            1,B,50.000000,50.000005,0.005\n\
            2,A,399.999995,0.000000,0.005\n\
            2,B,50.000015,50.000010,-0.005\n",
        ),
        (
            3,
            b"AB",
            &LARGEST,
            b"set,target,direction,adjusted,residual\n\
            1,A,0.000000,399.995000,-5.000\n\
            1,B,0.000000,0.005000,5.000\n\
            2,A,0.000000,399.995000,-5.000\n\
            2,B,0.000000,0.005000,5.000\n\
            3,A,0.000000,0.010000,10.000\n\
            3,B,0.030000,0.020000,-10.000\n",
        ),
        (
            3,
            b"ABC",
            &GAPS,
            b"set,target,direction,adjusted,residual\n\
            1,A,0.000000,399.999980,-0.020\n\
            1,B,50.000000,50.000026,0.026\n\
            1,C,150.000035,150.000029,-0.006\n\
            2,B,250.000050,250.000024,-0.026\n\
            2,C,350.000000,350.000026,0.026\n\
            3,A,100.000010,100.000030,0.020\n\
            3,C,250.000100,250.000080,-0.020\n",
        ),
        (
            2,
            b",",
            &[(0, 0, 7), (1, 0, 79_999_999)],
            b"set,target,direction,adjusted,residual\n\
            1,\",\",0.000035,0.000035,0.000\n\
            2,\",\",399.999995,399.999995,0.000\n",
        ),
    ];
    for (sets, letters, observed, want) in cases {
        let station = station_of(rt.alloc(), sets, letters, observed)?;
        let limit = limit(&rt, 2_000);
        assert_eq!(rt; text(rt.alloc(), &station, limit)?.as_slice(), want);
    }
    Ok(())
}

/// The greatest residual of `HALVES` is half of one half unit, and of `GAPS` 79/15: the limit is of
/// the exact one, and not of what is printed.
#[test]
fn a_residual_above_its_limit_is_refused(rt: HostRuntime) -> Result<(), Fail> {
    let mut above = LARGEST;
    above[5].2 += 1;
    let cases: [(u16, &[u8], &[Observed], u32, Option<u32>); 7] = [
        (3, b"AB", &above, 2_000, Some(5)),
        (3, b"AB", &LARGEST, 2_000, None),
        (3, b"AB", &LARGEST, 1_999, Some(5)),
        (2, b"AB", &HALVES, 1, None),
        (2, b"AB", &HALVES, 0, Some(1)),
        (3, b"ABC", &GAPS, 6, None),
        (3, b"ABC", &GAPS, 5, Some(2)),
    ];
    for (sets, letters, observed, half_units, number) in cases {
        let station = station_of(rt.alloc(), sets, letters, observed)?;
        let answer = adjusted_observations(rt.alloc(), &station, limit(&rt, half_units));
        match (answer, number) {
            (Ok(rows), None) => assert_eq!(rt; rows.len(), observed.len()),
            (Err(AdjustError::Fault(fault)), Some(number)) => {
                assert_eq!(rt; fault, AdjustFault::Residual(number));
            }
            _ => assert!(rt; false),
        }
    }
    Ok(())
}

#[test]
fn a_field_file_has_residuals_or_its_first_fault(rt: HostRuntime) -> Result<(), Fail> {
    let cases: [(&[u8], &[u8], Result<&[u8], CompareFault>); 4] = [
        (S1, b"S1", Ok(RESIDUALS)),
        (S1, b"S2", Err(CompareFault::File(Fault::NoStation))),
        (
            TWO_PARTS,
            b"S2",
            Err(CompareFault::Adjust(AdjustFault::NotConnected)),
        ),
        (
            TIE,
            b"S3",
            Err(CompareFault::Adjust(AdjustFault::Residual(1))),
        ),
    ];
    for (gsi, name, want) in cases {
        let gsi = Script::new(gsi, usize::MAX, false);
        let (answer, _gsi) = answer_of(rt.alloc(), gsi, name, limits(&rt), &Residuals);
        match (answer, want) {
            (Ok(text), Ok(want)) => assert_eq!(rt; text.as_slice(), want),
            (Err(refusal), Err(want)) => assert_eq!(rt; refusal.fault, want),
            _ => assert!(rt; false),
        }
    }
    Ok(())
}

#[test]
fn a_run_prints_its_text_and_answers_its_status(rt: HostRuntime) -> Result<(), Fail> {
    let cases: [(&[u8], bool, u8, &[u8], &[u8]); 3] = [
        (b"S1", false, 0, RESIDUALS, b""),
        (
            b"S2",
            false,
            1,
            b"",
            b"refused: no station\nthe file has S1\n",
        ),
        (b"S1", true, 1, b"", b"refused: block 13: Read\n"),
    ];
    for (name, fails, status, printed, refused) in cases {
        let gsi = Script::new(S1, 7, fails);
        let mut out = Held::new(rt.alloc(), 400, 400, false).map_err(|_| "no memory")?;
        let mut err = Held::new(rt.alloc(), 100, 100, false).map_err(|_| "no memory")?;
        let (limits, asked) = (limits(&rt), Residuals);
        let answer = run_answer(rt.alloc(), gsi, name, limits, &asked, &mut out, &mut err);
        assert_eq!(rt; answer, status);
        assert_eq!(rt; out.bytes(), printed);
        assert_eq!(rt; err.bytes(), refused);
    }
    Ok(())
}

#[test]
fn a_writer_without_room_or_whose_flush_fails_is_told(rt: HostRuntime) -> Result<(), Fail> {
    for (room, flush_fails) in [(0, false), (50, false), (400, true)] {
        let gsi = Script::new(S1, usize::MAX, false);
        let mut out = Held::new(rt.alloc(), room, 7, flush_fails).map_err(|_| "no memory")?;
        let limits = limits(&rt);
        let answer = write_answer(rt.alloc(), gsi, b"S1", limits, &Residuals, &mut out);
        assert_eq!(rt;
            answer.map_err(|refusal| refusal.fault),
            Err(CompareFault::Write)
        );
        let written = room.min(RESIDUALS.len());
        assert_eq!(rt; out.bytes(), &RESIDUALS[..written]);
    }
    Ok(())
}
