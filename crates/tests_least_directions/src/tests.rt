//! Stated directions of stations worked by hand.

use adjust_kernel::{CIRCLE, LARGEST_RESIDUAL_LIMIT, MOST_TARGETS, PARTS, ResidualLimit, Station};
use exact_adjustment::{AdjustError, AdjustFault, adjust};
use least_directions::{apart_by, rounded_directions};
use std::alloc::Global;
use std::process::Abort;
use std::test::Fail;
use test_support::{Observed, station_of};

/// A limit of residuals, in half units.
fn limit(rt: &impl Abort, half_units: u32) -> ResidualLimit {
    ResidualLimit::new(half_units).expect(rt, "a limit")
}

/// How far stated directions in units of 0.000000001 gon are apart.
fn apart(
    rt: &impl Abort,
    alloc: Global,
    station: &Station,
    stated: &[i64],
) -> Result<u32, AdjustError> {
    assert_eq!(rt; stated.len(), station.targets().len());
    assert!(rt; stated.len() <= MOST_TARGETS);
    let mut parts = [0; MOST_TARGETS];
    for (part, direction) in parts.iter_mut().zip(stated) {
        *part = direction.saturating_mul(PARTS as i64);
    }
    let adjustment = adjust(alloc, station, limit(rt, LARGEST_RESIDUAL_LIMIT))?;
    Ok(apart_by(station, &adjustment, &parts[..stated.len()], 0))
}

/// Two sets of two targets, 50 gon and some apart: 10,000,004 and 10,000,008 half units.
const TWO_SETS: [Observed; 4] = [
    (0, 0, 6),
    (0, 1, 10_000_010),
    (1, 0, 20_000_004),
    (1, 1, 30_000_012),
];

#[test]
fn stated_directions_lie_beside_the_least_ones(rt: HostRuntime) -> Result<(), Fail> {
    let station = station_of(rt.alloc(), 2, b"AB", &TWO_SETS)?;
    // The least direction of B is 10,000,006 half units: 50.00003 gon.
    let cases = [
        ([0, 50_000_030_000], 0),
        ([100_000_100_000, 150_000_100_000], 15),
        ([399_999_990_000, 50_000_020_000], 0),
        ([0, 50_000_020_000], 5),
        ([0, 50_000_130_000], 50),
        ([0, 150_000_030_000], 50_000_000),
        // a whole unit is not rounded up, and what is more is
        ([0, 50_000_028_000], 1),
        ([0, 50_000_027_999], 2),
    ];
    for (stated, want) in cases {
        assert_eq!(rt; apart(&rt, rt.alloc(), &station, &stated), Ok(want));
    }
    Ok(())
}

#[test]
fn what_holds_nothing_or_lies_far_off_is_refused(rt: HostRuntime) -> Result<(), Fail> {
    let parts = station_of(rt.alloc(), 2, b"AB", &[(0, 0, 0), (1, 1, 4)])?;
    let tie = station_of(
        rt.alloc(),
        2,
        b"AB",
        &[(0, 0, 0), (0, 1, 0), (1, 0, 0), (1, 1, 40_000_000)],
    )?;
    let cases = [
        (parts, AdjustFault::NotConnected),
        (tie, AdjustFault::Residual(1)),
    ];
    for (station, want) in &cases {
        assert_eq!(rt;
            apart(&rt, rt.alloc(), station, &[0, 0]),
            Err((*want).into())
        );
    }
    Ok(())
}

/// Three sets of two of three targets in a ring, 400.06 gon round and some more: each residual is a
/// sixth of what is more than 400 gon.
const fn ring(more: u16) -> [Observed; 6] {
    [
        (0, 0, 0),
        (0, 1, 20_012_000 + more as u32),
        (1, 1, 0),
        (1, 2, 30_000_000),
        (2, 0, 30_000_000),
        (2, 2, 0),
    ]
}

#[test]
fn the_largest_residual_is_kept_and_a_sixth_more_is_not(rt: HostRuntime) -> Result<(), Fail> {
    let kept = station_of(rt.alloc(), 3, b"ABC", &ring(0))?;
    assert_rounded(
        &rt,
        rt.alloc(),
        &kept,
        10,
        &[0, 100_040_000_000, 250_020_000_000],
    );
    let stated = [0, 100_040_000_000, 250_020_000_000];
    assert_eq!(rt; apart(&rt, rt.alloc(), &kept, &stated), Ok(0));
    let above = station_of(rt.alloc(), 3, b"ABC", &ring(1))?;
    assert_eq!(rt;
        apart(&rt, rt.alloc(), &above, &stated),
        Err(AdjustFault::Residual(1).into())
    );
    Ok(())
}

/// Four targets 25 gon apart, in three sets, complete.
const WHOLE: [Observed; 12] = [
    (0, 0, 0),
    (0, 1, 5_000_000),
    (0, 2, 10_000_000),
    (0, 3, 15_000_000),
    (1, 0, 20_000_000),
    (1, 1, 25_000_000),
    (1, 2, 30_000_000),
    (1, 3, 35_000_000),
    (2, 0, 70_000_000),
    (2, 1, 75_000_000),
    (2, 2, 0),
    (2, 3, 5_000_000),
];

/// The same with a gap in each set.
const GAPS: [Observed; 6] = [
    (0, 0, 0),
    (0, 1, 5_000_000),
    (1, 1, 25_000_000),
    (1, 2, 30_000_000),
    (2, 2, 0),
    (2, 3, 5_000_000),
];

#[test]
fn more_targets_and_gaps_take_no_more_than_they_need(rt: HostRuntime) -> Result<(), Fail> {
    let stated = [0, 25_000_000_000, 50_000_000_000, 75_000_000_000];
    let cases: [&[Observed]; 2] = [&WHOLE, &GAPS];
    for observed in cases {
        let station = station_of(rt.alloc(), 3, b"ABCD", observed)?;
        let answer = apart(&rt, rt.alloc(), &station, &stated);
        assert_eq!(rt; answer, Ok(0));
    }
    Ok(())
}

/// The directions of a station, rounded.
fn rounded(
    rt: &impl Abort,
    alloc: Global,
    station: &Station,
    step: u32,
) -> Result<Vec<u64>, AdjustError> {
    assert!(rt; step > 0);
    assert_eq!(rt; CIRCLE % u64::from(step), 0);
    rounded_directions(alloc, station, step, limit(rt, LARGEST_RESIDUAL_LIMIT))
}

/// Whether an answer is these directions.
fn assert_rounded(rt: &impl Abort, alloc: Global, station: &Station, step: u32, want: &[u64]) {
    match rounded(rt, alloc, station, step) {
        Ok(directions) => assert_eq!(rt; directions.as_slice(), want),
        Err(fault) => assert!(rt; false, "{fault}"),
    }
}

#[test]
fn least_directions_are_rounded_to_steps(rt: HostRuntime) -> Result<(), Fail> {
    // B lies 50.00003 gon from A.
    let station = station_of(rt.alloc(), 2, b"AB", &TWO_SETS)?;
    let cases = [
        (1_000, [0, 50_000_030_000]),
        (10_000, [0, 50_000_030_000]),
        (100_000, [0, 50_000_000_000]),
        (100_000_000, [0, 50_000_000_000]),
    ];
    for (step, want) in cases {
        assert_rounded(&rt, rt.alloc(), &station, step, &want);
    }
    Ok(())
}

#[test]
fn a_residual_at_the_limit_is_kept_and_above_it_refused(rt: HostRuntime) -> Result<(), Fail> {
    // Each residual of the two sets is 1 half unit in size; of the ring 2,000.
    let refused: Option<AdjustError> = Some(AdjustFault::Residual(1).into());
    let two = station_of(rt.alloc(), 2, b"AB", &TWO_SETS)?;
    let round = station_of(rt.alloc(), 3, b"ABC", &ring(0))?;
    for (station, most) in [(&two, 1), (&round, 2_000)] {
        let kept = rounded_directions(rt.alloc(), station, 1_000, limit(&rt, most));
        assert_eq!(rt; kept.err(), None);
        let above = rounded_directions(rt.alloc(), station, 1_000, limit(&rt, most - 1));
        assert_eq!(rt; above.err(), refused);
    }
    Ok(())
}

#[test]
fn directions_stand_on_the_circle_from_0(rt: HostRuntime) -> Result<(), Fail> {
    // What A and B read, in half units of 0.000005 gon, the step, and B's direction.
    let cases = [
        // B lies 25 gon, or 0.00001 gon, before A.
        ((5_000_000, 0), 1_000, 375_000_000_000),
        ((2, 0), 1_000, 399_999_990_000),
        ((0, 79_999_998), 1_000, 399_999_990_000),
        ((0, 79_999_998), 10_000, 399_999_990_000),
        // up to a full circle
        ((0, 79_999_998), 100_000, 0),
        ((79_999_998, 0), 1_000, 10_000),
        // the middle of two steps goes up
        ((0, 10_000_005), 10_000, 50_000_030_000),
    ];
    for ((first, second), step, want) in cases {
        let station = station_of(rt.alloc(), 1, b"AB", &[(0, 0, first), (0, 1, second)])?;
        assert_rounded(&rt, rt.alloc(), &station, step, &[0, want]);
    }
    Ok(())
}

/// Three sets of two targets, 1, 2 and 2 half units apart: 5/3 of 0.000005 gon, 0.000008333.. gon.
const THIRDS: [Observed; 6] = [
    (0, 0, 0),
    (0, 1, 1),
    (1, 0, 0),
    (1, 1, 2),
    (2, 0, 0),
    (2, 1, 2),
];

#[test]
fn the_nearest_step_is_taken(rt: HostRuntime) -> Result<(), Fail> {
    let station = station_of(rt.alloc(), 3, b"AB", &THIRDS)?;
    let cases = [(1, 8_333), (10, 8_330), (1_000, 8_000), (10_000, 10_000)];
    for (step, want) in cases {
        assert_rounded(&rt, rt.alloc(), &station, step, &[0, want]);
    }
    Ok(())
}

#[test]
fn what_was_rounded_is_apart_by_half_of_what_it_is_off(rt: HostRuntime) -> Result<(), Fail> {
    // 8,333.3.. units of 0.000000001 gon: off by 0.3.., 333.3.., 1,666.6.. and 2,666.6..
    let station = station_of(rt.alloc(), 3, b"AB", &THIRDS)?;
    let cases = [(8_333, 1), (8_000, 1), (10_000, 1), (11_000, 2)];
    for (second, want) in cases {
        let stated = [0, second];
        let answer = apart(&rt, rt.alloc(), &station, &stated);
        assert_eq!(rt; answer, Ok(want));
    }
    Ok(())
}
