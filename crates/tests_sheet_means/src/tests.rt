//! Stations worked by hand, each with its sheet of means.

use adjust_kernel::{LARGEST_SET_NUMBER, LONGEST_NAME, Name, Obs, Sheet, Station, check};
use sheet_means::{MeansFault, means};
use std::alloc::Global;
use std::process::Abort;
use std::test::Fail;
use test_support::hoard_of_all_but;

/// Values of the observations, set by set and within a set target by target; and the sheet of
/// means: directions, orientations, turns, and its greatest residual.
#[derive(Clone, Copy)]
struct Worked<'a> {
    targets: u32,
    values: &'a [u32],
    directions: &'a [i128],
    orientations: &'a [i128],
    turns: &'a [i8],
    greatest: i128,
}

/// A name of each length in turn, and another one for each number up to 1,000.
fn name(rt: &impl Abort, number: u32) -> Name {
    let mut bytes = [b'A'; LONGEST_NAME];
    bytes[0] = b'0' + (number / 16 % 64) as u8;
    Name::new(&bytes[..number as usize % LONGEST_NAME + 1]).expect(rt, "a name")
}

/// A station of this many sets, numbered from `first` on, and targets, with these observations:
/// set, target, value.
fn station_of(
    rt: &impl Abort,
    alloc: Global,
    first: u16,
    sets: u16,
    targets: u32,
    observed: &[(u32, u32, u32)],
) -> Result<Station, Fail> {
    let mut names = Vec::new(alloc);
    for target in 0..targets {
        names.push(name(rt, target))?;
    }
    let mut numbers = Vec::new(alloc);
    for place in 0..sets {
        numbers.push(first.saturating_add(place))?;
    }
    let mut obs = Vec::new(alloc);
    for (set, target, value) in observed {
        obs.push(Obs {
            set: *set,
            target: *target,
            value: *value,
        })?;
    }
    let station = Station::new(name(rt, u32::from(first)), names, numbers, obs);
    Ok(station.expect(rt, "a station"))
}

fn assert_sheet(rt: &impl Abort, station: &Station, sheet: &Sheet, want: &Worked<'_>) {
    let rows = want.values.len();
    assert_eq!(rt; sheet.denominator(), rows as u64);
    assert_eq!(rt; sheet.directions().len(), want.directions.len());
    assert_eq!(rt; sheet.orientations().len(), want.orientations.len());
    assert_eq!(rt; sheet.rows().len(), want.turns.len());
    for (direction, value) in sheet.directions().iter().zip(want.directions) {
        assert_eq!(rt; direction.value, *value);
    }
    for (orientation, value) in sheet.orientations().iter().zip(want.orientations) {
        assert_eq!(rt; orientation.value, *value);
    }
    for (row, turn) in sheet.rows().iter().zip(want.turns) {
        assert_eq!(rt; row.turn, *turn);
    }
    let accepted = check(station, sheet, None).expect(rt, "accepted");
    assert_eq!(rt; accepted.directions as usize, rows);
    assert_eq!(rt; accepted.greatest, want.greatest);
}

#[test]
fn complete_sets_have_the_sheet_of_their_means(rt: HostRuntime) -> Result<(), Fail> {
    let cases = [
        // Two sets of two targets.
        Worked {
            targets: 2,
            values: &[6, 10_000_010, 20_000_004, 30_000_012],
            directions: &[0, 40_000_024],
            orientations: &[-20, -80_000_020],
            turns: &[0, 0, 0, 0],
            greatest: 4,
        },
        // One observation alone.
        Worked {
            targets: 1,
            values: &[0],
            directions: &[0],
            orientations: &[0],
            turns: &[0],
            greatest: 0,
        },
        Worked {
            targets: 1,
            values: &[6],
            directions: &[0],
            orientations: &[-6],
            turns: &[0],
            greatest: 0,
        },
        // A target on both sides of the zero of the circle, forth and back.
        Worked {
            targets: 2,
            values: &[0, 79_999_990, 20, 4],
            directions: &[0, 319_999_948],
            orientations: &[-6, -74],
            turns: &[0, 0, 0, 1],
            greatest: 6,
        },
        Worked {
            targets: 2,
            values: &[0, 10, 20, 79_999_994],
            directions: &[0, -32],
            orientations: &[-36, -44],
            turns: &[0, 0, 0, -1],
            greatest: 36,
        },
        // Half a circle apart: turned back.
        Worked {
            targets: 2,
            values: &[0, 0, 0, 40_000_000],
            directions: &[0, -80_000_000],
            orientations: &[-40_000_000, 40_000_000],
            turns: &[0, 0, 0, -1],
            greatest: 40_000_000,
        },
    ];
    for case in &cases {
        let mut observed = Vec::new(rt.alloc());
        for place in 0..case.values.len() {
            let place = place as u32;
            let value = case.values.get(place as usize).expect(&rt, "a value");
            observed.push((place / case.targets, place % case.targets, *value))?;
        }
        let sets = case.orientations.len() as u16;
        let station = station_of(&rt, rt.alloc(), 1, sets, case.targets, &observed)?;
        let sheet = means(rt.alloc(), &station).expect(&rt, "a sheet");
        assert_sheet(&rt, &station, &sheet, case);
    }
    Ok(())
}

/// The same directions in each set: target by target 2,000 half units more.
fn even_station(
    rt: &impl Abort,
    alloc: Global,
    first: u16,
    sets: u8,
    targets: u8,
) -> Result<Station, Fail> {
    let mut observed = Vec::new(alloc);
    for set in 0..u32::from(sets) {
        for target in 0..u32::from(targets) {
            observed.push((set, target, 2_000 * (target + 1)))?;
        }
    }
    station_of(
        rt,
        alloc,
        first,
        u16::from(sets),
        u32::from(targets),
        &observed,
    )
}

/// The sheet has no residual, so that its directions and orientations are those that were observed.
fn assert_even(rt: &impl Abort, station: &Station, sheet: &Sheet, sets: u8, targets: u8) {
    let accepted = check(station, sheet, None).expect(rt, "accepted");
    assert_eq!(rt; accepted.sets, u32::from(sets));
    assert_eq!(rt; accepted.targets, u32::from(targets));
    assert_eq!(rt; accepted.directions as usize, station.obs().len());
    assert_eq!(rt; accepted.denominator, u64::from(accepted.directions));
    assert_eq!(rt; accepted.greatest, 0);
}

fn expect_even(
    rt: &impl Abort,
    alloc: Global,
    first: u16,
    sets: u8,
    targets: u8,
) -> Result<(), Fail> {
    let station = even_station(rt, alloc, first, sets, targets)?;
    let sheet = means(alloc, &station).expect(rt, "a sheet");
    assert_even(rt, &station, &sheet, sets, targets);
    Ok(())
}

/// With memory there is a sheet of each number of sets and of each number of targets: four numbers
/// of sets for each number of targets. Names have each length.
#[test]
fn stations_of_every_size_have_even_means(rt: HostRuntime) -> Result<(), Fail> {
    for targets in 1..=100u8 {
        for ten in 0..4u8 {
            let sets = 10 * ten + targets % 10 + 1;
            let first = u16::from(targets) * 97 + u16::from(sets);
            expect_even(&rt, rt.alloc(), first, sets, targets)?;
        }
    }
    Ok(())
}

/// With memory there is a sheet whatever number a set has.
#[test]
fn sets_of_every_number_have_even_means(rt: HostRuntime) -> Result<(), Fail> {
    for block in 0..250u16 {
        let first = (40 * block + 1).min(LARGEST_SET_NUMBER - 39);
        expect_even(&rt, rt.alloc(), first, 40, 2)?;
    }
    Ok(())
}

/// The bytes by which the memory that is left grows from try to try: fewer than any of the sheet's
/// lists takes, so that each list is refused in turn.
const STEP: usize = 16;

/// `rt test` runs it. `rt try --test` watches over memory itself, and ends the test in place of
/// refusing.
#[test]
fn each_refused_growth_is_want_of_memory(rt: HostRuntime) -> Result<(), Fail> {
    let (sets, targets) = (3u8, 5u8);
    let station = even_station(&rt, rt.alloc(), 1, sets, targets)?;
    for tries in 0..200usize {
        let spare = Vec::<u8>::with_capacity(rt.alloc(), STEP * tries)?;
        let held = hoard_of_all_but(rt.alloc(), spare);
        let answer = means(rt.alloc(), &station);
        drop(held);
        match answer {
            Err(fault) => assert_eq!(rt; fault, MeansFault::Memory),
            Ok(sheet) => {
                assert_even(&rt, &station, &sheet, sets, targets);
                assert!(rt; tries > 3);
                return Ok(());
            }
        }
    }
    assert!(rt; false, "refused however much memory there was");
    Ok(())
}

#[test]
fn a_missing_observation_is_no_complete_station(rt: HostRuntime) -> Result<(), Fail> {
    let cases = [
        // A third target in the first set alone.
        (
            2,
            3,
            [
                (0, 0, 6),
                (0, 1, 10_000_010),
                (0, 2, 20_000_002),
                (1, 0, 20_000_004),
                (1, 1, 30_000_012),
            ],
        ),
        // The last is missing.
        (
            3,
            2,
            [(0, 0, 6), (0, 1, 10), (1, 0, 20), (1, 1, 4), (2, 0, 12)],
        ),
    ];
    for (sets, targets, observed) in &cases {
        let station = station_of(&rt, rt.alloc(), 1, *sets, *targets, observed)?;
        match means(rt.alloc(), &station) {
            Ok(_) => assert!(rt; false, "no sheet"),
            Err(fault) => assert_eq!(rt; fault, MeansFault::Incomplete),
        }
    }
    Ok(())
}
