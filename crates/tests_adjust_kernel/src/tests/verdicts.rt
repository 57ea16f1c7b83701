//! Stations and sheets worked by hand, each checked over both tallies.

ghost use Rattle.std.specs.Prelude.{◌<◌};

use adjust_kernel::{
    Accepted, Direction, KernelFault, Name, Obs, Orientation, OutOfMemory, ResidualLimit, Row,
    Running, Scan, Sheet, Station, check, check_with, laws, residual_of,
};
use std::alloc::Global;
use std::process::Abort;
use std::test::Fail;
use test_support::hoard;

// A station and a sheet in numbers: names of one letter with their directions, numbers of sets with
// their orientations, and the observations by places, with their full turns.
#[derive(Clone, Copy)]
struct Worked<'a> {
    denominator: u64,
    targets: &'a [(u8, i128)],
    sets: &'a [(u16, i128)],
    rows: &'a [(u32, u32, u32, i8)],
}

// The numbers of an accepted sheet: sets, targets, directions, greatest residual and denominator.
type Numbers = (u32, u32, u32, i128, u64);

// The observations of two sets of two targets, with these turns.
fn pair_rows(turns: [i8; 4]) -> [(u32, u32, u32, i8); 4] {
    [
        (0, 0, 6, turns[0]),
        (0, 1, 10_000_010, turns[1]),
        (1, 0, 20_000_004, turns[2]),
        (1, 1, 30_000_012, turns[3]),
    ]
}

fn name(rt: &impl Abort, bytes: &[u8]) -> Name {
    Name::new(bytes).expect(rt, "a name")
}

fn station_of(rt: &impl Abort, alloc: Global, worked: &Worked<'_>) -> Result<Station, Fail> {
    let mut targets = Vec::new(alloc);
    for (letter, _) in worked.targets {
        targets.push(name(rt, &[*letter]))?;
    }
    let mut sets = Vec::new(alloc);
    for (number, _) in worked.sets {
        sets.push(*number)?;
    }
    let mut obs = Vec::new(alloc);
    for (set, target, value, _) in worked.rows {
        obs.push(Obs {
            set: *set,
            target: *target,
            value: *value,
        })?;
    }
    Ok(Station::new(name(rt, b"S1"), targets, sets, obs).expect(rt, "a station"))
}

fn sheet_of(
    rt: &impl Abort,
    alloc: Global,
    named: &[u8],
    worked: &Worked<'_>,
) -> Result<Sheet, Fail> {
    let mut directions = Vec::new(alloc);
    for (letter, value) in worked.targets {
        directions.push(Direction {
            name: name(rt, &[*letter]),
            value: *value,
        })?;
    }
    let mut orientations = Vec::new(alloc);
    for (set, value) in worked.sets {
        orientations.push(Orientation {
            set: *set,
            value: *value,
        })?;
    }
    let mut rows = Vec::new(alloc);
    for (set, target, value, turn) in worked.rows {
        let set = worked.sets.get(*set as usize).expect(rt, "a set");
        let target = worked.targets.get(*target as usize).expect(rt, "a target");
        rows.push(Row {
            set: set.0,
            target: name(rt, &[target.0]),
            value: *value,
            turn: *turn,
        })?;
    }
    let sheet = Sheet::new(
        name(rt, named),
        worked.denominator,
        directions,
        orientations,
        rows,
    );
    Ok(sheet.expect(rt, "a sheet"))
}

// The answer of `check`, which is that of `check_with` over both tallies.
fn answer(
    rt: &impl Abort,
    alloc: Global,
    station: &Station,
    sheet: &Sheet,
    limit: Option<u32>,
) -> Result<Result<Accepted, KernelFault>, Fail> {
    let residual = match limit {
        Some(half_units) => Some(ResidualLimit::new(half_units).expect(rt, "a limit")),
        None => None,
    };
    let answer = check(station, sheet, residual);
    assert_eq!(rt;
        check_with(Running::new(), station, sheet, residual),
        answer
    );
    assert_eq!(rt;
        check_with(Scan::new(alloc)?, station, sheet, residual),
        answer
    );
    Ok(answer)
}

// The answer to a sheet of its own station, in numbers.
fn numbers(
    rt: &impl Abort,
    alloc: Global,
    worked: &Worked<'_>,
    limit: Option<u32>,
) -> Result<Result<Numbers, KernelFault>, Fail> {
    let station = station_of(rt, alloc, worked)?;
    let sheet = sheet_of(rt, alloc, b"S1", worked)?;
    match answer(rt, alloc, &station, &sheet, limit)? {
        Ok(a) => Ok(Ok((a.sets, a.targets, a.directions, a.greatest, a.denominator))),
        Err(fault) => Ok(Err(fault)),
    }
}

#[test]
fn two_sets_of_two_targets_are_tested_by_their_sums(rt: HostRuntime) -> Result<(), Fail> {
    let none = [0, 0, 0, 0];
    let cases = [
        (
            4,
            [0, 40_000_024],
            [-20, -80_000_020],
            none,
            Ok((2, 2, 4, 4, 4)),
        ),
        (
            4,
            [0, 40_000_025],
            [-20, -80_000_020],
            none,
            Err(KernelFault::TargetSum(2)),
        ),
        (
            4,
            [0, 40_000_024],
            [-19, -80_000_021],
            none,
            Err(KernelFault::SetSum(1)),
        ),
        (
            4,
            [4, 40_000_028],
            [-16, -80_000_016],
            none,
            Err(KernelFault::Datum),
        ),
        // Twice the denominator, and twice all numbers.
        (
            8,
            [0, 80_000_048],
            [-40, -160_000_040],
            none,
            Ok((2, 2, 4, 8, 8)),
        ),
        // A whole turn of a set.
        (
            4,
            [0, 40_000_024],
            [-20, -400_000_020],
            [0, 0, 1, 1],
            Ok((2, 2, 4, 4, 4)),
        ),
        // Foolish turns: the sum is least for them.
        (
            4,
            [0, 1_480_000_024],
            [719_999_980, -800_000_020],
            [0, 0, 0, 9],
            Ok((2, 2, 4, 720_000_004, 4)),
        ),
    ];
    for (denominator, directions, orientations, turns, want) in cases {
        let worked = Worked {
            denominator,
            targets: &[(b'A', directions[0]), (b'B', directions[1])],
            sets: &[(1, orientations[0]), (2, orientations[1])],
            rows: &pair_rows(turns),
        };
        assert_eq!(rt; numbers(&rt, rt.alloc(), &worked, None)?, want);
    }
    Ok(())
}

#[test]
fn the_largest_numbers_are_summed_without_loss(rt: HostRuntime) -> Result<(), Fail> {
    let billion = 1_000_000_000;
    let trillion = 1_000_000_000_000;
    let cases = [
        (
            1_000_000_000,
            [0, billion * billion],
            [-billion * billion; 2],
            Err(KernelFault::TargetSum(1)),
        ),
        (
            1_000_000_000_000,
            [0, 10_000_006 * trillion],
            [-5 * trillion, -20_000_005 * trillion],
            Ok((2, 2, 4, trillion, 1_000_000_000_000)),
        ),
        (
            1_000_000_000_000,
            [0, billion * trillion],
            [-billion * trillion; 2],
            Err(KernelFault::TargetSum(1)),
        ),
    ];
    for (denominator, directions, orientations, want) in cases {
        let worked = Worked {
            denominator,
            targets: &[(b'A', directions[0]), (b'B', directions[1])],
            sets: &[(1, orientations[0]), (2, orientations[1])],
            rows: &pair_rows([0, 0, 0, 0]),
        };
        assert_eq!(rt; numbers(&rt, rt.alloc(), &worked, None)?, want);
    }
    Ok(())
}

#[test]
fn a_mean_is_not_rounded(rt: HostRuntime) -> Result<(), Fail> {
    let worked = Worked {
        denominator: 1,
        targets: &[(b'A', 0), (b'B', 0)],
        sets: &[(1, 0), (2, 0)],
        rows: &[(0, 0, 0, 0), (0, 1, 0, 0), (1, 0, 0, 0), (1, 1, 1, 0)],
    };
    assert_eq!(rt;
        numbers(&rt, rt.alloc(), &worked, None)?,
        Err(KernelFault::TargetSum(2))
    );
    Ok(())
}

#[test]
fn means_over_the_end_of_the_circle_are_accepted(rt: HostRuntime) -> Result<(), Fail> {
    let past_the_end = Worked {
        denominator: 4,
        targets: &[(b'A', 0), (b'B', 319_999_948)],
        sets: &[(1, -6), (2, -74)],
        rows: &[
            (0, 0, 0, 0),
            (0, 1, 79_999_990, 0),
            (1, 0, 20, 0),
            (1, 1, 4, 1),
        ],
    };
    assert_eq!(rt;
        numbers(&rt, rt.alloc(), &past_the_end, None)?,
        Ok((2, 2, 4, 6, 4))
    );
    let before_the_start = Worked {
        denominator: 4,
        targets: &[(b'A', 0), (b'B', -32)],
        sets: &[(1, -36), (2, -44)],
        rows: &[
            (0, 0, 0, 0),
            (0, 1, 10, 0),
            (1, 0, 20, 0),
            (1, 1, 79_999_994, -1),
        ],
    };
    assert_eq!(rt;
        numbers(&rt, rt.alloc(), &before_the_start, None)?,
        Ok((2, 2, 4, 36, 4))
    );
    // Half a circle apart: either turn would do, and the residual is large.
    let opposite = Worked {
        denominator: 4,
        targets: &[(b'A', 0), (b'B', -80_000_000)],
        sets: &[(1, -40_000_000), (2, 40_000_000)],
        rows: &[
            (0, 0, 0, 0),
            (0, 1, 0, 0),
            (1, 0, 0, 0),
            (1, 1, 40_000_000, -1),
        ],
    };
    assert_eq!(rt;
        numbers(&rt, rt.alloc(), &opposite, None)?,
        Ok((2, 2, 4, 40_000_000, 4))
    );
    assert_eq!(rt;
        numbers(&rt, rt.alloc(), &opposite, Some(2_000))?,
        Err(KernelFault::Residual(1))
    );
    Ok(())
}

#[test]
fn incomplete_sets_are_checked_too(rt: HostRuntime) -> Result<(), Fail> {
    let target_in_one_set = Worked {
        denominator: 4,
        targets: &[(b'A', 0), (b'B', 40_000_024), (b'C', 79_999_988)],
        sets: &[(1, -20), (2, -80_000_020)],
        rows: &[
            (0, 0, 6, 0),
            (0, 1, 10_000_010, 0),
            (0, 2, 20_000_002, 0),
            (1, 0, 20_000_004, 0),
            (1, 1, 30_000_012, 0),
        ],
    };
    assert_eq!(rt;
        numbers(&rt, rt.alloc(), &target_in_one_set, None)?,
        Ok((2, 3, 5, 4, 4))
    );
    // Three sets of which each misses another of three targets.
    let triangle = Worked {
        denominator: 1,
        targets: &[(b'A', 0), (b'B', 98), (b'C', 196)],
        sets: &[(1, -1), (2, 97), (3, 195)],
        rows: &[
            (0, 0, 0, 0),
            (0, 1, 100, 0),
            (1, 1, 0, 0),
            (1, 2, 100, 0),
            (2, 0, 79_999_806, -1),
            (2, 2, 0, 0),
        ],
    };
    assert_eq!(rt;
        numbers(&rt, rt.alloc(), &triangle, None)?,
        Ok((3, 3, 6, 1, 1))
    );
    assert_eq!(rt;
        numbers(&rt, rt.alloc(), &triangle, Some(1))?,
        Ok((3, 3, 6, 1, 1))
    );
    assert_eq!(rt;
        numbers(&rt, rt.alloc(), &triangle, Some(0))?,
        Err(KernelFault::Residual(1))
    );
    Ok(())
}

#[test]
fn sets_with_no_target_in_common_are_not_connected(rt: HostRuntime) -> Result<(), Fail> {
    let apart = Worked {
        denominator: 1,
        targets: &[(b'A', 0), (b'B', 100), (b'C', 0), (b'D', 100)],
        sets: &[(1, 0), (2, 0)],
        rows: &[(0, 0, 0, 0), (0, 1, 100, 0), (1, 2, 0, 0), (1, 3, 100, 0)],
    };
    assert_eq!(rt;
        numbers(&rt, rt.alloc(), &apart, None)?,
        Err(KernelFault::NotConnected)
    );
    assert_eq!(rt;
        numbers(&rt, rt.alloc(), &apart, Some(2_000))?,
        Err(KernelFault::NotConnected)
    );
    Ok(())
}

#[test]
fn a_sheet_of_other_observations_is_refused_at_its_place(rt: HostRuntime) -> Result<(), Fail> {
    let rows = pair_rows([0, 0, 0, 0]);
    let other_value = [(0, 0, 7, 0), rows[1], rows[2], rows[3]];
    let targets = [(b'A', 0), (b'B', 40_000_024)];
    let sets = [(1, -20), (2, -80_000_020)];
    let observed = Worked {
        denominator: 4,
        targets: &targets,
        sets: &sets,
        rows: &rows,
    };
    let station = station_of(&rt, rt.alloc(), &observed)?;
    let exchanged_targets = Worked {
        denominator: 4,
        targets: &[targets[1], targets[0]],
        sets: &sets,
        rows: &rows,
    };
    let exchanged_sets = Worked {
        denominator: 4,
        targets: &targets,
        sets: &[sets[1], sets[0]],
        rows: &rows,
    };
    let changed_row = Worked {
        denominator: 4,
        targets: &targets,
        sets: &sets,
        rows: &other_value,
    };
    let missing_row = Worked {
        denominator: 4,
        targets: &targets,
        sets: &sets,
        rows: &rows[..3],
    };
    let cases = [
        (exchanged_targets, KernelFault::TargetRow(1)),
        (exchanged_sets, KernelFault::SetRow(1)),
        (changed_row, KernelFault::ObsRow(1)),
        (missing_row, KernelFault::ObsRow(4)),
    ];
    for (stated, want) in &cases {
        let sheet = sheet_of(&rt, rt.alloc(), b"S1", stated)?;
        assert_eq!(rt;
            answer(&rt, rt.alloc(), &station, &sheet, None)?,
            Err(*want)
        );
    }
    let other_name = sheet_of(&rt, rt.alloc(), b"S2", &observed)?;
    assert_eq!(rt;
        answer(&rt, rt.alloc(), &station, &other_name, None)?,
        Err(KernelFault::Name)
    );
    Ok(())
}

#[test]
fn an_accepted_sheet_is_told_by_its_name_and_numbers(rt: HostRuntime) -> Result<(), Fail> {
    let worked = Worked {
        denominator: 4,
        targets: &[(b'A', 0), (b'B', 40_000_024)],
        sets: &[(1, -20), (2, -80_000_020)],
        rows: &pair_rows([0, 0, 0, 0]),
    };
    let accepted = Accepted {
        name: name(&rt, b"S1"),
        sets: 2,
        targets: 2,
        directions: 4,
        greatest: 4,
        denominator: 4,
    };
    let sheet = sheet_of(&rt, rt.alloc(), b"S1", &worked)?;
    assert_eq!(rt;
        answer(
            &rt,
            rt.alloc(),
            &station_of(&rt, rt.alloc(), &worked)?,
            &sheet,
            Some(1)
        )?,
        Ok(accepted)
    );
    Ok(())
}

#[test]
fn the_residual_of_each_row_is_told(rt: HostRuntime) -> Result<(), Fail> {
    let pair = Worked {
        denominator: 4,
        targets: &[(b'A', 0), (b'B', 40_000_024)],
        sets: &[(1, -20), (2, -80_000_020)],
        rows: &pair_rows([0, 0, 0, 0]),
    };
    let station = station_of(&rt, rt.alloc(), &pair)?;
    let sheet = sheet_of(&rt, rt.alloc(), b"S1", &pair)?;
    let wanted = [-4, 4, 4, -4];
    assert!(rt; check(&station, &sheet, None).is_ok());
    if let Ok(_) = check(&station, &sheet, None) {
        for row in 0..station.obs().len() {
            let want = wanted.get(row).expect(&rt, "a residual");
            assert_eq!(rt; residual_of(&station, &sheet, row), *want);
        }
    }
    let (name, targets, sets, obs) = station.into_parts();
    assert_eq!(rt; name.bytes(), b"S1".as_slice());
    assert_eq!(rt; (targets.len(), sets.len(), obs.len()), (2, 2, 4));
    let (name, denominator, directions, orientations, rows) = sheet.into_parts();
    assert_eq!(rt; name.bytes(), b"S1".as_slice());
    assert_eq!(rt; (denominator, directions.len()), (4, 2));
    assert_eq!(rt; (orientations.len(), rows.len()), (2, 4));
    Ok(())
}

#[test]
fn faults_are_told_in_words(rt: HostRuntime) -> Result<(), Fail> {
    let faults = [
        (KernelFault::Name, "the sheet is of another station"),
        (
            KernelFault::TargetRow(2),
            "at place 2 the sheet's targets are not the station's",
        ),
        (
            KernelFault::SetRow(3),
            "at place 3 the sheet's sets are not the station's",
        ),
        (
            KernelFault::ObsRow(4_000),
            "at row 4000 the sheet's observations are not the station's",
        ),
        (
            KernelFault::Datum,
            "the direction of the first target is not 0",
        ),
        (
            KernelFault::TargetSum(5),
            "the residuals of target 5 do not add to 0",
        ),
        (
            KernelFault::SetSum(6),
            "the residuals of set 6 do not add to 0",
        ),
        (
            KernelFault::NotConnected,
            "no observations tie all sets and targets together",
        ),
        (
            KernelFault::Residual(3_999),
            "the residual of row 3999 is above the residual limit",
        ),
    ];
    for (place, (fault, text)) in faults.iter().enumerate() {
        assert_eq!(rt; fault.to_string(rt.alloc())?.as_str(), *text);
        for (other_place, (other, _)) in faults.iter().enumerate() {
            assert_eq!(rt; fault == other, place == other_place);
        }
    }
    assert!(rt; KernelFault::Residual(3_999) != KernelFault::Residual(4_000));
    assert_eq!(rt;
        OutOfMemory.to_string(rt.alloc())?.as_str(),
        "out of memory"
    );
    Ok(())
}

/// How many bytes are left free, in one piece: more than a check could take unseen.
const ROOM: usize = 65_536;

/// `rt test` runs it. `rt try --test` watches over memory itself, and small blocks are not refused
/// there.
#[test]
fn a_check_takes_no_memory(rt: HostRuntime) -> Result<(), Fail> {
    let pair = Worked {
        denominator: 4,
        targets: &[(b'A', 0), (b'B', 40_000_024)],
        sets: &[(1, -20), (2, -80_000_020)],
        rows: &pair_rows([0, 0, 0, 0]),
    };
    let station = station_of(&rt, rt.alloc(), &pair)?;
    let sheet = sheet_of(&rt, rt.alloc(), b"S1", &pair)?;
    let scan = Scan::new(rt.alloc())?;
    let room = Vec::<u8>::with_capacity(rt.alloc(), ROOM)?;
    let held = hoard(rt.alloc());
    drop(room);
    let is_accepted = check(&station, &sheet, None).is_ok();
    let is_scanned = check_with(scan, &station, &sheet, None).is_ok();
    let again = Vec::<u8>::with_capacity(rt.alloc(), ROOM);
    drop(held);
    assert!(rt; is_accepted && is_scanned && again.is_ok());
    Ok(())
}

#[test]
fn observations_and_limits_are_equal_and_copied_as_they_are(rt: HostRuntime) {
    let obs = |set, target, value| Obs { set, target, value };
    let one = obs(1, 2, 3);
    assert_eq!(rt; one.clone().expect(&rt, "a copy"), one);
    for other in [obs(2, 1, 3), obs(1, 1, 3), obs(2, 2, 3), obs(1, 2, 4)] {
        assert!(rt; other != one);
    }
    let limit = ResidualLimit::new(7).expect(&rt, "a limit");
    assert_eq!(rt; limit.clone().expect(&rt, "a copy").half_units(), 7);
    assert!(rt; ResidualLimit::new(8).expect(&rt, "a limit") != limit);
}

#[test]
fn the_laws_are_calls(_rt: HostRuntime) {
    laws::one_verdict();
    laws::some_verdict();
    laws::acceptance();
    laws::refusal();
    laws::bounds();
}

#[test]
fn a_residual_limit_refuses_the_first_row_above_it(rt: HostRuntime) -> Result<(), Fail> {
    let foolish = Worked {
        denominator: 4,
        targets: &[(b'A', 0), (b'B', 1_480_000_024)],
        sets: &[(1, 719_999_980), (2, -800_000_020)],
        rows: &pair_rows([0, 0, 0, 9]),
    };
    assert_eq!(rt;
        numbers(&rt, rt.alloc(), &foolish, Some(100))?,
        Err(KernelFault::Residual(1))
    );
    let worked = Worked {
        denominator: 4,
        targets: &[(b'A', 0), (b'B', 40_000_024)],
        sets: &[(1, -20), (2, -80_000_020)],
        rows: &pair_rows([0, 0, 0, 0]),
    };
    assert_eq!(rt;
        numbers(&rt, rt.alloc(), &worked, Some(1))?,
        Ok((2, 2, 4, 4, 4))
    );
    assert_eq!(rt;
        numbers(&rt, rt.alloc(), &worked, Some(0))?,
        Err(KernelFault::Residual(1))
    );
    let moved = Worked {
        denominator: 4,
        targets: &[(b'A', 0), (b'B', 40_000_025)],
        sets: &[(1, -20), (2, -80_000_020)],
        rows: &pair_rows([0, 0, 0, 0]),
    };
    assert_eq!(rt;
        numbers(&rt, rt.alloc(), &moved, Some(0))?,
        Err(KernelFault::TargetSum(2))
    );
    // The residuals are 0, 0, 1, -1, -1 and 1.
    let third_row = Worked {
        denominator: 1,
        targets: &[(b'A', 0), (b'B', 100)],
        sets: &[(1, 0), (2, -10), (3, -20)],
        rows: &[
            (0, 0, 0, 0),
            (0, 1, 100, 0),
            (1, 0, 9, 0),
            (1, 1, 111, 0),
            (2, 0, 21, 0),
            (2, 1, 119, 0),
        ],
    };
    assert_eq!(rt;
        numbers(&rt, rt.alloc(), &third_row, Some(1))?,
        Ok((3, 2, 6, 1, 1))
    );
    assert_eq!(rt;
        numbers(&rt, rt.alloc(), &third_row, Some(0))?,
        Err(KernelFault::Residual(3))
    );
    Ok(())
}

// A name of two digits.
fn two_digits(rt: &impl Abort, number: u8) -> Name
    requires { number < 100 }
{
    name(rt, &[b'0' + number / 10, b'0' + number % 10])
}

#[test]
fn the_largest_station_is_checked(rt: HostRuntime) -> Result<(), Fail> {
    let alloc = rt.alloc();
    let mut targets = Vec::new(alloc);
    let mut directions = Vec::new(alloc);
    for target in 0..100u8 {
        let name = two_digits(&rt, target);
        targets.push(name)?;
        directions.push(Direction {
            name,
            value: 8_000_000 * i128::from(target),
        })?;
    }
    let mut sets = Vec::new(alloc);
    let mut orientations = Vec::new(alloc);
    let mut obs = Vec::new(alloc);
    let mut rows = Vec::new(alloc);
    for set in 0..40u16 {
        sets.push(set + 1)?;
        orientations.push(Orientation {
            set: set + 1,
            value: -8_000_000,
        })?;
        for target in 0..100u8 {
            let value = 2_000 * (u32::from(target) + 1);
            obs.push(Obs {
                set: u32::from(set),
                target: u32::from(target),
                value,
            })?;
            rows.push(Row {
                set: set + 1,
                target: two_digits(&rt, target),
                value,
                turn: 0,
            })?;
        }
    }
    let station = Station::new(name(&rt, b"S1"), targets, sets, obs).expect(&rt, "a station");
    let sheet = Sheet::new(name(&rt, b"S1"), 4_000, directions, orientations, rows);
    let want = Accepted {
        name: name(&rt, b"S1"),
        sets: 40,
        targets: 100,
        directions: 4_000,
        greatest: 0,
        denominator: 4_000,
    };
    let sheet = sheet.expect(&rt, "a sheet");
    assert_eq!(rt; answer(&rt, alloc, &station, &sheet, Some(0))?, Ok(want));
    Ok(())
}
