//! The rules that a station keeps.

use adjust_kernel::{Name, Obs, Station};
use std::alloc::Global;
use std::process::Abort;
use std::test::Fail;

// The station with targets of one letter each, and observations by set, target and value, if it is
// one.
fn station_of(
    rt: &impl Abort,
    alloc: Global,
    letters: &[u8],
    numbers: &[u16],
    observed: &[(u32, u32, u32)],
) -> Result<Option<Station>, Fail> {
    let mut targets = Vec::new(alloc);
    for letter in letters {
        targets.push(Name::new(&[*letter]).expect(rt, "a name"))?;
    }
    let mut sets = Vec::new(alloc);
    for number in numbers {
        sets.push(*number)?;
    }
    let mut obs = Vec::new(alloc);
    for (set, target, value) in observed {
        obs.push(Obs {
            set: *set,
            target: *target,
            value: *value,
        })?;
    }
    Ok(Station::new(Name::new(b"S1").expect(rt, "a name"), targets, sets, obs))
}

#[test]
fn a_station_keeps_its_rules(rt: HostRuntime) -> Result<(), Fail> {
    let good = [(0, 0, 6), (0, 1, 10), (1, 0, 20), (1, 1, 79_999_999)];
    let cases: [(&str, &[u8], [u16; 2], [(u32, u32, u32); 4], bool); 11] = [
        ("good", b"AB", [1, 9_999], good, true),
        ("two targets of one name", b"AA", [1, 2], good, false),
        ("set number 0", b"AB", [0, 2], good, false),
        ("set number 10000", b"AB", [1, 10_000], good, false),
        ("one set number twice", b"AB", [1, 1], good, false),
        (
            "a later set first",
            b"AB",
            [1, 2],
            [good[2], good[3], good[0], good[1]],
            false,
        ),
        (
            "one pair twice",
            b"AB",
            [1, 2],
            [good[0], good[0], good[2], good[3]],
            false,
        ),
        ("a target with no observation", b"ABC", [1, 2], good, false),
        (
            "a set with no observation",
            b"ABCD",
            [1, 2],
            [(0, 0, 6), (0, 1, 10), (0, 2, 20), (0, 3, 30)],
            false,
        ),
        (
            "a target that is none of the station's",
            b"A",
            [1, 2],
            good,
            false,
        ),
        (
            "a value past the circle",
            b"AB",
            [1, 2],
            [good[0], good[1], good[2], (1, 1, 80_000_000)],
            false,
        ),
    ];
    for (what, letters, numbers, observed, want) in cases {
        let station = station_of(&rt, rt.alloc(), letters, &numbers, &observed)?;
        assert_eq!(rt; station.is_some(), want, "{what}");
    }
    Ok(())
}
