use adjust_kernel::Name;
use job_statements::{Beginnings, NamedNumber, Stated, StatedNumber};
use set_marks::{
    MarkFault, MarkKind, Marked, Recognized, Refused, Remarks, mark_file, marked_copy,
};
use station_book::BookKind;
use std::alloc::Global;

/// The bytes of a field file of GSI-8, one block for each pair of bytes: the name of a target, and
/// `1` or `2` for the face in which it is read, or `h` for its height alone; the name of a station
/// and `p` for its set-up line; or `c` and a code's first digit; or `k` and what code 47 has in
/// word 42, or `-` where it has none; or `++` where the block before has no line end, so that it
/// and the one after it are one line.
fn file(alloc: Global, text: &[u8]) -> Option<Vec<u8>> {
    let mut bytes = Vec::new(alloc);
    for pair in 0..text.len() / 2 {
        let (named, kind) = (text[2 * pair], text[2 * pair + 1]);
        if named == b'+' {
            bytes.pop();
            bytes.push(b' ').ok()?;
            continue;
        }
        if named == b'k' {
            bytes.extend_from_slice(b"41....+00000047").ok()?;
            if kind != b'-' {
                bytes.extend_from_slice(b" 42....+0000000").ok()?;
                bytes.push(kind).ok()?;
            }
        } else if named == b'c' {
            bytes.extend_from_slice(b"41....+000000").ok()?;
            bytes.push(kind).ok()?;
            bytes.extend_from_slice(b"0 42....+00000001").ok()?;
        } else {
            bytes.extend_from_slice(b"11....+0000000").ok()?;
            bytes.push(named).ok()?;
            let rest: &[u8] = match kind {
                b'p' => b" 88..10+00001543",
                b'h' => b" 87..10+00001500",
                b'1' => b" 21.102+01234567 22.102+09876543",
                b'2' => b" 21.102+21234567 22.102+30123457",
                _ => b" 21.102+01234567",
            };
            bytes.extend_from_slice(rest).ok()?;
        }
        bytes.push(b'\n').ok()?;
    }
    Some(bytes)
}

/// These numbers of sets and of targets are stated, each of all stations.
fn numbers(alloc: Global, sets: Option<u32>, targets: Option<u32>) -> Stated {
    Stated {
        sets: StatedNumber::of_each(alloc, sets),
        targets: StatedNumber::of_each(alloc, targets),
        again: false,
        others: false,
    }
}

/// Nothing is stated.
fn nothing(alloc: Global) -> Stated {
    numbers(alloc, None, None)
}

/// Stations with a fault stay outside.
fn others(alloc: Global) -> Stated {
    Stated {
        others: true,
        ..nothing(alloc)
    }
}

/// That nothing is stated of how stations begin.
const BY_SET_UPS: Beginnings = Beginnings {
    station: None,
    same_set_up: false,
    code: None,
};

/// That the name of the one station is stated, if it is.
fn named(station: Option<Name>) -> Beginnings {
    Beginnings {
        station,
        same_set_up: false,
        code: None,
    }
}

/// The copy of a file, or why there is none.
fn copy_of(
    alloc: Global,
    bytes: &[u8],
    beginnings: Beginnings,
    stated: Stated,
) -> Result<Vec<u8>, Refused> {
    let marked = mark_file(alloc, bytes, false, beginnings, stated)?;
    let copy = marked_copy(alloc, bytes, &marked.marks)?;
    Ok(copy)
}

/// What is answered of such a file, of the station P7 where it has no set-up line at its front.
fn marked(alloc: Global, text: &[u8], stated: Stated) -> Option<Result<Vec<u8>, Refused>> {
    let bytes = file(alloc, text)?;
    let station = match text.get(1) {
        Some(b'p') => None,
        _ => Name::new(b"P7"),
    };
    Some(copy_of(alloc, &bytes, named(station), stated))
}

fn fault(alloc: Global, text: &[u8], stated: Stated) -> Option<MarkFault> {
    Some(marked(alloc, text, stated)?.err()?.fault())
}

fn is_marked(alloc: Global, text: &[u8], stated: Stated) -> bool {
    marked(alloc, text, stated).is_some_and(|r| r.is_ok())
}

#[test]
fn rows_are_marked(rt: HostRuntime) {
    let a = rt.alloc();
    assert!(rt; is_marked(a, b"A1B1C1C2B2A2A1B1C1C2B2A2", nothing(a)));
    assert!(rt; is_marked(a, b"A1A1B1C1C2B2A2A1B1C1C2B2A2", nothing(a)));
    assert!(rt; is_marked(a, b"A1A2A1B1C1C2B2A2A1B1C1C2B2A2", nothing(a)));
    assert!(rt; is_marked(a, b"A1B1B2A2A1B1B2A2d1e1", nothing(a)));
    assert!(rt; is_marked(a, b"d1e1f1g1A1B1B2A2A1B1B2A2d1", nothing(a)));
    assert!(rt; is_marked(a, b"d1A1e1A1B1B2A2A1B1B2A2", nothing(a)));
    assert!(rt; is_marked(a, b"A1B1B2A2d1e1", nothing(a)));
    assert!(rt; is_marked(a, b"A1A1B1B2A2d1", nothing(a)));
    assert!(rt; is_marked(a, b"A1A2A1B1B2A2", nothing(a)));
    assert!(rt; is_marked(a, b"C1B1A1B1C1C2B2A2", nothing(a)));
    assert!(rt; is_marked(a, b"C1C2A1B1C1C2B2A2d1", nothing(a)));
    assert!(rt; is_marked(a, b"C1A1B1C1A2B2C2A1B1C1A2B2C2", nothing(a)));
    assert!(rt; is_marked(a, b"1pA1B1B2A22pA1B1B2A2", nothing(a)));
    assert!(rt; is_marked(a, b"A1B1C1C2B2A2A1D1B1E1C1C2E2B2D2A2", nothing(a)));
    assert!(rt; is_marked(a, b"AhA1B1B2A2BhA1B1B2A2", nothing(a)));
}

// The blocks are those that a plain program of the rule names.
#[test]
fn each_fault_stands_at_its_block(rt: HostRuntime) {
    let a = rt.alloc();
    let rows: [(&[u8], u32, MarkKind); 47] = [
        (b"1pA1B1B2A2++2pA1B1B2A2", 5, MarkKind::TwoLines),
        (b"A1B1++c2B2A2", 2, MarkKind::TwoLines),
        (b"A1c2++B1B2A2", 2, MarkKind::TwoLines),
        (b"A1B1++2pB2A2", 2, MarkKind::TwoLines),
        (b"A1B1c2B2A2", 3, MarkKind::HasCodes),
        (b"A1B1B2A21pA1B1B2A2", 5, MarkKind::HasSetUp),
        (b"A1B1B2A2A1B1B1", 7, MarkKind::ReadTwice),
        (b"A1B1C1A1A2C2B2A2", 8, MarkKind::ReadTwice),
        (b"A1A2B1B2A1A2A1A2B1B2A1A2", 7, MarkKind::ReadTwice),
        (b"A1B1B1A2B2A2", 6, MarkKind::ReadTwice),
        (b"A1B1C1C2A2", 5, MarkKind::FaceMissing),
        (b"A1A2", 2, MarkKind::FaceMissing),
        (b"d1A1B1B2A2", 5, MarkKind::FaceMissing),
        (b"A1B1d1B2A2", 5, MarkKind::FaceMissing),
        (b"A1C1B1B2C2A2A1B1d1B2A2", 9, MarkKind::FaceMissing),
        (b"C1B2B1A1A2B1B2C1C2A1d1A2", 11, MarkKind::FaceMissing),
        (b"B1A1B1B2A2", 5, MarkKind::FaceMissing),
        (b"A2B2", 2, MarkKind::FaceMissing),
        (b"A1d1A2", 3, MarkKind::FaceMissing),
        (b"A1A2C2A1B1B2A2", 4, MarkKind::OneSet),
        (b"C1C2C2A1B1B2A2", 4, MarkKind::OneSet),
        (b"d1B2A1B1B2A2A1B1B2A2", 3, MarkKind::MayBeShifted),
        (b"1pA1B1B2A22pA1A2", 8, MarkKind::FaceMissing),
        (b"A1B1B2A2A1A2B1B2", 7, MarkKind::Order),
        (b"A1A2B1B2C1C2A1A2B1B2", 10, MarkKind::EndsElsewhere),
        (b"B1A2C2B2B1C1A1", 2, MarkKind::FirstFace),
        (b"A1A2B2B1A1A2B2B1A1", 2, MarkKind::FirstFace),
        (b"A2A1B1B2A2A1B1B2", 1, MarkKind::ByTargets),
        (b"A1B1B2A2A1B1B2A2A1", 2, MarkKind::MayBeShifted),
        (b"A1B1B2A2A1B1B2A2A1A2", 10, MarkKind::ReadTwice),
        (b"A1B1C1C2B2A2A1B1C1C2B2A2B1B2", 14, MarkKind::ReadTwice),
        (b"A1A2B1B2C1C2A1A2B1B2C1C2A1B1C1C2B2A2", 16, MarkKind::Order),
        (b"B1B2A1A2B1B2A1A2B1B2", 3, MarkKind::MayBeShifted),
        (b"B1A1A2B2B1A1A2B2B1", 2, MarkKind::MayBeShifted),
        (b"A1A2B1B2C1C2D1D2", 1, MarkKind::ByTargets),
        (b"1pA1B1B2A22pA1A2B1B2", 7, MarkKind::ByTargets),
        (b"A1B1B2A2A1C1C2A2", 5, MarkKind::OtherTargets),
        (b"A1B1B2A2A1B1C1D1D2C2B2A2", 5, MarkKind::OtherTargets),
        (
            b"A1B1B2A2A1B1C1C2B2A2A1C1D1D2C2A2",
            11,
            MarkKind::OtherTargets,
        ),
        (b"A1B1C1", 4, MarkKind::NoSets),
        (b"A1A2d1e1", 5, MarkKind::NoSets),
        (b"1p", 2, MarkKind::NoSets),
        (b"1pA1B1B2A21pA1B1B2A2", 7, MarkKind::StationTwice),
        (b"1pA1B1B2A21pA1A2", 7, MarkKind::StationTwice),
        (b"ApA1B1B2A2", 2, MarkKind::SightsItself),
        (b"ApB1A1C1C2A2B2", 3, MarkKind::SightsItself),
        (b"ApA1A1A2B1C1C2B2B1C1C2B2", 2, MarkKind::SightsItself),
    ];
    for (text, block, kind) in rows {
        assert!(rt; fault(a, text, nothing(a)) == Some(MarkFault::At(block, kind)));
    }
}

/// How many sets the station P7 has, and how many readings stand before and after them.
fn numbers_told(alloc: Global, text: &[u8], stated: Stated) -> Option<(usize, usize, usize)> {
    let bytes = file(alloc, text)?;
    let marked = mark_file(alloc, &bytes, false, named(Name::new(b"P7")), stated).ok()?;
    let station = marked.stations.as_slice().first()?;
    Some((station.sets, station.before, station.after))
}

// Check sights, a check of the opening target, more than three leading readings, and sets that are
// begun in face II, as a plain program of the rule divides them.
#[test]
fn what_begins_and_ends_a_station_stands_outside(rt: HostRuntime) {
    let a = rt.alloc();
    let rows: [(&[u8], Option<u32>, (usize, usize, usize)); 25] = [
        (b"A1B1C1C2B2A2A1B1C1C2B2A2A1", None, (2, 0, 1)),
        (b"A1B1C1C2B2A2A1B1C1C2B2A2A1B1C1", None, (2, 0, 3)),
        (b"A1B1C1A2B2C2A1B1C1A2B2C2A1", None, (2, 0, 1)),
        (b"C1A1B1C1C2B2A2A1B1C1C2B2A2A1B1", None, (2, 1, 2)),
        (b"A1B1C1C2B2A2A1", None, (1, 0, 1)),
        (b"A1B1C1C2B2A2B1A1C1", None, (1, 0, 3)),
        (b"A1A2B1B2C1C2A1A2B1B2C1C2A1", Some(2), (2, 0, 1)),
        (b"A1B1B2A2A1B1B2A2d1A1", None, (2, 0, 2)),
        (b"A1A2B1B2A1A2B1B2e1B1", Some(2), (2, 0, 2)),
        (b"A1B1C1C2B2A2A1B1C1C2B2A2A1A2", None, (2, 0, 2)),
        (b"A1B1C1C2B2A2A1A2", None, (1, 0, 2)),
        (b"A1B1B2A2A1B1B2A2d1A1A2", None, (2, 0, 3)),
        (b"A1B1C1C2B2A2A1B1C1C2B2A2D1D2A1A2", None, (2, 0, 4)),
        (b"A1A2B1B2C1C2A1B1C1C2B2A2", None, (1, 6, 0)),
        (b"A1A2B1B2A1B1C1D1D2C2B2A2", None, (1, 4, 0)),
        (b"A1A2B1B2C1C2A1B1C1C2B2A2A1B1C1C2B2A2", None, (2, 6, 0)),
        (b"A1B1C1D1E1A1B1C1D1E1E2D2C2B2A2", None, (1, 5, 0)),
        (b"A1B1C1A1B1C1A1B1C1C2B2A2A1B1C1C2B2A2", None, (2, 6, 0)),
        (b"A2B2B1A1A2B2B1A1", None, (2, 0, 0)),
        (b"A2A1B2B1A2A1B2B1", Some(2), (2, 0, 0)),
        (b"A1A2B2B1A1A2B2B1", Some(2), (2, 0, 0)),
        (b"C1A2B2B1A1A2B2B1A1", None, (2, 1, 0)),
        (b"A2B2C2C1B1A1A2A1", None, (1, 0, 2)),
        (b"d1A1B1C1C2B2A2A1B1C1C2B2A2A1e1", None, (2, 1, 2)),
        (b"d1A1B1C1C2B2A2A1B1C1C2B2A2e1A1A2", None, (2, 1, 3)),
    ];
    for (text, sets, told) in rows {
        assert!(rt; numbers_told(a, text, numbers(a, sets, None)) == Some(told));
    }
}

// The last row but two is an orientation in both faces, a set and a part of one: reading by reading
// these are two sets.
#[test]
fn what_is_stated_is_what_is_found_or_is_refused(rt: HostRuntime) {
    let a = rt.alloc();
    let by_targets = MarkKind::ByTargets;
    let rows: [(&[u8], Option<u32>, Option<u32>, Option<(u32, MarkKind)>); 23] = [
        (b"A1A2B1B2A1A2B1B2", Some(2), None, None),
        (b"A1A2B1B2A1A2B1B2", None, Some(2), Some((1, by_targets))),
        (
            b"A1A2B1B2A1A2B1B2",
            Some(3),
            None,
            Some((1, MarkKind::SetCount)),
        ),
        (b"A1A1A2B1B2A1A2B1B2", Some(2), Some(2), None),
        (b"A1A1A2B1B2A1A2B1B2", None, None, Some((2, by_targets))),
        (b"A1B1B2A2A1B1B2A2", Some(2), Some(2), None),
        (
            b"A1B1B2A2A1B1B2A2",
            Some(1),
            Some(1),
            Some((1, MarkKind::SetCount)),
        ),
        (
            b"A1B1B2A2A1B1B2A2",
            None,
            Some(3),
            Some((1, MarkKind::TargetCount)),
        ),
        (b"A1A2B1B2C1C2D1D2", Some(1), None, Some((1, by_targets))),
        (
            b"A1A2B1B2C1C2D1D2",
            Some(1),
            Some(2),
            Some((1, MarkKind::TargetCount)),
        ),
        (b"A1A2B1B2C1C2D1D2", Some(1), Some(4), None),
        (b"A1A2B1B2C1C2d1e1", Some(1), Some(3), None),
        (b"d1A1A2B1B2A1A2B1B2e1", Some(2), None, None),
        (b"C1A1A2B1B2C1C2A1A2B1B2C1C2", Some(2), None, None),
        (
            b"A1A2B1B2A1A2B1B2C1d1C2",
            Some(2),
            None,
            Some((9, MarkKind::PairAfter)),
        ),
        (
            b"C1C2A1A2B1B2C1C2A1A2B1B2N2",
            Some(2),
            None,
            Some((1, MarkKind::MayBeShifted)),
        ),
        (
            b"A1A1A2B1B2A1A2B1B2C1D2C2",
            Some(2),
            Some(9),
            Some((2, MarkKind::MayBeShifted)),
        ),
        (
            b"A1A2B1B2A1A2B1B2C1D1C2D2",
            Some(2),
            None,
            Some((1, MarkKind::MayBeShifted)),
        ),
        (
            b"C1C2A1A2B1B2C1C2A1A2B1B2N1N1N2",
            Some(2),
            None,
            Some((1, MarkKind::MayBeShifted)),
        ),
        (b"A1B1B2A2A1B1B2A2N2", Some(2), None, None),
        (
            b"B1B2A1A2B1B2A1A2",
            Some(1),
            Some(2),
            Some((1, MarkKind::SetCount)),
        ),
        (b"1pA1B1C12pA1B1B2A2", Some(1), Some(2), None),
        (
            b"1pA1B1B2A22pA1B1B2A2A1B1B2A2",
            Some(1),
            None,
            Some((7, MarkKind::SetCount)),
        ),
    ];
    for (text, sets, targets, refused) in rows {
        let stated = numbers(a, sets, targets);
        match refused {
            Some((block, kind)) => {
                assert!(rt; fault(a, text, stated) == Some(MarkFault::At(block, kind)));
            }
            None => assert!(rt; is_marked(a, text, stated)),
        }
    }
}

/// A number of sets that is stated of the station of one name by itself, and another of each.
fn own_number(alloc: Global, name: u8, own: u32, each: Option<u32>) -> Option<Stated> {
    let mut sets = StatedNumber::of_each(alloc, each);
    let named = NamedNumber {
        name: Name::new(&[name])?,
        number: own,
    };
    sets.of_one.push(named).ok()?;
    Some(Stated {
        sets,
        targets: StatedNumber::of_each(alloc, Some(2)),
        again: false,
        others: false,
    })
}

/// Two sets by targets at a station, and one at another.
const TWO_AND_ONE: &[u8] = b"1pA1A2B1B2A1A2B1B22pA1A2B1B2";

#[test]
fn a_number_of_one_station_stands_in_the_place_of_that_of_each(rt: HostRuntime) {
    let a = rt.alloc();
    let rows: [(&[u8], u8, u32, Option<u32>, Option<(u32, MarkKind)>); 8] = [
        (TWO_AND_ONE, b'1', 2, Some(1), None),
        (TWO_AND_ONE, b'2', 1, Some(2), None),
        (TWO_AND_ONE, b'1', 2, None, Some((11, MarkKind::ByTargets))),
        (TWO_AND_ONE, b'1', 3, Some(1), Some((2, MarkKind::SetCount))),
        (
            TWO_AND_ONE,
            b'1',
            2,
            Some(2),
            Some((11, MarkKind::SetCount)),
        ),
        (TWO_AND_ONE, b'3', 1, Some(1), Some((2, MarkKind::SetCount))),
        (
            b"1pA1B1B2A2",
            b'3',
            1,
            Some(1),
            Some((6, MarkKind::NoSuchStation)),
        ),
        (
            b"1pA1B1B2A22pC1",
            b'2',
            1,
            Some(1),
            Some((8, MarkKind::NoSuchStation)),
        ),
    ];
    for (text, name, own, each, refused) in rows {
        let Some(stated) = own_number(a, name, own, each) else {
            assert!(rt; false);
            return;
        };
        match refused {
            Some((block, kind)) => {
                assert!(rt; fault(a, text, stated) == Some(MarkFault::At(block, kind)));
            }
            None => assert!(rt; is_marked(a, text, stated)),
        }
    }
    assert!(rt; fault(a, b"", nothing(a)) == Some(MarkFault::At(1, MarkKind::Empty)));
}

/// A name that comes again is another set-up; between both of them it stands at one without sets.
#[test]
fn a_second_set_up_of_a_name_is_called_apart_where_that_is_stated(rt: HostRuntime) {
    let a = rt.alloc();
    let stated = Stated {
        again: true,
        ..nothing(a)
    };
    let Some(bytes) = file(a, b"1pA1B1B2A21pC11pA1B1B2A2") else {
        return;
    };
    let Ok(marked) = mark_file(a, &bytes, false, BY_SET_UPS, stated) else {
        assert!(rt; false);
        return;
    };
    let names: [&[u8]; 3] = [b"1", b"1", b"1-2"];
    assert!(rt; marked.stations.len() == names.len());
    for (station, name) in marked.stations.iter().zip(names) {
        assert!(rt; station.name.bytes() == name);
    }
}

/// A reading of the station P7: the name of its target, its direction and its zenith angle, in units
/// of 0.00001 gon.
type Read = (u8, u32, u32);

/// The last digit of a number.
fn last_digit(number: u32) -> u8 {
    b'0' + (number % 10) as u8
}

/// The eight digits of a number.
fn digits_of(number: u32) -> [u8; 8] {
    [
        last_digit(number / 10_000_000),
        last_digit(number / 1_000_000),
        last_digit(number / 100_000),
        last_digit(number / 10_000),
        last_digit(number / 1_000),
        last_digit(number / 100),
        last_digit(number / 10),
        last_digit(number),
    ]
}

/// The bytes of a field file of GSI-8 with these readings.
fn file_of(alloc: Global, reads: &[Read]) -> Option<Vec<u8>> {
    let mut bytes = Vec::new(alloc);
    for (target, direction, zenith) in reads {
        bytes.extend_from_slice(b"11....+0000000").ok()?;
        bytes.push(*target).ok()?;
        bytes.extend_from_slice(b" 21.102+").ok()?;
        bytes.extend_from_slice(&digits_of(*direction)).ok()?;
        bytes.extend_from_slice(b" 22.102+").ok()?;
        bytes.extend_from_slice(&digits_of(*zenith)).ok()?;
        bytes.push(b'\n').ok()?;
    }
    Some(bytes)
}

/// What is told of these readings, beyond the numbers of their sets.
fn remarks_of(alloc: Global, reads: &[Read]) -> Option<Remarks> {
    let bytes = file_of(alloc, reads)?;
    let beginnings = named(Name::new(b"P7"));
    let mut marked = mark_file(alloc, &bytes, false, beginnings, nothing(alloc)).ok()?;
    marked.stations.pop()?.remarks
}

#[test]
fn equal_sets_are_told_in_pairs(rt: HostRuntime) {
    let a = rt.alloc();
    // Set 3 is the first once more, set 4 the second in another order; set 5 differs from the first
    // by the last digit of a direction, set 6 by that of a zenith angle, set 7 by a target.
    let reads = [
        (b'A', 100, 9_000),
        (b'B', 200, 9_000),
        (b'B', 300, 39_991_000),
        (b'A', 400, 39_991_000),
        (b'A', 101, 9_000),
        (b'B', 201, 9_000),
        (b'B', 301, 39_991_000),
        (b'A', 401, 39_991_000),
        (b'A', 100, 9_000),
        (b'B', 200, 9_000),
        (b'B', 300, 39_991_000),
        (b'A', 400, 39_991_000),
        (b'A', 401, 39_991_000),
        (b'B', 301, 39_991_000),
        (b'B', 201, 9_000),
        (b'A', 101, 9_000),
        (b'A', 100, 9_000),
        (b'B', 200, 9_000),
        (b'B', 300, 39_991_000),
        (b'A', 401, 39_991_000),
        (b'A', 100, 9_000),
        (b'B', 200, 9_001),
        (b'B', 300, 39_991_000),
        (b'A', 400, 39_991_000),
        (b'A', 100, 9_000),
        (b'C', 250, 9_000),
        (b'B', 200, 9_000),
        (b'B', 300, 39_991_000),
        (b'C', 350, 39_991_000),
        (b'A', 400, 39_991_000),
    ];
    let Some(remarks) = remarks_of(a, &reads) else {
        assert!(rt; false);
        return;
    };
    let pairs = [(1, 3), (2, 4)];
    assert!(rt; remarks.equal_sets.pairs().len() == pairs.len());
    for (pair, (earlier, later)) in remarks.equal_sets.pairs().iter().zip(pairs) {
        assert!(rt; pair.earlier == earlier && pair.later == later);
    }
    assert!(rt; remarks.zeniths.ranges().is_empty());
}

#[test]
fn zenith_angles_that_differ_by_more_than_20_mgon_are_told(rt: HostRuntime) {
    let a = rt.alloc();
    // Those of A differ by 20 mgon, those of D by a unit more, in face II; a reading outside of the
    // sets counts for nothing.
    let reads = [
        (b'A', 1, 7_000),
        (b'A', 100, 9_000),
        (b'D', 200, 8_000),
        (b'C', 300, 9_000),
        (b'B', 400, 9_000),
        (b'B', 500, 39_991_000),
        (b'C', 600, 39_991_000),
        (b'D', 700, 39_989_999),
        (b'A', 800, 39_991_000),
        (b'A', 101, 11_000),
        (b'D', 201, 9_000),
        (b'C', 301, 9_500),
        (b'B', 401, 6_000),
        (b'B', 501, 39_991_000),
        (b'C', 601, 39_991_000),
        (b'D', 701, 39_991_000),
        (b'A', 801, 39_990_000),
    ];
    let Some(remarks) = remarks_of(a, &reads) else {
        assert!(rt; false);
        return;
    };
    let ranges = [(b"D", 8_000, 10_001), (b"B", 6_000, 9_000)];
    assert!(rt; remarks.zeniths.ranges().len() == ranges.len());
    for (range, (target, least, greatest)) in remarks.zeniths.ranges().iter().zip(ranges) {
        assert!(rt; range.target.bytes() == target.as_slice());
        assert!(rt; range.least == least && range.greatest == greatest);
    }
    assert!(rt; remarks.equal_sets.pairs().is_empty());
}

/// The names of the stations that are told, with the blocks of their faults, 0 for none.
fn told(stations: &[Recognized]) -> [(u8, u32); 3] {
    let mut told = [(0, 0); 3];
    for (place, station) in stations.iter().enumerate() {
        let block = match station.fault {
            Some(flaw) => flaw.block,
            None => 0,
        };
        if place < told.len() {
            let name = match station.name.bytes() {
                [first, ..] => *first,
                [] => 0,
            };
            told[place] = (name, block);
        }
    }
    told
}

/// Two stations with a set, and one between them of which a reading is missing.
const THREE: &[u8] = b"1pA1B1B2A22pA1B1B23pA1C1C2A2";

/// What is told of them.
const TOLD: [(u8, u32); 3] = [(b'1', 0), (b'2', 9), (b'3', 0)];

#[test]
fn each_station_is_told_where_one_has_a_fault(rt: HostRuntime) {
    let a = rt.alloc();
    let Some(bytes) = file(a, THREE) else {
        return;
    };
    let Err(Refused::Stations(flaw, stations)) = mark_file(a, &bytes, false, BY_SET_UPS, nothing(a))
    else {
        assert!(rt; false);
        return;
    };
    assert!(rt; flaw.block == 9);
    assert!(rt; told(&stations) == TOLD);
}

#[test]
fn a_station_with_a_fault_stays_outside_where_that_is_stated(rt: HostRuntime) {
    let a = rt.alloc();
    let Some(bytes) = file(a, THREE) else {
        return;
    };
    let Ok(marked) = mark_file(a, &bytes, false, BY_SET_UPS, others(a)) else {
        assert!(rt; false);
        return;
    };
    assert!(rt; marked.marks.len() == 5);
    assert!(rt; told(&marked.stations) == TOLD);
}

/// A name that comes again is a doubt about the file, and a file without sets has no copy.
#[test]
fn not_every_file_has_a_copy_without_its_faults(rt: HostRuntime) {
    let a = rt.alloc();
    let twice = fault(a, b"1pA1B1B2A21pA1B1B2A2", others(a));
    assert!(rt; twice == Some(MarkFault::At(7, MarkKind::StationTwice)));
    let none = fault(a, b"1pA1B1B22pA1", others(a));
    assert!(rt; none == Some(MarkFault::At(4, MarkKind::FaceMissing)));
    assert!(rt; is_marked(a, b"1pA1B1B22pA1B1B2A2", others(a)));
    assert!(rt; is_marked(a, b"1pA1B1B2A21pC1", nothing(a)));
}

#[test]
fn a_detail_point_may_have_the_name_of_its_station(rt: HostRuntime) {
    let a = rt.alloc();
    assert!(rt; is_marked(a, b"DpA1B1B2A2A1B1B2A2D1", nothing(a)));
}

#[test]
fn a_reading_before_any_set_up_line_is_of_no_station(rt: HostRuntime) {
    let a = rt.alloc();
    let Some(bytes) = file(a, b"A1B1B2A2") else {
        return;
    };
    assert!(rt;
        matches!(
            mark_file(a, &bytes, false, BY_SET_UPS, nothing(a)),
            Err(Refused::File(MarkFault::At(1, MarkKind::NoSetUp)))
        )
    );
}

#[test]
fn a_reading_that_a_book_refuses_has_its_fault(rt: HostRuntime) {
    let a = rt.alloc();
    assert!(rt; fault(a, b"A1B3", nothing(a)) == Some(MarkFault::Reading(2, BookKind::NoZenith)));
}

/// Codes stand in the width and with the end of the lines beside them, and the name has lost the
/// zeros before it.
#[test]
fn the_copy_has_whole_lines_more(rt: HostRuntime) {
    let a = rt.alloc();
    let first = b"11....+0000000A 21.102+01234567 22.102+09876543";
    let second = b"11....+0000000B 21.102+01234567 22.102+09876543\r\n";
    let wide = b"*11....+000000000000000B 21.102+0000000021234567 22.102+0000000030123457\r";
    let last = b"11....+0000000A 21.102+21234567 22.102+30123457";
    let detail = b"11....+0000000d 21.102+01234567 22.102+09876543";
    let Some(name) = Name::new(b"007") else {
        return;
    };
    let mut bytes = Vec::new(a);
    let parts: [&[u8]; 10] = [
        first, b"\r\n", second, wide, last, b"\n", first, b"\r\n", second, wide,
    ];
    for part in parts {
        assert!(rt; bytes.extend_from_slice(part).is_ok());
    }
    assert!(rt; bytes.extend_from_slice(last).is_ok() && bytes.extend_from_slice(b"\n\n").is_ok());
    assert!(rt; bytes.extend_from_slice(detail).is_ok());
    let expected: [&[u8]; 18] = [
        b"41....+00000010 42....+00000007\r\n",
        b"41....+00000020 42....+00000001\r\n",
        first,
        b"\r\n",
        second,
        wide,
        last,
        b"\n",
        b"41....+00000020 42....+00000002\n",
        first,
        b"\r\n",
        second,
        wide,
        last,
        b"\n\n",
        b"41....+00000030\n",
        detail,
        b"",
    ];
    let mut copy = Vec::new(a);
    for part in expected {
        assert!(rt; copy.extend_from_slice(part).is_ok());
    }
    let made = copy_of(a, &bytes, named(Some(name)), nothing(a));
    assert!(rt; made.is_ok_and(|made| made.as_slice() == copy.as_slice()));
}

/// How stations begin: as one of this name, if it is stated; where this is so, not anew by a
/// set-up line of the open station's name; and by the blocks of this code, if one is stated.
fn stated_so(station: &[u8], same_set_up: bool, code: &[u8]) -> Beginnings {
    Beginnings {
        station: Name::new(station),
        same_set_up,
        code: Name::new(code),
    }
}

// The answers are those of a plain program of the rule.
#[test]
fn stations_begin_as_is_stated(rt: HostRuntime) {
    let a = rt.alloc();
    let at = |block, kind| Some(MarkFault::At(block, kind));
    let face_missing = |block| at(block, MarkKind::FaceMissing);
    let unnamed = |block| Some(MarkFault::Reading(block, BookKind::StationName));
    let rows: [(&[u8], (&[u8], bool, &[u8]), Option<MarkFault>); 17] = [
        (b"1pA1B11pB2A2", (b"", false, b""), face_missing(6)),
        (b"1pA1B11pB2A2", (b"", true, b""), None),
        (b"1p1pA1B1B2A2", (b"", true, b""), None),
        (b"1pA1B12p1pB2A2", (b"", true, b""), face_missing(7)),
        (
            b"1pA1B1B2A22pA1B1B2A21pA1B1B2A2",
            (b"", true, b""),
            at(12, MarkKind::StationTwice),
        ),
        (b"A1B17pB2A2", (b"7", true, b""), at(3, MarkKind::HasSetUp)),
        (b"k1A1B1B2A2k2A1B1B2A2", (b"", false, b"47"), None),
        (b"k1A1B1B2A2k2A1B1B2A2", (b"", false, b"0047"), None),
        (
            b"k1A1B1B2A2k2A1B1B2A2",
            (b"", false, b"48"),
            at(2, MarkKind::NoSetUp),
        ),
        (
            b"k1A1B1B2A2k2A1B1B2A2",
            (b"", false, b""),
            at(2, MarkKind::NoSetUp),
        ),
        (b"k1A1B1k-B2A2", (b"", false, b"47"), unnamed(4)),
        (b"k1A1B1k1B2A2", (b"", false, b"47"), face_missing(6)),
        (b"k1A1B1k1B2A2", (b"", true, b"47"), None),
        (b"1pA1B1k1B2A2", (b"", true, b"47"), None),
        (
            b"A1B1k2B2A2",
            (b"P7", false, b"47"),
            at(3, MarkKind::HasSetUp),
        ),
        (b"A1B1k-B2A2", (b"P7", false, b"47"), unnamed(3)),
        (
            b"c1A1B1B2A2",
            (b"", false, b"10"),
            at(1, MarkKind::HasCodes),
        ),
    ];
    for (text, (station, same_set_up, code), refused) in rows {
        let beginnings = stated_so(station, same_set_up, code);
        let Some(bytes) = file(a, text) else {
            return;
        };
        let answer = copy_of(a, &bytes, beginnings, nothing(a)).err();
        assert!(rt; answer.map(|refused| refused.fault()) == refused);
    }
}

#[test]
fn a_code_block_names_the_station_that_it_begins(rt: HostRuntime) {
    let a = rt.alloc();
    let Some(bytes) = file(a, b"1pA1B1B2A2k2A1B1B2A2") else {
        return;
    };
    let beginnings = stated_so(b"", false, b"47");
    let Ok(marked) = mark_file(a, &bytes, false, beginnings, nothing(a)) else {
        assert!(rt; false);
        return;
    };
    assert!(rt; told(&marked.stations) == [(b'1', 0), (b'2', 0), (0, 0)]);
}

/// How often the set-up lines of the first three stations that are told were written again.
fn counts(stations: &[Recognized]) -> [usize; 3] {
    let mut counts = [0; 3];
    for (place, station) in stations.iter().enumerate() {
        if place < counts.len() {
            counts[place] = station.written_again;
        }
    }
    counts
}

/// The stations that are told, whether the file is refused for one of them or not.
fn stations_told(answer: Result<Marked, Refused>) -> Option<Vec<Recognized>> {
    match answer {
        Ok(marked) => Some(marked.stations),
        Err(Refused::Stations(_, stations)) => Some(stations),
        Err(Refused::File(_)) => None,
    }
}

#[test]
fn set_up_lines_that_are_written_again_are_counted(rt: HostRuntime) {
    let a = rt.alloc();
    let rows: [(&[u8], (&[u8], bool, &[u8]), [usize; 3]); 9] = [
        (b"1pA1B1B2A21p", (b"", false, b""), [0, 0, 0]),
        (b"1p1pA1B1B2A2", (b"", false, b""), [0, 0, 0]),
        (b"1pA1B11pB2A2", (b"", true, b""), [1, 0, 0]),
        (b"1p1pA1B11pB2A21p", (b"", true, b""), [3, 0, 0]),
        (b"1p1pA1B1B2A22p3pA1B13pB2A2", (b"", true, b""), [1, 0, 1]),
        (b"1pA12p2pA1B1B2A21pA11p", (b"", true, b""), [0, 1, 1]),
        (b"1pA1B11pB1A2", (b"", true, b""), [1, 0, 0]),
        (b"k1A1k1B11pB2A2k2k2", (b"", true, b"47"), [2, 1, 0]),
        (b"A1B1B2A2", (b"7", true, b""), [0, 0, 0]),
    ];
    for (text, (station, same_set_up, code), want) in rows {
        let beginnings = stated_so(station, same_set_up, code);
        let Some(bytes) = file(a, text) else {
            return;
        };
        let answer = mark_file(a, &bytes, false, beginnings, nothing(a));
        let told = stations_told(answer).map(|stations| counts(&stations));
        assert!(rt; told == Some(want));
    }
}
