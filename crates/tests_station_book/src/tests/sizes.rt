//! With ample memory no call is refused for want of it, at any size; and where no growth is needed,
//! none is made. No clause says either, since a growth may always fail.

use super::{hoard, new_book, numbered, take};
use station_book::{Book, Faces, Limits, Stations};
use std::alloc::Global;
use std::process::Abort;

const STATION: &[u8] = b"410001+00000010 42....+000S0000";

const SET: &[u8] = b"410002+00000020 42....+00000000";

const FACE_1: &[u8] = b"110003+000T0000 21.102+00000000 22.102+10000000";

const FACE_2: &[u8] = b"110004+000T0000 21.102+20000010 22.102+30000002";

const WIDE_STATION: &[u8] = b"*410001+0000000000000010 42....+0000000000000000";

const WIDE_SET: &[u8] = b"*410002+0000000000000020 42....+0000000000000001";

const WIDE_FACE_1: &[u8] =
    b"*110003+0000000000000000 21.102+0000000000000000 22.102+0000000010000000";

const WIDE_FACE_2: &[u8] =
    b"*110004+0000000000000000 21.102+0000000020000000 22.102+0000000030000000";

/// Where four digits go into the last word of a code block, and into the first of a measurement.
const LAST_WORD: usize = 27;

const FIRST_WORD: usize = 11;

/// Where sixteen bytes go into the second word of a wide code block, and into the first of a wide
/// measurement.
const WIDE_SECOND: usize = 32;

const WIDE_FIRST: usize = 8;

/// The bytes of a name in a wide word.
const WIDTH: usize = 16;

/// The bytes of the longest of these lines.
const LINE: usize = 72;

/// Takes a block that has no fault.
fn expect_taken(rt: &impl Abort, book: &mut Book, line: &[u8]) {
    assert_eq!(rt; take(rt, book, line), Ok(()));
}

/// Takes a set of this number, with both readings of so many targets.
fn take_set(rt: &impl Abort, book: &mut Book, number: usize, targets: usize) {
    expect_taken(rt, book, &numbered(SET, LAST_WORD, number));
    for target in 0..targets {
        expect_taken(rt, book, &numbered(FACE_1, FIRST_WORD, target));
        expect_taken(rt, book, &numbered(FACE_2, FIRST_WORD, target));
    }
}

/// The stations of a book that ends here.
fn expect_stations(rt: &impl Abort, book: Book, count: usize) -> Stations {
    let stations = book.finish().expect(rt, "stations");
    assert_eq!(rt; stations.len(), count);
    assert!(rt; stations.at(count).is_none());
    stations
}

/// The line, with a name of so many bytes in the sixteen from this place on.
fn named(line: &[u8], at: usize, length: usize) -> [u8; LINE] {
    let mut bytes = [b' '; LINE];
    for (i, byte) in bytes.iter_mut().enumerate() {
        if let Some(b) = line.get(i) {
            *byte = *b;
        }
        let place = i.wrapping_sub(at);
        if place < WIDTH && place >= WIDTH.wrapping_sub(length) {
            *byte = b'A';
        }
    }
    bytes
}

/// Whether a file of so many stations is made: of each number up to 80, and above of 1000, of those
/// that end in 01 and of those of one digit alone, as 333.
fn is_tried(count: usize) -> bool {
    count <= 80 || count == 1_000 || count % 100 == 1 || count % 111 == 0
}

#[test]
fn a_set_of_each_number_is_taken_first_and_after_another(rt: HostRuntime) {
    for number in 1..10_000 {
        let mut book = new_book(&rt, rt.alloc());
        expect_taken(&rt, &mut book, STATION);
        take_set(&rt, &mut book, number, 1);
        take_set(&rt, &mut book, number % 9_999 + 1, 1);
        expect_stations(&rt, book, 1);
    }
}

#[test]
fn names_of_each_length_are_taken(rt: HostRuntime) {
    for station in 1..17 {
        for target in 1..17 {
            let mut book = new_book(&rt, rt.alloc());
            expect_taken(&rt, &mut book, &named(WIDE_STATION, WIDE_SECOND, station));
            expect_taken(&rt, &mut book, WIDE_SET);
            expect_taken(&rt, &mut book, &named(WIDE_FACE_1, WIDE_FIRST, target));
            expect_taken(&rt, &mut book, &named(WIDE_FACE_2, WIDE_FIRST, target));
            take_set(&rt, &mut book, 2, 1);
            let stations = expect_stations(&rt, book, 1);
            let found = stations.at(0).expect(&rt, "a station").station();
            assert_eq!(rt; found.name().bytes().len(), station);
            let first = found.targets().get(0).expect(&rt, "a target");
            assert_eq!(rt; first.bytes().len(), target);
        }
    }
}

#[test]
fn stations_sets_and_targets_of_many_numbers_are_listed(rt: HostRuntime) {
    for count in 1..1_001 {
        if is_tried(count) {
            let mut book = new_book(&rt, rt.alloc());
            for name in 0..count {
                expect_taken(&rt, &mut book, &numbered(STATION, LAST_WORD, name));
                take_set(&rt, &mut book, 1, 1);
            }
            expect_stations(&rt, book, count);
        }
    }
    for count in 1..101 {
        let mut book = new_book(&rt, rt.alloc());
        expect_taken(&rt, &mut book, STATION);
        take_set(&rt, &mut book, 1, count);
        let stations = expect_stations(&rt, book, 1);
        let station = stations.at(0).expect(&rt, "a station").station();
        assert_eq!(rt; station.targets().len(), count);
    }
    for count in 1..41 {
        let mut book = new_book(&rt, rt.alloc());
        expect_taken(&rt, &mut book, STATION);
        for number in 0..count {
            take_set(&rt, &mut book, number + 1, 1);
        }
        let stations = expect_stations(&rt, book, 1);
        let station = stations.at(0).expect(&rt, "a station").station();
        assert_eq!(rt; station.sets().len(), count);
    }
}

#[test]
fn face_differences_and_limits_are_copied_as_they_are(rt: HostRuntime) {
    let faces = Faces {
        two_c: 10,
        two_i: 2,
        zenith: 10_000_000,
    };
    let copy = faces.clone().expect(&rt, "a copy");
    assert_eq!(rt; (copy.two_c, copy.two_i, copy.zenith), (10, 2, 10_000_000));
    let limits = Limits::new(10, 2).expect(&rt, "limits");
    let copy = limits.clone().expect(&rt, "a copy");
    assert_eq!(rt; (copy.two_c(), copy.two_i()), (10, 2));
    for other in [(10, 3), (11, 2), (2, 10)] {
        assert!(rt;
            faces
                != Faces {
                    two_c: other.0 as i32,
                    two_i: other.1 as i32,
                    zenith: 10_000_000
                }
        );
        assert!(rt; limits != Limits::new(other.0, other.1).expect(&rt, "limits"));
    }
}

/// How many bytes are left free, in one piece: more than a book of no station could take unseen.
const ROOM: usize = 65_536;

/// How many blocks are taken that keep nothing.
const PASSED: usize = 100;

/// `rt test` runs it, as all that hold memory.
#[test]
fn a_new_book_takes_no_memory_and_blocks_without_a_set_take_none(rt: HostRuntime) {
    let room = Vec::<u8>::with_capacity(rt.alloc(), ROOM).expect(&rt, "room");
    let held = hoard(rt.alloc());
    drop(room);
    let mut book = new_book(&rt, rt.alloc());
    for name in 0..PASSED {
        expect_taken(&rt, &mut book, &numbered(STATION, LAST_WORD, name));
        expect_taken(&rt, &mut book, FACE_1);
        expect_taken(&rt, &mut book, b"410002+00000040");
    }
    let again = Vec::<u8>::with_capacity(rt.alloc(), ROOM);
    drop(held);
    assert!(rt; again.is_ok());
    assert_eq!(rt; book.taken() as usize, 300);
    expect_stations(&rt, book, 0);
}
