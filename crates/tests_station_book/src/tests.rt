//! Worked files: the list of a station, refusals at their blocks, the limits, and refused memory.

mod sizes;

use gsi_word::{AngleFault, read_block};
use station_book::{Book, BookFault, BookKind, Limits, Stations};
use std::alloc::Global;
use std::process::Abort;
use std::test::Fail;
use test_support::{BLOCKS, hoard};

/// Two targets in two sets of station S1, in both faces.
const FILE: [&[u8]; 12] = [
    b"410001+00000010 42....+000000S1",
    b"410002+00000020 42....+00000001",
    b"110003+0000000A 21.102+00000000 22.102+10000000",
    b"110004+0000000B 21.102+05000000 22.102+10000000",
    b"110005+0000000B 21.102+25000010 22.102+30000000",
    b"110006+0000000A 21.102+20000006 22.102+29999998",
    b"410007+00000020 42....+00000002",
    b"110008+0000000A 21.102+10000000 22.102+10000000",
    b"110009+0000000B 21.102+15000004 22.102+10000000",
    b"110010+0000000B 21.102+35000008 22.102+30000000",
    b"110011+0000000A 21.102+30000004 22.102+30000000",
    b"410012+00000030",
];

/// The same directions, in lines of GSI-16 and one of GSI-8, among blocks and words that say
/// nothing of them.
const WIDE: [&[u8]; 20] = [
    b"*110001+000000000000000C 21.102+0000000005000000",
    b"*410002+0000000000000030",
    b"*410003+0000000000000010 42....+00000000000000S1 43....+00000000000000S2",
    b"*110004+000000000000000C 21.102+0000000005000000 22.102+0000000010000000",
    b"*410005+0000000000000020 42....+0000000000000001 43....+0000000000000007",
    b"*110006+000000000000000A 21.102+0000000000000000 22.102+0000000010000000",
    b"110007+0000000B 31..00+00012345 21.102+05000000 22.102+10000000 81..00+00000001",
    b"*410008+0000000000000040 42....+00000000000000S9",
    b"*110009+000000000000000B 21.102+0000000025000010 22.102+0000000030000000",
    b"*110010+000000000000000C 22.102+0000000010000000",
    b"*110011+000000000000000A 21.102+0000000020000006 22.102+0000000029999998",
    b"*410012+0000000000000030",
    b"*410013+0000000000000030",
    b"*410014+0000000000000020 42....+0000000000000002",
    b"*110015+000000000000000A 21.102+0000000010000000 22.102+0000000010000000",
    b"*110016+000000000000000B 21.102+0000000015000004 22.102+0000000010000000",
    b"*110017+000000000000000B 21.102+0000000035000008 22.102+0000000030000000",
    b"*110018+000000000000000A 21.102+0000000030000004 22.102+0000000030000000",
    b"*410019+0000000000000030",
    b"*110020+000000000000000A 21.102+0000000000000000",
];

/// An empty book with the limits 2000 and 2000.
fn new_book(rt: &impl Abort, alloc: Global) -> Book {
    let limits = Limits::new(2000, 2000).expect(rt, "limits");
    Book::new(alloc, limits)
}

fn take(rt: &impl Abort, book: &mut Book, line: &[u8]) -> Result<(), BookFault> {
    let block = read_block(line).expect(rt, "a block");
    assert!(rt; book.taken() < 16_777_216);
    book.take(&block)
}

/// Takes blocks that have no fault.
fn expect_all_taken(rt: &impl Abort, book: &mut Book, lines: &[&[u8]]) {
    for line in lines {
        assert_eq!(rt; take(rt, book, line), Ok(()));
    }
}

/// A book that has taken the first lines of the file.
fn book_of(rt: &impl Abort, alloc: Global, lines: usize) -> Book {
    let mut book = new_book(rt, alloc);
    for line in FILE.iter().take(lines) {
        assert_eq!(rt; take(rt, &mut book, line), Ok(()));
    }
    book
}

/// Whether a book that ends here has the stations of the file.
fn expect_list(rt: &impl Abort, book: Book) {
    let stations = book.finish().expect(rt, "stations");
    assert_eq!(rt; stations.len(), 1);
    assert!(rt; stations.get(b"S2").is_none());
    let surveyed = stations.get(b"S1").expect(rt, "S1");
    let station = surveyed.station();
    for (place, name) in [b"A", b"B"].iter().enumerate() {
        let target = station.targets().get(place).expect(rt, "a target");
        assert_eq!(rt; target.bytes(), name.as_slice());
    }
    assert_eq!(rt; station.targets().len(), 2);
    assert_eq!(rt; station.sets(), [1, 2].as_slice());
    let rows = [
        (0, 0, 6, 6, -2),
        (0, 1, 10_000_010, 10, 0),
        (1, 0, 20_000_004, 4, 0),
        (1, 1, 30_000_012, 4, 0),
    ];
    assert_eq!(rt; station.obs().len(), 4);
    assert_eq!(rt; surveyed.faces().len(), 4);
    for (place, (set, target, value, two_c, two_i)) in rows.iter().enumerate() {
        let obs = station.obs().get(place).expect(rt, "an observation");
        assert_eq!(rt; (obs.set, obs.target, obs.value), (*set, *target, *value));
        let faces = surveyed.faces().get(place).expect(rt, "differences");
        assert_eq!(rt;
            (faces.two_c, faces.two_i, faces.zenith),
            (*two_c, *two_i, 10_000_000)
        );
    }
}

#[test]
fn a_file_gives_its_stations(rt: HostRuntime) {
    expect_list(&rt, book_of(&rt, rt.alloc(), 12));
    let mut wide = new_book(&rt, rt.alloc());
    expect_all_taken(&rt, &mut wide, &WIDE);
    expect_list(&rt, wide);
}

/// After how many lines of the file a block is refused, the block, and for what.
const FAULTS: &str = "\
0|410001+00000020 42....+00000001|SetOutside
0|410001+00000010|StationName
0|410001+00000010 42....+000000S1 42....+000000S2|WordTwice(42)
1|410002+00000020 42....+00000000|SetNumber
1|410002+00000020 42....+00010000|SetNumber
1|410002+00000020 42....+0000000A|SetNumber
1|410002+00000020|SetNumber
1|410002+00000020 42....+00000001 42....+00000002|WordTwice(42)
2|410003+00000030|EmptySet
3|410004+00000030|OneFace
3|410004+00000020 42....+00000002|OneFace
3|410004+00000010 42....+000000S2|OneFace
3|110004+0000000A 21.102+00000001 22.102+10000000|FaceTwice
12|410013+00000020 42....+00000002|SetTwice
2|110003+0000000A 21.102+00000000 22.102+40000000|Zenith(Range)
2|110003+0000000A 21.104+00000000 22.102+10000000|Hz(Unit)
2|110003+0000000A 21.112+00000000 22.102+10000000|Hz(InputMode)
2|110003+0000000A 21.102+00000000 21.102+00000000 22.102+10000000|WordTwice(21)
2|110003+0000000A 21.102+00000000 22.102+10000000 22.102+10000000|WordTwice(22)
5|110006+0000000A 21.102+20000006|NoZenith
2|110003+0000000A 21.102+00000000 22.102+20000000|FaceUnclear
2|110003+0000000A 21.102+00000000 22.102+00000000|FaceUnclear
3|110004+0000000A 21.102+20002001 22.102+30000000|TwoC
3|110004+0000000A 21.102+19997999 22.102+30000000|TwoC
3|110004+0000000A 21.102+20000000 22.102+30002001|TwoI
3|110004+0000000A 21.102+20000000 22.102+29997999|TwoI
";

/// A block is refused for its fault, at its place, and is not taken.
fn expect_fault(rt: &impl Abort, alloc: Global, case: &'static str) -> Result<(), Fail> {
    let (lines, case) = case.split_once('|').expect(rt, "a case");
    let (line, kind) = case.split_once('|').expect(rt, "a case");
    let lines = lines.parse::<u8>()?;
    let mut book = book_of(rt, alloc, usize::from(lines));
    let answer = take(rt, &mut book, line.as_bytes());
    let found = format!(in alloc; "{answer:?}")?;
    let number = u32::from(lines) + 1;
    let expected = format!(in alloc; "Err(At({number}, {kind}))")?;
    assert_eq!(rt; found.as_str(), expected.as_str(), "of {line}");
    assert_eq!(rt; book.taken(), u32::from(lines));
    Ok(())
}

#[test]
fn a_fault_stands_at_its_block(rt: HostRuntime) -> Result<(), Fail> {
    for case in FAULTS.lines() {
        expect_fault(&rt, rt.alloc(), case)?;
    }
    Ok(())
}

/// Two stations: the sets of the second have large numbers that are not in order, and the last is
/// still open.
const TWO: [&[u8]; 11] = [
    b"410001+00000010 42....+000000S1",
    b"410002+00000020 42....+00000001",
    b"110003+0000000A 21.102+00000000 22.102+10000000",
    b"110004+0000000A 21.102+20000006 22.102+29999998",
    b"410005+00000010 42....+000000S2",
    b"410006+00000020 42....+00009999",
    b"110007+0000000B 21.102+05000000 22.102+10000000",
    b"110008+0000000B 21.102+25000010 22.102+30000000",
    b"410009+00000020 42....+00000021",
    b"110010+0000000B 21.102+35000008 22.102+30000000",
    b"110011+0000000B 21.102+15000004 22.102+10000000",
];

/// Whether the station at a place has this name and these sets, and one target with a direction of
/// these values, set by set.
fn expect_station(
    rt: &impl Abort,
    stations: &Stations,
    place: usize,
    name: &[u8],
    sets: &[u16],
    values: &[u32],
) {
    let station = stations.at(place).expect(rt, "a station").station();
    assert_eq!(rt; station.name().bytes(), name);
    assert_eq!(rt; station.sets(), sets);
    assert_eq!(rt; station.targets().len(), 1);
    assert_eq!(rt; station.obs().len(), values.len());
    for (place, value) in values.iter().enumerate() {
        let obs = station.obs().get(place).expect(rt, "an observation");
        assert_eq!(rt;
            (obs.set as usize, obs.target, obs.value),
            (place, 0, *value)
        );
    }
}

#[test]
fn two_stations_are_listed_in_their_order(rt: HostRuntime) {
    let mut book = new_book(&rt, rt.alloc());
    expect_all_taken(&rt, &mut book, &TWO);
    let stations = book.finish().expect(&rt, "stations");
    assert_eq!(rt; stations.len(), 2);
    assert!(rt; stations.at(2).is_none());
    expect_station(&rt, &stations, 0, b"S1", &[1], &[6]);
    let values = [10_000_010, 30_000_012];
    expect_station(&rt, &stations, 1, b"S2", &[9999, 21], &values);
    let found = stations.get(b"S2").expect(&rt, "S2").station();
    assert_eq!(rt; found.name().bytes(), b"S2".as_slice());
}

#[test]
fn a_station_is_surveyed_once(rt: HostRuntime) {
    let mut book = book_of(&rt, rt.alloc(), 12);
    let again = take(&rt, &mut book, b"410013+00000010 42....+000000S1");
    assert_eq!(rt; again, Ok(()));
    let set = b"410014+00000020 42....+00000003";
    expect_left(&rt, book, set, (14, BookKind::StationTwice), &[]);
}

#[test]
fn an_open_set_ends_with_the_file(rt: HostRuntime) {
    for (lines, kind) in [(2, BookKind::EmptySet), (5, BookKind::OneFace)] {
        match book_of(&rt, rt.alloc(), lines).finish() {
            Ok(_) => panic!(rt; "stations of a set that may not end"),
            Err(fault) => assert_eq!(rt; fault, BookFault::At(lines as u32 + 1, kind)),
        }
    }
    let none = new_book(&rt, rt.alloc())
        .finish()
        .expect(&rt, "no stations");
    assert_eq!(rt; none.len(), 0);
}

/// This block is refused, and leaves the book as it was: the other lines are taken after it, and
/// the stations are those of the file.
fn expect_left(
    rt: &impl Abort,
    mut book: Book,
    refused: &[u8],
    (number, kind): (u32, BookKind),
    others: &[&[u8]],
) {
    let taken = book.taken();
    for _ in 0..2 {
        let answer = take(rt, &mut book, refused);
        assert_eq!(rt; answer, Err(BookFault::At(number, kind)));
        assert_eq!(rt; book.taken(), taken);
    }
    expect_all_taken(rt, &mut book, others);
    expect_list(rt, book);
}

#[test]
fn a_refused_block_leaves_the_book(rt: HostRuntime) {
    let rows: [(&[u8], BookKind); 12] = [
        (b"410007+00000010", BookKind::StationName),
        (
            b"410007+00000020 42....+00000002 42....+00000003",
            BookKind::WordTwice(42),
        ),
        (b"410007+00000020", BookKind::SetNumber),
        (b"410007+00000020 42....+00000000", BookKind::SetNumber),
        (b"410007+00000020 42....+00000001", BookKind::SetTwice),
        (
            b"110007+0000000A 21.102+00000000 21.102+00000000 22.102+10000000",
            BookKind::WordTwice(21),
        ),
        (
            b"110007+0000000A 21.102+00000000 22.102+10000000 22.102+10000000",
            BookKind::WordTwice(22),
        ),
        (b"110007+0000000A 21.102+00000000", BookKind::NoZenith),
        (
            b"110007+0000000A 21.102-00000001 22.102+10000000",
            BookKind::Hz(AngleFault::Sign),
        ),
        (
            b"110007+0000000A 21.102+00000000 22.102-10000000",
            BookKind::Zenith(AngleFault::Sign),
        ),
        (
            b"110007+0000000C 21.102+00000000 22.102+20000000",
            BookKind::FaceUnclear,
        ),
        (FILE[2], BookKind::FaceTwice),
    ];
    for (refused, kind) in rows {
        let book = book_of(&rt, rt.alloc(), 6);
        expect_left(&rt, book, refused, (7, kind), &FILE[6..]);
    }
}

#[test]
fn a_refused_end_of_a_set_leaves_the_book(rt: HostRuntime) {
    let rows: [(&[u8], BookKind); 5] = [
        (b"410006+00000030", BookKind::OneFace),
        (b"410006+00000020 42....+00000002", BookKind::OneFace),
        (b"410006+00000010 42....+000000S2", BookKind::OneFace),
        (
            b"110006+0000000A 21.102+20003000 22.102+29999998",
            BookKind::TwoC,
        ),
        (
            b"110006+0000000A 21.102+20000006 22.102+29990000",
            BookKind::TwoI,
        ),
    ];
    for (refused, kind) in rows {
        let book = book_of(&rt, rt.alloc(), 5);
        expect_left(&rt, book, refused, (6, kind), &FILE[5..]);
    }
    let empty = book_of(&rt, rt.alloc(), 2);
    let end = b"410003+00000030";
    expect_left(&rt, empty, end, (3, BookKind::EmptySet), &FILE[2..]);
    let set = b"410001+00000020 42....+00000001";
    let fault = (1, BookKind::SetOutside);
    expect_left(&rt, new_book(&rt, rt.alloc()), set, fault, &FILE);
}

#[test]
fn directions_and_differences_at_their_limits(rt: HostRuntime) {
    let rows: [(&[u8], &[u8], u32, i32, i32, i32); 7] = [
        (
            b"110003+0000000A 21.102+00000000 22.102+10000000",
            b"110004+0000000A 21.102+20002000 22.102+30000000",
            2000,
            2000,
            0,
            10_000_000,
        ),
        (
            b"110003+0000000A 21.102+00000000 22.102+10000000",
            b"110004+0000000A 21.102+19998000 22.102+30000000",
            79_998_000,
            -2000,
            0,
            10_000_000,
        ),
        (
            b"110003+0000000A 21.102+39999999 22.102+10000000",
            b"110004+0000000A 21.102+20000001 22.102+30000000",
            0,
            2,
            0,
            10_000_000,
        ),
        (
            b"110003+0000000A 21.102+00000000 22.102+19999999",
            b"110004+0000000A 21.102+20000000 22.102+20000001",
            0,
            0,
            0,
            19_999_999,
        ),
        (
            b"110003+0000000A 21.102+39999995 22.102+10000000",
            b"110004+0000000A 21.102+19999995 22.102+30002000",
            79_999_990,
            0,
            2000,
            10_000_000,
        ),
        (
            b"110003+0000000A 21.102+00000000 22.102+10000000",
            b"110004+0000000A 21.102+20000000 22.102+29998000",
            0,
            0,
            -2000,
            10_000_000,
        ),
        (
            b"110003+0000000A 21.102+19999995 22.102+30000000",
            b"110004+0000000A 21.102+39999995 22.102+10000000",
            79_999_990,
            0,
            0,
            10_000_000,
        ),
    ];
    for (first, second, value, two_c, two_i, zenith) in rows.iter() {
        let mut book = book_of(&rt, rt.alloc(), 2);
        assert_eq!(rt; take(&rt, &mut book, first), Ok(()));
        assert_eq!(rt; take(&rt, &mut book, second), Ok(()));
        let stations = book.finish().expect(&rt, "stations");
        let surveyed = stations.at(0).expect(&rt, "S1");
        let obs = surveyed
            .station()
            .obs()
            .get(0)
            .expect(&rt, "an observation");
        assert_eq!(rt; obs.value, *value);
        let faces = surveyed.faces().get(0).expect(&rt, "differences");
        assert_eq!(rt;
            (faces.two_c, faces.two_i, faces.zenith),
            (*two_c, *two_i, *zenith)
        );
    }
    assert!(rt; Limits::new(1_000_001, 0).is_none());
    assert!(rt; Limits::new(0, 1_000_001).is_none());
    assert!(rt; Limits::new(1_000_000, 1_000_000).is_some());
}

/// A line of 47 bytes in which these four digits stand at a place.
fn numbered(line: &[u8], at: usize, number: usize) -> [u8; 47] {
    let digits = [number / 1000, number / 100, number / 10, number];
    let mut bytes = [b' '; 47];
    for (i, byte) in bytes.iter_mut().enumerate() {
        if let Some(b) = line.get(i) {
            *byte = *b;
        }
        if i >= at {
            if let Some(digit) = digits.get(i - at) {
                *byte = b'0' + (*digit % 10) as u8;
            }
        }
    }
    bytes
}

/// Whether a book that ends here has a station S1 of so many targets and sets, with all their
/// observations.
fn expect_full(rt: &impl Abort, book: Book, targets: usize, sets: usize) {
    let stations = book.finish().expect(rt, "stations");
    let station = stations.get(b"S1").expect(rt, "S1").station();
    assert_eq!(rt; station.targets().len(), targets);
    assert_eq!(rt; station.sets().len(), sets);
    for (place, number) in station.sets().iter().enumerate() {
        assert_eq!(rt; *number as usize, place.wrapping_add(1));
    }
    assert_eq!(rt; station.obs().len(), targets.max(sets));
    for (place, obs) in station.obs().iter().enumerate() {
        assert_eq!(rt; (obs.set as usize).max(obs.target as usize), place);
    }
}

#[test]
fn there_are_100_targets_40_sets_and_1000_stations(rt: HostRuntime) {
    let station = b"410001+00000010 42....+000S0000";
    let set = b"410002+00000020 42....+00000000";
    let face_1 = b"110003+000T0000 21.102+00000000 22.102+10000000";
    let face_2 = b"110004+000T0000 21.102+20000000 22.102+30000000";
    let mut targets = book_of(&rt, rt.alloc(), 2);
    for target in 0..100 {
        assert_eq!(rt;
            take(&rt, &mut targets, &numbered(face_1, 11, target)),
            Ok(())
        );
    }
    let target = take(&rt, &mut targets, &numbered(face_1, 11, 100));
    assert_eq!(rt; target, Err(BookFault::At(103, BookKind::TooManyTargets)));
    for target in 0..100 {
        assert_eq!(rt;
            take(&rt, &mut targets, &numbered(face_2, 11, target)),
            Ok(())
        );
    }
    expect_full(&rt, targets, 100, 1);
    let mut sets = book_of(&rt, rt.alloc(), 1);
    for number in 1..41 {
        assert_eq!(rt; take(&rt, &mut sets, &numbered(set, 27, number)), Ok(()));
        assert_eq!(rt; take(&rt, &mut sets, face_1), Ok(()));
        assert_eq!(rt; take(&rt, &mut sets, face_2), Ok(()));
    }
    let one_more = take(&rt, &mut sets, &numbered(set, 27, 41));
    assert_eq!(rt; one_more, Err(BookFault::At(122, BookKind::TooManySets)));
    expect_full(&rt, sets, 1, 40);
    let mut stations = new_book(&rt, rt.alloc());
    for number in 0..1000 {
        assert_eq!(rt;
            take(&rt, &mut stations, &numbered(station, 27, number)),
            Ok(())
        );
        assert_eq!(rt; take(&rt, &mut stations, &numbered(set, 27, 1)), Ok(()));
        assert_eq!(rt; take(&rt, &mut stations, face_1), Ok(()));
        assert_eq!(rt; take(&rt, &mut stations, face_2), Ok(()));
    }
    assert_eq!(rt;
        take(&rt, &mut stations, &numbered(station, 27, 1000)),
        Ok(())
    );
    let last = take(&rt, &mut stations, &numbered(set, 27, 1));
    assert_eq!(rt; last, Err(BookFault::At(4002, BookKind::TooManyStations)));
    let listed = stations.finish().expect(&rt, "stations");
    assert_eq!(rt; listed.len(), 1000);
}

/// `rt test` runs it. `rt try --test` watches over memory itself, and small blocks are not refused
/// there.
#[test]
fn a_block_is_taken_once_there_is_memory(rt: HostRuntime) {
    let mut book = new_book(&rt, rt.alloc());
    let held = hoard(rt.alloc());
    for name in 0..99 {
        let station = numbered(b"410001+00000010 42....+000S0000", 27, name);
        assert_eq!(rt; take(&rt, &mut book, &station), Ok(()));
    }
    assert_eq!(rt; take(&rt, &mut book, FILE[0]), Ok(()));
    assert_eq!(rt; book.taken(), 100);
    let set = take(&rt, &mut book, FILE[1]);
    drop(held);
    assert_eq!(rt; set, Err(BookFault::Memory));
    assert_eq!(rt; book.taken(), 100);
    for line in FILE.iter().skip(1) {
        let held = hoard(rt.alloc());
        let answer = take(&rt, &mut book, line);
        drop(held);
        if answer == Err(BookFault::Memory) {
            assert_eq!(rt; take(&rt, &mut book, line), Ok(()));
        } else {
            assert_eq!(rt; answer, Ok(()));
        }
    }
    assert_eq!(rt; book.taken(), 111);
    expect_list(&rt, book);
}

/// Takes a line while memory comes back piece by piece, so that each growth that it needs is
/// refused before the next one is: how often it was refused.
fn take_piece_by_piece(rt: &impl Abort, alloc: Global, book: &mut Book, line: &[u8]) -> usize {
    let mut held = hoard(alloc);
    for refusals in 0..BLOCKS {
        let taken = book.taken();
        match take(rt, book, line) {
            Ok(()) => return refusals,
            Err(fault) => assert_eq!(rt; fault, BookFault::Memory),
        }
        assert_eq!(rt; book.taken(), taken);
        drop(held.pop());
    }
    BLOCKS
}

/// As above, `rt test` runs it.
#[test]
fn each_growth_of_a_block_may_be_refused(rt: HostRuntime) {
    let mut book = new_book(&rt, rt.alloc());
    for (place, line) in FILE.iter().enumerate() {
        let refusals = take_piece_by_piece(&rt, rt.alloc(), &mut book, line);
        assert!(rt; refusals < BLOCKS);
        let grows = [1, 6].contains(&place);
        assert_eq!(rt; refusals > 0, grows);
    }
    expect_list(&rt, book);
    let mut two = new_book(&rt, rt.alloc());
    for line in TWO.iter() {
        assert!(rt; take_piece_by_piece(&rt, rt.alloc(), &mut two, line) < BLOCKS);
    }
    let stations = two.finish().expect(&rt, "stations");
    assert_eq!(rt; stations.len(), 2);
}

#[test]
fn a_fault_is_told_in_words(rt: HostRuntime) -> Result<(), Fail> {
    let rows = [
        (BookKind::EmptySet, "a set that ends here has no reading"),
        (
            BookKind::OneFace,
            "a target of the set that ends here was read in one face alone",
        ),
        (
            BookKind::WordTwice(42),
            "the block has more than one word 42",
        ),
        (
            BookKind::WordTwice(22),
            "the block has more than one word 22",
        ),
        (BookKind::StationName, "a code 10 has no word 42"),
        (BookKind::SetOutside, "a code 20 stands before any code 10"),
        (
            BookKind::SetNumber,
            "a code 20 has no number from 1 to 9999 in word 42",
        ),
        (
            BookKind::StationTwice,
            "the station had sets under an earlier code 10",
        ),
        (BookKind::SetTwice, "the station has a set of this number"),
        (BookKind::TooManyStations, "1000 stations have sets"),
        (BookKind::TooManySets, "the station has 40 sets"),
        (
            BookKind::NoZenith,
            "a reading has no zenith angle, word 22, and so no face",
        ),
        (
            BookKind::Hz(AngleFault::Digits),
            "word 21: the angle is not digits alone",
        ),
        (
            BookKind::Hz(AngleFault::Sign),
            "word 21: the angle is negative",
        ),
        (
            BookKind::Zenith(AngleFault::Digits),
            "word 22: the angle is not digits alone",
        ),
        (
            BookKind::FaceUnclear,
            "the zenith angle is 0 or half a circle, which are of neither face",
        ),
        (
            BookKind::FaceTwice,
            "the set has a reading of this target and face",
        ),
        (BookKind::TooManyTargets, "the station has 100 targets"),
        (BookKind::TwoC, "2c is above its limit"),
        (BookKind::TwoI, "2i is above its limit"),
    ];
    for (place, (kind, text)) in rows.iter().enumerate() {
        assert_eq!(rt; format!(in rt.alloc(); "{kind}")?.as_str(), *text);
        for (other_place, (other, _)) in rows.iter().enumerate() {
            assert_eq!(rt; kind == other, place == other_place);
            let same = BookFault::At(7, *kind) == BookFault::At(7, *other);
            assert_eq!(rt; same, place == other_place);
        }
        assert!(rt; BookFault::At(7, *kind) != BookFault::At(8, *kind));
        assert!(rt; BookFault::At(7, *kind) != BookFault::Memory);
        let fault = format!(in rt.alloc(); "{}", BookFault::At(1_048_577, *kind))?;
        assert_eq!(rt; fault.as_str().strip_prefix("block 1048577: "), Some(*text));
    }
    let memory = format!(in rt.alloc(); "{}", BookFault::Memory)?;
    assert_eq!(rt; memory.as_str(), "out of memory");
    Ok(())
}
