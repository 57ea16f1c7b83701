//! A field file of two stations, through the whole; its refusals; and ends that fail.

use adjust_kernel::Name;
use byte_ends::{Held, OfWrite, Script};
use gsi_file::{FileFault, FileKind};
use job_statements::{Beginnings, Stated, StatedNumber};
use set_marks::{
    Flaw, MarkFault, MarkKind, Recognized, Remarks, SetPair, SetPairs, ZenithRange, ZenithRanges,
};
use station_book::BookKind;
use station_mark::{PrintFault, notes_text, refusal_line, run_mark};
use std::alloc::Global;
use std::process::Abort;
use std::test::Fail;
use test_support::Resumes;

/// Bytes that a sink has room for where no test wants less.
const AMPLE: usize = 20_000;

/// How many bytes the writers that fail take at a time.
const STEP: usize = 100;

/// P1 has two sets of A and B and then two detail points; P2 has one reading.
const JOB: &[u8] = b"110001+000000P1 88..10+00001543\n\
110002+0000000A 21.102+12222215 22.102+10000000\n\
110003+0000000B 21.102+13333326 22.102+10000000\n\
110004+0000000B 21.102+33333333 22.102+30000003\n\
110005+0000000A 21.102+32222222 22.102+30000003\n\
110006+0000000A 21.102+12222216 22.102+10000000\n\
110007+0000000B 21.102+13333327 22.102+10000000\n\
110008+0000000B 21.102+33333334 22.102+30000003\n\
110009+0000000A 21.102+32222223 22.102+30000003\n\
110010+0000000D 21.102+15555548 22.102+10000000\n\
110011+0000000E 21.102+16666659 22.102+10000000\n\
110012+000000P2 88..10+00001543\n\
110013+0000000F 21.102+17777770 22.102+10000000\n";

/// Its copy: code 10 and 20 before the first set, 20 before the second, and 30 before the details.
const COPY: &[u8] = b"110001+000000P1 88..10+00001543\n\
41....+00000010 42....+000000P1\n\
41....+00000020 42....+00000001\n\
110002+0000000A 21.102+12222215 22.102+10000000\n\
110003+0000000B 21.102+13333326 22.102+10000000\n\
110004+0000000B 21.102+33333333 22.102+30000003\n\
110005+0000000A 21.102+32222222 22.102+30000003\n\
41....+00000020 42....+00000002\n\
110006+0000000A 21.102+12222216 22.102+10000000\n\
110007+0000000B 21.102+13333327 22.102+10000000\n\
110008+0000000B 21.102+33333334 22.102+30000003\n\
110009+0000000A 21.102+32222223 22.102+30000003\n\
41....+00000030\n\
110010+0000000D 21.102+15555548 22.102+10000000\n\
110011+0000000E 21.102+16666659 22.102+10000000\n\
110012+000000P2 88..10+00001543\n\
110013+0000000F 21.102+17777770 22.102+10000000\n";

/// What is told of it.
const NOTES: &[u8] =
    b"note: station P1: 2 sets, 2 targets, from A to B; 0 readings before them and 2 after stay \
outside\n\
note: station P2: no sets; 1 reading stays outside\n\
note: compare this with the field book\n";

/// These numbers of sets and of targets are stated, each of all stations.
fn numbers(alloc: Global, sets: Option<u32>, targets: Option<u32>) -> Stated {
    Stated {
        sets: StatedNumber::of_each(alloc, sets),
        targets: StatedNumber::of_each(alloc, targets),
        again: false,
        others: false,
    }
}

/// Nothing is stated.
fn nothing(alloc: Global) -> Stated {
    numbers(alloc, None, None)
}

/// That nothing is stated of how stations begin.
const BY_SET_UPS: Beginnings = Beginnings {
    station: None,
    same_set_up: false,
    code: None,
};

/// A run over these bytes, given in pieces, prints and tells this.
fn expect_run(
    rt: &impl Abort,
    alloc: Global,
    job: &[u8],
    fails: bool,
    station: Option<&[u8]>,
    want: (u8, &[u8], &[u8]),
) -> Result<(), Fail> {
    expect_run_as_stated(rt, alloc, job, fails, station, nothing(alloc), want)
}

/// The same, where this is stated of its sets.
fn expect_run_as_stated(
    rt: &impl Abort,
    alloc: Global,
    job: &[u8],
    fails: bool,
    station: Option<&[u8]>,
    stated: Stated,
    want: (u8, &[u8], &[u8]),
) -> Result<(), Fail> {
    let station = station.map(|name| Name::new(name).expect(rt, "name"));
    let gsi = Script::new(job, 7, fails);
    let mut out = Held::new(alloc, AMPLE, AMPLE, false).map_err(|_| "no memory")?;
    let mut err = Held::new(alloc, AMPLE, AMPLE, false).map_err(|_| "no memory")?;
    let beginnings = Beginnings {
        station,
        same_set_up: false,
        code: None,
    };
    let status = run_mark(alloc, gsi, beginnings, stated, &mut out, &mut err);
    assert_eq!(rt; err.bytes(), want.2);
    assert_eq!(rt; out.bytes(), want.1);
    assert_eq!(rt; status, want.0);
    Ok(())
}

#[test]
fn a_run_prints_the_copy_and_tells_the_notes(rt: HostRuntime) -> Result<(), Fail> {
    let alloc = rt.alloc();
    expect_run(&rt, alloc, JOB, false, None, (0, COPY, NOTES))
}

#[test]
fn a_refusal_prints_its_line_alone(rt: HostRuntime) -> Result<(), Fail> {
    let alloc = rt.alloc();
    let set_up: &[u8] = b"refused: block 1: mark: HasSetUp\n";
    expect_run(&rt, alloc, JOB, false, Some(b"P1"), (1, b"", set_up))?;
    let failed: &[u8] = b"refused: block 14: Read\n";
    expect_run(&rt, alloc, JOB, true, None, (1, b"", failed))?;
    let coded: &[u8] = b"refused: block 2: mark: HasCodes\n";
    expect_run(&rt, alloc, COPY, false, None, (1, b"", coded))?;
    let word: &[u8] = b"refused: block 1: Word 1\n";
    expect_run(&rt, alloc, b"5", false, None, (1, b"", word))?;
    let empty: &[u8] = b"refused: block 1: mark: Empty\n";
    expect_run(&rt, alloc, b"", false, None, (1, b"", empty))
}

/// A set of two targets at P1, and three readings at P2 that are none.
const TWO_STATIONS: &[u8] = b"110001+000000P1 88..10+00001543\n\
110002+0000000A 21.102+12222215 22.102+10000000\n\
110003+0000000B 21.102+13333326 22.102+10000000\n\
110004+0000000B 21.102+33333333 22.102+30000003\n\
110005+0000000A 21.102+32222222 22.102+30000003\n\
110006+000000P2 88..10+00001543\n\
110007+0000000A 21.102+12222215 22.102+10000000\n\
110008+0000000B 21.102+13333326 22.102+10000000\n\
110009+0000000B 21.102+33333333 22.102+30000003\n";

#[test]
fn each_station_is_told_before_the_line_of_a_refusal(rt: HostRuntime) -> Result<(), Fail> {
    let alloc = rt.alloc();
    let told: &[u8] =
        b"note: station P1: 1 set, 2 targets, from A to B; 0 readings before them and 0 after stay \
outside\n\
note: station P2: not recognized, block 9: FaceMissing; 3 readings stay outside: \
leave out a set that was broken off, or the target in it, or rename the target\n\
refused: block 9: mark: FaceMissing\n";
    expect_run(&rt, alloc, TWO_STATIONS, false, None, (1, b"", told))
}

#[test]
fn a_station_with_a_fault_stays_outside_where_it_is_stated(rt: HostRuntime) -> Result<(), Fail> {
    let alloc = rt.alloc();
    let others = Stated {
        others: true,
        ..nothing(alloc)
    };
    let copy: &[u8] = b"110001+000000P1 88..10+00001543\n\
41....+00000010 42....+000000P1\n\
41....+00000020 42....+00000001\n\
110002+0000000A 21.102+12222215 22.102+10000000\n\
110003+0000000B 21.102+13333326 22.102+10000000\n\
110004+0000000B 21.102+33333333 22.102+30000003\n\
110005+0000000A 21.102+32222222 22.102+30000003\n\
110006+000000P2 88..10+00001543\n\
41....+00000030\n\
110007+0000000A 21.102+12222215 22.102+10000000\n\
110008+0000000B 21.102+13333326 22.102+10000000\n\
110009+0000000B 21.102+33333333 22.102+30000003\n";
    let notes: &[u8] =
        b"note: station P1: 1 set, 2 targets, from A to B; 0 readings before them and 0 after stay \
outside\n\
note: station P2: not recognized, block 9: FaceMissing; 3 readings stay outside: \
leave out a set that was broken off, or the target in it, or rename the target\n\
note: compare this with the field book\n";
    expect_run_as_stated(
        &rt,
        alloc,
        TWO_STATIONS,
        false,
        None,
        others,
        (0, copy, notes),
    )
}

#[test]
fn the_numbers_that_are_stated_are_those_of_the_sets(rt: HostRuntime) -> Result<(), Fail> {
    let alloc = rt.alloc();
    let right = numbers(alloc, Some(2), Some(2));
    expect_run_as_stated(&rt, alloc, JOB, false, None, right, (0, COPY, NOTES))?;
    let other = numbers(alloc, Some(3), None);
    let refused: &[u8] =
        b"note: station P1: not recognized, block 2: SetCount; 10 readings stay outside: \
leave out a set that was broken off or read again, or state another number\n\
note: station P2: no sets; 1 reading stays outside\n\
refused: block 2: mark: SetCount\n";
    expect_run_as_stated(&rt, alloc, JOB, false, None, other, (1, b"", refused))
}

/// A station of this name with one set of two targets and no other reading.
fn with_sets(rt: &impl Abort, alloc: Global, name: &[u8]) -> Recognized {
    let target = Name::new(b"SIXTEEN OF BYTES").expect(rt, "name");
    Recognized {
        name: Name::new(name).expect(rt, "name"),
        fault: None,
        sets: 1,
        targets: 2,
        by_targets: false,
        before: 0,
        after: 0,
        remarks: Some(Remarks {
            opening: target,
            turning: target,
            directions: 2,
            missing: 0,
            others: 0,
            opened_again: false,
            equal_sets: SetPairs::new(alloc),
            zeniths: ZenithRanges::new(alloc),
        }),
        written_again: 0,
    }
}

/// A station of this name without sets, and with so many readings.
fn without_sets(rt: &impl Abort, alloc: Global, name: &[u8], readings: usize) -> Recognized {
    Recognized {
        sets: 0,
        targets: 0,
        before: readings,
        remarks: None,
        ..with_sets(rt, alloc, name)
    }
}

/// A station of this name with a fault, and with so many readings.
fn with_a_fault(
    rt: &impl Abort,
    alloc: Global,
    name: &[u8],
    flaw: Flaw,
    readings: usize,
) -> Recognized {
    Recognized {
        fault: Some(flaw),
        ..without_sets(rt, alloc, name, readings)
    }
}

/// What is told of these stations, but for the last line.
fn expect_told(
    rt: &impl Abort,
    alloc: Global,
    stations: &[Recognized],
    want: &[u8],
) -> Result<(), Fail> {
    let text = notes_text(alloc, stations).map_err(|_| "no memory")?;
    let last: &[u8] = b"note: compare this with the field book\n";
    let told = text.as_slice();
    assert_eq!(rt; told.get(..want.len()), Some(want));
    assert_eq!(rt; told.get(want.len()..), Some(last));
    Ok(())
}

#[test]
fn one_is_told_in_the_singular(rt: HostRuntime) -> Result<(), Fail> {
    let alloc = rt.alloc();
    let most = usize::MAX;
    let cases: [(usize, usize, usize, usize, &[u8]); 3] = [
        (
            1,
            1,
            1,
            1,
            b"note: station P1: 1 set, 1 target, from SIXTEEN OF BYTES to SIXTEEN OF BYTES; \
1 reading before them and 1 after stay outside\n",
        ),
        (
            4,
            6,
            3,
            0,
            b"note: station P1: 4 sets, 6 targets, from SIXTEEN OF BYTES to SIXTEEN OF BYTES; \
3 readings before them and 0 after stay outside\n",
        ),
        (
            most,
            most,
            most,
            most,
            b"note: station P1: 18446744073709551615 sets, 18446744073709551615 targets, from \
SIXTEEN OF BYTES to SIXTEEN OF BYTES; 18446744073709551615 readings before them and \
18446744073709551615 after stay outside\n",
        ),
    ];
    for (sets, targets, before, after, want) in cases {
        let station = Recognized {
            sets,
            targets,
            before,
            after,
            ..with_sets(&rt, alloc, b"P1")
        };
        expect_told(&rt, alloc, &[station], want)?;
    }
    let one: &[u8] = b"note: station P1: no sets; 1 reading stays outside\n";
    expect_told(&rt, alloc, &[without_sets(&rt, alloc, b"P1", 1)], one)?;
    let many: &[u8] = b"note: station P1: no sets; 37 readings stay outside\n";
    expect_told(&rt, alloc, &[without_sets(&rt, alloc, b"P1", 37)], many)
}

#[test]
fn what_is_missing_or_of_another_station_is_told(rt: HostRuntime) -> Result<(), Fail> {
    let alloc = rt.alloc();
    let numbers: &[u8] = b"note: station P1: 1 set, 2 targets, from SIXTEEN OF BYTES to SIXTEEN OF \
BYTES; 0 readings before them and 0 after stay outside\n";
    let cases: [(usize, usize, usize, bool, &[u8]); 6] = [
        (
            28,
            4,
            0,
            false,
            b"note: station P1: 4 of 28 directions are missing\n",
        ),
        (
            28,
            1,
            0,
            false,
            b"note: station P1: 1 of 28 directions is missing\n",
        ),
        (
            28,
            0,
            2,
            false,
            b"note: station P1: 2 targets after the sets in both faces: of another station?\n",
        ),
        (
            28,
            3,
            1,
            false,
            b"note: station P1: 3 of 28 directions are missing\n\
note: station P1: 1 target after the sets in both faces: of another station?\n",
        ),
        (
            28,
            0,
            0,
            true,
            b"note: station P1: SIXTEEN OF BYTES is read again after the sets: is a reading of \
theirs missing?\n",
        ),
        (
            28,
            0,
            1,
            true,
            b"note: station P1: 1 target after the sets in both faces: of another station?\n\
note: station P1: SIXTEEN OF BYTES is read again after the sets: is a reading of theirs missing?\n",
        ),
    ];
    for (directions, missing, others, opened_again, want) in cases {
        let mut station = with_sets(&rt, alloc, b"P1");
        let remarks = station.remarks.expect(&rt, "remarks");
        station.remarks = Some(Remarks {
            directions,
            missing,
            others,
            opened_again,
            ..remarks
        });
        let mut all = Vec::new(alloc);
        all.extend_from_slice(numbers).map_err(|_| "no memory")?;
        all.extend_from_slice(want).map_err(|_| "no memory")?;
        expect_told(&rt, alloc, &[station], &all)?;
    }
    Ok(())
}

/// A station of one set, of which these pairs of sets are equal, and whose zenith angles of the
/// target MAST, in units of 0.00001 gon, are these at least and at most.
fn doubtful(
    rt: &impl Abort,
    alloc: Global,
    pairs: &[(usize, usize)],
    zeniths: &[(u32, u32)],
) -> Result<Recognized, Fail> {
    let mut station = with_sets(rt, alloc, b"P1");
    let mut remarks = station.remarks.expect(rt, "remarks");
    for (earlier, later) in pairs {
        let pair = SetPair {
            earlier: *earlier,
            later: *later,
        };
        remarks.equal_sets.add(pair).map_err(|_| "no memory")?;
    }
    for (least, greatest) in zeniths {
        let range = ZenithRange {
            least: *least,
            greatest: *greatest,
            target: Name::new(b"MAST").expect(rt, "name"),
        };
        remarks.zeniths.add(range).map_err(|_| "no memory")?;
    }
    station.remarks = Some(remarks);
    Ok(station)
}

/// Pairs of sets, the least and the greatest zenith angles of targets, and what is told of them.
type Doubts<'a> = (&'a [(usize, usize)], &'a [(u32, u32)], &'a [u8]);

#[test]
fn equal_sets_and_zenith_angles_that_differ_are_told(rt: HostRuntime) -> Result<(), Fail> {
    let alloc = rt.alloc();
    let numbers: &[u8] = b"note: station P1: 1 set, 2 targets, from SIXTEEN OF BYTES to SIXTEEN OF \
BYTES; 0 readings before them and 0 after stay outside\n";
    let cases: [Doubts; 5] = [
        (
            &[(1, 3)],
            &[],
            b"note: station P1: sets 1 and 3 are the same to the last digit\n",
        ),
        (
            &[(1, 2), (usize::MAX, 40)],
            &[],
            b"note: station P1: sets 1 and 2 are the same to the last digit\n\
note: station P1: sets 18446744073709551615 and 40 are the same to the last digit\n",
        ),
        (
            &[],
            &[(9_991_600, 10_000_000)],
            b"note: station P1: the zenith angles of MAST differ by 84 mgon\n",
        ),
        (
            &[],
            &[(0, 2_049), (0, 2_050), (0, u32::MAX)],
            b"note: station P1: the zenith angles of MAST differ by 20 mgon\n\
note: station P1: the zenith angles of MAST differ by 21 mgon\n\
note: station P1: the zenith angles of MAST differ by 42949673 mgon\n",
        ),
        (
            &[(2, 4)],
            &[(5, 2_006)],
            b"note: station P1: sets 2 and 4 are the same to the last digit\n\
note: station P1: the zenith angles of MAST differ by 20 mgon\n",
        ),
    ];
    for (pairs, zeniths, want) in cases {
        let mut all = Vec::new(alloc);
        all.extend_from_slice(numbers).map_err(|_| "no memory")?;
        all.extend_from_slice(want).map_err(|_| "no memory")?;
        let station = doubtful(&rt, alloc, pairs, zeniths)?;
        expect_told(&rt, alloc, &[station], &all)?;
    }
    Ok(())
}

#[test]
fn a_name_that_comes_again_is_told_where_readings_follow(rt: HostRuntime) -> Result<(), Fail> {
    let alloc = rt.alloc();
    let stations = [
        without_sets(&rt, alloc, b"P1", 0),
        without_sets(&rt, alloc, b"P1", 2),
        without_sets(&rt, alloc, b"P2", 0),
        without_sets(&rt, alloc, b"P1", 0),
        without_sets(&rt, alloc, b"P1", 3),
        without_sets(&rt, alloc, b"P2", 0),
    ];
    let want: &[u8] = b"note: station P1: no sets; 2 readings stay outside\n\
note: station P2: no readings\n\
note: station P1: set up again\n\
note: station P1: no sets; 3 readings stay outside\n\
note: station P2: no readings\n";
    expect_told(&rt, alloc, &stations, want)
}

#[test]
fn a_set_up_line_that_was_written_again_is_told(rt: HostRuntime) -> Result<(), Fail> {
    let alloc = rt.alloc();
    let flaw = Flaw {
        block: 14,
        kind: MarkKind::ReadTwice,
    };
    let stations = [
        Recognized {
            written_again: 1,
            ..with_sets(&rt, alloc, b"P1")
        },
        Recognized {
            written_again: 2,
            ..without_sets(&rt, alloc, b"P2", 3)
        },
        without_sets(&rt, alloc, b"P3", 0),
        Recognized {
            written_again: 3,
            ..with_a_fault(&rt, alloc, b"P2", flaw, 4)
        },
        Recognized {
            written_again: usize::MAX,
            ..without_sets(&rt, alloc, b"P4", 0)
        },
    ];
    let want: &[u8] = b"note: station P1: 1 set, 2 targets, from SIXTEEN OF BYTES to SIXTEEN OF \
BYTES; 0 readings before them and 0 after stay outside\n\
note: station P1: set-up line written again 1 time, taken as the same set-up\n\
note: station P2: no sets; 3 readings stay outside\n\
note: station P2: set-up line written again 2 times, taken as the same set-up\n\
note: station P3: no readings\n\
note: station P2: set up again\n\
note: station P2: not recognized, block 14: ReadTwice; 4 readings stay outside: \
leave out the reading that does not count\n\
note: station P2: set-up line written again 3 times, taken as the same set-up\n\
note: station P4: no readings\n\
note: station P4: set-up line written again 18446744073709551615 times, taken as the same \
set-up\n";
    expect_told(&rt, alloc, &stations, want)
}

#[test]
fn a_station_with_a_fault_is_told_with_it(rt: HostRuntime) -> Result<(), Fail> {
    let alloc = rt.alloc();
    let cases: [(u32, MarkKind, usize, &[u8]); 2] = [
        (
            14,
            MarkKind::ReadTwice,
            1,
            b"note: station P1: not recognized, block 14: ReadTwice; 1 reading stays outside: \
leave out the reading that does not count\n",
        ),
        (
            u32::MAX,
            MarkKind::TooManyStations,
            usize::MAX,
            b"note: station P1: not recognized, block 4294967295: TooManyStations; \
18446744073709551615 readings stay outside: \
mark copies that have a part each\n",
        ),
    ];
    for (block, kind, readings, want) in cases {
        expect_told(
            &rt,
            alloc,
            &[with_a_fault(&rt, alloc, b"P1", Flaw { block, kind }, readings)],
            want,
        )?;
    }
    let flaw = Flaw {
        block: 5,
        kind: MarkKind::StationTwice,
    };
    let stations = [
        without_sets(&rt, alloc, b"P1", 2),
        with_a_fault(&rt, alloc, b"P1", flaw, 3),
        without_sets(&rt, alloc, b"P1", 4),
    ];
    let want: &[u8] = b"note: station P1: no sets; 2 readings stay outside\n\
note: station P1: set up again\n\
note: station P1: not recognized, block 5: StationTwice; 3 readings stay outside: \
state that it is the same set-up (--same-set-up) or another (--again)\n\
note: station P1: set up again\n\
note: station P1: no sets; 4 readings stay outside\n";
    expect_told(&rt, alloc, &stations, want)
}

#[test]
fn the_line_of_a_refusal_says_where(rt: HostRuntime) -> Result<(), Fail> {
    let cases: [(PrintFault, &[u8]); 6] = [
        (
            PrintFault::Mark(MarkFault::File(FileFault::At(7, FileKind::Byte(12)))),
            b"refused: block 7: Byte 12\n",
        ),
        (
            PrintFault::Mark(MarkFault::Reading(8, BookKind::WordTwice(21))),
            b"refused: block 8: WordTwice 21\n",
        ),
        (
            PrintFault::Mark(MarkFault::Reading(9, BookKind::NoZenith)),
            b"refused: block 9: NoZenith\n",
        ),
        (
            PrintFault::Mark(MarkFault::At(4_294_967_295, MarkKind::TooManyStations)),
            b"refused: block 4294967295: mark: TooManyStations\n",
        ),
        (
            PrintFault::Mark(MarkFault::Memory),
            b"refused: out of memory\n",
        ),
        (PrintFault::Write, b"refused: write failed\n"),
    ];
    for (fault, want) in cases {
        assert_eq!(rt; refusal_line(fault).as_slice(), want);
    }
    Ok(())
}

#[test]
fn an_output_that_failed_once_is_not_written_on(rt: HostRuntime) -> Result<(), Fail> {
    let alloc = rt.alloc();
    // The last call is the flush.
    for calls in 0..=COPY.len().div_ceil(STEP) {
        let mut writer = Resumes::new(calls, STEP);
        let mut out = OfWrite::new(&mut writer);
        let mut err = Held::new(alloc, AMPLE, AMPLE, false).map_err(|_| "no memory")?;
        let gsi = Script::new(JOB, AMPLE, false);
        let status = run_mark(alloc, gsi, BY_SET_UPS, nothing(alloc), &mut out, &mut err);
        drop(out);
        assert_eq!(rt; status, 1);
        assert_eq!(rt; err.bytes(), b"refused: write failed\n".as_slice());
        let bytes = COPY.len().min(calls.saturating_mul(STEP));
        assert_eq!(rt; (writer.bytes, writer.asked_on), (bytes, 0));
    }
    Ok(())
}

#[test]
fn notes_that_are_lost_leave_the_status(rt: HostRuntime) -> Result<(), Fail> {
    let alloc = rt.alloc();
    for calls in 0..NOTES.len().div_ceil(STEP) {
        let mut writer = Resumes::new(calls, STEP);
        let mut err = OfWrite::new(&mut writer);
        let mut out = Held::new(alloc, AMPLE, AMPLE, false).map_err(|_| "no memory")?;
        let gsi = Script::new(JOB, AMPLE, false);
        let status = run_mark(alloc, gsi, BY_SET_UPS, nothing(alloc), &mut out, &mut err);
        drop(err);
        assert_eq!(rt; (status, out.bytes()), (0, COPY));
        let bytes = calls.saturating_mul(STEP);
        assert_eq!(rt; (writer.bytes, writer.asked_on), (bytes, 0));
    }
    Ok(())
}
