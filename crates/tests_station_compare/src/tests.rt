//! The worked station S1 beside tables of its directions: through the whole, and with each fault.

mod ends;

use adjust_kernel::{Name, ResidualLimit};
use byte_ends::{Held, Script};
use direction_table::{AngleUnit, Decimals, RowKind, TableFault, TableForm};
use exact_adjustment::AdjustFault;
use row_forms::RowForm;
use station_answers::{Directions, answer_of};
use station_book::{Limits, ResultLimits};
use station_check::Fault;
use station_compare::{Agreement, CompareFault, HowFar, agreement_line, refusal_line};
use std::alloc::Global;
use std::process::Abort;
use std::test::Fail;
use table_answers::{compare_bytes, run_compare};
use test_support::{S1, TIE, TWO_PARTS};

fn limits(rt: &impl Abort) -> ResultLimits {
    ResultLimits::of_faces(Limits::new(100, 100).expect(rt, "limits"))
}

/// The same with this limit of residuals, in half units.
fn held_to(rt: &impl Abort, half_units: u32) -> ResultLimits {
    ResultLimits {
        faces: Limits::new(100, 100).expect(rt, "limits"),
        residual: ResidualLimit::new(half_units).expect(rt, "a limit"),
    }
}

/// That a table is so far apart, beside this limit.
fn near(apart: u32, limit: u32) -> Result<HowFar, CompareFault> {
    Ok(HowFar { apart, limit })
}

/// The same, where that is too far.
fn far(apart: u32, limit: u32) -> Result<HowFar, CompareFault> {
    Err(CompareFault::Apart(HowFar { apart, limit }))
}

/// How a table in this unit is read, no columns of which are stated.
fn in_unit(unit: AngleUnit) -> TableForm {
    TableForm {
        unit,
        columns: None,
    }
}

/// How far apart the directions of a table are, or why not told.
fn compared(
    rt: &impl Abort,
    alloc: Global,
    gsi: &[u8],
    name: &[u8],
    table: &[u8],
    within: Option<u32>,
) -> Result<HowFar, CompareFault> {
    compared_in(rt, alloc, AngleUnit::Gon, gsi, name, table, within)
}

/// The same of a table in a unit.
fn compared_in(
    rt: &impl Abort,
    alloc: Global,
    unit: AngleUnit,
    gsi: &[u8],
    name: &[u8],
    table: &[u8],
    within: Option<u32>,
) -> Result<HowFar, CompareFault> {
    let gsi = Script::new(gsi, usize::MAX, false);
    let mut table = Script::new(table, usize::MAX, false);
    let form = in_unit(unit);
    let answer = compare_bytes(alloc, gsi, &mut table, form, name, limits(rt), within);
    answer.map(|agreement| agreement.how_far)
}

#[test]
fn tables_lie_beside_the_least_directions(rt: HostRuntime) -> Result<(), Fail> {
    let cases: [(&[u8], u32, Result<HowFar, CompareFault>); 8] = [
        (b"A,0\nB,50.00003\n", 0, near(0, 0)),
        (b"B,50.000030\nA,0.000000\n", 0, near(0, 0)),
        (b"A,100.0001\nB,150.0001\n", 10, far(15, 10)),
        (b"A,100.0001\nB,150.0001\n", 14, far(15, 14)),
        (b"A,100.0001\nB,150.0001\n", 15, near(15, 15)),
        (b"A,100.0001\nB,150.0001\n", 16, near(15, 16)),
        (b"A,399.99999\nB,50.00002\n", 0, near(0, 0)),
        (b"A,-0.00001\nB,50.00003\n", 5, near(5, 5)),
    ];
    for (table, within, want) in cases {
        assert_eq!(rt;
            compared(&rt, rt.alloc(), S1, b"S1", table, Some(within)),
            want
        );
    }
    Ok(())
}

#[test]
fn where_nothing_is_stated_the_finest_row_tells_the_limit(rt: HostRuntime) -> Result<(), Fail> {
    let cases: [(&[u8], Result<HowFar, CompareFault>); 14] = [
        // Five decimals or more, and whole gon alone: 10.
        (b"A,0\nB,50.00001\n", near(10, 10)),
        (b"A,0\nB,50.000009\n", far(11, 10)),
        (b"A,0\nB,50\n", far(15, 10)),
        // Four decimals: 55, and as many as 0 has.
        (b"A,0.0000\nB,50.0001\n", near(35, 55)),
        (b"A,0.00\nB,50.0001\n", near(35, 55)),
        (b"A,0.0000000\nB,50.0001\n", far(35, 10)),
        (b"A,0.0\nB,49.9999\n", far(65, 55)),
        // Three, two and one: 505, 5,005 and 50,005.
        (b"A,0\nB,50.001\n", near(485, 505)),
        (b"A,0\nB,49.999\n", far(515, 505)),
        (b"A,0.1\nB,50.2\n", near(49_985, 50_005)),
        // Of two rows the finer, in either order.
        (b"A,0.1\nB,50.10006\n", far(15, 10)),
        (b"A,0.0001\nB,50.001\n", far(435, 55)),
        (b"A,0.001\nB,50.0002\n", far(415, 55)),
        (b"A,0.00\nB,50.01000\n", far(4_985, 10)),
    ];
    for (table, want) in cases {
        assert_eq!(rt; compared(&rt, rt.alloc(), S1, b"S1", table, None), want);
    }
    Ok(())
}

#[test]
fn tables_in_degrees_lie_beside_the_least_directions(rt: HostRuntime) -> Result<(), Fail> {
    // 50.00003 gon are 45 degrees and 0.0972 seconds; a second is 308.64.. units.
    let cases: [(&[u8], Result<HowFar, CompareFault>); 14] = [
        (b"A,0-00-00.0000\nB,45-00-00.0972\n", near(0, 10)),
        (b"B;45\xC2\xB000'00,0972\"\nA;360\n", near(0, 10)),
        (b"A,0\nB,45.000027\n", near(0, 10)),
        (b"A 100.1\nB 145.100027\n", near(0, 10)),
        // Seconds without decimals: 160, but 0-00-00 tells nothing.
        (b"A,0-00-00\nB,45-00-01\n", near(140, 160)),
        (b"A,0-00-00\nB,45-00-01.2\n", far(171, 21)),
        (b"A,0-00-00\nB,45-00-00.15\n", near(9, 10)),
        (b"A,0-00-00\nB,45-00-00.39\n", far(46, 10)),
        // With one decimal 21, with more 10.
        (b"A,0-00-00.0\nB,45-00-00.2\n", near(16, 21)),
        (b"A,0-00-00.0\nB,45-00-00.3\n", far(32, 21)),
        (b"A,0-00-00.00\nB,45-00-00.17\n", far(12, 10)),
        // Four decimals of a degree: 61; a whole degree tells nothing.
        (b"A,0\nB,45.0001\n", near(41, 61)),
        (b"A,0\nB,45\n", far(15, 10)),
        (
            b"A,0-00-00\nB,45-60-00\n",
            Err(CompareFault::Table(TableFault::Row(2, RowKind::Number))),
        ),
    ];
    for (table, want) in cases {
        let found = compared_in(&rt, rt.alloc(), AngleUnit::Degrees, S1, b"S1", table, None);
        assert_eq!(rt; found, want);
    }
    let table: &[u8] = b"A,0-00-00.0000\nB,45-00-00.0972\n";
    let fault = CompareFault::Table(TableFault::Row(1, RowKind::Number));
    assert_eq!(rt;
        compared(&rt, rt.alloc(), S1, b"S1", table, None),
        Err(fault)
    );
    Ok(())
}

#[test]
fn the_first_fault_is_answered(rt: HostRuntime) -> Result<(), Fail> {
    let cases: [(&[u8], &[u8], &[u8], CompareFault); 6] = [
        (S1, b"S2", b"", CompareFault::File(Fault::NoStation)),
        (
            S1,
            b"S1",
            b"A,0\nC,1\n",
            CompareFault::Table(TableFault::Row(2, RowKind::Unknown)),
        ),
        (
            S1,
            b"S1",
            b"A,0\nA,0\n",
            CompareFault::Table(TableFault::Row(2, RowKind::Twice)),
        ),
        (
            S1,
            b"S1",
            b"B,50\n",
            CompareFault::Table(TableFault::Missing(1)),
        ),
        (
            TWO_PARTS,
            b"S2",
            b"A,0\nB,0\n",
            CompareFault::Adjust(AdjustFault::NotConnected),
        ),
        (
            TIE,
            b"S3",
            b"A,0\nB,0\n",
            CompareFault::Adjust(AdjustFault::Residual(1)),
        ),
    ];
    for (gsi, name, table, want) in cases {
        assert_eq!(rt;
            compared(&rt, rt.alloc(), gsi, name, table, Some(0)),
            Err(want)
        );
    }
    Ok(())
}

#[test]
fn a_residual_at_the_limit_is_kept_and_a_half_unit_below_it_refused(
    rt: HostRuntime,
) -> Result<(), Fail> {
    // Each residual of S1 is 1 half unit in size: of two that are as great the first is named.
    let too_far: Result<HowFar, CompareFault> = Err(CompareFault::Adjust(AdjustFault::Residual(1)));
    let missing = Err(CompareFault::Table(TableFault::Missing(2)));
    let cases: [(&[u8], u32, Result<HowFar, CompareFault>); 5] = [
        (b"A,0\nB,50.00003\n", 1, near(0, 10)),
        (b"A,0\nB,50.00003\n", 0, too_far),
        // The table is read before, and compared after.
        (b"A,0\n", 0, missing),
        (b"A,0\nB,50\n", 0, too_far),
        (b"A,0\nB,50\n", 1, far(15, 10)),
    ];
    for (table, residual, want) in cases {
        let gsi = Script::new(S1, usize::MAX, false);
        let mut table = Script::new(table, usize::MAX, false);
        let limits = held_to(&rt, residual);
        let form = in_unit(AngleUnit::Gon);
        let answer = compare_bytes(rt.alloc(), gsi, &mut table, form, b"S1", limits, None);
        assert_eq!(rt; answer.map(|agreement| agreement.how_far), want);
    }
    let asked = Directions {
        decimals: Decimals::new(6).expect(&rt, "decimals"),
        form: RowForm::Commas,
    };
    let refused = Some(CompareFault::Adjust(AdjustFault::Residual(1)));
    for (residual, want) in [(1, None), (0, refused)] {
        let gsi = Script::new(S1, usize::MAX, false);
        let limits = held_to(&rt, residual);
        let (answer, _gsi) = answer_of(rt.alloc(), gsi, b"S1", limits, &asked);
        assert_eq!(rt; answer.err().map(|refusal| refusal.fault), want);
    }
    Ok(())
}

#[test]
fn an_agreement_has_the_greatest_residual(rt: HostRuntime) -> Result<(), Fail> {
    // 1 half unit, 0.005 mgon, is 5 units of 0.001 mgon.
    let gsi = Script::new(S1, usize::MAX, false);
    let mut table = Script::new(b"A,0\nB,50.00003\n", usize::MAX, false);
    let form = in_unit(AngleUnit::Gon);
    let answer = compare_bytes(rt.alloc(), gsi, &mut table, form, b"S1", limits(&rt), None);
    assert_eq!(rt; answer.map(|agreement| agreement.greatest), Ok(5));
    Ok(())
}

#[test]
fn lines_are_as_the_formats_have_them(rt: HostRuntime) -> Result<(), Fail> {
    let agreement = Agreement {
        name: Name::new(b"S1").expect(&rt, "a name"),
        sets: 2,
        targets: 2,
        how_far: HowFar {
            apart: 4,
            limit: 1_051,
        },
        greatest: 3_205,
    };
    let line: &[u8] =
        b"agrees S1: 2 sets, 2 targets, within 0.004 mgon, limit 1.051 mgon, greatest residual 3.205 mgon\n";
    assert_eq!(rt; agreement_line(agreement).as_slice(), line);
    let far = HowFar {
        apart: 100_000_000,
        limit: 10,
    };
    let cases: [(CompareFault, &[u8]); 8] = [
        (
            CompareFault::File(Fault::NoStation),
            b"refused: no station\n",
        ),
        (CompareFault::TableRead, b"refused: table: Read\n"),
        (
            CompareFault::Table(TableFault::TooLong),
            b"refused: table: TooLong\n",
        ),
        (
            CompareFault::Table(TableFault::Row(12, RowKind::Unknown)),
            b"refused: table row 12: Unknown\n",
        ),
        (
            CompareFault::Table(TableFault::Missing(3)),
            b"refused: table: Missing 3\n",
        ),
        (
            CompareFault::Adjust(AdjustFault::Residual(1)),
            b"refused: adjust: Residual 1\n",
        ),
        (
            CompareFault::Adjust(AdjustFault::NotFound),
            b"refused: adjust: NotFound\n",
        ),
        (
            CompareFault::Apart(far),
            b"refused: compare: Apart 100000.000 mgon, limit 0.010 mgon\n",
        ),
    ];
    for (fault, want) in cases {
        assert_eq!(rt; refusal_line(fault).as_slice(), want);
    }
    Ok(())
}

#[test]
fn a_run_prints_its_line_and_answers_its_status(rt: HostRuntime) -> Result<(), Fail> {
    let cases: [(&[u8], bool, u8, &[u8], &[u8]); 4] = [
        (
            b"A,0\nB,50.00003\n",
            false,
            0,
            b"agrees S1: 2 sets, 2 targets, within 0.000 mgon, limit 0.010 mgon, greatest residual 0.005 mgon\n",
            b"",
        ),
        (
            b"A,0\n",
            false,
            1,
            b"",
            b"refused: table: Missing 2\nthe table lacks B\n",
        ),
        (b"A,0\n", true, 1, b"", b"refused: table: Read\n"),
        (
            b"A,0.0000\nB,45.0000\n",
            false,
            1,
            b"",
            b"note: read as degrees, with --degrees, the table agrees within its usual limit\n\
            refused: compare: Apart 2500.015 mgon, limit 0.055 mgon\n",
        ),
    ];
    for (table, fails, status, printed, told) in cases {
        let gsi = Script::new(S1, usize::MAX, false);
        let mut table = Script::new(table, 1, fails);
        let mut out = Held::new(rt.alloc(), 100, 100, false).map_err(|_| "no memory")?;
        let mut err = Held::new(rt.alloc(), 200, 100, false).map_err(|_| "no memory")?;
        let limits = limits(&rt);
        let alloc = rt.alloc();
        let answer = run_compare(
            alloc,
            gsi,
            &mut table,
            in_unit(AngleUnit::Gon),
            b"S1",
            limits,
            None,
            &mut out,
            &mut err,
        );
        assert_eq!(rt; answer, status);
        assert_eq!(rt; out.bytes(), printed);
        assert_eq!(rt; err.bytes(), told);
    }
    Ok(())
}
