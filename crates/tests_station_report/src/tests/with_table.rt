//! Reports of stations worked by hand, with tables beside their directions.

use super::worked::{
    AMPLE, HEAD, STEPS, Worked, given, joined, limits, limits_with, refused, room_for, s1, s4,
    with_line,
};
use byte_ends::{OfRead, OfWrite};
use direction_table::{AngleUnit, TableForm};
use station_compare::{CompareFault, HowFar, Refusal};
use std::alloc::Global;
use std::test::Fail;
use table_answers::{run_table_answer, table_answer_of, verdict, write_table_answer};
use table_report::Asked;
use test_support::{Recovers, Resumes};

/// Whose directions a table states.
#[derive(Clone, Copy)]
enum Of {
    S1,
    S4,
}

/// A table beside a station, and what the report says of it.
#[derive(Clone, Copy)]
struct Beside {
    of: Of,
    table: &'static [u8],
    unit: AngleUnit,
    /// The limit that is stated, in units of 0.000001 gon.
    within: Option<u32>,
    /// The lines of its targets.
    lines: &'static [u8],
    /// The limit in force, in mgon.
    limit: &'static [u8],
    verdict: &'static [u8],
    /// How far it is apart, where that is beyond the limit, and the line of the refusal then.
    beyond: Option<HowFar>,
    refused: &'static [u8],
}

/// How a table in this unit is read, no columns of which are stated.
fn in_unit(unit: AngleUnit) -> TableForm {
    TableForm {
        unit,
        columns: None,
    }
}

/// A table whose row B is first, and that is turned by 100 gon.
const TURNED: Beside = Beside {
    of: Of::S1,
    table: b"B;150,0001\nA;100,0001\n",
    unit: AngleUnit::Gon,
    within: None,
    lines: b"  A                       100.000100         0.015              0.030\n\
\x20 B                       150.000100        -0.015              0.000\n",
    limit: b"0.055",
    verdict: b"agrees: 2 targets, within 0.015 mgon",
    beyond: None,
    refused: b"",
};

/// The same, further apart than is stated.
const APART: Beside = Beside {
    within: Some(14),
    limit: b"0.014",
    verdict: b"apart: 2 targets, by 0.015 mgon",
    beyond: Some(HowFar {
        apart: 15,
        limit: 14,
    }),
    refused: b"refused: compare: Apart 0.015 mgon, limit 0.014 mgon\n",
    ..TURNED
};

/// Tables by their limits and units.
fn tables() -> [Beside; 10] {
    [
        TURNED,
        Beside {
            within: Some(15),
            limit: b"0.015",
            verdict: b"agrees: 2 targets, within 0.015 mgon",
            ..TURNED
        },
        APART,
        // Half a unit on both sides: the middle of two goes up.
        Beside {
            table: b"A,0\nB,50.000031\n",
            within: Some(0),
            lines: b"  A                         0.000000         0.000              0.000\n\
\x20 B                        50.000031         0.001              0.001\n",
            limit: b"0.000",
            verdict: b"apart: 2 targets, by 0.001 mgon",
            beyond: Some(HowFar { apart: 1, limit: 0 }),
            refused: b"refused: compare: Apart 0.001 mgon, limit 0.000 mgon\n",
            ..TURNED
        },
        // Half a circle apart: of the two arcs the one that begins at the first target.
        Beside {
            table: b"A 0\nB 250.00003\n",
            within: Some(1_000_000),
            lines: b"  A                         0.000000   -100000.000              0.000\n\
\x20 B                       250.000030    100000.000         200000.000\n",
            limit: b"1000.000",
            verdict: b"apart: 2 targets, by 100000.000 mgon",
            beyond: Some(HowFar {
                apart: 100_000_000,
                limit: 1_000_000,
            }),
            refused: b"refused: compare: Apart 100000.000 mgon, limit 1000.000 mgon\n",
            ..TURNED
        },
        // 45 degrees and 0.0972 seconds are 50.00003 gon; the row of A tells no step.
        Beside {
            table: b"A,0-00-00\nB,45-00-00.0972\n",
            unit: AngleUnit::Degrees,
            lines: b"  A                         0.000000         0.000              0.000\n\
\x20 B                        50.000030         0.000              0.000\n",
            limit: b"0.010",
            verdict: b"agrees: 2 targets, within 0.000 mgon",
            ..TURNED
        },
        // 0.2 seconds are 0.00006172839.. gon.
        Beside {
            table: b"B;45\xc2\xb000'00,20\"\nA;360\xc2\xb000'00,00\"\n",
            unit: AngleUnit::Degrees,
            lines: b"  A                      0.000000000        -0.016              0.000\n\
\x20 B                     50.000061728         0.016              0.032\n",
            limit: b"0.010",
            verdict: b"apart: 2 targets, by 0.016 mgon",
            beyond: Some(HowFar {
                apart: 16,
                limit: 10,
            }),
            refused: b"refused: compare: Apart 0.016 mgon, limit 0.010 mgon\n",
            ..TURNED
        },
        // 4 decimals of a degree.
        Beside {
            table: b"A,90.0000\nB,135.0000\n",
            unit: AngleUnit::Degrees,
            lines: b"  A                       100.000000         0.015              0.030\n\
\x20 B                       150.000000        -0.015              0.000\n",
            limit: b"0.061",
            verdict: b"agrees: 2 targets, within 0.015 mgon",
            ..TURNED
        },
        // Differences of 0, -62/3 and -61/3 units: half of the spread is 31/3, and rounded up 11.
        Beside {
            of: Of::S4,
            table: b"A,0.000000\n\"B,\"\"1\",50.000026\nC,150.000029\n",
            lines: b"  A                         0.000000         0.010              0.020\n\
\x20 B,\"1                     50.000026        -0.010              0.000\n\
\x20 C                       150.000029        -0.010              0.000\n",
            limit: b"0.010",
            verdict: b"apart: 3 targets, by 0.011 mgon",
            beyond: Some(HowFar {
                apart: 11,
                limit: 10,
            }),
            refused: b"refused: compare: Apart 0.011 mgon, limit 0.010 mgon\n",
            ..TURNED
        },
        Beside {
            of: Of::S4,
            table: b"C\t150.000029\nB,\"1\t50.000026\nA\t0.000000\n",
            within: Some(11),
            lines: b"  A                         0.000000         0.010              0.020\n\
\x20 B,\"1                     50.000026        -0.010              0.000\n\
\x20 C                       150.000029        -0.010              0.000\n",
            limit: b"0.011",
            verdict: b"agrees: 3 targets, within 0.011 mgon",
            ..TURNED
        },
    ]
}

/// Tables that agree, each with a limit of residuals in half units and its line in the report, or the
/// line of the refusal. That of S4 has the adjusted directions as they are printed.
fn beside_held() -> [(Beside, u32, &'static [u8], &'static [u8]); 4] {
    let level = Beside {
        of: Of::S4,
        table: b"A,0.000000\n\"B,\"\"1\",50.000047\nC,150.000049\n",
        lines: b"  A                         0.000000         0.000              0.000\n\
\x20 B,\"1                     50.000047         0.000              0.000\n\
\x20 C                       150.000049         0.000              0.000\n",
        limit: b"0.010",
        verdict: b"agrees: 3 targets, within 0.001 mgon",
        ..TURNED
    };
    [
        (TURNED, 1, b"Limit of residuals    0.005 mgon\n", b""),
        (
            TURNED,
            0,
            b"",
            b"refused: adjust: Residual 1\n\
set 1, A: the greatest residual, above the limit of 0.000 mgon\n",
        ),
        (level, 6, b"Limit of residuals    0.030 mgon\n", b""),
        (
            level,
            5,
            b"",
            b"refused: adjust: Residual 2\n\
set 1, B,\"1: the greatest residual, above the limit of 0.025 mgon\n",
        ),
    ]
}

impl Beside {
    /// Its station.
    fn worked(self) -> Worked {
        match self.of {
            Of::S1 => s1(),
            Of::S4 => s4(),
        }
    }

    /// What is asked, of a table of this path.
    fn asked(self, table_path: &[u8]) -> Asked<'_, 'static> {
        Asked {
            head: HEAD,
            table_path,
            form: in_unit(self.unit),
            within: self.within,
        }
    }

    /// The whole report, where the path of the table stands in it so.
    fn report(self, alloc: Global, shown_path: &'static [u8]) -> Result<Vec<u8>, Fail> {
        let worked = self.worked();
        joined(
            alloc,
            &[
                worked.before,
                b"\nStated directions in gon, differences in mgon: stated less adjusted,\n\
after the best rotation\n\n\
\x20 Target                      Stated    Difference    From the median\n\n",
                self.lines,
                b"\nTable                 ",
                shown_path,
                b"\nLimit of differences  ",
                self.limit,
                b" mgon\nComparison            ",
                self.verdict,
                b"\n",
                worked.after,
            ],
        )
    }
}

#[test]
fn a_table_stands_beside_the_adjusted_directions(rt: HostRuntime) -> Result<(), Fail> {
    // The second path is shown as sha256sum prints it.
    let paths: [(&[u8], &'static [u8]); 2] = [
        (b"table.csv", b"table.csv"),
        (b"a\\b\nc", b"\\a\\\\b\\nc"),
    ];
    for beside in tables() {
        for (path, shown_path) in paths {
            let want = beside.report(rt.alloc(), shown_path)?;
            let asked = beside.asked(path);
            let gsi = given(beside.worked().gsi, usize::MAX, false);
            let mut table = given(beside.table, usize::MAX, false);
            let (name, limits) = (beside.worked().name, limits(&rt));
            let (answer, _gsi) = table_answer_of(rt.alloc(), gsi, &mut table, name, limits, &asked);
            match answer {
                Ok(noted) => {
                    let report = noted.answer;
                    assert_eq!(rt; report.text.as_slice(), want.as_slice());
                    assert_eq!(rt; report.beyond, beside.beyond);
                    let apart = beside.beyond.map(CompareFault::Apart);
                    assert_eq!(rt; verdict(report.beyond).err(), apart);
                }
                Err(Refusal { fault, .. }) => assert!(rt; false, "{fault:?}"),
            }
        }
    }
    Ok(())
}

/// Where the line of a refusal is cut short, the status stays.
#[test]
fn a_table_that_is_apart_is_printed_and_then_refused(rt: HostRuntime) -> Result<(), Fail> {
    for beside in tables() {
        let want = beside.report(rt.alloc(), b"table.csv")?;
        let asked = beside.asked(b"table.csv");
        for (step, room) in STEPS.into_iter().zip([AMPLE, 0, 5, AMPLE]) {
            let gsi = given(beside.worked().gsi, step, false);
            let mut table = given(beside.table, step, false);
            let mut out = room_for(rt.alloc(), AMPLE, false)?;
            let mut err = room_for(rt.alloc(), room, false)?;
            let status = run_table_answer(
                rt.alloc(),
                gsi,
                &mut table,
                beside.worked().name,
                limits(&rt),
                &asked,
                &mut out,
                &mut err,
            );
            let line = beside.refused;
            assert_eq!(rt; out.bytes(), want.as_slice());
            assert_eq!(rt; err.bytes(), &line[..line.len().min(room)]);
            assert_eq!(rt; status, u8::from(beside.beyond.is_some()));
        }
    }
    Ok(())
}

/// Where a residual is above the limit, a table that agrees has no report either.
#[test]
fn a_report_with_a_table_says_the_limit_that_its_residuals_keep(
    rt: HostRuntime,
) -> Result<(), Fail> {
    for (beside, half_units, line, refused) in beside_held() {
        let report = beside.report(rt.alloc(), b"table.csv")?;
        let report = with_line(rt.alloc(), &report, b"Limit of residuals", line)?;
        let asked = beside.asked(b"table.csv");
        let gsi = given(beside.worked().gsi, usize::MAX, false);
        let mut table = given(beside.table, usize::MAX, false);
        let mut out = room_for(rt.alloc(), AMPLE, false)?;
        let mut err = room_for(rt.alloc(), AMPLE, false)?;
        let status = run_table_answer(
            rt.alloc(),
            gsi,
            &mut table,
            beside.worked().name,
            limits_with(&rt, half_units),
            &asked,
            &mut out,
            &mut err,
        );
        let printed = if refused.is_empty() {
            report.as_slice()
        } else {
            b""
        };
        assert_eq!(rt; out.bytes(), printed);
        assert_eq!(rt; err.bytes(), refused);
        assert_eq!(rt; status, u8::from(!refused.is_empty()));
    }
    Ok(())
}

/// The first fault is answered, and nothing printed. A table is read after its station is found,
/// and before that is adjusted.
#[test]
fn a_table_without_a_report_has_the_first_fault(rt: HostRuntime) -> Result<(), Fail> {
    let of_station = [true, true, false, false];
    let mut cases = Vec::new(rt.alloc());
    for ((gsi, gsi_fails, name, line), fails) in refused().into_iter().zip(of_station) {
        let table: &[u8] = b"A,0\nB,0\n";
        cases.push((gsi, gsi_fails, name, table, AngleUnit::Gon, fails, line))?;
    }
    let of_table: [(&[u8], AngleUnit, bool, &[u8]); 8] = [
        (
            TURNED.table,
            AngleUnit::Gon,
            true,
            b"refused: table: Read\n",
        ),
        (
            b"A,0\nC,1\n",
            AngleUnit::Gon,
            false,
            b"refused: table row 2: Unknown\n",
        ),
        (
            b"A,0\nA,1\n",
            AngleUnit::Gon,
            false,
            b"refused: table row 2: Twice\n",
        ),
        (
            b"B,50\n",
            AngleUnit::Gon,
            false,
            b"refused: table: Missing 1\nthe table lacks A\n",
        ),
        (
            b"",
            AngleUnit::Degrees,
            false,
            b"refused: table: Missing 1\nthe table lacks A\n",
        ),
        (
            b"A,0-00-00\nB,45-00-00\n",
            AngleUnit::Gon,
            false,
            b"refused: table row 1: Number\n",
        ),
        (
            b"A,0\nB,45-60-00\n",
            AngleUnit::Degrees,
            false,
            b"refused: table row 2: Number\n",
        ),
        (
            b"A,0\nB,360.1\n",
            AngleUnit::Degrees,
            false,
            b"refused: table row 2: Range\n",
        ),
    ];
    for (table, unit, fails, line) in of_table {
        let gsi: &[u8] = s1().gsi;
        let name: &[u8] = s1().name;
        cases.push((gsi, false, name, table, unit, fails, line))?;
    }
    for (gsi, gsi_fails, name, table, unit, fails, line) in cases {
        let asked = Asked {
            form: in_unit(unit),
            ..TURNED.asked(b"table.csv")
        };
        let gsi = given(gsi, 7, gsi_fails);
        let mut table = given(table, 1, fails);
        let mut out = room_for(rt.alloc(), AMPLE, false)?;
        let mut err = room_for(rt.alloc(), AMPLE, false)?;
        let status = run_table_answer(
            rt.alloc(),
            gsi,
            &mut table,
            name,
            limits(&rt),
            &asked,
            &mut out,
            &mut err,
        );
        assert_eq!(rt; err.bytes(), line);
        assert_eq!(rt; out.bytes(), b"".as_slice());
        assert_eq!(rt; status, 1);
    }
    Ok(())
}

/// Also where the table is apart: what was not printed whole has no verdict.
#[test]
fn a_writer_without_room_for_a_table_or_whose_flush_fails_is_told(
    rt: HostRuntime,
) -> Result<(), Fail> {
    for beside in [TURNED, APART] {
        let report = beside.report(rt.alloc(), b"table.csv")?;
        let asked = beside.asked(b"table.csv");
        for room in 0..=report.len() {
            let gsi = given(beside.worked().gsi, usize::MAX, false);
            let mut table = given(beside.table, usize::MAX, false);
            let mut out = room_for(rt.alloc(), room, room == report.len())?;
            let (answer, _note) = write_table_answer(
                rt.alloc(),
                gsi,
                &mut table,
                beside.worked().name,
                limits(&rt),
                &asked,
                &mut out,
            );
            assert_eq!(rt;
                answer.map_err(|refusal| refusal.fault),
                Err(CompareFault::Write)
            );
            assert_eq!(rt; out.bytes(), &report[..room]);
        }
    }
    Ok(())
}

#[test]
fn ends_of_a_table_report_that_fail_once_are_not_asked_again(rt: HostRuntime) -> Result<(), Fail> {
    let asked = APART.asked(b"table.csv");
    let name = APART.worked().name;
    for (gsi_fails, table_fails) in [(false, false), (true, false), (false, true)] {
        let mut gsi = Recovers::new(s1().gsi, gsi_fails);
        let mut table = Recovers::new(APART.table, table_fails);
        let (answer, of_gsi) = table_answer_of(
            rt.alloc(),
            OfRead::new(&mut gsi),
            &mut OfRead::new(&mut table),
            name,
            limits(&rt),
            &asked,
        );
        drop(of_gsi);
        assert_eq!(rt; answer.is_err(), gsi_fails || table_fails);
        assert_eq!(rt; (gsi.asked_on, table.asked_on), (0, 0));
    }
    let report = APART.report(rt.alloc(), b"table.csv")?;
    let writes = report.len().div_ceil(200);
    for calls in 0..=writes {
        let gsi = given(s1().gsi, usize::MAX, false);
        let mut table = given(APART.table, usize::MAX, false);
        let mut writer = Resumes::new(calls, 200);
        let mut out = OfWrite::new(&mut writer);
        let (answer, _note) = write_table_answer(
            rt.alloc(),
            gsi,
            &mut table,
            name,
            limits(&rt),
            &asked,
            &mut out,
        );
        drop(out);
        assert_eq!(rt;
            answer.map_err(|refusal| refusal.fault),
            Err(CompareFault::Write)
        );
        assert_eq!(rt; writer.bytes, report.len().min(calls.saturating_mul(200)));
        assert_eq!(rt; writer.asked_on, 0);
    }
    Ok(())
}
