//! The worked station S1 with its sheet and tables of its directions, given in pieces: the lines of
//! digests, and refusals, which have none. The digests are those that `sha256sum` prints. What
//! reports have above them is that of plain runs, which `tests_station_report` tests.

use adjust_kernel::{LARGEST_RESIDUAL_LIMIT, ResidualLimit};
use byte_ends::{Held, Script};
use direction_table::{AngleUnit, TableForm};
use station_answers::run_answer;
use station_book::{Limits, ResultLimits};
use station_record::{
    HeadedReader, NamedReader, run_check_recorded, run_compare_recorded, run_report_recorded,
    run_table_report_recorded,
};
use station_report::Head;
use std::alloc::Global;
use std::process::Abort;
use std::test::Fail;
use table_answers::run_table_answer;
use table_report::Asked;
use test_support::S1;

/// Bytes that a sink has room for where no test wants less.
const AMPLE: usize = 4_000;

/// How many bytes the readers give at a time.
const STEPS: [usize; 5] = [1, 7, 64, 4_096, usize::MAX];

/// Its adjusted sheet, whose largest residual is one half unit.
const SHEET: &[u8] = b"sheet,1,S1,4,\n\
target,,A,0,\n\
target,,B,40000024,\n\
set,1,,-20,\n\
set,2,,-80000020,\n\
obs,1,A,6,0\n\
obs,1,B,10000010,0\n\
obs,2,A,20000004,0\n\
obs,2,B,30000012,0\n";

/// A table that agrees with it.
const TABLE: &[u8] = b"A,0\nB,50.00003\n";

/// What is printed of the check.
const ACCEPTED: &[u8] = b"accepted S1: 2 sets, 2 targets, 4 directions, greatest residual 4/4\n\
2f4ee076b5c212dab3274b4ac86ac3e8ed63b631b5c22f66f8f7e428f77bd167  job.gsi\n\
aa3a8284e08fbd449811233917dcb0758ce46bee9eac082e94f1f864251ebb9d  S1.csv\n";

/// What is printed of the comparison.
const AGREES: &[u8] = b"agrees S1: 2 sets, 2 targets, within 0.000 mgon, limit 0.000 mgon, \
greatest residual 0.005 mgon\n\
2f4ee076b5c212dab3274b4ac86ac3e8ed63b631b5c22f66f8f7e428f77bd167  job.gsi\n\
f5da1d3d1ff629ae485cd880ec2cf3c8bf17d9e17aa2aff7b23099abe37dc41e  S1.csv\n";

/// How a table in this unit is read, no columns of which are stated.
fn in_unit(unit: AngleUnit) -> TableForm {
    TableForm {
        unit,
        columns: None,
    }
}

/// A report of S1, and what is printed of it.
#[derive(Clone, Copy)]
struct Report {
    /// Its table with the unit of that, where it has one, and within how many units it is to agree.
    table: Option<(&'static [u8], AngleUnit, u32)>,
    /// What stands after the text.
    digests: &'static [u8],
    /// The line of a refusal.
    refused: &'static [u8],
}

/// A report without a table, with one that agrees, with one in degrees, and with one that is apart.
const REPORTS: [Report; 4] = [
    Report {
        table: None,
        digests: b"\nSHA-256 digests of what was read, as sha256sum prints them\n\n\
2f4ee076b5c212dab3274b4ac86ac3e8ed63b631b5c22f66f8f7e428f77bd167  job.gsi\n",
        refused: b"",
    },
    Report {
        table: Some((TABLE, AngleUnit::Gon, 0)),
        digests: b"\nSHA-256 digests of what was read, as sha256sum prints them\n\n\
2f4ee076b5c212dab3274b4ac86ac3e8ed63b631b5c22f66f8f7e428f77bd167  job.gsi\n\
f5da1d3d1ff629ae485cd880ec2cf3c8bf17d9e17aa2aff7b23099abe37dc41e  S1.csv\n",
        refused: b"",
    },
    Report {
        table: Some((b"A,0-00-00\nB,45-00-00.0972\n", AngleUnit::Degrees, 0)),
        digests: b"\nSHA-256 digests of what was read, as sha256sum prints them\n\n\
2f4ee076b5c212dab3274b4ac86ac3e8ed63b631b5c22f66f8f7e428f77bd167  job.gsi\n\
5be4d15c0fd92ed0448f1822c8d329d63e572851d6d3c3a5f7fdfd9746e6f992  S1.csv\n",
        refused: b"",
    },
    Report {
        table: Some((b"A,0\nB,50.00005\n", AngleUnit::Gon, 9)),
        digests: b"\nSHA-256 digests of what was read, as sha256sum prints them\n\n\
2f4ee076b5c212dab3274b4ac86ac3e8ed63b631b5c22f66f8f7e428f77bd167  job.gsi\n\
209dd27d75818856866121c8deaff72691406d7deb455bcc46b1123e36847798  S1.csv\n",
        refused: b"refused: compare: Apart 0.010 mgon, limit 0.009 mgon\n",
    },
];

/// A file as it is handed down: its bytes, how many are given at a time, whether a read fails after
/// the last, and its name.
#[derive(Clone, Copy)]
struct File<'a> {
    bytes: &'a [u8],
    step: usize,
    fails: bool,
    name: &'a [u8],
}

impl<'a> File<'a> {
    fn new(bytes: &'a [u8], step: usize, name: &'a [u8]) -> File<'a> {
        File {
            bytes,
            step,
            fails: false,
            name,
        }
    }

    /// It breaks off where it would end.
    fn that_fails(self) -> File<'a> {
        File {
            fails: true,
            ..self
        }
    }

    fn bytes(self) -> Script<'a> {
        Script::new(self.bytes, self.step.max(1), self.fails)
    }

    /// The head of its report, which was told to note nothing.
    fn head(self) -> Head<'a, 'static> {
        Head {
            path: self.name,
            notes: None,
        }
    }

    fn reader(self) -> NamedReader<'a, Script<'a>> {
        NamedReader {
            name: self.name,
            reader: self.bytes(),
        }
    }
}

/// What a run answers: its status, and what it printed on its two outputs, the first of which takes
/// so many bytes.
#[derive(Drop)]
struct Printed {
    status: u8,
    out: Held,
    err: Held,
}

fn held(alloc: Global, room: usize) -> Result<Held, Fail> {
    Ok(Held::new(alloc, room, usize::MAX, false).map_err(|_| "no memory")?)
}

fn limits(rt: &impl Abort) -> Limits {
    Limits::new(100, 100).expect(rt, "limits")
}

/// The same, with this limit of residuals in half units.
fn held_to(rt: &impl Abort, half_units: u32) -> ResultLimits {
    ResultLimits {
        faces: limits(rt),
        residual: ResidualLimit::new(half_units).expect(rt, "a limit"),
    }
}

/// A check of a sheet, with a residual limit in half units where one is stated.
fn checked(
    rt: &impl Abort,
    alloc: Global,
    gsi: File<'_>,
    sheet: File<'_>,
    limit: Option<ResidualLimit>,
    room: usize,
) -> Result<Printed, Fail> {
    let (mut out, mut err) = (held(alloc, room)?, held(alloc, AMPLE)?);
    let (gsi, sheet) = (gsi.reader(), sheet.reader());
    let status = run_check_recorded(alloc, gsi, sheet, limits(rt), limit, &mut out, &mut err);
    Ok(Printed { status, out, err })
}

/// A comparison of a table, within so many units, with this limit of residuals in half units.
fn compared(
    rt: &impl Abort,
    alloc: Global,
    gsi: File<'_>,
    table: File<'_>,
    half_units: u32,
    within: u32,
    room: usize,
) -> Result<Printed, Fail> {
    let (mut out, mut err) = (held(alloc, room)?, held(alloc, AMPLE)?);
    let (gsi, table, within) = (gsi.reader(), table.reader(), Some(within));
    let limits = held_to(rt, half_units);
    let status = run_compare_recorded(
        alloc,
        gsi,
        table,
        in_unit(AngleUnit::Gon),
        b"S1",
        limits,
        within,
        &mut out,
        &mut err,
    );
    Ok(Printed { status, out, err })
}

impl Report {
    /// What is asked of it, if it has a table.
    fn asked<'a>(self, gsi: File<'a>, table: File<'a>) -> Option<Asked<'a, 'static>> {
        let (_, unit, within) = self.table?;
        Some(Asked {
            head: gsi.head(),
            table_path: table.name,
            form: in_unit(unit),
            within: Some(within),
        })
    }

    /// The report with the digests of its files, with this limit of residuals in half units.
    fn recorded(
        self,
        rt: &impl Abort,
        alloc: Global,
        gsi: File<'_>,
        table: File<'_>,
        station: &[u8],
        half_units: u32,
        room: usize,
    ) -> Result<Printed, Fail> {
        let (mut out, mut err) = (held(alloc, room)?, held(alloc, AMPLE)?);
        let limits = held_to(rt, half_units);
        let status = match self.asked(gsi, table) {
            None => {
                let gsi = HeadedReader {
                    head: gsi.head(),
                    reader: gsi.bytes(),
                };
                run_report_recorded(alloc, gsi, station, limits, &mut out, &mut err)
            }
            Some(asked) => run_table_report_recorded(
                alloc,
                gsi.bytes(),
                table.bytes(),
                station,
                limits,
                &asked,
                &mut out,
                &mut err,
            ),
        };
        Ok(Printed { status, out, err })
    }

    /// All that is printed of the report of S1: the text of a plain run, and these digests.
    fn text(
        self,
        rt: &impl Abort,
        alloc: Global,
        gsi: File<'_>,
        table: File<'_>,
        digests: &[u8],
    ) -> Result<Vec<u8>, Fail> {
        let (mut out, mut err) = (held(alloc, AMPLE)?, held(alloc, AMPLE)?);
        let limits = ResultLimits::of_faces(limits(rt));
        match self.asked(gsi, table) {
            None => {
                let (head, gsi) = (gsi.head(), gsi.bytes());
                let asked = station_answers::Report { head };
                run_answer(alloc, gsi, b"S1", limits, &asked, &mut out, &mut err)
            }
            Some(asked) => {
                let (gsi, mut table) = (gsi.bytes(), table.bytes());
                run_table_answer(
                    alloc, gsi, &mut table, b"S1", limits, &asked, &mut out, &mut err,
                )
            }
        };
        assert_eq!(rt; err.bytes(), self.refused);
        let mut text = Vec::new(alloc);
        text.extend_from_slice(out.bytes())?;
        text.extend_from_slice(digests)?;
        Ok(text)
    }

    /// Its files, given so many bytes at a time.
    fn files(self, step: usize) -> (File<'static>, File<'static>) {
        files(self.table.map_or(b"", |table| table.0), step)
    }
}

/// The field file and the other file, given so many bytes at a time.
fn files(other: &'static [u8], step: usize) -> (File<'static>, File<'static>) {
    (
        File::new(S1, step, b"job.gsi"),
        File::new(other, step, b"S1.csv"),
    )
}

/// The run printed this text and was not refused.
fn expect_text(rt: &impl Abort, printed: &Printed, text: &[u8]) {
    assert_eq!(rt; printed.err.bytes(), b"".as_slice());
    assert_eq!(rt; printed.out.bytes(), text);
    assert_eq!(rt; printed.status, 0);
}

/// The run was refused with this line, and printed nothing.
fn expect_refusal(rt: &impl Abort, printed: &Printed, line: &[u8]) {
    assert_eq!(rt; printed.err.bytes(), line);
    assert_eq!(rt; printed.out.bytes(), b"".as_slice());
    assert_eq!(rt; printed.status, 1);
}

#[test]
fn a_check_prints_the_digests_of_files_in_pieces(rt: HostRuntime) -> Result<(), Fail> {
    for step in STEPS {
        let (gsi, sheet) = files(SHEET, step);
        let printed = checked(&rt, rt.alloc(), gsi, sheet, None, AMPLE)?;
        expect_text(&rt, &printed, ACCEPTED);
    }
    Ok(())
}

#[test]
fn a_comparison_prints_the_digests_of_files_in_pieces(rt: HostRuntime) -> Result<(), Fail> {
    for step in STEPS {
        let (gsi, table) = files(TABLE, step);
        let limit = LARGEST_RESIDUAL_LIMIT;
        let printed = compared(&rt, rt.alloc(), gsi, table, limit, 0, AMPLE)?;
        expect_text(&rt, &printed, AGREES);
    }
    Ok(())
}

#[test]
fn a_name_is_escaped_as_sha256sum_does(rt: HostRuntime) -> Result<(), Fail> {
    let (gsi, _) = files(SHEET, 64);
    let sheet = File::new(SHEET, 64, b"a\\b\nc\rd");
    let text: &[u8] = b"accepted S1: 2 sets, 2 targets, 4 directions, greatest residual 4/4\n\
2f4ee076b5c212dab3274b4ac86ac3e8ed63b631b5c22f66f8f7e428f77bd167  job.gsi\n\
\\aa3a8284e08fbd449811233917dcb0758ce46bee9eac082e94f1f864251ebb9d  a\\\\b\\nc\\rd\n";
    let printed = checked(&rt, rt.alloc(), gsi, sheet, None, AMPLE)?;
    expect_text(&rt, &printed, text);
    let (gsi, table) = (File::new(S1, 64, b"\\"), File::new(TABLE, 64, b"\n"));
    let digests: &[u8] = b"\nSHA-256 digests of what was read, as sha256sum prints them\n\n\
\\2f4ee076b5c212dab3274b4ac86ac3e8ed63b631b5c22f66f8f7e428f77bd167  \\\\\n\
\\f5da1d3d1ff629ae485cd880ec2cf3c8bf17d9e17aa2aff7b23099abe37dc41e  \\n\n";
    let report = REPORTS[1];
    let text = report.text(&rt, rt.alloc(), gsi, table, digests)?;
    let limit = LARGEST_RESIDUAL_LIMIT;
    let printed = report.recorded(&rt, rt.alloc(), gsi, table, b"S1", limit, AMPLE)?;
    expect_text(&rt, &printed, text.as_slice());
    Ok(())
}

/// After a table that is apart too.
#[test]
fn a_report_prints_the_digests_of_files_in_pieces(rt: HostRuntime) -> Result<(), Fail> {
    for report in REPORTS {
        let (gsi, table) = report.files(usize::MAX);
        let text = report.text(&rt, rt.alloc(), gsi, table, report.digests)?;
        for step in STEPS {
            let (gsi, table) = report.files(step);
            let limit = LARGEST_RESIDUAL_LIMIT;
            let printed = report.recorded(&rt, rt.alloc(), gsi, table, b"S1", limit, AMPLE)?;
            assert_eq!(rt; printed.out.bytes(), text.as_slice());
            assert_eq!(rt; printed.err.bytes(), report.refused);
            assert_eq!(rt; printed.status, u8::from(!report.refused.is_empty()));
        }
    }
    Ok(())
}

#[test]
fn a_refused_check_prints_no_digest(rt: HostRuntime) -> Result<(), Fail> {
    for step in STEPS {
        let alloc = rt.alloc();
        let (gsi, sheet) = files(SHEET, step);
        let none = ResidualLimit::new(0);
        let (cut, _) = files(SHEET, step);
        let short = File::new(&SHEET[..40], step, b"S1.csv");
        let cases: [(File<'_>, File<'_>, Option<ResidualLimit>, &[u8]); 5] = [
            (gsi, sheet, none, b"refused: kernel: Residual 1\n"),
            (cut.that_fails(), sheet, None, b"refused: block 13: Read\n"),
            (gsi, sheet.that_fails(), None, b"refused: sheet: Read\n"),
            (gsi, short, None, b"refused: sheet row 3: Fields\n"),
            (sheet, gsi, None, b"refused: block 1: Word 1\n"),
        ];
        for (gsi, sheet, limit, line) in cases {
            let printed = checked(&rt, alloc, gsi, sheet, limit, AMPLE)?;
            expect_refusal(&rt, &printed, line);
        }
    }
    Ok(())
}

#[test]
fn a_refused_comparison_prints_no_digest(rt: HostRuntime) -> Result<(), Fail> {
    for step in STEPS {
        let alloc = rt.alloc();
        let (gsi, table) = files(TABLE, step);
        let (_, other) = files(b"A,0\nB,50.00005\n", step);
        // Each residual of S1 is one half unit in size.
        let cases: [(File<'_>, File<'_>, u32, &[u8]); 5] = [
            (
                gsi,
                other,
                1,
                b"refused: compare: Apart 0.010 mgon, limit 0.009 mgon\n",
            ),
            (
                gsi,
                table,
                0,
                b"refused: adjust: Residual 1\n\
set 1, A: the greatest residual, above the limit of 0.000 mgon\n",
            ),
            (gsi.that_fails(), table, 1, b"refused: block 13: Read\n"),
            (gsi, table.that_fails(), 1, b"refused: table: Read\n"),
            (gsi, gsi, 0, b"refused: table row 2: Number\n"),
        ];
        for (gsi, table, half_units, line) in cases {
            let printed = compared(&rt, alloc, gsi, table, half_units, 9, AMPLE)?;
            expect_refusal(&rt, &printed, line);
        }
    }
    Ok(())
}

#[test]
fn a_refused_report_prints_no_digest(rt: HostRuntime) -> Result<(), Fail> {
    for step in STEPS {
        let (gsi, table) = files(TABLE, step);
        let cut = gsi.that_fails();
        let (one, with_table) = (REPORTS[0], REPORTS[1]);
        let cases: [(Report, File<'_>, File<'_>, &[u8], &[u8]); 6] = [
            (
                one,
                gsi,
                table,
                b"S2",
                b"refused: no station\nthe file has S1\n",
            ),
            (one, cut, table, b"S1", b"refused: block 13: Read\n"),
            (
                with_table,
                gsi,
                table.that_fails(),
                b"S2",
                b"refused: no station\nthe file has S1\n",
            ),
            (with_table, cut, table, b"S1", b"refused: block 13: Read\n"),
            (
                with_table,
                gsi,
                table.that_fails(),
                b"S1",
                b"refused: table: Read\n",
            ),
            (
                with_table,
                gsi,
                gsi,
                b"S1",
                b"refused: table row 2: Number\n",
            ),
        ];
        for (report, gsi, table, station, line) in cases {
            let printed = report.recorded(&rt, rt.alloc(), gsi, table, station, 1, AMPLE)?;
            expect_refusal(&rt, &printed, line);
        }
        // Each residual of S1 is one half unit in size.
        for report in [one, with_table] {
            let printed = report.recorded(&rt, rt.alloc(), gsi, table, b"S1", 0, AMPLE)?;
            let text = b"refused: adjust: Residual 1\n\
set 1, A: the greatest residual, above the limit of 0.000 mgon\n";
            expect_refusal(&rt, &printed, text);
        }
    }
    Ok(())
}

#[test]
fn an_output_that_is_full_is_a_refusal(rt: HostRuntime) -> Result<(), Fail> {
    let alloc = rt.alloc();
    let line: &[u8] = b"refused: write failed\n";
    let limit = LARGEST_RESIDUAL_LIMIT;
    for room in 0..ACCEPTED.len() {
        let (gsi, sheet) = files(SHEET, usize::MAX);
        let printed = checked(&rt, alloc, gsi, sheet, None, room)?;
        assert_eq!(rt; printed.err.bytes(), line);
        assert_eq!(rt; printed.status, 1);
    }
    for room in 0..AGREES.len() {
        let (gsi, table) = files(TABLE, usize::MAX);
        let printed = compared(&rt, alloc, gsi, table, limit, 0, room)?;
        assert_eq!(rt; printed.err.bytes(), line);
        assert_eq!(rt; printed.status, 1);
    }
    for report in REPORTS {
        let (gsi, table) = report.files(usize::MAX);
        let text = report.text(&rt, alloc, gsi, table, report.digests)?;
        for room in text.len().saturating_sub(report.digests.len())..text.len() {
            let printed = report.recorded(&rt, alloc, gsi, table, b"S1", limit, room)?;
            assert_eq!(rt; printed.out.bytes(), &text[..room]);
            assert_eq!(rt; printed.err.bytes(), line);
            assert_eq!(rt; printed.status, 1);
        }
    }
    Ok(())
}
