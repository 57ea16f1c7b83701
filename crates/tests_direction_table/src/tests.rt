//! What no clause says: that the definitions are those of the worked rows, that calls succeed, and
//! what the bytes are.

mod memory;
mod printed;

use adjust_kernel::{Name, Obs, PARTS, Station};
use direction_table::{
    AngleUnit, Decimals, LONGEST_TABLE, RowKind, TableFault, TableForm, TargetDirection,
    push_direction, read_stated_table, read_table, table_text,
};
use row_forms::RowForm;
use std::alloc::Global;
use std::process::Abort;
use std::test::Fail;

/// How a table in this unit is read, no columns of which are stated.
fn in_unit(unit: AngleUnit) -> TableForm {
    TableForm {
        unit,
        columns: None,
    }
}

/// A station of targets of these names.
fn station_of(rt: &impl Abort, alloc: Global, names: &[&[u8]]) -> Result<Station, Fail> {
    let mut targets = Vec::new(alloc);
    let mut sets = Vec::new(alloc);
    let mut obs = Vec::new(alloc);
    sets.push(1)?;
    let mut target = 0u32;
    for name in names {
        targets.push(Name::new(name).expect(rt, "a name"))?;
        obs.push(Obs {
            set: 0,
            target,
            value: 0,
        })?;
        target = target.saturating_add(1);
    }
    let name = Name::new(b"S1").expect(rt, "a name");
    Ok(Station::new(name, targets, sets, obs).expect(rt, "a station"))
}

/// The answer to these bytes in gon as text, for targets A and B, in units of the ninth decimal.
fn answer_of(rt: &impl Abort, alloc: Global, bytes: &[u8]) -> Result<String, Fail> {
    let station = station_of(rt, alloc, &[b"A", b"B"])?;
    gon_answer(rt, alloc, &station, bytes)
}

/// The same for the targets of a station.
fn gon_answer(
    rt: &impl Abort,
    alloc: Global,
    station: &Station,
    bytes: &[u8],
) -> Result<String, Fail> {
    match read_table(alloc, in_unit(AngleUnit::Gon), station.targets(), bytes) {
        Ok(directions) => {
            let mut units = Vec::new(alloc);
            for parts in directions.iter() {
                assert_eq!(rt; parts % PARTS as i64, 0);
                units.push(parts / PARTS as i64)?;
            }
            Ok(format!(in alloc; "{units:?}")?)
        }
        Err(fault) => Ok(format!(in alloc; "{fault:?}")?),
    }
}

/// Tables of A and B, and their answers.
const TABLES: [(&str, &str); 14] = [
    ("A,0\nB,50.00003\n", "[0, 50000030000]"),
    ("B,50.00003\nA,0\n", "[0, 50000030000]"),
    ("A,-0.00001\nB,399.99999\n", "[-10000, 399999990000]"),
    (
        "A,000.000000001\r\n\n\"B\",-399.999999999",
        "[1, -399999999999]",
    ),
    ("A,-0\nB,7\n", "[0, 7000000000]"),
    ("", "Missing(1)"),
    ("B,1\n", "Missing(1)"),
    ("A,1\n", "Missing(2)"),
    ("A,1\nB,2\nA,1\n", "Row(3, Twice)"),
    ("A,1\nC,2\n", "Row(2, Unknown)"),
    ("A,1\nA,2\nC,401\n", "Row(2, Twice)"),
    ("A,400\nB,-400.000\n", "[0, 0]"),
    ("A,-399.5\nB,+0.25\n", "[-399500000000, 250000000]"),
    ("A,1\nB,2\n,\n", "[1000000000, 2000000000]"),
];

#[test]
fn worked_tables_are_read(rt: HostRuntime) -> Result<(), Fail> {
    for (text, expected) in TABLES {
        let found = answer_of(&rt, rt.alloc(), text.as_bytes())?;
        assert_eq!(rt; found.as_str(), expected, "of {text}");
    }
    Ok(())
}

/// Tables of A and B in the ways in which programs and people write them, and their answers.
const WAYS: [(&str, &str); 52] = [
    // One row of titles, by any separator.
    ("Name,Direction\nA,0\nB,50.00003\n", "[0, 50000030000]"),
    (
        "Punkt;Richtung [gon]\nA;0,0\nB;50,00003\n",
        "[0, 50000030000]",
    ),
    ("Point\tHz\tRemark\nA\t0\nB\t50.00003\n", "[0, 50000030000]"),
    (
        "Directions of P7 in gon\nA 0\nB 50.00003\n",
        "[0, 50000030000]",
    ),
    ("\"Point; name\",\"Hz, gon\"\nA,0\nB,1\n", "[0, 1000000000]"),
    ("C,D\nE,F\nA,0\nB,1\n", "[0, 1000000000]"),
    ("C,D\nC,1\n", "Row(2, Unknown)"),
    ("C,D\nA,0\n", "Missing(2)"),
    ("A,D\nA,0\nB,1\n", "Row(1, Number)"),
    ("Target\nA,0\nB,1\n", "[0, 1000000000]"),
    // White space around fields.
    ("A, 0.0\nB, 50.00003\n", "[0, 50000030000]"),
    ("A ,0.0\n B,50.00003 \n", "[0, 50000030000]"),
    ("A,0\r\n\"B\t\",\"50.00003\n\"\r\n", "[0, 50000030000]"),
    // Blank fields at the end.
    ("A,0,\nB,50.00003,\n", "[0, 50000030000]"),
    ("A;0;;\nB;50.00003; ;\n", "[0, 50000030000]"),
    // Semicolons, tabs and blanks.
    ("A;0,00000\nB;50,00003\n", "[0, 50000030000]"),
    ("A;0.00000\nB;50.00003\n", "[0, 50000030000]"),
    ("A\t0\nB\t50.00003\n", "[0, 50000030000]"),
    ("A\t0\n\nB \t 50,00003\n", "[0, 50000030000]"),
    ("A 0\nB 50.00003\n", "[0, 50000030000]"),
    (
        "  A       0.00000\n  B      50.00003  \n",
        "[0, 50000030000]",
    ),
    ("\"A\"  \"0\"\nB  50,00003\n", "[0, 50000030000]"),
    ("A\t\t0\nB\t1\n", "Row(1, Fields)"),
    ("A 0 1\nB 1\n", "Row(1, Fields)"),
    // One separator is that of all rows.
    ("A,0\nB;50.00003\n", "Row(2, Fields)"),
    ("A;0\nB,50.00003\n", "Row(2, Fields)"),
    ("A 0\nB,50.00003\n", "Row(2, Fields)"),
    // A decimal comma is none that separates, where another does.
    ("A,\"0,00000\"\nB,\"50,00003\"\n", "[0, 50000030000]"),
    ("A;0,5\nB;50,125\n", "[500000000, 50125000000]"),
    ("A 0,5\nB 50,125\n", "[500000000, 50125000000]"),
    ("A,0,5\nB,50,125\n", "Columns(2, 3)"),
    ("A;1.000,5\nB;1\n", "Row(1, Number)"),
    // Signs, short numbers, many decimals, full circles.
    ("A,+0.0\nB,+50.00003\n", "[0, 50000030000]"),
    ("A,.0\nB,.5\n", "[0, 500000000]"),
    ("A,0.\nB,-50.\n", "[0, -50000000000]"),
    (
        "A,0.0000000000\nB,50.00003000000000000000\n",
        "[0, 50000030000]",
    ),
    ("A,400.0000\nB,-400.0\n", "[0, 0]"),
    ("A,-0.0001\nB,-399.999999999\n", "[-100000, -399999999999]"),
    ("A,+400.\nB,399.9999999990\n", "[0, 399999999999]"),
    // Decimals past the ninth are left out, either way from 0.
    ("A,0.0000000001\nB,50.00003000000001\n", "[0, 50000030000]"),
    (
        "A,-0.0000000019\nB,-50.0000300009999\n",
        "[-1, -50000030000]",
    ),
    (
        "A,399.9999999999999\nB,.99999999999\n",
        "[399999999999, 999999999]",
    ),
    // Exponents: they move the point.
    ("A,1e-05\nB,5.000003e+01\n", "[10000, 50000030000]"),
    ("A,1.5E-05\nB,1E+02\n", "[15000, 100000000000]"),
    ("A,-5.684341886080802e-14\nB,+1,5e-9\n", "Row(2, Fields)"),
    ("A;-5.684341886080802e-14\nB;+1,5e-9\n", "[0, 1]"),
    (
        "A 1.394045381361607099e+02\nB 0.000000000000000000e+00\n",
        "[139404538136, 0]",
    ),
    ("A,5e-10\nB,123.456e-300\n", "[0, 0]"),
    ("A,.5e-1\nB,5.e+00\n", "[50000000, 5000000000]"),
    ("Name,1e5\nA,12.5e-999\nB,3.99e+02\n", "[0, 399000000000]"),
    // No row is hidden.
    ("A,0\n A ,0\nB,1\n", "Row(2, Twice)"),
    ("A,0\nB,1\nB ,1\n", "Row(3, Twice)"),
];

#[test]
fn tables_are_read_as_programs_write_them(rt: HostRuntime) -> Result<(), Fail> {
    for (text, expected) in WAYS {
        let found = answer_of(&rt, rt.alloc(), text.as_bytes())?;
        assert_eq!(rt; found.as_str(), expected, "of {text}");
    }
    Ok(())
}

/// Tables of targets whose names have blanks or separators, and their answers.
const ODD_NAMES: [(&str, &str); 7] = [
    ("A ,1\nA,2\nB;C,3\n", "[2000000000, 1000000000, 3000000000]"),
    (
        " A,1\nA ,2\nB;C,3\n",
        "[1000000000, 2000000000, 3000000000]",
    ),
    ("B;C,3\nA,2\nA ,1\n", "[2000000000, 1000000000, 3000000000]"),
    (
        "\"B;C\";3\nA;2\nA ;1\n",
        "[2000000000, 1000000000, 3000000000]",
    ),
    ("A;2\nA ;1\nB;C;3\n", "Row(3, Fields)"),
    ("A  ,1\nA,2\nB;C,3\n", "Row(2, Twice)"),
    (
        "A ,1\nA\t,2\nB;C , 3\n",
        "[2000000000, 1000000000, 3000000000]",
    ),
];

#[test]
fn a_name_is_read_as_it_stands_where_a_target_has_it(rt: HostRuntime) -> Result<(), Fail> {
    let station = station_of(&rt, rt.alloc(), &[b"A", b"A ", b"B;C"])?;
    for (text, expected) in ODD_NAMES {
        let found = gon_answer(&rt, rt.alloc(), &station, text.as_bytes())?;
        assert_eq!(rt; found.as_str(), expected, "of {text}");
    }
    Ok(())
}

/// Tables of A and B in gon, and the limit that is usual for their finest row.
const GON_LIMITS: [(&str, u32); 25] = [
    ("A,0\nB,50\n", 10),
    ("A,0\nB,50.00003\n", 10),
    ("A,0.000000\nB,50.000030\n", 10),
    ("A,1.0000\nB,50.0001\n", 55),
    ("Name,Hz\nA,0.001\nB,50.0001\n", 55),
    ("A;0,00\nB;50,0000\n", 55),
    ("A 1.5\nB 50.00003\n", 10),
    ("A 1.5\nB 50.003\n", 505),
    ("A,7.\nB,50.0003\n", 55),
    ("A,200\nB,50.01\n", 5_005),
    ("A,200.0\nB,50.01\n", 5_005),
    ("A,200.0\nB,50\n", 50_005),
    ("A,0.0\nB,50\n", 50_005),
    ("A,0.0\nB,50.0001\n", 55),
    ("A,0.00000\nB,50.0001\n", 10),
    ("A,-0.0000\nB,+.000\n", 55),
    ("A,-0.000\nB,50\n", 505),
    ("A,400.0000\nB,50\n", 55),
    ("B,50.1\nA,0.00\n", 5_005),
    ("Name,1.0000 gon\nA,0\nB,50.001\n", 505),
    ("A,0.000000000000\nB,400.0000000000\n", 10),
    ("A,0.000\nB,50.0000300001234\n", 10),
    ("A,1e-03\nB,50\n", 505),
    ("A,0e+00\nB,5.01e+01\n", 50_005),
    ("A,0.0\nB,5.684341886080802e-14\n", 10),
];

/// Tables in degrees: half a second is 154.3.. units, half of 0.1 degrees 55555.5.. units.
const DEGREE_LIMITS: [(&str, u32); 17] = [
    ("A,0-00-00\nB,50.00003\n", 11),
    ("A,0-00-00\nB,50-00-00.39\n", 10),
    ("A,0-00-00\nB,50-00-00\n", 160),
    ("A,0-00-00.0000\nB,50-00-00\n", 10),
    ("A,0-00-00.\nB,50-00-00\n", 160),
    ("A,0-00-00.0\nB,50-00-00\n", 21),
    ("A,1-00-00.0\nB,50-00-00.00\n", 10),
    ("A,0-00-00\nB,-0\u{b0}00'00\"\n", 10),
    ("A,0\nB,50\n", 10),
    ("A,0.0\nB,50\n", 55_561),
    ("A,0.0\nB,50.5\n", 55_561),
    ("A,0.0\nB,50.5001\n", 61),
    ("A,1.0000\nB,50-00-00.0\n", 21),
    ("A,1.0000\nB,50-00-00\n", 61),
    ("A,0.00000\nB,50.0000000000\n", 10),
    ("A,0-00-00\nB,50-00-00.0000001\n", 10),
    ("A,1e-03\nB,50-00-00\n", 160),
];

/// Tables, and by how many parts their numbers may be off from what is read of them.
const OFF: [(AngleUnit, &str, u64); 12] = [
    (AngleUnit::Gon, "A,0\nB,50.00003\n", 0),
    (AngleUnit::Gon, "A,0.1234567890000\nB,50.123456789\n", 0),
    (AngleUnit::Gon, "A,0\nB,50.0000300001\n", 90),
    (AngleUnit::Gon, "A,0.00000000000000001\nB,50\n", 90),
    (AngleUnit::Gon, "A,1.5e-09\nB,50\n", 90),
    (AngleUnit::Gon, "A,15e-9\nB,50\n", 0),
    (AngleUnit::Gon, "A,1.12345678901e+02\nB,50\n", 0),
    (AngleUnit::Gon, "A,1.123456789012e+02\nB,50\n", 90),
    (AngleUnit::Degrees, "A,0-00-00.00000004\nB,50\n", 0),
    (AngleUnit::Degrees, "A,0-00-00.00000005\nB,50\n", 90),
    (AngleUnit::Degrees, "A,0.0000000001\nB,50\n", 90),
    (AngleUnit::Gon, "Name,0.12345678901x\nA,1\nB,50.0\n", 0),
];

#[test]
fn what_is_left_out_is_told(rt: HostRuntime) -> Result<(), Fail> {
    let station = station_of(&rt, rt.alloc(), &[b"A", b"B"])?;
    for (unit, text, off) in OFF {
        let table = read_stated_table(
            rt.alloc(),
            in_unit(unit),
            station.targets(),
            text.as_bytes(),
        );
        let table = table.expect(&rt, "a table");
        assert_eq!(rt; table.most_off, off, "of {text}");
    }
    Ok(())
}

#[test]
fn the_finest_row_tells_the_usual_limit(rt: HostRuntime) -> Result<(), Fail> {
    let station = station_of(&rt, rt.alloc(), &[b"A", b"B"])?;
    let units: [(AngleUnit, &[(&str, u32)]); 2] = [
        (AngleUnit::Gon, &GON_LIMITS),
        (AngleUnit::Degrees, &DEGREE_LIMITS),
    ];
    for (unit, cases) in units {
        for (text, within) in cases {
            let table = read_stated_table(
                rt.alloc(),
                in_unit(unit),
                station.targets(),
                text.as_bytes(),
            );
            let table = table.expect(&rt, "a table");
            assert_eq!(rt; table.usual_within, *within, "of {text}");
        }
    }
    Ok(())
}

/// Directions of A in degrees, and what they are read as, in parts: 90,000,000,000 in a degree,
/// 1,500,000,000 in a minute and 25,000,000 in a second.
const DEGREES: [(&str, &str); 33] = [
    ("59-04-09.18", "[5316229500000, 0]"),
    ("59\u{B0}04'09.18\"", "[5316229500000, 0]"),
    ("\"59-04-09,18\"", "[5316229500000, 0]"),
    ("-59-04-09.18", "[-5316229500000, 0]"),
    ("+059-04-09", "[5316225000000, 0]"),
    ("0-00-00.000001", "[25, 0]"),
    ("359-59-59.9999990000", "[32399999999975, 0]"),
    ("360-00-00", "[0, 0]"),
    ("-360", "[0, 0]"),
    ("360-00-00.000001", "Row(1, Range)"),
    ("360.000000001", "Row(1, Range)"),
    ("59.069216667", "[5316229500030, 0]"),
    ("0.000000001", "[90, 0]"),
    ("90", "[8100000000000, 0]"),
    ("400", "Row(1, Range)"),
    ("59-60-00", "Row(1, Number)"),
    ("59-00-60", "Row(1, Number)"),
    ("59-4-09", "Row(1, Number)"),
    ("59-04-9.5", "Row(1, Number)"),
    ("59-04-009", "Row(1, Number)"),
    ("59-04", "Row(1, Number)"),
    ("59-04-", "Row(1, Number)"),
    ("59-04-09-10", "Row(1, Number)"),
    ("59.5-04-09", "Row(1, Number)"),
    ("59-04-09.0000001", "[5316225000002, 0]"),
    ("59-04-1e-05", "Row(1, Number)"),
    ("1e-05", "[900000, 0]"),
    ("5.906921666666667E+01", "[5316229499940, 0]"),
    ("59\u{B0}", "Row(1, Number)"),
    ("59\u{B0}04'09.18", "Row(1, Number)"),
    ("59\u{B0}04-09.18", "Row(1, Number)"),
    ("59\u{B4}04'09.18\"", "Row(1, Number)"),
    ("0059-04-09", "Row(1, Number)"),
];

#[test]
fn degrees_are_read_as_parts_of_the_circle(rt: HostRuntime) -> Result<(), Fail> {
    let station = station_of(&rt, rt.alloc(), &[b"A", b"B"])?;
    for (direction, expected) in DEGREES {
        let text = format!(in rt.alloc(); "A,{direction}\nB,0\n")?;
        let unit = AngleUnit::Degrees;
        let found = match read_table(
            rt.alloc(),
            in_unit(unit),
            station.targets(),
            text.as_bytes(),
        ) {
            Ok(directions) => format!(in rt.alloc(); "{directions:?}")?,
            Err(fault) => format!(in rt.alloc(); "{fault:?}")?,
        };
        assert_eq!(rt; found.as_str(), expected, "of {direction}");
    }
    Ok(())
}

#[test]
fn a_decimal_comma_of_degrees_is_no_separator(rt: HostRuntime) -> Result<(), Fail> {
    let station = station_of(&rt, rt.alloc(), &[b"A", b"B"])?;
    let cases = [
        ("A;0,5\nB;59-04-09,5\n", "[45000000000, 5316237500000]"),
        ("A,0\nB,59-04-09,5\n", "Row(2, Fields)"),
    ];
    for (text, expected) in cases {
        let unit = AngleUnit::Degrees;
        let found = match read_table(
            rt.alloc(),
            in_unit(unit),
            station.targets(),
            text.as_bytes(),
        ) {
            Ok(directions) => format!(in rt.alloc(); "{directions:?}")?,
            Err(fault) => format!(in rt.alloc(); "{fault:?}")?,
        };
        assert_eq!(rt; found.as_str(), expected, "of {text}");
    }
    Ok(())
}

/// First rows, and the fault of each.
const ROWS: [(&str, &str); 36] = [
    ("A", "Row(1, Fields)"),
    ("A,1,2", "Row(1, Fields)"),
    ("A,,1", "Row(1, Fields)"),
    ("A,1,,2", "Row(1, Fields)"),
    (",1", "Row(1, Name)"),
    ("12345678901234567,1", "Row(1, Name)"),
    ("A,", "Row(1, Number)"),
    ("A,-", "Row(1, Number)"),
    ("A,.", "Row(1, Number)"),
    ("A,1e2", "Row(1, Number)"),
    ("A,+-5", "Row(1, Number)"),
    ("A,--5", "Row(1, Number)"),
    ("A,5 gon", "Row(1, Number)"),
    ("A,59-04-09.18", "Row(1, Number)"),
    ("A,59\u{B0}04'09.18\"", "Row(1, Number)"),
    ("A,0.0000000001x", "Row(1, Number)"),
    ("A,0.0000000000000001 gon", "Row(1, Number)"),
    ("A,0.123456789.0", "Row(1, Number)"),
    ("A,1e02", "Row(1, Number)"),
    ("A,1e", "Row(1, Number)"),
    ("A,1e-", "Row(1, Number)"),
    ("A,e-05", "Row(1, Number)"),
    ("A,1e-0005", "Row(1, Number)"),
    ("A,1e-1.5", "Row(1, Number)"),
    ("A,1e+03", "Row(1, Number)"),
    ("A,10e+02", "Row(1, Number)"),
    ("A,1e--5", "Row(1, Number)"),
    ("A,1e-5e-5", "Row(1, Number)"),
    ("A,4.00000001e+02", "Row(1, Range)"),
    ("A,0001", "Row(1, Number)"),
    ("A,5.0.0", "Row(1, Number)"),
    ("A,400.000000001", "Row(1, Range)"),
    ("A,401", "Row(1, Range)"),
    ("C,-400.1", "Row(1, Range)"),
    ("C,1", "Row(1, Unknown)"),
    ("a,1", "Row(1, Unknown)"),
];

#[test]
fn a_row_has_its_first_fault(rt: HostRuntime) -> Result<(), Fail> {
    for (text, expected) in ROWS {
        let found = answer_of(&rt, rt.alloc(), text.as_bytes())?;
        assert_eq!(rt; found.as_str(), expected, "of {text}");
    }
    Ok(())
}

const FAULTS: &str = "\
row 7: not two columns
row 7: the name is not 1 to 16 bytes from the blank to the tilde
row 7: the direction is no number
row 7: the direction is more than a full circle
row 7: the station has no target of this name
row 7: a row before has this name
longer than 1048576 bytes
columns 4 and 5 both fit
target 7 has no row
out of memory
";

#[test]
fn a_fault_is_told_in_words(rt: HostRuntime) -> Result<(), Fail> {
    let mut texts = String::new(rt.alloc());
    for fault in [
        TableFault::Row(7, RowKind::Fields),
        TableFault::Row(7, RowKind::Name),
        TableFault::Row(7, RowKind::Number),
        TableFault::Row(7, RowKind::Range),
        TableFault::Row(7, RowKind::Unknown),
        TableFault::Row(7, RowKind::Twice),
        TableFault::TooLong,
        TableFault::Columns(4, 5),
        TableFault::Missing(7),
        TableFault::Memory,
    ] {
        texts.push_str(format!(in rt.alloc(); "{fault}\n")?.as_str())?;
    }
    assert_eq!(rt; texts.as_str(), FAULTS);
    Ok(())
}

#[test]
fn a_table_of_too_many_bytes_is_refused(rt: HostRuntime) -> Result<(), Fail> {
    let mut text = vec![in rt.alloc(); b'\n'; LONGEST_TABLE]?;
    let found = answer_of(&rt, rt.alloc(), &text)?;
    assert_eq!(rt; found.as_str(), "Missing(1)");
    text.push(b'\n')?;
    let found = answer_of(&rt, rt.alloc(), &text)?;
    assert_eq!(rt; found.as_str(), "TooLong");
    Ok(())
}

/// Directions in units of the ninth decimal, with so many decimals, and their texts.
const WRITTEN: [(u64, u32, &str); 9] = [
    (0, 6, "0.000000"),
    (50_000_030_000, 6, "50.000030"),
    (50_000_030_000, 5, "50.00003"),
    (399_999_999_990, 8, "399.99999999"),
    (399_900_000_000, 1, "399.9"),
    (7_000_000_000, 1, "7.0"),
    (10, 8, "0.00000001"),
    (100_000_000_000, 2, "100.00"),
    (1_987_654_321, 3, "1.987"),
];

#[test]
fn worked_directions_are_written(rt: HostRuntime) -> Result<(), Fail> {
    let mut text = Vec::new(rt.alloc());
    for (direction, count, expected) in WRITTEN {
        let decimals = Decimals::new(count).expect(&rt, "a number of decimals");
        text.clear();
        push_direction(&mut text, direction, decimals)?;
        assert_eq!(rt; text.as_slice(), expected.as_bytes(), "of {direction}");
    }
    Ok(())
}

#[test]
fn decimals_are_1_to_8(rt: HostRuntime) -> Result<(), Fail> {
    assert!(rt; Decimals::new(0).is_none());
    assert!(rt; Decimals::new(9).is_none());
    let least = Decimals::new(1).expect(&rt, "1 decimal");
    assert_eq!(rt; least.step(), 100_000_000);
    let most = Decimals::new(8).expect(&rt, "8 decimals");
    assert_eq!(rt; most.step(), 10);
    assert_eq!(rt; most.count(), 8);
    Ok(())
}

#[test]
fn a_worked_table_is_written(rt: HostRuntime) -> Result<(), Fail> {
    let stated = [(b"A".as_slice(), 0), (b"B,1".as_slice(), 50_000_030_000)].map(|(
        name,
        direction,
    )| {
        let name = Name::new(name).expect(&rt, "a name");
        TargetDirection { name, direction }
    });
    let decimals = Decimals::new(6).expect(&rt, "a number of decimals");
    let cases: [(RowForm, &[u8]); 2] = [
        (RowForm::Commas, b"A,0.000000\n\"B,1\",50.000030\n"),
        (RowForm::Semicolons, b"A;0,000000\nB,1;50,000030\n"),
    ];
    for (form, want) in cases {
        let text = table_text(rt.alloc(), &stated, decimals, form)?;
        assert_eq!(rt; text.as_slice(), want);
    }
    Ok(())
}

/// Names of targets: such as go into quotes, a blank, and the longest.
const NAMES: [&[u8]; 5] = [b"A,1", b"B\"", b"\"C, D\"", b" ", b"0123456789abcdef"];

/// Targets of these names, with these directions.
fn stated_of(
    rt: &impl Abort,
    alloc: Global,
    names: &[&[u8]],
    directions: &[u64],
) -> Result<Vec<TargetDirection>, Fail> {
    let mut stated = Vec::new(alloc);
    for (name, direction) in names.iter().zip(directions) {
        stated.push(TargetDirection {
            name: Name::new(name).expect(rt, "a name"),
            direction: *direction,
        })?;
    }
    Ok(stated)
}

/// Whether these directions were read, in their order.
fn are_read(read: &[i64], stated: &[TargetDirection]) -> bool {
    read.len() == stated.len()
        && read.iter().zip(stated).all(|(read, row)| u64::try_from(*read)
            == Ok(row.direction.saturating_mul(PARTS)))
}

/// The largest direction of each number of decimals.
const LARGEST: [(u32, u64); 8] = [
    (1, 399_900_000_000),
    (2, 399_990_000_000),
    (3, 399_999_000_000),
    (4, 399_999_900_000),
    (5, 399_999_990_000),
    (6, 399_999_999_000),
    (7, 399_999_999_900),
    (8, 399_999_999_990),
];

#[test]
fn a_table_of_each_number_of_decimals_is_read_again(rt: HostRuntime) -> Result<(), Fail> {
    for (count, largest) in LARGEST {
        let decimals = Decimals::new(count).expect(&rt, "a number of decimals");
        let directions = [0, largest, 7_000_000_000, 50_100_000_000, decimals.step()];
        let stated = stated_of(&rt, rt.alloc(), &NAMES, &directions)?;
        let station = station_of(&rt, rt.alloc(), &NAMES)?;
        for form in [RowForm::Commas, RowForm::Semicolons] {
            let text = table_text(rt.alloc(), &stated, decimals, form)?;
            let read = read_table(
                rt.alloc(),
                in_unit(AngleUnit::Gon),
                station.targets(),
                &text,
            );
            let read = read.expect(&rt, "a table");
            assert!(rt; are_read(&read, &stated), "{form:?} with {count} decimals");
        }
    }
    Ok(())
}

/// The table of the five targets with 2 decimals.
const FIVE: &[u8] = b"\
\"A,1\",0.00
\"B\"\"\",399.99
\"\"\"C, D\"\"\",7.00
 ,50.10
0123456789abcdef,0.01
";

#[test]
fn names_that_ask_for_quotes_get_them(rt: HostRuntime) -> Result<(), Fail> {
    let decimals = Decimals::new(2).expect(&rt, "2 decimals");
    let directions = [
        0,
        399_990_000_000,
        7_000_000_000,
        50_100_000_000,
        10_000_000,
    ];
    let stated = stated_of(&rt, rt.alloc(), &NAMES, &directions)?;
    let text = table_text(rt.alloc(), &stated, decimals, RowForm::Commas)?;
    assert_eq!(rt; text.as_slice(), FIVE);
    Ok(())
}
