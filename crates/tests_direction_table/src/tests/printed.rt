//! Tables as programs and people were seen to write them, and what each gives.

use super::answer_of;
use std::test::Fail;

const READ: &str = "[0, 50000030000]";

/// One table of A and B, written in 21 ways.
const WAYS: [(&str, &str, &str); 21] = [
    ("plain", "A,0.00000\nB,50.00003\n", READ),
    ("in quotes", "\"A\",\"0.00000\"\n\"B\",\"50.00003\"\n", READ),
    ("lines end in CR LF", "A,0.00000\r\nB,50.00003\r\n", READ),
    ("a byte order mark", "\u{feff}A,0.00000\nB,50.00003\n", READ),
    ("titles", "Target,Direction\nA,0.00000\nB,50.00003\n", READ),
    ("a blank after the comma", "A, 0.00000\nB, 50.00003\n", READ),
    ("a blank before it", "A ,0.00000\nB ,50.00003\n", READ),
    ("a comma at the end", "A,0.00000,\nB,50.00003,\n", READ),
    ("semicolons", "A;0.00000\nB;50.00003\n", READ),
    ("tabs", "A\t0.00000\nB\t50.00003\n", READ),
    ("a decimal comma", "A;0,00000\nB;50,00003\n", READ),
    ("a plus", "A,+0.00000\nB,+50.00003\n", READ),
    ("no digit before the point", "A,.00000\nB,50.00003\n", READ),
    ("no digit after the point", "A,0.\nB,50.00003\n", READ),
    ("a unit", "A,0.00000 gon\nB,50.00003 gon\n", READ),
    ("ten decimals", "A,0.0000000000\nB,50.0000300000\n", READ),
    (
        "an exponent",
        "A,1e-5\nB,50.00004\n",
        "[10000, 50000040000]",
    ),
    ("a full circle", "A,400.00000\nB,50.00003\n", READ),
    (
        "a comment",
        "# directions of S1\nA,0.00000\nB,50.00003\n",
        READ,
    ),
    (
        "zeros before a name",
        "000A,0.00000\n000B,50.00003\n",
        "Row(1, Unknown)",
    ),
    (
        "small letters",
        "a,0.00000\nb,50.00003\n",
        "Row(1, Unknown)",
    ),
];

/// What programs print, by the command or the call that prints it.
const PROGRAMS: [(&str, &str, &str); 12] = [
    (
        "printf '%-8s%12.4f\\n', of 399.99999",
        "A           400.0000\nB            50.0000\n",
        "[0, 50000000000]",
    ),
    (
        "gawk with OFS of a tab",
        "Target\tHz\nA\t0\nB\t50.00003\n",
        READ,
    ),
    (
        "mawk's printf \"%s;%.6f;\\n\"",
        "A;-0.000000;\nB;50.000030;\n",
        READ,
    ),
    (
        "csv.writer of Python with semicolons and QUOTE_NONNUMERIC",
        "\"Target\";\"Direction [gon]\"\r\n\"A\";0.0\r\n\"B\";50.00003\r\n",
        READ,
    ),
    (
        "perl's printf \"%s, %+.7f\\n\"",
        "A, +0.0000000\nB, +50.0000300\n",
        READ,
    ),
    (
        "column -t",
        "Target  Hz\nA       0.00000\nB       50.00003\n",
        READ,
    ),
    (
        "print of Python, which writes small numbers with an exponent",
        "A\t1e-05\nB\t50.00004\n",
        "[10000, 50000040000]",
    ),
    (
        "numpy.savetxt with fmt=['%s', '%.6f'] and delimiter=',' (as documented)",
        "A,0.000000\nB,50.000030\n",
        READ,
    ),
    (
        "numpy.savetxt with a header (as documented)",
        "# target direction\nA 0.000000\nB 50.000030\n",
        READ,
    ),
    (
        "Octave's fprintf ('%s,%.6f\\n') of mod (-1e-9, 400) (as documented)",
        "A,400.000000\nB,50.000030\n",
        READ,
    ),
    (
        "LibreOffice's CSV of a German sheet, without options",
        "A,\"0,00000\"\nB,\"50,00003\"\n",
        READ,
    ),
    (
        "LibreOffice's CSV of a German sheet, with semicolons",
        "Punkt;Richtung\nA;0,00000\nB;50,00003\n",
        READ,
    ),
];

#[test]
fn a_table_in_21_ways(rt: HostRuntime) -> Result<(), Fail> {
    for (way, text, expected) in WAYS {
        let found = answer_of(&rt, rt.alloc(), text.as_bytes())?;
        assert_eq!(rt; found.as_str(), expected, "of {way}");
    }
    Ok(())
}

#[test]
fn tables_that_programs_print(rt: HostRuntime) -> Result<(), Fail> {
    for (program, text, expected) in PROGRAMS {
        let found = answer_of(&rt, rt.alloc(), text.as_bytes())?;
        assert_eq!(rt; found.as_str(), expected, "of {program}");
    }
    Ok(())
}
