//! Sheets worked out by hand. A line of a table is a case: what is read, and after the last `|` the
//! answer, in which `read` stands for the sheet.

use super::{SHEET, answer_of, expect_answer, expect_same, push_line};
use sheet_format::read_sheet;
use std::alloc::{AllocError, Global};
use std::process::Abort;
use std::test::Fail;

/// A row of the worked sheet by its number, and what stands there in its place.
const CHANGED_ROWS: &str = "\
1|\"sheet\",\"1\",\"S1\",\"4\",\"\"|read
2|target,\"\",A,\"0\",|read
9|obs,2,\"B\",30000012,\"0\"|read
1|sheet,2,S1,4,|read
1|\u{feff}sheet,1,S1,4,|read
1||Row(1, Kind)
1| |Row(1, Fields)
2|\u{feff}target,,A,0,|Row(2, Kind)
1|sheet,1,S1,4|Row(1, Fields)
1|sheet,1,\"S1,4,|Row(1, Fields)
1|Sheet,1,S1,4,|Row(1, Kind)
1|sheet ,1,S1,4,|Row(1, Kind)
1|sheet,3,S1,4,|Row(1, Version)
1|sheet,01,S1,4,|Row(1, Version)
1|sheet,+1,S1,4,|Row(1, Version)
1|sheet,,S1,4,|Row(1, Version)
1|sheet,3,S1,4,0|Row(1, Version)
1|sheet,1,S1,4,0|Row(1, NotEmpty)
1|sheet,1,,4,0|Row(1, NotEmpty)
1|sheet,1,,4,|Row(1, Name)
1|sheet,1,,x,|Row(1, Name)
1|sheet,1,S1,x,|Row(1, Number)
1|sheet,1,S1,0,|Row(1, Range)
1|sheet,1,S1,-4,|Row(1, Range)
3|target,,B,-0,|Row(3, Number)
3|target,,B,007,|Row(3, Number)
3|target,,B,+5,|Row(3, Number)
3|target,,B,,|Row(3, Number)
3|target,,B,-,|Row(3, Number)
3|target,,B, 5,|Row(3, Number)
3|target,,B,5.0,|Row(3, Number)
3|target,,B,170141183460469231731687303715884105728,|Row(3, Range)
3|target,,,40000024,|Row(3, Name)
3|target,,,-0,|Row(3, Name)
3|target,,B,40000024,,|Row(3, Fields)
3|target,1,B,40000024,|Row(3, NotEmpty)
3|target,,B,40000024,0|Row(3, NotEmpty)
3|target,,12345678901234567,40000024,|Row(3, Name)
3|target,,B\0,40000024,|Row(3, Name)
3|target,,\u{7f},40000024,|Row(3, Name)
3|obs,1,B,6,0|Row(3, Kind)
3|sheet,1,S1,4,|Row(3, Kind)
3|targets,,B,40000024,|Row(3, Kind)
4|set,1,A,-20,|Row(4, NotEmpty)
4|set,1,,-20,0|Row(4, NotEmpty)
4|set,0,,-20,|Row(4, Range)
4|set,10000,,-20,|Row(4, Range)
4|set,01,,-20,|Row(4, Number)
4|set,10000,,-020,|Row(4, Number)
5|target,,C,0,|Row(5, Kind)
6|target,,C,0,|Row(6, Kind)
7|set,3,,0,|Row(7, Kind)
6|obs,1,A,80000000,0|Row(6, Range)
6|obs,1,A,6,-10|Row(6, Range)
7|obs,1,,10000010,0|Row(7, Name)
7|obs,1,,-0,0|Row(7, Name)
7|obs,01,B,80000000,0|Row(7, Number)
7|obs,0,B,10000010,00|Row(7, Number)
7|obs,1,B,80000000,0|Row(7, Range)
7|obs,1,B,-1,0|Row(7, Range)
7|obs,1,B,10000010,10|Row(7, Range)
7|obs,1,B,10000010,-10|Row(7, Range)
7|obs,0,B,10000010,0|Row(7, Range)
7|obs,10000,B,10000010,0|Row(7, Range)
";

/// The worked sheet with another text in the place of a row.
pub(super) fn changed(alloc: Global, row: usize, line: &str) -> Result<String, AllocError> {
    let mut text = String::new(alloc);
    let mut number = 0usize;
    for old in SHEET.lines() {
        number = number.saturating_add(1);
        push_line(&mut text, if number == row { line } else { old })?;
    }
    Ok(text)
}

/// What stands in a case before the mark, and what after it.
fn parts(rt: &impl Abort, case: &'static str) -> (&'static str, &'static str) {
    case.split_once('|').expect(rt, "a case")
}

fn expect_change(rt: &impl Abort, alloc: Global, case: &'static str) -> Result<(), Fail> {
    let (row, change) = parts(rt, case);
    let (line, expected) = parts(rt, change);
    let text = changed(alloc, row.parse::<usize>()?, line)?;
    expect_answer(
        rt,
        alloc,
        text.as_str(),
        if expected == "read" { SHEET } else { expected },
    )
}

#[test]
fn a_changed_row_is_read_alike_or_refused_for_its_first_fault(rt: HostRuntime) -> Result<(), Fail> {
    for case in CHANGED_ROWS.lines() {
        expect_change(&rt, rt.alloc(), case)?;
    }
    Ok(())
}

/// Sheets with numbers at the ends of their ranges, or with rows up to the most of them and one
/// more. A `;` ends a line, `3*LINE` stands for three lines, and `read` says that the very text is
/// written again.
const SHEETS: &str = "\
sheet,1,S,1000000000,;target,,A,1000000000000000000,;set,1,,-1000000000000000000,;obs,1,A,0,0;|read
sheet,1,S,1000000000,;target,,A,-1000000000000000000,;set,1,,1000000000000000000,;obs,1,A,0,0;|read
sheet,1,S,1000000001,;target,,A,0,;set,1,,0,;obs,1,A,0,0;|Row(1, Range)
sheet,1,S,1,;target,,A,1000000000000000001,;set,1,,0,;obs,1,A,0,0;|Row(2, Range)
sheet,1,S,1,;target,,A,-1000000000000000001,;set,1,,0,;obs,1,A,0,0;|Row(2, Range)
sheet,1,S,1,;target,,A,0,;set,1,,1000000000000000001,;obs,1,A,0,0;|Row(3, Range)
sheet,1,S,1,;target,,A,0,;set,1,,-1000000000000000001,;obs,1,A,0,0;|Row(3, Range)
sheet,2,S,1000000001,;target,,A,0,;set,1,,0,;obs,1,A,0,0;|read
sheet,2,S,1,;target,,A,1000000000000000001,;set,1,,0,;obs,1,A,0,0;|read
sheet,2,S,1,;target,,A,-1000000000000000001,;set,1,,0,;obs,1,A,0,0;|read
sheet,2,S,1,;target,,A,0,;set,1,,1000000000000000001,;obs,1,A,0,0;|read
sheet,2,S,1,;target,,A,0,;set,1,,-1000000000000000001,;obs,1,A,0,0;|read
sheet,2,S,1000000000000,;target,,A,1000000000000000000000,;set,1,,-1000000000000000000000,;\
obs,1,A,0,0;|read
sheet,2,S,1000000000000,;target,,A,-1000000000000000000000,;set,1,,1000000000000000000000,;\
obs,9999,A,79999999,-9;|read
sheet,2,S,1000000000001,;target,,A,0,;set,1,,0,;obs,1,A,0,0;|Row(1, Range)
sheet,2,S,1,;target,,A,1000000000000000000001,;set,1,,0,;obs,1,A,0,0;|Row(2, Range)
sheet,2,S,1,;target,,A,-1000000000000000000001,;set,1,,0,;obs,1,A,0,0;|Row(2, Range)
sheet,2,S,1,;target,,A,0,;set,1,,1000000000000000000001,;obs,1,A,0,0;|Row(3, Range)
sheet,2,S,1,;target,,A,0,;set,1,,-1000000000000000000001,;obs,1,A,0,0;|Row(3, Range)
sheet,2,S1,1000000000000,;target,,A,0,;target,,B,10000006000000000000,;set,1,,-5000000000000,;\
set,2,,-20000005000000000000,;obs,1,A,6,0;obs,1,B,10000010,0;obs,2,A,20000004,0;\
obs,2,B,30000012,0;|read
sheet,1,S1,1000000000000,;target,,A,0,;target,,B,10000006000000000000,;|Row(1, Range)
sheet,1,S1,1,;target,,\"A,\"\"1\",0,;set,1,,-6,;obs,1,\"A,\"\"1\",6,0;|read
sheet,1,S,1,;101*target,,A,0,;|Row(102, TooMany)
sheet,1,S,1,;target,,A,0,;41*set,1,,0,;|Row(43, TooMany)
sheet,1,S,1,;target,,A,0,;set,1,,0,;4001*obs,1,A,0,0;|Row(4004, TooMany)
sheet,1,S,1,;101*target,,A,0,;40*set,1,,0,;4000*obs,1,A,0,0;|Row(102, TooMany)
sheet,1,S,1,;100*target,,A,0,;41*set,1,,0,;4000*obs,1,A,0,0;|Row(142, TooMany)
sheet,1,S,1,;100*target,,A,0,;40*set,1,,0,;4001*obs,1,A,0,0;|Row(4142, TooMany)
sheet,1,S,1,;100*target,,A,0,;40*set,1,,0,;4000*obs,1,A,0,0;obs,10000,A,0,0;|Row(4142, Range)
sheet,1,S,1,;100*target,,A,0,;40*set,1,,0,;|Row(142, Unfinished)
sheet,1,S,1,;100*target,,A,0,;40*set,1,,0,;4000*obs,1,A,0,0;|read
";

/// The text of a case.
fn text_of(alloc: Global, case: &str) -> Result<String, Fail> {
    let mut text = String::new(alloc);
    for lines in case.split_terminator(';') {
        let (count, line) = lines.split_once('*').unwrap_or(("1", lines));
        for _ in 0..count.parse::<u32>()? {
            push_line(&mut text, line)?;
        }
    }
    Ok(text)
}

fn expect_sheet(rt: &impl Abort, alloc: Global, case: &'static str) -> Result<(), Fail> {
    let (lines, expected) = parts(rt, case);
    let text = text_of(alloc, lines)?;
    let text = text.as_str();
    expect_answer(
        rt,
        alloc,
        text,
        if expected == "read" { text } else { expected },
    )
}

#[test]
fn a_sheet_is_written_as_it_is_read_or_refused_at_its_limits(rt: HostRuntime) -> Result<(), Fail> {
    for case in SHEETS.lines() {
        expect_sheet(&rt, rt.alloc(), case)?;
    }
    Ok(())
}

#[test]
fn lines_may_end_as_csv_ends_them(rt: HostRuntime) -> Result<(), Fail> {
    for end in ["\r\n", "\r", "\n\n", "\r\r\n\n"] {
        let text = SHEET.replace(rt.alloc(), "\n", end)?;
        expect_answer(&rt, rt.alloc(), text.as_str(), SHEET)?;
    }
    Ok(())
}

/// The answers of the worked sheet where it is cut after so many bytes: each up to this length.
const CUTS: &str = "\
0|Row(1, Unfinished)
12|Row(1, Fields)
14|Row(2, Unfinished)
25|Row(2, Fields)
27|Row(3, Unfinished)
45|Row(3, Fields)
47|Row(4, Unfinished)
57|Row(4, Fields)
59|Row(5, Unfinished)
75|Row(5, Fields)
77|Row(6, Unfinished)
86|Row(6, Fields)
87|Row(6, Number)
89|read
105|Row(7, Fields)
106|Row(7, Number)
108|read
124|Row(8, Fields)
125|Row(8, Number)
127|read
143|Row(9, Fields)
144|Row(9, Number)
146|read
";

/// The worked sheet cut after so many bytes. What is read is written with the last line's end.
fn expect_cut(
    rt: &impl Abort,
    alloc: Global,
    length: usize,
    end: usize,
    expected: &str,
) -> Result<(), Fail> {
    let cut = &SHEET.as_bytes()[..length.min(SHEET.len())];
    let found = answer_of(alloc, read_sheet(alloc, cut))?;
    let read = &SHEET.as_bytes()[..end.min(SHEET.len())];
    let expected = if expected == "read" {
        str::from_utf8(read)?
    } else {
        expected
    };
    expect_same(rt, found.as_str(), expected, "a cut sheet");
    Ok(())
}

#[test]
fn a_cut_sheet_has_one_answer_at_each_byte(rt: HostRuntime) -> Result<(), Fail> {
    let mut begin = 0;
    for case in CUTS.lines() {
        let (end, expected) = parts(&rt, case);
        let end = end.parse::<u16>()?;
        for length in begin..=end {
            expect_cut(
                &rt,
                rt.alloc(),
                usize::from(length),
                usize::from(end),
                expected,
            )?;
        }
        begin = end.saturating_add(1);
    }
    assert!(rt; usize::from(begin) == SHEET.len() + 1);
    Ok(())
}

#[test]
fn a_number_of_5001_digits_is_out_of_range(rt: HostRuntime) -> Result<(), Fail> {
    let mut line = String::new(rt.alloc());
    line.push_str("target,,B,1")?;
    for _ in 0..5_000 {
        line.push_str("0")?;
    }
    line.push_str(",")?;
    let text = changed(rt.alloc(), 3, line.as_str())?;
    expect_answer(&rt, rt.alloc(), text.as_str(), "Row(3, Range)")
}
