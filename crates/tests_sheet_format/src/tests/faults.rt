//! The texts of the faults.

use super::{expect_same, push_line};
use sheet_format::{RowKind, SheetFault, WriteFault};
use std::test::Fail;

const FAULTS: &str = "\
row 7: not five columns
row 7: no such row may stand here
row 7: the version is not 1 or 2
row 7: a column that such rows leave empty is not
row 7: the name is not 1 to 16 bytes from the blank to the tilde
row 7: a number is not in its one form
row 7: a number is out of range
row 7: more than 100 targets, 40 sets or 4000 observations
row 7: the sheet ends before its observations
longer than 1048576 bytes
out of memory
out of memory, and nothing was written
a write failed
";

#[test]
fn a_fault_is_told_in_words(rt: HostRuntime) -> Result<(), Fail> {
    let mut texts = String::new(rt.alloc());
    for kind in [
        RowKind::Fields,
        RowKind::Kind,
        RowKind::Version,
        RowKind::NotEmpty,
        RowKind::Name,
        RowKind::Number,
        RowKind::Range,
        RowKind::TooMany,
        RowKind::Unfinished,
    ] {
        push_line(
            &mut texts,
            SheetFault::Row(7, kind).to_string(rt.alloc())?.as_str(),
        )?;
    }
    push_line(
        &mut texts,
        SheetFault::TooLong.to_string(rt.alloc())?.as_str(),
    )?;
    push_line(
        &mut texts,
        SheetFault::Memory.to_string(rt.alloc())?.as_str(),
    )?;
    push_line(
        &mut texts,
        WriteFault::Memory.to_string(rt.alloc())?.as_str(),
    )?;
    push_line(
        &mut texts,
        WriteFault::Write.to_string(rt.alloc())?.as_str(),
    )?;
    expect_same(&rt, texts.as_str(), FAULTS, "all faults");
    Ok(())
}
