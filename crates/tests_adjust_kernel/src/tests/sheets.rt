//! The limits that a sheet keeps.

use adjust_kernel::{Direction, Name, Orientation, Row, Sheet};
use std::alloc::Global;
use std::process::Abort;
use std::test::Fail;

// The sheet of one target and one set, with these numbers and so many rows, if it is one.
fn sheet_of(
    rt: &impl Abort,
    alloc: Global,
    denominator: u64,
    value: i128,
    turn: i8,
    count: usize,
) -> Result<Option<Sheet>, Fail> {
    let name = Name::new(b"A").expect(rt, "a name");
    let mut directions = Vec::new(alloc);
    directions.push(Direction { name, value })?;
    let mut orientations = Vec::new(alloc);
    orientations.push(Orientation { set: 1, value })?;
    let mut rows = Vec::new(alloc);
    for _ in 0..count {
        rows.push(Row {
            set: 1,
            target: name,
            value: 0,
            turn,
        })?;
    }
    Ok(Sheet::new(name, denominator, directions, orientations, rows))
}

#[test]
fn a_sheet_keeps_its_limits(rt: HostRuntime) -> Result<(), Fail> {
    let trillion = 1_000_000_000_000;
    let largest = 1_000_000_000_000_000_000_000;
    let cases = [
        ("the largest numbers", trillion, largest, 9, 4_000, true),
        ("the smallest numbers", 1, -largest, -9, 1, true),
        ("denominator 0", 0, 0, 0, 1, false),
        ("too large a denominator", trillion + 1, 0, 0, 1, false),
        ("too large a direction", 1, largest + 1, 0, 1, false),
        ("too small a direction", 1, -largest - 1, 0, 1, false),
        ("turn 10", 1, 0, 10, 1, false),
        ("no rows", 1, 0, 0, 0, false),
        ("too many rows", 1, 0, 0, 4_001, false),
    ];
    for (what, denominator, value, turn, count, want) in cases {
        let sheet = sheet_of(&rt, rt.alloc(), denominator, value, turn, count)?;
        assert_eq!(rt; sheet.is_some(), want, "{what}");
    }
    Ok(())
}
