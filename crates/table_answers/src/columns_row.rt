//! By which pair of its columns a table was read, as data, in no memory but its own.
ghost use Rattle.std.specs.Prelude.{◌≡◌, ◌≤◌, ◌+◌, ◌++◌, decimal, length};
ghost use Rattle.arrayvec.specs.ArrayVec.{array_vec_len};
ghost use Rattle.station_check.specs.declared.verdict_line.TheConstants.{LONGEST_U64};
ghost use Rattle.station_check.specs.declared.verdict_line.TheConstants.{LONGEST_VERDICT_LINE};
ghost use Rattle.table_answers.specs.ColumnRows as spec;
ghost use Rattle.table_answers.specs.declared.columns_row.TheConstants.{LONGEST_ROW};

use direction_table::ByColumns;
use itoa::Buffer;
use station_check::{LONGEST_U32, LONGEST_U64, VerdictLine, add, add_numbered};

/// Bytes of a row, at most: two columns, which are counted from 1, and four numbers, each with a
/// comma or the end of the row.
const LONGEST_ROW: usize = 2 * (LONGEST_U64 + 1) + 4 * (LONGEST_U32 + 1);

/// The row of a table below its titles: the columns of names and of directions, counted from 1, by
/// which it was read, how many rows were passed over before, among and after those that name a
/// target, and how many units. Of a table that was read as two columns there are the titles alone.
pub(crate) fn columns_rows(by_columns: Option<ByColumns>) -> VerdictLine
    ensures { result.items ≡ spec.columns_rows by_columns }
{
    let mut rows = VerdictLine::new();
    add(&mut rows, b"names,directions,before,among,after,units\n");
    if let Some(by) = by_columns {
        add_columns(&mut rows, by);
    }
    rows
}

/// Adds the row of a table that was read by a pair of its columns.
fn add_columns(rows: &mut VerdictLine, by: ByColumns)
    requires { array_vec_len rows.old + LONGEST_ROW ≤ LONGEST_VERDICT_LINE }
    ensures { rows.new.items ≡ rows.old.items ++ spec.columns_row by }
{
    add_column(rows, b"", by.pair.names);
    add_column(rows, b",", by.pair.directions);
    add_numbered(rows, b",", by.passed.before);
    add_numbered(rows, b",", by.passed.among);
    add_numbered(rows, b",", by.passed.after);
    add_numbered(rows, b",", by.passed.units);
    add(rows, b"\n");
}

/// Adds a text and after it a column, which is counted from 1 there.
fn add_column(rows: &mut VerdictLine, bytes: &[u8], column: u32)
    requires { array_vec_len rows.old + length bytes.now + LONGEST_U64 ≤ LONGEST_VERDICT_LINE }
    ensures items { rows.new.items ≡ rows.old.items ++ (bytes.now ++ decimal (column + 1)) }
    ensures len { array_vec_len rows.new ≤ array_vec_len rows.old + length bytes.now + LONGEST_U64 }
{
    let mut digits = Buffer::new();
    add(rows, bytes);
    add(rows, digits.format(u64::from(column) + 1).as_bytes());
}
