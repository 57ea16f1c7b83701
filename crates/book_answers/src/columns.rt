//! Columns of a table of all stations, whose first is that of the stations' names, and of the part
//! of one, which lacks it.
ghost use Rattle.std.specs.Prelude.{◌≡◌, option_map};
ghost use Rattle.book_answers.specs.Columns as spec;

use direction_table::{ByColumns, ColumnPair, TableForm};

/// A column of a part, by the whole.
pub(crate) fn column_in_whole(column: u32) -> u32
    ensures { result ≡ spec.column_in_whole column }
{
    if column < u32::MAX {
        column + 1
    } else {
        u32::MAX
    }
}

/// A column of the whole, counted from 0, by the part, in which the first is none.
fn column_in_part(column: u32) -> u32
    ensures { result ≡ spec.column_in_part column }
{
    if column == 0 { u32::MAX } else { column - 1 }
}

/// Columns of a part, by the whole.
fn pair_in_whole(pair: ColumnPair) -> ColumnPair
    ensures { result ≡ spec.pair_in_whole pair }
{
    ColumnPair {
        names: column_in_whole(pair.names),
        directions: column_in_whole(pair.directions),
    }
}

/// How a part was read, by the whole.
pub(crate) fn read_in_whole(by: Option<ByColumns>) -> Option<ByColumns>
    ensures { result ≡ option_map spec.read_in_whole by }
{
    match by {
        Some(by) => Some(ByColumns {
            pair: pair_in_whole(by.pair),
            passed: by.passed,
        }),
        None => None,
    }
}

/// How a part is read, where this is stated of the whole.
pub(crate) fn form_in_part(form: TableForm) -> TableForm
    ensures { result ≡ spec.form_in_part form }
{
    let columns = match form.columns {
        Some(pair) => Some(ColumnPair {
            names: column_in_part(pair.names),
            directions: column_in_part(pair.directions),
        }),
        None => None,
    };
    TableForm {
        unit: form.unit,
        columns,
    }
}
