//! The five columns of a row.

ghost use Rattle.std.specs.Prelude.{◌≡◌, [], unwrap_or, option_map};
ghost use Rattle.csv.specs.Records.{field_at, fields_of};
ghost use Rattle.sheet_format.specs.Columns.{columns_of, columns_view};

use csv::ByteRecord;

/// How many columns a row has.
const COLUMNS: usize = 5;

/// The fields of a row that has five.
#[derive(Clone, Copy)]
pub(crate) struct Columns<'a> {
    pub(crate) row_type: &'a [u8],
    pub(crate) number: &'a [u8],
    pub(crate) name: &'a [u8],
    pub(crate) value: &'a [u8],
    pub(crate) turn: &'a [u8],
}

fn field(row: &ByteRecord, at: usize) -> &[u8]
    ensures { result.now ≡ unwrap_or (field_at (fields_of row.now) at) [] }
{
    row.get(at).unwrap_or(&[])
}

impl<'a> Columns<'a> {
    /// The columns of a row, if it has five.
    pub(crate) fn parse(row: &'a ByteRecord) -> Option<Columns<'a>>
        ensures { option_map columns_view result ≡ columns_of (fields_of row.now) }
    {
        if row.len() != COLUMNS {
            return None;
        }
        Some(Columns {
            row_type: field(row, 0),
            number: field(row, 1),
            name: field(row, 2),
            value: field(row, 3),
            turn: field(row, 4),
        })
    }
}
