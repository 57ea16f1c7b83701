//! The two columns of a table by their titles.

ghost use Rattle.std.specs.Prelude.{◌≡◌, ◌<◌, ◌≤◌, ◌+◌, ◌⊎◌, Err, length};
ghost use Rattle.byte_ends.specs.Came.{BytesCame, Leaves};
ghost use Rattle.byte_ends.specs.Input.{input_within};
ghost use Rattle.byte_ends.specs.Source.{reader_change};
ghost use Rattle.csv.specs.Records.{fields_of};
ghost use Rattle.direction_table.specs.declared.reading.TheConstants.{LONGEST_TABLE};
ghost use Rattle.table_titles.specs.Titles as spec;
ghost use Rattle.table_titles.specs.TitledInput.{ComesOfInput, titles_left};
ghost use Rattle.table_titles.specs.declared.fault.TitlesFault.TheVariants.{Memory, TooLong};

use crate::fault::TitlesFault;
use crate::row::{column_titled, title_row};
use crate::titles::{TitleOf, Titles};
use byte_ends::{Source, read_whole};
use csv::ByteRecord;
use direction_table::{ColumnPair, LONGEST_TABLE};
use std::alloc::Global;

/// The two columns of a table with these titles, counted from 0. The table is read to its end.
///
/// The titles stand in the first row in which a cell is the title of targets. By commas is looked
/// first, then by semicolons, then by tabs, each time in all rows; quotes and a byte order mark
/// are taken as the table's reader takes them.
///
/// # Errors
///
/// `Read` where a read failed; `TooLong` where there are more bytes than a table may have;
/// `NoTitle` where no row has the title of targets, or its first row has none of directions;
/// `TwiceTitled` where that row has a title twice; `SameTitle` where one column has both. `Memory`
/// may stand in the place of any answer.
pub fn titled_columns<Q: Source>(
    alloc: Global,
    table: &mut Q,
    titles: Titles<'_>,
) -> Result<ColumnPair, TitlesFault>
    ensures tells { BytesCame (reader_change Q.told Q.failed Q.gave table.old table.new)
        (λ gives. ComesOfInput titles.entry.targets.now titles.entry.directions.now
        (input_within LONGEST_TABLE gives) result) }
    ensures reader { Leaves titles_left result
        (reader_change Q.told Q.failed Q.gave table.old table.new) }
{
    let bytes = read_whole(alloc, table, LONGEST_TABLE)?;
    columns_by_titles(alloc, titles, &bytes)
}

/// The same of the bytes of a table; `Read` is never answered.
#[tactic(auto, using(crate::proofs::OfRow::too_long))]
pub fn columns_by_titles(
    alloc: Global,
    titles: Titles<'_>,
    bytes: &[u8],
) -> Result<ColumnPair, TitlesFault>
    ensures columns { (result ≡ spec.columns_by_titles titles.entry.targets.now
        titles.entry.directions.now bytes.now) ⊎ (result ≡ Err Memory) }

    // That bytes are too many is seen before any memory is taken.
    ensures too_long { LONGEST_TABLE < length bytes.now → result ≡ Err TooLong }
{
    if bytes.len() > LONGEST_TABLE {
        return Err(TitlesFault::TooLong);
    }
    match title_row(alloc, titles.targets, bytes)? {
        Some(row) => columns_in_row(&row, titles),
        None => Err(TitlesFault::NoTitle(TitleOf::Targets)),
    }
}

/// The two columns of a row with these titles.
fn columns_in_row(row: &ByteRecord, titles: Titles<'_>) -> Result<ColumnPair, TitlesFault>
    requires few { length (fields_of row.now) ≤ LONGEST_TABLE + 1 }
    ensures { result ≡ spec.columns_in titles.entry.targets.now titles.entry.directions.now
        (fields_of row.now) }
{
    let names = column_titled(row, titles.targets, TitleOf::Targets)?;
    let directions = column_titled(row, titles.directions, TitleOf::Directions)?;
    if names == directions {
        return Err(TitlesFault::SameTitle);
    }
    Ok(ColumnPair { names, directions })
}
