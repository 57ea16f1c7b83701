//! The row of titles.
//!
//! Each of the separators is tried on the whole table, since rows of other things may stand before
//! that of the titles. Blanks are none of them: a title may have some, and would then be two cells
//! above one column.

ghost use Rattle.std.specs.Prelude.{◌≡◌, ◌≤◌, ◌+◌, IfOk, IfSome, length, option_map};
ghost use Rattle.std.specs.List.{list_any};
ghost use Rattle.csv.specs.Reading.{error_kind};
ghost use Rattle.csv.specs.Records.{fields_of};
ghost use Rattle.direction_table.specs.FieldForms as forms;
ghost use Rattle.direction_table.specs.declared.reading.TheConstants.{LONGEST_TABLE};
ghost use Rattle.sheet_format.specs.Errors.{IsMemoryOrInput};
ghost use Rattle.table_titles.specs.Titles as spec;

use crate::fault::TitlesFault;
use crate::titles::TitleOf;
use csv::{ByteRecord, ReaderBuilder};
use std::alloc::{AllocError, Global};

/// A cell without the white space before it.
fn without_blanks_before(cell: &[u8]) -> &[u8]
    ensures { result.now ≡ forms.without_blanks_before cell.now }
{
    cell.trim_ascii_start()
}

/// A cell without the white space after it.
fn without_blanks_after(cell: &[u8]) -> &[u8]
    ensures { result.now ≡ forms.without_blanks_after cell.now }
{
    cell.trim_ascii_end()
}

/// Whether a cell is a title, without the white space around it.
fn is_title(title: &[u8], cell: &[u8]) -> bool
    ensures { result ≡ spec.is_title title.now cell.now }
{
    without_blanks_after(without_blanks_before(cell)) == title
}

/// Whether a cell of a row is a title.
#[tactic(auto, using(crate::proofs::Cells::any_more))]
fn has_title(title: &[u8], row: &ByteRecord) -> bool
    ensures { result ≡ spec.has_title title.now (fields_of row.now) }
{
    for place in 0..row.len() {
        if is_title(title, row.get(place).unwrap_or(&[])) {
            return true;
        }
    }
    false
}

/// The first row of a text, by a separator, in which a cell is a title.
fn title_row_by(
    alloc: Global,
    title: &[u8],
    bytes: &[u8],
    separator: u8,
) -> Result<Option<ByteRecord>, AllocError>
    requires short { length bytes.now ≤ LONGEST_TABLE }
    ensures row { IfOk result (λ row. option_map fields_of row
        ≡ spec.title_row_by title.now bytes.now separator) }
    ensures few { IfOk result (λ row. IfSome row (λ row.
        length (fields_of row) ≤ LONGEST_TABLE + 1)) }
{
    let mut reader = ReaderBuilder::new()
        .has_headers(false)
        .flexible(true)
        .delimiter(separator)
        .from_reader(alloc, bytes);
    let mut row = ByteRecord::new(alloc);
    'rows: loop {
        let found = match reader.read_byte_record(&mut row) {
            Ok(found) => found,
            Err(error) => return Err(out_of_memory(&error)),
        };
        if !found {
            return Ok(None);
        }
        if has_title(title, &row) {
            return Ok(Some(row));
        }
    }
}

/// What an error of `csv` comes to where rows are read as bytes and may be of any length: out of
/// memory. No other comes there but one of the input. Bytes in memory have none, and `csv` leaves
/// it open over any reader.
fn out_of_memory(_error: &csv::Error) -> AllocError
    requires { IsMemoryOrInput (error_kind _error.now) }
{
    AllocError
}

/// The row of titles: the first in which a cell is this title, by the first separator by which
/// there is one.
pub(crate) fn title_row(
    alloc: Global,
    title: &[u8],
    bytes: &[u8],
) -> Result<Option<ByteRecord>, AllocError>
    requires short { length bytes.now ≤ LONGEST_TABLE }
    ensures row { IfOk result (λ row. option_map fields_of row
        ≡ spec.title_row title.now bytes.now) }
    ensures few { IfOk result (λ row. IfSome row (λ row.
        length (fields_of row) ≤ LONGEST_TABLE + 1)) }
{
    let by_commas = title_row_by(alloc, title, bytes, b',')?;
    if by_commas.is_some() {
        return Ok(by_commas);
    }
    let by_semicolons = title_row_by(alloc, title, bytes, b';')?;
    if by_semicolons.is_some() {
        return Ok(by_semicolons);
    }
    title_row_by(alloc, title, bytes, b'\t')
}

/// The one column of a row whose cell is a title, counted from 0.
#[tactic(auto, using(crate::proofs::Cells::columns_more))]
pub(crate) fn column_titled(row: &ByteRecord, title: &[u8], of: TitleOf) -> Result<u32, TitlesFault>
    requires few { length (fields_of row.now) ≤ LONGEST_TABLE + 1 }
    ensures { result ≡ spec.the_one of (spec.columns_from title.now 0 (fields_of row.now)) }
{
    let mut found = None;
    for place in 0..row.len() {
        if !is_title(title, row.get(place).unwrap_or(&[])) {
            continue;
        }
        if found.is_some() {
            return Err(TitlesFault::TwiceTitled(of));
        }
        found = Some(place as u32);
    }
    found.ok_or(TitlesFault::NoTitle(of))
}
