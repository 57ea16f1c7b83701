//! The records of a text whose fields a byte separates, for a page.

ghost use Rattle.std.specs.Prelude.{◌≡◌, ◌++◌, [], IfOk, OnOk, SomeIff, unwrap_or};
ghost use Rattle.std.specs.List.{concat};
ghost use Rattle.csv.specs.Reading.{error_kind};
ghost use Rattle.csv.specs.Records.{field_at, fields_of};
ghost use Rattle.sheet_format.specs.Errors.{IsMemoryOrInput};
ghost use Rattle.station_page.specs.Answers.{IsRecordsOf};
ghost use Rattle.station_page.specs.HandedOut.{ShowsInRange};
ghost use Rattle.station_page.specs.TextRecords.{AreTheRecords, IsSeparator};
ghost use Rattle.station_page.specs.TextRecords.{lengths_text, record_text};

use crate::hand_out::{OUT_OF_RANGE, hand_out_text};
use csv::{ByteRecord, ReaderBuilder};
use station_report::push_count;
use std::alloc::{AllocError, Global};

/// Hands out the records of a whole text whose fields `separator` separates, as `csv` reads them:
/// of each a line of how many bytes its fields have, with commas between, and then the bytes of its
/// fields, one after the other. Lines without bytes are no records, and a byte order mark at the
/// start belongs to none.
///
/// The separator is the byte of a comma, a semicolon, a tab or a blank. Answers 0 for the records,
/// 1 where there was no memory, 2 for another separator, and 3 where `out` has too little room.
#[unsafe(no_mangle)]
pub extern "C" fn station_page_records(
    alloc: Global,
    text: &[u8],
    separator: u32,
    out: &mut [u8],
    written: &mut usize,
) -> u8
    ensures { ShowsInRange (IsSeparator separator) (IsRecordsOf separator text.now) out.old out.new
        written.new result }
{
    *written = 0;
    let Some(separator) = separator_of(separator) else {
        return OUT_OF_RANGE;
    };
    hand_out_text(&records_text(alloc, text, separator), out, written)
}

/// The separator of a number, which is that of its byte.
fn separator_of(number: u32) -> Option<u8>
    ensures { SomeIff result (IsSeparator number) number }
{
    match u8::try_from(number) {
        Ok(byte @ (b',' | b';' | b'\t' | b' ')) => Some(byte),
        _ => None,
    }
}

/// The records of a text whose fields this byte separates.
fn records_text(alloc: Global, text: &[u8], separator: u8) -> Result<Vec<u8>, AllocError>
    ensures { IfOk result (λ records. AreTheRecords separator text.now records.items) }
{
    let reader = ReaderBuilder::new()
        .has_headers(false)
        .flexible(true)
        .delimiter(separator)
        .from_reader(alloc, text);
    let mut records = Vec::new(alloc);
    for row in reader.into_byte_records() {
        match row {
            Ok(row) => push_row(&mut records, &row)?,
            Err(error) => return Err(out_of_memory(&error)),
        }
    }
    Ok(records)
}

/// What an error of `csv` comes to where rows are read as bytes and may be of any length: out of
/// memory. No other comes there but one of the input. Bytes in memory have none, and `csv` leaves
/// it open over any reader.
fn out_of_memory(_error: &csv::Error) -> AllocError
    requires { IsMemoryOrInput (error_kind _error.now) }
{
    AllocError
}

/// Adds a record to a text.
fn push_row(text: &mut Vec<u8>, row: &ByteRecord) -> Result<(), AllocError>
    ensures { OnOk result (text.new.items ≡ text.old.items ++ record_text (fields_of row.now)) }
{
    push_lengths(text, row)?;
    text.push(b'\n')?;
    push_fields(text, row)
}

/// The field at a place, or none of its bytes where the record has no such field.
fn field(row: &ByteRecord, at: usize) -> &[u8]
    ensures { result.now ≡ unwrap_or (field_at (fields_of row.now) at) [] }
{
    row.get(at).unwrap_or(&[])
}

/// Adds how many bytes each field of a record has.
fn push_lengths(text: &mut Vec<u8>, row: &ByteRecord) -> Result<(), AllocError>
    ensures { OnOk result (text.new.items ≡ text.old.items ++ lengths_text (fields_of row.now)) }
{
    for at in 0..row.len() {
        if at > 0 {
            text.push(b',')?;
        }
        push_count(text, field(row, at).len())?;
    }
    Ok(())
}

/// Adds the bytes of the fields of a record.
fn push_fields(text: &mut Vec<u8>, row: &ByteRecord) -> Result<(), AllocError>
    ensures { OnOk result (text.new.items ≡ text.old.items ++ concat (fields_of row.now)) }
{
    for at in 0..row.len() {
        text.extend_from_slice(field(row, at))?;
    }
    Ok(())
}
