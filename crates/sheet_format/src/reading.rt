//! Bytes as a sheet.
//!
//! The rows are read one by one into one record, which is used again, so that the memory grows with
//! the sheet alone. The first row with a fault ends the reading.

ghost use Rattle.std.specs.Prelude.{◌≡◌, ◌≤◌, ◌<◌, ◌⊎◌, length, Err, IfErr, IfOk, Ok};
ghost use Rattle.adjust_kernel.specs.Sheets.{SheetValue};
ghost use Rattle.csv.specs.Reading.{error_kind};
ghost use Rattle.sheet_format.specs.Errors.{IsMemoryOrInput};
ghost use Rattle.sheet_format.specs.Faults.{IsSheetFaultOrMemory, IsSheetFault};
ghost use Rattle.sheet_format.specs.Rows.{IsSheetText};
ghost use Rattle.sheet_format.specs.declared.fault.SheetFault.TheVariants.{Memory, TooLong};

use crate::draft::{Draft, Refusal};
use crate::fault::{RowKind, SheetFault};
use adjust_kernel::Sheet;
use csv::{ByteRecord, ReaderBuilder};
use std::alloc::Global;

/// The most bytes of a sheet.
pub const LONGEST_SHEET: usize = 1_048_576;

/// The sheet that these bytes stand for, or their first fault.
///
/// Memory that is refused is answered as such, in place of either; but of too many bytes none is
/// asked for.
pub fn read_sheet(alloc: Global, bytes: &[u8]) -> Result<Sheet, SheetFault>
    ensures sheet { IfOk result (λ sheet. IsSheetText bytes.now sheet) }
    ensures fault { IfErr result (λ fault. IsSheetFaultOrMemory bytes.now fault) }

    // Bytes that stand for a sheet, and bytes with a fault, get no other answer but out of memory.
    ensures stands { (sheet : SheetValue) → IsSheetText bytes.now sheet → (result ≡ Ok sheet)
        ⊎ (result ≡ Err Memory) }
    ensures refused { (fault : SheetFault) → IsSheetFault bytes.now fault → (result ≡ Err fault)
        ⊎ (result ≡ Err Memory) }

    // That bytes are too many is seen before any memory is taken.
    ensures too_long { LONGEST_SHEET < length bytes.now → result ≡ Err TooLong }
{
    if bytes.len() > LONGEST_SHEET {
        return Err(SheetFault::TooLong);
    }
    read_rows(alloc, bytes)
}

/// The sheet of bytes that are not too many, or the fault of their rows.
fn read_rows(alloc: Global, bytes: &[u8]) -> Result<Sheet, SheetFault>
    requires { length bytes.now ≤ LONGEST_SHEET }
    ensures sheet { IfOk result (λ sheet. IsSheetText bytes.now sheet) }
    ensures fault { IfErr result (λ fault. IsSheetFaultOrMemory bytes.now fault) }
{
    let mut reader = ReaderBuilder::new()
        .has_headers(false)
        .flexible(true)
        .from_reader(alloc, bytes);
    let mut draft = Draft::new(alloc);
    let mut row = ByteRecord::new(alloc);
    'rows: loop {
        let found = match reader.read_byte_record(&mut row) {
            Ok(found) => found,
            Err(error) => return Err(out_of_memory(&error)),
        };
        let number = draft.taken() + 1;
        if !found {
            match draft.finish() {
                Some(sheet) => return Ok(sheet),
                None => return Err(SheetFault::Row(number, RowKind::Unfinished)),
            }
        }
        match draft.take_row(&row) {
            Ok(()) => {}
            Err(Refusal::Fault(kind)) => return Err(SheetFault::Row(number, kind)),
            Err(Refusal::Memory) => return Err(SheetFault::Memory),
        }
    }
}

/// What an error of `csv` comes to where rows are read as bytes and may be of any length: out of
/// memory. No other comes there but one of the input. Bytes in memory have none, and `csv` leaves
/// it open over any reader.
fn out_of_memory(_error: &csv::Error) -> SheetFault
    requires { IsMemoryOrInput (error_kind _error.now) }
    ensures { result ≡ Memory }
{
    SheetFault::Memory
}
