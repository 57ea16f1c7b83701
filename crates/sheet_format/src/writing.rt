//! A sheet as bytes, to any sink.

ghost use Rattle.std.specs.Prelude.{◌≡◌, true, Err, OnOk};
ghost use Rattle.std.specs.Io.KnownBytes.{Appends};
ghost use Rattle.byte_ends.specs.Sink.{AppendsSome};
ghost use Rattle.sheet_format.specs.Rows.{IsSheetText};
ghost use Rattle.sheet_format.specs.Texts as spec;
ghost use Rattle.sheet_format.specs.declared.fault.WriteFault.TheVariants as fault;

use crate::fault::WriteFault;
use crate::text::sheet_text;
use adjust_kernel::Sheet;
use byte_ends::Sink;
use std::alloc::Global;

/// Writes the text of a sheet, and flushes once.
///
/// The text is made in memory first, so that a refusal of memory comes before anything is written.
pub fn write_sheet<W: Sink>(alloc: Global, sheet: &Sheet, writer: &mut W) -> Result<(), WriteFault>
    // The text stands for the sheet.
    ensures stands { IsSheetText (spec.sheet_text sheet.now) sheet.now }
    ensures written { OnOk result
        (Appends (W.holds writer.old) (W.holds writer.new) (spec.sheet_text sheet.now)) }
    ensures unfailed { OnOk result (W.failed writer.new ≡ W.failed writer.old) }
    ensures flushed { OnOk result (W.flushed writer.new ≡ true) }

    // Without memory nothing was asked of the writer; when it fails, what it took is the beginning
    // of the text.
    ensures untouched { result ≡ Err fault.Memory → writer.new ≡ writer.old }
    ensures begun { result ≡ Err fault.Write
        → AppendsSome (W.holds writer.old) (W.holds writer.new) (spec.sheet_text sheet.now) }
    ensures failed { result ≡ Err fault.Write → W.failed writer.new ≡ true }
{
    let text = sheet_text(alloc, sheet)?;
    writer.write_all(&text)?;
    writer.flush()?;
    Ok(())
}
