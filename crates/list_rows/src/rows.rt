//! The rows of a field file's stations, written.
ghost use Rattle.byte_ends.specs.Writers.{writer_change};
ghost use Rattle.byte_ends.specs.Source.{UntilDropped};
ghost use Rattle.list_rows.specs.Runs.{IsRowsRun};

use crate::text::text_of;
use byte_ends::{Sink, Source};
use row_forms::RowForm;
use station_book::Limits;
use station_check::{Fault, noted_stations_of_file, write_whole};
use std::alloc::Global;

/// Writes the rows of a field file's stations in a form, and flushes once; and answers how many
/// readings went unchecked, for they stand in no set.
///
/// # Errors
///
/// The first fault of the file or of its blocks; `Write` where a call of the writer failed;
/// `Memory`. At any other than `Write` nothing was asked of the writer.
pub fn write_rows<R: Source, W: Sink>(
    alloc: Global,
    gsi: R,
    limits: Limits,
    form: RowForm,
    writer: &mut W,
) -> Result<u32, Fault>
    ensures { UntilDropped R.told R.failed R.gave gsi (λ gsi. IsRowsRun form limits gsi result
        (writer_change W.Sink writer.old writer.new)) }
{
    let (noted, _gsi) = noted_stations_of_file(alloc, gsi, limits);
    let (stations, unchecked) = noted?;
    let Ok(text) = text_of(alloc, &stations, form) else {
        return Err(Fault::Memory);
    };
    write_whole(writer, &text)?;
    Ok(unchecked)
}
