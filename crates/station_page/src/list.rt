//! The list of the stations of a whole field file, and the same as rows, for a page.
//!
//! The limits of 2c and 2i are in units of 0.00001 gon, at most 1,000,000. Each call answers 0 for
//! its text, 1 for a refusal, whose line is handed out, 2 for a number out of its range, and 3 where
//! `out` has too little room.

ghost use Rattle.std.specs.Prelude.{◌≡◌, ◌≢◌, [], Err, IfOk, Some};
ghost use Rattle.gsi_file.specs.FileAnswers.{file_answers};
ghost use Rattle.station_check.specs.Came.{source_of};
ghost use Rattle.station_check.specs.Listing.{WritesList};
ghost use Rattle.station_check.specs.declared.fault.Fault.TheVariants.{Write};
ghost use Rattle.station_page.specs.Answers.{IsListOf, IsListRowsOf};
ghost use Rattle.station_page.specs.HandedOut.{ShowsInRange};
ghost use Rattle.station_page.specs.Limits.{AreFaceLimits};
ghost use Rattle.station_page.specs.Listed.{TellsListed, listed_text};
ghost use Rattle.station_page.specs.Texts.{bytes_in, text_of};

use crate::hand_out::{OUT_OF_RANGE, hand_out_answer, hand_out_text};
use crate::text::Text;
use list_rows::text_of;
use row_forms::RowForm;
use station_answers::push_part;
use station_book::Limits;
use station_check::{Fault, noted_stations_of_file, source_of, write_list};
use station_report::push_count;
use std::alloc::{AllocError, Global};

/// Hands out the list of the stations.
#[unsafe(no_mangle)]
pub extern "C" fn station_page_list(
    alloc: Global,
    gsi: &[u8],
    two_c: u32,
    two_i: u32,
    out: &mut [u8],
    written: &mut usize,
) -> u8
    ensures { ShowsInRange (AreFaceLimits two_c two_i) (IsListOf two_c two_i gsi.now) out.old
        out.new written.new result }
{
    *written = 0;
    let Some(limits) = Limits::new(two_c, two_i) else {
        return OUT_OF_RANGE;
    };
    let (answer, text) = list_of(alloc, gsi, limits);
    hand_out_answer(&answer, text.bytes(), out, written)
}

/// The list of a field file's stations.
fn list_of(alloc: Global, gsi: &[u8], limits: Limits) -> (Result<(), Fault>, Text)
    ensures writes { WritesList limits (file_answers (source_of gsi.now)) result.0
        (Some []) (Some (text_of result.1)) }
    ensures unfailed { result.0 ≢ Err Write }
{
    let mut text = Text::new(alloc);
    match write_list(alloc, source_of(gsi), limits, &mut text) {
        // A text in memory can't be written where there is no memory for it.
        Err(Fault::Write) => (Err(Fault::Memory), text),
        answer => (answer, text),
    }
}

/// Hands out the stations as rows, and how many readings of the file went unchecked, since none of
/// them stands in a set: each after a line of its title and of how many bytes it has.
#[unsafe(no_mangle)]
pub extern "C" fn station_page_list_rows(
    alloc: Global,
    gsi: &[u8],
    two_c: u32,
    two_i: u32,
    out: &mut [u8],
    written: &mut usize,
) -> u8
    ensures { ShowsInRange (AreFaceLimits two_c two_i) (IsListRowsOf two_c two_i gsi.now) out.old
        out.new written.new result }
{
    *written = 0;
    let Some(limits) = Limits::new(two_c, two_i) else {
        return OUT_OF_RANGE;
    };
    hand_out_text(&rows_of(alloc, gsi, limits), out, written)
}

/// The rows of a field file's stations, and how many of its readings went unchecked, in one text.
fn rows_of(alloc: Global, gsi: &[u8], limits: Limits) -> Result<Vec<u8>, Fault>
    ensures { TellsListed limits (file_answers (source_of gsi.now)) (bytes_in result) }
{
    let (noted, _gsi) = noted_stations_of_file(alloc, source_of(gsi), limits);
    let (stations, unchecked) = noted?;
    let Ok(rows) = text_of(alloc, &stations, RowForm::Commas) else {
        return Err(Fault::Memory);
    };
    let Ok(text) = joined(alloc, &rows, unchecked) else {
        return Err(Fault::Memory);
    };
    Ok(text)
}

/// Rows and the number of readings that went unchecked, in one text.
fn joined(alloc: Global, rows: &[u8], unchecked: u32) -> Result<Vec<u8>, AllocError>
    ensures { IfOk result (λ text. text.items ≡ listed_text rows.now unchecked) }
{
    let mut count = Vec::new(alloc);
    push_count(&mut count, unchecked as usize)?;
    count.push(b'\n')?;
    let mut text = Vec::new(alloc);
    push_part(&mut text, b"rows", rows)?;
    push_part(&mut text, b"unchecked", &count)?;
    Ok(text)
}
