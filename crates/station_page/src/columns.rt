//! The two columns of a table by their titles, for a page.

ghost use Rattle.std.specs.Prelude.{◌≡◌, ◌<◌, IfOk, Err, length};
ghost use Rattle.direction_table.specs.declared.reading.TheConstants.{LONGEST_TABLE};
ghost use Rattle.station_page.specs.Answers.{IsColumnsOf};
ghost use Rattle.station_page.specs.HandedOut.{Shows};
ghost use Rattle.station_page.specs.Texts.{bytes_in};
ghost use Rattle.station_page.specs.Titled as spec;
ghost use Rattle.station_page.specs.Titled.{TellsColumns};
ghost use Rattle.table_titles.specs.declared.fault.TitlesFault.TheVariants.{TooLong};

use crate::hand_out::hand_out_text;
use direction_table::ColumnPair;
use station_report::push_count;
use std::alloc::{AllocError, Global};
use table_titles::{Titles, TitlesFault, columns_by_titles};

/// Hands out by which columns a whole table with these titles of targets and of directions is to be
/// read: their numbers, counted from 1, with a comma between; or the line of the refusal.
///
/// Titles are compared as they stand, capitals too. A number above 999,999, which no other call
/// takes, is handed out too. Answers 0 for the columns, 1 for a refusal, and 3 where `out` has too
/// little room.
#[unsafe(no_mangle)]
pub extern "C" fn station_page_columns(
    alloc: Global,
    table: &[u8],
    targets: &[u8],
    directions: &[u8],
    out: &mut [u8],
    written: &mut usize,
) -> u8
    ensures { Shows (IsColumnsOf targets.now directions.now table.now) out.old out.new written.new
        result }
{
    let titles = Titles {
        targets,
        directions,
    };
    hand_out_text(&columns_text(alloc, table, titles), out, written)
}

/// The columns of a table with these titles, as a text.
fn columns_text(alloc: Global, table: &[u8], titles: Titles<'_>) -> Result<Vec<u8>, TitlesFault>
    ensures tells { TellsColumns titles.entry.targets.now titles.entry.directions.now table.now
        (bytes_in result) }
    ensures too_long { LONGEST_TABLE < length table.now → bytes_in result ≡ Err TooLong }
{
    let pair = columns_by_titles(alloc, titles, table)?;
    Ok(pair_text(alloc, pair)?)
}

/// Two columns as a text.
fn pair_text(alloc: Global, pair: ColumnPair) -> Result<Vec<u8>, AllocError>
    ensures { IfOk result (λ text. text.items ≡ spec.pair_text pair) }
{
    let mut text = Vec::new(alloc);
    push_count(&mut text, pair.names as usize + 1)?;
    text.push(b',')?;
    push_count(&mut text, pair.directions as usize + 1)?;
    Ok(text)
}
