//! The section of a table, made in memory.
ghost use Rattle.std.specs.Prelude.{◌≡◌, ◌++◌, IfOk, OnOk};
ghost use Rattle.table_report.specs.Sections as spec;

use adjust_kernel::{LONGEST_NAME, Station};
use angle_texts::{push_mgon, push_thousandths};
use report_phrases::{Language, Phrase};
use station_compare::{HowFar, targets_word};
use station_differences::{TargetDifference, are_short, median_of, push_from_median, push_stated};
use station_report::{push_count, push_file, push_label, push_left, push_phrase, push_right};
use std::alloc::{AllocError, Global};

/// The section in a language of a table of this path, whose directions are so far apart from those
/// of a station.
///
/// The only error is that memory was refused.
pub(crate) fn section_text(
    alloc: Global,
    language: Language,
    path: &[u8],
    station: &Station,
    rows: &[TargetDifference],
    how_far: HowFar,
) -> Result<Vec<u8>, AllocError>
    ensures { IfOk result (λ text. text.items
        ≡ spec.section_text language path.now station.now rows.now how_far) }
{
    let mut text = Vec::new(alloc);
    push_phrase(&mut text, language, Phrase::StatedDirections)?;
    push_phrase(&mut text, language, Phrase::StatedColumns)?;
    push_targets(alloc, &mut text, rows)?;
    push_end(&mut text, language, path, station, how_far)?;
    Ok(text)
}

/// Adds the lines of all targets.
fn push_targets(
    alloc: Global,
    text: &mut Vec<u8>,
    rows: &[TargetDifference],
) -> Result<(), AllocError>
    ensures { OnOk result (text.new.items ≡ text.old.items ++ spec.target_lines rows.now) }
{
    let short = are_short(rows);
    let median = median_of(rows);
    let mut field = Vec::new(alloc);
    for row in rows {
        push_target(text, &mut field, short, median, row)?;
    }
    Ok(())
}

/// Adds the line of a target. Six decimals write its direction exactly, where it is short.
fn push_target(
    text: &mut Vec<u8>,
    field: &mut Vec<u8>,
    short: bool,
    median: i32,
    row: &TargetDifference,
) -> Result<(), AllocError>
    ensures { OnOk result
        (text.new.items ≡ text.old.items ++ spec.target_line short median row.now) }
{
    text.extend_from_slice(b"  ")?;
    push_left(text, LONGEST_NAME, row.target.bytes())?;
    field.clear();
    push_stated(field, short, row.stated)?;
    push_right(text, 18, field)?;
    field.clear();
    push_mgon(field, row.difference)?;
    push_right(text, 14, field)?;
    field.clear();
    push_from_median(field, row.difference, median)?;
    push_right(text, 19, field)?;
    text.push(b'\n')?;
    Ok(())
}

/// Adds the path of the table, the limit and the verdict.
fn push_end(
    text: &mut Vec<u8>,
    language: Language,
    path: &[u8],
    station: &Station,
    how_far: HowFar,
) -> Result<(), AllocError>
    ensures { OnOk result (text.new.items ≡ text.old.items
        ++ spec.verdict_text language path.now station.now how_far) }
{
    text.push(b'\n')?;
    push_file(text, language, Phrase::Table, path)?;
    push_limit(text, language, how_far.limit)?;
    push_label(text, Phrase::Comparison.said(language))?;
    push_verdict(text, station, how_far)?;
    Ok(())
}

/// Adds the line of the limit.
fn push_limit(text: &mut Vec<u8>, language: Language, limit: u32) -> Result<(), AllocError>
    ensures { OnOk result
        (text.new.items ≡ text.old.items ++ spec.limit_text language limit) }
{
    push_label(text, Phrase::LimitOfDifferences.said(language))?;
    push_thousandths(text, limit)?;
    text.extend_from_slice(b" mgon\n")?;
    Ok(())
}

/// Adds the line of the verdict.
fn push_verdict(text: &mut Vec<u8>, station: &Station, how_far: HowFar) -> Result<(), AllocError>
    ensures { OnOk result
        (text.new.items ≡ text.old.items ++ spec.verdict_line station.now how_far) }
{
    if how_far.apart <= how_far.limit {
        return push_found(text, b"agrees: ", b", within ", station, how_far.apart);
    }
    push_found(text, b"apart: ", b", by ", station, how_far.apart)
}

/// Adds a verdict: of how many targets, and how far they are apart, each after words of its own.
fn push_found(
    text: &mut Vec<u8>,
    verdict: &[u8],
    words: &[u8],
    station: &Station,
    apart: u32,
) -> Result<(), AllocError>
    ensures { OnOk result (text.new.items ≡ text.old.items
        ++ spec.found_line verdict.now words.now station.now apart) }
{
    let count = station.targets().len();
    text.extend_from_slice(verdict)?;
    push_count(text, count)?;
    text.extend_from_slice(targets_word(count))?;
    text.extend_from_slice(words)?;
    push_thousandths(text, apart)?;
    text.extend_from_slice(b" mgon\n")?;
    Ok(())
}
