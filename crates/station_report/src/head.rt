//! The head of a report.
ghost use Rattle.std.specs.Prelude.{◌≡◌, ◌≤◌, ◌++◌, OnOk, OnErr, codes, decimal, pos};
ghost use Rattle.angle_texts.specs.MgonTexts.{short_mgon_text};
ghost use Rattle.direction_table.specs.Beginnings.{IsBegun};
ghost use Rattle.station_book.specs.declared.limits.TheConstants.{LARGEST_LIMIT};
ghost use Rattle.report_phrases.specs.Phrases.{said};
ghost use Rattle.report_phrases.specs.declared.phrase.Phrase.TheVariants as phrase;
ghost use Rattle.station_report.specs.NoteTexts.{head_of};
ghost use Rattle.station_report.specs.ReportTexts as spec;

use crate::columns::push_count;
use crate::gaps::push_gaps;
use crate::labels::{push_label, push_phrase};
use crate::notes::{language_of, push_notes};
use adjust_kernel::{HALF_UNIT, ResidualLimit, Station, UNIT};
use angle_texts::{push_short_mgon, push_thousandths};
use byte_digests::push_name;
use report_notes::Notes;
use report_phrases::{Language, Phrase};
use station_book::{LARGEST_LIMIT, ResultLimits};
use station_check::VERSION;
use std::alloc::{AllocError, Global};

/// What stands in the head of a report that is not of the station, and how the report ends.
#[derive(Clone, Copy, Debug, Drop)]
pub struct Head<'a, 'n> {
    /// The path of the field file, as the head names it.
    pub path: &'a [u8],
    /// What the report was told to note, where it was told to note something.
    pub notes: Option<&'a Notes<'n>>,
}

impl Head<'_, '_> {
    /// The language of the report.
    pub fn language(self) -> Language
        ensures { result ≡ (head_of self.entry).notes.language }
    {
        language_of(self.notes)
    }
}

/// Units of 0.001 mgon in a half unit (0.005 mgon).
const UNITS: u32 = (HALF_UNIT / UNIT) as u32;

/// Adds a line that says what something is.
pub(crate) fn push_entry(
    text: &mut Vec<u8>,
    language: Language,
    label: Phrase,
    entry: &[u8],
) -> Result<(), AllocError>
    ensures { OnOk result
        (text.new.items ≡ text.old.items ++ spec.entry_text (said language label) entry.now) }
{
    push_label(text, label.said(language))?;
    text.extend_from_slice(entry)?;
    text.push(b'\n')?;
    Ok(())
}

/// Adds a line that says how many there are.
pub(crate) fn push_counted(
    text: &mut Vec<u8>,
    language: Language,
    label: Phrase,
    count: usize,
) -> Result<(), AllocError>
    ensures { OnOk result (text.new.items
        ≡ text.old.items ++ spec.entry_text (said language label) (decimal count)) }
{
    push_label(text, label.said(language))?;
    push_count(text, count)?;
    text.push(b'\n')?;
    Ok(())
}

/// Adds a line that says a limit of face differences, which is in units of 0.01 mgon.
fn push_limit(
    text: &mut Vec<u8>,
    language: Language,
    label: Phrase,
    limit: u32,
) -> Result<(), AllocError>
    requires { limit ≤ LARGEST_LIMIT }
    ensures { OnOk result (text.new.items ≡ text.old.items
        ++ spec.entry_text (said language label) (short_mgon_text (pos limit) ++ codes " mgon")) }
{
    push_label(text, label.said(language))?;
    push_short_mgon(text, limit as i32)?;
    text.extend_from_slice(b" mgon\n")?;
    Ok(())
}

/// Adds the line of the limit of residuals.
fn push_residual_limit(
    text: &mut Vec<u8>,
    language: Language,
    limit: ResidualLimit,
) -> Result<(), AllocError>
    ensures { OnOk result (text.new.items ≡ text.old.items
        ++ spec.entry_text (said language phrase.LimitOfResiduals)
        (spec.residual_limit_text limit)) }
{
    push_label(text, Phrase::LimitOfResiduals.said(language))?;
    push_thousandths(text, UNITS * limit.half_units())?;
    text.extend_from_slice(b" mgon\n")?;
    Ok(())
}

/// Adds a line that names a file.
///
/// The only error is that memory was refused; then a beginning of it may have been added.
#[tactic(auto, using(direction_table::proofs::Begun::of_first, direction_table::proofs::Begun::of_second))]
pub fn push_file(
    text: &mut Vec<u8>,
    language: Language,
    label: Phrase,
    path: &[u8],
) -> Result<(), AllocError>
    ensures added { OnOk result
        (text.new.items ≡ text.old.items ++ spec.file_text (said language label) path.now) }
    ensures begun { OnErr result
        (IsBegun (spec.file_text (said language label) path.now) text.old.items text.new.items) }
{
    push_label(text, label.said(language))?;
    push_name(text, path)?;
    text.push(b'\n')?;
    Ok(())
}

/// Adds the line of the program and its version, and an empty one.
fn push_title(text: &mut Vec<u8>, language: Language) -> Result<(), AllocError>
    ensures { OnOk result (text.new.items ≡ text.old.items ++ spec.title_text language) }
{
    text.extend_from_slice(b"station_check ")?;
    text.extend_from_slice(VERSION.as_bytes())?;
    push_phrase(text, language, Phrase::Title)?;
    Ok(())
}

/// Adds the lines of the program, the field file and the station.
fn push_named(
    text: &mut Vec<u8>,
    language: Language,
    path: &[u8],
    station: &Station,
) -> Result<(), AllocError>
    ensures { OnOk result
        (text.new.items ≡ text.old.items ++ spec.named_text language path.now station.now) }
{
    push_title(text, language)?;
    push_file(text, language, Phrase::FieldFile, path)?;
    push_entry(text, language, Phrase::Station, station.name().bytes())?;
    Ok(())
}

/// Adds the lines of how much was measured.
fn push_counts(text: &mut Vec<u8>, language: Language, station: &Station) -> Result<(), AllocError>
    ensures { OnOk result
        (text.new.items ≡ text.old.items ++ spec.counts_text language station.now) }
{
    push_counted(text, language, Phrase::Sets, station.sets().len())?;
    push_counted(text, language, Phrase::Targets, station.targets().len())?;
    push_counted(
        text,
        language,
        Phrase::TwoFaceDirections,
        station.obs().len(),
    )?;
    Ok(())
}

/// Adds the lines of the limits.
fn push_limits(
    text: &mut Vec<u8>,
    language: Language,
    limits: ResultLimits,
) -> Result<(), AllocError>
    ensures { OnOk result (text.new.items ≡ text.old.items ++ spec.limits_text language limits) }
{
    push_limit(text, language, Phrase::LimitOfTwoC, limits.faces.two_c())?;
    push_limit(text, language, Phrase::LimitOfTwoI, limits.faces.two_i())?;
    push_residual_limit(text, language, limits.residual)?;
    Ok(())
}

/// Adds the head of a report.
pub(crate) fn push_head(
    alloc: Global,
    text: &mut Vec<u8>,
    head: Head<'_, '_>,
    limits: ResultLimits,
    station: &Station,
) -> Result<(), AllocError>
    ensures { OnOk result
        (text.new.items ≡ text.old.items ++ spec.head_text (head_of head.entry) limits station.now) }
{
    let language = head.language();
    push_named(text, language, head.path, station)?;
    push_notes(alloc, text, head.notes)?;
    push_counts(text, language, station)?;
    push_gaps(alloc, text, language, station)?;
    push_limits(text, language, limits)?;
    Ok(())
}
