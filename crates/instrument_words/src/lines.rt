//! The lines of what was recorded.

ghost use Rattle.std.specs.Prelude.{◌≡◌, ◌++◌, OnOk};
ghost use Rattle.instrument_words.specs.Instrument.{contents_value, instrument_value, told_value};
ghost use Rattle.instrument_words.specs.Texts as spec;
ghost use Rattle.report_phrases.specs.Phrases.{said};

use crate::contents::Contents;
use crate::instrument::Instrument;
use report_phrases::{Language, Phrase};
use std::alloc::AllocError;

/// Adds what is told: the first content, and, if asked `to_last`, the last where it is another;
/// else whether there are others.
fn push_contents(
    text: &mut Vec<u8>,
    language: Language,
    told: Contents<'_>,
    to_last: bool,
) -> Result<(), AllocError>
    ensures { OnOk result (text.new.items
        ≡ text.old.items ++ spec.contents_text to_last language (contents_value told.entry)) }
{
    text.extend_from_slice(told.first)?;
    if to_last && told.first != told.last {
        text.extend_from_slice(Phrase::ToLast.said(language))?;
        text.extend_from_slice(told.last)?;
    } else if told.varies {
        text.extend_from_slice(Phrase::AndOthers.said(language))?;
    }
    Ok(())
}

/// Adds the line of what is told of one index, if something is.
fn push_line(
    text: &mut Vec<u8>,
    language: Language,
    label: Phrase,
    told: Option<Contents<'_>>,
    to_last: bool,
) -> Result<(), AllocError>
    ensures { OnOk result (text.new.items ≡ text.old.items ++ spec.line_text
        (said language label) (spec.contents_text to_last language) (told_value told.entry)) }
{
    let Some(told) = told else {
        return Ok(());
    };
    text.extend_from_slice(label.said(language))?;
    push_contents(text, language, told, to_last)?;
    text.push(b'\n')?;
    Ok(())
}

/// Adds the lines, in a language, of what a field file recorded of instrument and time: of the
/// instrument the first, of date and time the first to the last.
///
/// The only error is that memory was refused.
pub fn push_instrument(
    text: &mut Vec<u8>,
    language: Language,
    told: &Instrument<'_>,
) -> Result<(), AllocError>
    ensures { OnOk result (text.new.items
        ≡ text.old.items ++ spec.instrument_text language (instrument_value told.now)) }
{
    let (number, kind) = (told.serial_number, told.instrument_type);
    push_line(text, language, Phrase::SerialNumber, number, false)?;
    push_line(text, language, Phrase::InstrumentType, kind, false)?;
    push_line(text, language, Phrase::RecordedDate, told.date, true)?;
    let (one, two) = (told.time_format_1, told.time_format_2);
    push_line(text, language, Phrase::TimeFormatOne, one, true)?;
    push_line(text, language, Phrase::TimeFormatTwo, two, true)?;
    Ok(())
}
