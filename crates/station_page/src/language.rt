//! The language of a text, as a number states it.

ghost use Rattle.std.specs.Prelude.{SomeIff};
ghost use Rattle.station_page.specs.Languages.{IsLanguage, stated_language};

use report_phrases::Language;

/// The largest number of a language.
pub const LARGEST_LANGUAGE: u32 = 2;

/// The language of a number: 0 for English, 1 for German and 2 for French.
pub(crate) fn language_of(number: u32) -> Option<Language>
    ensures { SomeIff result (IsLanguage number) (stated_language number) }
{
    match number {
        0 => Some(Language::English),
        1 => Some(Language::German),
        LARGEST_LANGUAGE => Some(Language::French),
        _ => None,
    }
}
