//! Laws of the definitions that contracts cite. The function does nothing.

ghost use Rattle.std.specs.Prelude.{◌≡◌};
ghost use Rattle.instrument_words.specs.declared.below.TheConstants.{FORM_FEED, LINES_ABOVE};
ghost use Rattle.instrument_words.specs.declared.below.TheConstants.{LINE_FEED};
ghost use Rattle.instrument_words.specs.declared.instrument.TheConstants.{DATE, INSTRUMENT_TYPE};
ghost use Rattle.instrument_words.specs.declared.instrument.TheConstants.{SERIAL_NUMBER};
ghost use Rattle.instrument_words.specs.declared.instrument.TheConstants.{TIME_FORMAT_1};
ghost use Rattle.instrument_words.specs.declared.instrument.TheConstants.{TIME_FORMAT_2};

/// What definitions cite, in digits: the indices of the words (GSI manual), the lines of a page down
/// to that of its field file, and the bytes that end a line and begin a page.
pub fn limits()
    ensures serial_number { SERIAL_NUMBER ≡ 12 }
    ensures instrument_type { INSTRUMENT_TYPE ≡ 13 }
    ensures date { DATE ≡ 17 }
    ensures time_format_1 { TIME_FORMAT_1 ≡ 18 }
    ensures time_format_2 { TIME_FORMAT_2 ≡ 19 }
    ensures lines_above { LINES_ABOVE ≡ 3 }
    ensures line_feed { LINE_FEED ≡ 10 }
    ensures form_feed { FORM_FEED ≡ 12 }
{}
