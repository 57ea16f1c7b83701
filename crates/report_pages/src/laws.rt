//! Laws of pages. The functions do nothing.

ghost use Rattle.std.specs.Prelude.{◌≡◌, ◌≤◌, ◌+◌, ◌++◌, ℕ, Bool, List, [], length};
ghost use Rattle.std.specs.Prelude.{◌==◌};
ghost use Rattle.std.specs.List.{All, flat_map, join_with_byte, slice_split};
ghost use Rattle.report_pages.specs.Lines.{lines};
ghost use Rattle.report_pages.specs.Pages.{head, pages_of, repeated, report_on_pages};
ghost use Rattle.report_pages.specs.declared.head.TheConstants.{LINES_OF_HEAD};
ghost use Rattle.report_pages.specs.declared.lines.TheConstants.{BLANK, LINE_FEED};
ghost use Rattle.report_pages.specs.declared.pages.TheConstants.{FORM_FEED, LINES_OF_PAGE};
ghost use Rattle.report_pages.specs.declared.pages.TheConstants.{LINES_OF_COLUMNS};
ghost use Rattle.report_pages.specs.declared.pages.TheConstants.{LINES_OF_SECTION};

/// What definitions cite, in digits.
pub fn limits()
    ensures page { LINES_OF_PAGE ≡ 60 }
    ensures section { LINES_OF_SECTION ≡ 8 }
    ensures columns { LINES_OF_COLUMNS ≡ 3 }
    ensures head { LINES_OF_HEAD ≡ 9 }
    ensures form_feed { FORM_FEED ≡ 12 }
    ensures line_feed { LINE_FEED ≡ 10 }
    ensures blank { BLANK ≡ 32 }
{}

/// Nothing is lost and nothing else comes in: the reports of a text, with form feeds between them,
/// are the text; and the pages of a report, one after the other, have its lines.
pub fn whole()
    ensures text { (text : List ℕ)
        → join_with_byte FORM_FEED (slice_split (λ byte. byte == FORM_FEED) text) ≡ text }
    ensures report { (label : List ℕ) (report : List (List ℕ))
        → (pages_of label report).first ++ flat_map (λ page. page) (pages_of label report).further
        ≡ report }
{}

/// No page has more than 60 lines, with those that it repeats.
pub fn fits()
    ensures first { (label : List ℕ) (report : List (List ℕ))
        → length (pages_of label report).first ≤ LINES_OF_PAGE }
    ensures further { (label : List ℕ) (report : List (List ℕ)) → All (λ page.
        length (repeated (head label report)) + length page ≤ LINES_OF_PAGE)
        (pages_of label report).further }
{}

/// A report of at most 60 lines stays as it is.
pub fn unchanged()
    ensures { (label report : List ℕ) → length (lines report) ≤ LINES_OF_PAGE
        → report_on_pages label report ≡ report }
{}
