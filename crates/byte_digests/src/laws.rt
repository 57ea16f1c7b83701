//! Laws of the definitions that contracts cite. The functions do nothing.

ghost use Rattle.std.specs.Prelude.{◌≡◌, ◌∷◌, ◌++◌, [], codes};
ghost use Rattle.byte_digests.specs.NameTexts.{name_text};
ghost use Rattle.byte_digests.specs.declared.digest_line.TheConstants.{BLANK, LINE_FEED};

/// Examples of names in a text: one that stands for itself, one with each of the bytes that are
/// escaped, and two with a control byte; and the bytes after the digits and at the end of a line.
pub fn lines()
    ensures plain { name_text (codes "p7.csv") ≡ codes "p7.csv" }
    ensures backslash { name_text (codes "p\\7") ≡ codes "\\p\\\\7" }
    ensures line_feed { name_text (codes "p\n7") ≡ codes "\\p\\n7" }
    ensures carriage_return { name_text (codes "p\r7") ≡ codes "\\p\\r7" }
    ensures escape { name_text (27 ∷ codes "[2J") ≡ codes "\\\\x1b[2J" }
    ensures delete { name_text (codes "p" ++ (127 ∷ [])) ≡ codes "\\p\\x7f" }
    ensures blanks { BLANK ∷ BLANK ∷ [] ≡ codes "  " }
    ensures end { LINE_FEED ∷ [] ≡ codes "\n" }
{}
