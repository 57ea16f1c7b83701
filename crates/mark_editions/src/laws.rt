//! The law of the editions. The function does nothing.

ghost use Rattle.std.specs.Prelude.{◌≡◌, List};
ghost use Rattle.set_marks.specs.declared.division.Divided.TheVariants.{NoSets, Sets};
ghost use Rattle.set_marks.specs.declared.sight.Sight.{Sight};
ghost use Rattle.set_marks.specs.declared.span.Span.{Span};
ghost use Rattle.job_statements.specs.declared.stated.Numbers.{Numbers};
ghost use Rattle.set_marks.specs.Ways.{divided};
ghost use Rattle.mark_editions.specs.FirstEdition.{first_divided};

/// Where the first edition marks the sets of a station, the second, whatever is stated, marks these
/// readings or none: it divides them the same, or says what is wrong, and never that there are no
/// sets.
pub fn second_edition_keeps_sets()
    ensures same { (stated : Numbers) (rs : List Sight) (here there : Span)
        → first_divided rs ≡ Sets here → divided stated rs ≡ Sets there → there ≡ here }
    ensures some { (stated : Numbers) (rs : List Sight) (here : Span)
        → first_divided rs ≡ Sets here → ¬ (divided stated rs ≡ NoSets) }
{}
