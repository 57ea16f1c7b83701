//! Laws of the division of a station's readings into sets. The functions do nothing.

ghost use Rattle.std.specs.Prelude.{◌≡◌, ◌≤◌, List, length};
ghost use Rattle.set_marks.specs.declared.division.Divided.TheVariants.{Sets};
ghost use Rattle.set_marks.specs.declared.sight.Sight.{Sight};
ghost use Rattle.set_marks.specs.declared.span.Span.{Span};
ghost use Rattle.job_statements.specs.declared.stated.Numbers.{Numbers};
ghost use Rattle.set_marks.specs.Divisions.{starts_of, in_span, is_read_in_two};
ghost use Rattle.set_marks.specs.Ways.{divided};
ghost use Rattle.set_marks.specs.BeginsAndEnds.{was_read, EndsLastSet};
ghost use Rattle.set_marks.specs.BeforeAndAfter.{StandsBetween};
ghost use Rattle.set_marks.specs.Fewest.{IsOnlyWay};
ghost use Rattle.set_marks.specs.SetsInWords.{AreSets};

/// Where sets are recognized, each reads each of its targets once in each face, and one after
/// another they are the readings between the leading ones and those after the sets.
pub fn sets_in_words()
    ensures { (stated : Numbers) (rs : List Sight) (span : Span)
        → divided stated rs ≡ Sets span → AreSets rs span }
{}

/// The last of several sets ends with a reading of a target that a set before it has, a single set
/// with one of a target that is read in face II. After it no such target is read until the checks
/// begin: check sights in face I, before which both faces are read alike often, or, after sets by
/// faces, the opening target in both faces.
pub fn last_set_ends()
    ensures several { (stated : Numbers) (rs : List Sight) (span : Span)
        → divided stated rs ≡ Sets span → 2 ≤ length (starts_of (in_span span rs))
        → EndsLastSet (was_read (in_span span rs)) span rs }
    ensures single { (stated : Numbers) (rs : List Sight) (span : Span)
        → divided stated rs ≡ Sets span → length (starts_of (in_span span rs)) ≡ 1
        → EndsLastSet (is_read_in_two rs) span rs }
{}

/// Few readings lead, or such as show that they are none of the sets; all sets are read alike, and
/// no detail stands among them.
pub fn before_and_after()
    ensures { (stated : Numbers) (rs : List Sight) (span : Span)
        → divided stated rs ≡ Sets span → StandsBetween rs span }
{}

/// The sets are those of one ending, after the fewest leading readings with which it gives sets; no
/// other ending gives any.
pub fn only_way()
    ensures { (stated : Numbers) (rs : List Sight) (span : Span)
        → divided stated rs ≡ Sets span → IsOnlyWay rs span }
{}

/// A number that is stated refuses sets, and never changes where they stand.
pub fn numbers_refuse()
    ensures { (stated other : Numbers) (rs : List Sight) (here there : Span)
        → divided stated rs ≡ Sets here → divided other rs ≡ Sets there → here ≡ there }
{}
