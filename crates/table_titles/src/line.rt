//! The line of a refusal for the titles of a table.

ghost use Rattle.std.specs.Prelude.{◌≡◌};
ghost use Rattle.table_titles.specs.FaultTexts as spec;

use crate::fault::TitlesFault;
use crate::titles::TitleOf;

/// The line of a refusal for the titles of a table, with its line feed: the title of targets is the
/// first, that of directions the second.
pub fn titles_line(fault: TitlesFault) -> &'static str
    ensures { result.now ≡ spec.titles_line fault }
{
    match fault {
        TitlesFault::Read => "refused: table: Read\n",
        TitlesFault::TooLong => "refused: table: TooLong\n",
        TitlesFault::NoTitle(TitleOf::Targets) => "refused: table: NoTitle 1\n",
        TitlesFault::NoTitle(TitleOf::Directions) => "refused: table: NoTitle 2\n",
        TitlesFault::TwiceTitled(TitleOf::Targets) => "refused: table: TwiceTitled 1\n",
        TitlesFault::TwiceTitled(TitleOf::Directions) => "refused: table: TwiceTitled 2\n",
        TitlesFault::SameTitle => "refused: table: SameTitle\n",
        TitlesFault::Memory => "refused: out of memory\n",
    }
}
