//! Lines of a report, one after the other.
ghost use Rattle.std.specs.Prelude.{◌≡◌, ◌<◌, ◌++◌, ℕ, List, OnOk};
ghost use Rattle.station_report.specs.Columns.{each_place};

use std::alloc::AllocError;

/// Texts of which each place has one, as the lines of a station's targets, or the columns of its
/// sets.
pub(crate) trait Lines {
    // How many places there are.
    ghost places: { Self → ℕ };

    // The text of a place.
    ghost line: { Self → ℕ → List ℕ };

    /// How many places there are.
    fn count(&self) -> usize
        ensures { result ≡ places self.now };

    /// Adds the text of a place. What stands in a column is made in the field first.
    fn add(&self, text: &mut Vec<u8>, field: &mut Vec<u8>, place: usize) -> Result<(), AllocError>
        requires { place < places self.now }
        ensures { OnOk result (text.new.items ≡ text.old.items ++ line self.now place) };
}

/// Adds the texts of all places, in their order.
pub(crate) fn push_lines<L: Lines>(
    text: &mut Vec<u8>,
    field: &mut Vec<u8>,
    lines: &L,
) -> Result<(), AllocError>
    ensures { OnOk result (text.new.items
        ≡ text.old.items ++ each_place (L.places lines.now) (L.line lines.now)) }
{
    for place in 0..lines.count() {
        lines.add(text, field, place)?;
    }
    Ok(())
}
