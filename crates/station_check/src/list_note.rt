//! What is told after a list that is empty though there are readings.

ghost use Rattle.std.specs.Prelude.{◌≡◌, ◌≤◌, length};
ghost use Rattle.station_check.specs.ListNotes as spec;

use crate::verdict_line::{VerdictLine, add, add_numbered};

/// The line that tells how many readings went unchecked.
pub fn unchecked_line(count: u32) -> VerdictLine
    ensures { result.items ≡ spec.unchecked_line count }
{
    let mut line = VerdictLine::new();
    add_numbered(&mut line, b"note: nothing was checked: ", count);
    add(&mut line, standing(count));
    add(
        &mut line,
        b" in no set; station_check mark puts codes into a copy\n",
    );
    line
}

/// That so many readings stand: one stands.
fn standing(count: u32) -> &'static [u8]
    ensures text { result.now ≡ spec.standing count }
    ensures short { length result.now ≤ 15 }
{
    if count == 1 {
        b" reading stands"
    } else {
        b" readings stand"
    }
}
