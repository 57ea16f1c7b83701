//! Several texts in one.
ghost use Rattle.std.specs.Prelude.{◌≡◌, ◌++◌, OnOk};
ghost use Rattle.station_answers.specs.Parts.{part_text};

use station_report::push_count;
use std::alloc::AllocError;

/// Adds a part to a text: a line of its title and of how many bytes it has, and the part itself.
///
/// The only error is that memory was refused; then some of it may have been added.
pub fn push_part(text: &mut Vec<u8>, title: &[u8], part: &[u8]) -> Result<(), AllocError>
    ensures { OnOk result (text.new.items ≡ text.old.items ++ part_text title.now part.now) }
{
    text.extend_from_slice(title)?;
    text.push(b' ')?;
    push_count(text, part.len())?;
    text.push(b'\n')?;
    text.extend_from_slice(part)?;
    Ok(())
}
