//! The search for the next numbered line, over what is in hand and what the reader gives.
//!
//! A byte that was found to be no end of its line is not looked at again after a read. A search
//! looks no further than one byte past the longest line, nor past what may still be taken of the
//! file, so at the same byte the file's limit comes first.

ghost use Rattle.std.specs.Prelude.{◌≡◌, ◌≤◌, ◌-◌, IfOk, IfSome, true, false};
ghost use Rattle.byte_ends.specs.Source.{Through, reader_change};
ghost use Rattle.gsi_file.specs.Failing.{failed_by};
ghost use Rattle.gsi_file.specs.Finding.{Finds, IsFound, IsOverAfter};

use crate::bounds::LONGEST_LINE;
use crate::buffer::Buffer;
use crate::file_fault::FileKind;
use crate::line_end::{FoundEnd, is_blank, line_end, next_line_start};
use byte_ends::Source;

/// A numbered line at the front of what is in hand.
#[derive(Clone, Copy)]
pub(crate) struct FoundLine {
    /// How many bytes it has.
    pub(crate) line_length: usize,
    /// How many bytes are used up with it: the byte that ends it, too, and a line feed after that.
    pub(crate) used: usize,
    /// How many bytes of the file may be taken after it.
    pub(crate) room: usize,
    /// Whether the source has ended with it.
    pub(crate) last: bool,
    /// Whether all its bytes were found to be printable.
    pub(crate) printable: bool,
}

/// A line that a byte has ended, where `left` bytes might be taken at its beginning.
fn ended(end: FoundEnd, used: usize, left: usize) -> FoundLine
    requires { used ≤ left }
    ensures { result ≡ record {
      line_length = end.place;
      used = used;
      room = left - used;
      last = false;
      printable = end.printable;
    } }
{
    FoundLine {
        line_length: end.place,
        used,
        room: left - used,
        last: false,
        printable: end.printable,
    }
}

/// A line that the source has ended with.
fn at_end(line_length: usize) -> FoundLine
    ensures { result ≡ record {
      line_length = line_length;
      used = line_length;
      room = 0;
      last = true;
      printable = false;
    } }
{
    FoundLine {
        line_length,
        used: line_length,
        room: 0,
        last: true,
        printable: false,
    }
}

/// Finds the next numbered line. Of the file `room` bytes may still be taken.
pub(crate) fn find_line<R: Source>(
    reader: &mut R,
    buffer: &mut Buffer,
    room: usize,
) -> Result<Option<FoundLine>, FileKind>
    ensures found { IfOk result (λ found. IfSome found (IsFound room buffer.new)) }
    ensures through { Through (reader_change R.told R.failed R.gave reader.old reader.new)
        (λ before after. Finds before after room buffer.old buffer.new result) }
    ensures failed { R.failed reader.new ≡ failed_by (R.failed reader.old) result }
    ensures over { IsOverAfter result (R.told reader.new) }
{
    let mut left = room;
    let mut searched = 0;
    'search: loop {
        // No byte past the longest line, nor past the file's limit, is looked at.
        let seen = buffer.len().min(left).min(LONGEST_LINE + 1);
        let end = line_end(buffer.bytes(), searched, seen);
        searched = end.place;
        if searched < seen {
            if !is_blank(buffer.front(searched)) {
                let used = next_line_start(buffer.bytes(), searched, seen);
                return Ok(Some(ended(end, used, left)));
            }
            buffer.drop_front(searched + 1);
            left -= searched + 1;
            searched = 0;
            continue;
        }
        if searched > LONGEST_LINE {
            return Err(FileKind::LineTooLong);
        }
        // The file's limit alone leaves bytes in hand that are not looked at.
        if searched < buffer.len() {
            return Err(FileKind::FileTooLong);
        }
        match buffer.fill(reader) {
            Ok(0) => {
                if !is_blank(buffer.front(searched)) {
                    return Ok(Some(at_end(searched)));
                }
                return Ok(None);
            }
            Ok(_) => continue,
            Err(_) => return Err(FileKind::Read),
        }
    }
}
