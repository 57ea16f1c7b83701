//! The copy of a field file, on its way to a writer.
//!
//! It is never made in memory: the file's bytes are printed from where they lie, with each code
//! line before its place.

ghost use Rattle.std.specs.Prelude.{◌≡◌, true, OnOk, OnErr, length};
ghost use Rattle.std.specs.Io.KnownBytes.{Appends};
ghost use Rattle.byte_ends.specs.Sink.{AppendsSome, failed_after};
ghost use Rattle.set_marks.specs.Copies.{woven, AreOrdered};
ghost use Rattle.station_check.specs.Printing.{Prints, PrintsSome};

use byte_ends::{Failed, Sink};
use set_marks::{Mark, code_line};
use station_check::{Page, write_whole};

/// Writes the copy of a file's bytes, which has these code lines, and flushes once.
pub(crate) fn write_copy<W: Sink>(
    writer: &mut W,
    bytes: &[u8],
    marks: &[Mark],
) -> Result<(), Failed>
    requires { AreOrdered 0 (length bytes.now) marks.now }
    ensures failed { W.failed writer.new ≡ failed_after (W.failed writer.old) result }
    ensures ok { OnOk result
        (Appends (W.holds writer.old) (W.holds writer.new) (woven 0 bytes.now marks.now)) }
    ensures flushed { OnOk result (W.flushed writer.new ≡ true) }
    ensures cut_short { OnErr result
        (AppendsSome (W.holds writer.old) (W.holds writer.new) (woven 0 bytes.now marks.now)) }
{
    let mut page = Page::new();
    print_copy(&mut page, writer, bytes, marks)?;
    write_whole(writer, page.bytes())
}

/// Prints the copy: the bytes up to each place, and its code line.
fn print_copy<W: Sink>(
    page: &mut Page,
    writer: &mut W,
    bytes: &[u8],
    marks: &[Mark],
) -> Result<(), Failed>
    requires { AreOrdered 0 (length bytes.now) marks.now }
    ensures failed { W.failed writer.new ≡ failed_after (W.failed writer.old) result }
    ensures ok { OnOk result (Prints (W.holds writer.old) page.old (W.holds writer.new) page.new
        (woven 0 bytes.now marks.now)) }
    ensures cut_short { OnErr result (PrintsSome (W.holds writer.old) page.old (W.holds writer.new)
        (woven 0 bytes.now marks.now)) }
{
    let mut from = 0;
    let mut left = marks;
    'marks: while let Some((mark, rest)) = left.split_first() {
        page.print(&bytes[from..mark.at], writer)?;
        page.print(code_line(mark).as_slice(), writer)?;
        from = mark.at;
        left = rest;
    }
    page.print(&bytes[from..], writer)
}
