//! The words of a field file, for a page.

ghost use Rattle.std.specs.Prelude.{◌≡◌, ◌≢◌, [], length, take, Some, Err};
ghost use Rattle.gsi_file.specs.FileAnswers.{file_answers};
ghost use Rattle.station_check.specs.Came.{source_of};
ghost use Rattle.station_check.specs.RunEndings.{status_of};
ghost use Rattle.station_check.specs.Words.{WritesWords};
ghost use Rattle.station_check.specs.declared.fault.Fault.TheVariants.{Memory, Write};
ghost use Rattle.station_page.specs.Answers.{IsWordsOf};
ghost use Rattle.station_page.specs.HandedOut.{Leaves, Shows, refusal_text};
ghost use Rattle.station_page.specs.Texts.{text_of};

use crate::hand_out::hand_out;
use crate::text::Text;
use station_check::{ACCEPTED, Fault, REFUSED, VerdictLine, refusal_line, source_of, write_words};
use std::alloc::Global;

/// Hands out the words of a whole field file; at a fault of the file those of the blocks before it,
/// and in `refusal` the line of the refusal. Where memory ran out there is that line alone.
///
/// Answers 0 where all blocks were read, 1 at a refusal, and 3 where `out` or `refusal` has too
/// little room.
#[unsafe(no_mangle)]
pub extern "C" fn station_page_words(
    alloc: Global,
    gsi: &[u8],
    out: &mut [u8],
    written: &mut usize,
    refusal: &mut [u8],
    refusal_written: &mut usize,
) -> u8
    ensures words { Shows
        (IsWordsOf gsi.now (length refusal.old) (take refusal_written.new refusal.new)) out.old
        out.new written.new result }
    ensures line { Leaves refusal.old refusal.new refusal_written.new }
{
    let (answer, text) = words_of(alloc, gsi);
    let status = hand_out(status_of(&answer), text.bytes(), out, written);
    let line = refusal_of(&answer);
    hand_out(status, line.as_slice(), refusal, refusal_written)
}

/// The words of a field file.
fn words_of(alloc: Global, gsi: &[u8]) -> (Result<u32, Fault>, Text)
    ensures writes { WritesWords result.0 (Some []) (Some (text_of result.1))
        (file_answers (source_of gsi.now)) }
    ensures unfailed { result.0 ≢ Err Write }
    ensures alone { result.0 ≡ Err Memory → text_of result.1 ≡ [] }
{
    let mut text = Text::new(alloc);
    match write_words(alloc, source_of(gsi), &mut text) {
        // A text in memory can't be written where there is no memory for it. What came before is
        // dropped: nobody knows where it ends.
        Err(Fault::Write | Fault::Memory) => (Err(Fault::Memory), Text::new(alloc)),
        answer => (answer, text),
    }
}

/// The status of an answer.
fn status_of(answer: &Result<u32, Fault>) -> u8
    ensures { result ≡ status_of answer.now }
{
    match answer {
        Ok(_) => ACCEPTED,
        Err(_) => REFUSED,
    }
}

/// The line of a refusal, or nothing.
fn refusal_of(answer: &Result<u32, Fault>) -> VerdictLine
    ensures { result.items ≡ refusal_text answer.now }
{
    match answer {
        Ok(_) => VerdictLine::new(),
        Err(fault) => refusal_line(*fault),
    }
}
