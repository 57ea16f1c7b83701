//! How a call hands out its text.

ghost use Rattle.std.specs.Prelude.{ℕ, List};
ghost use Rattle.station_change.specs.FaultTexts as change;
ghost use Rattle.station_check.specs.RunEndings.{status_of};
ghost use Rattle.station_check.specs.VerdictLines as check;
ghost use Rattle.station_check.specs.declared.fault.Fault.TheVariants.{Memory as NoMemory};
ghost use Rattle.station_check.specs.declared.runs.TheConstants.{REFUSED};
ghost use Rattle.station_compare.specs.FaultTexts as compare;
ghost use Rattle.station_page.specs.HandedOut.{HandsOut, Shows, text_or, text_or_refusal};
ghost use Rattle.station_page.specs.Texts.{bytes_in};
ghost use Rattle.table_titles.specs.FaultTexts as titles;

use changed_lines::ChangeFault;
use station_change::PrintFault;
use station_check::{ACCEPTED, Fault, REFUSED, refusal_line};
use station_compare::CompareFault;
use std::alloc::AllocError;
use table_titles::{TitlesFault, titles_line};

/// The status where a number or a name is out of its range: nothing is answered.
pub const OUT_OF_RANGE: u8 = 2;

/// The status where the text has more bytes than there is room for: it is to be asked for again,
/// with more.
pub const TOO_LITTLE_ROOM: u8 = 3;

/// Hands out a text at the front of `out`, with its length, and answers this status, where there is
/// room for it.
pub(crate) fn hand_out(status: u8, text: &[u8], out: &mut [u8], written: &mut usize) -> u8
    ensures { Shows (HandsOut status text.now) out.old out.new written.new result }
{
    *written = 0;
    if out.len() < text.len() {
        return TOO_LITTLE_ROOM;
    }
    out[..text.len()].copy_from_slice(text);
    *written = text.len();
    status
}

/// Why nothing is answered: a line is handed out in the place of the text.
pub(crate) trait Refusing {
    // The line of a refusal.
    ghost line: { Self → List ℕ };

    /// Hands out the line.
    fn refuse(&self, out: &mut [u8], written: &mut usize) -> u8
        ensures { Shows (HandsOut REFUSED (line self.now)) out.old out.new written.new result };
}

impl Refusing for Fault {
    ghost line = { check.refusal_line };

    fn refuse(&self, out: &mut [u8], written: &mut usize) -> u8 {
        hand_out(REFUSED, refusal_line(*self).as_slice(), out, written)
    }
}

impl Refusing for CompareFault {
    ghost line = { compare.refusal_line };

    fn refuse(&self, out: &mut [u8], written: &mut usize) -> u8 {
        let line = station_compare::refusal_line(*self);
        hand_out(REFUSED, line.as_slice(), out, written)
    }
}

impl Refusing for ChangeFault {
    ghost line = { change.change_line };

    fn refuse(&self, out: &mut [u8], written: &mut usize) -> u8 {
        let line = station_change::refusal_line(PrintFault::Change(*self));
        hand_out(REFUSED, line.as_slice(), out, written)
    }
}

impl Refusing for TitlesFault {
    ghost line = { titles.titles_line };

    fn refuse(&self, out: &mut [u8], written: &mut usize) -> u8 {
        hand_out(REFUSED, titles_line(*self).as_bytes(), out, written)
    }
}

impl Refusing for AllocError {
    ghost line = { λ _. check.refusal_line NoMemory };

    fn refuse(&self, out: &mut [u8], written: &mut usize) -> u8 {
        Fault::Memory.refuse(out, written)
    }
}

/// Hands out the text of an answer, or the line of the refusal in its place.
pub(crate) fn hand_out_text<F: Refusing>(
    answer: &Result<Vec<u8>, F>,
    out: &mut [u8],
    written: &mut usize,
) -> u8
    ensures { Shows (HandsOut (status_of (bytes_in answer.now)) (text_or F.line
        (bytes_in answer.now))) out.old out.new written.new result }
{
    match answer {
        Ok(text) => hand_out(ACCEPTED, text.as_slice(), out, written),
        Err(why) => why.refuse(out, written),
    }
}

/// The same where the text is in its own memory.
pub(crate) fn hand_out_answer(
    answer: &Result<(), Fault>,
    text: &[u8],
    out: &mut [u8],
    written: &mut usize,
) -> u8
    ensures { Shows (HandsOut (status_of answer.now) (text_or_refusal text.now answer.now)) out.old
        out.new written.new result }
{
    match answer {
        Ok(()) => hand_out(ACCEPTED, text, out, written),
        Err(fault) => fault.refuse(out, written),
    }
}
