//! A copy of a field file with codes put in, and what is told of it, handed out for a page.

ghost use Rattle.std.specs.Prelude.{◌≡◌, IfErr, IfOk, length, take};
ghost use Rattle.job_statements.specs.declared.stated.Stated.{Stated};
ghost use Rattle.station_check.specs.RunEndings.{status_of};
ghost use Rattle.station_page.specs.Answers.{IsMarkAnswer};
ghost use Rattle.station_page.specs.HandedOut.{HandsOut, Leaves, Shows};
ghost use Rattle.station_page.specs.Marked.{Marks};
ghost use Rattle.station_page.specs.Marked as spec;
ghost use Rattle.station_page.specs.Statements.{StatesBeginnings, StatesFile};
ghost use Rattle.station_page.specs.Texts.{bytes_in};

use crate::hand_out::{OUT_OF_RANGE, hand_out};
use crate::statement::{Untaken, beginnings_in, stated_in};
use job_statements::Beginnings;
use set_marks::{MarkFault, Marked, Refused, mark_file, marked_copy};
use station_check::{ACCEPTED, REFUSED, VerdictLine};
use station_mark::{PrintFault, notes_text, refusal_line, refusal_text, told_rows};
use std::alloc::{AllocError, Global};

/// How it is told what was recognized.
#[derive(Clone, Copy, Drop)]
pub(crate) enum ToldAs {
    /// As notes. At a refusal its line comes after them, and nothing is in the place of the copy.
    Notes,
    /// As rows. At a refusal its line is in the place of the copy.
    Rows,
}

/// A field file, and what is stated of it by bytes and flags.
#[derive(Clone, Copy, Drop)]
pub(crate) struct Marking<'a> {
    pub(crate) gsi: &'a [u8],
    pub(crate) name: &'a [u8],
    pub(crate) code: &'a [u8],
    pub(crate) sets: &'a [u8],
    pub(crate) targets: &'a [u8],
    pub(crate) same_set_up: bool,
    pub(crate) again: bool,
    pub(crate) others: bool,
}

impl<'a> Marking<'a> {
    /// Hands out a copy with codes put in and what is told of it, in this form.
    pub(crate) fn hand_out(
        &self,
        alloc: Global,
        form: ToldAs,
        out: &mut [u8],
        written: &mut usize,
        told: &mut [u8],
        told_written: &mut usize,
    ) -> u8
        ensures copy { Shows (IsMarkAnswer form
            (StatesBeginnings self.now.name.now self.now.code.now self.now.same_set_up)
            (StatesFile self.now.sets.now self.now.targets.now self.now.again self.now.others)
            self.now.gsi.now (length told.old) (take told_written.new told.new)) out.old out.new
            written.new result }
        ensures told { Leaves told.old told.new told_written.new }
    {
        *written = 0;
        *told_written = 0;
        let Some(beginnings) = beginnings_in(self.name, self.code, self.same_set_up) else {
            return OUT_OF_RANGE;
        };
        match self.marked(alloc, form, beginnings) {
            Ok((copy, text)) => {
                let status = hand_out_copy(form, &copy, out, written);
                hand_out(status, text.as_slice(), told, told_written)
            }
            Err(Untaken::Memory) => {
                let status = hand_out_copy(form, &Err(MarkFault::Memory), out, written);
                hand_out(status, untold(form).as_slice(), told, told_written)
            }
            Err(Untaken::Wrong) => OUT_OF_RANGE,
        }
    }

    /// The copy, or the fault, and what is told, by what is stated of the file.
    ///
    /// # Errors
    ///
    /// That can't be stated, or memory ran out.
    fn marked(
        &self,
        alloc: Global,
        form: ToldAs,
        beginnings: Beginnings,
    ) -> Result<(Result<Vec<u8>, MarkFault>, Vec<u8>), Untaken>
        ensures marks { IfOk result (λ its. Marks form beginnings
            (StatesFile self.now.sets.now self.now.targets.now self.now.again self.now.others)
            self.now.gsi.now (bytes_in its.0) its.1.items) }
        ensures wrong { IfErr result (λ why. why ≡ Untaken.Wrong → (stated : Stated)
            → ¬ (StatesFile self.now.sets.now self.now.targets.now self.now.again
            self.now.others stated)) }
    {
        let stated = stated_in(alloc, self.sets, self.targets, self.again, self.others)?;
        let marking = mark_file(alloc, self.gsi, false, beginnings, stated);
        let told = told_text(alloc, form, &marking)?;
        match marking {
            Ok(marked) => {
                let copy = marked_copy(alloc, self.gsi, &marked.marks)?;
                Ok((Ok(copy), told))
            }
            Err(refused) => Ok((Err(refused.fault()), told)),
        }
    }
}

/// What is told of a marking, in this form.
fn told_text(
    alloc: Global,
    form: ToldAs,
    marking: &Result<Marked, Refused>,
) -> Result<Vec<u8>, AllocError>
    ensures { IfOk result (λ text. text.items ≡ spec.told_text form marking.now) }
{
    match (form, marking) {
        (ToldAs::Notes, Ok(marked)) => notes_text(alloc, &marked.stations),
        (ToldAs::Notes, Err(refused)) => refusal_text(alloc, refused),
        (ToldAs::Rows, Ok(marked)) => told_rows(alloc, &marked.stations),
        (ToldAs::Rows, Err(refused)) => told_rows(alloc, refused.stations()),
    }
}

/// What is told where memory ran out.
fn untold(form: ToldAs) -> VerdictLine
    ensures { result.items ≡ spec.untold_text form }
{
    match form {
        ToldAs::Notes => refusal_line(PrintFault::Mark(MarkFault::Memory)),
        ToldAs::Rows => VerdictLine::new(),
    }
}

/// Hands out the copy, or what is in its place.
fn hand_out_copy(
    form: ToldAs,
    copy: &Result<Vec<u8>, MarkFault>,
    out: &mut [u8],
    written: &mut usize,
) -> u8
    ensures { Shows (HandsOut (status_of (bytes_in copy.now))
        (spec.copy_text form (bytes_in copy.now))) out.old out.new written.new result }
{
    match (form, copy) {
        (_, Ok(copy)) => hand_out(ACCEPTED, copy.as_slice(), out, written),
        (ToldAs::Notes, Err(_)) => hand_out(REFUSED, b"", out, written),
        (ToldAs::Rows, Err(fault)) => {
            let line = refusal_line(PrintFault::Mark(*fault));
            hand_out(REFUSED, line.as_slice(), out, written)
        }
    }
}
