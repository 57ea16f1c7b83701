//! The readings of a field file, and where its lines begin.

ghost use Rattle.std.specs.Prelude.{◌≡◌, ◌≤◌, ◌++◌, ◌∷◌, [], All, IfErr, IfOk, None, OnOk};
ghost use Rattle.gsi_word.specs.Blocks.{IsBlock};
ghost use Rattle.gsi_word.specs.BlockViews.{block_of};
ghost use Rattle.gsi_file.specs.FileAnswers.{file_answers};
ghost use Rattle.gsi_file.specs.LinePlaces.{line_places};
ghost use Rattle.gsi_file.specs.declared.bounds.TheConstants.{LONGEST_FILE};
ghost use Rattle.station_book.specs.Faults.{first_of};
ghost use Rattle.set_marks.specs.declared.fault.MarkFault.TheVariants.{Memory};
ghost use Rattle.set_marks.specs.Marks.{IsRoomy};
ghost use Rattle.job_statements.specs.Numbers.{said_in};
ghost use Rattle.set_marks.specs.Stations.{block_fault};
ghost use Rattle.set_marks.specs.Keeping.{Adds, AnswersReadings, Keeps, begun_in};
ghost use Rattle.set_marks.specs.Taking.{IsKnown, readings_in};

use crate::fault::MarkFault;
use crate::reading::{Said, no_readings};
use crate::readings::Readings;
use gsi_file::{MemoryLines, PlacedLine};
use job_statements::{Beginnings, Stated};
use station_book::read_plain;
use std::alloc::{AllocError, Global};

/// What was taken of the lines of a file, up to some place.
#[derive(Drop)]
pub(crate) struct Walk {
    /// The stations and their readings, up to the first block that has a fault by itself.
    pub(crate) readings: Readings,
    /// The fault of this block.
    pub(crate) fault: Option<MarkFault>,
    /// The places where the lines begin.
    pub(crate) begins: Vec<u32>,
}

/// What a line says, where its bytes stand as those of most readings do.
#[inline(always)]
fn said_by(line: &PlacedLine<'_>) -> Option<Said>
    requires { IsBlock line.now.bytes.now (block_of line.now.block) }
    ensures { IsKnown result (block_of line.now.block) }
{
    if line.plain {
        Some(read_plain(line.bytes))
    } else {
        None
    }
}

impl Walk {
    /// Nothing was taken. A station whose name is stated is open.
    fn new(alloc: Global, beginnings: &Beginnings, stated: Stated) -> Walk
        ensures keeps { Keeps beginnings.now (said_in stated) [] result.readings }
        ensures room { All IsRoomy result.readings.marking.marks.items }
        ensures fault { result.fault ≡ None }
        ensures begins { result.begins.items ≡ [] }
    {
        Walk {
            readings: no_readings(alloc, beginnings, stated),
            fault: None,
            begins: Vec::new(alloc),
        }
    }

    /// Keeps where a line begins.
    #[inline(always)]
    fn keep_place(&mut self, place: usize) -> Result<(), AllocError>
        requires { place ≤ LONGEST_FILE }
        ensures begins { OnOk result (self.new.begins.items ≡ self.old.begins.items ++ place ∷ []) }
        ensures readings { self.new.readings ≡ self.old.readings }
        ensures fault { self.new.fault ≡ self.old.fault }
    {
        self.begins.push(place as u32)?;
        Ok(())
    }

    /// Takes a line.
    #[inline(always)]
    fn take(
        &mut self,
        alloc: Global,
        line: &PlacedLine<'_>,
        beginnings: &Beginnings,
    ) -> Result<(), MarkFault>
        requires bound { line.now.number ≤ LONGEST_FILE }
        requires block { IsBlock line.now.bytes.now (block_of line.now.block) }
        requires room { All IsRoomy self.old.readings.marking.marks.items }
        ensures room { All IsRoomy self.new.readings.marking.marks.items }
        ensures begins { OnOk result
            (self.new.begins.items ≡ self.old.begins.items ++ line.now.place ∷ []) }
        ensures fault { OnOk result (self.new.fault ≡ first_of (self.old.fault
            ∷ block_fault beginnings.now (begun_in self.old.readings.station) line.now.number
            (block_of line.now.block) ∷ [])) }
        ensures adds { OnOk result (self.new.fault ≡ None → Adds beginnings.now
            (block_of line.now.block) line.now.number self.old.readings self.new.readings) }
        ensures memory { IfErr result (λ e. e ≡ Memory) }
    {
        self.keep_place(line.place)?;
        // Copied, so that the line need not lie in memory for the calls that are not inlined.
        let block = line.block;
        self.readings.take_unless(
            alloc,
            &mut self.fault,
            line.number,
            &block,
            said_by(line),
            beginnings,
        )
    }
}

/// The stations and the readings of a field file, of these bytes and then an end, or a failed read,
/// and the places where its lines begin.
pub(crate) fn readings_of(
    alloc: Global,
    bytes: &[u8],
    fails: bool,
    beginnings: Beginnings,
    stated: Stated,
) -> Result<Walk, MarkFault>
    ensures answers { AnswersReadings beginnings (said_in stated)
        (file_answers (record { bytes = bytes.now; fails = fails })) (readings_in result) }
    ensures room { IfOk result (λ w. All IsRoomy w.readings.marking.marks.items) }
    ensures begins { IfOk result (λ w. w.begins.items ≡ line_places bytes.now) }
{
    let mut walk = Walk::new(alloc, &beginnings, stated);
    let mut lines = MemoryLines::new(bytes, fails);
    'lines: while let Some(line) = lines.next()? {
        walk.take(alloc, &line, &beginnings)?;
    }
    match walk.fault {
        Some(fault) => Err(fault),
        None => Ok(walk),
    }
}
