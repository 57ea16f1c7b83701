//! The numbered lines of a field file that lies in memory, one by one.
//!
//! They are the lines that [`Lines`](crate::Lines) finds, with the same faults, by one definition.
//! That one reads through a buffer, to which it copies what it reads. Here a line is tested where
//! it lies, and it is told where it begins.

ghost use Rattle.std.specs.Prelude.{◌≡◌, All, IfErr, IfOk, true};
ghost use Rattle.gsi_word.specs.Blocks.{IsBlock};
ghost use Rattle.gsi_word.specs.BlockViews.{block_of};
ghost use Rattle.gsi_word.specs.Words.{IsLineByte};
ghost use Rattle.gsi_file.specs.ToCome.{IsFileFault};
ghost use Rattle.gsi_file.specs.PartEnds.{IsTested};
ghost use Rattle.gsi_file.specs.Passing.{MayFollow};

use crate::file_fault::{FileFault, FileKind};
use crate::lines::check_line;
use crate::part_end::Tested;
use crate::placed_line::PlacedLine;
use crate::rest::{Part, Rest};
use gsi_word::Block;
use gsi_word::steps::{block_in, reading_block};

/// The block that a line is, or the line's fault. Its bytes are tested where they are not known to
/// be printable.
#[inline(always)]
fn read_line(line: &[u8], printable: bool) -> Result<Block<'_>, FileKind>
    requires { printable ≡ true → All IsLineByte line.now }
    ensures block { IfOk result (λ b. IsBlock line.now (block_of b)) }
    ensures fault { IfErr result (IsFileFault line.now) }
{
    let shape = check_line(line, printable)?;
    Ok(block_in(line, shape))
}

/// The block that a part is, or its fault.
#[inline(always)]
fn read_part<'a>(part: &Part<'a>) -> Result<Block<'a>, FileKind>
    requires { IsTested part.now.tested part.now.bytes.now }
    ensures block { IfOk result (λ b. IsBlock part.now.bytes.now (block_of b)) }
    ensures fault { IfErr result (IsFileFault part.now.bytes.now) }
{
    match part.tested {
        Tested::Plain => Ok(reading_block(part.bytes)),
        Tested::Printable => read_line(part.bytes, true),
        Tested::No => read_line(part.bytes, false),
    }
}

/// The numbered lines of a field file that lies in memory.
#[derive(Drop)]
pub struct MemoryLines<'a> {
    rest: Rest<'a>,
    /// Every call answers this.
    failed: Option<FileKind>,
    /// How many lines came.
    count: u32,
    ghost counted: { MayFollow count rest },
}

impl<'a> MemoryLines<'a> {
    ghost use Rattle.std.specs.Prelude.{◌+◌, Some};
    ghost use Rattle.gsi_file.specs.FileAnswers.{file_answers};
    ghost use Rattle.gsi_file.specs.LinePlaces.{line_places};
    ghost use Rattle.gsi_file.specs.ToCome.{Answers};
    ghost use Rattle.gsi_file.specs.InMemory.{GivesBytes, GivesPlace, comes, places_to_come};
    ghost use Rattle.gsi_file.specs.InMemory.{unplaced};
    ghost use Rattle.gsi_file.specs.declared.file_fault.FileFault.TheVariants.{At};

    /// The lines of a file of these bytes; where `fails`, a read failed after them.
    pub fn new(bytes: &'a [u8], fails: bool) -> MemoryLines<'a>
        ensures answers { comes result ≡ record {
          number = 0;
          answers = Some (file_answers (record { bytes = bytes.now; fails = fails }));
        } }
        ensures places { places_to_come result ≡ line_places bytes.now }
    {
        MemoryLines {
            rest: Rest::new(bytes, fails),
            failed: None,
            count: 0,
        }
    }

    /// Answers this fault from now on.
    #[inline(always)]
    fn fail(&mut self, kind: FileKind) -> FileFault
        ensures fault { result ≡ At (self.old.count + 1) kind }
        ensures settled { self.new.failed ≡ Some kind }
        ensures count { self.new.count ≡ self.old.count }
        ensures rest { self.new.rest ≡ self.old.rest }
    {
        self.failed = Some(kind);
        FileFault::At(self.count + 1, kind)
    }

    /// The next numbered line: a block, until the end comes or a fault. It is what
    /// [`Lines`](crate::Lines) answers of the same bytes, and where it begins.
    ///
    /// After the end each call answers `None`, and after a fault the same fault.
    #[inline(always)]
    pub fn next(&mut self) -> Result<Option<PlacedLine<'a>>, FileFault>
        ensures answers { Answers (comes self.old) (unplaced result) (comes self.new) }
        ensures bytes { GivesBytes (comes self.old) result (comes self.new) }
        ensures place { GivesPlace (places_to_come self.old) result (places_to_come self.new) }
    {
        let number = self.count + 1;
        if let Some(kind) = self.failed {
            return Err(FileFault::At(number, kind));
        }
        let part = match self.rest.find_line() {
            Ok(Some(part)) => part,
            Ok(None) => return Ok(None),
            Err(kind) => return Err(self.fail(kind)),
        };
        match read_part(&part) {
            Ok(block) => {
                self.count = number;
                Ok(Some(PlacedLine {
                    number,
                    place: part.place,
                    bytes: part.bytes,
                    block,
                    plain: part.is_plain(),
                }))
            }
            Err(kind) => Err(self.fail(kind)),
        }
    }
}
