//! The bytes of a file in memory that no line has used up, part by part.

ghost use Rattle.std.specs.Prelude.{◌≡◌, ◌<◌, ◌≤◌, ◌+◌, drop, length};
ghost use Rattle.gsi_file.specs.declared.bounds.TheConstants.{LONGEST_FILE, LONGEST_LINE};
ghost use Rattle.gsi_file.specs.declared.file_fault.FileKind.TheVariants.{FileTooLong, LineTooLong};

use crate::bounds::{LONGEST_FILE, LONGEST_LINE};
use crate::file_fault::FileKind;
use crate::line_end::{is_blank, next_line_start};
use crate::part_end::{PartEnd, Tested, part_end};

/// A part of a file.
#[derive(Clone, Copy)]
pub(crate) struct Part<'a> {
    /// The place in the file where it begins.
    pub(crate) place: usize,
    /// Its bytes.
    pub(crate) bytes: &'a [u8],
    /// What was found of them.
    pub(crate) tested: Tested,
    ghost in_file: { place + length bytes.now ≤ LONGEST_FILE },
}

impl Part<'_> {
    ghost use Rattle.std.specs.Prelude.{◌≡◌, true};
    ghost use Rattle.gsi_word.specs.PlainLines.{is_plain_reading};
    ghost use Rattle.gsi_file.specs.Parts.{is_line};
    ghost use Rattle.gsi_file.specs.PartEnds.{IsTested};

    /// Whether it is a line, as a reading always is.
    #[inline(always)]
    #[tactic(auto, using(crate::proofs::PlainParts::is_numbered))]
    fn is_line(&self) -> bool
        requires { IsTested self.now.tested self.now.bytes.now }
        ensures { result ≡ is_line self.now.bytes.now }
    {
        match self.tested {
            Tested::Plain => true,
            Tested::Printable | Tested::No => !is_blank(self.bytes),
        }
    }

    /// Whether it is known to be a reading as most are written.
    #[inline(always)]
    pub(crate) fn is_plain(&self) -> bool
        requires { IsTested self.now.tested self.now.bytes.now }
        ensures { result ≡ true → is_plain_reading self.now.bytes.now ≡ true }
    {
        match self.tested {
            Tested::Plain => true,
            Tested::Printable | Tested::No => false,
        }
    }
}

/// The bytes of a file that no line has used up.
#[derive(Clone, Copy)]
pub(crate) struct Rest<'a> {
    bytes: &'a [u8],
    /// The place in the file where they begin.
    place: usize,
    /// Whether a read failed after them.
    fails: bool,
    ghost in_file: { place ≤ LONGEST_FILE },
}

/// The fault of a part that is longer than a line or than what may be taken of the file, where so
/// many bytes may: at the same byte the file's limit comes first.
fn broken_limit(left: usize) -> FileKind
    ensures file { left ≤ LONGEST_LINE → result ≡ FileTooLong }
    ensures line { LONGEST_LINE < left → result ≡ LineTooLong }
{
    if left <= LONGEST_LINE {
        FileKind::FileTooLong
    } else {
        FileKind::LineTooLong
    }
}

/// The bytes after the first so many.
#[inline(always)]
fn after(count: usize, bytes: &[u8]) -> &[u8]
    requires { count ≤ length bytes.now }
    ensures { result.now ≡ drop count bytes.now }
{
    &bytes[count..]
}

impl<'a> Rest<'a> {
    ghost use Rattle.std.specs.Prelude.{◌≡◌, ◌<◌, ◌≤◌, ◌-◌, [], None, false, length};
    ghost use Rattle.gsi_file.specs.Parts.{HasNoEnd};
    ghost use Rattle.gsi_file.specs.PartEnds.{IsPartEnd};
    ghost use Rattle.gsi_file.specs.Passing.{FindsPart, PassesPart, answers_left, places_left};
    ghost use Rattle.gsi_file.specs.ToCome.{only};

    /// A whole file.
    pub(crate) fn new(bytes: &'a [u8], fails: bool) -> Rest<'a>
        ensures bytes { result.bytes.now ≡ bytes.now }
        ensures place { result.place ≡ 0 }
        ensures fails { result.fails ≡ fails }
    {
        Rest {
            bytes,
            place: 0,
            fails,
        }
    }

    /// Passes the first part, with what ends it.
    #[inline(always)]
    fn pass_part(&mut self, end: PartEnd) -> Part<'a>
        requires end { IsPartEnd self.old.bytes.now end }
        requires short { end.place ≤ LONGEST_LINE }
        requires fits { end.place < LONGEST_FILE - self.old.place }
        ensures passes { PassesPart self.old result self.new }
        ensures shorter { length self.new.bytes.now < length self.old.bytes.now }
    {
        let part = Part {
            place: self.place,
            bytes: &self.bytes[..end.place],
            tested: end.tested,
        };
        let most = self.bytes.len().min(LONGEST_FILE - self.place);
        let next = next_line_start(self.bytes, end.place, most);
        self.bytes = after(next, self.bytes);
        self.place += next;
        part
    }

    /// Passes the last part, which the end of the file ends.
    #[inline(always)]
    fn pass_last(&mut self) -> Part<'a>
        requires end { HasNoEnd self.old.bytes.now }
        requires short { length self.old.bytes.now ≤ LONGEST_LINE }
        requires fits { length self.old.bytes.now ≤ LONGEST_FILE - self.old.place }
        requires ends { self.old.fails ≡ false }
        ensures passes { PassesPart self.old result self.new }
        ensures answers { answers_left self.new ≡ only None }
        ensures places { places_left self.new ≡ [] }
    {
        let part = Part {
            place: self.place,
            bytes: self.bytes,
            tested: Tested::No,
        };
        self.place += self.bytes.len();
        self.bytes = &[];
        part
    }

    /// Finds the last part, if it is a line, or what comes after the lines.
    #[inline(always)]
    fn find_last(&mut self) -> Result<Option<Part<'a>>, FileKind>
        requires { HasNoEnd self.old.bytes.now }
        ensures { FindsPart self.old result self.new }
    {
        let left = LONGEST_FILE - self.place;
        if self.bytes.len() > LONGEST_LINE || self.bytes.len() > left {
            return Err(broken_limit(left));
        }
        if self.fails {
            return Err(FileKind::Read);
        }
        let part = self.pass_last();
        if part.is_line() {
            Ok(Some(part))
        } else {
            Ok(None)
        }
    }

    /// Finds the next part that is a line, or what comes after the lines.
    #[inline(always)]
    pub(crate) fn find_line(&mut self) -> Result<Option<Part<'a>>, FileKind>
        ensures { FindsPart self.old result self.new }
    {
        'parts: while let Some(end) = part_end(self.bytes) {
            let left = LONGEST_FILE - self.place;
            if end.place > LONGEST_LINE || end.place >= left {
                return Err(broken_limit(left));
            }
            let part = self.pass_part(end);
            if part.is_line() {
                return Ok(Some(part));
            }
        }
        self.find_last()
    }
}
