//! Why a field file gives no more lines.

ghost use Rattle.std.specs.Prelude.{◌≡◌, ◌≤◌, length};
ghost use Rattle.gsi_file.specs.FaultNames.{file_kind_name, file_kind_number, file_fault_name};
ghost use Rattle.gsi_file.specs.ToCome.{kind_of};

use crate::bounds::{LONGEST_FILE, LONGEST_LINE};
use gsi_word::LineFault;
use thiserror::Error;

/// What is wrong with a field file.
#[derive(Clone, Copy, Debug, PartialEq, Eq, Error)]
pub enum FileKind {
    /// A read failed. The lines that the bytes before it had ended were given first. See whether
    /// the file can be read to its end.
    #[error("a read of the field file failed")]
    Read,
    /// The file has more than 16,777,216 bytes: cut it in two where a station begins.
    #[error("the file has more than {LONGEST_FILE} bytes")]
    FileTooLong,
    /// The line has more than 1,024 bytes, blank or not: see whether the file is a GSI file.
    #[error("the line has more than {LONGEST_LINE} bytes")]
    LineTooLong,
    /// The byte at this place of the line, from 1, is no blank and no visible character of ASCII:
    /// transfer the file from the instrument again.
    #[error("{}", LineFault::Byte(*.0))]
    Byte(usize),
    /// The word at this place of the line, from 1, is no GSI word, or the line holds none: transfer
    /// the file from the instrument again.
    #[error("{}", LineFault::Word(*.0))]
    Word(usize),
    /// The first word is neither a point number nor a code number: have the instrument write one of
    /// them first.
    #[error("{}", LineFault::FirstWord)]
    FirstWord,
}

impl FileKind {
    /// Its name, as the line of a refusal has it.
    pub fn name(self) -> &'static str
        ensures name { result.now ≡ file_kind_name self }
        ensures short { length result.now ≤ 16 }
    {
        match self {
            FileKind::Read => "Read",
            FileKind::FileTooLong => "FileTooLong",
            FileKind::LineTooLong => "LineTooLong",
            FileKind::Byte(_) => "Byte",
            FileKind::Word(_) => "Word",
            FileKind::FirstWord => "FirstWord",
        }
    }

    /// The place in the line that it carries, from 1.
    pub fn number(self) -> Option<usize>
        ensures { result ≡ file_kind_number self }
    {
        match self {
            FileKind::Byte(at) => Some(at),
            FileKind::Word(nth) => Some(nth),
            FileKind::Read | FileKind::FileTooLong | FileKind::LineTooLong | FileKind::FirstWord =>
                None,
        }
    }
}

impl From<LineFault> for FileKind {
    fn from(fault: LineFault) -> FileKind
        ensures { result ≡ kind_of fault }
    {
        match fault {
            LineFault::Byte(at) => FileKind::Byte(at),
            LineFault::Word(nth) => FileKind::Word(nth),
            LineFault::FirstWord => FileKind::FirstWord,
        }
    }
}

/// Why there is no next line.
#[derive(Clone, Copy, Debug, PartialEq, Eq, Error)]
pub enum FileFault {
    /// The line of this number is at fault, or the file is where this line would be next.
    #[error("block {0}: {1}")]
    At(u32, FileKind),
    /// There was no memory. No call answers it. Run it again with more.
    #[error("out of memory")]
    Memory,
}

impl FileFault {
    /// Its name, as the line of a refusal has it.
    pub fn name(self) -> &'static str
        ensures name { result.now ≡ file_fault_name self }
        ensures short { length result.now ≤ 16 }
    {
        match self {
            FileFault::At(_, kind) => kind.name(),
            FileFault::Memory => "out of memory",
        }
    }
}
