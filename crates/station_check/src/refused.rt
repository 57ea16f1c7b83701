//! The line of a refusal: where the fault is, its name, and what it carries.

ghost use Rattle.std.specs.Prelude.{◌≡◌, ◌≤◌, ◌+◌, ◌++◌, length};
ghost use Rattle.arrayvec.specs.ArrayVec.{array_vec_len};
ghost use Rattle.station_check.specs.FaultTexts.{numbered_place, place_text, number_text};
ghost use Rattle.station_check.specs.FaultTexts.{carried_by_book, carried_text};
ghost use Rattle.station_check.specs.VerdictLines.{refusal_line};

use crate::fault::Fault;
use crate::verdict_line::{
    LONGEST_U32, LONGEST_U64, LONGEST_VERDICT_LINE, VerdictLine, add, add_numbered,
};
use gsi_file::FileFault;
use itoa::Buffer;
use sheet_format::SheetFault;
use sheet_means::MeansFault;
use station_book::{BookFault, BookKind};

/// Bytes of where a fault is, at most: the row of a sheet, with the words around it.
pub const LONGEST_PLACE: usize = 10 + LONGEST_U32 + 2;

/// Bytes of what a fault carries, at most: a number of 64 bits, after a blank.
pub const LONGEST_CARRIED: usize = 1 + LONGEST_U64;

/// The line of a refusal, with its line feed.
pub fn refusal_line(fault: Fault) -> VerdictLine
    ensures { result.items ≡ refusal_line fault }
{
    let mut line = VerdictLine::new();
    add(&mut line, b"refused: ");
    add_place(&mut line, fault);
    add(&mut line, fault.name().as_bytes());
    add_carried(&mut line, fault);
    add(&mut line, b"\n");
    line
}

/// Adds where a fault is, to a line that has room for it.
pub fn add_place(line: &mut VerdictLine, fault: Fault)
    requires { array_vec_len line.old + LONGEST_PLACE ≤ LONGEST_VERDICT_LINE }
    ensures items { line.new.items ≡ line.old.items ++ place_text fault }
    ensures len { array_vec_len line.new ≤ array_vec_len line.old + LONGEST_PLACE }
{
    match fault {
        Fault::Gsi(FileFault::At(number, _)) => add_numbered_place(line, b"block ", number),
        Fault::Book(BookFault::At(number, _)) => add_numbered_place(line, b"block ", number),
        Fault::SheetRead | Fault::Sheet(SheetFault::TooLong) => add(line, b"sheet: "),
        Fault::Sheet(SheetFault::Row(number, _)) => {
            add_numbered_place(line, b"sheet row ", number);
        }
        Fault::Means(MeansFault::Incomplete) => add(line, b"means: "),
        Fault::Kernel(_) => add(line, b"kernel: "),
        _ => {}
    }
}

/// Adds a block or a row by its number, with the words around it.
pub fn add_numbered_place(line: &mut VerdictLine, part: &[u8], number: u32)
    requires room { array_vec_len line.old + LONGEST_PLACE ≤ LONGEST_VERDICT_LINE }
    requires short { length part.now ≤ 10 }
    ensures items { line.new.items ≡ line.old.items ++ numbered_place part.now number }
    ensures len { array_vec_len line.new ≤ array_vec_len line.old + LONGEST_PLACE }
{
    add_numbered(line, part, number);
    add(line, b": ");
}

/// Adds what a fault carries, to a line that has room for it.
pub fn add_carried(line: &mut VerdictLine, fault: Fault)
    requires { array_vec_len line.old + LONGEST_CARRIED ≤ LONGEST_VERDICT_LINE }
    ensures items { line.new.items ≡ line.old.items ++ carried_text fault }
    ensures len { array_vec_len line.new ≤ array_vec_len line.old + LONGEST_CARRIED }
{
    match fault {
        Fault::Gsi(FileFault::At(_, kind)) => add_place_in_line(line, kind.number()),
        Fault::Book(BookFault::At(_, kind)) => add_carried_by_book(line, kind),
        Fault::Kernel(fault) => add_number(line, fault.number()),
        _ => {}
    }
}

/// Adds what a fault of a block carries.
fn add_carried_by_book(line: &mut VerdictLine, kind: BookKind)
    requires { array_vec_len line.old + LONGEST_CARRIED ≤ LONGEST_VERDICT_LINE }
    ensures items { line.new.items ≡ line.old.items ++ carried_by_book kind }
    ensures len { array_vec_len line.new ≤ array_vec_len line.old + LONGEST_CARRIED }
{
    match kind {
        BookKind::WordTwice(index) => add_number(line, Some(index)),
        BookKind::Hz(fault) | BookKind::Zenith(fault) => {
            add(line, b" ");
            add(line, fault.name().as_bytes());
        }
        _ => {}
    }
}

/// Adds a blank and the number after it, where there is one.
pub fn add_number(line: &mut VerdictLine, number: Option<u32>)
    requires { array_vec_len line.old + LONGEST_CARRIED ≤ LONGEST_VERDICT_LINE }
    ensures items { line.new.items ≡ line.old.items ++ number_text number }
    ensures len { array_vec_len line.new ≤ array_vec_len line.old + LONGEST_CARRIED }
{
    if let Some(number) = number {
        add_numbered(line, b" ", number);
    }
}

/// Adds a blank and the place in a line after it, where there is one.
fn add_place_in_line(line: &mut VerdictLine, place: Option<usize>)
    requires { array_vec_len line.old + LONGEST_CARRIED ≤ LONGEST_VERDICT_LINE }
    ensures items { line.new.items ≡ line.old.items ++ number_text place }
    ensures len { array_vec_len line.new ≤ array_vec_len line.old + LONGEST_CARRIED }
{
    let mut digits = Buffer::new();
    if let Some(place) = place {
        add(line, b" ");
        add(line, digits.format(place).as_bytes());
    }
}
