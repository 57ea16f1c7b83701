//! The line of a refusal.

ghost use Rattle.std.specs.Prelude.{◌≡◌, ◌≤◌, length};
ghost use Rattle.adjust_kernel.specs.declared.bounds.TheConstants.{LONGEST_FAULT_NAME};
ghost use Rattle.station_change.specs.FaultTexts as spec;

use crate::fault::PrintFault;
use changed_lines::ChangeFault;
use station_check::{Fault, VerdictLine, add, add_numbered_place};

/// The line of a refusal, with its line feed.
pub fn refusal_line(fault: PrintFault) -> VerdictLine
    ensures { result.items ≡ spec.refusal_line fault }
{
    match fault {
        PrintFault::Change(fault) => change_line(fault),
        PrintFault::Read => whole_line(b"Read"),
        PrintFault::TooLong => whole_line(b"FileTooLong"),
        PrintFault::Write => station_check::refusal_line(Fault::Write),
    }
}

/// The line of a change that can't be made.
fn change_line(fault: ChangeFault) -> VerdictLine
    ensures { result.items ≡ spec.change_line fault }
{
    match fault {
        ChangeFault::LineOrder(number)
        | ChangeFault::NoSuchLine(number)
        | ChangeFault::NameTooLong(number)
        | ChangeFault::ZeroBefore(number)
        | ChangeFault::NoPoint(number) => unchanged_line(number, fault.name()),
        ChangeFault::Memory => station_check::refusal_line(Fault::Memory),
    }
}

/// The line of a fault of this name, at the line of this number.
fn unchanged_line(number: u32, name: &str) -> VerdictLine
    requires { length name.now ≤ LONGEST_FAULT_NAME }
    ensures { result.items ≡ spec.unchanged_line number name.now }
{
    let mut line = VerdictLine::new();
    add(&mut line, b"refused: ");
    add_numbered_place(&mut line, b"block ", number);
    add(&mut line, b"change: ");
    add(&mut line, name.as_bytes());
    add(&mut line, b"\n");
    line
}

/// The line of a fault of this name, of the whole field file.
fn whole_line(name: &[u8]) -> VerdictLine
    requires { length name.now ≤ LONGEST_FAULT_NAME }
    ensures { result.items ≡ spec.whole_line name.now }
{
    let mut line = VerdictLine::new();
    add(&mut line, b"refused: field file: ");
    add(&mut line, name);
    add(&mut line, b"\n");
    line
}
