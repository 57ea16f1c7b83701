//! The text of a refusal.

ghost use Rattle.std.specs.Prelude.{◌≡◌, IfOk};
ghost use Rattle.station_mark.specs.FaultTexts.{unmarked};
ghost use Rattle.station_mark.specs.FaultTexts as spec;

use crate::fault::PrintFault;
use crate::notes::add_stations;
use set_marks::{MarkFault, MarkKind, Refused};
use station_book::BookFault;
use station_check::{Fault, VerdictLine, add, add_numbered_place};
use std::alloc::{AllocError, Global};

/// The text of a refused marking: the lines of each station that is told, and the line of the
/// refusal.
pub fn refusal_text(alloc: Global, refused: &Refused) -> Result<Vec<u8>, AllocError>
    ensures { IfOk result (λ text. text.items ≡ spec.refusal_text (unmarked refused.now)) }
{
    let mut text = Vec::new(alloc);
    add_stations(alloc, &mut text, refused.stations())?;
    let line = refusal_line(PrintFault::Mark(refused.fault()));
    text.extend_from_slice(line.as_slice())?;
    Ok(text)
}

/// The line of a refusal, with its line feed.
pub fn refusal_line(fault: PrintFault) -> VerdictLine
    ensures { result.items ≡ spec.refusal_line fault }
{
    match fault {
        PrintFault::Mark(MarkFault::File(fault)) => station_check::refusal_line(Fault::Gsi(fault)),
        PrintFault::Mark(MarkFault::Reading(number, kind)) => {
            station_check::refusal_line(Fault::Book(BookFault::At(number, kind)))
        }
        PrintFault::Mark(MarkFault::At(number, kind)) => unmarked_line(number, kind),
        PrintFault::Mark(MarkFault::Memory) => station_check::refusal_line(Fault::Memory),
        PrintFault::Write => station_check::refusal_line(Fault::Write),
    }
}

/// The line of what keeps a file from being marked, at the block of this number.
fn unmarked_line(number: u32, kind: MarkKind) -> VerdictLine
    ensures { result.items ≡ spec.unmarked_line number kind }
{
    let mut line = VerdictLine::new();
    add(&mut line, b"refused: ");
    add_numbered_place(&mut line, b"block ", number);
    add(&mut line, b"mark: ");
    add(&mut line, kind.name().as_bytes());
    add(&mut line, b"\n");
    line
}
