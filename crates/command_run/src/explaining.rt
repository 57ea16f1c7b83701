//! The run that explains a fault, or prints the names of all.

ghost use Rattle.std.specs.Prelude.{option_map, ⊤};
ghost use Rattle.byte_ends.specs.Writers.{writer_change};
ghost use Rattle.command_run.specs.Explaining.{IsExplainRun};
ghost use Rattle.station_check.specs.RunEndings.{Run};
ghost use Rattle.station_check.specs.VerdictLines.{refusal_line};

use byte_ends::Sink;
use station_check::{ACCEPTED, Fault, refuse, write_whole};
use station_explain::{Explanation, explaining_text};
use std::alloc::Global;

/// Prints what a fault means, or the names of all faults, and answers the exit status: 0 where all
/// was written, else 1, with the line of a refusal on `err`.
pub(crate) fn run_explain<W: Sink, E: Sink>(
    alloc: Global,
    table: &[&'static [Explanation]],
    fault: Option<&Explanation>,
    out: &mut W,
    err: &mut E,
) -> u8
    ensures { Run {A = ⊤} refusal_line
        (IsExplainRun table.now (option_map (λ e. e.now) fault.entry))
        result (writer_change W.Sink out.old out.new)
        (writer_change E.Sink err.old err.new) }
{
    match print(alloc, table, fault, out) {
        Ok(()) => ACCEPTED,
        Err(fault) => refuse(fault, err),
    }
}

/// Prints what a fault means, or the names of all faults. The text is made in memory, written, and
/// flushed once.
fn print<W: Sink>(
    alloc: Global,
    table: &[&'static [Explanation]],
    fault: Option<&Explanation>,
    out: &mut W,
) -> Result<(), Fault>
    ensures { IsExplainRun table.now (option_map (λ e. e.now) fault.entry) result
        (writer_change W.Sink out.old out.new) }
{
    let text = match explaining_text(alloc, table, fault) {
        Ok(text) => text,
        Err(_) => return Err(Fault::Memory),
    };
    match write_whole(out, text.as_bytes()) {
        Ok(()) => Ok(()),
        Err(_) => Err(Fault::Write),
    }
}
