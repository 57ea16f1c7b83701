//! The line of a refusal: where the fault is, its name, and what it carries.

ghost use Rattle.std.specs.Prelude.{◌≡◌, ◌≤◌, ◌+◌, ◌++◌};
ghost use Rattle.arrayvec.specs.ArrayVec.{array_vec_len};
ghost use Rattle.station_compare.specs.FaultTexts as spec;

use crate::fault::CompareFault;
use crate::how_far::{LONGEST_HOW_FAR, add_how_far};
use direction_table::TableFault;
use exact_adjustment::AdjustFault;
use station_check::{
    LONGEST_PLACE, LONGEST_VERDICT_LINE, VerdictLine, add, add_carried, add_number,
    add_numbered_place, add_place,
};

/// Bytes of what a fault carries, at most: how far a table is apart, after a blank.
const LONGEST_CARRIED: usize = 1 + LONGEST_HOW_FAR;

/// The line of a refusal, with its line feed.
pub fn refusal_line(fault: CompareFault) -> VerdictLine
    ensures { result.items ≡ spec.refusal_line fault }
{
    let mut line = VerdictLine::new();
    add(&mut line, b"refused: ");
    add_compare_place(&mut line, fault);
    add(&mut line, fault.name().as_bytes());
    add_compare_carried(&mut line, fault);
    add(&mut line, b"\n");
    line
}

/// Adds where a fault is.
fn add_compare_place(line: &mut VerdictLine, fault: CompareFault)
    requires { array_vec_len line.old + LONGEST_PLACE ≤ LONGEST_VERDICT_LINE }
    ensures items { line.new.items ≡ line.old.items ++ spec.compare_place_text fault }
    ensures len { array_vec_len line.new ≤ array_vec_len line.old + LONGEST_PLACE }
{
    match fault {
        CompareFault::File(fault) => add_place(line, fault),
        CompareFault::Table(TableFault::Row(number, _)) => {
            add_numbered_place(line, b"table row ", number);
        }
        CompareFault::TableRead
        | CompareFault::Table(
            TableFault::TooLong | TableFault::Columns(_, _) | TableFault::Missing(_),
        ) => {
            add(line, b"table: ");
        }
        CompareFault::Adjust(_) => add(line, b"adjust: "),
        CompareFault::Apart(_) => add(line, b"compare: "),
        _ => {}
    }
}

/// Adds what a fault carries.
fn add_compare_carried(line: &mut VerdictLine, fault: CompareFault)
    requires { array_vec_len line.old + LONGEST_CARRIED ≤ LONGEST_VERDICT_LINE }
    ensures items { line.new.items ≡ line.old.items ++ spec.compare_carried_text fault }
    ensures len { array_vec_len line.new ≤ array_vec_len line.old + LONGEST_CARRIED }
{
    match fault {
        CompareFault::File(fault) => add_carried(line, fault),
        CompareFault::Table(TableFault::Columns(first, second)) => {
            add_number(line, Some(first));
            add_number(line, Some(second));
        }
        CompareFault::Table(TableFault::Missing(target)) => add_number(line, Some(target)),
        CompareFault::Adjust(AdjustFault::Residual(number)) => add_number(line, Some(number)),
        CompareFault::Apart(how_far) => {
            add(line, b" ");
            add_how_far(line, how_far);
        }
        _ => {}
    }
}
