//! The verdict of a comparison as data, in no memory but its own.
ghost use Rattle.std.specs.Prelude.{◌≡◌, ◌≤◌, ◌+◌, ◌++◌, length};
ghost use Rattle.arrayvec.specs.ArrayVec.{array_vec_len};
ghost use Rattle.station_check.specs.declared.verdict_line.TheConstants.{LONGEST_VERDICT_LINE};
ghost use Rattle.table_answers.specs.declared.verdict_row.TheConstants.{LONGEST_COUNTED};
ghost use Rattle.table_answers.specs.declared.verdict_row.TheConstants.{LONGEST_ROW};
ghost use Rattle.table_answers.specs.VerdictRows as spec;
ghost use Rattle.table_answers.specs.Wholes as wholes;

use adjust_kernel::LONGEST_FAULT_NAME;
use direction_table::TableFault;
use exact_adjustment::AdjustFault;
use gsi_file::FileFault;
use station_book::BookFault;
use station_check::{Fault, LONGEST_U32, VerdictLine, add, add_numbered};
use station_compare::{Agreement, CompareFault, HowFar, agreement_line, refusal_line};

/// Bytes of what a fault counts, at most.
const LONGEST_COUNTED: usize = 11;

/// Bytes of a row, at most: the name of a fault, what that counts, and five numbers, each with a
/// comma, and three more.
const LONGEST_ROW: usize = LONGEST_FAULT_NAME + LONGEST_COUNTED + 5 * (LONGEST_U32 + 1) + 4;

/// The row of a verdict, below its titles: that the table agrees, or the name of the fault and the
/// place of which it speaks. Distances are in units of 0.000001 gon.
pub fn verdict_rows(verdict: &Result<Agreement, CompareFault>) -> VerdictLine
    ensures { result.items ≡ spec.verdict_rows verdict.now }
{
    let mut rows = VerdictLine::new();
    add(
        &mut rows,
        b"verdict,sets,targets,apart,limit,greatest,place,first,second\n",
    );
    match verdict {
        Ok(agreement) => add_agreement(&mut rows, *agreement),
        Err(fault) => {
            add(&mut rows, fault.name().as_bytes());
            add_fault(&mut rows, *fault);
        }
    }
    rows
}

/// Adds the row of a table that agrees.
fn add_agreement(rows: &mut VerdictLine, agreement: Agreement)
    requires { array_vec_len rows.old + LONGEST_ROW ≤ LONGEST_VERDICT_LINE }
    ensures { rows.new.items ≡ rows.old.items ++ spec.agreement_row agreement }
{
    add(rows, b"agrees");
    add_numbered(rows, b",", agreement.sets);
    add_numbered(rows, b",", agreement.targets);
    add_numbered(rows, b",", agreement.how_far.apart);
    add_numbered(rows, b",", agreement.how_far.limit);
    add_numbered(rows, b",", agreement.greatest);
    add(rows, b",,,\n");
}

/// Adds what a fault speaks of.
fn add_fault(rows: &mut VerdictLine, fault: CompareFault)
    requires { array_vec_len rows.old + LONGEST_ROW ≤ LONGEST_VERDICT_LINE }
    ensures { rows.new.items ≡ rows.old.items ++ spec.fault_cells fault }
{
    match fault {
        CompareFault::Apart(how_far) => add_apart(rows, how_far),
        CompareFault::Table(fault) => add_table_fault(rows, fault),
        CompareFault::Adjust(fault) => add_adjust_fault(rows, fault),
        CompareFault::File(fault) => add_file_fault(rows, fault),
        _ => add(rows, b",,,,,,,,\n"),
    }
}

/// Adds how far a table is apart, and its limit.
fn add_apart(rows: &mut VerdictLine, how_far: HowFar)
    requires { array_vec_len rows.old + LONGEST_ROW ≤ LONGEST_VERDICT_LINE }
    ensures { rows.new.items ≡ rows.old.items ++ spec.apart_cells how_far }
{
    add_numbered(rows, b",,,", how_far.apart);
    add_numbered(rows, b",", how_far.limit);
    add(rows, b",,,,\n");
}

/// Adds the row, the columns or the target of which a fault of the table speaks.
fn add_table_fault(rows: &mut VerdictLine, fault: TableFault)
    requires { array_vec_len rows.old + LONGEST_ROW ≤ LONGEST_VERDICT_LINE }
    ensures { rows.new.items ≡ rows.old.items ++ spec.table_cells fault }
{
    match fault {
        TableFault::Row(number, _) => add_place(rows, b"row", number),
        TableFault::Columns(first, second) => add_pair(rows, b"columns", first, second),
        TableFault::Missing(target) => add_place(rows, b"target", target),
        _ => add(rows, b",,,,,,,,\n"),
    }
}

/// Adds the observation of which a fault of the adjustment speaks.
fn add_adjust_fault(rows: &mut VerdictLine, fault: AdjustFault)
    requires { array_vec_len rows.old + LONGEST_ROW ≤ LONGEST_VERDICT_LINE }
    ensures { rows.new.items ≡ rows.old.items ++ spec.adjust_cells fault }
{
    match fault {
        AdjustFault::Residual(number) => add_place(rows, b"observation", number),
        _ => add(rows, b",,,,,,,,\n"),
    }
}

/// Adds the block of the field file at which a fault stands.
fn add_file_fault(rows: &mut VerdictLine, fault: Fault)
    requires { array_vec_len rows.old + LONGEST_ROW ≤ LONGEST_VERDICT_LINE }
    ensures { rows.new.items ≡ rows.old.items ++ spec.file_cells fault }
{
    match fault {
        Fault::Gsi(fault) => add_gsi_fault(rows, fault),
        Fault::Book(fault) => add_book_fault(rows, fault),
        _ => add(rows, b",,,,,,,,\n"),
    }
}

/// Adds the block at which a fault of the words of a field file stands.
fn add_gsi_fault(rows: &mut VerdictLine, fault: FileFault)
    requires { array_vec_len rows.old + LONGEST_ROW ≤ LONGEST_VERDICT_LINE }
    ensures { rows.new.items ≡ rows.old.items ++ spec.gsi_cells fault }
{
    match fault {
        FileFault::At(number, _) => add_place(rows, b"block", number),
        _ => add(rows, b",,,,,,,,\n"),
    }
}

/// Adds the block at which a fault of the book of a field file stands.
fn add_book_fault(rows: &mut VerdictLine, fault: BookFault)
    requires { array_vec_len rows.old + LONGEST_ROW ≤ LONGEST_VERDICT_LINE }
    ensures { rows.new.items ≡ rows.old.items ++ spec.book_cells fault }
{
    match fault {
        BookFault::At(number, _) => add_place(rows, b"block", number),
        _ => add(rows, b",,,,,,,,\n"),
    }
}

/// Adds a place by its number, after what is counted.
fn add_place(rows: &mut VerdictLine, counted: &[u8], number: u32)
    requires room { array_vec_len rows.old + LONGEST_ROW ≤ LONGEST_VERDICT_LINE }
    requires short { length counted.now ≤ LONGEST_COUNTED }
    ensures { rows.new.items ≡ rows.old.items ++ spec.place_cells counted.now number }
{
    add(rows, b",,,,,,");
    add(rows, counted);
    add_numbered(rows, b",", number);
    add(rows, b",\n");
}

/// Adds two places by their numbers, after what is counted.
fn add_pair(rows: &mut VerdictLine, counted: &[u8], first: u32, second: u32)
    requires room { array_vec_len rows.old + LONGEST_ROW ≤ LONGEST_VERDICT_LINE }
    requires short { length counted.now ≤ LONGEST_COUNTED }
    ensures { rows.new.items ≡ rows.old.items ++ spec.pair_cells counted.now first second }
{
    add(rows, b",,,,,,");
    add(rows, counted);
    add_numbered(rows, b",", first);
    add_numbered(rows, b",", second);
    add(rows, b"\n");
}

/// The line of a verdict: that of the agreement, or of the refusal.
pub fn verdict_line(verdict: &Result<Agreement, CompareFault>) -> VerdictLine
    ensures { result.items ≡ wholes.verdict_line verdict.now }
{
    match verdict {
        Ok(agreement) => agreement_line(*agreement),
        Err(fault) => refusal_line(*fault),
    }
}
