//! The name of a fault in a line that names it.

ghost use Rattle.std.specs.Prelude.{◌↔◌, IsTrue};
ghost use Rattle.station_explain.specs.Naming.{Names, IsBeforePoint, IsFaultIn, LeavesNumber};
ghost use Rattle.station_explain.specs.Naming.{IsNumber};

/// The name of a fault in the line of a refusal, or in a part of it: without what stands before it,
/// and without the numbers that it carries, two at most.
pub fn fault_named_in(line: &str) -> &str
    ensures { Names line.now result.now }
{
    without_number(without_number(fault_in(before_point(line))))
}

/// A line up to its first point, which stands in a number with decimals.
fn before_point(line: &str) -> &str
    ensures { IsBeforePoint line.now result.now }
{
    match line.split_once(".") {
        Some((before, _)) => before,
        None => line,
    }
}

/// The fault that a line tells of, without what stands before it.
fn fault_in(line: &str) -> &str
    ensures { IsFaultIn line.now result.now }
{
    match line.rsplit_once(": ") {
        Some((_, fault)) => fault,
        None => line,
    }
}

/// A fault without the last number that it carries.
fn without_number(fault: &str) -> &str
    ensures { LeavesNumber fault.now result.now }
{
    match fault.rsplit_once(" ") {
        Some((name, word)) => { if is_number(word) { name } else { fault } }
        None => fault,
    }
}

fn is_number(word: &str) -> bool
    ensures { IsTrue result ↔ IsNumber word.now }
{
    word.as_bytes().iter().all(|byte| byte.is_ascii_digit())
}
