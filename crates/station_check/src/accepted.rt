//! The line of an accepted sheet.

ghost use Rattle.std.specs.Prelude.{◌≡◌, ◌≤◌, ◌+◌, ◌++◌, length, codes, decimal};
ghost use Rattle.std.specs.Fmt.{signed_decimal};
ghost use Rattle.arrayvec.specs.ArrayVec.{array_vec_len};
ghost use Rattle.station_check.specs.VerdictLines.{residual_text, accepted_line};

use crate::verdict_line::{LONGEST_U64, LONGEST_VERDICT_LINE, VerdictLine, add, add_numbered};
use adjust_kernel::Accepted;
use itoa::Buffer;

/// Bytes of the greatest residual, a number of 128 bits with its sign, and of the words before it,
/// at most.
const GREATEST: usize = 31 + 40;

/// Bytes of the greatest residual, its denominator and the end of the line, at most.
const RESIDUAL: usize = GREATEST + 1 + LONGEST_U64 + 1;

/// The line of an accepted sheet, with its line feed.
#[tactic(auto, unfolding(crate::specs::VerdictLines::accepted_line))]
pub fn accepted_line(accepted: Accepted) -> VerdictLine
    ensures { result.items ≡ accepted_line accepted }
{
    let mut line = VerdictLine::new();
    add(&mut line, b"accepted ");
    add(&mut line, accepted.name.bytes());
    add_numbered(&mut line, b": ", accepted.sets);
    add_numbered(&mut line, b" sets, ", accepted.targets);
    add_numbered(&mut line, b" targets, ", accepted.directions);
    add_residual(&mut line, accepted);
    line
}

/// Adds the greatest residual of an accepted sheet, and ends the line.
fn add_residual(line: &mut VerdictLine, accepted: Accepted)
    requires { array_vec_len line.old + RESIDUAL ≤ LONGEST_VERDICT_LINE }
    ensures { line.new.items ≡ line.old.items ++ residual_text accepted }
{
    let denominator = accepted.denominator;
    add_greatest(line, accepted);
    add_long(line, b"/", denominator);
    add(line, b"\n");
}

/// Adds the greatest residual of an accepted sheet.
fn add_greatest(line: &mut VerdictLine, accepted: Accepted)
    requires { array_vec_len line.old + GREATEST ≤ LONGEST_VERDICT_LINE }
    ensures items { line.new.items ≡ line.old.items
        ++ (codes " directions, greatest residual " ++ signed_decimal accepted.greatest) }
    ensures len { array_vec_len line.new ≤ array_vec_len line.old + GREATEST }
{
    let mut digits = Buffer::new();
    add(line, b" directions, greatest residual ");
    add(line, digits.format(accepted.greatest).as_bytes());
}

/// Adds a text and a long number after it.
fn add_long(line: &mut VerdictLine, bytes: &[u8], number: u64)
    requires { array_vec_len line.old + length bytes.now + LONGEST_U64 ≤ LONGEST_VERDICT_LINE }
    ensures items { line.new.items ≡ line.old.items ++ (bytes.now ++ decimal number) }
    ensures len { array_vec_len line.new ≤ array_vec_len line.old + length bytes.now + LONGEST_U64 }
{
    let mut digits = Buffer::new();
    add(line, bytes);
    add(line, digits.format(number).as_bytes());
}
