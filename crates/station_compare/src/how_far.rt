//! How far a table of directions is apart from its station, beside the limit, as lines have it.

ghost use Rattle.std.specs.Prelude.{◌≡◌, ◌≤◌, ◌+◌, ◌++◌, length};
ghost use Rattle.angle_texts.specs.MgonTexts.{thousandths_text};
ghost use Rattle.arrayvec.specs.ArrayVec.{array_vec_len};
ghost use Rattle.station_compare.specs.AgreementTexts.{how_far_text};

use angle_texts::digit;
use station_check::{LONGEST_U32, LONGEST_VERDICT_LINE, VerdictLine, add, add_numbered};

/// How far a table of directions is apart from its station, and how far it may be.
#[derive(Clone, Copy, Debug, PartialEq, Eq, Drop)]
pub struct HowFar {
    /// So near one rotation brings every stated direction, and the number that its row writes, to
    /// the least-squares one, in units of 0.000001 gon.
    pub apart: u32,
    /// The limit that it was held to, in the same units: the stated one, or what is usual for the
    /// table's rows.
    pub limit: u32,
}

/// Bytes of a number of 32 bits with three decimals, at most.
const LONGEST_THOUSANDTHS: usize = LONGEST_U32 + 4;

/// Bytes of how far a table is apart, beside the limit, at most.
pub(crate) const LONGEST_HOW_FAR: usize = 13 + 5 + 2 * LONGEST_THOUSANDTHS;

/// Adds how far a table is apart and the limit, both in mgon, to a line that has room for them.
pub(crate) fn add_how_far(line: &mut VerdictLine, how_far: HowFar)
    requires { array_vec_len line.old + LONGEST_HOW_FAR ≤ LONGEST_VERDICT_LINE }
    ensures items { line.new.items ≡ line.old.items ++ how_far_text how_far }
    ensures len { array_vec_len line.new ≤ array_vec_len line.old + LONGEST_HOW_FAR }
{
    add_thousandths(line, b"", how_far.apart);
    add_thousandths(line, b" mgon, limit ", how_far.limit);
    add(line, b" mgon");
}

/// Adds a text and a number of thousandths after it: the whole, a point and three decimals.
pub(crate) fn add_thousandths(line: &mut VerdictLine, bytes: &[u8], number: u32)
    requires { array_vec_len line.old + length bytes.now + LONGEST_THOUSANDTHS
        ≤ LONGEST_VERDICT_LINE }
    ensures items { line.new.items ≡ line.old.items ++ (bytes.now ++ thousandths_text number) }
    ensures len { array_vec_len line.new
        ≤ array_vec_len line.old + length bytes.now + LONGEST_THOUSANDTHS }
{
    add_numbered(line, bytes, number / 1_000);
    let number = u64::from(number);
    add(
        line,
        &[b'.', digit(number / 100), digit(number / 10), digit(number)],
    );
}
