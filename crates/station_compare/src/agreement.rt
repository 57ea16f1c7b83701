//! What is said of a table that agrees, and its line.

ghost use Rattle.std.specs.Prelude.{◌≡◌, ◌≤◌, length};
ghost use Rattle.station_compare.specs.AgreementTexts as spec;

use crate::how_far::{HowFar, add_how_far, add_thousandths};
use adjust_kernel::Name;
use station_check::{VerdictLine, add, add_numbered};

/// A table of directions that agrees with its station, in numbers.
#[derive(Clone, Copy, Debug, PartialEq, Eq, Drop)]
pub struct Agreement {
    /// The station.
    pub name: Name,
    /// How many sets it has.
    pub sets: u32,
    /// How many targets it has.
    pub targets: u32,
    /// How far the table is apart from it: no further than the limit.
    pub how_far: HowFar,
    /// Its greatest least-squares residual, without the sign, in units of 0.001 mgon.
    pub greatest: u32,
}

/// The line of a table that agrees, with its line feed.
pub fn agreement_line(agreement: Agreement) -> VerdictLine
    ensures { result.items ≡ spec.agreement_line agreement }
{
    let mut line = VerdictLine::new();
    add(&mut line, b"agrees ");
    add(&mut line, agreement.name.bytes());
    add_numbered(&mut line, b": ", agreement.sets);
    add(&mut line, sets_word(agreement.sets));
    add_numbered(&mut line, b", ", agreement.targets);
    add(&mut line, targets_word(agreement.targets as usize));
    add(&mut line, b", within ");
    add_how_far(&mut line, agreement.how_far);
    add_thousandths(&mut line, b", greatest residual ", agreement.greatest);
    add(&mut line, b" mgon\n");
    line
}

/// The word after so many sets.
fn sets_word(count: u32) -> &'static [u8]
    ensures text { result.now ≡ spec.sets_word count }
    ensures short { length result.now ≤ 5 }
{
    if count == 1 { b" set" } else { b" sets" }
}

/// The word after so many targets, with the blank before it.
pub fn targets_word(count: usize) -> &'static [u8]
    ensures text { result.now ≡ spec.targets_word count }
    ensures short { length result.now ≤ 8 }
{
    if count == 1 { b" target" } else { b" targets" }
}
