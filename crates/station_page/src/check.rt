//! The check of a sheet, for a page.

ghost use Rattle.std.specs.Prelude.{◌<◌, ◌≤◌, SomeIff, length};
ghost use Rattle.station_check.specs.RunEndings.{status_of};
ghost use Rattle.station_check.specs.declared.verdict_line.TheConstants.{LONGEST_VERDICT_LINE};
ghost use Rattle.station_page.specs.Answers.{IsCheckOf};
ghost use Rattle.station_page.specs.HandedOut.{HandsOut, Shows, ShowsInRange, verdict_line};
ghost use Rattle.station_page.specs.Limits.{AreFaceLimits, IsResidualLimit, stated_limit};

use crate::hand_out::{OUT_OF_RANGE, hand_out};
use adjust_kernel::{Accepted, ResidualLimit};
use station_book::Limits;
use station_check::{ACCEPTED, Fault, REFUSED, accepted_line, check_slices, refusal_line};
use std::alloc::Global;

/// Checks a sheet against a field file, both whole, and hands out the line of the verdict.
///
/// The limits of 2c and 2i are in units of 0.00001 gon, at most 1,000,000; `residual` is the
/// residual limit in half units (0.005 mgon each), at most 2,000, where `is_stated` says that one
/// is stated, and else no matter what.
///
/// Answers 0 where the sheet is accepted, 1 where it is refused, 2 for a number out of its range,
/// and 3 where `out` has too little room; 192 bytes are always enough.
#[unsafe(no_mangle)]
pub extern "C" fn station_page_check(
    alloc: Global,
    gsi: &[u8],
    sheet: &[u8],
    two_c: u32,
    two_i: u32,
    is_stated: bool,
    residual: u32,
    out: &mut [u8],
    written: &mut usize,
) -> u8
    ensures { ShowsInRange (AreFaceLimits two_c two_i × IsResidualLimit is_stated residual)
        (IsCheckOf two_c two_i is_stated residual gsi.now sheet.now) out.old out.new written.new
        result }
{
    *written = 0;
    let Some(limits) = Limits::new(two_c, two_i) else {
        return OUT_OF_RANGE;
    };
    let Some(residual) = residual_limit(is_stated, residual) else {
        return OUT_OF_RANGE;
    };
    let verdict = check_slices(alloc, gsi, sheet, limits, residual);
    hand_out_verdict(&verdict, out, written)
}

/// The residual limit, where it is said that one is stated, unless it is above the largest.
fn residual_limit(is_stated: bool, residual: u32) -> Option<Option<ResidualLimit>>
    ensures { SomeIff result (IsResidualLimit is_stated residual) (stated_limit is_stated residual) }
{
    if !is_stated {
        return Some(None);
    }
    Some(Some(ResidualLimit::new(residual)?))
}

/// Hands out the line of a verdict.
fn hand_out_verdict(verdict: &Result<Accepted, Fault>, out: &mut [u8], written: &mut usize) -> u8
    ensures hands_out { Shows (HandsOut (status_of verdict.now) (verdict_line verdict.now)) out.old
        out.new written.new result }
    ensures answers { LONGEST_VERDICT_LINE ≤ length out.old → result < 2 }
{
    match verdict {
        Ok(accepted) => hand_out(ACCEPTED, accepted_line(*accepted).as_slice(), out, written),
        Err(fault) => hand_out(REFUSED, refusal_line(*fault).as_slice(), out, written),
    }
}
