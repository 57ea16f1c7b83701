//! The verdict on a sheet of a station.
//!
//! The sheet is the least-squares adjustment of its observations where the residuals of each target
//! and of each set add to 0: so nothing is searched for, and no other choice is looked at. The
//! residuals are gone through once, for their sums and for the greatest of them.

ghost use Rattle.std.specs.Prelude.{◌≡◌, ◌≤◌, ◌<◌, ℕ, pos, [], length, Option, Result, OnOk, IfOk};
ghost use Rattle.std.specs.Prelude.{IfErr, IfNone, IfSome, Err};
ghost use Rattle.adjust_kernel.specs.declared.accepted.Accepted.{Accepted};
ghost use Rattle.adjust_kernel.specs.declared.kernel_fault.KernelFault.{KernelFault};
ghost use Rattle.adjust_kernel.specs.Greatest.{IsGreatest};
ghost use Rattle.adjust_kernel.specs.Matching.{Matches};
ghost use Rattle.adjust_kernel.specs.Pairs.{choice_stated_by};
ghost use Rattle.adjust_kernel.specs.Promises.{IsKernelAnswer};
ghost use Rattle.adjust_kernel.specs.Sheets.{IsSheet};
ghost use Rattle.adjust_kernel.specs.Stations.{IsStation};
ghost use Rattle.adjust_kernel.specs.Tallies.{all_added};
ghost use Rattle.adjust_kernel.specs.Verdict.{IsVerdict, IsFault, TargetsAddUp, SetsAddUp};
ghost use Rattle.adjust_kernel.specs.Verdict.{HoldsTogether, KeepsLimit, IsAcceptance};
ghost use Rattle.adjust_kernel.specs.Verdict.{observations};

use crate::accepted::Accepted;
use crate::bounds::{LARGEST_RESIDUAL_LIMIT, MOST_ROWS};
use crate::connection::is_connected;
use crate::kernel_fault::KernelFault;
use crate::matching::check_matches;
use crate::residual_limit::{ResidualLimit, first_above_limit};
use crate::running::Running;
use crate::sheet::Sheet;
use crate::station::Station;
use crate::sums::{add_residuals, first_uneven_set, first_uneven_target};
use crate::tally::Tally;

/// Checks a sheet against its station, under a residual limit where one is stated. Takes no memory.
///
/// An accepted sheet has just the station's observations, and is their least-squares adjustment for
/// the full turns that it states: whatever directions and orientations one takes, fractions of any
/// denominator, the sum of squares is no smaller. Under a residual limit it is no smaller for any
/// other full turns either.
///
/// # Errors
///
/// The first fault that stands, in the order of `KernelFault`.
pub fn check(
    station: &Station,
    sheet: &Sheet,
    limit: Option<ResidualLimit>,
) -> Result<Accepted, KernelFault>
    ensures { IsKernelAnswer station.now sheet.now limit result }
{
    check_with(Running::new(), station, sheet, limit)
}

/// Checks a sheet as `check` does, with the sums of this tally, to which nothing was added.
pub fn check_with<T: Tally>(
    tally: T,
    station: &Station,
    sheet: &Sheet,
    limit: Option<ResidualLimit>,
) -> Result<Accepted, KernelFault>
    requires nothing { T.StandsFor tally [] }
    requires room { T.room tally ≡ MOST_ROWS }
    ensures { IsKernelAnswer station.now sheet.now limit result }
{
    verdict_of(tally, station, sheet, limit)
}

/// The verdict: the tests in their order.
fn verdict_of<T: Tally>(
    tally: T,
    station: &Station,
    sheet: &Sheet,
    limit: Option<ResidualLimit>,
) -> Result<Accepted, KernelFault>
    requires nothing { T.StandsFor tally [] }
    requires room { T.room tally ≡ MOST_ROWS }
    ensures verdict { IsVerdict station.now sheet.now limit result }
    ensures valid_station { IsStation station.now }
    ensures valid_sheet { IsSheet sheet.now }
    ensures valid_limit { OnOk result (IfSome limit (λ n. n ≤ LARGEST_RESIDUAL_LIMIT)) }
{
    check_matches(station, sheet)?;
    let greatest_residual = check_sums(tally, station, sheet)?;
    check_connection(station, sheet)?;
    check_limit(station, sheet, limit)?;
    Ok(acceptance(station, sheet, greatest_residual))
}

/// The greatest size of a residual, where the residuals of each target and of each set add to 0; if
/// not, the first that don't.
fn check_sums<T: Tally>(tally: T, station: &Station, sheet: &Sheet) -> Result<i128, KernelFault>
    requires nothing { T.StandsFor tally [] }
    requires room { T.room tally ≡ MOST_ROWS }
    requires matches { Matches station.now sheet.now }
    ensures targets { OnOk result (TargetsAddUp station.now sheet.now) }
    ensures sets { OnOk result (SetsAddUp station.now sheet.now) }
    ensures greatest_residual { IfOk result
        (IsGreatest (choice_stated_by sheet.now) (observations station.now sheet.now)) }
    ensures fault { IfErr result (IsFault station.now sheet.now) }
{
    let (tally, greatest_residual) = add_residuals(tally, sheet, station.obs());
    if let Some(target) = first_uneven_target(&tally, station.targets().len() as u32) {
        return Err(KernelFault::TargetSum(target + 1));
    }
    if let Some(set) = first_uneven_set(&tally, station.sets().len() as u32) {
        return Err(KernelFault::SetSum(set + 1));
    }
    Ok(greatest_residual)
}

/// `Ok` where the observations hold all sets and targets together; else that fault.
fn check_connection(station: &Station, sheet: &Sheet) -> Result<(), KernelFault>
    requires matches { Matches station.now sheet.now }
    requires targets { TargetsAddUp station.now sheet.now }
    requires sets { SetsAddUp station.now sheet.now }
    ensures ok { OnOk result (HoldsTogether station.now sheet.now) }
    ensures fault { IfErr result (IsFault station.now sheet.now) }
{
    if is_connected(station.sets().len(), station.targets().len(), station.obs()) {
        return Ok(());
    }
    Err(KernelFault::NotConnected)
}

/// `Ok` where each residual is within the limit, if one is stated; else the first that isn't.
fn check_limit(
    station: &Station,
    sheet: &Sheet,
    limit: Option<ResidualLimit>,
) -> Result<(), KernelFault>
    requires matches { Matches station.now sheet.now }
    requires targets { TargetsAddUp station.now sheet.now }
    requires sets { SetsAddUp station.now sheet.now }
    requires connected { HoldsTogether station.now sheet.now }
    ensures ok { OnOk result (IfSome limit (KeepsLimit station.now sheet.now)) }
    ensures valid { OnOk result (IfSome limit (λ n. n ≤ LARGEST_RESIDUAL_LIMIT)) }
    ensures fault { IfErr result (λ fault. IsVerdict station.now sheet.now limit (Err fault)) }
{
    if let Some(limit) = limit {
        if let Some(row) = first_above_limit(sheet, station.obs(), limit.half_units()) {
            return Err(KernelFault::Residual(row as u32 + 1));
        }
    }
    Ok(())
}

/// What is said of an accepted sheet.
fn acceptance(station: &Station, sheet: &Sheet, greatest_residual: i128) -> Accepted
    requires greatest { IsGreatest (choice_stated_by sheet.now)
        (observations station.now sheet.now) greatest_residual }
    ensures { IsAcceptance station.now sheet.now result }
{
    Accepted {
        name: station.name(),
        sets: station.sets().len() as u32,
        targets: station.targets().len() as u32,
        directions: station.obs().len() as u32,
        greatest: greatest_residual,
        denominator: sheet.denominator(),
    }
}
