//! The check, with the promise of what it accepts.

ghost use Rattle.std.specs.Prelude.{◌≡◌, [], ℕ, List, Some, IfOk};
ghost use Rattle.byte_ends.specs.Keeping.{kept_by};
ghost use Rattle.sheet_promise.specs.Promised.{IsPromised};

use adjust_kernel::{Accepted, ResidualLimit};
use byte_ends::{Keeping, Source};
use station_book::Limits;
use station_check::{Fault, check_kept, check_slices};
use std::alloc::Global;

/// Checks a sheet against a field file by `check_slices`: what is accepted is promised of these
/// bytes.
pub fn check_slices_promised(
    alloc: Global,
    gsi: &[u8],
    sheet: &[u8],
    limits: Limits,
    limit: Option<ResidualLimit>,
) -> Result<Accepted, Fault>
    ensures { IfOk result (IsPromised limits limit gsi.now sheet.now) }
{
    // For the proof alone: limits keep their bounds.
    limits.recall();
    check_slices(alloc, gsi, sheet, limits, limit)
}

/// Checks a sheet against a field file by `check_kept`: what is accepted is promised of the bytes
/// that the readers gave and kept, whatever readers are under these: as those of files.
pub fn check_kept_promised<R: Source, Q: Source>(
    alloc: Global,
    gsi: Keeping<R>,
    sheet: &mut Keeping<Q>,
    limits: Limits,
    limit: Option<ResidualLimit>,
) -> (Result<Accepted, Fault>, Keeping<R>)
    requires new_gsi { kept_by gsi ≡ Some [] }
    requires new_sheet { kept_by sheet.old ≡ Some [] }
    ensures { (file stated : List ℕ) → kept_by result.1 ≡ Some file
        → kept_by sheet.new ≡ Some stated
        → IfOk result.0 (IsPromised limits limit file stated) }
{
    limits.recall();
    check_kept(alloc, gsi, sheet, limits, limit)
}
