//! What the check says of readers that keep their bytes.

ghost use Rattle.std.specs.Prelude.{◌≡◌, [], ℕ, List, Some, IfOk};
ghost use Rattle.byte_ends.specs.Keeping.{kept_by};
ghost use Rattle.station_check.specs.Accepted.{IsAccepted};
ghost use Rattle.station_check.specs.Came.{source_of};

use crate::check::check_sources;
use crate::fault::Fault;
use adjust_kernel::{Accepted, ResidualLimit};
use byte_ends::{Keeping, Source};
use station_book::Limits;
use std::alloc::Global;

/// Checks a sheet against a field file, as [`check_sources`] does and by it, by readers that keep
/// their bytes.
///
/// An acceptance is of exactly the bytes that were kept, whatever readers are under these: as those
/// of files, of which no contract says what they give.
pub fn check_kept<R: Source, Q: Source>(
    alloc: Global,
    gsi: Keeping<R>,
    sheet: &mut Keeping<Q>,
    limits: Limits,
    limit: Option<ResidualLimit>,
) -> (Result<Accepted, Fault>, Keeping<R>)
    requires new_gsi { kept_by gsi ≡ Some [] }
    requires new_sheet { kept_by sheet.old ≡ Some [] }
    ensures { (file stated : List ℕ) → kept_by result.1 ≡ Some file
        → kept_by sheet.new ≡ Some stated
        → IfOk result.0 (IsAccepted limits limit (source_of file) (source_of stated)) }
{
    check_sources(alloc, gsi, sheet, limits, limit)
}
