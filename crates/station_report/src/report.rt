//! The report of a station.
ghost use Rattle.std.specs.Prelude.{IfOk};
ghost use Rattle.station_report.specs.Computing.{IsComputedOf};
ghost use Rattle.station_report.specs.NoteTexts.{head_of};
ghost use Rattle.station_report.specs.Stating.{IsReportText};

use crate::computed::Computed;
use crate::head::Head;
use crate::text::text_of;
use station_book::{ResultLimits, Surveyed};
use std::alloc::{AllocError, Global};

/// The text of the report of a station, by what was computed of it, with a section after its
/// adjusted directions: that of a table beside them, or none.
///
/// The only error is that memory was refused.
pub fn text_by(
    alloc: Global,
    head: Head<'_, '_>,
    limits: ResultLimits,
    surveyed: &Surveyed,
    computed: &Computed,
    section: &[u8],
) -> Result<Vec<u8>, AllocError>
    requires { IsComputedOf surveyed.now.station computed.now }
    ensures { IfOk result (λ text.
        IsReportText (head_of head.entry) limits surveyed.now section.now text.items) }
{
    text_of(alloc, head, limits, surveyed, section, computed)
}
