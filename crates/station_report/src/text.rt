//! The text of a report, made in memory.
ghost use Rattle.std.specs.Prelude.{◌≡◌, ◌<◌, IfOk, length};
ghost use Rattle.station_report.specs.NoteTexts.{head_of};
ghost use Rattle.station_report.specs.ReportTexts as spec;

use crate::computed::Computed;
use crate::directions::push_directions;
use crate::ending::push_agreement;
use crate::head::{Head, push_head};
use crate::notes::push_signature;
use crate::readings::push_readings;
use crate::zeniths::push_zenith_angles;
use station_book::{ResultLimits, Surveyed};
use std::alloc::{AllocError, Global};

/// The text of the report of a station, with this head, and with a section after
/// the adjusted directions.
///
/// The only error is that memory was refused.
pub(crate) fn text_of(
    alloc: Global,
    head: Head<'_, '_>,
    limits: ResultLimits,
    surveyed: &Surveyed,
    section: &[u8],
    computed: &Computed,
) -> Result<Vec<u8>, AllocError>
    requires each_target { length computed.now.directions.items
        ≡ length surveyed.now.station.targets }
    requires each { length computed.now.rows.items ≡ length surveyed.now.station.obs }
    requires inside { computed.now.greatest < length surveyed.now.station.obs }
    ensures { IfOk result (λ text. text.items ≡ spec.report_text (head_of head.entry) limits surveyed.now
        computed.now.directions.items section.now computed.now.rows.items computed.now.greatest
        computed.now.accuracy) }
{
    let language = head.language();
    let station = surveyed.station();
    let mut text = Vec::new(alloc);
    push_head(alloc, &mut text, head, limits, station)?;
    push_readings(alloc, &mut text, language, surveyed)?;
    push_zenith_angles(alloc, &mut text, language, surveyed)?;
    push_directions(alloc, &mut text, language, station, &computed.directions)?;
    text.extend_from_slice(section)?;
    push_agreement(
        alloc,
        &mut text,
        language,
        station,
        &computed.rows,
        computed.greatest,
        computed.accuracy,
    )?;
    push_signature(&mut text, head.notes)?;
    Ok(text)
}
