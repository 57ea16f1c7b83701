//! The report of a station beside stated directions.
ghost use Rattle.std.specs.Prelude.{◌≡◌, ◌≤◌, IfOk, length};
ghost use Rattle.adjust_kernel.specs.declared.bounds.TheConstants.{LARGEST_RESIDUAL_LIMIT};
ghost use Rattle.exact_adjustment.specs.Exact.{IsExact, KeepsLimit};
ghost use Rattle.exact_adjustment.specs.LeastOf.{AreTied};
ghost use Rattle.directions_apart.specs.Apart.{stated_by};
ghost use Rattle.least_directions.specs.LeastDirections.{AreApart};
ghost use Rattle.station_differences.specs.Differences.{AreCompared};
ghost use Rattle.table_report.specs.Stating.{IsReportBeside, beyond_of};
ghost use Rattle.table_report.specs.Values.{asked_of, report_of};

use crate::asked::Asked;
use crate::section::section_text;
use directions_apart::{MOST_OFF, apart_of};
use exact_adjustment::Adjustment;
use station_book::{ResultLimits, Surveyed};
use station_compare::HowFar;
use station_differences::{TargetDifference, differences_by};
use station_report::{computed_by, text_by};
use std::alloc::{AllocError, Global};

/// Directions that a table states, one for each target of a station, and what they are held to.
#[derive(Clone, Copy, Debug, Drop)]
pub struct StatedDirections<'a> {
    /// The directions, in parts, 81 of which are 0.000000001 gon.
    pub directions: &'a [i64],
    /// By so many parts the numbers of the table may be off from them.
    pub off: u64,
    /// The limit of the differences, in units of 0.000001 gon.
    pub limit: u32,
}

/// A report with a table.
#[derive(Debug, Drop)]
pub struct TableReport {
    /// Its text.
    pub text: Vec<u8>,
    /// How far the stated directions are apart from the least-squares ones, where that is beyond
    /// the limit in force.
    pub beyond: Option<HowFar>,
}

/// A station beside stated directions.
#[derive(Debug, Drop)]
pub struct Beside {
    /// What is stated of each target beside its least-squares direction.
    pub rows: Vec<TargetDifference>,
    /// How far the stated directions are apart from the least-squares ones, and the limit.
    pub how_far: HowFar,
    /// The text of the report with both.
    pub report: Vec<u8>,
}

/// A station beside these directions, by an adjustment of it. The report is the text of
/// `station_report`, with a section after the adjusted directions: that has each stated direction,
/// its difference from the adjusted one after the rotation that makes the largest difference
/// smallest, as it is and less the lower median of all, the limit, and whether they agree. The rest
/// is what it has of them.
///
/// All is exactly rounded, the middle of two upwards, but that differences from the median are of
/// the printed ones; and it is of the least-squares directions: least over all directions,
/// orientations and full turns.
///
/// The only error is that memory was refused.
pub fn beside_by(
    alloc: Global,
    asked: &Asked<'_, '_>,
    limits: ResultLimits,
    surveyed: &Surveyed,
    adjustment: &Adjustment,
    stated: &StatedDirections<'_>,
) -> Result<Beside, AllocError>
    requires exact { IsExact surveyed.now.station adjustment.now }
    requires limited { KeepsLimit surveyed.now.station adjustment.now LARGEST_RESIDUAL_LIMIT }
    requires tied { AreTied surveyed.now.station }
    requires each { length stated.now.directions.now ≡ length surveyed.now.station.targets }
    requires off { stated.now.off ≤ MOST_OFF }
    ensures rows { IfOk result (λ beside.
        AreCompared surveyed.now.station stated.now.directions.now beside.rows.items) }
    ensures apart { IfOk result (λ beside. AreApart surveyed.now.station
        (stated_by stated.now.directions.now) stated.now.off beside.how_far.apart) }
    ensures limit { IfOk result (λ beside. beside.how_far.limit ≡ stated.now.limit) }
    ensures report { IfOk result (λ beside.
        IsReportBeside (asked_of asked.now) limits surveyed.now stated.now.directions.now
        stated.now.off stated.now.limit (report_of beside)) }
{
    let station = surveyed.station();
    let rows = differences_by(alloc, station.targets(), adjustment, stated.directions)?;
    let how_far = HowFar {
        apart: apart_of(adjustment, stated.directions, stated.off),
        limit: stated.limit,
    };
    let computed = computed_by(alloc, station, adjustment)?;
    let language = asked.head.language();
    let section = section_text(alloc, language, asked.table_path, station, &rows, how_far)?;
    let report = text_by(alloc, asked.head, limits, surveyed, &computed, &section)?;
    Ok(Beside {
        rows,
        how_far,
        report,
    })
}

/// How far directions are apart, where that is beyond the limit.
pub fn beyond(how_far: HowFar) -> Option<HowFar>
    ensures { result ≡ beyond_of how_far }
{
    if how_far.apart <= how_far.limit {
        None
    } else {
        Some(how_far)
    }
}
