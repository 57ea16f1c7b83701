//! All that is answered of a station, as one answer.
ghost use Rattle.std.specs.Prelude.{◌≡◌, IfOk};
ghost use Rattle.adjust_kernel.specs.declared.bounds.TheConstants.{LARGEST_RESIDUAL_LIMIT};
ghost use Rattle.exact_adjustment.specs.Exact.{IsExact, KeepsLimit};
ghost use Rattle.exact_adjustment.specs.LeastOf.{AreTied};
ghost use Rattle.station_answers.specs.OneTexts.{one_whole};
ghost use Rattle.station_answers.specs.Parts.{whole_text};
ghost use Rattle.station_answers.specs.Saying.{SaysWhole};

use crate::accuracy::accuracy_by;
use crate::answer::StationAnswer;
use crate::directions::{Directions, directions_by};
use crate::faces::faces_by;
use crate::parts::push_part;
use direction_table::Decimals;
use exact_adjustment::{Adjustment, adjust};
use report_rows::text_of as rows_by;
use row_forms::RowForm;
use station_book::{ResultLimits, Surveyed};
use station_compare::CompareFault;
use station_report::{Head, computed_by, text_by as report_by};
use std::alloc::{AllocError, Global};

/// All of a station, of one adjustment: the table of its directions, the rows of its report, how
/// accurate it is, what its face differences say together, and its report, each after a line of its
/// title and of how many bytes it has.
///
/// The directions, the rows and the report are those of [`crate::Directions`],
/// [`crate::ReportRows`] and [`crate::Report`], to the byte.
#[derive(Clone, Copy, Debug, Drop)]
pub struct Whole<'a> {
    /// The path of the field file, as the head of the report names it.
    pub path: &'a [u8],
    /// How many decimals of the directions are written.
    pub decimals: Decimals,
}

impl<'a> StationAnswer for Whole<'a> {
    ghost says = { λ whole. SaysWhole whole.decimals whole.path.now };

    fn text_of(
        &self,
        alloc: Global,
        limits: ResultLimits,
        surveyed: &Surveyed,
    ) -> Result<Vec<u8>, CompareFault> {
        let adjustment = adjust(alloc, surveyed.station(), limits.residual)?;
        Ok(text_by(alloc, self, limits, surveyed, &adjustment)?)
    }

    ghost one = { λ whole limits its a b p q. one_whole whole.decimals whole.path.now limits its a b
        p q };

    ghost adjusts = { λ _ _ its text p. p.are_directions.rounded.adjustable };
}

/// The text, by an adjustment of the station.
fn text_by(
    alloc: Global,
    whole: &Whole<'_>,
    limits: ResultLimits,
    surveyed: &Surveyed,
    adjustment: &Adjustment,
) -> Result<Vec<u8>, AllocError>
    requires exact { IsExact surveyed.now.station adjustment.now }
    requires limited { KeepsLimit surveyed.now.station adjustment.now LARGEST_RESIDUAL_LIMIT }
    requires tied { AreTied surveyed.now.station }
    ensures { IfOk result (λ text.
        SaysWhole whole.now.decimals whole.now.path.now limits surveyed.now text.items) }
{
    let station = surveyed.station();
    let computed = computed_by(alloc, station, adjustment)?;
    let asked = Directions {
        decimals: whole.decimals,
        form: RowForm::Commas,
    };
    let directions = directions_by(alloc, station, adjustment, asked)?;
    let rows = rows_by(alloc, surveyed, &computed.rows, RowForm::Commas)?;
    let accuracy = accuracy_by(alloc, station, &computed)?;
    let faces = faces_by(alloc, surveyed)?;
    let head = Head {
        path: whole.path,
        notes: None,
    };
    let report = report_by(alloc, head, limits, surveyed, &computed, &[])?;
    let text = joined(alloc, &directions, &rows, &accuracy, &faces, &report)?;
    Ok(text)
}

/// The parts in one text.
fn joined(
    alloc: Global,
    directions: &[u8],
    rows: &[u8],
    accuracy: &[u8],
    faces: &[u8],
    report: &[u8],
) -> Result<Vec<u8>, AllocError>
    ensures { IfOk result (λ text. text.items
        ≡ whole_text directions.now rows.now accuracy.now faces.now report.now) }
{
    let mut text = Vec::new(alloc);
    push_part(&mut text, b"directions", directions)?;
    push_part(&mut text, b"rows", rows)?;
    push_part(&mut text, b"accuracy", accuracy)?;
    push_part(&mut text, b"faces", faces)?;
    push_part(&mut text, b"report", report)?;
    Ok(text)
}
