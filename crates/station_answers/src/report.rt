//! The report of a station, as an answer.
ghost use Rattle.station_answers.specs.OneTexts.{one_report};
ghost use Rattle.station_answers.specs.Saying.{SaysReport};
ghost use Rattle.station_report.specs.NoteTexts.{head_of};

use crate::answer::StationAnswer;
use station_book::{ResultLimits, Surveyed};
use station_compare::CompareFault;
use station_report::{Head, computed_of, text_by};
use std::alloc::Global;

/// The report of a station: its readings and face differences, zenith angles, adjusted directions,
/// residuals, the greatest of them, the sum of their squares, and the standard deviations of one
/// two-face direction and of each adjusted direction.
///
/// All is exactly rounded, the middle of two upwards, and of the least-squares directions: least
/// over all directions, orientations and full turns.
#[derive(Clone, Copy, Debug, Drop)]
pub struct Report<'a, 'n> {
    /// What stands in its head that is not of the station.
    pub head: Head<'a, 'n>,
}

impl<'a, 'n> StationAnswer for Report<'a, 'n> {
    ghost says = { λ report. SaysReport (head_of report.head) };

    fn text_of(
        &self,
        alloc: Global,
        limits: ResultLimits,
        surveyed: &Surveyed,
    ) -> Result<Vec<u8>, CompareFault> {
        let computed = computed_of(alloc, surveyed.station(), limits.residual)?;
        Ok(text_by(alloc, self.head, limits, surveyed, &computed, &[])?)
    }

    ghost one = { λ report limits its a b p q.
        one_report (head_of report.head) limits its a b p q };

    ghost adjusts = { λ _ _ its text p. p.computed.adjusted.adjustable };
}
