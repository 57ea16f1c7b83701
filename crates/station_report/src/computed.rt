//! What a report computes of a station.
ghost use Rattle.std.specs.Option.{ForSome};
ghost use Rattle.station_report.specs.Small.{AreSmall};

use crate::accuracy::Accuracy;
use station_results::AdjustedObs;

/// What was computed of a station.
#[derive(Debug, Drop)]
pub struct Computed {
    /// The adjusted directions of its targets, counted from the first, in units of 0.000000001 gon:
    /// multiples of 1,000.
    pub directions: Vec<u64>,
    /// Its observations with their residuals.
    pub rows: Vec<AdjustedObs>,
    /// The place of the greatest residual.
    pub greatest: usize,
    /// The accuracy of its directions; none where there are no degrees of freedom.
    pub accuracy: Option<Accuracy>,
    ghost small: { ForSome accuracy AreSmall },
}
