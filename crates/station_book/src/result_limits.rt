//! What the results of a station are held to.

ghost use Rattle.std.specs.Prelude.{◌≡◌};
ghost use Rattle.station_book.specs.ResultLimits.{of_faces};

use crate::limits::Limits;
use adjust_kernel::{LARGEST_RESIDUAL_LIMIT, ResidualLimit};

/// What a station's results are held to: its face differences, and the residuals of its least
/// squares.
#[derive(Clone, Copy, Debug, Drop)]
pub struct ResultLimits {
    /// What 2c and 2i may be at most, either way.
    pub faces: Limits,
    /// What a residual may be at most, either way.
    pub residual: ResidualLimit,
}

impl ResultLimits {
    /// These limits of face differences, and the largest limit of residuals.
    pub fn of_faces(faces: Limits) -> ResultLimits
        ensures { result ≡ of_faces faces }
    {
        let residual = ResidualLimit::new(LARGEST_RESIDUAL_LIMIT).unwrap();
        ResultLimits { faces, residual }
    }
}
