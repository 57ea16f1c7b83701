//! Laws of the definitions that contracts cite. The functions do nothing.
ghost use Rattle.std.specs.Prelude.{◌≡◌, ℕ, List};
ghost use Rattle.adjust_kernel.specs.Stations.{StationValue};
ghost use Rattle.station_results.specs.Greatest.{IsGreatest, IsGreatestSize};
ghost use Rattle.station_results.specs.Residuals.{AreAdjusted};
ghost use Rattle.station_results.specs.declared.adjusted.AdjustedObs.{AdjustedObs};

/// A station's adjusted observations are one list, and the place of the greatest residual is one,
/// and so is its size.
pub fn one_answer()
    ensures adjusted { (station : StationValue) (a b : List AdjustedObs)
        → AreAdjusted station a → AreAdjusted station b → a ≡ b }
    ensures greatest { (rows : List AdjustedObs) (m n : ℕ)
        → IsGreatest rows m → IsGreatest rows n → m ≡ n }
    ensures size { (station : StationValue) (a b : ℕ)
        → IsGreatestSize station a → IsGreatestSize station b → a ≡ b }
{}
