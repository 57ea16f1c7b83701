//! Whether a station's sets are all complete.
ghost use Rattle.std.specs.Prelude.{◌↔◌, IsTrue};
ghost use Rattle.sheet_means.specs.Complete.{IsComplete};

use adjust_kernel::Station;

/// Whether every target was observed in every set.
///
/// No observation stands twice, so counting them is enough.
pub fn is_complete(station: &Station) -> bool
    ensures { IsTrue result ↔ IsComplete station.now }
{
    station.obs().len() == station.sets().len() * station.targets().len()
}
