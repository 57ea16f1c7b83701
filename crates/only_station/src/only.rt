//! The only station of a field file.

ghost use Rattle.std.specs.Prelude.{◌≡◌};
ghost use Rattle.byte_ends.specs.Source.{UntilDropped};
ghost use Rattle.only_station.specs.Only as spec;
ghost use Rattle.only_station.specs.Only.{FindsOnly};

use adjust_kernel::Name;
use byte_ends::Source;
use station_book::{Limits, Stations};
use station_check::{Fault, noted_stations_of_file};
use station_compare::{CompareFault, Refusal, stations_hint};
use std::alloc::Global;

/// The name of the only station of a field file.
///
/// # Errors
///
/// The first fault of the file; then `NoStation` where it has none or several: the hint names them,
/// and a user names one. `Memory` may stand in the place of any answer.
pub fn only_station<R: Source>(alloc: Global, gsi: R, limits: Limits) -> Result<Name, Refusal>
    ensures { UntilDropped R.told R.failed R.gave gsi (λ gsi. FindsOnly limits gsi result) }
{
    let (noted, _gsi) = noted_stations_of_file(alloc, gsi, limits);
    let (stations, unchecked) = match noted {
        Ok(found) => found,
        Err(fault) => return Err(Refusal::from(CompareFault::from(fault))),
    };
    match only_name(&stations) {
        Some(name) => Ok(name),
        None => Err(Refusal {
            fault: CompareFault::File(Fault::NoStation),
            hint: stations_hint(&stations, unchecked),
        }),
    }
}

/// The name of the station, where there is one alone.
fn only_name(stations: &Stations) -> Option<Name>
    ensures { result ≡ spec.only_name stations.now }
{
    if stations.len() != 1 {
        return None;
    }
    let surveyed = stations.at(0)?;
    Some(surveyed.station().name())
}
