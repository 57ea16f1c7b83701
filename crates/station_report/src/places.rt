//! What stands at each place of a station's lists.
ghost use Rattle.std.specs.Prelude.{◌≡◌, ◌<◌, length};
ghost use Rattle.adjust_kernel.specs.declared.bounds.TheConstants.{TURN};
ghost use Rattle.station_report.specs.Readings as spec;
ghost use Rattle.station_results.specs.Greatest as results;

use adjust_kernel::{Name, Obs, Station};
use station_book::{Faces, Surveyed};
use station_results::AdjustedObs;

/// The number of the set at a place.
pub(crate) fn number_of(station: &Station, set: usize) -> u16
    requires { set < length station.now.sets }
    ensures { result ≡ spec.number_of station.now set }
{
    station.sets()[set]
}

/// The name of the target at a place.
pub(crate) fn name_of(station: &Station, target: usize) -> Name
    requires { target < length station.now.targets }
    ensures { result ≡ spec.name_of station.now target }
{
    station.targets()[target]
}

/// The observation at a place.
pub(crate) fn observation_at(station: &Station, place: usize) -> Obs
    requires { place < length station.now.obs }
    ensures set { result.set ≡ spec.set_at station.now place }
    ensures target { result.target ≡ spec.target_at station.now place }
    ensures value { result.value ≡ spec.value_at station.now place }
    ensures set_in { result.set < length station.now.sets }
    ensures target_in { result.target < length station.now.targets }
    ensures bound { result.value < TURN }
{
    station.obs()[place]
}

/// The face differences and the zenith angle at a place.
pub(crate) fn faces_at(surveyed: &Surveyed, place: usize) -> Faces
    requires { place < length surveyed.now.station.obs }
    ensures two_c { result.two_c ≡ spec.two_c_at surveyed.now place }
    ensures two_i { result.two_i ≡ spec.two_i_at surveyed.now place }
    ensures zenith { result.zenith ≡ spec.zenith_at surveyed.now place }
{
    surveyed.faces()[place]
}

/// The residual at a place.
pub(crate) fn residual_at(rows: &[AdjustedObs], place: usize) -> i32
    requires { place < length rows.now }
    ensures { result ≡ results.residual_at rows.now place }
{
    rows[place].residual
}
