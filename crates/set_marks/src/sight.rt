//! A reading of a station, as the division into sets sees it.

use adjust_kernel::Name;
use station_book::Angles;

/// A reading: a block of a measurement with a direction.
#[derive(Clone, Copy, Debug, Drop)]
pub struct Sight {
    /// The number of its block, from 1.
    pub block: u32,
    /// Whether its line is GSI-16.
    pub wide: bool,
    /// Whether it is read in face II.
    pub second: bool,
    /// Its direction and its zenith angle, in units of 0.00001 gon.
    pub angles: Angles,
    /// What is read. Last, so that a reading takes 40 bytes and not 48.
    pub target: Name,
}
