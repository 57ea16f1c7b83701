//! Bounds of adjustments.

/// No number that is made of an adjustment is above the denominator times this: not a sum over a
/// station, which is below 20 turns for each of the most observations, and not two full circles in
/// the finest unit of stated directions, of which a full circle has 32,400,000,000,000. The
/// denominator of a station's adjustment is below 2^786, so that all of these are below 2^832.
pub const LARGEST_FACTOR: u64 = 65_000_000_000_000;
