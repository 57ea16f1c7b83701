//! The units of directions, each once: the crates of tables and of adjustments share them.

use crate::bounds::TURN;

/// A half unit (0.005 mgon), in which directions are adjusted, in units of 0.000000001 gon.
pub const HALF_UNIT: u64 = 5_000;

/// A full circle, in units of 0.000000001 gon.
pub const CIRCLE: u64 = TURN as u64 * HALF_UNIT;

/// 0.000001 gon, in which differences are told, in units of 0.000000001 gon.
pub const UNIT: u64 = 1_000;

/// Parts in 0.000000001 gon. Stated directions are whole numbers of parts: with 9 decimals of a
/// gon, with 9 decimals of a degree, and with 6 decimals of a second, which is 1/3240 gon.
pub const PARTS: u64 = 81;
