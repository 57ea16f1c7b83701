//! The bounds of stations and sheets, each once: the code, the clauses and the definitions share
//! them.

/// Half units (0.005 mgon each) in a full circle of 400 gon.
pub const TURN: u32 = 80_000_000;

/// The most targets of a station.
pub const MOST_TARGETS: usize = 100;

/// The most sets of a station.
pub const MOST_SETS: usize = 40;

/// The most rows of a sheet: an observation of each target in each set.
pub const MOST_ROWS: usize = MOST_SETS * MOST_TARGETS;

/// The largest number of a set; the smallest is 1.
pub const LARGEST_SET_NUMBER: u16 = 9_999;

/// The most bytes of a name; the least is 1.
pub const LONGEST_NAME: usize = 16;

/// The most bytes of the name of a fault, of whatever crate, as the line of a refusal has it.
pub const LONGEST_FAULT_NAME: usize = 16;

/// The largest denominator D of a sheet; the smallest is 1.
pub const LARGEST_DENOMINATOR: u64 = 1_000_000_000_000;

/// The largest size of a direction or orientation, in half units times D.
pub const LARGEST_ANGLE: i128 = 1_000_000_000_000_000_000_000;

/// The largest size of a row's full turns.
pub const LARGEST_TURN: i8 = 9;

/// The largest size of a scaled residual, in half units times D: of a direction less an orientation
/// less an observation of below one circle with all its full turns.
pub const LARGEST_RESIDUAL: i128 = 2 * LARGEST_ANGLE
    + LARGEST_DENOMINATOR as i128 * (LARGEST_TURN as i128 + 1) * TURN as i128;

/// The largest residual limit, in half units.
pub const LARGEST_RESIDUAL_LIMIT: u32 = 2_000;
