//! The circle of an instrument and the bounds of a book, each once: the code and the definitions
//! share them. The bounds of one station are the kernel's.

/// Units (0.00001 gon each) in a full circle of 400 gon.
pub const CIRCLE: u32 = 40_000_000;

/// Units in half a circle, 200 gon.
pub const HALF_CIRCLE: u32 = 20_000_000;

/// The most blocks of a file: no more than a file has bytes, since each line has a block at most.
pub const MOST_BLOCKS: u32 = 16_777_216;

/// The most stations with sets.
pub const MOST_STATIONS: usize = 1_000;
