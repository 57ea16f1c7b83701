//! The indices of the words that a survey of directions is made of (GSI manual).

/// A point number: the first word of a measurement block.
pub const POINT_NUMBER: u8 = 11;

/// A horizontal direction.
pub const HORIZONTAL_DIRECTION: u8 = 21;

/// A vertical angle.
pub const VERTICAL_ANGLE: u8 = 22;

/// A code number: the first word of a code block.
pub const CODE_NUMBER: u8 = 41;

/// The first information of a code block.
pub const CODE_INFORMATION: u8 = 42;
