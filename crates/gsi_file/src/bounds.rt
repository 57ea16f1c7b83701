//! The bounds of a field file, in bytes.

/// The most bytes of a line, without the byte that ends it.
pub const LONGEST_LINE: usize = 1_024;

/// The most bytes of a field file.
pub const LONGEST_FILE: usize = 16_777_216;

/// The bytes of the one buffer that a file is read through.
pub(crate) const BUFFER: usize = 4_096;
