//! The version.

/// The version of the program and of the library, as `--version` and a report say it.
pub const VERSION: &str = "1.0.0";
