//! A call that failed.

use thiserror::Error;

/// A call of a reader or a writer failed, for whatever cause: see whether it is open, whole and has
/// room.
#[derive(Clone, Copy, Debug, PartialEq, Eq, Error)]
#[error("a read or a write failed")]
pub struct Failed;
