//! Out of memory.

use thiserror::Error;

/// There was no memory for the bytes: run it again with more.
#[derive(Clone, Copy, Debug, PartialEq, Eq, Error)]
#[error("out of memory")]
pub struct OutOfMemory;
