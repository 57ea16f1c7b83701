//! Out of memory.

use thiserror::Error;

/// There was no memory for the buffer: run it again with more.
#[derive(Clone, Copy, Debug, PartialEq, Eq, Error)]
#[error("out of memory")]
pub struct OutOfMemory;
