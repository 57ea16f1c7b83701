//! Out of memory.

use thiserror::Error;

/// There was no memory for what a tally holds: run it again with more.
#[derive(Clone, Copy, Debug, PartialEq, Eq, Drop, Error)]
#[error("out of memory")]
pub struct OutOfMemory;
