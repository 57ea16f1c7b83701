//! A part of a file.

/// A part of a file: its bytes from `first` on, before `end`. Places are counted from 0.
#[derive(Clone, Copy, Debug, PartialEq, Eq)]
pub struct Span {
    /// The place of its first byte.
    pub first: usize,
    /// The place after its last byte.
    pub end: usize,
}
