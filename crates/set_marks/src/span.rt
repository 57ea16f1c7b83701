//! Where the sets of a station stand.

/// Where the sets of a station stand among its readings.
#[derive(Clone, Copy, Debug, PartialEq, Eq, Drop)]
pub struct Span {
    /// How many readings stand before the first set.
    pub from: usize,
    /// How many stand before the end of the last one, those of the sets counted.
    pub to: usize,
}
