//! How accurate the directions of a station are.

/// The accuracy of a station's directions, by the residuals of its observations.
#[derive(Clone, Copy, Debug, PartialEq, Eq, Drop)]
pub struct Accuracy {
    /// The sum of the squares of all residuals, in squares of 0.001 mgon.
    pub squares: u64,
    /// The standard deviation of one two-face direction, in units of 0.001 mgon.
    pub of_one: u32,
    /// That of each adjusted direction, in the same units; none where a set lacks a target.
    pub of_adjusted: Option<u32>,
}
