//! The titles of two columns.

use thiserror::Error;

/// The titles of two columns, as they are stated.
///
/// They are compared byte by byte: capitals are not small letters. The blanks around a cell are no
/// part of its title; those around a title that is stated are.
#[derive(Clone, Copy, Debug, PartialEq, Eq)]
pub struct Titles<'a> {
    /// That of the column of targets.
    pub targets: &'a [u8],
    /// That of the column of their directions.
    pub directions: &'a [u8],
}

/// Which of the two titles.
#[derive(Clone, Copy, Debug, PartialEq, Eq, Drop, Error)]
pub enum TitleOf {
    /// That of targets.
    #[error("targets")]
    Targets,
    /// That of directions.
    #[error("directions")]
    Directions,
}
