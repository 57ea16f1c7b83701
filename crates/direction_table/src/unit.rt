//! The units in which a table states its directions.

/// The unit of a table's directions.
#[derive(Clone, Copy, Debug, PartialEq, Eq, Drop)]
pub enum AngleUnit {
    /// Gon: 400 of them are a full circle.
    Gon,
    /// Degrees, with their minutes and seconds or with decimals: 360 of them are a full circle.
    Degrees,
    /// Degrees whose first two decimals are minutes, the next two seconds, and the others decimals
    /// of seconds.
    PackedDegrees,
}
