//! How many cells a direction takes.

ghost use Rattle.std.specs.Prelude.{◌≡◌};
ghost use Rattle.direction_table.specs.TakenCells as spec;

/// How many cells of a row a direction takes, from its column on.
#[derive(Clone, Copy, Drop)]
pub(crate) enum Taken {
    /// Its own.
    One,
    /// Three: degrees, minutes and seconds, or what else a number was cut into.
    Three,
}

impl Taken {
    /// The same as a number.
    pub(crate) fn count(self) -> u16
        ensures { result ≡ spec.count_of self }
    {
        match self {
            Taken::One => 1,
            Taken::Three => 3,
        }
    }
}
