//! A table beside its station: whether it agrees.
ghost use Rattle.std.specs.Prelude.{◌≡◌};
ghost use Rattle.table_answers.specs.Comparisons as spec;
ghost use Rattle.table_answers.specs.Wholes.{beyond_in};

use station_compare::{Agreement, CompareFault, HowFar};

/// A table beside its station.
#[derive(Clone, Copy, Debug, PartialEq, Eq, Drop)]
pub enum Compared {
    /// It agrees.
    Agrees(Agreement),
    /// Its directions are so far apart from the least-squares ones, and further than the limit.
    Apart(HowFar),
}

impl Compared {
    /// The verdict: that it agrees, or the fault that it is apart.
    pub fn verdict(self) -> Result<Agreement, CompareFault>
        ensures { result ≡ spec.verdict self }
    {
        match self {
            Compared::Agrees(agreement) => Ok(agreement),
            Compared::Apart(how_far) => Err(CompareFault::Apart(how_far)),
        }
    }

    /// How far it is apart, where that is beyond the limit.
    pub fn beyond(self) -> Option<HowFar>
        ensures { result ≡ beyond_in self }
    {
        match self {
            Compared::Agrees(_) => None,
            Compared::Apart(how_far) => Some(how_far),
        }
    }
}
