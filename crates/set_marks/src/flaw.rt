//! What is wrong with readings that are to be sets.

ghost use Rattle.std.specs.Prelude.{◌≡◌, ◌∷◌, [], option_map};
ghost use Rattle.station_book.specs.Faults.{first_of};
ghost use Rattle.set_marks.specs.Divisions.{flaw_at, flaw_found, flaw_when};

use crate::fault::MarkKind;
use crate::sight::Sight;

/// What is wrong, and at which block.
#[derive(Clone, Copy, Debug, PartialEq, Eq, Drop)]
pub struct Flaw {
    /// The number of the block, from 1.
    pub block: u32,
    /// What is wrong.
    pub kind: MarkKind,
}

/// This is wrong at the block of a reading (number 0, of no block, where there is none).
pub(crate) fn flaw_at(kind: MarkKind, sight: Option<&Sight>) -> Flaw
    ensures { result ≡ flaw_at kind (option_map (λ s. s.now) sight.entry) }
{
    match sight {
        Some(sight) => Flaw {
            block: sight.block,
            kind,
        },
        None => Flaw { block: 0, kind },
    }
}

/// What `flaw_at` answers, where the test says so.
pub(crate) fn flaw_when(test: bool, kind: MarkKind, sight: Option<&Sight>) -> Option<Flaw>
    ensures { result ≡ flaw_when test kind (option_map (λ s. s.now) sight.entry) }
{
    if test {
        Some(flaw_at(kind, sight))
    } else {
        None
    }
}

/// What `flaw_at` answers, at a reading that was found, if one was.
pub(crate) fn flaw_found(kind: MarkKind, sight: Option<&Sight>) -> Option<Flaw>
    ensures { result ≡ flaw_found kind (option_map (λ s. s.now) sight.entry) }
{
    match sight {
        Some(_) => Some(flaw_at(kind, sight)),
        None => None,
    }
}

/// The first of three that stands.
pub(crate) fn first_flaw(a: Option<Flaw>, b: Option<Flaw>, c: Option<Flaw>) -> Option<Flaw>
    ensures { result ≡ first_of (a ∷ b ∷ c ∷ []) }
{
    match a {
        Some(flaw) => Some(flaw),
        None => match b {
            Some(flaw) => Some(flaw),
            None => c,
        },
    }
}
