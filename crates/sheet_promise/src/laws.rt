//! Laws of the promise. The functions do nothing.

ghost use Rattle.std.specs.Prelude.{◌≡◌, ℕ, List, Option, Contains};
ghost use Rattle.byte_ends.specs.Source.{Told};
ghost use Rattle.gsi_word.specs.declared.index.TheConstants.{POINT_NUMBER, HORIZONTAL_DIRECTION};
ghost use Rattle.gsi_word.specs.declared.index.TheConstants.{VERTICAL_ANGLE, CODE_NUMBER};
ghost use Rattle.gsi_word.specs.declared.index.TheConstants.{CODE_INFORMATION};
ghost use Rattle.adjust_kernel.specs.declared.bounds.TheConstants.{TURN};
ghost use Rattle.adjust_kernel.specs.Matching.{Key, keys_of};
ghost use Rattle.adjust_kernel.specs.declared.accepted.Accepted.{Accepted};
ghost use Rattle.station_book.specs.declared.bounds.TheConstants.{CIRCLE, HALF_CIRCLE};
ghost use Rattle.station_book.specs.Limits.{FaceLimits, AreLimits};
ghost use Rattle.station_check.specs.Accepted.{IsAccepted};
ghost use Rattle.sheet_promise.specs.Promised.{IsPromised};

/// Whatever is accepted, by the contract of `check_bytes`, is what is promised.
pub fn acceptance_is_promised()
    ensures { (limits : FaceLimits) (limit : Option ℕ) (gsi source : Told) (a : Accepted)
        → AreLimits limits → IsAccepted limits limit gsi source a
        → IsPromised limits limit gsi.bytes source.bytes a }
{}

/// The promise speaks of one thing: bytes have one list of blocks, one sheet, one place at which its
/// station was set up, and one answer.
pub fn one_promise()
    ensures { (limits : FaceLimits) (limit : Option ℕ) (gsi stated : List ℕ) (a b : Accepted)
        (p : IsPromised limits limit gsi stated a) (q : IsPromised limits limit gsi stated b)
        → (p.blocks ≡ q.blocks) × (p.sheet ≡ q.sheet) × (p.setup ≡ q.setup) × (a ≡ b) }
{}

/// Nothing of it is of some observations that might be others: two sheets of one station that are
/// promised of one field file, under the same limits of face differences, have the same ones.
pub fn same_observations()
    ensures { (limits : FaceLimits) (limit some : Option ℕ) (gsi stated other : List ℕ)
        (a b : Accepted) (p : IsPromised limits limit gsi stated a)
        (q : IsPromised limits some gsi other b) → p.sheet.name ≡ q.sheet.name → (k : Key)
        → Contains (keys_of p.sheet) k → Contains (keys_of q.sheet) k }
{}

/// The numbers that the definitions of this crate name: the circle in half units and in units, and
/// the indices of words.
pub fn numbers()
    ensures turn { TURN ≡ 80000000 }
    ensures circle { CIRCLE ≡ 40000000 }
    ensures half_circle { HALF_CIRCLE ≡ 20000000 }
    ensures point_number { POINT_NUMBER ≡ 11 }
    ensures horizontal_direction { HORIZONTAL_DIRECTION ≡ 21 }
    ensures vertical_angle { VERTICAL_ANGLE ≡ 22 }
    ensures code_number { CODE_NUMBER ≡ 41 }
    ensures code_information { CODE_INFORMATION ≡ 42 }
{}
