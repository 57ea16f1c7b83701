//! Laws of the definitions that contracts cite. The functions do nothing.

ghost use Rattle.std.specs.Prelude.{◌≡◌, pos};
ghost use Rattle.sheet_means.specs.declared.adjusted.TheConstants.{LARGEST_MEAN};
ghost use Rattle.sheet_means.specs.declared.totals.TheConstants.{LARGEST_UNROLLED};
ghost use Rattle.sheet_means.specs.declared.turn.TheConstants.{HALF_TURN, MOST_TURNS};

/// The bounds of sheets of means: angles in half units (0.005 mgon each), directions and
/// orientations in half units times sets times targets.
pub fn bounds()
    ensures half_turn { HALF_TURN ≡ pos 40_000_000 }
    ensures full_turns { MOST_TURNS ≡ pos 2 }
    ensures observation { LARGEST_UNROLLED ≡ pos 240_000_000 }
    ensures mean { LARGEST_MEAN ≡ pos 3_840_000_000_000 }
{}
