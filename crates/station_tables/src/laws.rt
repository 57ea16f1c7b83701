//! Laws of tables of all stations. The functions do nothing.

ghost use Rattle.std.specs.Prelude.{◌≡◌};
ghost use Rattle.station_tables.specs.declared.line.TheConstants.{LONGEST_TABLES};

/// What definitions cite, in digits.
pub fn limits()
    ensures bytes { LONGEST_TABLES ≡ 16_777_216 }
{}
