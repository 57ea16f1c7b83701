//! Laws of the definitions that contracts cite. The functions do nothing.
ghost use Rattle.std.specs.Prelude.{◌≡◌, ◌≤◌, ℕ, List, All, ℤ, Option, Some, length};
ghost use Rattle.std.specs.Prelude.{map, pos, true};
ghost use Rattle.adjust_kernel.specs.Names.{IsName};
ghost use Rattle.adjust_kernel.specs.Stations.{StationValue};
ghost use Rattle.adjust_kernel.specs.Within.{IsWithin};
ghost use Rattle.direction_table.specs.declared.form.TableForm.{TableForm};
ghost use Rattle.directions_apart.specs.Apart.{stated_by};
ghost use Rattle.least_directions.specs.LeastDirections.{AreApart};
ghost use Rattle.station_differences.specs.Differences.{AreCompared, differences_of};
ghost use Rattle.station_differences.specs.JsonLines.{is_escaped, needs_escape};
ghost use Rattle.station_differences.specs.Lines.{AreLines, compared_of};
ghost use Rattle.station_differences.specs.Medians.{is_median, median_of};
ghost use Rattle.station_differences.specs.Stating.{IsTextOfRows};
ghost use Rattle.station_differences.specs.declared.compared.TargetDifference.{TargetDifference};
ghost use Rattle.station_differences.specs.declared.line.TargetLine.{TargetLine};
ghost use Rattle.station_differences.specs.declared.line.TargetLine.TheVariants.{Compared};

/// What is stated of the targets of a station is one list of lines, and the bytes of a table are
/// one text of what is written of these: so each printed digit follows from the station and the
/// bytes.
pub fn one_list()
    ensures lines { (station : StationValue) (stated : List (Option ℤ)) (a b : List TargetLine)
        → AreLines station stated a → AreLines station stated b → a ≡ b }
    ensures text { (written : List TargetLine → List ℕ) (form : TableForm)
        (station : StationValue) (bytes a b : List ℕ)
        → IsTextOfRows written form station bytes a → IsTextOfRows written form station bytes b
        → a ≡ b }
{}

/// The lines of a table that lacks no target are its rows, and the other way round.
pub fn lacks_none()
    ensures rows { (station : StationValue) (stated : List ℤ) (lines : List TargetLine)
        → AreLines station (map Some stated) lines
        → (lines ≡ map Compared (compared_of lines))
        × AreCompared station stated (compared_of lines) }
    ensures lines { (station : StationValue) (stated : List ℤ) (rows : List TargetDifference)
        → AreCompared station stated rows
        → AreLines station (map Some stated) (map Compared rows) }
{}

/// No difference of a table that lacks no target is larger in size than the directions are apart,
/// as `compare` tells it: both in units of 0.001 mgon.
pub fn within_apart()
    ensures { (station : StationValue) (stated : List ℤ) (lines : List TargetLine)
        (off apart : ℕ) → AreLines station (map Some stated) lines
        → AreApart station (stated_by stated) off apart
        → All (IsWithin (pos apart)) (differences_of (compared_of lines)) }
{}

/// Rows that are not none have one lower median: the one that is found.
pub fn one_median()
    ensures is { (rows : List TargetDifference) → 1 ≤ length rows
        → is_median rows (median_of rows) ≡ true }
    ensures only { (rows : List TargetDifference) (a b : ℤ) → is_median rows a ≡ true
        → is_median rows b ≡ true → a ≡ b }
{}

/// Of the bytes of a name those alone need an escape in JSON that are escaped: quotation marks and
/// backslashes.
pub fn two_are_escaped()
    ensures { (name : List ℕ) → IsName name
        → All (λ byte. needs_escape byte ≡ is_escaped byte) name }
{}
