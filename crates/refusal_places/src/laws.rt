//! Laws of the definitions that contracts cite. The functions do nothing.

ghost use Rattle.std.specs.Prelude.{◌≡◌, ◌<◌, ◌^◌, ◌++◌, ◌∷◌, ℕ, List, Some, codes, decimal, false};
ghost use Rattle.std.specs.Char.{is_ascii_digit};
ghost use Rattle.refusal_places.specs.Meant.{meant_by, meant_in, without};
ghost use Rattle.refusal_places.specs.NamedPlaces.{named_in};
ghost use Rattle.refusal_places.specs.declared.named.Named.TheVariants.{Block, SheetRow, TableRow};
ghost use Rattle.refusal_places.specs.declared.named.Named.TheVariants.{Target, Set, Observation};
ghost use Rattle.refusal_places.specs.declared.named.Named.TheVariants.{StationTarget};
ghost use Rattle.refusal_places.specs.declared.named.Named.TheVariants.{StationObservation};
ghost use Rattle.refusal_places.specs.declared.row.TheConstants.{COMMA};

/// In digits: the byte between the fields of a sheet.
pub fn bounds()
    ensures comma { COMMA ≡ 44 }
{}

/// A line that has a number of ten digits at most after its words, and no digit after that, names
/// what stands at this number: so each refusal names its own place, whatever else it says.
pub fn numbers_are_read_back()
    ensures block { (n b : ℕ) (rest : List ℕ) → n < 10 ^ 10 → is_ascii_digit b ≡ false
        → named_in (codes "refused: block " ++ (decimal n ++ b ∷ rest)) ≡ Some (Block n) }
    ensures sheet_row { (n b : ℕ) (rest : List ℕ) → n < 10 ^ 10 → is_ascii_digit b ≡ false
        → named_in (codes "refused: sheet row " ++ (decimal n ++ b ∷ rest)) ≡ Some (SheetRow n) }
    ensures table_row { (n b : ℕ) (rest : List ℕ) → n < 10 ^ 10 → is_ascii_digit b ≡ false
        → named_in (codes "refused: table row " ++ (decimal n ++ b ∷ rest)) ≡ Some (TableRow n) }
    ensures target_row { (n b : ℕ) (rest : List ℕ) → n < 10 ^ 10 → is_ascii_digit b ≡ false
        → named_in (codes "refused: kernel: TargetRow " ++ (decimal n ++ b ∷ rest))
        ≡ Some (Target n) }
    ensures target_sum { (n b : ℕ) (rest : List ℕ) → n < 10 ^ 10 → is_ascii_digit b ≡ false
        → named_in (codes "refused: kernel: TargetSum " ++ (decimal n ++ b ∷ rest))
        ≡ Some (Target n) }
    ensures set_row { (n b : ℕ) (rest : List ℕ) → n < 10 ^ 10 → is_ascii_digit b ≡ false
        → named_in (codes "refused: kernel: SetRow " ++ (decimal n ++ b ∷ rest)) ≡ Some (Set n) }
    ensures set_sum { (n b : ℕ) (rest : List ℕ) → n < 10 ^ 10 → is_ascii_digit b ≡ false
        → named_in (codes "refused: kernel: SetSum " ++ (decimal n ++ b ∷ rest)) ≡ Some (Set n) }
    ensures observation_row { (n b : ℕ) (rest : List ℕ) → n < 10 ^ 10 → is_ascii_digit b ≡ false
        → named_in (codes "refused: kernel: ObsRow " ++ (decimal n ++ b ∷ rest))
        ≡ Some (Observation n) }
    ensures residual { (n b : ℕ) (rest : List ℕ) → n < 10 ^ 10 → is_ascii_digit b ≡ false
        → named_in (codes "refused: kernel: Residual " ++ (decimal n ++ b ∷ rest))
        ≡ Some (Observation n) }
    ensures station_target { (n b : ℕ) (rest : List ℕ) → n < 10 ^ 10 → is_ascii_digit b ≡ false
        → named_in (codes "refused: table: Missing " ++ (decimal n ++ b ∷ rest))
        ≡ Some (StationTarget n) }
    ensures station_observation { (n b : ℕ) (rest : List ℕ) → n < 10 ^ 10
        → is_ascii_digit b ≡ false
        → named_in (codes "refused: adjust: Residual " ++ (decimal n ++ b ∷ rest))
        ≡ Some (StationObservation n) }
{}

/// A line that names a block by a number of ten digits at most speaks of what its fault speaks of,
/// which stands after that, also where it is one of `mark`.
pub fn faults_are_read_back()
    ensures { (n : ℕ) (fault : List ℕ) → n < 10 ^ 10
        → meant_in (codes "refused: block " ++ (decimal n ++ (codes ": " ++ fault)))
        ≡ meant_by (without (codes "mark: ") fault) }
{}
