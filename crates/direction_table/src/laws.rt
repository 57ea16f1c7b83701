//! Laws of the definitions that contracts cite. The functions do nothing.

ghost use Rattle.std.specs.Prelude.{◌≡◌, ◌≢◌, ◌⊎◌, ◌≤◌, ◌+◌, ◌*◌, ◌^◌, ◌++◌, ◌∷◌, [], All, List};
ghost use Rattle.std.specs.Prelude.{ℕ, ℤ, Option, Some, codes, false, length, map, neg_ℤ, pos};
ghost use Rattle.std.specs.Prelude.{true};
ghost use Rattle.adjust_kernel.specs.Stations.{AreTargets};
ghost use Rattle.sheet_format.specs.RowFaults.{IsFirstFault};
ghost use Rattle.adjust_kernel.specs.declared.units.TheConstants.{CIRCLE, PARTS};
ghost use Rattle.direction_table.specs.Degrees.{are_seconds, are_whole_seconds, seconds_step};
ghost use Rattle.direction_table.specs.Degrees.{seconds_value};
ghost use Rattle.direction_table.specs.Directions.{direction_value, is_direction, is_on_circle};
ghost use Rattle.direction_table.specs.Directions.{last_unit, step_in};
ghost use Rattle.direction_table.specs.ExactNumbers.{IsRoundedDown, IsWholeNumber, written_number};
ghost use Rattle.direction_table.specs.ExactNumbers.{plain_number};
ghost use Rattle.direction_table.specs.Gons.{is_size, is_whole_size, size_value};
ghost use Rattle.direction_table.specs.PlainTables.{IsPlainTable};
ghost use Rattle.direction_table.specs.TableTexts.{directions_of, names_of, table_text};
ghost use Rattle.direction_table.specs.Faults.{HasNoFault, table_rules};
ghost use Rattle.direction_table.specs.NumberColumns.{is_naming};
ghost use Rattle.direction_table.specs.Separators.{rows_by, rows_of};
ghost use Rattle.direction_table.specs.TableRows.{unstated, way_of};
ghost use Rattle.direction_table.specs.Tables.{IsPartText, IsTableFault, IsTableText, stated_by};
ghost use Rattle.direction_table.specs.Texts as spec;
ghost use Rattle.direction_table.specs.UsualLimits.{finer, limit_of_step};
ghost use Rattle.direction_table.specs.declared.decimals.TheConstants.{MOST_WRITTEN};
ghost use Rattle.direction_table.specs.declared.degrees.TheConstants.{DEGREE};
ghost use Rattle.direction_table.specs.declared.direction.TheConstants.{CIRCLE_PARTS, DEGREE_PARTS};
ghost use Rattle.direction_table.specs.declared.fault.RowKind.{RowKind};
ghost use Rattle.direction_table.specs.declared.fault.TableFault.{TableFault};
ghost use Rattle.direction_table.specs.declared.fault.TableFault.TheVariants.{Missing, Row};
ghost use Rattle.direction_table.specs.declared.form.ColumnPair.{ColumnPair};
ghost use Rattle.direction_table.specs.declared.form.TableForm.{TableForm};
ghost use Rattle.direction_table.specs.declared.limit.TheConstants.{LARGEST_WITHIN, USUAL_WITHIN};
ghost use Rattle.direction_table.specs.declared.number_columns.TheConstants.{MOST_COLUMNS};
ghost use Rattle.direction_table.specs.declared.reading.TheConstants.{LONGEST_TABLE};
ghost use Rattle.direction_table.specs.declared.separator.Separator.{Separator};
ghost use Rattle.direction_table.specs.declared.way.Way.TheVariants.{ByColumns, TwoColumns};
ghost use Rattle.direction_table.specs.declared.table.TargetDirection.{TargetDirection};
ghost use Rattle.direction_table.specs.declared.unit.AngleUnit.{AngleUnit};
ghost use Rattle.row_forms.specs.declared.form.RowForm.TheVariants.{Commas};
ghost use Rattle.direction_table.specs.declared.unit.AngleUnit.TheVariants.{Gon, Degrees};
ghost use Rattle.direction_table.specs.declared.unit.AngleUnit.TheVariants.{PackedDegrees};

/// Bytes are a table of one list of directions at most.
pub fn one_table()
    ensures { (form : TableForm) (targets : List (List ℕ)) (bytes : List ℕ) (a b : List ℤ)
        → IsTableText form targets bytes a → IsTableText form targets bytes b → a ≡ b }
{}

/// Bytes that are a table of a part of the targets state one list, and have no fault but that a
/// target is missing.
pub fn one_part()
    ensures stated { (form : TableForm) (targets : List (List ℕ)) (bytes : List ℕ)
        (a b : List (Option ℤ)) → IsPartText form targets bytes a
        → IsPartText form targets bytes b → a ≡ b }
    ensures no_fault { (form : TableForm) (targets : List (List ℕ)) (bytes : List ℕ)
        (directions : List (Option ℤ)) (fault : TableFault)
        → IsPartText form targets bytes directions → IsTableFault form targets bytes fault
        → ¬ ((number : ℕ) → fault ≢ Missing number) }
{}

/// Bytes have one first fault at most.
pub fn one_fault()
    ensures { (form : TableForm) (targets : List (List ℕ)) (bytes : List ℕ) (a b : TableFault)
        → IsTableFault form targets bytes a → IsTableFault form targets bytes b → a ≡ b }
{}

/// Bytes that are a table have no fault.
pub fn never_both()
    ensures { (form : TableForm) (targets : List (List ℕ)) (bytes : List ℕ) (directions : List ℤ)
        (fault : TableFault) → IsTableText form targets bytes directions
        → ¬ IsTableFault form targets bytes fault }
{}

/// Bytes are a table or have a fault.
pub fn some_answer()
    ensures { (form : TableForm) (targets : List (List ℕ)) (bytes : List ℕ)
        → ((directions : List ℤ) × IsTableText form targets bytes directions)
        ⊎ ((fault : TableFault) × IsTableFault form targets bytes fault) }
{}

/// The text of a direction that its decimals write exactly is a direction in gon, below a full
/// circle, and is read as the same direction.
pub fn direction_reads_back()
    ensures form { (count direction : ℕ) → spec.AreDecimals count → spec.IsWhole count direction
        → is_direction Gon (spec.direction_text count direction) ≡ true }
    ensures small { (count direction : ℕ) → spec.AreDecimals count → spec.IsWhole count direction
        → is_on_circle Gon (spec.direction_text count direction) ≡ true }
    ensures value { (count direction : ℕ) → spec.AreDecimals count → spec.IsWhole count direction
        → direction_value Gon (spec.direction_text count direction) ≡ pos (PARTS * direction) }
{}

/// The text of the table of all targets, in their order, is a table of them and of the directions
/// that were written, where so many decimals write each of these exactly.
pub fn table_reads_back()
    ensures { (targets : List (List ℕ)) (count : ℕ) (stated : List TargetDirection)
        → AreTargets targets → names_of stated ≡ targets → spec.AreDecimals count
        → All (λ row. spec.IsWhole count row.direction) stated
        → IsTableText (unstated Gon) targets (table_text Commas count stated)
        (directions_of stated) }
{}

/// Every plain table is a table of the same targets and directions, so nothing that is written
/// plainly is read in another way.
pub fn plain_tables_stand()
    ensures { (targets : List (List ℕ)) (bytes : List ℕ) (directions : List ℤ)
        → AreTargets targets → IsPlainTable targets bytes directions
        → IsTableText (unstated Gon) targets bytes directions }
{}

/// A table of two columns is read as that, and as nothing else.
pub fn two_columns_stand()
    ensures { (unit : AngleUnit) (targets : List (List ℕ)) (bytes : List ℕ) (directions : List ℤ)
        → length bytes ≤ LONGEST_TABLE → HasNoFault unit targets (rows_of targets bytes)
        → stated_by unit (rows_of targets bytes) targets ≡ map Some directions
        → IsTableText (unstated unit) targets bytes directions }
{}

/// Where no one pair of columns fits and no two do, the fault is that of a table of two columns.
pub fn two_column_faults_stand()
    ensures { (unit : AngleUnit) (targets : List (List ℕ)) (bytes : List ℕ) (place : ℕ)
        (kind : RowKind) → length bytes ≤ LONGEST_TABLE
        → way_of (unstated unit) targets bytes ≡ TwoColumns
        → IsFirstFault (table_rules unit targets) (rows_of targets bytes) place kind
        → IsTableFault (unstated unit) targets bytes (Row (place + 1) kind) }
{}

/// Of a table that is read by a pair of its columns no row that names a target is passed over: each
/// target stands in one row of the column of names.
pub fn each_target_once()
    ensures { (form : TableForm) (targets : List (List ℕ)) (bytes : List ℕ) (directions : List ℤ)
        (separator : Separator) (pair : ColumnPair) → AreTargets targets
        → IsTableText form targets bytes directions
        → way_of form targets bytes ≡ ByColumns separator pair
        → is_naming targets (rows_by separator bytes) pair.names ≡ true }
{}

/// The limits in digits, in units of 0.000001 gon: for 1 to 4 decimals of a gon half a step and 5
/// units, for more of them no more than 10; for seconds without decimals, and with one and two; and
/// for 4 and 5 decimals of a degree.
pub fn usual_limits()
    ensures few { (decimals : ℕ) → 1 ≤ decimals → decimals ≤ 4
        → 2_000 * limit_of_step (PARTS * spec.step_of decimals)
        ≡ spec.step_of decimals + 10_000 }
    ensures many { (decimals : ℕ) → 5 ≤ decimals
        → limit_of_step (PARTS * spec.step_of decimals) ≤ 10 }
    ensures none { limit_of_step 0 ≡ 5 }
    ensures seconds { limit_of_step (seconds_step 0) ≡ 160 }
    ensures one_decimal { limit_of_step (seconds_step 1) ≡ 21 }
    ensures two_decimals { limit_of_step (seconds_step 2) ≡ 7 }
    ensures degrees_of_four { limit_of_step (DEGREE_PARTS * last_unit 4) ≡ 61 }
    ensures degrees_of_five { limit_of_step (DEGREE_PARTS * last_unit 5) ≡ 11 }
{}

/// What is read of a number is the number rounded down to its ninth decimal, and of seconds to
/// parts, 25,000,000 of which are a second; where nothing is said to be left out it is the number
/// itself.
pub fn numbers()
    ensures down { (bytes : List ℕ) → is_size bytes ≡ true
        → IsRoundedDown (10 ^ 9) (written_number bytes) (size_value bytes) }
    ensures whole { (bytes : List ℕ) → is_size bytes ≡ true → is_whole_size bytes ≡ true
        → IsWholeNumber (10 ^ 9) (written_number bytes) (size_value bytes) }
    ensures seconds_down { (bytes : List ℕ) → are_seconds bytes ≡ true
        → IsRoundedDown 25_000_000 (plain_number bytes) (seconds_value bytes) }
    ensures seconds_whole { (bytes : List ℕ) → are_seconds bytes ≡ true
        → are_whole_seconds bytes ≡ true
        → IsWholeNumber 25_000_000 (plain_number bytes) (seconds_value bytes) }
{}

/// What rows tell of the step of their table, in parts. Of two steps the finer counts, in whichever
/// order their rows stand, and 0 is none.
pub fn told_steps()
    ensures finer { (a b : ℕ) → 1 ≤ a → a ≤ b → finer a b ≡ a }
    ensures in_any_order { (a b : ℕ) → finer a b ≡ finer b a }
    ensures none { (a : ℕ) → finer a 0 ≡ a }
    // A decimal is told, and be it 0; gon without decimals tell nothing.
    ensures decimal { step_in Gon (codes "200.0") ≡ PARTS * spec.step_of 1 }
    ensures decimals_of_zero { step_in Gon (codes "-0.0000") ≡ PARTS * spec.step_of 4 }
    ensures whole { step_in Gon (codes "200") ≡ 0 }
    ensures zero { step_in Gon (codes "0") ≡ 0 }
    // Whole seconds are told, and decimals of 0 seconds, but not 0-00-00.
    ensures seconds { step_in Degrees (codes "200-00-00") ≡ seconds_step 0 }
    ensures decimals_of_no_seconds { step_in Degrees (codes "0-00-00.0") ≡ seconds_step 1 }
    ensures no_seconds { step_in Degrees (codes "0-00-00") ≡ 0 }
    // The sign of degrees is the bytes 194 and 176.
    ensures no_seconds_by_signs { step_in Degrees (codes "0" ++ (194 ∷ 176 ∷ codes "00'00\"")) ≡ 0 }
{}

/// Examples of directions in degrees, in parts: with hyphens, with signs, with decimals and
/// without; and that minutes of 60 are none.
pub fn degrees()
    ensures hyphens { direction_value Degrees (codes "59-04-09.18") ≡ pos 5_316_229_500_000 }
    // The sign of degrees is the bytes 194 and 176.
    ensures signs { direction_value Degrees (codes "59" ++ (194 ∷ 176 ∷ codes "04'09.18\""))
        ≡ pos 5_316_229_500_000 }
    ensures decimals { direction_value Degrees (codes "59,069216667") ≡ pos 5_316_229_500_030 }
    ensures whole { direction_value Degrees (codes "-90")
        ≡ neg_ℤ (pos (100 * 1_000_000_000 * PARTS)) }
    ensures circle { direction_value Degrees (codes "360-00-00") ≡ pos 0 }
    ensures colons { direction_value Degrees (codes "59:04:09.18") ≡ pos 5_316_229_500_000 }
    ensures blanks { direction_value Degrees (codes "59 04 09.18") ≡ pos 5_316_229_500_000 }
    // The prime and the double prime are the bytes 226, 128 and 178, and 226, 128 and 179.
    ensures primes { direction_value Degrees (codes "59" ++ (194 ∷ 176 ∷ codes "04"
        ++ (226 ∷ 128 ∷ 178 ∷ codes "09.18" ++ (226 ∷ 128 ∷ 179 ∷ []))))
        ≡ pos 5_316_229_500_000 }
    ensures packed { direction_value PackedDegrees (codes "59.040918") ≡ pos 5_316_229_500_000 }
    ensures packed_sixty { is_direction PackedDegrees (codes "59.600918") ≡ false }
    ensures sixty { is_direction Degrees (codes "59-60-09.18") ≡ false }
    ensures gon { is_direction Gon (codes "59-04-09.18") ≡ false }
{}

/// The bounds of a table in digits: its bytes; a full circle in units of the ninth decimal of a gon
/// and in parts, and that it has 360 degrees; the most decimals that are written; the most columns
/// that are looked at; and the least usual limit and the largest limit, in units of 0.000001 gon.
pub fn bounds()
    ensures bytes { LONGEST_TABLE ≡ 1_048_576 }
    ensures circle { CIRCLE ≡ 400_000_000_000 }
    ensures parts { CIRCLE_PARTS ≡ 32_400_000_000_000 }
    ensures degrees { 360 * DEGREE ≡ CIRCLE_PARTS }
    ensures decimals { MOST_WRITTEN ≡ 8 }
    ensures columns { MOST_COLUMNS ≡ 1_000 }
    ensures usual_within { USUAL_WITHIN ≡ 10 }
    ensures largest_within { LARGEST_WITHIN ≡ 1_000_000 }
{}
