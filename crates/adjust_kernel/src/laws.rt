//! Laws of the definitions that contracts cite. The functions do nothing.

ghost use Rattle.std.specs.Prelude.{◌≡◌, ◌≤◌, ◌<◌, ℕ, pos, length, Option, Result, Err, IfSome};
ghost use Rattle.adjust_kernel.specs.declared.accepted.Accepted.{Accepted};
ghost use Rattle.adjust_kernel.specs.declared.kernel_fault.KernelFault.{KernelFault};
ghost use Rattle.adjust_kernel.specs.declared.bounds.TheConstants.{TURN, MOST_TARGETS, MOST_SETS};
ghost use Rattle.adjust_kernel.specs.declared.bounds.TheConstants.{MOST_ROWS, LARGEST_SET_NUMBER};
ghost use Rattle.adjust_kernel.specs.declared.bounds.TheConstants.{LONGEST_FAULT_NAME};
ghost use Rattle.adjust_kernel.specs.declared.bounds.TheConstants.{LONGEST_NAME};
ghost use Rattle.adjust_kernel.specs.declared.bounds.TheConstants.{LARGEST_DENOMINATOR};
ghost use Rattle.adjust_kernel.specs.declared.bounds.TheConstants.{LARGEST_ANGLE, LARGEST_TURN};
ghost use Rattle.adjust_kernel.specs.declared.bounds.TheConstants.{LARGEST_RESIDUAL};
ghost use Rattle.adjust_kernel.specs.declared.bounds.TheConstants.{LARGEST_RESIDUAL_LIMIT};
ghost use Rattle.adjust_kernel.specs.declared.name.TheConstants.{FIRST_PRINTABLE, LAST_PRINTABLE};
ghost use Rattle.adjust_kernel.specs.declared.units.TheConstants.{CIRCLE, HALF_UNIT, PARTS, UNIT};
ghost use Rattle.adjust_kernel.specs.Matching.{Matches};
ghost use Rattle.adjust_kernel.specs.Sheets.{SheetValue};
ghost use Rattle.adjust_kernel.specs.Stations.{StationValue};
ghost use Rattle.adjust_kernel.specs.Verdict.{HoldsTogether, IsAcceptedSheet, IsVerdict};
ghost use Rattle.adjust_kernel.specs.Verdict.{KeepsLimit, SetsAddUp, TargetsAddUp, order_of};
ghost use Rattle.adjust_kernel.specs.Verdict.{observations};

/// A station, a sheet and a residual limit have one verdict at most.
pub fn one_verdict()
    ensures { (station : StationValue) (sheet : SheetValue) (limit : Option ℕ)
        (a b : Result Accepted KernelFault)
        → IsVerdict station sheet limit a → IsVerdict station sheet limit b → a ≡ b }
{}

/// A station with an observation, a sheet and a residual limit have a verdict: so what is said of
/// verdicts is never said of nothing.
pub fn some_verdict()
    ensures { (station : StationValue) (sheet : SheetValue) (limit : Option ℕ)
        → 1 ≤ length station.obs
        → (verdict : Result Accepted KernelFault) × IsVerdict station sheet limit verdict }
{}

/// A sheet is accepted exactly where it is of the station, the residuals add up, the observations
/// hold all together and the residuals keep the limit, if one is stated.
pub fn acceptance()
    ensures matches { (station : StationValue) (sheet : SheetValue) (limit : Option ℕ)
        → IsAcceptedSheet station sheet limit → Matches station sheet }
    ensures targets { (station : StationValue) (sheet : SheetValue) (limit : Option ℕ)
        → IsAcceptedSheet station sheet limit → TargetsAddUp station sheet }
    ensures sets { (station : StationValue) (sheet : SheetValue) (limit : Option ℕ)
        → IsAcceptedSheet station sheet limit → SetsAddUp station sheet }
    ensures connection { (station : StationValue) (sheet : SheetValue) (limit : Option ℕ)
        → IsAcceptedSheet station sheet limit → HoldsTogether station sheet }
    ensures residuals { (station : StationValue) (sheet : SheetValue) (limit : Option ℕ)
        → IsAcceptedSheet station sheet limit → IfSome limit (KeepsLimit station sheet) }
    ensures accepted { (station : StationValue) (sheet : SheetValue) (limit : Option ℕ)
        → Matches station sheet → TargetsAddUp station sheet → SetsAddUp station sheet
        → HoldsTogether station sheet → IfSome limit (KeepsLimit station sheet)
        → 1 ≤ length (observations station sheet) → IsAcceptedSheet station sheet limit }
{}

/// What is looked for before a refusal is as it has to be.
pub fn refusal()
    ensures matches { (station : StationValue) (sheet : SheetValue) (limit : Option ℕ)
        (fault : KernelFault) → IsVerdict station sheet limit (Err fault)
        → 5 < order_of fault → Matches station sheet }
    ensures targets { (station : StationValue) (sheet : SheetValue) (limit : Option ℕ)
        (fault : KernelFault) → IsVerdict station sheet limit (Err fault)
        → 6 < order_of fault
        → TargetsAddUp station sheet }
    ensures sets { (station : StationValue) (sheet : SheetValue) (limit : Option ℕ)
        (fault : KernelFault) → IsVerdict station sheet limit (Err fault)
        → 7 < order_of fault → SetsAddUp station sheet }
    ensures connection { (station : StationValue) (sheet : SheetValue) (limit : Option ℕ)
        (fault : KernelFault) → IsVerdict station sheet limit (Err fault)
        → 8 < order_of fault
        → HoldsTogether station sheet }
{}

/// The bounds of stations and sheets. Angles and the residual limit are in half units (0.005 mgon
/// each), and those of directions, orientations and scaled residuals in half units times the
/// denominator.
pub fn bounds()
    ensures turn { TURN ≡ 80_000_000 }
    ensures targets { MOST_TARGETS ≡ 100 }
    ensures sets { MOST_SETS ≡ 40 }
    ensures rows { MOST_ROWS ≡ 4_000 }
    ensures set_number { LARGEST_SET_NUMBER ≡ 9_999 }
    ensures name { LONGEST_NAME ≡ 16 }
    ensures fault_name { LONGEST_FAULT_NAME ≡ 16 }
    ensures first_printable { FIRST_PRINTABLE ≡ 32 }
    ensures last_printable { LAST_PRINTABLE ≡ 126 }
    ensures denominator { LARGEST_DENOMINATOR ≡ 1_000_000_000_000 }
    ensures angle { LARGEST_ANGLE ≡ pos 1_000_000_000_000_000_000_000 }
    ensures full_turns { LARGEST_TURN ≡ pos 9 }
    ensures residual { LARGEST_RESIDUAL ≡ pos 2_800_000_000_000_000_000_000 }
    ensures residual_limit { LARGEST_RESIDUAL_LIMIT ≡ 2_000 }
{}

/// The units of directions: a half unit, 0.000001 gon and a full circle, each in units of
/// 0.000000001 gon; and the parts of such a unit.
pub fn units()
    ensures half_unit { HALF_UNIT ≡ 5_000 }
    ensures unit { UNIT ≡ 1_000 }
    ensures circle { CIRCLE ≡ 400_000_000_000 }
    ensures parts { PARTS ≡ 81 }
{}
