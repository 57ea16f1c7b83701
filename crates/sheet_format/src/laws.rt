//! Laws of the definitions that contracts cite. The functions do nothing.

ghost use Rattle.std.specs.Prelude.{◌≡◌, ◌⊎◌, List, ℕ, pos};
ghost use Rattle.adjust_kernel.specs.Sheets.{IsSheet, SheetValue};
ghost use Rattle.sheet_format.specs.Faults.{IsSheetFault};
ghost use Rattle.sheet_format.specs.Rows.{IsSheetText};
ghost use Rattle.sheet_format.specs.Texts as spec;
ghost use Rattle.sheet_format.specs.declared.fault.SheetFault.{SheetFault};
ghost use Rattle.sheet_format.specs.declared.reading.TheConstants.{LONGEST_SHEET};
ghost use Rattle.sheet_format.specs.declared.version.TheConstants.{LARGEST_ANGLE_OF_ONE};
ghost use Rattle.sheet_format.specs.declared.version.TheConstants.{LARGEST_DENOMINATOR_OF_ONE};

/// Bytes stand for one sheet at most.
pub fn one_sheet()
    ensures { (bytes : List ℕ) (a b : SheetValue)
        → IsSheetText bytes a → IsSheetText bytes b → a ≡ b }
{}

/// Bytes have one first fault at most.
pub fn one_fault()
    ensures { (bytes : List ℕ) (a b : SheetFault)
        → IsSheetFault bytes a → IsSheetFault bytes b → a ≡ b }
{}

/// Bytes that stand for a sheet have no fault.
pub fn never_both()
    ensures { (bytes : List ℕ) (sheet : SheetValue) (fault : SheetFault)
        → IsSheetText bytes sheet → ¬ IsSheetFault bytes fault }
{}

/// Bytes stand for a sheet or have a fault.
pub fn some_answer()
    ensures { (bytes : List ℕ) → ((sheet : SheetValue) × IsSheetText bytes sheet)
        ⊎ ((fault : SheetFault) × IsSheetFault bytes fault) }
{}

/// The text that a sheet is written as stands for it.
pub fn text_stands()
    ensures { (sheet : SheetValue) → IsSheet sheet → IsSheetText (spec.sheet_text sheet) sheet }
{}

/// The bounds of a sheet's text: its bytes, and what version 1 narrows. The other ranges are the
/// kernel's.
pub fn bounds()
    ensures bytes { LONGEST_SHEET ≡ 1_048_576 }
    ensures denominator_of_one { LARGEST_DENOMINATOR_OF_ONE ≡ 1_000_000_000 }
    ensures angle_of_one { LARGEST_ANGLE_OF_ONE ≡ pos 1_000_000_000_000_000_000 }
{}
