//! Laws of what contracts cite. The functions do nothing.

ghost use Rattle.std.specs.Prelude.{◌≡◌, ◌<◌, ◌^◌, ℕ, Some};
ghost use Rattle.adjust_kernel.specs.declared.kernel_fault.KernelFault.TheVariants as kernel;
ghost use Rattle.changed_lines.specs.declared.fault.ChangeFault.TheVariants as change;
ghost use Rattle.direction_table.specs.declared.fault.RowKind.{RowKind as TableKind};
ghost use Rattle.direction_table.specs.declared.fault.TableFault.TheVariants as table;
ghost use Rattle.exact_adjustment.specs.declared.fault.AdjustFault.TheVariants as adjust;
ghost use Rattle.gsi_file.specs.declared.file_fault.FileFault.TheVariants as file;
ghost use Rattle.gsi_file.specs.declared.file_fault.FileKind.{FileKind};
ghost use Rattle.refusal_places.specs.NamedPlaces.{named_in};
ghost use Rattle.refusal_places.specs.declared.named.Named.TheVariants as named;
ghost use Rattle.set_marks.specs.declared.fault.MarkFault.TheVariants as mark;
ghost use Rattle.set_marks.specs.declared.fault.MarkKind.{MarkKind};
ghost use Rattle.sheet_format.specs.declared.fault.RowKind.{RowKind};
ghost use Rattle.sheet_format.specs.declared.fault.SheetFault.TheVariants as sheet;
ghost use Rattle.station_book.specs.declared.fault.BookFault.TheVariants as book;
ghost use Rattle.station_book.specs.declared.fault.BookKind.{BookKind};
ghost use Rattle.station_change.specs.FaultTexts.{change_line};
ghost use Rattle.station_check.specs.VerdictLines.{refusal_line};
ghost use Rattle.station_check.specs.declared.fault.Fault.TheVariants.{Book, Gsi, Kernel, NoStation};
ghost use Rattle.station_check.specs.declared.fault.Fault.TheVariants.{Sheet};
ghost use Rattle.station_compare.specs.FaultTexts as compare;
ghost use Rattle.station_compare.specs.declared.fault.CompareFault.TheVariants.{Adjust, Table};
ghost use Rattle.station_mark.specs.FaultTexts as of_mark;
ghost use Rattle.station_mark.specs.declared.fault.PrintFault.TheVariants.{Mark};
ghost use Rattle.station_check.specs.declared.verdict_line.TheConstants.{LONGEST_VERDICT_LINE};
ghost use Rattle.station_page.specs.declared.form.TheConstants.{LARGEST_COLUMN, LARGEST_UNIT};
ghost use Rattle.station_page.specs.declared.language.TheConstants.{LARGEST_LANGUAGE};
ghost use Rattle.station_page.specs.declared.hand_out.TheConstants.{OUT_OF_RANGE, TOO_LITTLE_ROOM};

/// In digits: the statuses of a call that answers nothing; the room that is always enough for the
/// line of a verdict; and the largest numbers of a table's unit, of its columns and of a language.
pub fn bounds()
    ensures out_of_range { OUT_OF_RANGE ≡ 2 }
    ensures too_little_room { TOO_LITTLE_ROOM ≡ 3 }
    ensures verdict_line { LONGEST_VERDICT_LINE ≡ 192 }
    ensures unit { LARGEST_UNIT ≡ 2 }
    ensures column { LARGEST_COLUMN ≡ 999_999 }
    ensures language { LARGEST_LANGUAGE ≡ 2 }
{}

/// The line of a refusal names the block, the row, or the target or the observation of the station at
/// which its fault stands.
pub fn refusals_name_their_places()
    ensures line { (n : ℕ) (kind : FileKind) → n < 10 ^ 10
        → named_in (refusal_line (Gsi (file.At n kind))) ≡ Some (named.Block n) }
    ensures block { (n : ℕ) (kind : BookKind) → n < 10 ^ 10
        → named_in (refusal_line (Book (book.At n kind))) ≡ Some (named.Block n) }
    ensures mark { (n : ℕ) (kind : MarkKind) → n < 10 ^ 10
        → named_in (of_mark.refusal_line (Mark (mark.At n kind))) ≡ Some (named.Block n) }
    ensures order { (n : ℕ) → n < 10 ^ 10
        → named_in (change_line (change.LineOrder n)) ≡ Some (named.Block n) }
    ensures no_line { (n : ℕ) → n < 10 ^ 10
        → named_in (change_line (change.NoSuchLine n)) ≡ Some (named.Block n) }
    ensures long_name { (n : ℕ) → n < 10 ^ 10
        → named_in (change_line (change.NameTooLong n)) ≡ Some (named.Block n) }
    ensures zero { (n : ℕ) → n < 10 ^ 10
        → named_in (change_line (change.ZeroBefore n)) ≡ Some (named.Block n) }
    ensures no_point { (n : ℕ) → n < 10 ^ 10
        → named_in (change_line (change.NoPoint n)) ≡ Some (named.Block n) }
    ensures sheet_row { (n : ℕ) (kind : RowKind) → n < 10 ^ 10
        → named_in (refusal_line (Sheet (sheet.Row n kind))) ≡ Some (named.SheetRow n) }
    ensures station { named_in (refusal_line NoStation) ≡ Some (named.SheetRow 1) }
    ensures table_row { (n : ℕ) (kind : TableKind) → n < 10 ^ 10
        → named_in (compare.refusal_line (Table (table.Row n kind))) ≡ Some (named.TableRow n) }
    ensures target_row { (n : ℕ) → n < 10 ^ 10
        → named_in (refusal_line (Kernel (kernel.TargetRow n))) ≡ Some (named.Target n) }
    ensures target_sum { (n : ℕ) → n < 10 ^ 10
        → named_in (refusal_line (Kernel (kernel.TargetSum n))) ≡ Some (named.Target n) }
    ensures datum { named_in (refusal_line (Kernel kernel.Datum)) ≡ Some (named.Target 1) }
    ensures set_row { (n : ℕ) → n < 10 ^ 10
        → named_in (refusal_line (Kernel (kernel.SetRow n))) ≡ Some (named.Set n) }
    ensures set_sum { (n : ℕ) → n < 10 ^ 10
        → named_in (refusal_line (Kernel (kernel.SetSum n))) ≡ Some (named.Set n) }
    ensures observation { (n : ℕ) → n < 10 ^ 10
        → named_in (refusal_line (Kernel (kernel.ObsRow n))) ≡ Some (named.Observation n) }
    ensures residual { (n : ℕ) → n < 10 ^ 10
        → named_in (refusal_line (Kernel (kernel.Residual n))) ≡ Some (named.Observation n) }
    ensures missing { (n : ℕ) → n < 10 ^ 10
        → named_in (compare.refusal_line (Table (table.Missing n))) ≡ Some (named.StationTarget n) }
    ensures adjusted { (n : ℕ) → n < 10 ^ 10
        → named_in (compare.refusal_line (Adjust (adjust.Residual n)))
        ≡ Some (named.StationObservation n) }
{}
