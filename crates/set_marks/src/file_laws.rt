//! The law of a marked file: what stands in its copy, and what the book finds there. The function
//! does nothing.

ghost use Rattle.std.specs.Prelude.{◌≡◌, ℕ, Bool, false, List, Option, IfSome};
ghost use Rattle.std.specs.List.{list_any};
ghost use Rattle.gsi_file.specs.FileAnswers.{file_answers};
ghost use Rattle.adjust_kernel.specs.Names.{IsName};
ghost use Rattle.station_book.specs.Places.{History};
ghost use Rattle.job_statements.specs.declared.beginnings.Beginnings.{Beginnings};
ghost use Rattle.set_marks.specs.declared.marked.Marked.{Marked};
ghost use Rattle.job_statements.specs.Numbers.{Said};
ghost use Rattle.set_marks.specs.Markings.{IsMarking, copy_of};
ghost use Rattle.set_marks.specs.Unmarked.{is_put_in, unmarked, whole_lines};
ghost use Rattle.set_marks.specs.MarkedFile.{AreBlocksOf, copy_history, IsFoundAsDivided};

/// The copy of a marked file has the file's blocks, with those of the code lines before them. There
/// the book finds each reading where the division puts it, those of a station with a fault in no
/// set, and no fault that comes of the code lines. Without the lines that begin with four points
/// after `41` the copy is the file, byte for byte, where the file has no such line.
pub fn copy_is_read()
    ensures blocks { (beginnings : Beginnings) (stated : Said) (bytes : List ℕ) (fails : Bool)
        (m : Marked)
        → IfSome beginnings.station IsName
        → (marking : IsMarking beginnings stated bytes
        (file_answers (record { bytes = bytes; fails = fails })) m)
        → AreBlocksOf (copy_of bytes m) (copy_history beginnings stated marking.blocks) }
    ensures found { (beginnings : Beginnings) (stated : Said) (bytes : List ℕ) (fails : Bool)
        (m : Marked)
        → IfSome beginnings.station IsName
        → (marking : IsMarking beginnings stated bytes
        (file_answers (record { bytes = bytes; fails = fails })) m)
        → (copy : History) → AreBlocksOf (copy_of bytes m) copy
        → IsFoundAsDivided beginnings stated marking.blocks copy }
    ensures back { (beginnings : Beginnings) (stated : Said) (bytes : List ℕ) (fails : Bool)
        (m : Marked)
        → IfSome beginnings.station IsName
        → IsMarking beginnings stated bytes
        (file_answers (record { bytes = bytes; fails = fails })) m
        → list_any is_put_in (whole_lines bytes) ≡ false → unmarked (copy_of bytes m) ≡ bytes }
{}
