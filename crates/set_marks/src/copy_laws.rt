//! Laws of a copy with code lines. The functions do nothing.

ghost use Rattle.std.specs.Prelude.{◌≡◌, ℕ, false, List, All, length};
ghost use Rattle.std.specs.List.{list_any};
ghost use Rattle.set_marks.specs.declared.mark.Mark.{Mark};
ghost use Rattle.set_marks.specs.Copies.{woven, AreOrdered};
ghost use Rattle.set_marks.specs.Unmarked.{BeginsSomeLine, is_put_in, unmarked};
ghost use Rattle.set_marks.specs.Unmarked.{whole_lines};

/// Taking the lines that begin with four points after `41` out of a copy gives the field file back,
/// byte for byte, where the field file has no such line; where it has, they go too.
pub fn field_file_comes_back()
    ensures back { (bytes : List ℕ) (marks : List Mark)
        → AreOrdered 0 (length bytes) marks → All (BeginsSomeLine bytes) marks
        → list_any is_put_in (whole_lines bytes) ≡ false
        → unmarked (woven 0 bytes marks) ≡ bytes }
    ensures unmarked { (bytes : List ℕ) (marks : List Mark)
        → AreOrdered 0 (length bytes) marks → All (BeginsSomeLine bytes) marks
        → unmarked (woven 0 bytes marks) ≡ unmarked bytes }
{}
