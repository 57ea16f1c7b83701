//! Laws of the definitions that the contract cites. The functions do nothing.

ghost use Rattle.std.specs.Prelude.{◌≡◌, ◌<◌, ◌≤◌, ◌++◌, ℕ, List, [], IsPermutation, length, true};
ghost use Rattle.adjust_kernel.specs.Names.{IsName};
ghost use Rattle.gsi_word.specs.Blocks.{GsiBlock, IsBlock, width_of};
ghost use Rattle.gsi_word.specs.Names.{name_of};
ghost use Rattle.set_marks.specs.Marks.{filled};
ghost use Rattle.station_book.specs.Blocks.{is_measurement, role_of};
ghost use Rattle.changed_lines.specs.ChangedFile.{changed, edited_lines};
ghost use Rattle.changed_lines.specs.Answers.{AreMade, IsFirstFault};
ghost use Rattle.changed_lines.specs.declared.fault.ChangeFault.{ChangeFault};
ghost use Rattle.changed_lines.specs.declared.change.Change.{Change};
ghost use Rattle.changed_lines.specs.Order.{AreOrdered, all_placed};
ghost use Rattle.gsi_file.specs.Parts.{numbered_lines};
ghost use Rattle.changed_lines.specs.Renaming.{renamed, renamed_block, IsBare, TakesName};

/// With no change the copy is the file.
pub fn no_change()
    ensures { (bytes : List ℕ) → changed [] bytes ≡ bytes }
{}

/// The lines that a reader of the copy counts are those of the file: without those that are left
/// out, and renamed those that are renamed.
pub fn lines_of_the_copy()
    ensures { (bytes : List ℕ) (cs : List Change) → AreMade (numbered_lines bytes) 0 cs
        → numbered_lines (changed cs bytes) ≡ edited_lines 0 cs (numbered_lines bytes) }
{}

/// Where all changes can be made there is no first that can't: so a copy and a fault are never both
/// answered.
pub fn made_or_refused()
    ensures { (lines : List (List ℕ)) (cs : List Change) (fault : ChangeFault)
        → AreMade lines 0 cs → ¬ IsFirstFault lines 0 cs fault }
{}

/// A line that is a block is with another name, for which its word has room, the same block but for
/// the content of its first word. Where it is a measurement, it takes each such name; so `NoPoint`
/// is answered of no line that the file's readers take for a measurement.
pub fn renamed_lines()
    ensures block { (line name : List ℕ) (block : GsiBlock) → IsBlock line block
        → length name ≤ width_of line → IsName name
        → IsBlock (renamed name line) (renamed_block name block) }
    ensures taken { (line name : List ℕ) (block : GsiBlock) → IsBlock line block
        → is_measurement (role_of block) ≡ true → length name ≤ width_of line → IsName name
        → TakesName name line }
{}

/// A name that no zero stands before is read back from the content that it fills.
pub fn name_is_read_back()
    ensures { (width : ℕ) (name : List ℕ) → 0 < length name → IsBare name
        → name_of (filled width name) ≡ name }
{}

/// Changes of two kinds that are put in order stand in the order of their lines, and are those that
/// are stated: none is left out, and none stands there twice.
pub fn in_order()
    ensures ordered { (some others : List Change)
        → AreOrdered 0 (all_placed (all_placed [] some) others) }
    ensures same { (some others : List Change)
        → IsPermutation (some ++ others) (all_placed (all_placed [] some) others) }
{}
