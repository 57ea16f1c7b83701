//! Laws of the definitions that contracts cite, for proofs about lines. The functions do nothing.

ghost use Rattle.std.specs.Prelude.{◌≡◌, ◌↔◌, ◌<◌, ◌⊎◌, List, ℕ, Ok, length};
ghost use Rattle.gsi_word.specs.Words.{GsiWord};
ghost use Rattle.gsi_word.specs.Names.{name_of, IsNameIn};
ghost use Rattle.gsi_word.specs.Angles.{angle_of, IsAngle};
ghost use Rattle.gsi_word.specs.Blocks.{GsiBlock, IsBlock};
ghost use Rattle.gsi_word.specs.LineFaults.{IsLineFault};
ghost use Rattle.gsi_word.specs.declared.line_fault.LineFault.{LineFault};
ghost use Rattle.gsi_word.specs.declared.angle.TheConstants.{LAST_UNIT};
ghost use Rattle.gsi_word.specs.declared.index.TheConstants.{POINT_NUMBER, HORIZONTAL_DIRECTION};
ghost use Rattle.gsi_word.specs.declared.index.TheConstants.{VERTICAL_ANGLE, CODE_NUMBER};
ghost use Rattle.gsi_word.specs.declared.index.TheConstants.{CODE_INFORMATION};
ghost use Rattle.gsi_word.specs.declared.word.TheConstants.{GSI_8, GSI_16};

/// A line is one block at most: it has one width and one list of words.
pub fn one_block()
    ensures { (line : List ℕ) (a b : GsiBlock) → IsBlock line a → IsBlock line b → a ≡ b }
{}

/// A line has one first fault at most.
pub fn one_fault()
    ensures { (line : List ℕ) (a b : LineFault)
        → IsLineFault line a → IsLineFault line b → a ≡ b }
{}

/// A line that is a block has no fault.
pub fn no_fault_in_a_block()
    ensures { (line : List ℕ) (block : GsiBlock) (fault : LineFault)
        → IsBlock line block → ¬ IsLineFault line fault }
{}

/// Each line is a block or has a fault.
pub fn block_or_fault()
    ensures { (line : List ℕ)
        → ((block : GsiBlock) × IsBlock line block)
        ⊎ ((fault : LineFault) × IsLineFault line fault) }
{}

/// A content that is not empty has one name, the content without its leading zeros.
pub fn one_name()
    ensures { (content name : List ℕ) → 0 < length content
        → IsNameIn content name ↔ (name ≡ name_of content) }
{}

/// The angle of a word is the number that all tests let pass.
pub fn one_angle()
    ensures { (word : GsiWord) (units : ℕ) → (angle_of word ≡ Ok units) ↔ IsAngle word units }
{}

/// The indices, the greatest angle and the widths, in digits.
pub fn indices()
    ensures point_number { POINT_NUMBER ≡ 11 }
    ensures horizontal_direction { HORIZONTAL_DIRECTION ≡ 21 }
    ensures vertical_angle { VERTICAL_ANGLE ≡ 22 }
    ensures code_number { CODE_NUMBER ≡ 41 }
    ensures code_information { CODE_INFORMATION ≡ 42 }
    ensures last_unit { LAST_UNIT ≡ 39999999 }
    ensures gsi_8 { GSI_8 ≡ 8 }
    ensures gsi_16 { GSI_16 ≡ 16 }
{}
