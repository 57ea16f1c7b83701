//! Laws of the definitions that contracts cite. The functions do nothing.

ghost use Rattle.std.specs.Prelude.{◌≡◌, ◌≤◌, ◌⊎◌, List, ℕ, length, take, Some, true};
ghost use Rattle.byte_ends.specs.Source.{Told};
ghost use Rattle.gsi_word.specs.Blocks.{GsiBlock, IsBlock};
ghost use Rattle.gsi_file.specs.Parts.{ended_lines};
ghost use Rattle.gsi_file.specs.FileAnswers.{is_within, IsFirstBreak, answers_before};
ghost use Rattle.gsi_file.specs.FileAnswers.{answers_of_all, file_answers};
ghost use Rattle.gsi_file.specs.ToCome.{IsFileFault};
ghost use Rattle.gsi_file.specs.declared.file_fault.FileKind.{FileKind};
ghost use Rattle.gsi_file.specs.declared.file_fault.FileKind.TheVariants as kind;
ghost use Rattle.gsi_file.specs.declared.bounds.TheConstants.{LONGEST_LINE, LONGEST_FILE};

/// Where a byte is the first that breaks a limit, a source answers the lines that ended before it.
pub fn answers_before_a_broken_limit()
    ensures { (told : Told) (x : ℕ) → IsFirstBreak LONGEST_FILE told.bytes x
        → file_answers told ≡ answers_before LONGEST_FILE told.bytes x }
{}

/// Where no byte breaks a limit, a source answers by all its bytes.
pub fn answers_within_the_limits()
    ensures { (told : Told)
        → ((n : ℕ) → n ≤ length told.bytes → is_within LONGEST_FILE (take n told.bytes) ≡ true)
        → file_answers told ≡ answers_of_all told.bytes told.fails }
{}

/// A failed read comes only where the source gives all its bytes and then fails: all lines that its
/// bytes end are answered before it.
pub fn failed_read_needs_a_failing_source()
    ensures fails { (told : Told) → (file_answers told).last ≡ Some kind.Read → told.fails ≡ true }
    ensures all { (told : Told) → (file_answers told).last ≡ Some kind.Read
        → (file_answers told).lines ≡ ended_lines told.bytes }
{}

/// A line has one fault at most.
pub fn one_fault()
    ensures { (line : List ℕ) (a b : FileKind) → IsFileFault line a → IsFileFault line b → a ≡ b }
{}

/// A line that is a block has no fault.
pub fn no_fault_in_a_block()
    ensures { (line : List ℕ) (fault : FileKind) (block : GsiBlock)
        → IsFileFault line fault → ¬ IsBlock line block }
{}

/// Each line is a block or has a fault.
pub fn block_or_fault()
    ensures { (line : List ℕ) → ((block : GsiBlock) × IsBlock line block)
        ⊎ ((fault : FileKind) × IsFileFault line fault) }
{}

/// The bounds of a line and of a file, in bytes.
pub fn bounds()
    ensures line { LONGEST_LINE ≡ 1024 }
    ensures file { LONGEST_FILE ≡ 16777216 }
{}
