//! The law of the tree. The function does nothing.

ghost use Rattle.std.specs.Prelude.{◌≡◌};
ghost use Rattle.gsi_word.specs.Blocks.{GsiBlock};
ghost use Rattle.station_book.specs.declared.role.Role.{Role};
ghost use Rattle.station_book.specs.Limits.{FaceLimits};
ghost use Rattle.station_book.specs.Places.{History};
ghost use Rattle.station_book.specs.Faults.{faults_as, end_faults};
ghost use Rattle.book_tree.specs.Tree.{tree_of, tree_end_faults};
ghost use Rattle.book_tree.specs.Reflects.{Reflects};
ghost use Rattle.book_tree.specs.TreeFaults.{faults_by};

/// The tree of a file's blocks says what the definitions by places find there: whether a set is
/// open, which, its readings, the sets of its station, and the names that were used. The faults of
/// a block, and of the end, are those over the tree.
pub fn tree_is_book()
    ensures reflects { (past : History) → Reflects (tree_of past) past }
    ensures faults { (role : Role) (limits : FaceLimits) (past : History) (b : GsiBlock)
        → faults_as role limits past b ≡ faults_by role limits past (tree_of past) b }
    ensures end { (past : History) → end_faults past ≡ tree_end_faults (tree_of past) }
{}
