//! Laws of what is stated of a field file. The functions do nothing.

ghost use Rattle.std.specs.Prelude.{◌≡◌, ◌≤◌, ℕ, All, List, None, Option, false};
ghost use Rattle.adjust_kernel.specs.declared.bounds.TheConstants.{MOST_TARGETS};
ghost use Rattle.gsi_file.specs.FileAnswers.{FileAnswers};
ghost use Rattle.job_statements.specs.declared.beginnings.Beginnings.{Beginnings};
ghost use Rattle.set_marks.specs.declared.marked.Marked.{Marked};
ghost use Rattle.job_statements.specs.Numbers.{Said};
ghost use Rattle.set_marks.specs.Judging.{judged_of};
ghost use Rattle.set_marks.specs.Markings.{IsMarking};
ghost use Rattle.set_marks.specs.Stated.{AreAsStated, IsByFaces};

/// What is told of each station of a marked file is what is stated of its sets. Where no number of
/// sets is stated of a station, each of its sets is read by faces: none is read by targets. No station
/// has more targets than the 100 that it may have. Where it isn't stated that stations with a fault
/// stay outside, no station has one.
pub fn marked_as_stated()
    ensures numbers { (beginnings : Beginnings) (stated : Said) (bytes : List ℕ)
        (answers : FileAnswers) (m : Marked)
        → IsMarking beginnings stated bytes answers m → AreAsStated stated m.stations.items }
    ensures by_faces { (beginnings : Beginnings) (stated : Said) (bytes : List ℕ)
        (answers : FileAnswers) (m : Marked)
        → (marking : IsMarking beginnings stated bytes answers m)
        → All (IsByFaces stated) (judged_of beginnings stated marking.blocks) }
    ensures few_targets { (beginnings : Beginnings) (stated : Said) (bytes : List ℕ)
        (answers : FileAnswers) (m : Marked) → IsMarking beginnings stated bytes answers m
        → All (λ r. r.targets ≤ MOST_TARGETS) m.stations.items }
    ensures faultless { (beginnings : Beginnings) (stated : Said) (bytes : List ℕ)
        (answers : FileAnswers) (m : Marked) → IsMarking beginnings stated bytes answers m
        → stated.others ≡ false → All (λ r. r.fault ≡ None) m.stations.items }
{}
