//! Laws of the definitions that contracts cite. The functions do nothing.

ghost use Rattle.std.specs.Prelude.{◌≡◌, ℕ, List, Result};
ghost use Rattle.gsi_file.specs.FileAnswers.{FileAnswers};
ghost use Rattle.set_marks.specs.Markings.{AnswersMark};
ghost use Rattle.job_statements.specs.declared.beginnings.Beginnings.{Beginnings};
ghost use Rattle.set_marks.specs.declared.marked.Marked.{Marked};
ghost use Rattle.set_marks.specs.declared.refused.Refused.{Refused};
ghost use Rattle.job_statements.specs.Numbers.{Said};
ghost use Rattle.station_mark.specs.OneAnswer.{IsSettled, printed_of};

/// What came of a reader has one answer of `mark`: of the same lines, the same bytes, and the same
/// that is stated of how stations begin and of the file, the fault that is refused is one, and so
/// is each byte of the copy and of the notes. Out of memory alone may stand in the place of any.
pub fn one_answer()
    ensures { (beginnings : Beginnings) (stated : Said) (bytes : List ℕ) (file : FileAnswers)
        (r s : Result Marked Refused) → IsSettled r → IsSettled s
        → AnswersMark beginnings stated bytes file r → AnswersMark beginnings stated bytes file s
        → printed_of bytes r ≡ printed_of bytes s }
{}
