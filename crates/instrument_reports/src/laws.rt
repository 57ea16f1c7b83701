//! Laws of the definitions that contracts cite. The functions do nothing.
ghost use Rattle.std.specs.Prelude.{◌≡◌, ℕ, List, Result};
ghost use Rattle.gsi_file.specs.FileAnswers.{FileAnswers};
ghost use Rattle.instrument_reports.specs.Answers.{SaysReportOf, SaysRowsOf};
ghost use Rattle.row_forms.specs.declared.form.RowForm.{RowForm as Form};
ghost use Rattle.station_answers.specs.Answers.{TellsOf};
ghost use Rattle.station_book.specs.Limits.{AreLimits};
ghost use Rattle.station_book.specs.declared.result_limits.ResultLimits.{ResultLimits};
ghost use Rattle.station_compare.specs.OneAnswer.{IsSettled};
ghost use Rattle.station_compare.specs.declared.fault.CompareFault.{CompareFault};
ghost use Rattle.station_report.specs.NoteTexts.{ReportHead};

/// What came of a reader has one answer of rows with what was recorded: the first fault is one, and
/// so is each byte of the text. Two answers alone may stand in the place of another: out of memory
/// in that of any, and that no adjustment was found in that of those from the adjustment on.
pub fn one_answer()
    ensures { (form : Form) (limits : ResultLimits) (file : FileAnswers) (name : List ℕ)
        (r s : Result (List ℕ) CompareFault) → AreLimits limits.faces
        → IsSettled r → IsSettled s
        → TellsOf (SaysRowsOf file form) limits file name r
        → TellsOf (SaysRowsOf file form) limits file name s → r ≡ s }
{}

/// So is the answer of a report with what was recorded.
pub fn one_report()
    ensures { (head : ReportHead) (limits : ResultLimits) (file : FileAnswers) (name : List ℕ)
        (r s : Result (List ℕ) CompareFault) → AreLimits limits.faces
        → IsSettled r → IsSettled s
        → TellsOf (SaysReportOf file head limits) limits file name r
        → TellsOf (SaysReportOf file head limits) limits file name s → r ≡ s }
{}
