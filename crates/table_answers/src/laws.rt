//! Laws of the definitions that contracts cite. The functions do nothing.
ghost use Rattle.std.specs.Prelude.{◌≡◌, ◌++◌, ℕ, List, Result, Some};
ghost use Rattle.adjust_kernel.specs.Stations.{StationValue};
ghost use Rattle.byte_ends.specs.Source.{Told};
ghost use Rattle.direction_table.specs.declared.form.TableForm.{TableForm};
ghost use Rattle.gsi_file.specs.FileAnswers.{FileAnswers};
ghost use Rattle.station_book.specs.Limits.{AreLimits};
ghost use Rattle.station_book.specs.declared.result_limits.ResultLimits.{ResultLimits};
ghost use Rattle.station_compare.specs.OneAnswer.{IsSettled};
ghost use Rattle.station_compare.specs.declared.fault.CompareFault.{CompareFault};
ghost use Rattle.table_answers.specs.Answers.{StatesBeside, TellsBeside};
ghost use Rattle.table_answers.specs.Noting.{IsNote};
ghost use Rattle.table_answers.specs.WholeParts.{HasPartsBeside};
ghost use Rattle.table_answers.specs.Wholes.{IsWhole, WholeValue};
ghost use Rattle.table_report.specs.Stating.{ReportAsked};

use crate::answer::TableAnswer;

/// What came of two readers has one answer, whatever is asked of the station and the table: the
/// fault that stands first is one, and so is all that the answer says. Two answers alone may stand
/// in the place of another: out of memory in that of any, and that no adjustment was found in that
/// of those from the adjustment on.
pub fn one_answer<A: TableAnswer>()
    ensures { (asked : A) (limits : ResultLimits) (file : FileAnswers) (stated : Told)
        (name : List ℕ) (r s : Result A.Value CompareFault) → AreLimits limits.faces
        → IsSettled r → IsSettled s
        → TellsBeside (A.says asked limits) (A.refuses asked limits) limits file stated name r
        → TellsBeside (A.says asked limits) (A.refuses asked limits) limits file stated name s
        → r ≡ s }
{}

/// The parts of all that is answered of a station and a table are what is answered where each alone
/// is asked for.
pub fn parts_alone()
    ensures { (asked : ReportAsked) (limits : ResultLimits) (file : FileAnswers) (stated : Told)
        (name : List ℕ) (whole : WholeValue)
        → StatesBeside (IsWhole asked limits) limits file stated name whole
        → HasPartsBeside asked limits file stated name whole }
{}

/// A table has one note beside a station, as it is read: which unit it names, if any, is settled.
pub fn one_note()
    ensures { (form : TableForm) (station : StationValue) (bytes a b : List ℕ)
        → IsNote form station bytes a → IsNote form station bytes b → a ≡ b }
{}
