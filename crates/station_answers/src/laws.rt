//! Laws of the definitions that contracts cite. The functions do nothing.
ghost use Rattle.std.specs.Prelude.{◌≡◌, ◌≤◌, ◌⊎◌, ℕ, false, List, Option, Result, Err};
ghost use Rattle.direction_table.specs.TableRows.{unstated};
ghost use Rattle.direction_table.specs.declared.unit.AngleUnit.TheVariants.{Gon};
ghost use Rattle.gsi_file.specs.FileAnswers.{FileAnswers};
ghost use Rattle.station_answers.specs.Answers.{IsHeldTogether, StatesOf, TellsOf};
ghost use Rattle.station_answers.specs.OwnDirections.{MayRefuse};
ghost use Rattle.station_answers.specs.PartAnswers.{HasPartsOf};
ghost use Rattle.row_forms.specs.declared.form.RowForm.TheVariants.{Commas};
ghost use Rattle.station_answers.specs.Saying.{SaysDirections, SaysWhole};
ghost use Rattle.station_book.specs.Limits.{AreLimits};
ghost use Rattle.station_book.specs.declared.result_limits.ResultLimits.{ResultLimits};
ghost use Rattle.station_compare.specs.Agreeing.{Agrees};
ghost use Rattle.station_compare.specs.Answers.{Compares};
ghost use Rattle.station_compare.specs.OneAnswer.{IsNoMemory, IsSettled};
ghost use Rattle.station_compare.specs.declared.agreement.Agreement.{Agreement};
ghost use Rattle.station_compare.specs.declared.fault.CompareFault.{CompareFault};

use crate::answer::StationAnswer;

/// What came of a reader has one answer, whatever is asked of the station: the fault that stands
/// first is one, and so is each printed digit. Two answers alone may stand in the place of another:
/// out of memory in that of any, and that no adjustment was found in that of those from the
/// adjustment on.
pub fn one_answer<A: StationAnswer>()
    ensures { (asked : A) (limits : ResultLimits) (file : FileAnswers) (name : List ℕ)
        (r s : Result (List ℕ) CompareFault) → AreLimits limits.faces
        → IsSettled r → IsSettled s
        → TellsOf (A.says asked limits) limits file name r
        → TellsOf (A.says asked limits) limits file name s → r ≡ s }
{}

/// What came of a reader has an answer that is not that memory ran out, or it comes without fault
/// to the adjustment of a station that is held together. What the solver gives for it, no contract
/// says.
pub fn some_answer<A: StationAnswer>()
    ensures { (asked : A) (limits : ResultLimits) (file : FileAnswers) (name : List ℕ)
        → AreLimits limits.faces
        → ((r : Result (List ℕ) CompareFault)
        × TellsOf (A.says asked limits) limits file name r × IsNoMemory r)
        ⊎ IsHeldTogether limits file name }
{}

/// The parts of all that is answered of a station are the texts that are answered where each alone
/// is asked for.
pub fn parts_alone()
    ensures { (limits : ResultLimits) (file : FileAnswers) (name path text : List ℕ) (count : ℕ)
        → StatesOf (SaysWhole count path limits) limits file name text
        → HasPartsOf count path limits file name text }
{}

/// What is written as a station's directions with 6 decimals or more, `compare_bytes`, in gon,
/// finds apart by 1 unit at most, of the same lines and by the same limits, whatever is asked for.
/// It refuses it for no fault of the lines or of the table, not as `NotConnected` or `Residual`,
/// and as `Apart` only where 0 is stated. No contract excludes that the adjustment is not found
/// again, or that memory runs out.
pub fn directions_agree()
    ensures agrees { (limits : ResultLimits) (file : FileAnswers) (name text : List ℕ)
        (count : ℕ) (within : Option ℕ) (a : Agreement) → AreLimits limits.faces
        → 6 ≤ count → StatesOf (SaysDirections Commas count) limits file name text
        → Agrees (unstated Gon) limits file (record { bytes = text; fails = false }) name within a
        → a.how_far.apart ≤ 1 }
    ensures refused { (limits : ResultLimits) (file : FileAnswers) (name text : List ℕ)
        (count : ℕ) (within : Option ℕ) (fault : CompareFault) → AreLimits limits.faces
        → 6 ≤ count → StatesOf (SaysDirections Commas count) limits file name text
        → Compares (unstated Gon) limits file (record { bytes = text; fails = false }) name within
        (Err fault)
        → MayRefuse within fault }
{}
