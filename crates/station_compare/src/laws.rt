//! Laws of the definitions that contracts cite. The functions do nothing.

ghost use Rattle.std.specs.Prelude.{◌≡◌, ◌⊎◌, ℕ, List, Option, Result};
ghost use Rattle.byte_ends.specs.Source.{Told};
ghost use Rattle.direction_table.specs.declared.form.TableForm.{TableForm};
ghost use Rattle.gsi_file.specs.FileAnswers.{FileAnswers};
ghost use Rattle.station_book.specs.Limits.{AreLimits};
ghost use Rattle.station_book.specs.declared.result_limits.ResultLimits.{ResultLimits};
ghost use Rattle.station_compare.specs.Answers.{Compares};
ghost use Rattle.station_compare.specs.OneAnswer.{IsNoMemory, IsSettled, IsUpToAdjustment};
ghost use Rattle.station_compare.specs.declared.agreement.Agreement.{Agreement};
ghost use Rattle.station_compare.specs.declared.fault.CompareFault.{CompareFault};
ghost use Rattle.station_compare.specs.declared.named_stations.TheConstants.{MOST_NAMED};

/// What came of two readers has one answer of `compare`: the fault that stands first is one, and so
/// are its number and how far a table is apart. Two answers alone may stand in the place of another:
/// out of memory in that of any, and that no adjustment was found in that of those from the
/// adjustment on.
pub fn one_answer()
    ensures { (form : TableForm) (limits : ResultLimits) (file : FileAnswers)
        (stated : Told) (name : List ℕ) (within : Option ℕ) (r s : Result Agreement CompareFault)
        → AreLimits limits.faces
        → IsSettled r → IsSettled s
        → Compares form limits file stated name within r
        → Compares form limits file stated name within s → r ≡ s }
{}

/// What came of two readers has an answer of `compare` that is not that memory ran out, or it comes
/// without fault to the adjustment of a station that is held together. What the solver gives for
/// it, no contract says.
pub fn some_answer()
    ensures { (form : TableForm) (limits : ResultLimits) (file : FileAnswers) (stated : Told)
        (name : List ℕ) (within : Option ℕ) → AreLimits limits.faces
        → ((r : Result Agreement CompareFault)
        × Compares form limits file stated name within r × IsNoMemory r)
        ⊎ IsUpToAdjustment form limits file stated name }
{}

/// In digits: how many stations a hint names at most.
pub fn bounds()
    ensures { MOST_NAMED ≡ 8 }
{}
