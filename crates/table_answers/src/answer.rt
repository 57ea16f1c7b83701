//! What is asked of one station and a table.
ghost use Rattle.std.specs.Prelude.{◌≡◌, ℕ, Err, List, MatchResult, OnOk, Result, ⊤};
ghost use Rattle.byte_ends.specs.Sink.{WriterChange};
ghost use Rattle.byte_ends.specs.Writers.{writer_change};
ghost use Rattle.direction_table.specs.declared.form.TableForm.{TableForm};
ghost use Rattle.exact_adjustment.specs.LeastOf.{HasResidualsWithin};
ghost use Rattle.station_book.specs.Stations.{SurveyedStation};
ghost use Rattle.station_book.specs.declared.result_limits.ResultLimits.{ResultLimits as Limits};
ghost use Rattle.station_compare.specs.OneAnswer.{IsSettled};
ghost use Rattle.station_compare.specs.declared.fault.CompareFault.{CompareFault as WhyNot};
ghost use Rattle.station_compare.specs.declared.fault.CompareFault.TheVariants.{Memory};
ghost use Rattle.table_answers.specs.Noting.{Noting};
ghost use Rattle.table_answers.specs.Refusing.{IsOfBytes};

use crate::noted::Noted;
use byte_ends::Sink;
use station_book::{ResultLimits, Surveyed};
use station_compare::CompareFault;
use std::alloc::Global;

/// What is answered of one station of a field file and of the bytes of a table, as it is asked for.
/// Both have it exactly where they are compared.
pub trait TableAnswer: Drop {
    /// What is answered.
    type Answer: Drop;

    // What an answer says, without where it lies in memory.
    ghost Value: { Type 0 };

    ghost value: { Self.Answer → Value };

    // How the table is to be read.
    ghost form_of: { Self → TableForm };

    // What the answer says of a station and the bytes of a table, by these limits.
    ghost says: { Self → Limits → SurveyedStation → List ℕ → Value → Type 0 };

    // What is refused of both.
    ghost refuses: { Self → Limits → SurveyedStation → List ℕ → WhyNot → Type 0 };

    // What an answer makes of `out`, and what is then answered.
    ghost prints: { Value → Result ⊤ WhyNot → WriterChange → Type 0 };

    /// The answer for a station, no least-squares residual of which is above the limit of
    /// residuals, and for the bytes of a table; and the note of the table.
    ///
    /// # Errors
    ///
    /// Those of the table, then those of the adjustment; `Memory`.
    fn of_table(
        &self,
        alloc: Global,
        limits: ResultLimits,
        surveyed: &Surveyed,
        bytes: &[u8],
    ) -> Result<Noted<Self::Answer>, CompareFault>
        ensures tells { MatchResult result
            (λ noted. Noting (says self.now limits) (form_of self.now) surveyed.now bytes.now
            (value noted.answer, noted.note.items))
            (refuses self.now limits surveyed.now bytes.now) }
        ensures held { OnOk result (HasResidualsWithin surveyed.now.station limits.residual) };

    /// Prints an answer, and passes on a refusal that comes of it.
    fn print<W: Sink>(answer: Self::Answer, out: &mut W) -> Result<(), CompareFault>
        ensures { prints (value answer) result (writer_change W.Sink out.old out.new) };

    // A station and the bytes of a table have one answer,
    ghost one: { (asked : Self) (limits : Limits) (its : SurveyedStation) (bytes : List ℕ)
        (a b : Value) → says asked limits its bytes a → says asked limits its bytes b → a ≡ b };

    // or one fault,
    ghost one_fault: { (asked : Self) (limits : Limits) (its : SurveyedStation) (bytes : List ℕ)
        (a b : WhyNot) → IsSettled {A = ⊤} (Err a) → IsSettled {A = ⊤} (Err b)
        → refuses asked limits its bytes a → refuses asked limits its bytes b → a ≡ b };

    // and never both;
    ghost never_both: { (asked : Self) (limits : Limits) (its : SurveyedStation) (bytes : List ℕ)
        (a : Value) (fault : WhyNot) → HasResidualsWithin its.station limits.residual
        → IsSettled {A = ⊤} (Err fault) → says asked limits its bytes a
        → ¬ refuses asked limits its bytes fault };

    // that memory ran out may stand in the place of any;
    ghost memory: { (asked : Self) (limits : Limits) (its : SurveyedStation) (bytes : List ℕ)
        → refuses asked limits its bytes Memory };

    // and no fault of them is one of the field file, or of the table's reader.
    ghost of_bytes: { (asked : Self) (limits : Limits) (its : SurveyedStation) (bytes : List ℕ)
        (fault : WhyNot) → refuses asked limits its bytes fault → IsOfBytes fault };
}
