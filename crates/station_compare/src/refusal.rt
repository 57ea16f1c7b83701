//! A refusal: a fault, and what is told after its line.

ghost use Rattle.std.specs.Prelude.{◌≡◌};
ghost use Rattle.station_compare.specs.Refusals as spec;
ghost use Rattle.station_compare.specs.Refusals.{unhinted};
ghost use Rattle.station_compare.specs.declared.fault.CompareFault.TheVariants.{Write};

use crate::fault::CompareFault;
use crate::hint::Hint;
use crate::named_in_station::station_hint;
use crate::refused::refusal_line;
use adjust_kernel::{ResidualLimit, Station};
use arrayvec::ArrayVec;
use byte_ends::Failed;
use station_check::LONGEST_VERDICT_LINE;

/// Why nothing is answered of a station, and what is told after the line of it.
#[derive(Drop)]
pub struct Refusal {
    /// The first fault that stands.
    pub fault: CompareFault,
    /// What its numbers stand for.
    pub hint: Hint,
}

impl From<CompareFault> for Refusal {
    ghost from_gives = { λ fault given. given ≡ unhinted fault };

    /// The refusal for this fault, without a hint.
    fn from(fault: CompareFault) -> Refusal {
        let hint = Hint::none();
        Refusal { fault, hint }
    }
}

impl From<Failed> for Refusal {
    ghost from_gives = { λ _ given. given ≡ unhinted Write };

    fn from(_: Failed) -> Refusal {
        Refusal::from(CompareFault::Write)
    }
}

impl From<Refusal> for CompareFault {
    ghost from_gives = { λ refusal given. given ≡ refusal.fault };

    fn from(refusal: Refusal) -> CompareFault {
        refusal.fault
    }
}

/// Bytes of the text of a refusal, at most.
pub const LONGEST_REFUSAL: usize = 2 * LONGEST_VERDICT_LINE;

/// The text of a refusal, in no memory but its own.
pub type RefusalText = ArrayVec<u8, LONGEST_REFUSAL>;

/// The text of a refusal: its line, and its hint.
pub fn refusal_text(refusal: &Refusal) -> RefusalText
    ensures { result.items ≡ spec.refusal_text refusal.now }
{
    let line = refusal_line(refusal.fault);
    let mut text = RefusalText::new();
    text.try_extend_from_slice(line.as_slice()).unwrap();
    text.try_extend_from_slice(refusal.hint.bytes()).unwrap();
    text
}

/// An answer of a station whose residuals are held to this limit, with the hint of its fault.
pub fn hinted<T: Drop>(
    answer: Result<T, CompareFault>,
    station: &Station,
    residual: ResidualLimit,
) -> Result<T, Refusal>
    ensures { result ≡ spec.hinted station.now residual answer }
{
    match answer {
        Ok(value) => Ok(value),
        Err(fault) => {
            let hint = station_hint(station, residual, fault);
            Err(Refusal { fault, hint })
        }
    }
}
