//! A text of a station, told with what the bytes of its field file recorded.

ghost use Rattle.std.specs.Prelude.{◌≡◌, ℕ, List, MatchResult, option_map};
ghost use Rattle.instrument_reports.specs.Answers.{Putting};
ghost use Rattle.instrument_reports.specs.Printing as spec;
ghost use Rattle.instrument_reports.specs.Rows.{with_recorded_rows};
ghost use Rattle.instrument_reports.specs.Telling.{IsAnswerWith, IsWith};
ghost use Rattle.instrument_words.specs.Below.{on_pages};
ghost use Rattle.station_compare.specs.declared.fault.CompareFault.TheVariants.{Memory};
ghost use Rattle.station_report.specs.NoteTexts.{head_of};

use crate::printing::as_printed;
use crate::recorded::push_recorded;
use instrument_words::{instrument_in, with_instrument};
use station_answers::{Report, ReportRows, StationAnswer};
use station_compare::CompareFault;
use std::alloc::Global;

/// A text of a station that can be told with what its field file recorded of instrument and time:
/// its report has lines of that, and after its rows stand rows of that.
pub(crate) trait Telling: StationAnswer {
    // How the text is made of its own and of what was recorded,
    ghost put: { Self → Putting };

    // and how it is printed.
    ghost print: { Self → List ℕ → List ℕ };

    /// A text with what the bytes of its field file recorded, where they were kept.
    ///
    /// The only error is that memory was refused, here or for the bytes.
    fn told(
        &self,
        alloc: Global,
        text: Vec<u8>,
        kept: &Option<Vec<u8>>,
    ) -> Result<Vec<u8>, CompareFault>
        ensures { MatchResult result
            (λ whole. IsWith (put self.now) (option_map (λ bytes. bytes.items) kept.now) text.items
            whole.items)
            (λ fault. fault ≡ Memory) };

    /// A text as it is printed.
    ///
    /// The only error is that memory was refused.
    fn printed(&self, alloc: Global, text: Vec<u8>) -> Result<Vec<u8>, CompareFault>
        ensures { MatchResult result (λ whole. whole.items ≡ print self.now text.items)
            (λ fault. fault ≡ Memory) };
}

/// An answer with what the bytes of its field file recorded, where they were kept.
pub(crate) fn answer_with<A: Telling, F: From<CompareFault> + Drop>(
    alloc: Global,
    asked: &A,
    answer: Result<Vec<u8>, F>,
    kept: &Option<Vec<u8>>,
) -> Result<Vec<u8>, F>
    ensures { IsAnswerWith (A.put asked.now) (λ text. text.items) (F.from_gives Memory)
        (option_map (λ bytes. bytes.items) kept.now) answer result }
{
    let text = answer?;
    Ok(asked.told(alloc, text, kept)?)
}

impl<'a, 'n> Telling for Report<'a, 'n> {
    ghost put = { λ report. on_pages (head_of report.head).notes.language };

    ghost print = { λ report. spec.as_printed (head_of report.head).notes };

    #[tactic(auto, using(instrument_words::proofs::Coming::all_blocks))]
    fn told(
        &self,
        alloc: Global,
        text: Vec<u8>,
        kept: &Option<Vec<u8>>,
    ) -> Result<Vec<u8>, CompareFault> {
        let Some(bytes) = kept else {
            return Err(CompareFault::Memory);
        };
        Ok(with_instrument(alloc, self.head.language(), &text, bytes)?)
    }

    fn printed(&self, alloc: Global, text: Vec<u8>) -> Result<Vec<u8>, CompareFault> {
        as_printed(alloc, self.head, text)
    }
}

impl Telling for ReportRows {
    ghost put = { λ asked. with_recorded_rows asked.form };

    ghost print = { λ _ rows. rows };

    #[tactic(auto, using(instrument_words::proofs::Coming::all_blocks))]
    fn told(
        &self,
        alloc: Global,
        text: Vec<u8>,
        kept: &Option<Vec<u8>>,
    ) -> Result<Vec<u8>, CompareFault> {
        let Some(bytes) = kept else {
            return Err(CompareFault::Memory);
        };
        let mut whole = text;
        push_recorded(alloc, &mut whole, self.form, &instrument_in(bytes))?;
        Ok(whole)
    }

    fn printed(&self, _: Global, text: Vec<u8>) -> Result<Vec<u8>, CompareFault> {
        Ok(text)
    }
}
