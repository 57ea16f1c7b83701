//! What is asked of each station of a file.
ghost use Rattle.std.specs.Prelude.{ℕ, IfOk, List, MatchResult, OnOk};
ghost use Rattle.book_answers.specs.Notes.{IsNoNote};
ghost use Rattle.book_answers.specs.OfStations.{IsRefusedOfOne};
ghost use Rattle.exact_adjustment.specs.LeastOf.{HasResidualsWithin};
ghost use Rattle.station_book.specs.Stations.{SurveyedStation};
ghost use Rattle.station_book.specs.declared.result_limits.ResultLimits.{ResultLimits as Limits};
ghost use Rattle.station_compare.specs.declared.refusal.Refusal.{Refusal as Refused};

use station_answers::StationAnswer;
use station_book::{ResultLimits, Surveyed};
use station_compare::{Refusal, hinted};
use std::alloc::Global;

/// What is answered of one station of a file.
#[derive(Drop)]
pub(crate) struct OwnText {
    /// Its text.
    pub text: Vec<u8>,
    /// What is told of it beside.
    pub note: Vec<u8>,
}

/// What is asked of each station of a file: a text.
pub(crate) trait EachAnswer: Drop {
    // What the text of a station says, by these limits.
    ghost says: { Self → Limits → SurveyedStation → List ℕ → Type 0 };

    // What is told of a station beside it.
    ghost notes: { Self → SurveyedStation → List ℕ → Type 0 };

    // Why a station has none, and what is told of that.
    ghost refuses: { Self → Limits → SurveyedStation → Refused → Type 0 };

    /// The text of a station, no least-squares residual of which is above the limit of residuals.
    fn own_of(
        &self,
        alloc: Global,
        limits: ResultLimits,
        surveyed: &Surveyed,
    ) -> Result<OwnText, Refusal>
        ensures text { MatchResult result (λ own. says self.now limits surveyed.now own.text.items)
            (refuses self.now limits surveyed.now) }
        ensures noted { IfOk result (λ own. notes self.now surveyed.now own.note.items) }
        ensures held { OnOk result (HasResidualsWithin surveyed.now.station limits.residual) };
}

/// The text that each station alone has.
#[derive(Drop)]
pub(crate) struct Alone<'a, A> {
    pub asked: &'a A,
}

impl<'a, A: StationAnswer> EachAnswer for Alone<'a, A> {
    ghost says = { λ each. A.says each.asked.now };

    ghost notes = { λ _. IsNoNote };

    ghost refuses = { λ _ limits its refusal. IsRefusedOfOne limits.residual its refusal };

    fn own_of(
        &self,
        alloc: Global,
        limits: ResultLimits,
        surveyed: &Surveyed,
    ) -> Result<OwnText, Refusal> {
        let residual = limits.residual;
        let answer = self.asked.text_of(alloc, limits, surveyed);
        match hinted(answer, surveyed.station(), residual) {
            Ok(text) => Ok(OwnText {
                text,
                note: Vec::new(alloc),
            }),
            Err(refusal) => Err(refusal),
        }
    }
}
