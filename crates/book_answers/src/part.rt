//! What is asked of each station of a file and of its part of a table of all.
ghost use Rattle.std.specs.Prelude.{◌≡◌, ◌<◌, ◌^◌, IfOk, MatchResult, OnOk, length};
ghost use Rattle.book_answers.specs.PartTexts as spec;
ghost use Rattle.book_answers.specs.PartTexts.{LacksPart, RefusesPart, SaysPart};
ghost use Rattle.book_answers.specs.Notes.{IsPartNote};
ghost use Rattle.exact_adjustment.specs.LeastOf.{HasResidualsWithin};
ghost use Rattle.station_compare.specs.AgreementTexts as texts;
ghost use Rattle.station_tables.specs.Lines.{of_lines};
ghost use Rattle.station_tables.specs.Parts as parts;
ghost use Rattle.table_answers.specs.Noting.{IsNote};

use crate::columns::{column_in_whole, form_in_part};
use crate::each::{EachAnswer, OwnText};
use crate::note::note_in_whole;
use adjust_kernel::Name;
use direction_table::{TableFault, TableForm};
use row_forms::RowForm;
use station_book::{ResultLimits, Surveyed};
use station_compare::{Agreement, CompareFault, Refusal, agreement_line, station_hint};
use station_differences::LineForm;
use station_tables::{line_of_row, part_of};
use std::alloc::{AllocError, Global};
use table_answers::{Comparison, Differences, Noted, TableAnswer};

/// What is answered of each station and of its part of a table.
#[derive(Clone, Copy, Debug, PartialEq, Eq, Drop)]
pub enum PartText {
    /// Whether they agree: within so many units of 0.000001 gon, or where none are stated within
    /// what is usual for the rows of the part.
    Comparison { within: Option<u32> },

    /// How far the part is off, target by target, as rows in a form.
    Differences { rows: RowForm },
}

/// What is asked of each station and of its part of a table.
#[derive(Clone, Copy, Debug, PartialEq, Eq, Drop)]
pub struct PartAsked {
    /// How each part is to be read; columns are counted in the whole table, whose first is that of the
    /// names of stations.
    pub form: TableForm,
    /// What is answered.
    pub text: PartText,
}

/// The parts of a table of these lines, and what is asked of each.
#[derive(Drop)]
pub(crate) struct Parts<'a> {
    pub asked: PartAsked,
    pub lines: &'a [&'a [u8]],
    ghost few: { length lines.now < 2 ^ 32 },
}

impl<'a> EachAnswer for Parts<'a> {
    ghost says = { λ parts limits its. SaysPart parts.asked limits its (of_lines parts.lines.now) };

    ghost notes = { λ parts. IsPartNote parts.asked.form (of_lines parts.lines.now) };

    ghost refuses = { λ parts limits its.
        RefusesPart parts.asked limits its (of_lines parts.lines.now) };

    fn own_of(
        &self,
        alloc: Global,
        limits: ResultLimits,
        surveyed: &Surveyed,
    ) -> Result<OwnText, Refusal> {
        let station = surveyed.station();
        let residual = limits.residual;
        match own_of_its_part(alloc, self.asked, self.lines, limits, surveyed) {
            Ok(own) => Ok(own),
            Err(fault) => Err(Refusal {
                fault: in_whole(self.lines, station.name(), fault),
                hint: station_hint(station, residual, fault),
            }),
        }
    }
}

/// A fault of a station's part, with its row by the line of the whole table, and its columns by
/// those of that.
fn in_whole(lines: &[&[u8]], name: Name, fault: CompareFault) -> CompareFault
    requires { length lines.now < 2 ^ 32 }
    ensures { result ≡ spec.in_whole (of_lines lines.now) name fault }
{
    match fault {
        CompareFault::Table(TableFault::Row(row, kind)) => {
            CompareFault::Table(TableFault::Row(line_of_row(lines, name, row), kind))
        }
        CompareFault::Table(TableFault::Columns(first, second)) => CompareFault::Table(
            TableFault::Columns(column_in_whole(first), column_in_whole(second)),
        ),
        fault => fault,
    }
}

/// What is answered of a station and of its part of these lines, and the note of that.
fn own_of_its_part(
    alloc: Global,
    asked: PartAsked,
    lines: &[&[u8]],
    limits: ResultLimits,
    surveyed: &Surveyed,
) -> Result<OwnText, CompareFault>
    ensures text { MatchResult result
        (λ own. SaysPart asked limits surveyed.now (of_lines lines.now) own.text.items)
        (LacksPart asked limits surveyed.now (of_lines lines.now)) }
    ensures noted { IfOk result (λ own.
        IsPartNote asked.form (of_lines lines.now) surveyed.now own.note.items) }
    ensures held { OnOk result (HasResidualsWithin surveyed.now.station limits.residual) }
{
    let part = part_of(alloc, lines, surveyed.station().name())?;
    let alone = PartAsked {
        form: form_in_part(asked.form),
        text: asked.text,
    };
    let noted = text_of_part(alloc, alone, limits, surveyed, &part)?;
    let note = note_in_whole(alloc, alone.form, surveyed, &part, noted.note)?;
    Ok(OwnText {
        text: noted.answer,
        note,
    })
}

/// What is answered of a station and of the bytes of its part, by their own columns, with the note
/// of these.
fn text_of_part(
    alloc: Global,
    asked: PartAsked,
    limits: ResultLimits,
    surveyed: &Surveyed,
    bytes: &[u8],
) -> Result<Noted<Vec<u8>>, CompareFault>
    ensures text { MatchResult result
        (λ noted. spec.SaysText asked.form asked.text limits surveyed.now bytes.now
        noted.answer.items)
        (spec.LacksText asked.form asked.text limits surveyed.now bytes.now) }
    ensures noted { IfOk result (λ noted.
        IsNote asked.form surveyed.now.station bytes.now noted.note.items) }
    ensures held { OnOk result (HasResidualsWithin surveyed.now.station limits.residual) }
{
    let form = asked.form;
    match asked.text {
        PartText::Comparison { within } => {
            compared_text(alloc, Comparison { form, within }, limits, surveyed, bytes)
        }
        PartText::Differences { rows } => {
            let written = LineForm::Rows(rows);
            Differences { form, written }.of_table(alloc, limits, surveyed, bytes)
        }
    }
}

/// The line of a table that agrees with a station, and the note of that.
fn compared_text(
    alloc: Global,
    asked: Comparison,
    limits: ResultLimits,
    surveyed: &Surveyed,
    bytes: &[u8],
) -> Result<Noted<Vec<u8>>, CompareFault>
    ensures text { MatchResult result
        (λ noted. spec.IsAgreementText asked.form asked.within limits surveyed.now bytes.now
        noted.answer.items)
        (spec.HasNoAgreement asked.form asked.within limits surveyed.now bytes.now) }
    ensures noted { IfOk result (λ noted.
        IsNote asked.form surveyed.now.station bytes.now noted.note.items) }
    ensures held { OnOk result (HasResidualsWithin surveyed.now.station limits.residual) }
{
    let noted = asked.of_table(alloc, limits, surveyed, bytes)?;
    let agreement = noted.answer.verdict()?;
    let answer = agreement_text(alloc, agreement)?;
    Ok(Noted {
        answer,
        note: noted.note,
    })
}

/// The line of an agreement.
fn agreement_text(alloc: Global, agreement: Agreement) -> Result<Vec<u8>, AllocError>
    ensures { IfOk result (λ text. text.items ≡ texts.agreement_line agreement) }
{
    let mut text = Vec::new(alloc);
    text.extend_from_slice(agreement_line(agreement).as_slice())?;
    Ok(text)
}
