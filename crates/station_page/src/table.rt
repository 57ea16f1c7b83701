//! What is answered of one station and of a table beside it, for a page: of the station of a name in
//! a field file and of a table of directions, both whole.
//!
//! The limits of 2c and 2i are in units of 0.00001 gon, at most 1,000,000. `unit` is that of the
//! table: 0 for gon, 1 for degrees, 2 for degrees with minutes and seconds after the point. `names`
//! and `directions` state its columns, counted from 1, at most 999,999; where both are 0, none are
//! stated. The table agrees within `within` units of 0.000001 gon, at most 1,000,000, where
//! `is_stated` says that so many are stated, and else within what is usual for its decimals.
//!
//! Each call answers 0 for its text, or where the table agrees, 1 for a refusal, 2 for a number out
//! of its range, and 3 where `out` or `note` has too little room. In `note` the lines of the note
//! are handed out, where the table was compared: of the pair of columns by which it was read, and
//! of another unit in which it agrees.

ghost use Rattle.std.specs.Prelude.{◌≡◌, ◌<◌, ℕ, List, Result, SomeIff, length, take};
ghost use Rattle.row_forms.specs.declared.form.RowForm.TheVariants.{Commas, Semicolons};
ghost use Rattle.station_book.specs.Stations.{SurveyedStation};
ghost use Rattle.station_book.specs.declared.result_limits.ResultLimits.{ResultLimits as LimitsOf};
ghost use Rattle.station_check.specs.RunEndings.{status_of};
ghost use Rattle.station_compare.specs.FaultTexts as compare;
ghost use Rattle.station_compare.specs.Refusals.{by_fault};
ghost use Rattle.station_compare.specs.declared.fault.CompareFault.{CompareFault as WhyNot};
ghost use Rattle.station_differences.specs.declared.line_form.LineForm.TheVariants.{Rows};
ghost use Rattle.station_page.specs.Answers.{IsBeside, IsComparisonOf, IsDifferencesOf, IsTableOf};
ghost use Rattle.station_page.specs.Answers.{IsNeverEnough, IsRoomForLine, comparison_status};
ghost use Rattle.station_page.specs.Answers.{answer_alone, comparison_text, note_of, parts_of};
ghost use Rattle.station_page.specs.Answers.{whole_status};
ghost use Rattle.station_page.specs.Asked.{asked_with};
ghost use Rattle.station_page.specs.Forms.{IsForm, stated_form};
ghost use Rattle.station_page.specs.HandedOut.{HandsOut, LeavesInRange, Shows, ShowsInRange};
ghost use Rattle.station_page.specs.HandedOut.{text_or};
ghost use Rattle.station_page.specs.Limits.{AreFaceLimits, IsWithin, stated_limit};
ghost use Rattle.station_page.specs.Texts.{noted_value, value_in};
ghost use Rattle.table_answers.specs.Comparisons.{SaysComparison};
ghost use Rattle.table_answers.specs.Saying.{SaysDifferences};
ghost use Rattle.table_answers.specs.Wholes.{IsWhole, WholeValue, whole_value};
ghost use Rattle.table_answers.specs.declared.compared.Compared.{Compared as Verdict};
ghost use Rattle.table_report.specs.Values.{asked_of};

use crate::form::form_of;
use crate::hand_out::{OUT_OF_RANGE, hand_out, hand_out_text};
use direction_table::LARGEST_WITHIN;
use row_forms::RowForm;
use station_book::{Limits, ResultLimits};
use station_check::{ACCEPTED, REFUSED, source_of};
use station_compare::{CompareFault, Refusal, agreement_line, refusal_line};
use station_differences::LineForm;
use station_report::Head;
use std::alloc::Global;
use table_answers::{
    Compared, Comparison, Differences, Noted, TableAnswer, Whole, WholeTable, refusal_parts,
    table_answer_of,
};
use table_report::Asked;

/// Compares the directions that a table states with those of the station, and hands out the line of
/// the agreement or of the refusal; 192 bytes are always enough for `out`.
#[unsafe(no_mangle)]
pub extern "C" fn station_page_compare(
    alloc: Global,
    gsi: &[u8],
    table: &[u8],
    name: &[u8],
    two_c: u32,
    two_i: u32,
    unit: u32,
    names: u32,
    directions: u32,
    is_stated: bool,
    within: u32,
    out: &mut [u8],
    written: &mut usize,
    note: &mut [u8],
    note_written: &mut usize,
) -> u8
    ensures line { ShowsInRange
        (AreFaceLimits two_c two_i × IsForm unit names directions × IsWithin is_stated within)
        (IsComparisonOf two_c two_i (stated_form unit names directions)
        (stated_limit is_stated within) gsi.now table.now name.now (length note.old)
        (take note_written.new note.new)) out.old out.new written.new result }
    ensures note { LeavesInRange
        (AreFaceLimits two_c two_i × IsForm unit names directions × IsWithin is_stated within)
        note.old note.new note_written.new }
{
    *written = 0;
    *note_written = 0;
    let Some(asked) = comparison(unit, names, directions, is_stated, within) else {
        return OUT_OF_RANGE;
    };
    let both = Both { gsi, table, name };
    both.hand_out(alloc, two_c, two_i, asked, out, written, note, note_written)
}

/// How a table is to be compared, as numbers state it.
fn comparison(
    unit: u32,
    names: u32,
    directions: u32,
    is_stated: bool,
    within: u32,
) -> Option<Comparison>
    ensures { SomeIff result (IsForm unit names directions × IsWithin is_stated within)
        (record { form = stated_form unit names directions; within = stated_limit is_stated within }) }
{
    let form = form_of(unit, names, directions)?;
    let within = stated_within(is_stated, within)?;
    Some(Comparison { form, within })
}

/// The limit of a comparison, where it is said that one is stated, unless it is above the largest.
fn stated_within(is_stated: bool, within: u32) -> Option<Option<u32>>
    ensures { SomeIff result (IsWithin is_stated within) (stated_limit is_stated within) }
{
    if !is_stated {
        return Some(None);
    }
    if within > LARGEST_WITHIN {
        return None;
    }
    Some(Some(within))
}

/// Hands out the differences of a table from the station, however large they are: a row of titles,
/// and a row for each target, with what the table states, the least-squares direction, and the
/// difference after the rotation that makes the largest smallest, exactly rounded; or the line of
/// the refusal.
#[unsafe(no_mangle)]
pub extern "C" fn station_page_differences(
    alloc: Global,
    gsi: &[u8],
    table: &[u8],
    name: &[u8],
    two_c: u32,
    two_i: u32,
    unit: u32,
    names: u32,
    directions: u32,
    out: &mut [u8],
    written: &mut usize,
    note: &mut [u8],
    note_written: &mut usize,
) -> u8
    ensures differences { ShowsInRange (AreFaceLimits two_c two_i × IsForm unit names directions)
        (IsDifferencesOf Commas two_c two_i (stated_form unit names directions) gsi.now table.now
        name.now (length note.old) (take note_written.new note.new)) out.old out.new written.new
        result }
    ensures note { LeavesInRange (AreFaceLimits two_c two_i × IsForm unit names directions)
        note.old note.new note_written.new }
{
    *written = 0;
    *note_written = 0;
    let Some(asked) = differences(unit, names, directions, RowForm::Commas) else {
        return OUT_OF_RANGE;
    };
    let both = Both { gsi, table, name };
    both.hand_out(alloc, two_c, two_i, asked, out, written, note, note_written)
}

/// Hands out what `station_page_differences` does, with semicolons between the cells of a row and a
/// comma in each number: for a spreadsheet that is set to German or French.
#[unsafe(no_mangle)]
pub extern "C" fn station_page_comma_differences(
    alloc: Global,
    gsi: &[u8],
    table: &[u8],
    name: &[u8],
    two_c: u32,
    two_i: u32,
    unit: u32,
    names: u32,
    directions: u32,
    out: &mut [u8],
    written: &mut usize,
    note: &mut [u8],
    note_written: &mut usize,
) -> u8
    ensures differences { ShowsInRange (AreFaceLimits two_c two_i × IsForm unit names directions)
        (IsDifferencesOf Semicolons two_c two_i (stated_form unit names directions) gsi.now
        table.now name.now (length note.old) (take note_written.new note.new)) out.old out.new
        written.new result }
    ensures note { LeavesInRange (AreFaceLimits two_c two_i × IsForm unit names directions)
        note.old note.new note_written.new }
{
    *written = 0;
    *note_written = 0;
    let Some(asked) = differences(unit, names, directions, RowForm::Semicolons) else {
        return OUT_OF_RANGE;
    };
    let both = Both { gsi, table, name };
    both.hand_out(alloc, two_c, two_i, asked, out, written, note, note_written)
}

/// The differences that are asked for of a table, as numbers state how it is to be read.
fn differences(unit: u32, names: u32, directions: u32, rows: RowForm) -> Option<Differences>
    ensures { SomeIff result (IsForm unit names directions)
        (record { form = stated_form unit names directions; written = Rows rows }) }
{
    let form = form_of(unit, names, directions)?;
    let written = LineForm::Rows(rows);
    Some(Differences { form, written })
}

/// Hands out all that is answered of a table beside the station, by one reading of each file and one
/// adjustment: the line of the agreement or of the refusal, the verdict as a row, the numbers of the
/// note as such a row, what `station_page_differences` hands out, and the report with the table, each
/// after a line of its title and of how many bytes it has. Where the table was not compared there are
/// the first two alone. The report names the field file by `path` and the table by `table_path`.
#[unsafe(no_mangle)]
pub extern "C" fn station_page_table(
    alloc: Global,
    gsi: &[u8],
    path: &[u8],
    table: &[u8],
    table_path: &[u8],
    name: &[u8],
    two_c: u32,
    two_i: u32,
    unit: u32,
    names: u32,
    directions: u32,
    is_stated: bool,
    within: u32,
    out: &mut [u8],
    written: &mut usize,
    note: &mut [u8],
    note_written: &mut usize,
) -> u8
    ensures parts { ShowsInRange
        (AreFaceLimits two_c two_i × IsForm unit names directions × IsWithin is_stated within)
        (IsTableOf two_c two_i (asked_with path.now table_path.now
        (stated_form unit names directions) (stated_limit is_stated within))
        gsi.now table.now name.now (length note.old) (take note_written.new note.new))
        out.old out.new written.new result }
    ensures note { LeavesInRange
        (AreFaceLimits two_c two_i × IsForm unit names directions × IsWithin is_stated within)
        note.old note.new note_written.new }
{
    *written = 0;
    *note_written = 0;
    let Some(compared) = comparison(unit, names, directions, is_stated, within) else {
        return OUT_OF_RANGE;
    };
    let asked = Whole {
        asked: Asked {
            head: Head { path, notes: None },
            table_path,
            form: compared.form,
            within: compared.within,
        },
    };
    let both = Both { gsi, table, name };
    both.hand_out(alloc, two_c, two_i, asked, out, written, note, note_written)
}

/// A field file and a table, both whole, and the name of a station.
#[derive(Clone, Copy, Drop)]
struct Both<'a> {
    gsi: &'a [u8],
    table: &'a [u8],
    name: &'a [u8],
}

/// What is asked of a station and a table whose answer is handed out.
trait Shown: TableAnswer {
    // What is handed out of an answer,
    ghost Value: { Type 0 };

    ghost seen: { Self.Answer → Value };

    // what it says of a station and the bytes of a table, by these limits,
    ghost tells: { Self → LimitsOf → SurveyedStation → List ℕ → Value → Type 0 };

    // with which status,
    ghost status: { Result Value WhyNot → ℕ };

    // with which text,
    ghost text: { Result Value WhyNot → List ℕ };

    // and what room is enough for each such text.
    ghost enough: { ℕ → Type 0 };

    /// Hands out an answer.
    fn show(answer: &Result<Self::Answer, CompareFault>, out: &mut [u8], written: &mut usize) -> u8
        ensures shows { Shows (HandsOut (status (value_in seen answer.now))
            (text (value_in seen answer.now))) out.old out.new written.new result }
        ensures answers { enough (length out.old) → result < 2 };

    // What is said is what is told.
    ghost said: { (asked : Self) (limits : LimitsOf) (its : SurveyedStation) (bytes : List ℕ)
        (a : Self.Answer) → Self.says asked limits its bytes (Self.value a)
        → tells asked limits its bytes (seen a) };
}

impl<'a> Both<'a> {
    /// Hands out what is asked of both, by the largest limit of residuals, and the note of the
    /// table.
    fn hand_out<A: Shown>(
        &self,
        alloc: Global,
        two_c: u32,
        two_i: u32,
        asked: A,
        out: &mut [u8],
        written: &mut usize,
        note: &mut [u8],
        note_written: &mut usize,
    ) -> u8
        ensures text { ShowsInRange (AreFaceLimits two_c two_i)
            (IsBeside (A.tells asked) (A.refuses asked) (A.form_of asked) A.status A.text A.enough
            two_c two_i self.now.gsi.now self.now.table.now self.now.name.now (length note.old)
            (take note_written.new note.new)) out.old out.new written.new result }
        ensures note { LeavesInRange (AreFaceLimits two_c two_i) note.old note.new
            note_written.new }
    {
        *written = 0;
        *note_written = 0;
        let Some(faces) = Limits::new(two_c, two_i) else {
            return OUT_OF_RANGE;
        };
        let limits = ResultLimits::of_faces(faces);
        let (answer, _gsi) = table_answer_of(
            alloc,
            source_of(self.gsi),
            &mut source_of(self.table),
            self.name,
            limits,
            &asked,
        );
        let (answer, told) = without_note::<A>(alloc, answer);
        let status = A::show(&answer, out, written);
        hand_out(status, &told, note, note_written)
    }
}

/// An answer, or the fault of its refusal alone, which a page tells in its own words; and the note
/// of the table.
fn without_note<A: Shown>(
    alloc: Global,
    answer: Result<Noted<A::Answer>, Refusal>,
) -> (Result<A::Answer, CompareFault>, Vec<u8>)
    ensures answer { value_in A.seen result.0
        ≡ answer_alone (noted_value A.seen (by_fault answer)) }
    ensures note { result.1.items ≡ note_of (noted_value A.seen (by_fault answer)) }
{
    match answer {
        Ok(noted) => (Ok(noted.answer), noted.note),
        Err(refusal) => (Err(refusal.fault), Vec::new(alloc)),
    }
}

impl Shown for Comparison {
    ghost Value = { Verdict };

    ghost seen = { λ compared. compared };

    ghost tells = { λ asked. SaysComparison asked.form asked.within };

    ghost status = { comparison_status };

    ghost text = { comparison_text };

    ghost enough = { IsRoomForLine };

    fn show(answer: &Result<Compared, CompareFault>, out: &mut [u8], written: &mut usize) -> u8 {
        match answer {
            Ok(Compared::Agrees(agreement)) => {
                hand_out(
                    ACCEPTED,
                    agreement_line(*agreement).as_slice(),
                    out,
                    written,
                )
            }
            Ok(Compared::Apart(how_far)) => {
                let line = refusal_line(CompareFault::Apart(*how_far));
                hand_out(REFUSED, line.as_slice(), out, written)
            }
            Err(fault) => hand_out(REFUSED, refusal_line(*fault).as_slice(), out, written),
        }
    }

    ghost said = { λ asked limits its bytes a says. says };
}

impl Shown for Differences {
    ghost Value = { List ℕ };

    ghost seen = { λ text. text.items };

    ghost tells = { λ asked _. SaysDifferences asked.form asked.written };

    ghost status = { status_of };

    ghost text = { text_or compare.refusal_line };

    ghost enough = { IsNeverEnough };

    fn show(answer: &Result<Vec<u8>, CompareFault>, out: &mut [u8], written: &mut usize) -> u8 {
        hand_out_text(answer, out, written)
    }

    ghost said = { λ asked limits its bytes a says. says };
}

impl<'a, 'n> Shown for Whole<'a, 'n> {
    ghost Value = { WholeValue };

    ghost seen = { whole_value };

    ghost tells = { λ whole. IsWhole (asked_of whole.asked) };

    ghost status = { whole_status };

    ghost text = { parts_of };

    ghost enough = { IsNeverEnough };

    fn show(answer: &Result<WholeTable, CompareFault>, out: &mut [u8], written: &mut usize) -> u8
        ensures shows { Shows (HandsOut (whole_status (value_in whole_value answer.now))
            (parts_of (value_in whole_value answer.now))) out.old out.new written.new result }
        ensures answers { IsNeverEnough (length out.old) → result < 2 }
    {
        match answer {
            Ok(whole) => {
                let status = match whole.compared {
                    Compared::Agrees(_) => ACCEPTED,
                    Compared::Apart(_) => REFUSED,
                };
                hand_out(status, &whole.text, out, written)
            }
            Err(fault) => hand_out(REFUSED, refusal_parts(*fault).as_slice(), out, written),
        }
    }

    ghost said = { λ asked limits its bytes a says. says };
}
