//! What is answered of one station, for a page: of the station of a name, of a whole field file.
//!
//! The limits of 2c and 2i are in units of 0.00001 gon, at most 1,000,000. Each call answers 0 for
//! its text, 1 for a refusal, whose line is handed out, 2 for a number out of its range, and 3 where
//! `out` has too little room.

ghost use Rattle.std.specs.Prelude.{◌≡◌, ◌≢◌, [], Err, Some, SomeIff};
ghost use Rattle.direction_table.specs.Texts.{AreDecimals};
ghost use Rattle.gsi_file.specs.FileAnswers.{file_answers};
ghost use Rattle.report_notes.specs.Notes.{notes_value};
ghost use Rattle.station_check.specs.Came.{source_of};
ghost use Rattle.station_check.specs.Means.{WritesMeans};
ghost use Rattle.station_check.specs.declared.fault.Fault.TheVariants.{Write};
ghost use Rattle.station_compare.specs.Refusals.{by_fault};
ghost use Rattle.station_page.specs.Answers.{IsCommaDirectionsOf, IsCommaRowsOf, IsDirectionsOf};
ghost use Rattle.station_page.specs.Answers.{IsMeansOf, IsReportOf, IsResidualsOf, IsTextOf};
ghost use Rattle.station_page.specs.Answers.{IsWholeOf, head_in};
ghost use Rattle.station_page.specs.HandedOut.{ShowsInRange};
ghost use Rattle.station_page.specs.Languages.{IsLanguage, stated_language};
ghost use Rattle.station_page.specs.Limits.{AreFaceLimits};
ghost use Rattle.station_page.specs.Texts.{text_of};
ghost use Rattle.station_report.specs.NoteTexts.{head_of};

use crate::hand_out::{OUT_OF_RANGE, hand_out_answer, hand_out_text};
use crate::language::language_of;
use crate::text::Text;
use direction_table::Decimals;
use report_notes::Notes;
use row_forms::RowForm;
use station_answers::{Directions, Report, ReportRows, Residuals, StationAnswer, Whole, answer_of};
use station_book::{Limits, ResultLimits};
use station_check::{Fault, source_of, write_means};
use station_compare::{CompareFault, Refusal};
use station_report::Head;
use std::alloc::Global;

/// Hands out the table of the least-squares directions of a station, each rounded to so many
/// decimals of a gon, 1 to 8.
#[unsafe(no_mangle)]
pub extern "C" fn station_page_directions(
    alloc: Global,
    gsi: &[u8],
    name: &[u8],
    two_c: u32,
    two_i: u32,
    decimals: u32,
    out: &mut [u8],
    written: &mut usize,
) -> u8
    ensures { ShowsInRange (AreFaceLimits two_c two_i × AreDecimals decimals)
        (IsDirectionsOf two_c two_i gsi.now name.now decimals) out.old out.new written.new result }
{
    *written = 0;
    let Some(asked) = directions(decimals, RowForm::Commas) else {
        return OUT_OF_RANGE;
    };
    hand_out_station(alloc, gsi, name, two_c, two_i, &asked, out, written)
}

/// Hands out what `station_page_directions` does, with a semicolon between the cells of a row and a
/// comma in each number: for a spreadsheet that is set to German or French.
#[unsafe(no_mangle)]
pub extern "C" fn station_page_comma_directions(
    alloc: Global,
    gsi: &[u8],
    name: &[u8],
    two_c: u32,
    two_i: u32,
    decimals: u32,
    out: &mut [u8],
    written: &mut usize,
) -> u8
    ensures { ShowsInRange (AreFaceLimits two_c two_i × AreDecimals decimals)
        (IsCommaDirectionsOf two_c two_i gsi.now name.now decimals) out.old out.new written.new
        result }
{
    *written = 0;
    let Some(asked) = directions(decimals, RowForm::Semicolons) else {
        return OUT_OF_RANGE;
    };
    hand_out_station(alloc, gsi, name, two_c, two_i, &asked, out, written)
}

/// The table of directions that is asked for, if it is of 1 to 8 decimals.
fn directions(decimals: u32, form: RowForm) -> Option<Directions>
    ensures { SomeIff result (AreDecimals decimals) (record { decimals = decimals; form = form }) }
{
    let decimals = Decimals::new(decimals)?;
    Some(Directions { decimals, form })
}

/// Hands out the rows of the report of a station, with semicolons between their cells and a comma in
/// each number.
#[unsafe(no_mangle)]
pub extern "C" fn station_page_comma_rows(
    alloc: Global,
    gsi: &[u8],
    name: &[u8],
    two_c: u32,
    two_i: u32,
    out: &mut [u8],
    written: &mut usize,
) -> u8
    ensures { ShowsInRange (AreFaceLimits two_c two_i)
        (IsCommaRowsOf two_c two_i gsi.now name.now) out.old out.new written.new result }
{
    let asked = ReportRows {
        form: RowForm::Semicolons,
    };
    hand_out_station(alloc, gsi, name, two_c, two_i, &asked, out, written)
}

/// Hands out the residuals of a station: a row of titles, and a row for each two-face direction, with
/// the least-squares direction and the residual, both exactly rounded.
#[unsafe(no_mangle)]
pub extern "C" fn station_page_residuals(
    alloc: Global,
    gsi: &[u8],
    name: &[u8],
    two_c: u32,
    two_i: u32,
    out: &mut [u8],
    written: &mut usize,
) -> u8
    ensures { ShowsInRange (AreFaceLimits two_c two_i)
        (IsResidualsOf two_c two_i gsi.now name.now) out.old out.new written.new result }
{
    hand_out_station(alloc, gsi, name, two_c, two_i, &Residuals, out, written)
}

/// Hands out the report of a station, in which the field file is named by `path`: what was read in
/// both faces, the least-squares directions, the residuals, the greatest of them, the sum of their
/// squares, and the standard deviations of one two-face direction and of each adjusted direction,
/// exactly rounded. The language is 0 for English, 1 for German and 2 for French.
#[unsafe(no_mangle)]
pub extern "C" fn station_page_report(
    alloc: Global,
    gsi: &[u8],
    path: &[u8],
    name: &[u8],
    two_c: u32,
    two_i: u32,
    language: u32,
    out: &mut [u8],
    written: &mut usize,
) -> u8
    ensures { ShowsInRange (AreFaceLimits two_c two_i × IsLanguage language)
        (IsReportOf two_c two_i gsi.now (head_in (stated_language language) path.now) name.now)
        out.old out.new written.new result }
{
    *written = 0;
    let Some(language) = language_of(language) else {
        return OUT_OF_RANGE;
    };
    let notes = Notes {
        language,
        date: None,
        lines: Vec::new(alloc),
        signature: false,
        pages: false,
    };
    let head = head_with(path, &notes);
    let asked = Report { head };
    hand_out_station(alloc, gsi, name, two_c, two_i, &asked, out, written)
}

/// The head of a report that names the field file by this path, and notes this.
fn head_with<'a, 'n>(path: &'a [u8], notes: &'a Notes<'n>) -> Head<'a, 'n>
    ensures { head_of result ≡ record { path = path.now; notes = notes_value notes.now } }
{
    let notes = Some(notes);
    Head { path, notes }
}

/// Hands out all that is answered of a station, by one reading and one adjustment: what
/// `station_page_directions` hands out, the rows of its report, how accurate it is, what its face
/// differences say together, and what `station_page_report` hands out in English, each after a line
/// of its title and of how many bytes it has.
#[unsafe(no_mangle)]
pub extern "C" fn station_page_station(
    alloc: Global,
    gsi: &[u8],
    path: &[u8],
    name: &[u8],
    two_c: u32,
    two_i: u32,
    decimals: u32,
    out: &mut [u8],
    written: &mut usize,
) -> u8
    ensures { ShowsInRange (AreFaceLimits two_c two_i × AreDecimals decimals)
        (IsWholeOf two_c two_i gsi.now path.now name.now decimals) out.old out.new written.new
        result }
{
    *written = 0;
    let Some(Directions { decimals, .. }) = directions(decimals, RowForm::Commas) else {
        return OUT_OF_RANGE;
    };
    let asked = Whole { path, decimals };
    hand_out_station(alloc, gsi, name, two_c, two_i, &asked, out, written)
}

/// Hands out the sheet of means of a station.
#[unsafe(no_mangle)]
pub extern "C" fn station_page_means(
    alloc: Global,
    gsi: &[u8],
    name: &[u8],
    two_c: u32,
    two_i: u32,
    out: &mut [u8],
    written: &mut usize,
) -> u8
    ensures { ShowsInRange (AreFaceLimits two_c two_i) (IsMeansOf two_c two_i gsi.now name.now)
        out.old out.new written.new result }
{
    *written = 0;
    let Some(limits) = Limits::new(two_c, two_i) else {
        return OUT_OF_RANGE;
    };
    let (answer, text) = means_of(alloc, gsi, name, limits);
    hand_out_answer(&answer, text.bytes(), out, written)
}

/// The sheet of means of the station of this name.
fn means_of(alloc: Global, gsi: &[u8], name: &[u8], limits: Limits) -> (Result<(), Fault>, Text)
    ensures writes { WritesMeans limits (file_answers (source_of gsi.now)) name.now result.0
        (Some []) (Some (text_of result.1)) }
    ensures unfailed { result.0 ≢ Err Write }
{
    let mut text = Text::new(alloc);
    match write_means(alloc, source_of(gsi), name, limits, &mut text) {
        // A text in memory can't be written where there is no memory for it.
        Err(Fault::Write) => (Err(Fault::Memory), text),
        answer => (answer, text),
    }
}

/// Hands out what is answered of a station, by the largest limit of residuals.
fn hand_out_station<A: StationAnswer>(
    alloc: Global,
    gsi: &[u8],
    name: &[u8],
    two_c: u32,
    two_i: u32,
    asked: &A,
    out: &mut [u8],
    written: &mut usize,
) -> u8
    ensures { ShowsInRange (AreFaceLimits two_c two_i)
        (IsTextOf (A.says asked.now) two_c two_i gsi.now name.now) out.old out.new written.new
        result }
{
    *written = 0;
    let Some(faces) = Limits::new(two_c, two_i) else {
        return OUT_OF_RANGE;
    };
    let limits = ResultLimits::of_faces(faces);
    let (answer, _gsi) = answer_of(alloc, source_of(gsi), name, limits, asked);
    hand_out_text(&fault_alone(answer), out, written)
}

/// A text, or the fault of its refusal alone: a page tells it in its own words.
fn fault_alone(answer: Result<Vec<u8>, Refusal>) -> Result<Vec<u8>, CompareFault>
    ensures { result ≡ by_fault answer }
{
    Ok(answer?)
}
