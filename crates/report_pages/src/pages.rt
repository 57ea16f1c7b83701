//! Reports, divided into pages.

ghost use Rattle.std.specs.Prelude.{◌≡◌, ◌++◌, ◌∷◌, [], IfOk, OnOk, length, map, false};
ghost use Rattle.std.specs.Prelude.{if◌then◌else◌, ◌==◌};
ghost use Rattle.std.specs.List.{concat, slice_split};
ghost use Rattle.report_pages.specs.Pages as spec;

use crate::head::{head_of, push_repeated, repeated_lines};
use crate::lines::{begins_empty, begins_with_blank, is_empty, line_at, lines_of};
use std::alloc::{AllocError, Global};

/// What a page begins with, but for the first.
const FORM_FEED: u8 = 0x0C;

/// The most lines of a page: A4 has some 66, and a printer leaves a margin.
const LINES_OF_PAGE: usize = 60;

/// How many lines have to be left on a page for a section to begin there: the two of its title, an
/// empty one, the titles of its columns, an empty one, and as many as for those titles, since a row
/// may stand alone too.
const LINES_OF_SECTION: usize = 8;

/// How many have to be left for the titles of columns: they, an empty one and a row.
const LINES_OF_COLUMNS: usize = 3;

/// Whether a line begins a section.
fn begins_section(after_empty: bool, line: &[u8]) -> bool
    ensures { result ≡ spec.begins_section after_empty line.now }
{
    after_empty && !is_empty(line) && !begins_with_blank(line)
}

/// Whether a line stands alone between empty ones.
fn stands_alone(after_empty: bool, line: &[u8], before_empty: bool) -> bool
    ensures { result ≡ spec.stands_alone after_empty line.now before_empty }
{
    after_empty && !is_empty(line) && before_empty
}

/// How many lines have to be left on a page for a line to stand there, if so many are to come.
fn fewest_from(after_empty: bool, line: &[u8], before_empty: bool) -> usize
    ensures { result ≡ spec.fewest_from after_empty line.now before_empty }
{
    if begins_section(after_empty, line) {
        LINES_OF_SECTION
    } else if stands_alone(after_empty, line, before_empty) {
        LINES_OF_COLUMNS
    } else {
        1
    }
}

/// Whether a page begins at a line before these, where so many lines are left on the page before.
fn begins_page(left: usize, after_empty: bool, line: &[u8], more: &[&[u8]]) -> bool
    ensures { result
        ≡ spec.begins_page left after_empty line.now (map (λ line. line.now) more.now) }
{
    left == 0 || left < fewest_from(after_empty, line, begins_empty(more)) && left <= more.len()
}

/// How many lines are left on a page after a line.
fn left_after(begins: bool, room: usize, left: usize) -> usize
    ensures { result ≡ spec.left_after begins room left }
{
    let before = if begins { room } else { left };
    before.saturating_sub(1)
}

/// Adds a line, after the start of a page where one begins at it.
fn push_line(pages: &mut Vec<u8>, line: &[u8], start: &[u8], begins: bool) -> Result<(), AllocError>
    ensures { OnOk result (pages.new.items
        ≡ pages.old.items ++ ((if begins then start.now else []) ++ line.now)) }
{
    if begins {
        pages.extend_from_slice(start)?;
    }
    pages.extend_from_slice(line)?;
    Ok(())
}

/// Adds lines, page by page: each further page begins with this start, and has room for so many
/// lines.
fn push_pages(
    pages: &mut Vec<u8>,
    lines: &[&[u8]],
    start: &[u8],
    room: usize,
) -> Result<(), AllocError>
    ensures { OnOk result (pages.new.items ≡ pages.old.items ++ spec.text_of start.now
        (spec.on_pages room LINES_OF_PAGE false (map (λ line. line.now) lines.now))) }
{
    let mut left = LINES_OF_PAGE;
    let mut after_empty = false;
    'lines: for place in 0..lines.len() {
        let line = line_at(lines, place);
        let begins = begins_page(left, after_empty, line, &lines[place + 1..]);
        push_line(pages, line, start, begins)?;
        left = left_after(begins, room, left);
        after_empty = is_empty(line);
    }
    Ok(())
}

/// Adds a report, page by page.
fn push_report(
    alloc: Global,
    pages: &mut Vec<u8>,
    report: &[u8],
    label: &[u8],
) -> Result<(), AllocError>
    ensures { OnOk result (pages.new.items
        ≡ pages.old.items ++ spec.report_on_pages label.now report.now) }
{
    let lines = lines_of(alloc, report)?;
    let head = head_of(&lines, label);
    let mut start = Vec::new(alloc);
    start.push(FORM_FEED)?;
    push_repeated(&mut start, head)?;
    let room = LINES_OF_PAGE - repeated_lines(head);
    push_pages(pages, &lines, &start, room)
}

/// Adds a report, page by page, after a form feed if it is not the first.
fn push_next(
    alloc: Global,
    pages: &mut Vec<u8>,
    report: &[u8],
    label: &[u8],
    further: bool,
) -> Result<(), AllocError>
    ensures { OnOk result (pages.new.items ≡ pages.old.items
        ++ ((if further then FORM_FEED ∷ [] else [])
        ++ spec.report_on_pages label.now report.now)) }
{
    if further {
        pages.push(FORM_FEED)?;
    }
    push_report(alloc, pages, report, label)
}

/// The reports of a text, which stand in it with form feeds between them.
fn reports_of(alloc: Global, text: &[u8]) -> Result<Vec<&[u8]>, AllocError>
    ensures { IfOk result (λ reports. map (λ report. report.now) reports.items
        ≡ slice_split (λ byte. byte == FORM_FEED) text.now) }
{
    text.split(|byte| *byte == FORM_FEED).collect(alloc)
}

/// Adds reports, page by page.
fn push_reports(
    alloc: Global,
    pages: &mut Vec<u8>,
    reports: &[&[u8]],
    label: &[u8],
) -> Result<(), AllocError>
    ensures { OnOk result (pages.new.items ≡ pages.old.items
        ++ spec.reports_on_pages label.now false (map (λ report. report.now) reports.now)) }
{
    let mut further = false;
    'reports: for place in 0..reports.len() {
        let report = line_at(reports, place);
        push_next(alloc, pages, report, label, further)?;
        further = true;
    }
    Ok(())
}

/// A text of reports, which stand in it with form feeds between them, with each report divided into
/// pages: the lines down to the first that begins with this label stand on each of them.
///
/// The only error is that memory was refused.
pub fn paged(alloc: Global, label: &[u8], text: &[u8]) -> Result<Vec<u8>, AllocError>
    ensures { IfOk result (λ pages. pages.items ≡ spec.paged label.now text.now) }
{
    let reports = reports_of(alloc, text)?;
    let mut pages = Vec::new(alloc);
    push_reports(alloc, &mut pages, &reports, label)?;
    Ok(pages)
}
