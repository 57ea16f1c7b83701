//! The head of a report, which each further page repeats.

ghost use Rattle.std.specs.Prelude.{◌≡◌, ◌++◌, ◌∷◌, ◌<◌, ◌≤◌, [], IfSome, IfOk, OnOk, length, map};
ghost use Rattle.std.specs.Prelude.{nat_eq};
ghost use Rattle.std.specs.List.{concat, position, starts_with};
ghost use Rattle.report_pages.specs.Pages as spec;

use crate::lines::{LINE_FEED, line_at};
use std::alloc::AllocError;

/// The most lines of a report down to that of its station: that of the program, an empty one, that
/// of the field file, five of what it recorded of instrument and time, and that of the station.
pub(crate) const LINES_OF_HEAD: usize = 9;

/// The place of the first line that begins with a label.
fn first_with(lines: &[&[u8]], label: &[u8]) -> Option<usize>
    ensures place { result
        ≡ position (λ line. starts_with nat_eq line.now label.now) lines.now }
    ensures inside { IfSome result (λ place. place < length lines.now) }
{
    lines.iter().position(|line| line.starts_with(label))
}

/// The lines of a head.
pub(crate) fn head_of<'l, 't>(lines: &'l [&'t [u8]], label: &[u8]) -> &'l [&'t [u8]]
    ensures few { length result.now ≤ LINES_OF_HEAD }
    ensures head { map (λ line. line.now) result.now
        ≡ spec.head label.now (map (λ line. line.now) lines.now) }
{
    let most = lines.len().min(LINES_OF_HEAD);
    match first_with(&lines[..most], label) {
        Some(place) => &lines[..place + 1],
        None => &[],
    }
}

/// How many lines of a page repeat a head.
pub(crate) fn repeated_lines(head: &[&[u8]]) -> usize
    requires { length head.now ≤ LINES_OF_HEAD }
    ensures { result ≡ length (spec.repeated (map (λ line. line.now) head.now)) }
{
    if head.is_empty() { 0 } else { head.len() + 1 }
}

/// Adds lines.
fn push_lines(text: &mut Vec<u8>, lines: &[&[u8]]) -> Result<(), AllocError>
    ensures { OnOk result
        (text.new.items ≡ text.old.items ++ concat (map (λ line. line.now) lines.now)) }
{
    'lines: for place in 0..lines.len() {
        text.extend_from_slice(line_at(lines, place))?;
    }
    Ok(())
}

/// Adds what each further page repeats.
pub(crate) fn push_repeated(text: &mut Vec<u8>, head: &[&[u8]]) -> Result<(), AllocError>
    ensures { OnOk result (text.new.items
        ≡ text.old.items ++ concat (spec.repeated (map (λ line. line.now) head.now))) }
{
    push_lines(text, head)?;
    if !head.is_empty() {
        text.push(LINE_FEED)?;
    }
    Ok(())
}
