//! What is printed of faults: the names of all, or what one of them means.

ghost use Rattle.std.specs.Prelude.{◌≡◌, ◌++◌, IfOk, OnOk, IfNone, option_map, string_bytes};
ghost use Rattle.std.specs.List.{flat_map};
ghost use Rattle.station_explain.specs.Explaining.{Explains, list_text, meaning_text};
ghost use Rattle.station_explain.specs.Explaining.{name_line, name_lines};

use crate::explanations::Explanation;
use std::alloc::{AllocError, Global};

/// How many bytes two texts begin with that begin alike.
const ALIKE: usize = 4;

/// What a fault means, or the names of all faults where none is asked for. An error says that there
/// was no memory for it.
pub fn explaining_text(
    alloc: Global,
    table: &[&'static [Explanation]],
    fault: Option<&Explanation>,
) -> Result<String, AllocError>
    ensures { IfOk result (λ text.
        Explains table.now (option_map (λ e. e.now) fault.entry) (string_bytes text)) }
{
    match fault {
        Some(fault) => explanation_text(alloc, fault),
        None => list_of_names(alloc, table),
    }
}

/// The names of all faults, one a line, each with its meaning.
fn list_of_names(alloc: Global, table: &[&'static [Explanation]]) -> Result<String, AllocError>
    ensures { IfOk result (λ text. string_bytes text ≡ list_text table.now) }
{
    listed(alloc, table, None)
}

/// The names near a text, one a line, each with its meaning: those that have it as a part, are a
/// part of it, or begin as it does, in capitals or small letters.
pub fn list_of_near_names(
    alloc: Global,
    table: &[&'static [Explanation]],
    text: &str,
) -> Result<String, AllocError> {
    listed(alloc, table, Some(text))
}

/// The names near a text, or all where there is no text, one a line, each with its meaning.
fn listed(
    alloc: Global,
    table: &[&'static [Explanation]],
    near: Option<&str>,
) -> Result<String, AllocError>
    ensures { IfNone near.entry (IfOk result (λ text. string_bytes text ≡ list_text table.now)) }
{
    let mut text = String::new(alloc);
    for group in table {
        add_group(&mut text, group, near)?;
    }
    Ok(text)
}

/// Adds the lines of a group of faults.
fn add_group(text: &mut String, group: &[Explanation], near: Option<&str>) -> Result<(), AllocError>
    ensures { IfNone near.entry (OnOk result
        (string_bytes text.new ≡ string_bytes text.old ++ flat_map name_lines group.now)) }
{
    for entry in group {
        add_names(text, entry, near)?;
    }
    Ok(())
}

/// Adds a line for each name of a fault that is listed.
fn add_names(text: &mut String, entry: &Explanation, near: Option<&str>) -> Result<(), AllocError>
    ensures { IfNone near.entry
        (OnOk result (string_bytes text.new ≡ string_bytes text.old ++ name_lines entry.now)) }
{
    for name in entry.names {
        if near.is_none_or(|part| is_near(name, part)) {
            add_line(text, name, entry.meaning)?;
        }
    }
    Ok(())
}

/// Adds the line of a name. The longest name has 16 bytes.
fn add_line(text: &mut String, name: &str, meaning: &str) -> Result<(), AllocError>
    ensures { OnOk result
        (string_bytes text.new ≡ string_bytes text.old ++ name_line name.now meaning.now) }
{
    writeln!(text, "{name:<16}  {meaning}")
}

/// Whether one of two texts is a part of the other, or both begin alike, as a name that is spelled
/// wrongly mostly does.
fn is_near(name: &str, text: &str) -> bool {
    is_part(text, name) || is_part(name, text) || begins_alike(name, text)
}

/// Whether two texts begin with the same bytes, in capitals or small letters.
fn begins_alike(one: &str, other: &str) -> bool {
    match (one.as_bytes().get(..ALIKE), other.as_bytes().get(..ALIKE)) {
        (Some(one), Some(other)) => one.eq_ignore_ascii_case(other),
        _ => false,
    }
}

/// Whether a text of some bytes stands in another, in capitals or small letters.
fn is_part(part: &str, whole: &str) -> bool {
    let part = part.as_bytes();
    if part.is_empty() {
        return false;
    }
    whole
        .as_bytes()
        .windows(part.len())
        .any(|found| found.eq_ignore_ascii_case(part))
}

/// What a fault means: its names, when it comes, a line that names it, and what to do.
fn explanation_text(alloc: Global, entry: &Explanation) -> Result<String, AllocError>
    ensures { IfOk result (λ text. string_bytes text ≡ meaning_text entry.now) }
{
    let names = entry.names.join(alloc, ", ")?;
    [
        names.as_str(),
        ": ",
        entry.meaning,
        "\n\n",
        entry.when,
        "\n\n  ",
        entry.example,
        "\n\nWhat to do: ",
        entry.remedy,
        "\n",
    ]
    .concat(alloc)
}
