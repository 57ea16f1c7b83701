//! What a fault means, for a page.

ghost use Rattle.std.specs.Prelude.{◌≡◌, ◌++◌, codes, option_map, IfOk, MatchResult, OnOk};
ghost use Rattle.station_answers.specs.Parts.{part_text};
ghost use Rattle.station_page.specs.Answers.{IsExplanationOf};
ghost use Rattle.station_page.specs.Explained.{AnswersLine, IsAskedFor, IsUnexplained, Tells};
ghost use Rattle.station_page.specs.Explained.{explanation_parts, unexplained_line};
ghost use Rattle.station_page.specs.HandedOut.{Shows};
ghost use Rattle.station_page.specs.Texts.{bytes_in};
ghost use Rattle.station_page.specs.declared.explain.ExplainedAs.TheVariants as spec;

use crate::hand_out::{Refusing, hand_out, hand_out_text};
use station_answers::push_part;
use station_check::REFUSED;
use station_explain::{
    Explanation, all_explanations, explaining_text, explanation_meant, fault_named_in,
};
use std::alloc::{AllocError, Global};

/// What is answered of a fault.
#[derive(Clone, Copy, Drop)]
pub(crate) enum ExplainedAs {
    /// The text that the program prints.
    Text,

    /// What that text is made of, part by part.
    Parts,
}

/// Why a text is not explained.
#[derive(Clone, Copy, Drop)]
pub(crate) enum Unexplained {
    /// Its bytes are no UTF-8.
    NotUtf8,

    /// No fault has the name in it.
    NoName,

    /// There was no memory for the explanation.
    Memory,
}

/// Hands out what the fault means that a text names, or the list of the names of all faults where
/// the text is empty.
///
/// The text is the line of a refusal without its line feed, or a part of it from a name of a fault
/// on, in UTF-8. Answers 0 for an explanation or the list, 1 for a refusal, and 3 where `out` has
/// too little room.
#[unsafe(no_mangle)]
pub extern "C" fn station_page_explain(
    alloc: Global,
    line: &[u8],
    out: &mut [u8],
    written: &mut usize,
) -> u8
    ensures { Shows (IsExplanationOf spec.Text line.now) out.old out.new written.new result }
{
    hand_out_explanation(alloc, ExplainedAs::Text, line, out, written)
}

/// Hands out the same in parts, each after a line of its title and of how many bytes it has: the
/// `names` of the fault, one a line; its `meaning`; `when` it comes; an `example`, which is a line
/// that names it; and the `remedy`. Where the text is empty there is no part.
#[unsafe(no_mangle)]
pub extern "C" fn station_page_explanation(
    alloc: Global,
    line: &[u8],
    out: &mut [u8],
    written: &mut usize,
) -> u8
    ensures { Shows (IsExplanationOf spec.Parts line.now) out.old out.new written.new result }
{
    hand_out_explanation(alloc, ExplainedAs::Parts, line, out, written)
}

/// Hands out what the fault means that a text names, or what is said of no name.
fn hand_out_explanation(
    alloc: Global,
    form: ExplainedAs,
    line: &[u8],
    out: &mut [u8],
    written: &mut usize,
) -> u8
    ensures { Shows (IsExplanationOf form line.now) out.old out.new written.new result }
{
    let table = all_explanations();
    hand_out_text(&explained(alloc, form, &table, line), out, written)
}

impl Refusing for Unexplained {
    ghost line = { unexplained_line };

    fn refuse(&self, out: &mut [u8], written: &mut usize) -> u8 {
        match self {
            Unexplained::NotUtf8 => hand_out(REFUSED, b"refused: not UTF-8\n", out, written),
            Unexplained::NoName => hand_out(REFUSED, b"refused: no such fault\n", out, written),
            Unexplained::Memory => hand_out(REFUSED, b"refused: out of memory\n", out, written),
        }
    }
}

/// What the fault of this table means that a text names, or what is said of no name.
fn explained(
    alloc: Global,
    form: ExplainedAs,
    table: &[&'static [Explanation]],
    line: &[u8],
) -> Result<Vec<u8>, Unexplained>
    ensures { AnswersLine form table.now line.now (bytes_in result) }
{
    let Ok(line) = str::from_utf8(line) else {
        return Err(Unexplained::NotUtf8);
    };
    let fault = fault_asked_for(table, line)?;
    match told(alloc, form, table, fault) {
        Ok(text) => Ok(text),
        Err(_) => Err(Unexplained::Memory),
    }
}

/// What is told of a fault of this table, or of none.
fn told(
    alloc: Global,
    form: ExplainedAs,
    table: &[&'static [Explanation]],
    fault: Option<&Explanation>,
) -> Result<Vec<u8>, AllocError>
    ensures { IfOk result (λ text.
        Tells form table.now (option_map (λ e. e.now) fault.entry) text.items) }
{
    match (form, fault) {
        (ExplainedAs::Text, _) => Ok(explaining_text(alloc, table, fault)?.into_bytes()),
        (ExplainedAs::Parts, Some(fault)) => parts_of(alloc, fault),
        (ExplainedAs::Parts, None) => Ok(Vec::new(alloc)),
    }
}

/// What is said of a fault, part by part.
fn parts_of(alloc: Global, fault: &Explanation) -> Result<Vec<u8>, AllocError>
    ensures { IfOk result (λ text. text.items ≡ explanation_parts fault.now) }
{
    let names = fault.names.join(alloc, "\n")?;
    let mut text = Vec::new(alloc);
    push_part(&mut text, b"names", names.as_bytes())?;
    push_part(&mut text, b"meaning", fault.meaning.as_bytes())?;
    push_advice(&mut text, fault)?;
    Ok(text)
}

/// Adds when a fault comes, a line that names it, and what to do.
fn push_advice(text: &mut Vec<u8>, fault: &Explanation) -> Result<(), AllocError>
    ensures { OnOk result (text.new.items ≡ text.old.items
        ++ (part_text (codes "when") fault.now.when.now
        ++ (part_text (codes "example") fault.now.example.now
        ++ part_text (codes "remedy") fault.now.remedy.now))) }
{
    push_part(text, b"when", fault.when.as_bytes())?;
    push_part(text, b"example", fault.example.as_bytes())?;
    push_part(text, b"remedy", fault.remedy.as_bytes())
}

/// The explanation of the fault that a text names; none where it is empty.
fn fault_asked_for<'a>(
    table: &[&'a [Explanation]],
    line: &str,
) -> Result<Option<&'a Explanation>, Unexplained>
    ensures { MatchResult result
        (λ fault. IsAskedFor table.now line.now (option_map (λ e. e.now) fault))
        (IsUnexplained table.now line.now) }
{
    if line.is_empty() {
        return Ok(None);
    }
    match explanation_meant(table, fault_named_in(line)) {
        Some(explanation) => Ok(Some(explanation)),
        None => Err(Unexplained::NoName),
    }
}
