//! The columns of a table that a text states.

ghost use Rattle.std.specs.Prelude.{◌≡◌, List, ℕ, IfNone, IfSome, not};
ghost use Rattle.std.specs.Char.{is_ascii_digit};
ghost use Rattle.std.specs.List.{list_all};
ghost use Rattle.command_line.specs.StatedColumns as spec;
ghost use Rattle.command_line.specs.StatedColumns.{StateColumns, StateNoColumns, StatesTitles};

use crate::request::ColumnsStated;
use direction_table::stated_columns;

/// The columns that a text states, by numbers or by titles.
pub(crate) fn columns_in(text: &str) -> Option<ColumnsStated<'_>>
    ensures stated { IfSome result (StateColumns text.now) }
    ensures none { IfNone result (StateNoColumns text.now) }
{
    match stated_columns(text.as_bytes()) {
        Some(pair) => Some(ColumnsStated::Numbers(pair)),
        None => titles_in(text),
    }
}

/// The columns whose titles a text states, with a comma between them.
fn titles_in(text: &str) -> Option<ColumnsStated<'_>>
    ensures stated { IfSome result (StateColumns text.now) }
    ensures none { IfNone result ((targets directions : List ℕ)
        → ¬ StatesTitles text.now targets directions) }
{
    let (targets, directions) = text.split_once(',')?;
    if is_title(targets.as_bytes()) && is_title(directions.as_bytes()) {
        Some(ColumnsStated::Titles {
            targets,
            directions,
        })
    } else {
        None
    }
}

/// Whether a text can be stated as a title: it is not empty, it has no comma, and it is no whole
/// number.
fn is_title(text: &[u8]) -> bool
    ensures { result ≡ spec.is_title text.now }
{
    !is_number(text) && has_no_comma(text)
}

/// Whether each byte is a digit.
fn is_number(text: &[u8]) -> bool
    ensures { result ≡ list_all is_ascii_digit text.now }
{
    text.iter().all(|byte| byte.is_ascii_digit())
}

/// Whether no byte is a comma.
fn has_no_comma(text: &[u8]) -> bool
    ensures { result ≡ list_all (λ byte. not (spec.is_comma byte)) text.now }
{
    text.iter().all(|byte| *byte != b',')
}
