//! The lines of targets as one text, in the form that is asked for.
ghost use Rattle.std.specs.Prelude.{◌≡◌, IfOk};
ghost use Rattle.station_differences.specs.Stating as spec;

use crate::json_lines::json_lines_of;
use crate::line::TargetLine;
use crate::text::rows_text_of;
use row_forms::RowForm;
use std::alloc::{AllocError, Global};

/// How the lines of targets are written.
#[derive(Clone, Copy, Debug, PartialEq, Eq, Drop)]
pub enum LineForm {
    /// As rows in a form, below a row of titles.
    Rows(RowForm),

    /// As JSON lines, an object each, without titles.
    JsonLines,
}

/// The text of the targets of a station, in their order: each on a line of its own, written so.
///
/// The only error is that memory was refused.
pub fn text_of(
    alloc: Global,
    lines: &[TargetLine],
    written: LineForm,
) -> Result<Vec<u8>, AllocError>
    ensures { IfOk result (λ text. text.items ≡ spec.written_text written lines.now) }
{
    match written {
        LineForm::Rows(form) => rows_text_of(alloc, lines, form),
        LineForm::JsonLines => json_lines_of(alloc, lines),
    }
}
