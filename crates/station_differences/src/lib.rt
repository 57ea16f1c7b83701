//! What a table of directions states beside the least-squares directions of its station, target by
//! target.
//!
//! `lines_by` answers for each target of a station the least-squares direction; and, where the
//! table states one, that, and the difference of the two after the rotation that makes the largest
//! difference smallest: exactly rounded. `differences_by` answers the same of a table that lacks
//! none. `text_of` is their text, in rows or in JSON lines. `table_answers` reads the files and
//! prints it.
#![tactic(auto)]

mod angles;
mod arc;
mod compared;
mod difference;
mod json_lines;
pub mod laws;
mod line;
mod line_form;
mod lines;
mod median;
mod stated;
mod text;

pub use compared::{TargetDifference, differences_by};
pub use line::{LackingTarget, TargetLine, lines_of};
pub use line_form::{LineForm, text_of};
pub use lines::lines_by;
pub use median::median_of;
pub use stated::is_enough;
pub use text::{are_short, push_from_median, push_stated};
