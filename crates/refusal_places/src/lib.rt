//! Where a refusal stands: the block, the row or the thing of a station that its line names, and the
//! bytes of the line or the row in the file.
//!
//! A page marks that line, and reads no sentence for it. [`place_in`] answers all of it, and
//! [`place_text`] hands it out as a row; [`named_in`] gives the number alone, [`line_span`] the bytes
//! of a line of a field file, [`row_span`] and [`table_row_span`] those of a row of a sheet or a
//! table, and [`row_of_kind`] a row of a sheet that is counted among those of its kind.
#![tactic(auto)]

mod kind;
pub mod laws;
mod line;
mod meant;
mod meant_part;
mod named;
mod number;
mod place;
mod row;
mod rows;
mod span;
mod text;

pub use kind::{KindRow, row_of_kind};
pub use line::line_span;
pub use meant::{Meant, meant_in};
pub use named::{Named, named_in};
pub use place::{Found, Place, place_in};
pub use row::{row_span, table_row_span};
pub use span::Span;
pub use text::place_text;
