//! The two forms in which rows are written: with commas between cells and points in numbers, and
//! with semicolons between cells and commas in numbers.
//!
//! A spreadsheet that is set to German or French takes a point for what separates thousands, and
//! reads `-0.134` as -134; the second form is for it.
//!
//! [`step_at`] is how rows are read, byte by byte.
#![tactic(auto)]

mod form;
mod number;
mod steps;
mod writing;

pub use form::RowForm;
pub use number::set_point;
pub use steps::{Place, Step, is_in_row, step_at, without_mark};
pub use writing::{rows_below, rows_in, text_of_row, write_row, written_text};
