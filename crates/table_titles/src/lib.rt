//! The columns of a table of directions by their titles.
//!
//! A table that other programs print may have many columns. Its user knows them by their titles
//! and not by their numbers: here the two that are stated are found in the row of titles, and
//! answered as the numbers by which the table is read.
#![tactic(auto)]

mod columns;
mod fault;
mod line;
mod row;
mod titles;

pub use columns::{columns_by_titles, titled_columns};
pub use fault::TitlesFault;
pub use line::titles_line;
pub use titles::{TitleOf, Titles};
