//! A table of directions as programs print them, read exactly, with its first fault named.
//!
//! A table has a row for each target of a station, in any order, with two columns, names and
//! directions; titles may stand in the first row. Commas, semicolons, tabs or blanks separate the
//! columns, as the first row tells. Of a table that is none of two columns the one pair of columns
//! that fits is read, or the pair that is stated. A direction is in gon or in degrees, with a
//! decimal point or comma; degrees may have their minutes and seconds.
#![tactic(auto)]

mod cell;
mod columns;
mod decimal;
mod decimals;
mod degrees;
mod direction;
mod draft;
mod entry;
mod fault;
mod field;
mod form;
mod found;
mod gon;
pub mod laws;
mod limit;
mod note;
mod number_columns;
mod picked;
mod reading;
mod records;
mod separator;
mod table;
mod taken;
mod text;
mod unit;
mod way;

pub use decimal::{MOST_DIGITS, Size, read_decimal};
pub use decimals::{Decimals, MOST_WRITTEN};
pub use direction::{CIRCLE_PARTS, DEGREE_PARTS};
pub use fault::{RowKind, TableFault};
pub use form::{ColumnPair, TableForm, stated_columns};
pub use gon::GON;
pub use limit::{LARGEST_WITHIN, USUAL_WITHIN};
pub use note::{Passed, told_note};
pub use reading::{
    ByColumns, LONGEST_TABLE, PartTable, StatedTable, read_part_table, read_stated_table,
    read_table,
};
pub use table::{TargetDirection, table_text};
pub use text::push_direction;
pub use unit::AngleUnit;
