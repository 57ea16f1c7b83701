//! A table of the directions of all stations of a field file, and the part of each in it.
//!
//! A line is of a station where it begins with the name of that, perhaps in double quotes, and a
//! comma, a semicolon or a tab; the part of the station is those lines without them. So a part is
//! a table of the one station, and is read as such. `lines_of` finds the lines, `first_stray` the
//! first that is of no station, `part_of` a part, and `line_of_row` the line of a row of it.
#![tactic(auto)]

pub mod laws;
mod line;
mod part;
mod said;
mod stray;

pub use line::{LONGEST_TABLES, lines_of};
pub use part::{line_of_row, part_of};
pub use stray::first_stray;
