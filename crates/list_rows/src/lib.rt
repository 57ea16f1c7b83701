//! The list of a field file's stations as rows for other programs.
//!
//! `write_rows` reads a field file and writes a row of titles, and a row for each two-face
//! direction: the station, the set, the target, the direction in gon, and both face differences in
//! mgon. What is listed, and each fault, is as of the plain list. `run_list_rows` does the same as
//! a command: the text, the line of a refusal or the note of what went unchecked, and the exit
//! status.
#![tactic(auto)]

mod cell;
mod put;
mod row;
mod rows;
mod runs;
mod text;

pub use rows::write_rows;
pub use runs::run_list_rows;
pub use text::text_of;
