//! Reports that say what their field file recorded of instrument and time.
//!
//! They are those of `station_answers`, `book_answers` and `table_answers`, with the lines of
//! `instrument_words` below the line that names the field file. The bytes that the reader gives are
//! kept while the station is surveyed, so that the words of the very bytes are told that were read.
//! A report that is told to be divided is printed in pages. After rows stand rows of those words.
#![tactic(auto)]

pub mod laws;
mod printing;
mod recorded;
mod report_with_table;
mod station;
mod stations;
mod telling;

pub use printing::as_printed;
pub use recorded::push_further_row;
pub use report_with_table::{run_table_report, table_report_of};
pub use station::{report_of, rows_of, run_report, run_rows};
pub use stations::{run_reports, run_rows_of_all};
