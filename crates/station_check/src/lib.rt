//! The library `station_check` (the program of this name is `station_program`): the check of a
//! sheet against the field file of its station, from end to end, and what else is printed of field
//! files.
//!
//! | Call | Does |
//! |---|---|
//! | `check_bytes` | accepts a sheet, or answers the first fault of the field file or the sheet |
//! | `check_slices` | the same of bytes that are at hand |
//! | `write_means` | writes the sheet of a station whose sets are complete: means |
//! | `write_list` | writes the stations of a field file, their directions and face differences |
//! | `write_words` | writes the words of a field file |
//! | `check_sources` | as `check_bytes`, and gives the field file's reader back |
//! | `check_kept` | the same by readers that keep their bytes: an acceptance is of exactly these |
//! | `stations_of_file` | the stations of a field file, for other libraries, and its reader |
//! | `noted_stations_of_file` | the same, and how many readings stand in no set |
//! | `note_unchecked` | notes how many these are; `unchecked_line`: the line of it |
//! | `observation_at`, `differences_at` | what a station has at a place, for other texts |
//! | `run_check`, `run_means`, `run_list`, `run_words` | the commands: text and exit status |
//!
//! Each reads its bytes from a `Source` and writes to a `Sink`, which may be a file, a slice, or
//! what a caller makes of them. The promise of the whole is the contract of `check_bytes`.
//!
//! A caller who has a field file and a sheet at hand:
//!
//! ```
//! use adjust_kernel::Accepted;
//! use station_book::Limits;
//! use station_check::{Fault, check_slices};
//! use std::alloc::Global;
//!
//! fn checked(alloc: Global, gsi: &[u8], sheet: &[u8], limits: Limits) -> Result<Accepted, Fault> {
//!     check_slices(alloc, gsi, sheet, limits, None)
//! }
//! ```
#![tactic(auto)]

mod accepted;
mod check;
mod fault;
mod kept;
mod label;
pub mod laws;
mod list;
mod list_lines;
mod list_note;
mod means;
mod page;
mod put;
mod refused;
mod runs;
mod sheet_input;
mod survey;
mod verdict_line;
mod version;
mod whole_text;
mod word_line;
mod words;

pub use accepted::accepted_line;
pub use check::{check_bytes, check_slices, check_sources, source_of};
pub use fault::Fault;
pub use kept::check_kept;
pub use list::{differences_at, noted_stations_of_file, observation_at, write_list};
pub use list_note::unchecked_line;
pub use means::write_means;
pub use page::Page;
pub use refused::{
    LONGEST_CARRIED, LONGEST_PLACE, add_carried, add_number, add_numbered_place, add_place,
    refusal_line,
};
pub use runs::{
    ACCEPTED, REFUSED, note_unchecked, refuse, refuse_by, run_check, run_list, run_means, run_words,
};
pub use survey::stations_of_file;
pub use verdict_line::{
    LONGEST_U32, LONGEST_U64, LONGEST_VERDICT_LINE, VerdictLine, add, add_numbered,
};
pub use version::VERSION;
pub use whole_text::write_whole;
pub use words::write_words;
