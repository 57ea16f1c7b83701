//! What a report is told: its language, and what it notes in its head, as its date, and lines that
//! say something of the job, as its project, its observer or its instrument.
//!
//! `notes_of` reads them of texts `KEY=TEXT`, as those of an option of a command line, and
//! `station_report` prints them.
#![tactic(auto)]

mod notes;
mod stated;

pub use notes::{Note, Notes};
pub use stated::{Unnoted, notes_of};
